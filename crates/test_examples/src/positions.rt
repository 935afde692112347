//! Commands on a file that is read by position, and whole where a read by position fails.

ghost use Rattle.std.specs.Prelude.{◌≡◌, None, IfSome, length};
ghost use Rattle.byte_io.specs.Inputs.{untold};

use byte_io::{InputFault, Inputs, Opened, Out};
use run_options::Shown;
use show_commands::{RunFault, run_shown};
use std::alloc::{AllocError, Allocator, Global};
use std::test::Fail;
use test_samples::{Positions, pdb_with, pointer, put, sample};

/// One file, of which a read by position fails. It has other bytes where it is read whole, so that
/// these can be told apart.
#[derive(Drop)]
struct Changing<'f> {
    file: &'f [u8],
    fails_at: usize,
    whole: Option<&'f [u8]>,
}

impl<'f> Inputs for Changing<'f> {
    ghost known = { λ _. None };

    ghost outcomes = { λ _ _. untold };

    type File = Positions<'f>;

    fn count(&self) -> usize {
        1
    }

    fn read<'a, A: Allocator>(
        &'a self,
        _input: usize,
        _buffer: &'a mut Vec<u8, A>,
    ) -> Result<&'a [u8], InputFault> {
        self.whole.ok_or(InputFault::Open)
    }

    fn open<'a, A: Allocator>(
        &'a self,
        _input: usize,
        _buffer: &'a mut Vec<u8, A>,
    ) -> Result<Opened<'a, Positions<'f>>, InputFault> {
        Ok(Opened::At(Positions::new(self.file, self.fails_at)))
    }

    fn check(&self, _input: usize) -> Result<(), InputFault> {
        Ok(())
    }
}

/// What a command answers, and what it prints.
fn given<I: Inputs>(alloc: Global, command: Shown, inputs: &I) -> (Result<(), RunFault>, Vec<u8>)
    requires { IfSome (I.known inputs.now) (λ each. length each ≡ 1) }
{
    let mut text = Vec::new(alloc);
    let mut out = Out::new(&mut text);
    let answer = run_shown(alloc, command, inputs, u32::MAX, &mut out);
    drop(out);
    (answer, text)
}

/// A file that differs from the sample in all that a command shows: in its records, its streams and its
/// age.
fn other_file(alloc: Global) -> Result<Vec<u8>, AllocError> {
    let mut file = pdb_with(alloc, &[&pointer(0x40)])?;
    for at in 0..file.len() {
        let is_header = match file.get(at..) {
            // the version, the signature and the age
            Some(rest) => rest.starts_with(b"\x94\x2e\x31\x01\0\0\0\0\x01"),
            None => false,
        };
        if is_header {
            put(&mut file, at.saturating_add(8), &[7]);
        }
    }
    Ok(file)
}

const SHOWN: [Shown; 6] = [
    Shown::Records,
    Shown::Record(0x1000),
    Shown::Types,
    Shown::Check,
    Shown::Info,
    Shown::Streams,
];

#[test]
fn after_a_read_that_fails_the_file_is_read_whole(rt: HostRuntime) -> Result<(), Fail> {
    let file = sample(rt.alloc())?;
    let other = other_file(rt.alloc())?;
    for command in SHOWN {
        let (first, text) = given(rt.alloc(), command, &[file.as_slice()].as_slice());
        let (second, other_text) = given(rt.alloc(), command, &[other.as_slice()].as_slice());
        assert!(rt; first == Ok(()) && second == Ok(()) && text != other_text);
        let mut by_whole = 0usize;
        for fails_at in 0..100usize {
            let inputs = Changing {
                file: &file,
                fails_at,
                whole: Some(&other),
            };
            let (answer, shown) = given(rt.alloc(), command, &inputs);
            assert_eq!(rt; answer, Ok(()), "read {fails_at}");
            if shown == other_text {
                assert_eq!(rt; by_whole, fails_at);
                by_whole = fails_at.saturating_add(1);
            } else {
                assert!(rt; shown == text, "read {fails_at}");
            }
        }
        assert!(rt; 0 < by_whole && by_whole < 100);
    }
    Ok(())
}

#[test]
fn a_file_that_is_gone_after_a_read_that_fails_is_refused(rt: HostRuntime) -> Result<(), Fail> {
    let file = sample(rt.alloc())?;
    for command in SHOWN {
        let inputs = Changing {
            file: &file,
            fails_at: 0,
            whole: None,
        };
        let (answer, text) = given(rt.alloc(), command, &inputs);
        assert!(rt; answer == Err(RunFault::Open) && text.is_empty());
    }
    Ok(())
}
