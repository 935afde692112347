//! Merges of files that are read by position: a read that fails, and refused memory.

ghost use Rattle.std.specs.Prelude.{None};
ghost use Rattle.byte_io.specs.Inputs.{untold};

use super::calls::copied;
use byte_io::{InputFault, Inputs, Opened};
use pdb_info::Settings;
use pdb_merge::{BoundedInputs, MergeFault, PdbFault, merge_files};
use std::alloc::Allocator;
use std::test::Fail;
use test_samples::{LIMIT, Positions, folding, pdb_with, refusals, sample, settings};
use type_table::Canon;

/// Files that are read by position. In each of them the read with a number fails. Clauses do not
/// see their bytes.
#[derive(Drop)]
struct Parts<'p> {
    files: &'p [&'p [u8]],
    fails_at: usize,
    /// whether each file can be read whole as well
    whole: bool,
}

impl<'p> Parts<'p> {
    /// The bytes of the file at a position. A file without bytes cannot be opened.
    fn file(&self, input: usize) -> Result<&'p [u8], InputFault> {
        match self.files.get(input) {
            Some(file) if !file.is_empty() => Ok(*file),
            _ => Err(InputFault::Open),
        }
    }
}

impl<'p> Inputs for Parts<'p> {
    ghost known = { λ _. None };

    ghost outcomes = { λ _ _. untold };

    type File = Positions<'p>;

    fn count(&self) -> usize {
        self.files.len()
    }

    fn read<'a, A: Allocator>(
        &'a self,
        input: usize,
        _buffer: &'a mut Vec<u8, A>,
    ) -> Result<&'a [u8], InputFault> {
        if self.whole {
            self.file(input)
        } else {
            Err(InputFault::Open)
        }
    }

    fn open<'a, A: Allocator>(
        &'a self,
        input: usize,
        _buffer: &'a mut Vec<u8, A>,
    ) -> Result<Opened<'a, Positions<'p>>, InputFault> {
        Ok(Opened::At(Positions::new(self.file(input)?, self.fails_at)))
    }

    fn check(&self, input: usize) -> Result<(), InputFault> {
        self.file(input)?;
        Ok(())
    }
}

impl<'p> BoundedInputs for Parts<'p> {
    ghost needs = { λ _ _. ⊥ };

    fn is_needed(&self, _input: usize) -> bool {
        false
    }
}

/// The list of the types of files that are read by position.
fn list_at<A: Allocator + Copy>(
    alloc: A,
    files: Parts<'_>,
    settings: &Settings,
) -> Result<Canon<A>, MergeFault<A>> {
    merge_files(alloc, files, settings, folding())
}

/// The list of the types of files that are read by position and cannot be read whole.
fn parts_alone<A: Allocator + Copy>(
    alloc: A,
    files: &[&[u8]],
    fails_at: usize,
    settings: &Settings,
) -> Result<Canon<A>, MergeFault<A>> {
    let files = Parts {
        files,
        fails_at,
        whole: false,
    };
    list_at(alloc, files, settings)
}

#[test]
fn after_a_read_that_fails_the_file_is_read_whole(rt: HostRuntime) -> Result<(), Fail> {
    let file = sample(rt.alloc())?;
    let files = [file.as_slice(), file.as_slice()];
    let settings = settings(LIMIT, 4096)?;
    let want = merge_files(rt.alloc(), &files[..], &settings, folding());
    let want = copied(rt.alloc(), &want.ok().ok_or("the sample is refused")?)?;
    for fails_at in 0..100usize {
        let files_at = Parts {
            files: &files,
            fails_at,
            whole: true,
        };
        let list = list_at(rt.alloc(), files_at, &settings);
        let canon = list.ok().ok_or("the files are refused")?;
        assert!(rt; copied(rt.alloc(), &canon)? == want, "read {fails_at}");
        match parts_alone(rt.alloc(), &files, fails_at, &settings) {
            Ok(_) => {
                // no read has this number
                assert!(rt; 0 < fails_at);
                return Ok(());
            }
            Err(fault) => assert_eq!(rt;
                fault,
                MergeFault::Input {
                    file: 0,
                    fault: InputFault::Open
                },
                "read {fails_at}"
            ),
        }
    }
    Err("too many reads".into())
}

#[test]
fn growth_is_refused_by_position(rt: HostRuntime) -> Result<(), Fail> {
    let file = sample(rt.alloc())?;
    let files = [file.as_slice(), file.as_slice()];
    let settings = settings(LIMIT, 4096)?;
    refusals(rt.alloc(), 64, 96, |heap| {
        match parts_alone(heap, &files, usize::MAX, &settings) {
            Ok(_) => Ok(false),
            Err(MergeFault::Memory) => Ok(true),
            Err(_) => Err("refused for another reason".into()),
        }
    })?;
    Ok(())
}
