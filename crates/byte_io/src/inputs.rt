//! Several inputs, which are read one after the other.

ghost use Rattle.std.specs.Prelude.{◌≡◌, ◌⊎◌, ◌<◌, ℕ, List, Option, Some, Result, Ok, Err, [], length, map, get_or, slice_get, IfOk, IfErr, IfSome};
ghost use Rattle.byte_io.specs.Inputs.{HasBytes, in_memory, is_opened_broken, opened_bytes};
ghost use Rattle.byte_io.specs.declared.input.ReadFault.TheVariants as reads;
ghost use Rattle.byte_io.specs.Fault.{input_number};

use crate::at::{Lend, ReadAt};
use crate::input::ReadFault;
use std::alloc::Allocator;
use thiserror::Error;

/// Why one of several inputs was not read.
#[derive(Clone, Copy, Debug, PartialEq, Eq, Error)]
pub enum InputFault {
    /// The input cannot be opened.
    #[error("40 Open")]
    Open,
    /// The input was not read to its end.
    #[error("{0}")]
    Read(ReadFault),
}

impl InputFault {
    /// The number of the fault, which stands in its text.
    pub fn number(&self) -> u32
        ensures { result ≡ input_number self.now }
    {
        match self {
            InputFault::Open => 40,
            InputFault::Read(fault) => fault.number(),
        }
    }
}

/// An input that was opened.
#[derive(Debug, Drop)]
pub enum Opened<'a, F> {
    /// It was read to its end, and these are its bytes.
    Whole(&'a [u8]),
    /// It can be read by position. Nothing of it was read yet.
    At(F),
}

impl<'a, F: ReadAt> ReadAt for Opened<'a, F> {
    ghost bytes = { opened_bytes F.bytes };

    ghost is_broken = { is_opened_broken F.is_broken };

    fn len(&self) -> u64 {
        match self {
            Opened::Whole(file) => file.len() as u64,
            Opened::At(input) => input.len(),
        }
    }

    fn read_at(&mut self, offset: u64, into: &mut [u8]) -> Option<()> {
        match self {
            Opened::Whole(file) => file.read_at(offset, into),
            Opened::At(input) => input.read_at(offset, into),
        }
    }
}

impl<'a, F: ReadAt> Lend<'a> for Opened<'a, F> {
    fn part(&self, offset: u64, len: u32) -> Option<&'a [u8]> {
        match self {
            Opened::Whole(file) => file.part(offset, len),
            Opened::At(_) => None,
        }
    }
}

/// Several inputs, which are read one at a time.
///
/// A slice of slices has the bytes of its inputs in memory. The inputs of a program are files. The
/// bytes of a file are not known to contracts, which then claim nothing about them.
pub trait Inputs {
    ghost use Rattle.byte_io.specs.Inputs.{Outcomes};
    ghost use Rattle.byte_io.specs.declared.inputs.InputFault.{InputFault};

    /// What reading each input gives, its bytes or a fault, where this is known.
    ghost known: { Self → Option (List (Result (List ℕ) InputFault)) };

    /// What may come of opening or reading the input at a position, whether it is known or not.
    ghost outcomes: { Self → ℕ → Outcomes };

    /// An input that is read by position.
    type File: ReadAt + Drop;

    /// How many inputs there are.
    fn count(&self) -> usize
        ensures { IfSome (known self.now) (λ each. result ≡ length each) };

    /// Reads the input at a position, from 0, to its end. Its bytes are lent, and may be in the
    /// buffer, whose old bytes are dropped then.
    fn read<'a, A: Allocator>(
        &'a self,
        input: usize,
        buffer: &'a mut Vec<u8, A>,
    ) -> Result<&'a [u8], InputFault>
        requires inside { IfSome (known self.now) (λ each. input < length each) }
        ensures gives { IfOk result (λ bytes. (Self.outcomes self.now input).gives bytes.now) }
        ensures refuses { IfErr result (Self.outcomes self.now input).refuses }
        ensures value { IfSome (known self.now) (λ each.
            IfOk result (λ bytes. slice_get each input ≡ Some (Ok bytes.now))) }
        ensures fault { IfSome (known self.now) (λ each. IfErr result (λ fault.
            (slice_get each input ≡ Some (Err fault)) ⊎ (fault ≡ InputFault.Read reads.Memory))) };

    /// Opens the input at a position, from 0. One that is not read by position is read to its end,
    /// as `read` does.
    fn open<'a, A: Allocator>(
        &'a self,
        input: usize,
        buffer: &'a mut Vec<u8, A>,
    ) -> Result<Opened<'a, Self::File>, InputFault>
        requires inside { IfSome (known self.now) (λ each. input < length each) }
        ensures opens { IfOk result (λ opened.
            (Self.outcomes self.now input).opens (opened_bytes Self.File.bytes opened)) }
        ensures refuses { IfErr result (Self.outcomes self.now input).refuses }
        ensures value { IfSome (known self.now) (λ each. IfOk result (λ opened.
            (bytes : List ℕ) × (slice_get each input ≡ Some (Ok bytes))
            × HasBytes Self.File.bytes opened bytes)) }
        ensures fault { IfSome (known self.now) (λ each. IfErr result (λ fault.
            (slice_get each input ≡ Some (Err fault)) ⊎ (fault ≡ InputFault.Read reads.Memory))) };

    /// Checks that the input at a position, from 0, can be read to its end. This does not allocate.
    fn check(&self, input: usize) -> Result<(), InputFault>
        requires inside { IfSome (known self.now) (λ each. input < length each) }
        ensures value { IfSome (known self.now) (λ each.
            IfOk result (λ _. (bytes : List ℕ) × (slice_get each input ≡ Some (Ok bytes)))) }
        ensures fault { IfSome (known self.now) (λ each.
            IfErr result (λ fault. slice_get each input ≡ Some (Err fault))) };
}

impl<'f> Inputs for &'f [&'f [u8]] {
    ghost known = { λ s. Some (map Ok (map (λ file. file.now) s.now)) };

    ghost outcomes = { λ s i. in_memory (get_or (map (λ file. file.now) s.now) i []) };

    type File = &'f [u8];

    fn count(&self) -> usize {
        self.len()
    }

    fn read<'a, A: Allocator>(
        &'a self,
        input: usize,
        _buffer: &'a mut Vec<u8, A>,
    ) -> Result<&'a [u8], InputFault> {
        Ok(self[input])
    }

    fn open<'a, A: Allocator>(
        &'a self,
        input: usize,
        _buffer: &'a mut Vec<u8, A>,
    ) -> Result<Opened<'a, &'f [u8]>, InputFault> {
        Ok(Opened::Whole(self[input]))
    }

    fn check(&self, _input: usize) -> Result<(), InputFault> {
        Ok(())
    }
}
