//! The files of a case, as the inputs of a merge.

ghost use Rattle.std.specs.Prelude.{None};
ghost use Rattle.byte_io.specs.Inputs.{untold};

use byte_io::{InputFault, Inputs, Opened};
use pdb_merge::BoundedInputs;
use std::alloc::Allocator;

/// Files in memory that are opened to be read by position, as the program opens its files.
#[derive(Clone, Copy, Debug, Drop)]
pub struct Positioned<'f> {
    files: &'f [&'f [u8]],
}

impl<'f> Positioned<'f> {
    /// These files.
    pub fn new(files: &'f [&'f [u8]]) -> Positioned<'f> {
        Positioned { files }
    }

    /// The file at a position.
    fn file(&self, input: usize) -> Result<&'f [u8], InputFault> {
        match self.files.get(input) {
            Some(file) => Ok(*file),
            None => Err(InputFault::Open),
        }
    }
}

impl<'f> Inputs for Positioned<'f> {
    ghost known = { λ _. None };

    ghost outcomes = { λ _ _. untold };

    type File = &'f [u8];

    fn count(&self) -> usize {
        self.files.len()
    }

    fn read<'a, A: Allocator>(
        &'a self,
        input: usize,
        _buffer: &'a mut Vec<u8, A>,
    ) -> Result<&'a [u8], InputFault> {
        self.file(input)
    }

    fn open<'a, A: Allocator>(
        &'a self,
        input: usize,
        _buffer: &'a mut Vec<u8, A>,
    ) -> Result<Opened<'a, &'f [u8]>, InputFault> {
        Ok(Opened::At(self.file(input)?))
    }

    fn check(&self, input: usize) -> Result<(), InputFault> {
        self.file(input)?;
        Ok(())
    }
}

impl<'f> BoundedInputs for Positioned<'f> {
    ghost needs = { λ _ _. ⊥ };

    fn is_needed(&self, _input: usize) -> bool {
        false
    }
}
