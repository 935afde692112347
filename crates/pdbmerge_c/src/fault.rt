//! What a call says of its fault.

ghost use Rattle.std.specs.Prelude.{◌≡◌, ◌≢◌, ◌≤◌, ◌<◌};
ghost use Rattle.pdbmerge_c.specs.Fault.{IsEnded};
ghost use Rattle.pdbmerge_c.specs.Fault.{IsTold, input_code, no_number};

use crate::text::Text;
use std::fmt::{Display, Write};

/// All went well.
pub(crate) const DONE: u32 = 0;

/// Out of memory.
pub(crate) const MEMORY: u32 = 33;

/// No record has the type index that is asked for.
pub(crate) const NO_RECORD: u32 = 39;

/// There is too little room for the answer.
pub(crate) const ROOM: u32 = 100;

/// No file can have these settings.
pub(crate) const SETTINGS: u32 = 101;

/// What a call says of its fault.
#[repr(C)]
#[derive(Clone, Copy, Debug)]
pub struct Fault {
    /// The position of the input at fault, from 0. 2^64 - 1 where the fault names none.
    pub input: u64,
    /// How many bytes the whole text has, with those that are not kept. No byte is a NUL.
    pub length: u64,
    /// What the call returned: 0, or the number of the fault.
    pub number: u32,
    /// The first 235 bytes of the text of the fault, as the program prints it, and NULs.
    pub text: [u8; 236],
}

/// The number for an input, or for none.
fn input_code(input: Option<usize>) -> u64
    ensures { result ≡ input_code input }
{
    match input {
        Some(input) => input as u64,
        None => u64::MAX,
    }
}

/// Says that all went well.
pub(crate) fn clear(fault: &mut Fault) -> u32
    ensures done { result ≡ 0 }
    ensures told { IsTold fault.new result no_number }
    ensures ended { IsEnded fault.new }
{
    fault.input = input_code(None);
    fault.number = DONE;
    (fault.text, fault.length) = Text::new().finish();
    DONE
}

/// Says what the fault is, and returns its number. `input` is the position of the input at fault.
pub(crate) fn tell<D: Display>(fault: &mut Fault, number: u32, input: Option<usize>, why: &D) -> u32
    ensures number { result ≡ number }
    ensures told { IsTold fault.new number (input_code input) }
    ensures ended { IsEnded fault.new }
{
    let mut text = Text::new();
    let _ = write!(text, "{why}");
    (fault.text, fault.length) = text.finish();
    fault.number = number;
    fault.input = input_code(input);
    number
}

/// Says why bytes are refused, and returns the number of the fault, which is neither `ROOM` nor
/// `SETTINGS`.
pub(crate) fn refuse<D: Display>(
    fault: &mut Fault,
    number: u32,
    input: Option<usize>,
    why: &D,
) -> u32
    requires known { (1 ≤ number) × (number < 100) }
    ensures number { result ≡ number }
    ensures some { result ≢ 0 }
    ensures room { result ≢ 100 }
    ensures settings { result ≢ 101 }
    ensures told { IsTold fault.new number (input_code input) }
    ensures ended { IsEnded fault.new }
{
    tell(fault, number, input, why)
}
