//! The line of a run: its name, and what was answered.
//!
//! After `ok` a line has the number of bytes that were written, their hash, how many lines they
//! are, and the sum of the numbers that end a line. So what was written can be compared without its
//! text. The line of `check`, and of a merge, has the words of the report after these. After
//! `fault` a line has the text of the fault.

use show_commands::RunFault;
use std::fmt::Write;

/// The hash of no bytes, and the factor of the hash FNV-1a with 64 bits.
const FNV_BASIS: u64 = 0xcbf2_9ce4_8422_2325;

const FNV_PRIME: u64 = 0x0000_0100_0000_01b3;

/// What a line says of the bytes that were written.
#[derive(Drop)]
struct Sums {
    hash: u64,
    lines: u64,
    total: u64,
}

/// The number after one more byte. A byte that is no digit begins a new number.
fn number_after(number: u64, byte: u8) -> u64 {
    if byte.is_ascii_digit() {
        number.wrapping_mul(10).wrapping_add(u64::from(byte & 15))
    } else {
        0
    }
}

/// Goes over the bytes once.
fn sums_of(bytes: &[u8]) -> Sums {
    let mut hash = FNV_BASIS;
    let (mut lines, mut total, mut number) = (0u64, 0u64, 0u64);
    for byte in bytes {
        hash = (hash ^ u64::from(*byte)).wrapping_mul(FNV_PRIME);
        if *byte == b'\n' {
            lines = lines.wrapping_add(1);
            total = total.wrapping_add(number);
        }
        number = number_after(number, *byte);
    }
    Sums { hash, lines, total }
}

/// Appends what a line says of the bytes that were written, up to its words.
pub fn push_written(text: &mut String, name: &str, written: &[u8]) -> Option<()> {
    let sums = sums_of(written);
    let length = written.len();
    let (hash, lines, total) = (sums.hash, sums.lines, sums.total);
    write!(text, "{name} ok {length} {hash:016x} {lines} {total}").ok()
}

/// Appends the words of a report, each after a space.
pub fn push_words(text: &mut String, report: &[u8]) -> Option<()> {
    for line in str::from_utf8(report).ok()?.lines() {
        text.push(' ').ok()?;
        text.push_str(line).ok()?;
    }
    Some(())
}

/// Appends the line of a run that was refused. `none_written` is whether it wrote nothing, as is
/// promised.
pub fn push_fault(
    text: &mut String,
    name: &str,
    fault: &RunFault,
    none_written: bool,
) -> Option<()> {
    let said = if none_written { "fault" } else { "wrote, and" };
    writeln!(text, "{name} {said} {fault}").ok()
}

/// Ends a line.
pub fn push_end(text: &mut String) -> Option<()> {
    text.push('\n').ok()
}
