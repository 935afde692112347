//! The report of a merge.

use byte_io::{Out, put_all};
use host_files::{Place, ProgramFault, Said, Stream, TakenStreams, Telling};
use std::io::{Printer, writer};
use std::rt::HostRuntime;

/// More bytes than a report has: four lines with a word and a number each.
pub const REPORT_LENGTH: usize = 96;

/// Standard output, as what takes a text. What the system says of it goes to `said`.
pub fn standard_output<'a>(
    rt: &'a HostRuntime,
    said: &'a Said,
) -> Out<Telling<'a, Printer<'a, HostRuntime>>> {
    Out::new(Telling::new(writer(rt), Place::StandardOutput, said))
}

/// Prints a report to the first of standard output and standard error that is neither OUT nor MAP. If
/// both are, there is no report.
#[inline(never)]
pub fn print(
    rt: &HostRuntime,
    report: &[u8],
    taken: TakenStreams,
    said: &Said,
) -> Result<(), ProgramFault> {
    match taken.free() {
        Some(Stream::Output) => put_all(&mut standard_output(rt, said), report)?,
        Some(Stream::Error) => put_all(&mut Out::new(rt.stderr()), report)?,
        Some(Stream::Input) | None => {}
    }
    Ok(())
}
