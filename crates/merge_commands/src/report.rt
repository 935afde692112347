//! The report of a merge.

ghost use Rattle.std.specs.Prelude.{◌≡◌, ◌⊎◌, ◌++◌, true, Err, OnOk, IfErr, codes, string_bytes};
ghost use Rattle.std.specs.Io.KnownBytes.{Appends};
ghost use Rattle.msf_streams.specs.Put.{AppendsPart};
ghost use Rattle.output_words.specs.Text.{named_line};
ghost use Rattle.merge_commands.specs.Merge.{report_lines, summary_lines};

use byte_io::{Sink, put_all};
use output_words::{push_named, push_number};
use pdb_merge::Summary;
use run_options::OnRefused;
use show_commands::RunFault;
use std::alloc::{AllocError, Allocator};

/// Appends the number of types, of their bytes and of the bytes of the file, one per line.
#[tactic(auto, unfolding(crate::specs::Merge::summary_lines))]
fn push_summary<A: Allocator>(text: &mut String<A>, summary: &Summary) -> Result<(), AllocError>
    ensures { OnOk result
        (string_bytes text.new ≡ string_bytes text.old ++ summary_lines summary.now) }
{
    push_named(text, "types", summary.types)?;
    push_named(text, "bytes", summary.bytes)?;
    push_named(text, "file", summary.length)?;
    Ok(())
}

/// Appends a line with how many inputs were left out.
#[tactic(auto, unfolding(output_words::specs::Text::named_line))]
fn push_left_out<A: Allocator>(text: &mut String<A>, left_out: usize) -> Result<(), AllocError>
    ensures { OnOk result (string_bytes text.new
        ≡ string_bytes text.old ++ named_line (codes "refused") left_out) }
{
    text.push_str("refused")?;
    push_number(text, left_out as u64)?;
    text.push_str("\n")?;
    Ok(())
}

/// Appends the lines of a report: these numbers, and where files that are refused are left out, how many
/// were.
#[tactic(auto, unfolding(crate::specs::Merge::report_lines))]
fn push_report<A: Allocator>(
    text: &mut String<A>,
    summary: &Summary,
    refused: OnRefused,
    left_out: usize,
) -> Result<(), AllocError>
    ensures { OnOk result (string_bytes text.new
        ≡ string_bytes text.old ++ report_lines summary.now refused left_out) }
{
    push_summary(text, summary)?;
    match refused {
        OnRefused::Stop => Ok(()),
        OnRefused::Skip => push_left_out(text, left_out),
    }
}

/// Makes the report on a file that was written, and writes it.
///
/// After `Memory` nothing was written. After `Write` the sink is broken, and took the first bytes of
/// the report.
pub(crate) fn report_on<V: Sink, A: Allocator>(
    alloc: A,
    summary: &Summary,
    refused: OnRefused,
    left_out: usize,
    report: &mut V,
) -> Result<(), RunFault<A>>
    ensures value { OnOk result (Appends (V.taken report.old) (V.taken report.new)
        (report_lines summary.now refused left_out)) }
    ensures fault { IfErr result (λ fault. (fault ≡ RunFault.Memory) ⊎ (fault ≡ RunFault.Write)) }
    ensures write { result ≡ Err RunFault.Write →
        (V.is_broken report.new ≡ true)
        × AppendsPart (V.taken report.old) (V.taken report.new)
        (report_lines summary.now refused left_out) }
    ensures untouched { result ≡ Err RunFault.Memory → report.new ≡ report.old }
{
    let mut text = String::new(alloc);
    push_report(&mut text, summary, refused, left_out)?;
    put_all(report, text.as_bytes())?;
    Ok(())
}
