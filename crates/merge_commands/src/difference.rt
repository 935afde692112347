//! The command `diff`: shows the types that only one of two files has.

ghost use Rattle.std.specs.Prelude.{◌≡◌, ◌≢◌, true, OnOk, IfOk, IfErr, IfSome, length, string_bytes};
ghost use Rattle.byte_io.specs.Inputs.{CanRead};
ghost use Rattle.pdb_merge.specs.Answer.{RefusesReading};
ghost use Rattle.pdb_merge.specs.declared.fault.MergeFault.{MergeFault};
ghost use Rattle.merge_commands.specs.Difference.{ShowsInputs, Compared, ComparedPart};
ghost use Rattle.merge_commands.specs.Merge.{AnswersReading, IsOfMerging};

use byte_io::{Sink, put_all};
use output_lines::push_difference;
use pdb_merge::{BoundedInputs, InputBuffer, read_input_types};
use run_options::Scope;
use show_commands::RunFault;
use std::alloc::Allocator;
use std::hash::BuildHasher;
use type_difference::compare;

/// Reads the types of two inputs, and makes the text of their difference.
fn difference_text<I: BoundedInputs, S: BuildHasher + Drop, A: Allocator + Copy>(
    alloc: A,
    inputs: &I,
    scope: Scope,
    hasher: S,
) -> Result<String<A>, RunFault<A>>
    requires { IfSome (I.known inputs.now) (λ each. length each ≡ 2) }
    ensures value { IfOk result (λ text.
        ShowsInputs scope (I.known inputs.now) (string_bytes text)) }
    ensures read { OnOk result (IfSome (I.known inputs.now) (λ each. CanRead each (length each))) }
    ensures own { IfErr result (λ fault. IsOfMerging fault × (fault ≢ RunFault.Write)) }
    ensures refuses { IfErr result (λ fault.
        (inner : MergeFault A) → fault ≡ RunFault.Merge inner →
        RefusesReading (I.known inputs.now) inner) }
{
    let mut buffer = InputBuffer::new(alloc);
    let first = read_input_types(alloc, inputs, 0, &mut buffer)?;
    let mut second_buffer = InputBuffer::new(alloc);
    let second = read_input_types(alloc, inputs, 1, &mut second_buffer)?;
    let difference = compare(alloc, &first, &second, hasher)?;
    let mut text = String::new(alloc);
    push_difference(&mut text, scope, &first, &second, &difference)?;
    Ok(text)
}

/// Runs the command `diff`: writes a line for each type that only one of two inputs has. Returns
/// whether they have the same types.
///
/// First come the types of the first input that the second one lacks, each once, in the order of
/// their type indices: `- ` and the line that `types` prints for the first record of the type. Then
/// come those of the second input that the first one lacks, with `+ `. A type that names another of
/// these types is shown only with `Scope::All`. Nothing is written exactly if the inputs have the
/// same types.
///
/// The inputs are opened, read and checked as in [`run_merge`](crate::run_merge), and refused with
/// the same faults, in the same order. The types of two inputs are never too large. The whole text
/// is made before any of it is written. After `Write` the sink is broken and took the first bytes
/// of the text. After any other fault it took nothing.
pub fn run_diff<I: BoundedInputs, W: Sink, S: BuildHasher + Drop, A: Allocator + Copy>(
    alloc: A,
    inputs: &I,
    scope: Scope,
    out: &mut W,
    hasher: S,
) -> Result<bool, RunFault<A>>
    requires two { IfSome (I.known inputs.now) (λ each. length each ≡ 2) }
    ensures answers { AnswersReading (I.known inputs.now) out.old out.new result }
    ensures value { IfOk result
        (Compared scope (I.known inputs.now) (W.taken out.old) (W.taken out.new)) }
    ensures write { result ≡ Err RunFault.Write →
        (W.is_broken out.new ≡ true)
        × ComparedPart scope (I.known inputs.now) (W.taken out.old) (W.taken out.new) }
{
    let text = difference_text(alloc, inputs, scope, hasher)?;
    put_all(out, text.as_bytes())?;
    Ok(text.is_empty())
}
