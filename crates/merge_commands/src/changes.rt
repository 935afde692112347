//! The command `diff --members`: shows which definitions came, went or changed between two files.

ghost use Rattle.std.specs.Prelude.{◌≡◌, ◌≢◌, true, Err, OnOk, IfOk, IfErr, IfSome, length};
ghost use Rattle.byte_io.specs.Inputs.{CanRead};
ghost use Rattle.pdb_merge.specs.Answer.{RefusesReading};
ghost use Rattle.pdb_merge.specs.declared.fault.MergeFault.{MergeFault};
ghost use Rattle.merge_commands.specs.Changes.{ShowsChanges, ShowedChanges, ShowedChangesPart};
ghost use Rattle.merge_commands.specs.Merge.{AnswersReading, IsOfMerging};

use byte_io::{Sink, put_all};
use pdb_merge::{BoundedInputs, InputBuffer, read_input_types};
use show_commands::RunFault;
use std::alloc::Allocator;
use std::hash::BuildHasher;
use type_changes::push_changes;

/// Reads the types of two inputs, and makes the text of what changed between them.
fn changes_text<I: BoundedInputs, S: BuildHasher + Drop + Copy, A: Allocator + Copy>(
    alloc: A,
    inputs: &I,
    hasher: S,
) -> Result<Vec<u8, A>, RunFault<A>>
    requires { IfSome (I.known inputs.now) (λ each. length each ≡ 2) }
    ensures value { IfOk result (λ text. ShowsChanges (I.known inputs.now) text.items) }
    ensures read { OnOk result (IfSome (I.known inputs.now) (λ each. CanRead each (length each))) }
    ensures own { IfErr result (λ fault. IsOfMerging fault × (fault ≢ RunFault.Write)) }
    ensures refuses { IfErr result (λ fault.
        (inner : MergeFault A) → fault ≡ RunFault.Merge inner →
        RefusesReading (I.known inputs.now) inner) }
{
    let mut buffer = InputBuffer::new(alloc);
    let mut first = read_input_types(alloc, inputs, 0, &mut buffer)?;
    let mut second_buffer = InputBuffer::new(alloc);
    let mut second = read_input_types(alloc, inputs, 1, &mut second_buffer)?;
    first.index(alloc)?;
    second.index(alloc)?;
    let mut text = Vec::new(alloc);
    push_changes(alloc, hasher, &mut text, &first, &second)?;
    Ok(text)
}

/// Runs the command `diff --members`: writes which definitions came, went or changed between two
/// inputs, and in which members. Returns whether both have the same definitions.
///
/// First come the definitions of the first input that the second one lacks, each once, in the order
/// of their records: `~ `, the head of the definition and its new size where it changed, and then
/// the lines of members that only one side has, after `  - ` and `  + `; or `- ` and the whole of
/// it. Then come those that only the second input has, with `+ `. A definition changed where it is
/// the only one of its side with its key that the other side lacks, and the other side has just one
/// such definition. Nothing is written exactly if the inputs have the same definitions.
///
/// The inputs are opened, read and checked as in [`run_diff`](crate::run_diff), and refused with
/// the same faults, in the same order. The whole text is made before any of it is written. After
/// `Write` the sink is broken and took the first bytes of the text. After any other fault it took
/// nothing.
pub fn run_diff_members<
    I: BoundedInputs,
    W: Sink,
    S: BuildHasher + Drop + Copy,
    A: Allocator + Copy,
>(alloc: A, inputs: &I, out: &mut W, hasher: S) -> Result<bool, RunFault<A>>
    requires two { IfSome (I.known inputs.now) (λ each. length each ≡ 2) }
    ensures answers { AnswersReading (I.known inputs.now) out.old out.new result }
    ensures value { IfOk result
        (ShowedChanges (I.known inputs.now) (W.taken out.old) (W.taken out.new)) }
    ensures write { result ≡ Err RunFault.Write →
        (W.is_broken out.new ≡ true)
        × ShowedChangesPart (I.known inputs.now) (W.taken out.old) (W.taken out.new) }
{
    let text = changes_text(alloc, inputs, hasher)?;
    put_all(out, &text)?;
    Ok(text.is_empty())
}
