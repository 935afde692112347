//! The command `members`: shows the definitions of the types of a file.

ghost use Rattle.std.specs.Prelude.{◌≡◌, ◌≢◌, true, Err, OnOk, IfOk, IfErr, IfSome, length};
ghost use Rattle.byte_io.specs.Inputs.{CanRead};
ghost use Rattle.show_commands.specs.Members.{AnswersOne, RefusesOne, ShowsMembers, ShowedMembers, ShowedMembersPart};

use crate::fault::RunFault;
use byte_io::{Sink, put_all};
use pdb_merge::{BoundedInputs, InputBuffer, read_input_types};
use std::alloc::Allocator;
use type_expressions::{Asked, find_asked, push_definitions};

/// Reads the types of an input, and makes the text of the definitions that are asked for.
fn members_text<I: BoundedInputs, A: Allocator + Copy>(
    alloc: A,
    inputs: &I,
    asked: &mut [Asked<'_>],
) -> Result<Vec<u8, A>, RunFault<A>>
    requires { IfSome (I.known inputs.now) (λ each. length each ≡ 1) }
    ensures value { IfOk result (λ text.
        ShowsMembers (I.known inputs.now) asked.old asked.new text.items) }
    ensures read { OnOk result (IfSome (I.known inputs.now) (λ each. CanRead each (length each))) }
    ensures refuses { IfErr result (RefusesOne (I.known inputs.now)) }
    ensures unwritten { IfErr result (λ fault. fault ≢ RunFault.Write) }
{
    let mut buffer = InputBuffer::new(alloc);
    let mut types = match read_input_types(alloc, inputs, 0, &mut buffer) {
        Ok(types) => types,
        Err(fault) => return Err(RunFault::of_one(fault)),
    };
    types.index(alloc)?;
    find_asked(&types, asked);
    let mut text = Vec::new(alloc);
    push_definitions(alloc, &mut text, &types, asked)?;
    Ok(text)
}

/// Runs the command `members`: writes the definitions of the types of one input, in the order of
/// their records: its head, and a line for each of its members.
///
/// If something is asked for, only that is shown, and `asked` says afterwards what was found of it.
/// A declaration is shown only where it is asked for, and no definition is found of that. If
/// nothing is asked for, all definitions are shown.
///
/// The input is opened, read and checked as in a merge, and refused with the same faults, in the same
/// order, which do not count it. The whole text is made before any of it is written. After
/// `Write` the sink is broken and took the first bytes of the text. After any other fault it took
/// nothing.
pub fn run_members<I: BoundedInputs, W: Sink, A: Allocator + Copy>(
    alloc: A,
    inputs: &I,
    asked: &mut [Asked<'_>],
    out: &mut W,
) -> Result<(), RunFault<A>>
    requires one { IfSome (I.known inputs.now) (λ each. length each ≡ 1) }
    ensures answers { AnswersOne (I.known inputs.now) out.old out.new result }
    ensures value { OnOk result (ShowedMembers (I.known inputs.now) asked.old asked.new
        (W.taken out.old) (W.taken out.new)) }
    ensures write { result ≡ Err RunFault.Write →
        (W.is_broken out.new ≡ true)
        × ShowedMembersPart (I.known inputs.now) asked.old asked.new
        (W.taken out.old) (W.taken out.new) }
{
    let text = members_text(alloc, inputs, asked)?;
    put_all(out, &text)?;
    Ok(())
}
