//! Tables and lists that run out of memory.

use super::calls::{
    add, add_as_it_stands, add_stream, copied, empty_table, join, list_of, types_of,
};
use checked_types::Types;
use std::alloc::{Allocator, Global};
use std::hash::BuildHasher;
use std::test::Fail;
use test_samples::{
    CONST, Refusal, TO_FIRST, TO_INT, TO_SECOND, TestHeap, VOLATILE, bytes_of, folding,
    refusals_amid, stream_with,
};
use type_table::{Canon, JoinFault, Table};

/// A limit that no test reaches.
const LIMIT: u32 = 1000;

/// A list that has the types of a stream too.
fn with_stream<A: Allocator + Copy>(
    canon: &Canon<A>,
    alloc: A,
    stream: &[u8],
) -> Result<Canon<A>, Fail> {
    let types = types_of(alloc, stream)?;
    match join(canon, alloc, &types, LIMIT) {
        Ok(both) => Ok(both),
        Err(_) => Err("not joined".into()),
    }
}

/// The canonical list of the types of some streams, joined one after the other.
fn joined<A: Allocator + Copy>(alloc: A, streams: &[&[u8]]) -> Result<Canon<A>, Fail> {
    let mut canon = Canon::empty(alloc);
    for stream in streams {
        canon = with_stream(&canon, alloc, stream)?;
    }
    Ok(canon)
}

/// How many bytes the heap has in a test that runs out of memory.
const HEAP: usize = 4096;

/// A call that is tried while memory is refused: it is given a stream at this limit, where the types
/// of earlier ones are there.
#[derive(Clone, Copy)]
struct Trial<'t> {
    alloc: Global,
    heap: &'t TestHeap,
    refusal: Refusal,
    limit: u32,
    earlier: &'t [&'t [u8]],
    stream: &'t [u8],
}

/// What a call returns while some memory is taken, and the bytes of two lists: the one that the
/// table or the list gives after that, and the one that it gives after the same call with ample
/// memory.
type Answer = (Result<(), JoinFault>, Vec<u8>, Vec<u8>);

/// The bytes of the canonical list of a table.
fn list_bytes<S: BuildHasher, A: Allocator + Copy>(
    alloc: Global,
    heap: A,
    table: &Table<S, A>,
) -> Result<Vec<u8>, Fail> {
    let canon = list_of(heap, table)?;
    copied(alloc, &canon)
}

/// What a call said, and the bytes of two lists of a table: the one that it gives, and the one that
/// it gives when these types were added at this limit.
fn listed_twice<S: BuildHasher, A: Allocator + Copy>(
    alloc: Global,
    heap: A,
    table: &mut Table<S, A>,
    types: &Types<'_, A>,
    limit: u32,
    said: Result<(), JoinFault>,
) -> Result<Answer, Fail> {
    let after = list_bytes(alloc, heap, table)?;
    add(table, heap, types, limit)?;
    Ok((said, after, list_bytes(alloc, heap, table)?))
}

/// Adds types to a table while memory is refused.
fn add_refused<'t, S: BuildHasher>(
    trial: Trial<'t>,
    table: &mut Table<S, &'t TestHeap>,
    types: &Types<'_, &'t TestHeap>,
) -> Result<(), JoinFault> {
    let filler = trial.refusal.begin(trial.heap);
    let said = add(table, trial.heap, types, trial.limit);
    drop(filler);
    trial.heap.stop_failing();
    said
}

/// Adds the types of a stream to a table while memory is refused, and then again.
fn add_twice<'t, S: BuildHasher>(
    trial: Trial<'t>,
    table: &mut Table<S, &'t TestHeap>,
) -> Result<Answer, Fail> {
    let types = types_of(trial.heap, trial.stream)?;
    let said = add_refused(trial, table, &types);
    listed_twice(trial.alloc, trial.heap, table, &types, LIMIT, said)
}

/// A table of the types of some streams, added one after the other.
fn table_of_each<S: BuildHasher + Drop, A: Allocator + Copy>(
    alloc: A,
    hasher: S,
    streams: &[&[u8]],
) -> Result<Table<S, A>, Fail> {
    let mut table = empty_table(alloc, hasher);
    for stream in streams {
        add_stream(&mut table, alloc, stream, LIMIT)?;
    }
    Ok(table)
}

/// Adds the types of a stream to those of earlier ones while memory is refused.
fn add_amid(trial: Trial<'_>) -> Result<Answer, Fail> {
    let mut table = table_of_each(trial.heap, folding(), trial.earlier)?;
    add_twice(trial, &mut table)
}

/// Adds the records of a stream to a table, as they stand, while memory is refused. Where they are not
/// added, the answer is out of memory.
fn add_standing_refused<'t, S: BuildHasher>(
    trial: Trial<'t>,
    table: &mut Table<S, &'t TestHeap>,
) -> Result<(), JoinFault> {
    let filler = trial.refusal.begin(trial.heap);
    let was_added = add_as_it_stands(table, trial.heap, trial.stream, trial.limit);
    drop(filler);
    trial.heap.stop_failing();
    if was_added {
        Ok(())
    } else {
        Err(JoinFault::Memory)
    }
}

/// Adds the records of a stream to a table, as they stand, while memory is refused, and then its
/// types.
fn add_standing_twice<'t, S: BuildHasher>(
    trial: Trial<'t>,
    table: &mut Table<S, &'t TestHeap>,
) -> Result<Answer, Fail> {
    let said = add_standing_refused(trial, table);
    let types = types_of(trial.heap, trial.stream)?;
    listed_twice(trial.alloc, trial.heap, table, &types, LIMIT, said)
}

/// Adds the records of a stream, as they stand, to the types of earlier ones, while memory is
/// refused.
fn add_standing_amid(trial: Trial<'_>) -> Result<Answer, Fail> {
    let mut table = table_of_each(trial.heap, folding(), trial.earlier)?;
    add_standing_twice(trial, &mut table)
}

/// What a call says, and the bytes of the list that is there after it.
type Outcome = (Result<(), JoinFault>, Vec<u8>);

/// What a call said, and the bytes of the list that it made, or else of the one before it.
fn outcome_of<A: Allocator>(
    alloc: Global,
    answer: Result<Canon<A>, JoinFault>,
    before: Vec<u8>,
) -> Result<Outcome, Fail> {
    match answer {
        Ok(canon) => Ok((Ok(()), copied(alloc, &canon)?)),
        Err(fault) => Ok((Err(fault), before)),
    }
}

/// Joins a list with types while memory is refused.
fn join_refused<'t>(
    trial: Trial<'t>,
    canon: &Canon<&'t TestHeap>,
    types: &Types<'_, &'t TestHeap>,
) -> Result<Canon<&'t TestHeap>, JoinFault> {
    let filler = trial.refusal.begin(trial.heap);
    let answer = join(canon, trial.heap, types, trial.limit);
    drop(filler);
    trial.heap.stop_failing();
    answer
}

/// Joins a list with types while memory is refused. After a refusal the bytes are those of the list
/// that is joined.
fn join_outcome<'t>(
    trial: Trial<'t>,
    canon: &Canon<&'t TestHeap>,
    types: &Types<'_, &'t TestHeap>,
) -> Result<Outcome, Fail> {
    match join_refused(trial, canon, types) {
        Ok(both) => Ok((Ok(()), copied(trial.alloc, &both)?)),
        Err(fault) => Ok((Err(fault), copied(trial.alloc, canon)?)),
    }
}

/// The bytes of a list joined with types.
fn bytes_joined<A: Allocator + Copy>(
    canon: &Canon<A>,
    heap: A,
    types: &Types<'_, A>,
    alloc: Global,
) -> Result<Vec<u8>, Fail> {
    let both = join(canon, heap, types, LIMIT)?;
    copied(alloc, &both)
}

/// Joins the list of earlier streams with the types of a stream while memory is refused, and then
/// again.
fn join_amid(trial: Trial<'_>) -> Result<Answer, Fail> {
    let canon = joined(trial.heap, trial.earlier)?;
    let types = types_of(trial.heap, trial.stream)?;
    let (said, after) = join_outcome(trial, &canon, &types)?;
    let end = bytes_joined(&canon, trial.heap, &types, trial.alloc)?;
    Ok((said, after, end))
}

/// Makes the list of a table while memory is refused.
fn finish_refused<'t, S: BuildHasher>(
    trial: Trial<'t>,
    table: &Table<S, &'t TestHeap>,
) -> Result<Canon<&'t TestHeap>, JoinFault> {
    let filler = trial.refusal.begin(trial.heap);
    let answer = list_of(trial.heap, table);
    drop(filler);
    trial.heap.stop_failing();
    answer
}

/// Makes the list of a table while memory is refused, and then again. After a refusal the first of
/// the two lists in the answer is the one before it.
fn finish_twice<'t, S: BuildHasher>(
    trial: Trial<'t>,
    table: &Table<S, &'t TestHeap>,
    before: Vec<u8>,
) -> Result<Answer, Fail> {
    let (said, after) = outcome_of(trial.alloc, finish_refused(trial, table), before)?;
    let end = list_bytes(trial.alloc, trial.heap, table)?;
    Ok((said, after, end))
}

/// Adds the types of a stream to a table, and makes its list while memory is refused. After a refusal
/// the first of the two lists in the answer is the one before these types.
fn finish_with<'t, S: BuildHasher>(
    trial: Trial<'t>,
    table: &mut Table<S, &'t TestHeap>,
) -> Result<Answer, Fail> {
    let before = list_bytes(trial.alloc, trial.heap, table)?;
    add_stream(table, trial.heap, trial.stream, LIMIT)?;
    finish_twice(trial, table, before)
}

/// Makes the list of a stream and earlier ones, while memory is refused. After a refusal the first of
/// the two lists in the answer is that of the earlier ones.
fn finish_amid(trial: Trial<'_>) -> Result<Answer, Fail> {
    let mut table = table_of_each(trial.heap, folding(), trial.earlier)?;
    finish_with(trial, &mut table)
}

/// A call that allocates.
#[derive(Clone, Copy)]
enum Call {
    Add,
    AddStanding,
    Join,
    Finish,
}

/// What this call returns while memory is refused.
fn amid(call: Call, trial: Trial<'_>) -> Result<Answer, Fail> {
    match call {
        Call::Add => add_amid(trial),
        Call::AddStanding => add_standing_amid(trial),
        Call::Join => join_amid(trial),
        Call::Finish => finish_amid(trial),
    }
}

/// Whether the call was accepted, if what it left is right.
fn was_accepted(answer: &Answer, before: &[u8], want: &[u8]) -> Option<bool> {
    if answer.2.as_slice() != want {
        return None;
    }
    match answer.0 {
        Ok(()) if answer.1.as_slice() == want => Some(true),
        Err(JoinFault::Memory) if answer.1.as_slice() == before => Some(false),
        _ => None,
    }
}

/// The records of two earlier streams and of the one that a call is given, and the lists before the
/// call and after it.
type Step = (
    &'static [&'static [u8]],
    &'static [&'static [u8]],
    &'static [&'static [u8]],
    &'static [&'static [u8]],
    &'static [&'static [u8]],
);

/// A type that comes before one that is there. There are more records than in the stream before, so
/// that their numbers need more memory.
const LOWER: Step = (
    &[CONST, TO_FIRST],
    &[],
    &[VOLATILE, TO_FIRST, VOLATILE, TO_FIRST, VOLATILE],
    &[CONST, TO_FIRST],
    &[CONST, VOLATILE, TO_FIRST, TO_SECOND],
);

/// The same types, where the first names the second.
const LATER: Step = (
    &[CONST, TO_FIRST],
    &[],
    &[TO_SECOND, VOLATILE, VOLATILE, VOLATILE, VOLATILE],
    &[CONST, TO_FIRST],
    &[CONST, VOLATILE, TO_FIRST, TO_SECOND],
);

/// The records of the sample.
const SAMPLE: Step = (&[], &[], &[TO_INT, CONST], &[], &[CONST, TO_INT]);

/// The first of three streams.
const FIRST: Step = (&[], &[], &[TO_INT], &[], &[TO_INT]);

/// The second of them.
const SECOND: Step = (&[TO_INT], &[], &[CONST], &[TO_INT], &[CONST, TO_INT]);

/// The third of them.
const THIRD: Step = (
    &[TO_INT],
    &[CONST],
    &[VOLATILE, CONST, TO_FIRST, TO_SECOND],
    &[CONST, TO_INT],
    &[CONST, VOLATILE, TO_INT, TO_FIRST, TO_SECOND],
);

/// Tries this call while memory is refused, at each place in turn where it allocates.
fn refuse_in_turn(alloc: Global, call: Call, step: Step) -> Result<(), Fail> {
    let (first, second, third, before, want) = step;
    let first = stream_with(alloc, first)?;
    let second = stream_with(alloc, second)?;
    let stream = stream_with(alloc, third)?;
    let before = bytes_of(alloc, before)?;
    let want = bytes_of(alloc, want)?;
    refusals_amid(alloc, HEAP, 8, |heap, refusal| {
        let trial = Trial {
            alloc,
            heap,
            refusal,
            limit: LIMIT,
            earlier: &[&first, &second],
            stream: &stream,
        };
        let answer = amid(call, trial)?;
        match was_accepted(&answer, &before, &want) {
            Some(accepted) => Ok(!accepted),
            None => Err("another answer".into()),
        }
    })?;
    Ok(())
}

#[test]
fn memory_is_refused(rt: HostRuntime) -> Result<(), Fail> {
    for (call, step) in [
        (Call::Add, LOWER),
        (Call::Add, LATER),
        (Call::AddStanding, LOWER),
        (Call::Join, LOWER),
        (Call::Join, LATER),
        (Call::Finish, LOWER),
    ] {
        refuse_in_turn(rt.alloc(), call, step)?;
    }
    Ok(())
}

#[test]
fn memory_is_refused_while_types_are_added(rt: HostRuntime) -> Result<(), Fail> {
    for step in [SAMPLE, FIRST, SECOND, THIRD] {
        refuse_in_turn(rt.alloc(), Call::Add, step)?;
    }
    Ok(())
}

#[test]
fn memory_is_refused_while_types_are_joined(rt: HostRuntime) -> Result<(), Fail> {
    for step in [SAMPLE, FIRST, SECOND, THIRD] {
        refuse_in_turn(rt.alloc(), Call::Join, step)?;
    }
    Ok(())
}

#[test]
fn memory_is_refused_while_lists_are_made(rt: HostRuntime) -> Result<(), Fail> {
    for step in [SAMPLE, FIRST, SECOND, THIRD] {
        refuse_in_turn(rt.alloc(), Call::Finish, step)?;
    }
    Ok(())
}
