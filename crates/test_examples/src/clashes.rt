//! Sets of texts that share a hash while memory is refused.

use std::alloc::{AllocError, Allocator, Global};
use std::hash::BuildHasher;
use std::test::Fail;
use test_samples::{Constant, Refusal, TestHeap, folding, refusals_amid};
use text_set::TextSet;

type Text = [u8; 4];

/// The greatest number that a hasher returns. Numbers after its hash go on at 0.
const GREATEST: Constant = Constant { number: u64::MAX };

/// A number whose hash is 0.
const LEAST: Constant = Constant { number: 0 };

fn empty<S: BuildHasher, A: Allocator + Copy>(alloc: A, hasher: S) -> TextSet<S, A> {
    TextSet::with_hasher(alloc, hasher)
}

/// Interns a text. The sets of these tests have few.
fn put<S: BuildHasher, A: Allocator>(
    set: &mut TextSet<S, A>,
    text: &Text,
) -> Result<usize, AllocError> {
    if set.bytes().len() > 4096 {
        return Err(AllocError);
    }
    set.intern(text)
}

fn keep<S: BuildHasher, A: Allocator>(set: &mut TextSet<S, A>, len: usize) {
    if len <= set.len() {
        set.truncate(len);
    }
}

/// Whether the text at a position is this one.
fn is_at<S: BuildHasher, A: Allocator>(set: &TextSet<S, A>, position: usize, text: &Text) -> bool {
    position < set.len() && set.get(position) == text.as_slice()
}

/// How many texts many are.
const MANY: u32 = 100;

/// Interns the texts of the numbers up to [`MANY`]. The position of each is its number. Returns how
/// many were interned before one was refused memory.
fn put_numbers<S: BuildHasher, A: Allocator>(set: &mut TextSet<S, A>) -> Result<u32, Fail> {
    for number in 0..MANY {
        match put(set, &number.to_le_bytes()) {
            Ok(position) if position == number as usize => {}
            Ok(_) => return Err("another position".into()),
            Err(_) => return Ok(number),
        }
    }
    Ok(MANY)
}

/// Whether a set has the texts of the numbers below `end`.
fn has_numbers<S: BuildHasher, A: Allocator>(set: &TextSet<S, A>, end: u32) -> bool {
    for number in 0..end {
        if !is_at(set, number as usize, &number.to_le_bytes()) {
            return false;
        }
    }
    set.len() == end as usize
}

/// Interns the texts of the numbers from `first` on, the last one first. Returns whether each comes
/// after those that are there.
fn put_back<S: BuildHasher, A: Allocator>(
    set: &mut TextSet<S, A>,
    first: u32,
) -> Result<bool, AllocError> {
    for number in (first..MANY).rev() {
        let len = set.len();
        if put(set, &number.to_le_bytes())? != len {
            return Ok(false);
        }
    }
    Ok(true)
}

/// Interns many texts while memory is refused, and those that are left with ample memory. Returns
/// whether one was refused.
fn is_refused<S: BuildHasher + Drop>(
    heap: &TestHeap,
    refusal: Refusal,
    hasher: S,
) -> Result<bool, Fail> {
    let mut set = empty(heap, hasher);
    let filler = refusal.begin(heap);
    let done = put_numbers(&mut set)?;
    drop(filler);
    heap.stop_failing();
    if has_numbers(&set, done) && put_back(&mut set, done)? && set.len() == MANY as usize {
        return Ok(done < MANY);
    }
    Err("another set".into())
}

#[test]
fn a_set_goes_on_after_refused_growth(rt: HostRuntime) -> Result<(), Fail> {
    refusals_amid(rt.alloc(), 8192, 32, |heap, refusal| {
        is_refused(heap, refusal, folding())
    })?;
    refusals_amid(rt.alloc(), 8192, 32, |heap, refusal| {
        is_refused(heap, refusal, LEAST)
    })?;
    refusals_amid(rt.alloc(), 8192, 32, |heap, refusal| {
        is_refused(heap, refusal, GREATEST)
    })?;
    Ok(())
}
