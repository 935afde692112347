//! Rows in the order of their bytes.
//!
//! Rows are sorted by 8 bytes, those that are equal there by 8 later ones, and so on. Bytes that all
//! of them share are passed over. The 8 bytes stand in the rows as a number, so that comparing two
//! rows waits for no memory. Where this takes too many rounds, or few rows are left, the bytes of the
//! rows are compared as they lie.

ghost use Rattle.std.specs.Prelude.{◌≡◌, [], ◌+◌, ◌*◌, ◌^◌, ◌<◌, get_or, length};
ghost use Rattle.std.specs.List.Sorted.{IsPermutation};
ghost use Rattle.canonical_list.specs.declared.row.Row.{Row};
ghost use Rattle.canonical_list.specs.Rows.{HaveHeads, IsStretch, AreAlike, AreInOrder, positions, row_bytes};

use crate::row::{HEAD_BYTES, Row};
use packed_texts::PackedTexts;
use std::alloc::Allocator;

/// In how many rounds rows are sorted by 8 bytes before all their bytes are compared.
pub const ROUNDS: u32 = 6;

// How many bytes that all rows share are passed over in one round. A record has few more.
const SHARED: usize = 1 << 16;

// So few rows are not worth a round: their bytes are compared at once.
const FEW: usize = 3;

/// The bytes of a row. There are none if its record is not there.
fn bytes_of<A: Allocator>(rows: &PackedTexts<A>, position: usize) -> &[u8]
    ensures { result.now ≡ get_or rows.now position [] }
{
    if position < rows.len() {
        rows.get(position)
    } else {
        &[]
    }
}

/// Sorts rows by their bytes, which are compared as they lie.
fn sort_by_bytes<A: Allocator>(rows: &PackedTexts<A>, run: &mut [Row])
    ensures moved { IsPermutation (positions run.old) (positions run.new) }
    ensures sorted { AreInOrder (row_bytes rows.now run.new) }
{
    run.sort_unstable_by(|one, other| {
        bytes_of(rows, one.position).cmp(bytes_of(rows, other.position))
    });
}

/// The end of the rows from `start` on that have the head of the first of them.
fn run_end(run: &[Row], start: usize) -> usize
    requires inside { start < length run.now }
    ensures { IsStretch run.now start result }
{
    for end in start + 1..run.len() {
        if run[end].head != run[start].head {
            return end;
        }
    }
    run.len()
}

/// Gives each row its head at an offset.
fn set_heads<A: Allocator>(rows: &PackedTexts<A>, run: &mut [Row], from: usize)
    ensures same { positions run.new ≡ positions run.old }
    ensures heads { HaveHeads from rows.now run.new }
{
    for row in run.iter_mut() {
        *row = Row::new(bytes_of(rows, row.position), from, row.position);
    }
}

/// Gives each row its head behind the bytes that all of them share. Returns at which offset.
///
/// The first `from` bytes are the same in all rows, and shared bytes are looked for from there on,
/// 8 at a time.
fn pass_shared<A: Allocator>(rows: &PackedTexts<A>, run: &mut [Row], from: usize) -> usize
    requires some { 0 < length run.old }
    requires alike { AreAlike from (row_bytes rows.now run.old) }
    requires small { from < 2 ^ 62 }
    ensures same { positions run.new ≡ positions run.old }
    ensures alike { AreAlike result (row_bytes rows.now run.new) }
    ensures heads { HaveHeads result rows.now run.new }
    ensures near { result < from + 65544 }
{
    let mut at = from;
    set_heads(rows, run, at);
    while at < from + SHARED && run_end(run, 0) == run.len() {
        at += HEAD_BYTES;
        set_heads(rows, run, at);
    }
    at
}

/// Sorts rows by their bytes, of which the first `from` are the same in all rows.
///
/// There are at most `rounds` more rounds.
#[cycle(sort_rows)]
fn sort_tied<A: Allocator>(rows: &PackedTexts<A>, run: &mut [Row], from: usize, rounds: u32)
    requires alike { AreAlike from (row_bytes rows.now run.old) }
    requires small { from + 65552 * rounds < 2 ^ 62 }
    ensures moved { IsPermutation (positions run.old) (positions run.new) }
    ensures sorted { AreInOrder (row_bytes rows.now run.new) }
{
    // Most stretches are one row, which is in order.
    if run.len() < 2 {
        return;
    }
    if rounds == 0 || run.len() <= FEW {
        sort_by_bytes(rows, run);
        return;
    }
    let at = pass_shared(rows, run, from);
    sort_rows(rows, run, at, rounds - 1);
}

/// Sorts rows by their bytes, of which the first `at` are the same in all rows. Each row has its
/// head at this offset.
///
/// There are at most `rounds` more rounds of 8 bytes each.
#[cycle(sort_rows)]
pub fn sort_rows<A: Allocator>(rows: &PackedTexts<A>, run: &mut [Row], at: usize, rounds: u32)
    requires alike { AreAlike at (row_bytes rows.now run.old) }
    requires heads { HaveHeads at rows.now run.old }
    requires small { at + 8 + 65552 * rounds < 2 ^ 62 }
    ensures moved { IsPermutation (positions run.old) (positions run.new) }
    ensures sorted { AreInOrder (row_bytes rows.now run.new) }
{
    run.sort_unstable_by_key(|row| row.head);
    let next = at + HEAD_BYTES;
    let mut start = 0;
    while start < run.len() {
        let end = run_end(run, start);
        sort_tied(rows, &mut run[start..end], next, rounds);
        start = end;
    }
}
