//! The lines of field lists, each made once in a text.

ghost use Rattle.std.specs.Prelude.{◌≡◌, ◌<◌, ◌++◌, [], ℕ, List, Some, OnOk, IfOk, length, replicate};
ghost use Rattle.std.specs.List.{Contains};
ghost use Rattle.type_expressions.specs.Lines.{AreLines, GoOn, lines_text};
ghost use Rattle.type_expressions.specs.Spans.{AreListed, AreSpans, IsBegun, IsMarked, Steps, untold};
ghost use Rattle.type_expressions.specs.declared.lists.Begun.{Begun};

use crate::lines::{lists_from, push_own};
use checked_types::Types;
use std::alloc::{AllocError, Allocator};
use tpi_records::FIRST_INDEX;

/// Where the lines of a field list stand in a text, with those of the lists in which it goes on.
/// Where `end` is 0 they were not made yet.
#[derive(Clone, Copy, Debug)]
pub struct Span {
    start: usize,
    end: usize,
}

/// A field list whose lines begin at `start`, and whose end is not known yet.
#[derive(Clone, Copy, Debug)]
pub struct Begun {
    position: u32,
    start: usize,
}

/// The field lists whose lines stand in a text, and where.
#[derive(Debug, Drop)]
pub struct Lists<A: Allocator> {
    /// Where the lines of each record stand.
    spans: Vec<Span, A>,
    /// The lists of a walk that is under way.
    walk: Vec<Begun, A>,
}

impl<A: Allocator + Copy> Lists<A> {
    /// Nothing is told yet of so many records.
    pub fn new(alloc: A, many: usize) -> Result<Lists<A>, AllocError>
        ensures { IfOk result (λ lists.
            (lists.spans.items ≡ replicate many untold) × (lists.walk.items ≡ [])) }
    {
        Ok(Lists {
            spans: vec![in alloc; Span { start: 0, end: 0 }; many]?,
            walk: Vec::new(alloc),
        })
    }
}

/// Appends the lines of the list that a reference names. Where they stand in the text already, with
/// all that follows them, they are copied. Returns the list in which they go on.
fn push_next<A: Allocator, T: Allocator>(
    text: &mut Vec<u8, A>,
    types: &Types<'_, T>,
    spans: &[Span],
    walk: &mut Vec<Begun, A>,
    to: u32,
) -> Result<Option<u32>, AllocError>
    requires { AreSpans types.now text.old.items spans.now }
    ensures { (deep : ℕ) (lines : List (List ℕ)) → GoOn types.now deep (Some to) lines →
        IfOk result (Steps types.now deep lines text.old.items text.new.items
        walk.old.items walk.new.items) }
{
    let Some(place) = to.checked_sub(FIRST_INDEX) else {
        return Ok(None);
    };
    let position = place as usize;
    let Some(list) = types.get(position) else {
        return Ok(None);
    };
    let span = spans[position];
    if span.end != 0 {
        text.extend_from_within(span.start..span.end)?;
        return Ok(None);
    }
    walk.push(Begun {
        position: place,
        start: text.len(),
    })?;
    push_own(text, types, list)
}

/// Appends the lines of the list that a reference names, and of those in which it goes on. Those of
/// them that were not told before are in `walk` then.
fn walk_lists<A: Allocator, T: Allocator>(
    text: &mut Vec<u8, A>,
    types: &Types<'_, T>,
    spans: &[Span],
    walk: &mut Vec<Begun, A>,
    to: u32,
) -> Result<(), AllocError>
    requires spans { AreSpans types.now text.old.items spans.now }
    requires none { walk.old.items ≡ [] }
    requires there { (lines : List (List ℕ)) × AreLines types.now to lines }
    ensures value { (lines : List (List ℕ)) → AreLines types.now to lines →
        OnOk result (text.new.items ≡ text.old.items ++ lines_text lines) }
    ensures spans { OnOk result (AreSpans types.now text.new.items spans.now) }
    ensures begun { OnOk result ((b : Begun) → Contains walk.new.items b →
        IsBegun types.now text.new.items [] b) }
{
    let mut next = Some(to);
    for _ in 0..lists_from(types, to) {
        let Some(list) = next else {
            return Ok(());
        };
        next = push_next(text, types, spans, walk, list)?;
    }
    Ok(())
}

/// Notes where the lists of a walk stand, whose lines all end here.
fn mark(spans: &mut [Span], walk: &[Begun], end: usize)
    requires { (b : Begun) → Contains walk.now b → b.position < length spans.old }
    ensures many { length spans.new ≡ length spans.old }
    ensures marks { (i : ℕ) → IsMarked spans.old spans.new walk.now end i }
{
    for begun in walk {
        spans[begun.position as usize] = Span {
            start: begun.start,
            end,
        };
    }
}

/// Appends the lines of the members of the field list that a reference names, and of those of the
/// lists in which they go on: one line each, after two spaces. A reference that names no field list
/// has none. Lines that stand in the text already are copied.
pub fn push_members<A: Allocator, T: Allocator>(
    text: &mut Vec<u8, A>,
    types: &Types<'_, T>,
    lists: &mut Lists<A>,
    to: u32,
) -> Result<(), AllocError>
    requires lists { AreListed types.now text.old.items lists.old }
    requires there { (lines : List (List ℕ)) × AreLines types.now to lines }
    ensures value { (lines : List (List ℕ)) → AreLines types.now to lines →
        OnOk result (text.new.items ≡ text.old.items ++ lines_text lines) }
    ensures lists { OnOk result (AreListed types.now text.new.items lists.new) }
{
    walk_lists(text, types, &lists.spans, &mut lists.walk, to)?;
    mark(&mut lists.spans, &lists.walk, text.len());
    lists.walk.clear();
    Ok(())
}
