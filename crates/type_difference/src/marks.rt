//! Marks on the numbers of types: which types a list has, and which were met before.

ghost use Rattle.std.specs.Prelude.{◌≡◌, ◌↔◌, ◌<◌, false, IsTrue, IfOk, length, get_or};
ghost use Rattle.std.specs.List.{AllByRecursion};
ghost use Rattle.tpi_records.specs.Records.{IsRecord};
ghost use Rattle.cv_leaves.specs.Place.{IsChecked};
ghost use Rattle.cv_leaves.specs.References.{references};
ghost use Rattle.type_trees.specs.Types.{NamesThere};
ghost use Rattle.type_trees.specs.Depth.{AreBelow};
ghost use Rattle.type_difference.specs.Marks.{AreMarks, NamesMarked, IsStandingBy};

use crate::standing::Standing;
use cv_leaves::{places, ref_at};
use std::alloc::{AllocError, Allocator};
use tpi_records::FIRST_INDEX;

/// Which numbers below `end` are among these numbers.
pub fn mark<A: Allocator>(alloc: A, end: usize, numbers: &[u32]) -> Result<Vec<bool, A>, AllocError>
    requires { AreBelow end numbers.now }
    ensures many { IfOk result (λ marks. length marks.items ≡ end) }
    ensures value { IfOk result (λ marks. AreMarks numbers.now marks.items) }
{
    let mut marks = vec![in alloc; false; end]?;
    for number in numbers {
        marks[*number as usize] = true;
    }
    Ok(marks)
}

/// Whether the number of the record at a position is marked.
fn is_marked(position: usize, numbers: &[u32], marks: &[bool]) -> bool
    requires there { position < length numbers.now }
    requires inside { AreBelow (length marks.now) numbers.now }
    ensures { result ≡ get_or marks.now (get_or numbers.now position 0) false }
{
    marks[numbers[position] as usize]
}

/// Whether each reference of a record is simple, or names a record whose number is marked.
fn names_marked(bytes: &[u8], numbers: &[u32], marks: &[bool]) -> bool
    requires framed { IsRecord bytes.now }
    requires checked { IsChecked bytes.now }
    requires there { NamesThere (length numbers.now) (references bytes.now) }
    requires inside { AreBelow (length marks.now) numbers.now }
    ensures { IsTrue result
        ↔ AllByRecursion (NamesMarked numbers.now marks.now) (references bytes.now) }
{
    for place in places(bytes) {
        if let Some(position) = ref_at(bytes, place).checked_sub(FIRST_INDEX) {
            if !is_marked(position as usize, numbers, marks) {
                return false;
            }
        }
    }
    true
}

/// How a record with this number stands to the other list.
///
/// `marks` has the numbers of the types of the other list, and `seen` those of the records before
/// this one.
pub fn standing_of(
    bytes: &[u8],
    number: usize,
    numbers: &[u32],
    marks: &[bool],
    seen: &[bool],
) -> Standing
    requires framed { IsRecord bytes.now }
    requires checked { IsChecked bytes.now }
    requires there { NamesThere (length numbers.now) (references bytes.now) }
    requires inside { AreBelow (length marks.now) numbers.now }
    requires number { number < length marks.now }
    requires both { length seen.now ≡ length marks.now }
    ensures { IsStandingBy numbers.now marks.now seen.now bytes.now number result }
{
    if marks[number] {
        Standing::Shared
    } else if seen[number] {
        Standing::Again
    } else if names_marked(bytes, numbers, marks) {
        Standing::Origin
    } else {
        Standing::Follows
    }
}
