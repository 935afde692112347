//! The check of what a record names, and its depth.

ghost use Rattle.std.specs.Prelude.{◌≡◌, ◌≤◌, ◌<◌, ◌+◌, ◌^◌, max, ℕ, Some, IfOk, IfSome, length, get_or};
ghost use Rattle.byte_fields.specs.Check.{Makes};
ghost use Rattle.tpi_records.specs.Records.{IsRecord};
ghost use Rattle.cv_leaves.specs.Checks.{places_of};
ghost use Rattle.cv_leaves.specs.Place.{IsChecked};
ghost use Rattle.cv_leaves.specs.References.{references};
ghost use Rattle.type_trees.specs.Types.{NamesThere};
ghost use Rattle.checked_types.specs.Check.{reference_checks, type_checks};
ghost use Rattle.type_trees.specs.Depth.{height, depth_above, AreBelow};

use crate::fault::RecordFault;
use cv_leaves::{check, places, ref_at};
use tpi_records::FIRST_INDEX;
use type_trees::height;

/// The greater of a depth and the height of a reference. `None` where the depth is not known, or
/// where the reference is not below `known`, the type index after those with known depths.
fn deepest(depth: Option<u32>, to: u32, known: u32, depths: &[u32]) -> Option<u32>
    requires known { known ≤ FIRST_INDEX + length depths.now }
    requires bounded { AreBelow (2 ^ 31) depths.now }
    ensures some { IfSome result (λ d.
        (before : ℕ) × (depth ≡ Some before) × (to < known)
        × (d ≡ max before (height (λ k. get_or depths.now k 0) to))
        × ((bound : ℕ) → AreBelow bound depths.now → before ≤ bound → d ≤ bound)) }
{
    let before = depth?;
    if to >= known {
        return None;
    }
    Some(before.max(height(to, depths)))
}

/// Checks that each reference of the record at a position is simple or the type index of one of
/// `many` records.
///
/// Returns the depth of the record, from the depths of those that it names. `None` where it names
/// itself or a later record, or one whose depth is not among the depths.
#[tactic(auto, using(crate::proofs::CheckLaws::reference_held, crate::proofs::CheckLaws::reference_fails, crate::proofs::CheckLaws::no_references))]
fn check_references(
    many: usize,
    position: usize,
    bytes: &[u8],
    depths: &[u32],
) -> Result<Option<u32>, RecordFault>
    requires few { (position < many) × (many ≤ 2 ^ 30) }
    requires short { length bytes.now ≤ 2 ^ 16 }
    requires checked { IsChecked bytes.now }
    requires bounded { AreBelow (2 ^ 31) depths.now }
    ensures first { Makes result (reference_checks many position bytes.now (places_of bytes.now)) }
    ensures lower { IfOk result (λ found.
        IfSome found (λ _. NamesThere position (references bytes.now))) }
    ensures depth { IfOk result (λ found.
        IfSome found (λ d. d ≡ depth_above (λ k. get_or depths.now k 0) (references bytes.now))) }
    ensures bound { IfOk result (λ found.
        IfSome found (λ d. (bound : ℕ) → AreBelow bound depths.now → d ≤ bound)) }
{
    let index = FIRST_INDEX + position as u32;
    let end = FIRST_INDEX + many as u32;
    let known = FIRST_INDEX + position.min(depths.len()) as u32;
    let mut depth = Some(0);
    for place in places(bytes) {
        let to = ref_at(bytes, place);
        if to >= end {
            return Err(RecordFault::Ref {
                index,
                place: place as u32,
                to,
            });
        }
        depth = deepest(depth, to, known, depths);
    }
    Ok(depth)
}

/// Checks the record at a position of `many` records: its leaf, then its references.
///
/// Returns the depth of the record, from the depths of those that it names. `None` where it names
/// itself or a later record, or one whose depth is not among the depths.
#[tactic(auto, using(crate::proofs::CheckLaws::leaf_refused, crate::proofs::CheckLaws::references_left))]
pub fn check_record(
    many: usize,
    position: usize,
    bytes: &[u8],
    depths: &[u32],
) -> Result<Option<u32>, RecordFault>
    requires few { (position < many) × (many ≤ 2 ^ 30) }
    requires framed { IsRecord bytes.now }
    requires bounded { AreBelow (2 ^ 31) depths.now }
    ensures first { Makes result (type_checks many position bytes.now) }
    ensures lower { IfOk result (λ found.
        IfSome found (λ _. NamesThere position (references bytes.now))) }
    ensures depth { IfOk result (λ found.
        IfSome found (λ d. d ≡ depth_above (λ k. get_or depths.now k 0) (references bytes.now))) }
    ensures bound { IfOk result (λ found.
        IfSome found (λ d. (bound : ℕ) → AreBelow bound depths.now → d ≤ bound)) }
{
    if let Err(fault) = check(bytes) {
        let index = FIRST_INDEX + position as u32;
        return Err(RecordFault::Leaf { index, fault });
    }
    check_references(many, position, bytes, depths)
}
