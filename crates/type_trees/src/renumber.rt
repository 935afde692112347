//! Renumbering: a record that names the same types by other type indices.

ghost use Rattle.std.specs.Prelude.{◌≡◌, ◌<◌, ◌+◌, IsTrue, IfSome, IfNone, length, get_or};
ghost use Rattle.tpi_records.specs.Records.{IsRecord};
ghost use Rattle.cv_leaves.specs.Place.{IsChecked};
ghost use Rattle.cv_leaves.specs.References.{references};
ghost use Rattle.cv_leaves.specs.Named.{named_places};
ghost use Rattle.type_trees.specs.Types.{NamesThere};
ghost use Rattle.type_trees.specs.Table.{renumber_one, renumbered, IsNumbered, AreNumbered};

use cv_leaves::{ref_at, set_ref};
use tpi_records::FIRST_INDEX;

/// The new type index for a reference. A simple one stays as it is. `None` where the reference
/// names a record that has no number.
#[tactic(auto, using(crate::proofs::RenumberLaws::simple_number, crate::proofs::RenumberLaws::given_number))]
pub fn number_for(to: u32, numbers: &[u32]) -> Option<u32>
    ensures there { IfSome result (λ _. to < FIRST_INDEX + length numbers.now) }
    ensures value { IfSome result (λ n. n ≡ renumber_one (λ k. get_or numbers.now k 0) to) }
    ensures none { IfNone result (IsNumbered numbers.now to → ⊥) }
{
    match to.checked_sub(FIRST_INDEX) {
        Some(position) => FIRST_INDEX.checked_add(*numbers.get(position as usize)?),
        None => Some(to),
    }
}

/// Writes the new type index of each reference into a record. Returns whether each reference has
/// one. If one has none, only those before it are written.
///
/// `places` has the places at which the record names other records, and `numbers` the position of
/// each record that may be named. This does not allocate.
pub fn renumber_in_place(record: &mut [u8], places: &[u16], numbers: &[u32]) -> bool
    requires framed { IsRecord «record».old }
    requires checked { IsChecked «record».old }
    requires listed { places.now ≡ named_places «record».old }
    ensures value { IsTrue result →
        «record».new ≡ renumbered (λ k. get_or numbers.now k 0) «record».old }
    ensures there { IsTrue result → NamesThere (length numbers.now) (references «record».old) }
    ensures named { AreNumbered numbers.now (references «record».old) → IsTrue result }
    // The record names records at the same places.
    ensures still { IsTrue result → named_places «record».new ≡ named_places «record».old }
{
    for place in places {
        let place = usize::from(*place);
        match number_for(ref_at(record, place), numbers) {
            Some(to) => set_ref(record, place, to),
            None => return false,
        }
    }
    true
}
