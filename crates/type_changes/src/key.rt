//! What a definition is known by.

ghost use Rattle.std.specs.Prelude.{◌≡◌, ◌≤◌, ◌<◌, ◌^◌, length, option_map, IfSome};
ghost use Rattle.tpi_records.specs.Records.{IsRecord};
ghost use Rattle.cv_leaves.specs.Name.{name_of};
ghost use Rattle.type_changes.specs.Definition.{has_unique_name, key_of, known_by, name_place, unique_name};
ghost use Rattle.type_changes.specs.Seen.{seen_key};

use byte_fields::{fits, name_at, u16_at};
use cv_leaves::{after_numeric, body_of, kind_of, type_name};

/// The leaf of a union.
const LF_UNION: u16 = 0x1506;

/// The leaf of an enumeration.
const LF_ENUM: u16 = 0x1507;

/// What a definition is known by: two definitions with the same key are the same type at two times.
#[derive(Clone, Copy, Debug, PartialEq, Eq, Hash)]
pub struct Key<'a> {
    /// What it defines: the kind of its record.
    pub kind: u16,
    /// Its unique name, or its name where it has none.
    pub name: &'a [u8],
}

/// Where the name of a definition begins in its body.
#[tactic(auto, unfolding(crate::specs::Definition::name_place))]
fn name_place(record: &[u8]) -> Option<usize>
    requires { IsRecord «record».now }
    ensures value { result ≡ name_place «record».now }
    ensures near { IfSome result (λ at. at < 2 ^ 18) }
{
    let body = body_of(record);
    match kind_of(record) {
        LF_ENUM => Some(12),
        LF_UNION => after_numeric(body, 8),
        _ => after_numeric(body, 16),
    }
}

/// Whether a definition has a unique name: bit 9 of its properties.
#[tactic(auto, unfolding(crate::specs::Definition::has_unique_name, type_expressions::specs::Field::number_in))]
fn has_unique_name(record: &[u8]) -> bool
    requires { 4 ≤ length «record».now }
    ensures { result ≡ has_unique_name «record».now }
{
    let body = body_of(record);
    fits(body, 2, 2) && u16_at(body, 2) / 512 % 2 == 1
}

/// The unique name of a definition. It stands behind its name.
#[tactic(auto, unfolding(crate::specs::Definition::unique_name))]
fn unique_name<'a>(record: &'a [u8], name: &[u8]) -> Option<&'a [u8]>
    requires { IsRecord «record».now }
    ensures { option_map (λ unique. unique.now) result ≡ unique_name «record».now name.now }
{
    let at = name_place(record)?;
    name_at(body_of(record), at + name.len() + 1)
}

/// The name by which a definition is known. It is empty where none can be read.
#[tactic(auto, unfolding(crate::specs::Definition::known_by))]
fn known_name(record: &[u8]) -> &[u8]
    requires { IsRecord «record».now }
    ensures { result.now ≡ known_by «record».now (name_of «record».now) }
{
    let Some(name) = type_name(record) else {
        return &[];
    };
    if !has_unique_name(record) {
        return name;
    }
    match unique_name(record, name) {
        Some(unique) => unique,
        None => name,
    }
}

impl<'a> Key<'a> {
    /// The key of the definition that a record is.
    #[tactic(auto, unfolding(crate::specs::Definition::key_of))]
    pub fn of(record: &'a [u8]) -> Key<'a>
        requires { IsRecord «record».now }
        ensures { seen_key result ≡ key_of «record».now }
    {
        Key {
            kind: kind_of(record),
            name: known_name(record),
        }
    }
}
