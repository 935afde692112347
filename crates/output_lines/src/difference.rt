//! A line for each type that only one of two lists has.

ghost use Rattle.std.specs.Prelude.{◌≡◌, ◌↔◌, ◌++◌, ℕ, List, IsTrue, OnOk, length, string_bytes};
ghost use Rattle.tpi_records.specs.Records.{IsRecord};
ghost use Rattle.cv_leaves.specs.Place.{IsChecked};
ghost use Rattle.type_difference.specs.Difference.{HaveStandings};
ghost use Rattle.output_lines.specs.Difference.{IsSignedLine, AreLinesWhere, IsShown, ShowsStanding, ShowsDifference};

use crate::types::push_type_line;
use checked_types::Types;
use run_options::Scope;
use std::alloc::{AllocError, Allocator};
use tpi_records::FIRST_INDEX;
use type_difference::{Difference, Standing};

/// Whether a record with this standing is shown.
fn is_shown(scope: Scope, standing: Standing) -> bool
    ensures { IsTrue result ↔ ShowsStanding scope standing }
{
    match standing {
        Standing::Shared | Standing::Again => false,
        Standing::Origin => true,
        Standing::Follows => match scope {
            Scope::All => true,
            Scope::Origins => false,
        },
    }
}

/// Appends a sign, and the line that `types` prints for this record.
fn push_signed<A: Allocator>(
    text: &mut String<A>,
    sign: &str,
    index: u32,
    bytes: &[u8],
) -> Result<(), AllocError>
    requires framed { IsRecord bytes.now }
    requires checked { IsChecked bytes.now }
    ensures { OnOk result
        ((line : List ℕ) × IsSignedLine sign.now index bytes.now line
        × (string_bytes text.new ≡ string_bytes text.old ++ line)) }
{
    text.push_str(sign)?;
    push_type_line(text, index, bytes)?;
    Ok(())
}

/// Appends the lines of the types that are shown, each with this sign.
fn push_shown<A: Allocator>(
    text: &mut String<A>,
    scope: Scope,
    sign: &str,
    types: &Types<'_, A>,
    standings: &[Standing],
) -> Result<(), AllocError>
    requires { length standings.now ≡ length types.now }
    ensures { (others : List (List ℕ)) → HaveStandings types.now others standings.now →
        OnOk result
        ((lines : List ℕ)
        × AreLinesWhere (IsShown scope types.now others) sign.now 0 types.now lines
        × (string_bytes text.new ≡ string_bytes text.old ++ lines)) }
{
    prove!(standings.len() == types.len());
    let mut position = 0;
    for bytes in types.records().iter() {
        if is_shown(scope, standings[position]) {
            push_signed(text, sign, FIRST_INDEX + position as u32, bytes)?;
        }
        position += 1;
    }
    Ok(())
}

/// Appends a line for each type that is shown, by how the records of two lists stand to each other.
///
/// First come those of the first list, in the order of their type indices, each with `- ` and the
/// line that `types` prints for the first record of this type. Then come those of the second list,
/// with `+ `.
pub fn push_difference<A: Allocator>(
    text: &mut String<A>,
    scope: Scope,
    first: &Types<'_, A>,
    second: &Types<'_, A>,
    difference: &Difference<A>,
) -> Result<(), AllocError>
    requires first { HaveStandings first.now second.now difference.now.first.items }
    requires second { HaveStandings second.now first.now difference.now.second.items }
    ensures { OnOk result
        ((lines : List ℕ) × ShowsDifference scope first.now second.now lines
        × (string_bytes text.new ≡ string_bytes text.old ++ lines)) }
{
    push_shown(text, scope, "- ", first, &difference.first)?;
    push_shown(text, scope, "+ ", second, &difference.second)?;
    Ok(())
}
