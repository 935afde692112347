//! The numbers of types: their positions in a set of records.

ghost use Rattle.std.specs.Prelude.{◌+◌, ◌^◌, ◌<◌, length, IfOk};
ghost use Rattle.std.specs.List.{concat};
ghost use Rattle.type_trees.specs.Table.{IsTable};
ghost use Rattle.type_trees.specs.Types.{AreTypes};
ghost use Rattle.type_table.specs.Merge.{StartsWith, IsAdded};
ghost use Rattle.canonical_list.specs.Numbers.{AreNumbers};

use crate::adding::{Workspace, add_in_order};
use checked_types::Types;
use record_set::RecordSet;
use std::alloc::{AllocError, Allocator};
use std::hash::BuildHasher;

/// Puts types into a set of records, and returns the number of each: the position of its record
/// there.
///
/// Two types are equal exactly where their numbers are. The set has to be a table: each record names
/// only earlier ones. The only fault is that memory is refused; some of the types may then be in
/// the set.
pub fn number_types<S: BuildHasher, A: Allocator + Copy>(
    alloc: A,
    set: &mut RecordSet<S, A>,
    types: &Types<'_, A>,
) -> Result<Vec<u32, A>, AllocError>
    requires table { IsTable set.old }
    requires short { length (concat set.old) < 2 ^ 32 }
    ensures types { AreTypes types.now }
    ensures added { IfOk result (λ _. IsAdded types.now set.old set.new) }
    ensures numbers { IfOk result (λ numbers. AreNumbers types.now set.new numbers.items) }
    ensures light { IfOk result (λ _. length (concat set.new) < length (concat set.old) + 2 ^ 32) }
    ensures front { StartsWith set.new set.old }
{
    let mut work = Workspace::new(alloc);
    add_in_order(set, &mut work, types)?;
    Ok(work.into_numbers())
}
