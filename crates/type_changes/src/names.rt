//! The names of the definitions that only one of two lists of types has.

ghost use Rattle.std.specs.Prelude.{◌≡◌, ◌≢◌, ◌<◌, ℕ, List, [], OnOk, IfOk, length, get_or};
ghost use Rattle.std.specs.List.{Contains};
ghost use Rattle.type_trees.specs.Tree.{Tree};
ghost use Rattle.type_trees.specs.Types.{AreTypes};
ghost use Rattle.type_expressions.specs.Asked.{AreTrees};
ghost use Rattle.type_changes.specs.Definition.{definitions, key_of};
ghost use Rattle.type_changes.specs.Seen.{AreNoted};

use crate::key::Key;
use checked_types::Types;
use indexmap::IndexSet;
use std::alloc::{AllocError, Allocator};
use std::hash::{BuildHasher, BuildHasherDefault, FoldHasher, Hasher};
use type_difference::{Standing, compare};

/// The hashes of names.
pub type Names<A> = IndexSet<u64, BuildHasherDefault<FoldHasher>, A>;

/// The hash of a name.
pub fn hash_of<S: BuildHasher>(hasher: &S, name: &[u8]) -> u64
    ensures { result ≡ S.Hasher.finish (S.Hasher.write (S.build_hasher hasher.now) name.now) }
{
    let mut state = hasher.build_hasher();
    state.write(name);
    state.finish()
}

/// Notes the hash of the name of each record whose type the other list lacks.
pub fn note_lacked<S: BuildHasher, A: Allocator, T: Allocator>(
    hasher: &S,
    types: &Types<'_, T>,
    standings: &[Standing],
    names: &mut Names<A>,
) -> Result<(), AllocError>
    requires { length standings.now ≡ length types.now }
    ensures types { AreTypes types.now }
    ensures kept { (n : ℕ) → Contains names.old.keys n → OnOk result (Contains names.new.keys n) }
    ensures noted { (i : ℕ) → i < length types.now
        → get_or standings.now i Standing.Shared ≢ Standing.Shared
        → OnOk result (Contains names.new.keys (S.Hasher.finish (S.Hasher.write
        (S.build_hasher hasher.now) (key_of (get_or types.now i [])).name))) }
{
    let mut records = types.iter();
    for position in 0..types.len() {
        let Some(record) = records.next() else {
            unreachable!()
        };
        if standings[position] != Standing::Shared {
            names.insert(hash_of(hasher, Key::of(record).name))?;
        }
    }
    Ok(())
}

/// The hashes of the names of the definitions that only one of two lists of types has.
pub fn lacked_names<S: BuildHasher + Drop + Copy, A: Allocator + Copy>(
    alloc: A,
    hasher: S,
    first: &Types<'_, A>,
    second: &Types<'_, A>,
) -> Result<Names<A>, AllocError>
    ensures gone { (trees others : List Tree) → AreTrees first.now trees
        → AreTrees second.now others → IfOk result (λ names. AreNoted
        (λ name. S.Hasher.finish (S.Hasher.write (S.build_hasher hasher) name))
        names.keys (definitions trees) (definitions others)) }
    ensures come { (trees others : List Tree) → AreTrees first.now trees
        → AreTrees second.now others → IfOk result (λ names. AreNoted
        (λ name. S.Hasher.finish (S.Hasher.write (S.build_hasher hasher) name))
        names.keys (definitions others) (definitions trees)) }
{
    let difference = compare(alloc, first, second, hasher)?;
    let mut names = IndexSet::new(alloc);
    note_lacked(&hasher, first, &difference.first, &mut names)?;
    note_lacked(&hasher, second, &difference.second, &mut names)?;
    Ok(names)
}
