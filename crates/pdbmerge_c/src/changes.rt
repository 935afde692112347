//! What changed between the definitions of two files.

ghost use Rattle.std.specs.Prelude.{◌≡◌, ◌⊎◌, ℕ, List, IfOk, IfErr};
ghost use Rattle.type_trees.specs.Tree.{Tree};
ghost use Rattle.file_types.specs.Read.{IsAccepted};
ghost use Rattle.type_expressions.specs.Asked.{AreTrees};
ghost use Rattle.type_changes.specs.Changes.{changes_text};
ghost use Rattle.type_changes.specs.Definition.{definitions};
ghost use Rattle.pdb_merge.specs.declared.fault.MergeFault.{MergeFault};
ghost use Rattle.pdbmerge_c.specs.Changes.{AreChanges};
ghost use Rattle.pdbmerge_c.specs.Given.{Copies};
ghost use Rattle.pdbmerge_c.specs.Pair.{IsFaultOfPair, RefusesPair};

use crate::fault::{Fault, refuse};
use crate::give::give;
use crate::pair::{Buffers, Pair};
use crate::seed::Seed;
use pdb_merge::MergeFault;
use std::alloc::{AllocError, Global};
use std::hash::RandomState;
use type_changes::push_changes;

/// The text of what changed between the definitions of the first file and those of the second.
fn text_of(alloc: Global, pair: &mut Pair<'_>, seed: &Seed) -> Result<Vec<u8>, AllocError>
    ensures { (trees others : List Tree) →
        AreTrees pair.old.first trees → AreTrees pair.old.second others →
        IfOk result (λ text.
        text.items ≡ changes_text (definitions trees) (definitions others)) }
{
    let Ok(hasher) = RandomState::new(seed) else {
        return Err(AllocError);
    };
    pair.first.index(alloc)?;
    pair.second.index(alloc)?;
    let mut text = Vec::new(alloc);
    push_changes(alloc, hasher, &mut text, &pair.first, &pair.second)?;
    Ok(text)
}

/// Reads the types of two files, and makes the text of what changed.
fn tell_changes(
    alloc: Global,
    first: &[u8],
    second: &[u8],
    seed: &Seed,
) -> Result<Vec<u8>, MergeFault>
    ensures value { IfOk result (λ text. AreChanges first.now second.now text.items) }
    ensures found { (records others : List (List ℕ)) →
        IsAccepted first.now records → IsAccepted second.now others →
        IfErr result (λ fault. fault ≡ MergeFault.Memory) }
    ensures first { IfErr result (IsFaultOfPair first.now second.now) }
{
    let mut buffers = Buffers::new(alloc);
    let mut pair = Pair::read(alloc, first, second, &mut buffers)?;
    match text_of(alloc, &mut pair, seed) {
        Ok(text) => Ok(text),
        Err(_) => Err(MergeFault::Memory),
    }
}

/// Copies the text of what changed between the definitions of two files to the front of `out`. It is
/// that of [`push_changes`]. `size` is how many bytes the text has.
///
/// The faults, in order: those of `read_types` of the first file, then of the second; `MEMORY`;
/// `ROOM`, and then `size` is set too.
#[tactic(auto, using(crate::proofs::NumberLaws::merge_known))]
#[unsafe(no_mangle)]
pub extern "C" fn pdbmerge_changes(
    alloc: Global,
    first: &[u8],
    second: &[u8],
    seed: &Seed,
    out: &mut [u8],
    size: &mut u64,
    fault: &mut Fault,
) -> u32
    ensures answer { Copies (AreChanges first.now second.now) (RefusesPair first.now second.now)
        out.old out.new size.old size.new fault.new result }
    // Files that are accepted are refused only when out of memory or of room.
    ensures found { (records others : List (List ℕ)) →
        IsAccepted first.now records → IsAccepted second.now others →
        (result ≡ 0) ⊎ (result ≡ 33) ⊎ (result ≡ 100) }
{
    match tell_changes(alloc, first, second, seed) {
        Ok(text) => give(text.as_slice(), out, size, fault),
        Err(why) => refuse(fault, why.number(), why.file(), &why),
    }
}
