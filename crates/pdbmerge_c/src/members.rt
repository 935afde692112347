//! The definitions of the types of a file.

ghost use Rattle.std.specs.Prelude.{◌≡◌, ◌⊎◌, ◌++◌, ℕ, List, map, OnOk, IfOk, IfErr};
ghost use Rattle.std.specs.List.{concat};
ghost use Rattle.type_trees.specs.Tree.{Tree};
ghost use Rattle.file_types.specs.Read.{IsAccepted};
ghost use Rattle.type_expressions.specs.Asked.{AreTrees, answered, shown_texts};
ghost use Rattle.pdbmerge_c.specs.Check.{IsFaultOfFile, RefusesCheck};
ghost use Rattle.pdbmerge_c.specs.Given.{Copies};
ghost use Rattle.pdbmerge_c.specs.Members.{AreMembers, asked_by};

use crate::fault::{Fault, refuse};
use crate::give::give;
use checked_types::Types;
use file_types::{Buffer, PdbFault, read_types};
use std::alloc::{AllocError, Global};
use type_expressions::{Asked, Query, find_asked, push_definitions};

/// Appends what is asked for by names.
fn push_asked<'a>(asked: &mut Vec<Asked<'a>>, names: &[&'a [u8]]) -> Result<(), AllocError>
    ensures { OnOk result (asked.new.items ≡ asked.old.items ++ map asked_by names.now) }
{
    for name in names {
        asked.push(Asked::new(Query::Name(name)))?;
    }
    Ok(())
}

/// The text of the definitions among types that have one of these names; of all if there are none.
fn text_of(alloc: Global, types: &mut Types<'_>, names: &[&[u8]]) -> Result<Vec<u8>, AllocError>
    ensures { (trees : List Tree) → AreTrees types.old trees → IfOk result (λ text. text.items
        ≡ concat (shown_texts (map (answered trees) (map asked_by names.now)) 0 trees)) }
{
    let mut asked = Vec::new(alloc);
    push_asked(&mut asked, names)?;
    types.index(alloc)?;
    find_asked(types, &mut asked);
    let mut text = Vec::new(alloc);
    push_definitions(alloc, &mut text, types, &asked)?;
    Ok(text)
}

/// Reads the types of a file, and makes the text of the definitions with these names.
fn tell_members(alloc: Global, file: &[u8], names: &[&[u8]]) -> Result<Vec<u8>, PdbFault>
    ensures value { IfOk result (λ text. AreMembers file.now names.now text.items) }
    ensures found { (records : List (List ℕ)) → IsAccepted file.now records →
        IfErr result (λ fault. fault ≡ PdbFault.Memory) }
    ensures first { IfErr result (IsFaultOfFile file.now) }
{
    let mut buffer = Buffer::new(alloc);
    let mut types = read_types(alloc, file, &mut buffer)?;
    match text_of(alloc, &mut types, names) {
        Ok(text) => Ok(text),
        Err(_) => Err(PdbFault::Memory),
    }
}

/// Copies the text of those definitions of a file that have one of these names to the front of
/// `out`; of all definitions if there are no names. `size` is how many bytes the text has.
///
/// The texts are those of [`push_definitions`]: a declaration is shown only if it is asked for, and
/// no definition has its name. The faults, in order: those of `read_types`; `MEMORY`; `ROOM`, and
/// then `size` is set too.
#[tactic(auto, using(crate::proofs::NumberLaws::pdb_known))]
#[unsafe(no_mangle)]
pub extern "C" fn pdbmerge_members(
    alloc: Global,
    file: &[u8],
    names: &[&[u8]],
    out: &mut [u8],
    size: &mut u64,
    fault: &mut Fault,
) -> u32
    ensures answer { Copies (AreMembers file.now names.now) (RefusesCheck file.now)
        out.old out.new size.old size.new fault.new result }
    // A file that is accepted is refused only when out of memory or of room.
    ensures found { (records : List (List ℕ)) → IsAccepted file.now records →
        (result ≡ 0) ⊎ (result ≡ 33) ⊎ (result ≡ 100) }
{
    match tell_members(alloc, file, names) {
        Ok(text) => give(text.as_slice(), out, size, fault),
        Err(why) => refuse(fault, why.number(), None, &why),
    }
}
