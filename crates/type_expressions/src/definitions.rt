//! The texts of the definitions of a list of types.

ghost use Rattle.std.specs.Prelude.{◌≡◌, ◌++◌, List, map, OnOk};
ghost use Rattle.std.specs.List.{concat};
ghost use Rattle.type_trees.specs.Tree.{Tree};
ghost use Rattle.type_expressions.specs.Asked.{AreTrees, answered, shown_texts};

use crate::asked::{Asked, best_of, is_shown};
use crate::definition::push_definition;
use crate::lists::Lists;
use checked_types::Types;
use std::alloc::{AllocError, Allocator};

/// Looks for what is asked for among types, and says what is found of it.
pub fn find_asked<A: Allocator>(types: &Types<'_, A>, asked: &mut [Asked<'_>])
    ensures { (trees : List Tree) → AreTrees types.now trees →
        asked.new ≡ map (answered trees) asked.old }
{
    for k in 0..asked.len() {
        let one = &mut asked[k];
        one.found = best_of(&one.query, types);
    }
}

/// Appends the texts of those definitions that are shown, in the order of their records.
///
/// The best that was found of what is asked for is shown. If nothing is asked for, all definitions
/// are. Each text is that of [`push_definition`].
///
/// The lines of a field list are made once, and copied where another definition names it. So this
/// takes time in proportion to the records and the text. It allocates 16 bytes for each record. The
/// only fault is out of memory.
pub fn push_definitions<A: Allocator + Copy, T: Allocator>(
    alloc: A,
    text: &mut Vec<u8, A>,
    types: &Types<'_, T>,
    asked: &[Asked<'_>],
) -> Result<(), AllocError>
    ensures { (trees : List Tree) → AreTrees types.now trees →
        OnOk result
        (text.new.items ≡ text.old.items ++ concat (shown_texts asked.now 0 trees)) }
{
    let mut lists = Lists::new(alloc, types.len())?;
    let mut records = types.iter();
    for position in 0..types.len() {
        let Some(record) = records.next() else {
            unreachable!()
        };
        if is_shown(asked, position, record) {
            push_definition(text, types, &mut lists, position)?;
        }
    }
    Ok(())
}
