//! The lines of the members of one field list.

ghost use Rattle.std.specs.Prelude.{◌≡◌, ◌≤◌, ◌<◌, ◌-◌, ◌++◌, [], ◌∷◌, ◌^◌, ℕ, List, true, OnOk, IfOk, length};
ghost use Rattle.tpi_records.specs.Header.{first_index};
ghost use Rattle.tpi_records.specs.Records.{IsRecord};
ghost use Rattle.cv_leaves.specs.Place.{IsChecked};
ghost use Rattle.cv_leaves.specs.References.{references};
ghost use Rattle.type_trees.specs.Tree.{Tree, Branches, IsTreeAt, AreBranches};
ghost use Rattle.type_trees.specs.Depth.{depth, depth_over};
ghost use Rattle.type_expressions.specs.Expression.{IsTold};
ghost use Rattle.type_expressions.specs.Field.{number_in};
ghost use Rattle.type_expressions.specs.Lines.{GoOn, lines_text, own_lines, rest_lines};
ghost use Rattle.type_expressions.specs.Member.{member_line, names_type};
ghost use Rattle.output_words.specs.Bounded.{cut};

use crate::field::{u16_in, u32_in};
use crate::member::push_member;
use checked_types::Types;
use cv_leaves::members;
use output_words::bounded::add;
use std::alloc::{AllocError, Allocator};
use tpi_records::FIRST_INDEX;

/// The kind of a member that names the list in which the members go on.
const LF_INDEX: u16 = 0x1404;

/// Appends the line of a member, after two spaces, and with its end.
#[tactic(auto, unfolding(crate::specs::Lines::lines_text))]
fn push_line<A: Allocator, T: Allocator>(
    text: &mut Vec<u8, A>,
    types: &Types<'_, T>,
    member: &[u8],
) -> Result<(), AllocError>
    requires few { length member.now ≤ 2 ^ 16 }
    ensures value { (words : List ℕ)
        → (names_type member.now ≡ true → IsTold types.now 8 (number_in 4 member.now 4) words)
        → OnOk result (text.new.items
        ≡ text.old.items ++ lines_text (member_line member.now (cut 400 words) ∷ [])) }
{
    add(text, b"  ")?;
    push_member(text, types, member)?;
    add(text, b"\n")?;
    Ok(())
}

/// Appends the lines of the members of one field list. Returns the list in which they go on.
pub fn push_own<A: Allocator, T: Allocator>(
    text: &mut Vec<u8, A>,
    types: &Types<'_, T>,
    list: &[u8],
) -> Result<Option<u32>, AllocError>
    requires framed { IsRecord list.now }
    requires checked { IsChecked list.now }
    ensures value { (bs : Branches) → AreBranches types.now (references list.now) bs →
        IfOk result (λ next.
        (text.new.items ≡ text.old.items ++ lines_text (own_lines list.now bs))
        × GoOn types.now (depth_over bs) next (rest_lines list.now bs)) }
{
    let mut next = None;
    for member in members(list) {
        if u16_in(member, 0) == LF_INDEX {
            next = Some(u32_in(member, 4));
        } else {
            push_line(text, types, member)?;
        }
    }
    Ok(next)
}

/// How many lists members may go on in, at most: one more than the depth of the first.
pub fn lists_from<T: Allocator>(types: &Types<'_, T>, to: u32) -> u64
    ensures { (t : Tree) → first_index ≤ to → IsTreeAt types.now (to - first_index) t →
        depth t < result }
{
    let Some(position) = to.checked_sub(FIRST_INDEX) else {
        return 0;
    };
    match types.depth(position as usize) {
        Some(depth) => u64::from(depth) + 1,
        None => 0,
    }
}
