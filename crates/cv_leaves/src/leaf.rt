//! The table of leaves.

ghost use Rattle.std.specs.Prelude.{◌≡◌, option_map};
ghost use Rattle.cv_leaves.specs.Leaf.{leaf_of, leaf_seen};

/// What follows the fields at fixed places: nothing, or parts that lie one after the other.
#[derive(Clone, Copy, Debug)]
pub enum Rest {
    /// Nothing that names a type.
    Nothing,
    /// The attributes of a pointer, and its containing class if it points to a member.
    Containing,
    /// A count, and that many type indices.
    Indices,
    /// The entries of a method list, to the end of the body.
    Methods,
    /// The members of a field list, to the end of the body.
    Members,
}

/// Where the name of the type begins.
#[derive(Clone, Copy, Debug)]
pub enum NamePlace {
    /// The leaf has no name.
    Unnamed,
    /// At this offset of the body.
    At(u8),
    /// After the numeric leaf at this offset of the body.
    AfterNumeric(u8),
}

/// A row of the table.
#[derive(Clone, Copy, Debug)]
pub struct Leaf {
    pub text: &'static str,
    /// The places at fixed offsets of the body.
    pub places: &'static [u8],
    pub rest: Rest,
    pub naming: NamePlace,
}

/// The row of a kind. `None` where the table does not have it.
#[tactic(auto, unfolding(crate::specs::Leaf::leaf_of))]
pub fn leaf_of(kind: u16) -> Option<Leaf>
    ensures { option_map leaf_seen result ≡ leaf_of kind }
{
    let (text, places, rest, naming): (&'static str, &'static [u8], Rest, NamePlace) = match kind {
        0x000A => ("LF_VTSHAPE", &[], Rest::Nothing, NamePlace::Unnamed),
        0x000E => ("LF_LABEL", &[], Rest::Nothing, NamePlace::Unnamed),
        0x1001 => ("LF_MODIFIER", &[0], Rest::Nothing, NamePlace::Unnamed),
        0x1002 => ("LF_POINTER", &[0], Rest::Containing, NamePlace::Unnamed),
        0x1008 => ("LF_PROCEDURE", &[0, 8], Rest::Nothing, NamePlace::Unnamed),
        0x1009 => (
            "LF_MFUNCTION",
            &[0, 4, 8, 16],
            Rest::Nothing,
            NamePlace::Unnamed,
        ),
        0x1201 => ("LF_ARGLIST", &[], Rest::Indices, NamePlace::Unnamed),
        0x1203 => ("LF_FIELDLIST", &[], Rest::Members, NamePlace::Unnamed),
        0x1205 => ("LF_BITFIELD", &[0], Rest::Nothing, NamePlace::Unnamed),
        0x1206 => ("LF_METHODLIST", &[], Rest::Methods, NamePlace::Unnamed),
        0x1503 => (
            "LF_ARRAY",
            &[0, 4],
            Rest::Nothing,
            NamePlace::AfterNumeric(8),
        ),
        0x1504 => (
            "LF_CLASS",
            &[4, 8, 12],
            Rest::Nothing,
            NamePlace::AfterNumeric(16),
        ),
        0x1505 => (
            "LF_STRUCTURE",
            &[4, 8, 12],
            Rest::Nothing,
            NamePlace::AfterNumeric(16),
        ),
        0x1506 => ("LF_UNION", &[4], Rest::Nothing, NamePlace::AfterNumeric(8)),
        0x1507 => ("LF_ENUM", &[4, 8], Rest::Nothing, NamePlace::At(12)),
        0x1519 => (
            "LF_INTERFACE",
            &[4, 8, 12],
            Rest::Nothing,
            NamePlace::AfterNumeric(16),
        ),
        0x151D => ("LF_VFTABLE", &[0, 4], Rest::Nothing, NamePlace::Unnamed),
        _ => return None,
    };
    Some(Leaf {
        text,
        places,
        rest,
        naming,
    })
}

/// The name of the leaf of a kind, `LF_POINTER` for example.
///
/// `None` where the kind is not in the table of leaves. This does not allocate.
pub fn leaf_text(kind: u16) -> Option<&'static str>
    ensures { option_map (λ t. t.now) result ≡ option_map (λ l. l.text) (leaf_of kind) }
{
    Some(leaf_of(kind)?.text)
}
