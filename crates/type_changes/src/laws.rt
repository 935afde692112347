//! Laws of what changed between two lists of definitions.
//!
//! Each function here does nothing: its contract is the law.

ghost use Rattle.type_changes.specs.Laws.{CameIsShown, LoneIsShown, NothingChanged, TypesHaveDefinitions};

/// Nothing is shown exactly where both lists have the same definitions.
pub fn nothing_changed()
    ensures { NothingChanged }
{}

/// Each definition that only our list has is shown, as what changed or as what went.
pub fn lone_is_shown()
    ensures { LoneIsShown }
{}

/// Each definition that only their list has is shown, as what came or as what one of ours is now.
pub fn came_is_shown()
    ensures { CameIsShown }
{}

/// Where other records have all types of some records, they have all definitions of them.
pub fn types_have_definitions()
    ensures { TypesHaveDefinitions }
{}
