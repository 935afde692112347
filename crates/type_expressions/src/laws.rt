//! Laws of the texts of types.
//!
//! Each function here does nothing: its contract is the law.

ghost use Rattle.type_expressions.specs.Laws.{SameTypeSameWords, SameTypesSameDefinitions, TreesExist, WordsExist};

/// The same type has the same words, in whatever records it stands, and at whatever position.
pub fn same_type_same_words()
    ensures { SameTypeSameWords }
{}

/// Each reference of records that make types has words.
pub fn words_exist()
    ensures { WordsExist }
{}

/// Records that make types have a tree at each position.
pub fn trees_exist()
    ensures { TreesExist }
{}

/// Where other records have all types of some records, they have all definitions of them.
pub fn same_types_same_definitions()
    ensures { SameTypesSameDefinitions }
{}
