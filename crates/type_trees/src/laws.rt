//! Laws of the types of records, and of canonical lists of types.
//!
//! Each function here does nothing: its contract is the law. A canonical list is a list of trees
//! here. The *text* of a tree is its record, which names other trees by their positions in the
//! list.

ghost use Rattle.type_trees.specs.Laws.{OneTreeEach, BranchesAreTypes, TextsDiffer, OneCanonicalList, CanonicalReadsBack, WeightOfTexts, WeightGrows};

/// There is exactly one tree at each position of records that make types, and it is closed.
pub fn one_tree_each()
    ensures { OneTreeEach }
{}

/// Each tree branch of a type of some records is a type of these records.
pub fn branches_are_types()
    ensures { BranchesAreTypes }
{}

/// Two trees with equal texts are equal, if the list holds their branches.
pub fn texts_differ()
    ensures { TextsDiffer }
{}

/// Two canonical lists with the same members are equal.
pub fn one_canonical_list()
    ensures { OneCanonicalList }
{}

/// The texts of a canonical list are good records: each is whole and has places. Each tree of
/// the list is at its position there, and no other tree is.
pub fn canonical_reads_back()
    ensures { CanonicalReadsBack }
{}

/// The weight of a canonical list is the number of bytes that its texts have together.
pub fn weight_of_texts()
    ensures { WeightOfTexts }
{}

/// A list that contains all trees of another one weighs at least as much, if the other one has
/// each tree once.
pub fn weight_grows()
    ensures { WeightGrows }
{}
