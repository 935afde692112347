//! Laws of the types of records that lead into a cycle.
//!
//! Each function here does nothing: its contract is the law.

ghost use Rattle.checked_types.specs.Laws.{OneCycle, CyclicTypesHaveNoRank};

/// There is at most one list of the records that lead into a cycle.
pub fn one_cycle()
    ensures { OneCycle }
{}

/// If some records lead into a cycle, no rank makes each record higher than those that it names.
pub fn cycles_have_no_rank()
    ensures { CyclicTypesHaveNoRank }
{}
