//! Laws of the difference of two lists of types.
//!
//! Each function here does nothing: its contract is the law.

ghost use Rattle.type_difference.specs.Difference.{DifferenceBegins};

/// If one list has a type that another one lacks, the difference begins at one of its records.
pub fn difference_begins()
    ensures { DifferenceBegins }
{}
