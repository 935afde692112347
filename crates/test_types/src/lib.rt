//! Tests of `type_table` and `type_expressions`, while memory is refused.
//!
//! They say what no clause says, at public calls. What a run of the program shows is in `tests/rows`.
#![tactic(auto)]

#[cfg(test)]
mod calls;
#[cfg(test)]
mod joining;
#[cfg(test)]
mod members;
#[cfg(test)]
mod words;
