//! A short example for each library, as a user of that library writes it.
//!
//! The module `clashes` has the tests of sets of texts: texts that share a hash, and refused memory.
//!
//! No crate uses this one. Beside it are the crates of tests: `test_formats`,
//! `test_types` and `test_merging`. They are crates of their own since a crate is proved a
//! second time with its tests, and several since what one proof of a test costs grows with its crate.
//! Their rows come from the tables of the formats and from other programs, never from this one.
#![tactic(auto)]

#[cfg(test)]
mod clashes;
#[cfg(test)]
mod examples;
#[cfg(test)]
mod faults;
#[cfg(test)]
mod orders;
#[cfg(test)]
mod positions;
#[cfg(test)]
mod reading;
