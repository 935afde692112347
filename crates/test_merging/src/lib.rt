//! Tests of `pdb_merge`: sinks that break, reads that fail, and what is there after a refusal.
//!
//! They say what no clause says, at public calls. What a run of the program shows is in `tests/rows`
//! and `tests/answers`.
#![tactic(auto)]

#[cfg(test)]
mod calls;
#[cfg(test)]
mod damaged;
#[cfg(test)]
mod growth;
#[cfg(test)]
mod maps;
#[cfg(test)]
mod positions;
#[cfg(test)]
mod scattered;
#[cfg(test)]
mod sinks;
