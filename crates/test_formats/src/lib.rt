//! Tests of what reads and writes the formats: containers and streams.
//!
//! They say what no clause says, at public calls. What a run of the program shows is in
//! `tests/answers`.
#![tactic(auto)]

#[cfg(test)]
mod images;
#[cfg(test)]
mod positions;
#[cfg(test)]
mod streams;
