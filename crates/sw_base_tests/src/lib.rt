//! Tests of the lowest crates: what several threads draw and append, which steps the check refuses, and
//! the solver's answers against truth. The crate has tests alone.
#![tactic(auto)]

#[cfg(test)]
mod asserts;
#[cfg(test)]
mod claims;
#[cfg(test)]
mod log;
#[cfg(test)]
mod solver;
#[cfg(test)]
mod steps;
