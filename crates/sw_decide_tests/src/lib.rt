//! Worked examples of the calls that decide queries, as rows of texts that the product's own calls
//! read. The crate has tests alone.
#![tactic(auto)]

#[cfg(test)]
mod answers;
#[cfg(test)]
mod asked;
#[cfg(test)]
mod asserts;
#[cfg(test)]
mod forms;
#[cfg(test)]
mod limits;
#[cfg(test)]
mod queries;
#[cfg(test)]
mod refutations;
