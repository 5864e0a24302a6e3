//! Worked examples of the public calls below the search, as rows of texts that the calls read
//! themselves. The crate has tests alone.
#![tactic(auto)]

#[cfg(test)]
mod asserts;
#[cfg(test)]
mod edges;
#[cfg(test)]
mod formulas;
#[cfg(test)]
mod lines;
#[cfg(test)]
mod reading;
#[cfg(test)]
mod replays;
#[cfg(test)]
mod structures;
#[cfg(test)]
mod truths;
#[cfg(test)]
mod walks;
