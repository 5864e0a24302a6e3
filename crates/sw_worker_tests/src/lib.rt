//! Worked examples of the calls that workers run: a shared pool, a round of one worker, and searches by
//! two. The crate has tests alone.
#![tactic(auto)]

#[cfg(test)]
mod alone;
#[cfg(test)]
mod asserts;
#[cfg(test)]
mod gates;
#[cfg(test)]
mod inputs;
#[cfg(test)]
mod records;
#[cfg(test)]
mod refreshes;
#[cfg(test)]
mod together;
