//! Worked examples of what the program answers, as rows of texts: protocols, command lines and
//! searches. The crate has tests alone.
#![tactic(auto)]

#[cfg(test)]
mod asserts;
#[cfg(test)]
mod gates;
#[cfg(test)]
mod protocols;
#[cfg(test)]
mod running;
#[cfg(test)]
mod runs;
#[cfg(test)]
mod spaces;
#[cfg(test)]
mod workers;
