//! Examination of a class: the queries of its formula in order, and the first answer that decides.
#![tactic(auto)]

pub mod asking;
pub mod examining;
pub mod stepping;

pub use examining::{Examined, QueryName, copy_body, examine};
