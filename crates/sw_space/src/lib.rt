//! The space that a template's text names over a protocol, and how large it is.
#![tactic(auto)]

mod faults;
pub mod laws;
mod naming;
mod sizes;

pub use faults::{NoSpace, SpaceFault};
pub use naming::space_of;
pub use sizes::sizes_text;
