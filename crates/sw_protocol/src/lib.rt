//! Protocols as text: which words spell one, what their names stand for, and canonical text.
#![tactic(auto)]

mod declaring;
mod draft;
mod laws;
mod machine;
mod parsing;
mod phases;
mod printing;
mod strata;
mod stratified;
mod texts;
mod tree;

pub use laws::{declared_is_well_formed, one_declared, one_parse, one_protocol};
pub use parsing::{Parsed, parse};
pub use printing::print_protocol;
pub use strata::strata_with;
pub use stratified::read_protocol;
pub use sw_meaning::{Decl, Protocol, Transition};
pub use texts::{ProtocolError, read_declared};
pub use tree::{Declaration, Heading, Statement};
