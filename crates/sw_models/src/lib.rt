//! Finite structures made by a builder, read from text and printed.
#![tactic(auto)]

mod builder;
mod errors;
mod laws;
mod printing;
mod reading;

pub use builder::StructureBuilder;
pub use errors::{BuildError, StructureError};
pub use laws::{one_answer, printed_reads_back};
pub use printing::print_structure;
pub use reading::read_structure;
