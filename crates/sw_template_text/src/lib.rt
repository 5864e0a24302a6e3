//! The text of a template: reading it, and writing it canonically.
#![tactic(auto)]

pub mod errors;
pub mod laws;
mod naming;
pub mod parse;
mod printing;
mod reading;
mod resolving;
pub mod words;

pub use errors::TemplateError;
pub use printing::print_template;
pub use reading::read_template;
