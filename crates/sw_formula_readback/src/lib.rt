//! That the text of a formula of a template reads back, and is of no other.
#![tactic(auto)]

mod laws;

pub use laws::{template_formulas_read_back, texts_have_declared_names, texts_tell_formulas};
