//! Formulas printed as canonical text.
#![tactic(auto)]

mod formulas;

pub use formulas::{print_named, push_binders, push_formula, sort_name, symbol_name};
