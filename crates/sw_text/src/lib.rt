//! The texts of formulas: what the names of a tree of words stand for, and whole texts.
#![tactic(auto)]

mod formulas;
mod laws;
mod lookup;
mod names;
mod resolve;
mod scoped;
mod tables;
mod texts;

pub use formulas::name_of;
pub use laws::{one_formula, read_binds_few, read_is_well_sorted};
pub use lookup::number_of;
pub use names::{Names, Place, Rule, Violation};
pub use resolve::Resolved;
pub use scoped::{print_formula, read_formula};
pub use tables::Tables;
pub use texts::{TextError, place_of, read_named};
