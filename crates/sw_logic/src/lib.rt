//! Many-sorted first-order logic over finite structures: its types, and truth by recursion.
#![tactic(auto)]

mod copy;
mod evaluate;
mod fitting;
mod laws;
pub mod query;
mod scopes;
mod sorting;
pub mod structure;
pub mod syntax;
pub mod variables;

pub use copy::{copy_binders, copy_formula, copy_name, copy_structure, copy_term, copy_terms};
pub use evaluate::{holds, holds_pair};
pub use fitting::{count_tuples, fits, fits_pair, size_at};
pub use laws::quantifiers_range;
pub use query::{Polar, Query};
pub use sorting::well_sorted;
pub use structure::{Pair, Structure, Table};
pub use syntax::{Binder, Edge, Formula, Name, Signature, Symbol, SymbolKind, Term};
pub use variables::{Env, Scope};
