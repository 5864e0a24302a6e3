//! Queries in Skolem form, after the EPR fragment of Ivy's logic: negation normal form, symbols for
//! existential variables, and pieces without quantifiers.
#![tactic(auto)]

mod absorbing;
mod existentials;
mod forming;
mod laws;
mod normal;
mod pieces;
mod replacing;
mod skolem;

pub use laws::{
    nnf_is_normal, nnf_keeps_truth, skolem_expands, skolem_is_well_formed, skolem_keeps_strata,
    skolem_restricts,
};
pub use normal::nnf;
pub use skolem::skolemise;
