//! What the decision procedure is asked: sentences that are to be true together.
use crate::syntax::{Formula, Signature};
use sqlite_items::Items;

/// Closed formulas of a signature, to be true together in one structure. They read no post symbols.
#[derive(Drop)]
pub struct Query {
    pub signature: Signature,
    pub sentences: Items<Formula>,
}

/// A formula that is asserted, or, where `positive` is false, whose negation is.
#[derive(Drop)]
pub struct Polar {
    pub formula: Formula,
    pub positive: bool,
}
