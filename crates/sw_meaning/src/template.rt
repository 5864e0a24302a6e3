//! A template: the variables of its formulas and the bounds on what stands under them.
use sqlite_items::Items;

/// Some variables of a sort, all universal or all existential.
#[derive(Clone, Copy, PartialEq, Eq)]
pub struct Run {
    pub universal: bool,
    pub count: u32,
    pub sort: u32,
}

/// A template. `literals` is the most literals that a formula has, `terms` the most applications
/// inside one another; at depth 1 a formula is a disjunction of literals, at depth 2 of conjunctions.
#[derive(Drop)]
pub struct Template {
    pub prefix: Items<Run>,
    pub literals: u32,
    pub depth: u32,
    pub terms: u32,
}
