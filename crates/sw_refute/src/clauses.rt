//! Literals, clauses, sets of clauses and derived clauses.
use sqlite_items::Items;

/// A literal by its number: 2v is variable v, and 2v + 1 its negation.
#[derive(Clone, Copy, PartialEq, Eq)]
pub struct Lit(pub u32);

/// The disjunction of its literals. One without literals is false.
#[derive(Drop)]
pub struct Clause {
    pub lits: Items<Lit>,
}

/// A set of clauses over the variables below `variables`. Clauses are numbered from 0.
#[derive(Drop)]
pub struct Cnf {
    pub variables: u32,
    pub clauses: Items<Clause>,
}

/// A step: a clause, and the numbers of the clauses that show it by unit propagation. Steps are
/// numbered after the clauses of the set.
#[derive(Drop)]
pub struct Derived {
    pub clause: Clause,
    pub hints: Items<u32>,
}
