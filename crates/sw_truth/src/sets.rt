//! The Skolem form of a query.
use sqlite_items::Items;
use sw_logic::{Formula, Signature};

/// A formula without quantifiers, to be true at all values of its variables, whose sorts are `vars`.
#[derive(Drop)]
pub struct Piece {
    pub vars: Items<u32>,
    pub matrix: Formula,
}

/// The Skolem form of a query. The signature has the query's symbols, then a symbol for each
/// existential variable, then a constant for each sort of which there is no other ground term. The
/// last `added` symbols are not the query's.
#[derive(Drop)]
pub struct SkolemSet {
    pub signature: Signature,
    pub added: u32,
    pub pieces: Items<Piece>,
}
