//! Finite structures, and pairs of them.
use sqlite_items::Items;

/// What a symbol is in a structure: a relation's bits, a constant's value or a function's values.
/// Tuples are in lexicographic order.
#[derive(Drop)]
pub enum Table {
    Bits(Items<bool>),
    Value(u32),
    Values(Items<u32>),
}

/// A size for each sort and a table for each symbol, in the signature's order.
#[derive(Drop)]
pub struct Structure {
    pub sizes: Items<u32>,
    pub tables: Items<Table>,
}

/// Two structures: plain symbols read `before` and primed ones `after`.
#[derive(Drop)]
pub struct Pair {
    pub before: Structure,
    pub after: Structure,
}
