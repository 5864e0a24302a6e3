//! Instances of pieces and of equality over ground terms, and what is made of them.
use sqlite_items::Items;
use sw_refute::{Cnf, Derived};

/// An instance of a piece, or of equality over ground terms. Terms are numbered per sort.
#[derive(Drop)]
pub enum Instance {
    Of {
        piece: u32,
        terms: Items<u32>,
    },
    Reflexive {
        sort: u32,
        t: u32,
    },
    Symmetric {
        sort: u32,
        t: u32,
        u: u32,
    },
    Transitive {
        sort: u32,
        t: u32,
        u: u32,
        v: u32,
    },
    Congruent {
        symbol: u32,
        place: u32,
        terms: Items<u32>,
        u: u32,
    },
}

/// Instances, and steps from their clauses.
#[derive(Drop)]
pub struct Refutation {
    pub instances: Items<Instance>,
    pub steps: Items<Derived>,
}

/// What a variable of ground clauses stands for.
#[derive(Drop)]
pub enum Atom {
    Holds { symbol: u32, terms: Items<u32> },
    Equal { sort: u32, t: u32, u: u32 },
    Inner,
}

/// The clauses of instances, and what each of their variables stands for.
#[derive(Drop)]
pub struct Ground {
    pub cnf: Cnf,
    pub atoms: Items<Atom>,
}
