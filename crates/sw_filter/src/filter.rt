//! Filters and modes.
use sqlite_items::Items;
use sw_logic::{Pair, Structure};

/// A counterexample that is kept: a start, or a step of a transition with arguments. The last state
/// of a bad one violates safety. `under` is the length of the list that it was found under.
#[derive(Drop)]
pub enum Filter {
    Start {
        structure: Structure,
    },
    Move {
        pair: Pair,
        transition: u32,
        args: Items<u32>,
        under: u32,
    },
    Bad {
        pair: Pair,
        transition: u32,
        args: Items<u32>,
        under: u32,
    },
}

/// Whether formulas are to be inductive alone, or together with safety.
#[derive(Clone, Copy, PartialEq, Eq)]
pub enum Mode {
    Breadth,
    Finish,
}
