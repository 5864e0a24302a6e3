//! What words declare, before names are looked up.
use sqlite_items::Items;
use sw_trees::{Binder, Tree, Word};

/// What a formula of the protocol is: an axiom, an initial condition or a safety property.
#[derive(Clone, Copy)]
pub enum Statement {
    Axiom,
    Init,
    Safety,
}

/// What stands before a transition's formula: its name, its parameters with their sorts, and the
/// names after `modifies`.
#[derive(Drop)]
pub struct Heading {
    pub name: Word,
    pub params: Items<Binder>,
    pub modifies: Items<Word>,
}

/// A declaration. A relation and a constant are mutable where it is true; a function is immutable.
#[derive(Drop)]
pub enum Declaration {
    Sort(Word),
    /// A relation's name and the sorts of its arguments.
    Relation(bool, Word, Items<Word>),
    /// A constant's name and its sort.
    Constant(bool, Word, Word),
    /// A function's name, the sorts of its arguments, of which there is at least one, and its sort.
    Function(Word, Items<Word>, Word),
    Stated(Statement, Tree),
    Transition(Heading, Tree),
}
