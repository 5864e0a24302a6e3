//! How far a declaration was read.
use crate::tree::{Declaration, Heading, Statement};
use sqlite_items::Items;
use sw_trees::{Binder, Stage, State, Word};

/// What the name that comes next is of.
#[derive(Clone, Copy)]
pub enum Naming {
    Sort,
    Relation(bool),
    Constant(bool),
    Function,
    Transition,
}

/// What a sort is given to: a constant, or a function with the sorts of its arguments.
#[derive(Drop)]
pub enum Typing {
    Constant(bool, Word),
    Function(Word, Items<Word>),
}

/// What a list of names is of: the sorts of arguments, or the symbols that a transition modifies.
#[derive(Drop)]
pub enum Listing {
    Relation(bool, Word),
    Function(Word),
    Modified(Word, Items<Binder>),
}

/// What a formula belongs to.
#[derive(Drop)]
pub enum Owner {
    Stated(Statement),
    Transition(Heading),
}

/// What was read of a declaration, and so what may come next.
#[derive(Drop)]
pub enum Phase {
    /// A declaration begins.
    Begin,
    /// The kind of what is mutable, or not.
    Change(bool),
    /// A new name.
    Name(Naming),
    /// The sorts of a relation's arguments, or its end.
    Relation(bool, Word),
    /// The sorts of a function's arguments.
    Function(Word),
    /// A transition's parameters, or what follows them.
    Transition(Word),
    /// The rest of a list of parameters.
    Params(Word, Items<Binder>, Stage),
    /// What follows a transition's parameters.
    Heading(Word, Items<Binder>),
    /// A name of a list, after these.
    List(Listing, Items<Word>),
    /// A comma or the end of a list.
    Listed(Listing, Items<Word>),
    /// The colon before a sort.
    Colon(Typing),
    /// A sort.
    Sort(Typing),
    /// A word of a formula, or its end.
    Formula(Owner, State),
    /// The semicolon after a declaration.
    End(Declaration),
}

/// What a word does: it is read; it ends a declaration; it or the formula before it goes past a limit;
/// or no declaration goes on with it.
#[derive(Drop)]
pub enum Move {
    Taken(Phase),
    Whole(Declaration),
    Past,
    Refused,
}
