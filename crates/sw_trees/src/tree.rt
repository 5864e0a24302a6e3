//! What words spell, before names are looked up: terms and formulas over words. Brackets leave no
//! trace, and a run of `&` or of `|` is one node.
use crate::words::Word;
use sqlite_items::{Boxed, Items};

/// A name and whether a prime follows it; or the same with arguments, of which there is at least one.
#[derive(Drop)]
pub enum TermTree {
    Named(Word, bool),
    Applied(Word, bool, Items<TermTree>),
}

/// A variable's name and its sort's.
#[derive(Clone, Copy)]
pub struct Binder {
    pub name: Word,
    pub sort: Word,
}

/// A formula. `t != u` is the negation of `t = u`; `Quantified` is universal where it is true.
#[derive(Drop)]
pub enum Tree {
    Constant(bool),
    Atom(TermTree),
    Equal(TermTree, TermTree),
    Not(Boxed<Tree>),
    All(Items<Tree>),
    Any(Items<Tree>),
    Implies(Boxed<Tree>, Boxed<Tree>),
    Iff(Boxed<Tree>, Boxed<Tree>),
    Quantified(bool, Items<Binder>, Boxed<Tree>),
}
