//! Signatures, terms and formulas.
ghost use Rattle.std.specs.Prelude.{◌≡◌, string_bytes};

use sqlite_items::{Boxed, Items};
use std::marker::Model;

/// A name as it is written. Contracts see its bytes.
#[derive(Drop)]
pub struct Name {
    text: String,
}

impl Model for Name {
    ghost use Rattle.std.specs.Prelude.{List, ℕ, string_bytes};

    ghost Value = { List ℕ };

    ghost view = { λ n. string_bytes n.text };
}

impl Name {
    pub fn new(text: String) -> Name
        ensures { result ≡ string_bytes text }
    {
        Name { text }
    }

    pub fn as_str(&self) -> &str
        ensures { result.now ≡ self.now }
    {
        self.text.as_str()
    }
}

#[derive(Clone, Copy, PartialEq, Eq)]
pub enum SymbolKind {
    Relation,
    Constant,
    Function,
}

/// A symbol. Sorts are numbered by their place in the signature; `gives` is the sort of the value,
/// and 0 for a relation.
#[derive(Drop)]
pub struct Symbol {
    pub name: Name,
    pub kind: SymbolKind,
    pub args: Items<u32>,
    pub gives: u32,
    pub mutable: bool,
}

#[derive(Drop)]
pub struct Signature {
    pub sorts: Items<Name>,
    pub symbols: Items<Symbol>,
}

/// A variable by its place in the scope, outermost first, or a symbol by its place in the
/// signature. A `post` symbol is a primed one.
#[derive(Drop)]
pub enum Term {
    Variable(u32),
    Apply {
        symbol: u32,
        post: bool,
        args: Items<Term>,
    },
}

#[derive(Drop)]
pub struct Binder {
    pub name: Name,
    pub sort: u32,
}

/// A formula. Binders take the places after those of the variables in scope, in their order.
#[derive(Drop)]
pub enum Formula {
    True,
    False,
    Holds {
        symbol: u32,
        post: bool,
        args: Items<Term>,
    },
    Equal(Term, Term),
    Not(Boxed<Formula>),
    All(Items<Formula>),
    Any(Items<Formula>),
    Implies(Boxed<Formula>, Boxed<Formula>),
    Iff(Boxed<Formula>, Boxed<Formula>),
    ForAll(Items<Binder>, Boxed<Formula>),
    Exists(Items<Binder>, Boxed<Formula>),
}

/// An edge between two sorts.
#[derive(Clone, Copy, PartialEq, Eq)]
pub struct Edge {
    pub from: u32,
    pub to: u32,
}
