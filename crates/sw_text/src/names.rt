//! Names and sorts: by what the names of a formula are read, and the rules that one may break.
ghost use Rattle.sw_text.specs.Tables.{AreOf};

use crate::tables::Tables;
use sqlite_items::Items;
use sw_logic::Signature;
use sw_table::Table;

/// Where a formula stands: in an axiom; in an initial condition or a safety property; or in a
/// transition that modifies these symbols.
#[derive(Drop)]
pub enum Place {
    Axiom,
    OneState,
    Step(Items<u32>),
}

/// The rules on names and sorts, in the order in which they are asked at one name.
#[derive(Clone, Copy, Debug, PartialEq, Eq)]
pub enum Rule {
    Twice,
    Unknown,
    AxiomMutable,
    PostState,
    NotModified,
    Arity,
    SortMismatch,
}

/// A rule that a name breaks, and the place of its first byte.
#[derive(Clone, Copy, Debug, PartialEq, Eq)]
pub struct Violation {
    pub rule: Rule,
    pub at: u32,
}

/// What is wanted where a term stands: an atom, any value, or a value of a sort.
#[derive(Clone, Copy)]
pub enum Wanted {
    Atom,
    Value,
    Sort(u32),
}

/// What a name stands for: a variable by its place in the scope, or a symbol by its number.
#[derive(Clone, Copy)]
pub enum Head {
    Variable(u32),
    Symbol(u32),
}

/// By what the names of a formula are read: the text, the signature with the tables of its names, the
/// names of further things that are declared, and where the formula stands.
#[derive(Clone, Copy)]
pub struct Names<'a> {
    pub text: &'a [u8],
    pub signature: &'a Signature,
    pub tables: &'a Tables,
    pub declared_too: &'a Table,
    pub place: &'a Place,
    ghost of_signature: { AreOf tables.now signature.now },
}
