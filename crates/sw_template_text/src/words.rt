//! The words of a template's text.
ghost use Rattle.std.specs.Prelude.{◌≡◌};

use sqlite_items::Items;

/// A word. A number of more than nine digits is `Other`, and so are marks and keywords.
#[derive(Clone, Copy, PartialEq, Eq)]
pub enum Word {
    ForAll,
    Exists,
    Literals,
    Depth,
    Terms,
    Number(u32),
    Name { at: u32, len: u32 },
    Other,
}

/// A run whose sort is a name in the text.
#[derive(Clone, Copy, PartialEq, Eq)]
pub struct NamedRun {
    pub universal: bool,
    pub count: u32,
    pub at: u32,
    pub len: u32,
}

/// The numbers of a template.
#[derive(Clone, Copy, PartialEq, Eq)]
pub struct Numbers {
    pub literals: u32,
    pub depth: u32,
    pub terms: u32,
}

/// What is read of the words: a template, or the number of the first word that can't stand there.
#[derive(Drop)]
pub enum Parsed {
    Template(Items<NamedRun>, Numbers),
    Syntax(usize),
}
