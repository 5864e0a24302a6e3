//! What each name of a formula stands for, and the first rule that one breaks.
ghost use Rattle.std.specs.Prelude.{◌≡◌, Some, IfOk};
ghost use Rattle.std.specs.List.{list_any, position};
ghost use Rattle.std.specs.Str.{bytes_eq};
ghost use Rattle.sw_text.specs.Names.{sort_number, symbol_number, variable_number, is_declared, head_of, head_tests, head_sorts, head_gives, is_axiom, reads_post, is_listed, value_mismatch, mismatch, variable_tests, symbol_tests};
ghost use Rattle.sw_text.specs.Resolving.{around, first_rule};

use crate::names::{Head, Names, Place, Rule, Wanted};
use std::alloc::AllocError;
use sw_logic::{Binder, Name, Symbol, SymbolKind};
use sw_trees::{Word, bytes_of};

fn is_named(bytes: &[u8], name: &Name) -> bool
    ensures { result ≡ bytes_eq bytes.now name.now }
{
    bytes == name.as_str().as_bytes()
}

/// The place of the variable of this name.
pub fn variable_place(scope: &[Binder], bytes: &[u8]) -> Option<usize>
    ensures { result ≡ variable_number scope.now bytes.now }
{
    scope
        .iter()
        .position(|binder| is_named(bytes, &binder.name))
}

/// A count as a number of what it counts; an error where it does not fit.
pub fn number_of(count: usize) -> Result<u32, AllocError>
    ensures { IfOk result (λ n. n ≡ count) }
{
    match u32::try_from(count) {
        Ok(number) => Ok(number),
        Err(_) => Err(AllocError),
    }
}

/// A place as the number of what stands there.
fn number(place: Option<usize>) -> Result<Option<u32>, AllocError>
    ensures { IfOk result (λ n. n ≡ place) }
{
    match place {
        None => Ok(None),
        Some(place) => Ok(Some(number_of(place)?)),
    }
}

/// Whether a value of this sort does not stand where this is wanted.
fn value_mismatch(wanted: Wanted, sort: u32) -> bool
    ensures { result ≡ value_mismatch wanted sort }
{
    match wanted {
        Wanted::Atom => true,
        Wanted::Value => false,
        Wanted::Sort(other) => sort != other,
    }
}

fn mismatch(wanted: Wanted, kind: SymbolKind, gives: u32) -> bool
    ensures { result ≡ mismatch wanted kind gives }
{
    match kind {
        SymbolKind::Relation => match wanted {
            Wanted::Atom => false,
            Wanted::Value | Wanted::Sort(_) => true,
        },
        SymbolKind::Constant | SymbolKind::Function => value_mismatch(wanted, gives),
    }
}

impl Place {
    fn is_axiom(&self) -> bool
        ensures { result ≡ is_axiom self.now }
    {
        match self {
            Place::Axiom => true,
            Place::OneState | Place::Step(_) => false,
        }
    }

    fn reads_post(&self) -> bool
        ensures { result ≡ reads_post self.now }
    {
        match self {
            Place::Axiom | Place::OneState => false,
            Place::Step(_) => true,
        }
    }

    fn is_listed(&self, symbol: u32) -> bool
        ensures { result ≡ is_listed self.now symbol }
    {
        match self {
            Place::Axiom | Place::OneState => false,
            Place::Step(listed) => listed.as_slice().contains(&symbol),
        }
    }
}

/// The first rule that a variable breaks.
fn variable_rule(binder: &Binder, primed: bool, count: usize, wanted: Wanted) -> Option<Rule>
    ensures { result ≡ first_rule (variable_tests (Some binder.now) primed count wanted) }
{
    if primed {
        Some(Rule::PostState)
    } else if count != 0 {
        Some(Rule::Arity)
    } else if value_mismatch(wanted, binder.sort) {
        Some(Rule::SortMismatch)
    } else {
        None
    }
}

/// The first rule that a symbol breaks.
fn symbol_rule(
    place: &Place,
    number: u32,
    symbol: &Symbol,
    primed: bool,
    count: usize,
    wanted: Wanted,
) -> Option<Rule>
    ensures { result ≡ first_rule (symbol_tests place.now number (Some symbol.now) primed count wanted) }
{
    if place.is_axiom() && symbol.mutable {
        Some(Rule::AxiomMutable)
    } else if primed && !(place.reads_post() && symbol.mutable) {
        Some(Rule::PostState)
    } else if primed && !place.is_listed(number) {
        Some(Rule::NotModified)
    } else if count != symbol.args.len() {
        Some(Rule::Arity)
    } else if mismatch(wanted, symbol.kind, symbol.gives) {
        Some(Rule::SortMismatch)
    } else {
        None
    }
}

impl Names<'_> {
    fn symbol_place(&self, name: &[u8]) -> Option<usize>
        ensures { result ≡ position (λ s. bytes_eq name.now s.name) self.now.signature.now.symbols }
    {
        self.tables.symbols.find(name)
    }

    fn is_sort(&self, name: &[u8]) -> bool
        ensures { result ≡ list_any (bytes_eq name.now) self.now.signature.now.sorts }
    {
        self.tables.sorts.has(name)
    }

    fn is_symbol(&self, name: &[u8]) -> bool
        ensures { result ≡ list_any (λ s. bytes_eq name.now s.name) self.now.signature.now.symbols }
    {
        self.tables.symbols.has(name)
    }

    /// The number of the sort of this name.
    pub fn sort_number(&self, name: &[u8]) -> Result<Option<u32>, AllocError>
        ensures { IfOk result (λ n. n ≡ sort_number (around self.now) name.now) }
    {
        number(self.tables.sorts.find(name))
    }

    /// The number of the symbol of this name.
    pub fn symbol_number(&self, name: &[u8]) -> Result<Option<u32>, AllocError>
        ensures { IfOk result (λ n. n ≡ symbol_number (around self.now) name.now) }
    {
        number(self.symbol_place(name))
    }

    /// Whether a sort, a symbol or another thing of this name is declared.
    pub fn is_declared(&self, name: &[u8]) -> bool
        ensures { result ≡ is_declared (around self.now) name.now }
    {
        self.is_sort(name) || self.is_symbol(name) || self.declared_too.has(name)
    }

    /// What the word stands for.
    pub fn head_of(&self, scope: &[Binder], word: Word) -> Result<Option<Head>, AllocError>
        ensures { IfOk result (λ h. h ≡ head_of (around self.now) scope.now word) }
    {
        let name = bytes_of(self.text, &word.token);
        if let Some(variable) = number(variable_place(scope, name))? {
            return Ok(Some(Head::Variable(variable)));
        }
        match self.symbol_number(name)? {
            Some(symbol) => Ok(Some(Head::Symbol(symbol))),
            None => Ok(None),
        }
    }

    /// The first rule that the name breaks, before so many arguments, where this is wanted.
    pub fn head_rule(
        &self,
        scope: &[Binder],
        head: Option<Head>,
        primed: bool,
        count: usize,
        wanted: Wanted,
    ) -> Option<Rule>
        ensures { result ≡ first_rule (head_tests (around self.now) scope.now head primed count wanted) }
    {
        match head {
            None => Some(Rule::Unknown),
            Some(Head::Variable(variable)) => match scope.get(variable as usize) {
                Some(binder) => variable_rule(binder, primed, count, wanted),
                None => None,
            },
            Some(Head::Symbol(number)) => match self.signature.symbols.get(number as usize) {
                Some(symbol) => symbol_rule(self.place, number, symbol, primed, count, wanted),
                None => None,
            },
        }
    }

    /// What a right side wants where the left side begins so.
    pub fn head_gives(&self, scope: &[Binder], head: Option<Head>) -> Wanted
        ensures { result ≡ head_gives (around self.now) scope.now head }
    {
        match head {
            None => Wanted::Value,
            Some(Head::Variable(variable)) => match scope.get(variable as usize) {
                Some(binder) => Wanted::Sort(binder.sort),
                None => Wanted::Value,
            },
            Some(Head::Symbol(number)) => match self.signature.symbols.get(number as usize) {
                Some(symbol) => Wanted::Sort(symbol.gives),
                None => Wanted::Value,
            },
        }
    }

    /// The sorts of the arguments.
    pub fn head_sorts(&self, head: Option<Head>) -> &[u32]
        ensures { result.now ≡ head_sorts (around self.now) head }
    {
        match head {
            Some(Head::Symbol(number)) => match self.signature.symbols.get(number as usize) {
                Some(symbol) => symbol.args.as_slice(),
                None => &[],
            },
            Some(Head::Variable(_)) | None => &[],
        }
    }
}
