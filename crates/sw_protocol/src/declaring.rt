//! Names of declarations: each is looked up among what is declared before it, in text order, and the
//! first rule that one breaks is told.
ghost use Rattle.std.specs.Prelude.{◌≡◌, [], ◌++◌, map, IfOk};
ghost use Rattle.sw_text.specs.declared.names.Place.TheVariants as place;
ghost use Rattle.sw_text.specs.Names.{number_or_0, bytes_at, faults, formula_read};
ghost use Rattle.sw_text.specs.Resolving.{around, first_rule, Finds};
ghost use Rattle.sw_protocol.specs.Declaring.{name_faults, sort_faults, sorts_faults, sort_of, sorts_of, one_modified_faults, modified_faults, symbol_of, symbols_of, is_among, fixed_at, modified_tests, place_of, standing, relation_of, constant_of, function_of, named_faults, named_transition, with_own_name, declaration_faults, item_of, all_faults, all_declared, empty_protocol};
ghost use Rattle.sw_protocol.specs.Drafts.{HasTables, reading, IsFirst, FindsKept};
ghost use Rattle.sw_protocol.specs.declared.draft.Item.TheVariants as item;

use crate::draft::{Draft, Item};
use crate::tree::{Declaration, Heading, Statement};
use sqlite_items::Items;
use std::alloc::{AllocError, Global};
use sw_logic::{Symbol, SymbolKind};
use sw_meaning::{Protocol, Transition};
use sw_table::Table;
use sw_text::{Names, Place, Resolved, Rule, Violation, name_of};
use sw_trees::{Tree, Word, bytes_of};

/// The first rule that a declared name breaks.
fn new_name(names: &Names<'_>, word: Word) -> Option<Violation>
    ensures { IsFirst (name_faults (around names.now) word) result }
{
    if names.is_declared(bytes_of(names.text, &word.token)) {
        Some(Violation {
            rule: Rule::Twice,
            at: word.token.at,
        })
    } else {
        None
    }
}

/// The sort of this name.
fn sort_of(names: &Names<'_>, word: Word) -> Result<Resolved<u32>, AllocError>
    ensures { IfOk result (Finds (sort_faults (around names.now) word) (sort_of (around names.now) word)) }
{
    match names.sort_number(bytes_of(names.text, &word.token))? {
        Some(sort) => Ok(Resolved::Found(sort)),
        None => Ok(Resolved::Broken(Violation {
            rule: Rule::Unknown,
            at: word.token.at,
        })),
    }
}

/// The sorts of these names.
fn sorts_of(
    alloc: Global,
    names: &Names<'_>,
    words: &[Word],
) -> Result<Resolved<Items<u32>>, AllocError>
    ensures { IfOk result (Finds (sorts_faults (around names.now) words.now) (sorts_of (around names.now) words.now)) }
{
    let mut sorts = Items::new(alloc);
    for word in words {
        match sort_of(names, *word)? {
            Resolved::Found(sort) => sorts.push(sort)?,
            Resolved::Broken(violation) => return Ok(Resolved::Broken(violation)),
        }
    }
    Ok(Resolved::Found(sorts))
}

/// Whether one of the words, whose names the table has, is this name.
fn is_among(text: &[u8], words: &[Word], table: &Table, name: &[u8]) -> bool
    requires { table.now ≡ map (bytes_at text.now) words.now }
    ensures { result ≡ is_among text.now words.now name.now }
{
    table.has(name)
}

/// Whether the symbol of this number may not change.
fn is_fixed(names: &Names<'_>, symbol: u32) -> bool
    ensures { result ≡ fixed_at (around names.now) symbol }
{
    match names.signature.symbols.get(symbol as usize) {
        Some(symbol) => !symbol.mutable,
        None => false,
    }
}

/// The first rule that a name breaks which stands after `modifies` behind these words, whose names
/// the table has, and is that of this symbol, if of any.
fn modified_rule(
    names: &Names<'_>,
    before: &[Word],
    table: &Table,
    name: &[u8],
    symbol: Option<u32>,
) -> Option<Rule>
    requires { table.now ≡ map (bytes_at names.now.text.now) before.now }
    ensures { result ≡ first_rule (modified_tests (around names.now) before.now name.now symbol) }
{
    if is_among(names.text, before, table, name) {
        return Some(Rule::Twice);
    }
    match symbol {
        None => Some(Rule::Unknown),
        Some(symbol) => {
            if is_fixed(names, symbol) {
                Some(Rule::PostState)
            } else {
                None
            }
        }
    }
}

/// A number, or 0 where there is none.
fn number_or_0(number: Option<u32>) -> u32
    ensures { result ≡ number_or_0 number }
{
    match number {
        Some(number) => number,
        None => 0,
    }
}

/// The symbol of a name that stands after `modifies` behind these words, whose names the table has.
fn modified_one(
    names: &Names<'_>,
    before: &[Word],
    table: &Table,
    word: &Word,
) -> Result<Resolved<u32>, AllocError>
    requires { table.now ≡ map (bytes_at names.now.text.now) before.now }
    ensures { IfOk result (Finds (one_modified_faults (around names.now) before.now word.now) (symbol_of (around names.now) word.now)) }
{
    let name = bytes_of(names.text, &word.token);
    let symbol = names.symbol_number(name)?;
    match modified_rule(names, before, table, name, symbol) {
        Some(rule) => Ok(Resolved::Broken(Violation {
            rule,
            at: word.token.at,
        })),
        None => Ok(Resolved::Found(number_or_0(symbol))),
    }
}

/// The symbols of the names after `modifies`.
fn modified(
    alloc: Global,
    names: &Names<'_>,
    words: &[Word],
) -> Result<Resolved<Items<u32>>, AllocError>
    ensures { IfOk result (Finds (modified_faults (around names.now) [] words.now) (symbols_of (around names.now) words.now)) }
{
    let mut symbols = Items::new(alloc);
    let mut table = Table::new(alloc);
    for (i, word) in words.iter().enumerate() {
        match modified_one(names, &words[..i], &table, word)? {
            Resolved::Found(symbol) => symbols.push(symbol)?,
            Resolved::Broken(violation) => return Ok(Resolved::Broken(violation)),
        }
        let name = name_of(alloc, bytes_of(names.text, &word.token))?;
        table.push(alloc, name)?;
    }
    Ok(Resolved::Found(symbols))
}

/// The place of a formula of this kind.
fn place_of(kind: Statement) -> Place
    ensures { result ≡ place_of kind }
{
    match kind {
        Statement::Axiom => Place::Axiom,
        Statement::Init | Statement::Safety => Place::OneState,
    }
}

/// A sort of this name.
fn sort(alloc: Global, names: &Names<'_>, name: Word) -> Result<Resolved<Item>, AllocError>
    ensures { let a = around names.now in IfOk result (Finds (name_faults a name) (item.Sort (bytes_at a.text name))) }
{
    if let Some(violation) = new_name(names, name) {
        return Ok(Resolved::Broken(violation));
    }
    let name = name_of(alloc, bytes_of(names.text, &name.token))?;
    Ok(Resolved::Found(Item::Sort(name)))
}

/// A relation of this name, with arguments of these sorts.
fn relation(
    alloc: Global,
    names: &Names<'_>,
    mutable: bool,
    name: Word,
    sorts: &[Word],
) -> Result<Resolved<Item>, AllocError>
    ensures { let a = around names.now in IfOk result (Finds (name_faults a name ++ sorts_faults a sorts.now) (item.Symbol (relation_of a mutable name sorts.now))) }
{
    if let Some(violation) = new_name(names, name) {
        return Ok(Resolved::Broken(violation));
    }
    let args = match sorts_of(alloc, names, sorts)? {
        Resolved::Found(args) => args,
        Resolved::Broken(violation) => return Ok(Resolved::Broken(violation)),
    };
    Ok(Resolved::Found(Item::Symbol(Symbol {
        name: name_of(alloc, bytes_of(names.text, &name.token))?,
        kind: SymbolKind::Relation,
        args,
        gives: 0,
        mutable,
    })))
}

/// A constant of this name and sort.
fn constant(
    alloc: Global,
    names: &Names<'_>,
    mutable: bool,
    name: Word,
    sort: Word,
) -> Result<Resolved<Item>, AllocError>
    ensures { let a = around names.now in IfOk result (Finds (name_faults a name ++ sort_faults a sort) (item.Symbol (constant_of a mutable name sort))) }
{
    if let Some(violation) = new_name(names, name) {
        return Ok(Resolved::Broken(violation));
    }
    let gives = match sort_of(names, sort)? {
        Resolved::Found(gives) => gives,
        Resolved::Broken(violation) => return Ok(Resolved::Broken(violation)),
    };
    Ok(Resolved::Found(Item::Symbol(Symbol {
        name: name_of(alloc, bytes_of(names.text, &name.token))?,
        kind: SymbolKind::Constant,
        args: Items::new(alloc),
        gives,
        mutable,
    })))
}

/// A function of this name, with arguments of these sorts and values of this one.
fn function(
    alloc: Global,
    names: &Names<'_>,
    name: Word,
    sorts: &[Word],
    sort: Word,
) -> Result<Resolved<Item>, AllocError>
    ensures { let a = around names.now in IfOk result (Finds (name_faults a name ++ (sorts_faults a sorts.now ++ sort_faults a sort)) (item.Symbol (function_of a name sorts.now sort))) }
{
    if let Some(violation) = new_name(names, name) {
        return Ok(Resolved::Broken(violation));
    }
    let args = match sorts_of(alloc, names, sorts)? {
        Resolved::Found(args) => args,
        Resolved::Broken(violation) => return Ok(Resolved::Broken(violation)),
    };
    let gives = match sort_of(names, sort)? {
        Resolved::Found(gives) => gives,
        Resolved::Broken(violation) => return Ok(Resolved::Broken(violation)),
    };
    Ok(Resolved::Found(Item::Symbol(Symbol {
        name: name_of(alloc, bytes_of(names.text, &name.token))?,
        kind: SymbolKind::Function,
        args,
        gives,
        mutable: false,
    })))
}

impl Draft {
    /// A formula of this kind.
    fn stated(
        &self,
        alloc: Global,
        text: &[u8],
        kind: Statement,
        tree: &Tree,
    ) -> Result<Resolved<Item>, AllocError>
        requires { HasTables self.now }
        ensures { let a = standing (place_of kind) (reading text.now self.now place.OneState) in IfOk result (Finds (faults a tree.now []) (item.Formula kind (formula_read a tree.now []))) }
    {
        let place = place_of(kind);
        let mut scope = Vec::new(alloc);
        match self.names(text, &place).formula(alloc, &mut scope, tree)? {
            Resolved::Found(formula) => Ok(Resolved::Found(Item::Formula(kind, formula))),
            Resolved::Broken(violation) => Ok(Resolved::Broken(violation)),
        }
    }

    /// A transition, whose own name is declared.
    fn named_transition(
        &self,
        alloc: Global,
        text: &[u8],
        heading: &Heading,
        tree: &Tree,
    ) -> Result<Resolved<Item>, AllocError>
        requires { HasTables self.now }
        ensures { let a = reading text.now self.now place.OneState in IfOk result (Finds (named_faults a heading.now tree.now) (item.Transition (named_transition a heading.now tree.now))) }
    {
        let place = Place::OneState;
        let names = self.names(text, &place);
        let mut params = Vec::new(alloc);
        if let Some(violation) = names.bind_all(alloc, &mut params, heading.params.as_slice())? {
            return Ok(Resolved::Broken(violation));
        }
        let modifies = match modified(alloc, &names, heading.modifies.as_slice())? {
            Resolved::Found(modifies) => modifies,
            Resolved::Broken(violation) => return Ok(Resolved::Broken(violation)),
        };
        let place = Place::Step(Items::from_slice(alloc, modifies.as_slice())?);
        let formula = match self.names(text, &place).formula(alloc, &mut params, tree)? {
            Resolved::Found(formula) => formula,
            Resolved::Broken(violation) => return Ok(Resolved::Broken(violation)),
        };
        Ok(Resolved::Found(Item::Transition(Transition {
            name: name_of(alloc, bytes_of(text, &heading.name.token))?,
            params: Items::from_vec(params),
            modifies,
            formula,
        })))
    }
}

impl Draft {
    /// A transition: its own name is declared before its parameters.
    fn transition(
        &mut self,
        alloc: Global,
        text: &[u8],
        heading: &Heading,
        tree: &Tree,
    ) -> Result<Resolved<Item>, AllocError>
        requires { HasTables self.old }
        ensures { let a = reading text.now self.old place.OneState in IfOk result (FindsKept (name_faults a heading.now.name ++ named_faults (with_own_name a heading.now) heading.now tree.now) (item.Transition (named_transition (with_own_name a heading.now) heading.now tree.now)) self.old self.new) }
    {
        let name = heading.name;
        let place = Place::OneState;
        if let Some(violation) = new_name(&self.names(text, &place), name) {
            return Ok(Resolved::Broken(violation));
        }
        let own = name_of(alloc, bytes_of(text, &name.token))?;
        self.transitions.push(alloc, own)?;
        let found = self.named_transition(alloc, text, heading, tree)?;
        self.transitions.pop();
        Ok(found)
    }

    /// What a declaration adds, or the first rule that it breaks.
    pub fn item(
        &mut self,
        alloc: Global,
        text: &[u8],
        declaration: &Declaration,
    ) -> Result<Resolved<Item>, AllocError>
        requires { HasTables self.old }
        ensures { let a = reading text.now self.old place.OneState in IfOk result (FindsKept (declaration_faults a declaration.now) (item_of a declaration.now) self.old self.new) }
    {
        let place = Place::OneState;
        let names = self.names(text, &place);
        match declaration {
            Declaration::Sort(name) => sort(alloc, &names, *name),
            Declaration::Relation(mutable, name, sorts) => {
                relation(alloc, &names, *mutable, *name, sorts.as_slice())
            }
            Declaration::Constant(mutable, name, sort) => {
                constant(alloc, &names, *mutable, *name, *sort)
            }
            Declaration::Function(name, sorts, sort) => {
                function(alloc, &names, *name, sorts.as_slice(), *sort)
            }
            Declaration::Stated(kind, tree) => self.stated(alloc, text, *kind, tree),
            Declaration::Transition(heading, tree) => self.transition(alloc, text, heading, tree),
        }
    }
}

/// The protocol of the declarations, or the first rule that one breaks.
pub fn declare(
    alloc: Global,
    text: &[u8],
    declarations: &[Declaration],
) -> Result<Resolved<Protocol>, AllocError>
    ensures { IfOk result (Finds (all_faults text.now empty_protocol declarations.now) (all_declared text.now empty_protocol declarations.now)) }
{
    let mut draft = Draft::new(alloc);
    for declaration in declarations {
        match draft.item(alloc, text, declaration)? {
            Resolved::Found(item) => draft.add(alloc, item)?,
            Resolved::Broken(violation) => return Ok(Resolved::Broken(violation)),
        }
    }
    Ok(Resolved::Found(draft.protocol))
}
