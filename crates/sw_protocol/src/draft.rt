//! A protocol while it is read: what each declaration adds to it.
ghost use Rattle.std.specs.Prelude.{◌≡◌, OnOk};
ghost use Rattle.sw_protocol.specs.declared.tree.Statement.TheVariants as statement;
ghost use Rattle.sw_text.specs.Resolving.{around};
ghost use Rattle.sw_protocol.specs.Declaring.{empty_protocol, with_sort, with_symbol, with_statement, with_transition, with_item};
ghost use Rattle.sw_protocol.specs.Drafts.{Knows, HasTables, reading};

use crate::tree::Statement;
use sqlite_items::Items;
use std::alloc::{AllocError, Global};
use sw_logic::{Formula, Name, Signature, Symbol, copy_name};
use sw_meaning::{Decl, Protocol, Transition};
use sw_table::Table;
use sw_text::{Names, Place, Tables, number_of};

/// What one declaration adds.
#[derive(Drop)]
pub enum Item {
    Sort(Name),
    Symbol(Symbol),
    Formula(Statement, Formula),
    Transition(Transition),
}

/// What is declared so far, and once more the names by which it is looked up.
#[derive(Drop)]
pub struct Draft {
    pub protocol: Protocol,
    pub tables: Tables,
    pub transitions: Table,
}

fn add_sort(protocol: &mut Protocol, name: Name) -> Result<(), AllocError>
    ensures { OnOk result (protocol.new ≡ with_sort protocol.old name) }
{
    let count = number_of(protocol.signature.sorts.len())?;
    protocol.signature.sorts.push(name)?;
    protocol.order.push(Decl::Sort(count))
}

fn add_symbol(protocol: &mut Protocol, symbol: Symbol) -> Result<(), AllocError>
    ensures { OnOk result (protocol.new ≡ with_symbol protocol.old symbol) }
{
    let count = number_of(protocol.signature.symbols.len())?;
    protocol.signature.symbols.push(symbol)?;
    protocol.order.push(Decl::Symbol(count))
}

fn add_axiom(protocol: &mut Protocol, formula: Formula) -> Result<(), AllocError>
    ensures { OnOk result (protocol.new ≡ with_statement protocol.old statement.Axiom formula) }
{
    let count = number_of(protocol.axioms.len())?;
    protocol.axioms.push(formula)?;
    protocol.order.push(Decl::Axiom(count))
}

fn add_init(protocol: &mut Protocol, formula: Formula) -> Result<(), AllocError>
    ensures { OnOk result (protocol.new ≡ with_statement protocol.old statement.Init formula) }
{
    let count = number_of(protocol.inits.len())?;
    protocol.inits.push(formula)?;
    protocol.order.push(Decl::Init(count))
}

fn add_safety(protocol: &mut Protocol, formula: Formula) -> Result<(), AllocError>
    ensures { OnOk result (protocol.new ≡ with_statement protocol.old statement.Safety formula) }
{
    let count = number_of(protocol.safeties.len())?;
    protocol.safeties.push(formula)?;
    protocol.order.push(Decl::Safety(count))
}

fn add_formula(protocol: &mut Protocol, kind: Statement, formula: Formula) -> Result<(), AllocError>
    ensures { OnOk result (protocol.new ≡ with_statement protocol.old kind formula) }
{
    match kind {
        Statement::Axiom => add_axiom(protocol, formula),
        Statement::Init => add_init(protocol, formula),
        Statement::Safety => add_safety(protocol, formula),
    }
}

fn add_transition(protocol: &mut Protocol, transition: Transition) -> Result<(), AllocError>
    ensures { OnOk result (protocol.new ≡ with_transition protocol.old transition) }
{
    let count = number_of(protocol.transitions.len())?;
    protocol.transitions.push(transition)?;
    protocol.order.push(Decl::Transition(count))
}

impl Draft {
    pub fn new(alloc: Global) -> Draft
        ensures protocol { result.protocol ≡ empty_protocol }
        ensures knows { Knows result }
        ensures tables { HasTables result }
    {
        Draft {
            protocol: Protocol {
                signature: Signature {
                    sorts: Items::new(alloc),
                    symbols: Items::new(alloc),
                },
                axioms: Items::new(alloc),
                inits: Items::new(alloc),
                transitions: Items::new(alloc),
                safeties: Items::new(alloc),
                order: Items::new(alloc),
            },
            tables: Tables {
                sorts: Table::new(alloc),
                symbols: Table::new(alloc),
            },
            transitions: Table::new(alloc),
        }
    }

    /// By what the names of a text are read that stand behind what is declared so far.
    pub fn names<'a>(&'a self, text: &'a [u8], place: &'a Place) -> Names<'a>
        requires { HasTables self.now }
        ensures { around result ≡ reading text.now self.now place.now }
    {
        Names {
            text,
            signature: &self.protocol.signature,
            tables: &self.tables,
            declared_too: &self.transitions,
            place,
        }
    }

    /// Declares one thing more.
    pub fn add(&mut self, alloc: Global, item: Item) -> Result<(), AllocError>
        requires knows { Knows self.old }
        requires tables { HasTables self.old }
        ensures protocol { OnOk result (self.new.protocol ≡ with_item self.old.protocol item) }
        ensures knows { OnOk result (Knows self.new) }
        ensures tables { OnOk result (HasTables self.new) }
    {
        match item {
            Item::Sort(name) => {
                self.tables.sorts.push(alloc, copy_name(alloc, &name)?)?;
                add_sort(&mut self.protocol, name)
            }
            Item::Symbol(symbol) => {
                let name = copy_name(alloc, &symbol.name)?;
                self.tables.symbols.push(alloc, name)?;
                add_symbol(&mut self.protocol, symbol)
            }
            Item::Formula(kind, formula) => add_formula(&mut self.protocol, kind, formula),
            Item::Transition(transition) => {
                let name = copy_name(alloc, &transition.name)?;
                self.transitions.push(alloc, name)?;
                add_transition(&mut self.protocol, transition)
            }
        }
    }
}
