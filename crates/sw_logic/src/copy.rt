//! Copies of formulas and structures.
ghost use Rattle.std.specs.Prelude.{◌≡◌, IfOk};

use crate::structure::{Structure, Table};
use crate::syntax::{Binder, Formula, Name, Term};
use sqlite_items::{Boxed, Items};
use std::alloc::{AllocError, Global};

/// A name equal to the one that is passed.
pub fn copy_name(alloc: Global, name: &Name) -> Result<Name, AllocError>
    ensures { IfOk result (λ n. n ≡ name.now) }
{
    Ok(Name::new(String::from_str(alloc, name.as_str())?))
}

/// Binders equal to those that are passed.
pub fn copy_binders(alloc: Global, binders: &[Binder]) -> Result<Items<Binder>, AllocError>
    ensures { IfOk result (λ bs. bs ≡ binders.now) }
{
    let mut copies = Items::new(alloc);
    for binder in binders {
        copies.push(Binder {
            name: copy_name(alloc, &binder.name)?,
            sort: binder.sort,
        })?;
    }
    Ok(copies)
}

/// A term equal to the one that is passed.
#[cycle(terms)]
pub fn copy_term(alloc: Global, term: &Term) -> Result<Term, AllocError>
    ensures { IfOk result (λ t. t ≡ term.now) }
{
    match term {
        Term::Variable(place) => Ok(Term::Variable(*place)),
        Term::Apply { symbol, post, args } => Ok(Term::Apply {
            symbol: *symbol,
            post: *post,
            args: copy_terms(alloc, args.as_slice())?,
        }),
    }
}

/// Terms equal to those that are passed.
#[cycle(terms)]
pub fn copy_terms(alloc: Global, terms: &[Term]) -> Result<Items<Term>, AllocError>
    ensures { IfOk result (λ ts. ts ≡ terms.now) }
{
    let mut copies = Items::new(alloc);
    for term in terms {
        copies.push(copy_term(alloc, term)?)?;
    }
    Ok(copies)
}

/// A formula equal to the one that is passed.
#[cycle(formulas)]
pub fn copy_formula(alloc: Global, formula: &Formula) -> Result<Formula, AllocError>
    ensures { IfOk result (λ f. f ≡ formula.now) }
{
    match formula {
        Formula::True => Ok(Formula::True),
        Formula::False => Ok(Formula::False),
        Formula::Holds { symbol, post, args } => Ok(Formula::Holds {
            symbol: *symbol,
            post: *post,
            args: copy_terms(alloc, args.as_slice())?,
        }),
        Formula::Equal(a, b) => Ok(Formula::Equal(copy_term(alloc, a)?, copy_term(alloc, b)?)),
        Formula::Not(part) => Ok(Formula::Not(copy_boxed(alloc, part)?)),
        Formula::All(parts) => Ok(Formula::All(copy_formulas(alloc, parts.as_slice())?)),
        Formula::Any(parts) => Ok(Formula::Any(copy_formulas(alloc, parts.as_slice())?)),
        Formula::Implies(a, b) => {
            Ok(Formula::Implies(copy_boxed(alloc, a)?, copy_boxed(alloc, b)?))
        }
        Formula::Iff(a, b) => Ok(Formula::Iff(copy_boxed(alloc, a)?, copy_boxed(alloc, b)?)),
        Formula::ForAll(binders, part) => Ok(Formula::ForAll(
            copy_binders(alloc, binders.as_slice())?,
            copy_boxed(alloc, part)?,
        )),
        Formula::Exists(binders, part) => Ok(Formula::Exists(
            copy_binders(alloc, binders.as_slice())?,
            copy_boxed(alloc, part)?,
        )),
    }
}

#[cycle(formulas)]
fn copy_boxed(alloc: Global, part: &Boxed<Formula>) -> Result<Boxed<Formula>, AllocError>
    ensures { IfOk result (λ f. f ≡ part.now) }
{
    Boxed::new(alloc, copy_formula(alloc, part.get())?)
}

#[cycle(formulas)]
fn copy_formulas(alloc: Global, parts: &[Formula]) -> Result<Items<Formula>, AllocError>
    ensures { IfOk result (λ fs. fs ≡ parts.now) }
{
    let mut copies = Items::new(alloc);
    for part in parts {
        copies.push(copy_formula(alloc, part)?)?;
    }
    Ok(copies)
}

fn copy_table(alloc: Global, table: &Table) -> Result<Table, AllocError>
    ensures { IfOk result (λ t. t ≡ table.now) }
{
    match table {
        Table::Bits(bits) => Ok(Table::Bits(Items::from_slice(alloc, bits.as_slice())?)),
        Table::Value(value) => Ok(Table::Value(*value)),
        Table::Values(values) => Ok(Table::Values(Items::from_slice(alloc, values.as_slice())?)),
    }
}

fn copy_tables(alloc: Global, tables: &[Table]) -> Result<Items<Table>, AllocError>
    ensures { IfOk result (λ ts. ts ≡ tables.now) }
{
    let mut copies = Items::new(alloc);
    for table in tables {
        copies.push(copy_table(alloc, table)?)?;
    }
    Ok(copies)
}

/// A structure equal to the one that is passed.
pub fn copy_structure(alloc: Global, structure: &Structure) -> Result<Structure, AllocError>
    ensures { IfOk result (λ s. s ≡ structure.now) }
{
    Ok(Structure {
        sizes: Items::from_slice(alloc, structure.sizes.as_slice())?,
        tables: copy_tables(alloc, structure.tables.as_slice())?,
    })
}
