//! What the Skolem form of a query is put together from.
ghost use Rattle.std.specs.Prelude.{◌≡◌, ◌++◌, [], ◌∷◌, ◌&&◌, ◌==◌, IfOk, map, true, length};
ghost use Rattle.std.specs.List.{list_any, flat_map};
ghost use Rattle.sw_logic.specs.declared.syntax.Formula.{Formula};
ghost use Rattle.sw_logic.specs.declared.syntax.Symbol.{Symbol};
ghost use Rattle.sw_logic.specs.Sorted.{gives_value};
ghost use Rattle.sw_skolem.specs.Normal.{nnf_of};
ghost use Rattle.sw_skolem.specs.Pieces.{pieces_of};
ghost use Rattle.sw_skolem.specs.Skolem.{forms, part_of, fresh_constant, fresh_constants};
ghost use Rattle.sw_truth.specs.Models.{is_bare};

use crate::absorbing::absorb;
use crate::normal::nnf;
use sqlite_items::Items;
use std::alloc::{AllocError, Global};
use sw_logic::{Formula, Name, Symbol, SymbolKind};

fn copy_name(alloc: Global, name: &Name) -> Result<Name, AllocError>
    ensures { IfOk result (λ n. n ≡ name.now) }
{
    Ok(Name::new(String::from_str(alloc, name.as_str())?))
}

pub fn copy_names(alloc: Global, names: &[Name]) -> Result<Items<Name>, AllocError>
    ensures { IfOk result (λ ns. ns ≡ names.now) }
{
    let mut copies = Items::new(alloc);
    for name in names {
        copies.push(copy_name(alloc, name)?)?;
    }
    Ok(copies)
}

pub fn copy_symbols(alloc: Global, symbols: &[Symbol]) -> Result<Items<Symbol>, AllocError>
    ensures { IfOk result (λ ss. ss ≡ symbols.now) }
{
    let mut copies = Items::new(alloc);
    for symbol in symbols {
        copies.push(Symbol {
            name: copy_name(alloc, &symbol.name)?,
            kind: symbol.kind,
            args: Items::from_slice(alloc, symbol.args.as_slice())?,
            gives: symbol.gives,
            mutable: symbol.mutable,
        })?;
    }
    Ok(copies)
}

/// The negation normal form of a sentence, with `true` and `false` absorbed.
fn normal_form(alloc: Global, sentence: &Formula) -> Result<Formula, AllocError>
    ensures { IfOk result (λ f. f ≡ nnf_of sentence.now true) }
{
    let plain = nnf(alloc, sentence, false)?;
    absorb(alloc, &plain)
}

pub fn normal_forms(alloc: Global, sentences: &[Formula]) -> Result<Items<Formula>, AllocError>
    ensures { IfOk result (λ fs. fs ≡ map (λ f. nnf_of f true) sentences.now) }
{
    let mut forms = Items::new(alloc);
    for sentence in sentences {
        forms.push(normal_form(alloc, sentence)?)?;
    }
    Ok(forms)
}

fn is_value_of(symbol: &Symbol, sort: u32) -> bool
    ensures { result ≡ (gives_value symbol.now.kind && (symbol.now.gives == sort)) }
{
    !matches!(symbol.kind, SymbolKind::Relation) && symbol.gives == sort
}

/// Whether no symbol gives a value of the sort.
pub fn is_bare(symbols: &[Symbol], sort: u32) -> bool
    ensures { result ≡ is_bare symbols.now sort }
{
    for symbol in symbols {
        if is_value_of(symbol, sort) {
            return false;
        }
    }
    true
}

pub fn fresh_constant(alloc: Global, sort: u32) -> Result<Symbol, AllocError>
    ensures { IfOk result (λ s. s ≡ fresh_constant sort) }
{
    Ok(Symbol {
        name: Name::new(String::from_str(alloc, "")?),
        kind: SymbolKind::Constant,
        args: Items::new(alloc),
        gives: sort,
        mutable: false,
    })
}

/// A constant for each sort of which there is no other ground term.
pub fn fresh_constants(
    alloc: Global,
    sorts: u32,
    symbols: &[Symbol],
) -> Result<Items<Symbol>, AllocError>
    ensures { IfOk result (λ ss. ss ≡ fresh_constants sorts symbols.now) }
{
    let mut fresh = Items::new(alloc);
    for sort in 0..sorts {
        if is_bare(symbols, sort) {
            fresh.push(fresh_constant(alloc, sort)?)?;
        }
    }
    Ok(fresh)
}
