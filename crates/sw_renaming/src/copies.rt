//! Copies of a signature's parts.
ghost use Rattle.std.specs.Prelude.{◌≡◌, ◌++◌, [], map, slice_get, IfOk};
ghost use Rattle.sw_renaming.specs.Symbols.{copies_of, constant_for, with_symbol};

use sqlite_items::Items;
use std::alloc::{AllocError, Global};
use sw_logic::{Binder, Formula, Name, Signature, Symbol, SymbolKind, copy_formula, copy_name};

fn copy_symbol(alloc: Global, symbol: &Symbol) -> Result<Symbol, AllocError>
    ensures { IfOk result (λ s. s ≡ symbol.now) }
{
    Ok(Symbol {
        name: copy_name(alloc, &symbol.name)?,
        kind: symbol.kind,
        args: Items::from_slice(alloc, symbol.args.as_slice())?,
        gives: symbol.gives,
        mutable: symbol.mutable,
    })
}

/// Symbols equal to those that are passed.
pub fn copy_symbols(alloc: Global, symbols: &[Symbol]) -> Result<Items<Symbol>, AllocError>
    ensures { IfOk result (λ ss. ss ≡ symbols.now) }
{
    let mut copies = Items::new(alloc);
    for symbol in symbols {
        copies.push(copy_symbol(alloc, symbol)?)?;
    }
    Ok(copies)
}

/// Names of sorts equal to those that are passed.
pub fn copy_sorts(alloc: Global, sorts: &[Name]) -> Result<Items<Name>, AllocError>
    ensures { IfOk result (λ ns. ns ≡ sorts.now) }
{
    let mut copies = Items::new(alloc);
    for sort in sorts {
        copies.push(copy_name(alloc, sort)?)?;
    }
    Ok(copies)
}

/// A signature equal to the one that is passed.
pub fn copy_signature(alloc: Global, sig: &Signature) -> Result<Signature, AllocError>
    ensures { IfOk result (λ s. s ≡ sig.now) }
{
    Ok(Signature {
        sorts: copy_sorts(alloc, sig.sorts.as_slice())?,
        symbols: copy_symbols(alloc, sig.symbols.as_slice())?,
    })
}

/// Adds copies of the formulas at the end.
pub fn push_formulas(
    alloc: Global,
    all: &mut Items<Formula>,
    formulas: &[Formula],
) -> Result<(), AllocError>
    ensures { IfOk result (λ _. all.new ≡ all.old ++ formulas.now) }
{
    for formula in formulas {
        all.push(copy_formula(alloc, formula)?)?;
    }
    Ok(())
}

/// Adds a copy of the symbol of this number, if there is one.
fn push_symbol(
    alloc: Global,
    copies: &mut Items<Symbol>,
    symbols: &Items<Symbol>,
    number: u32,
) -> Result<(), AllocError>
    ensures { IfOk result (λ _. copies.new ≡ copies.old ++ with_symbol (slice_get symbols.now number) []) }
{
    if let Some(symbol) = symbols.get(number as usize) {
        copies.push(copy_symbol(alloc, symbol)?)?;
    }
    Ok(())
}

/// Copies of the symbols of these numbers.
pub fn symbols_of(
    alloc: Global,
    symbols: &Items<Symbol>,
    listed: &[u32],
) -> Result<Items<Symbol>, AllocError>
    ensures { IfOk result (λ ss. ss ≡ copies_of symbols.now listed.now) }
{
    let mut copies = Items::new(alloc);
    for number in listed {
        push_symbol(alloc, &mut copies, symbols, *number)?;
    }
    Ok(copies)
}

/// A constant for each parameter.
pub fn constants_for(alloc: Global, params: &[Binder]) -> Result<Items<Symbol>, AllocError>
    ensures { IfOk result (λ ss. ss ≡ map constant_for params.now) }
{
    let mut constants = Items::new(alloc);
    for param in params {
        constants.push(Symbol {
            name: copy_name(alloc, &param.name)?,
            kind: SymbolKind::Constant,
            args: Items::new(alloc),
            gives: param.sort,
            mutable: false,
        })?;
    }
    Ok(constants)
}
