//! The names of a signature, by look-up.
ghost use Rattle.std.specs.Prelude.{◌≡◌, IfOk, map};
ghost use Rattle.sw_logic.specs.declared.syntax.Symbol.{Symbol};
ghost use Rattle.sw_text.specs.Tables.{AreOf};

use std::alloc::{AllocError, Global};
use sw_logic::{Name, Signature, Symbol, copy_name};
use sw_table::Table;

/// The names of the sorts and those of the symbols, each with its number.
#[derive(Drop)]
pub struct Tables {
    pub sorts: Table,
    pub symbols: Table,
}

fn sorts_of(alloc: Global, sorts: &[Name]) -> Result<Table, AllocError>
    ensures { IfOk result (λ t. t ≡ sorts.now) }
{
    let mut table = Table::new(alloc);
    for sort in sorts {
        table.push(alloc, copy_name(alloc, sort)?)?;
    }
    Ok(table)
}

fn symbols_of(alloc: Global, symbols: &[Symbol]) -> Result<Table, AllocError>
    ensures { IfOk result (λ t. t ≡ map (λ (s : Symbol). s.name) symbols.now) }
{
    let mut table = Table::new(alloc);
    for symbol in symbols {
        table.push(alloc, copy_name(alloc, &symbol.name)?)?;
    }
    Ok(table)
}

impl Tables {
    /// The tables of the signature's names.
    pub fn of(alloc: Global, signature: &Signature) -> Result<Tables, AllocError>
        ensures { IfOk result (λ t. AreOf t signature.now) }
    {
        Ok(Tables {
            sorts: sorts_of(alloc, signature.sorts.as_slice())?,
            symbols: symbols_of(alloc, signature.symbols.as_slice())?,
        })
    }
}
