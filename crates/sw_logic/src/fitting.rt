//! Which structures are of a signature, and which pairs.
ghost use Rattle.std.specs.Prelude.{◌≡◌, ◌↔◌, ◌-◌, ◌^◌, IsTrue, false, min, nat_lt};
ghost use Rattle.std.specs.List.{list_all};
ghost use Rattle.sw_logic.specs.Truth.{size_of};
ghost use Rattle.sw_logic.specs.Fits.{tuple_count, table_fits, tables_fit, fits, AgreeOn, FitsPair};

use crate::structure::{Pair, Structure, Table};
use crate::syntax::{Signature, Symbol, SymbolKind};

/// The size of a sort, and 0 where there is none.
pub fn size_at(sizes: &[u32], sort: u32) -> u32
    ensures { result ≡ size_of sizes.now sort }
{
    match sizes.get(sort as usize) {
        Some(size) => *size,
        None => 0,
    }
}

/// How many tuples of these sorts there are, no further than the largest number.
pub fn count_tuples(sizes: &[u32], sorts: &[u32]) -> u128
    ensures { result ≡ min (2 ^ 128 - 1) (tuple_count sizes.now sorts.now) }
{
    let mut count: u128 = 1;
    for sort in sorts {
        count = count.saturating_mul(size_at(sizes, *sort) as u128);
    }
    count
}

fn are_below(values: &[u32], size: u32) -> bool
    ensures { result ≡ list_all (λ v. nat_lt v size) values.now }
{
    values.iter().all(|value| *value < size)
}

fn table_is_of(sizes: &[u32], symbol: &Symbol, table: &Table) -> bool
    ensures { result ≡ table_fits sizes.now symbol.now.args symbol.now.gives symbol.now.kind table.now }
{
    match (symbol.kind, table) {
        (SymbolKind::Relation, Table::Bits(bits)) => {
            bits.len() as u128 == count_tuples(sizes, symbol.args.as_slice())
        }
        (SymbolKind::Constant, Table::Value(value)) => *value < size_at(sizes, symbol.gives),
        (SymbolKind::Function, Table::Values(values)) => {
            values.len() as u128 == count_tuples(sizes, symbol.args.as_slice())
                && are_below(values.as_slice(), size_at(sizes, symbol.gives))
        }
        _ => false,
    }
}

fn tables_are_of(sizes: &[u32], symbols: &[Symbol], tables: &[Table]) -> bool
    ensures { result ≡ tables_fit sizes.now symbols.now tables.now }
{
    for (i, symbol) in symbols.iter().enumerate() {
        let Some(table) = tables.get(i) else {
            return false;
        };
        if !table_is_of(sizes, symbol, table) {
            return false;
        }
    }
    symbols.len() == tables.len()
}

fn are_positive(sizes: &[u32]) -> bool
    ensures { result ≡ list_all (λ n. nat_lt 0 n) sizes.now }
{
    sizes.iter().all(|size| 0 < *size)
}

/// Whether a structure is of the signature: one size for each sort, at least 1; one table for each
/// symbol, of its kind and length; each value below its sort's size.
pub fn fits(sig: &Signature, structure: &Structure) -> bool
    ensures { result ≡ fits sig.now structure.now }
{
    structure.sizes.len() == sig.sorts.len()
        && are_positive(structure.sizes.as_slice())
        && tables_are_of(
            structure.sizes.as_slice(),
            sig.symbols.as_slice(),
            structure.tables.as_slice(),
        )
}

fn are_same(table: &Table, other: &Table) -> bool
    ensures { IsTrue result ↔ (table.now ≡ other.now) }
{
    match (table, other) {
        (Table::Bits(bits), Table::Bits(others)) => bits.as_slice() == others.as_slice(),
        (Table::Value(value), Table::Value(other)) => value == other,
        (Table::Values(values), Table::Values(others)) => values.as_slice() == others.as_slice(),
        _ => false,
    }
}

fn tables_agree(symbols: &[Symbol], before: &[Table], after: &[Table]) -> bool
    ensures { IsTrue result ↔ AgreeOn symbols.now before.now after.now }
{
    for (i, symbol) in symbols.iter().enumerate() {
        let (Some(first), Some(second)) = (before.get(i), after.get(i)) else {
            return false;
        };
        if !symbol.mutable && !are_same(first, second) {
            return false;
        }
    }
    true
}

/// Whether both structures are of the signature, with the same sizes, and with the same tables for
/// the symbols that may not change.
pub fn fits_pair(sig: &Signature, pair: &Pair) -> bool
    ensures { IsTrue result ↔ FitsPair sig.now pair.now }
{
    fits(sig, &pair.before)
        && fits(sig, &pair.after)
        && pair.before.sizes.as_slice() == pair.after.sizes.as_slice()
        && tables_agree(
            sig.symbols.as_slice(),
            pair.before.tables.as_slice(),
            pair.after.tables.as_slice(),
        )
}
