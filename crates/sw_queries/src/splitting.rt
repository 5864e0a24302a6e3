//! A step out of a structure of its query.
ghost use Rattle.std.specs.Prelude.{◌≡◌, ◌<◌, length, IfOk, Some, slice_get, map, take, min};
ghost use Rattle.std.specs.List.{range_with_len};
ghost use Rattle.sw_logic.specs.Truth.{value_in};
ghost use Rattle.sw_renaming.specs.Renamed.{copy_of, constant_of};
ghost use Rattle.sw_queries.specs.Counterexamples.{table_in, pair_in, arguments_in};

use sqlite_items::Items;
use std::alloc::{AllocError, Global};
use sw_logic::{Pair, Structure, Table};
use sw_meaning::{Protocol, Transition};
use sw_renaming::Renaming;
use sw_renaming::renaming::number;

fn copy_table(alloc: Global, table: &Table) -> Result<Table, AllocError>
    ensures { IfOk result (λ t. t ≡ table.now) }
{
    match table {
        Table::Bits(bits) => Ok(Table::Bits(Items::from_slice(alloc, bits.as_slice())?)),
        Table::Value(value) => Ok(Table::Value(*value)),
        Table::Values(values) => Ok(Table::Values(Items::from_slice(alloc, values.as_slice())?)),
    }
}

fn table_in(alloc: Global, structure: &Structure, number: u32) -> Result<Table, AllocError>
    ensures { IfOk result (λ t. t ≡ table_in structure.now number) }
{
    match structure.tables.get(number as usize) {
        Some(table) => copy_table(alloc, table),
        None => Ok(Table::Value(0)),
    }
}

fn first_tables(alloc: Global, tables: &[Table], count: usize) -> Result<Items<Table>, AllocError>
    ensures { IfOk result (λ ts. ts ≡ take count tables.now) }
{
    let first = if count < tables.len() {
        &tables[..count]
    } else {
        tables
    };
    let mut copies = Items::new(alloc);
    for table in first {
        copies.push(copy_table(alloc, table)?)?;
    }
    Ok(copies)
}

/// The tables of the state after the step.
fn tables_after(
    alloc: Global,
    renaming: &Renaming,
    structure: &Structure,
) -> Result<Items<Table>, AllocError>
    ensures { IfOk result (λ ts. ts ≡ map (λ n. table_in structure.now (copy_of renaming.now.protocol.now renaming.now.transition.now n)) (range_with_len 0 (length renaming.now.protocol.now.signature.symbols))) }
{
    let mut tables = Items::new(alloc);
    for symbol in 0..renaming.protocol.signature.symbols.len() {
        let symbol = number(symbol, 0)?;
        let copy = renaming.copy_of(symbol)?;
        tables.push(table_in(alloc, structure, copy)?)?;
    }
    Ok(tables)
}

/// The values of the parameters.
fn arguments(
    alloc: Global,
    renaming: &Renaming,
    structure: &Structure,
) -> Result<Items<u32>, AllocError>
    ensures { IfOk result (λ vs. vs ≡ map (λ n. value_in (slice_get structure.now.tables (constant_of renaming.now.protocol.now renaming.now.transition.now n)) 0) (range_with_len 0 (length renaming.now.transition.now.params))) }
{
    let mut values = Items::new(alloc);
    for param in 0..renaming.transition.params.len() {
        let constant = renaming.constant_of(param)?;
        values.push(constant_value(structure, constant))?;
    }
    Ok(values)
}

fn constant_value(structure: &Structure, number: u32) -> u32
    ensures { result ≡ value_in (slice_get structure.now.tables number) 0 }
{
    match structure.tables.get(number as usize) {
        Some(Table::Value(value)) => *value,
        Some(Table::Values(values)) => values.get(0).copied().unwrap_or(0),
        _ => 0,
    }
}

fn split(
    alloc: Global,
    protocol: &Protocol,
    transition: &Transition,
    structure: &Structure,
) -> Result<(Pair, Items<u32>), AllocError>
    ensures pair { IfOk result (λ r. r.0 ≡ pair_in protocol.now transition.now structure.now) }
    ensures arguments { IfOk result (λ r. r.1 ≡ arguments_in protocol.now transition.now structure.now) }
{
    let renaming = Renaming {
        protocol,
        transition,
    };
    let symbols = protocol.signature.symbols.len();
    let before = Structure {
        sizes: Items::from_slice(alloc, structure.sizes.as_slice())?,
        tables: first_tables(alloc, structure.tables.as_slice(), symbols)?,
    };
    let after = Structure {
        sizes: Items::from_slice(alloc, structure.sizes.as_slice())?,
        tables: tables_after(alloc, &renaming, structure)?,
    };
    let arguments = arguments(alloc, &renaming, structure)?;
    Ok((Pair { before, after }, arguments))
}

/// The pair and the arguments that a structure of a step or join query has.
pub fn split_step(
    alloc: Global,
    protocol: &Protocol,
    transition: u32,
    structure: &Structure,
) -> Result<(Pair, Items<u32>), AllocError>
    requires { transition < length protocol.now.transitions }
    ensures pair { IfOk result (λ r. (t : Transition) → slice_get protocol.now.transitions transition ≡ Some t → r.0 ≡ pair_in protocol.now t structure.now) }
    ensures arguments { IfOk result (λ r. (t : Transition) → slice_get protocol.now.transitions transition ≡ Some t → r.1 ≡ arguments_in protocol.now t structure.now) }
{
    let chosen = &protocol.transitions.as_slice()[transition as usize];
    split(alloc, protocol, chosen, structure)
}
