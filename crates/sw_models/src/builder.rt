//! Structures made entry by entry.
ghost use Rattle.std.specs.Prelude.{◌≡◌, ℕ, ◌+◌, ◌-◌, ◌^◌, ◌<◌, ◌==◌, ◌∷◌, length, map, min, true, false, Ok, Err, IfOk, OnOk, OnErr, MatchOption, MatchResult, slice_get, slice_set, vec_len, if◌then◌else◌};
ghost use Rattle.sw_logic.specs.Truth.{args_of, place_from};
ghost use Rattle.sw_logic.specs.Fits.{tuple_count, fits};
ghost use Rattle.sw_models.specs.declared.errors.BuildError.{BuildError};
ghost use Rattle.sw_logic.specs.Signatures.{is_signature};
ghost use Rattle.sw_models.specs.Building.{first_zero, blank_table, blank_tables, counts_fit, Starts, are_below, value_count, is_entry, IsSet};
ghost use Rattle.sw_models.specs.Entries.{entry_count, with_entry};

use crate::errors::BuildError;
use sqlite_items::Items;
use std::alloc::Global;
use std::marker::Model;
use sw_logic::{Signature, Structure, Symbol, SymbolKind, Table, count_tuples, size_at};

/// A structure of a signature that is made entry by entry. Contracts see the signature and the
/// structure so far.
#[derive(Drop)]
pub struct StructureBuilder<'a> {
    signature: &'a Signature,
    sizes: Items<u32>,
    tables: Vec<Table>,
}

impl<'a> Model for StructureBuilder<'a> {
    ghost use Rattle.std.specs.Prelude.{◌≡◌, true};
    ghost use Rattle.sw_models.specs.Building.{Building, building, is_building};

    ghost Value = { Building };

    ghost view = { λ b. building b.signature.now b.sizes b.tables.items };

    ghost invariant = { λ b. is_building (building b.signature.now b.sizes b.tables.items) ≡ true };
}

fn zero_at(sizes: &[u32]) -> Option<usize>
    ensures { result ≡ first_zero sizes.now }
{
    sizes.iter().position(|size| *size == 0)
}

/// How many entries a symbol's table has, if they can be held.
fn entries_of(sizes: &[u32], symbol: &Symbol) -> Result<usize, BuildError>
    ensures { MatchResult result (λ count. (tuple_count sizes.now symbol.now.args ≡ count) × (count < 2 ^ 64)) (λ e. e ≡ BuildError.Memory) }
{
    let count = count_tuples(sizes, symbol.args.as_slice());
    if count > usize::MAX as u128 {
        return Err(BuildError::Memory);
    }
    Ok(count as usize)
}

fn new_table(alloc: Global, kind: SymbolKind, count: usize) -> Result<Table, BuildError>
    ensures { MatchResult result (λ table. table ≡ blank_table count kind) (λ e. e ≡ BuildError.Memory) }
{
    match kind {
        SymbolKind::Relation => Ok(Table::Bits(Items::from_vec(vec![in alloc; false; count]?))),
        SymbolKind::Constant => Ok(Table::Value(0)),
        SymbolKind::Function => Ok(Table::Values(Items::from_vec(vec![in alloc; 0; count]?))),
    }
}

fn new_tables(alloc: Global, sizes: &[u32], symbols: &[Symbol]) -> Result<Vec<Table>, BuildError>
    ensures { MatchResult result (λ tables. (tables.items ≡ blank_tables sizes.now symbols.now) × (counts_fit sizes.now symbols.now ≡ true)) (λ e. e ≡ BuildError.Memory) }
{
    let mut tables = Vec::new(alloc);
    for symbol in symbols {
        let count = entries_of(sizes, symbol)?;
        tables.push(new_table(alloc, symbol.kind, count)?)?;
    }
    Ok(tables)
}

/// The place of a tuple among those of these sorts, if each value is below the size of its sort.
fn place_of(sizes: &[u32], sorts: &[u32], tuple: &[u32]) -> Option<usize>
    requires { length tuple.now ≡ length sorts.now }
    ensures { MatchOption result (are_below sizes.now sorts.now tuple.now ≡ false) (λ at. (are_below sizes.now sorts.now tuple.now ≡ true) × (at ≡ min (2 ^ 64 - 1) (place_from sizes.now 0 sorts.now tuple.now))) }
{
    let mut at: usize = 0;
    for (i, value) in tuple.iter().enumerate() {
        let size = size_at(sizes, sorts[i]);
        if *value >= size {
            return None;
        }
        at = at
            .saturating_mul(size as usize)
            .saturating_add(*value as usize);
    }
    Some(at)
}

fn value_limit(sizes: &[u32], symbol: &Symbol) -> u32
    ensures { result ≡ value_count sizes.now symbol.now.kind symbol.now.gives }
{
    match symbol.kind {
        SymbolKind::Relation => 2,
        SymbolKind::Constant | SymbolKind::Function => size_at(sizes, symbol.gives),
    }
}

fn set_entry(table: &mut Table, at: usize, value: u32)
    requires { at < entry_count table.old }
    ensures { table.new ≡ with_entry table.old at value }
{
    match table {
        Table::Bits(bits) => bits.set(at, value == 1),
        Table::Value(old) => *old = value,
        Table::Values(values) => values.set(at, value),
    }
}

impl<'a> StructureBuilder<'a> {
    /// A structure with these sizes, one for each sort, whose entries are all false or 0.
    ///
    /// `Memory` comes where memory ran out, or where the sort of the first size of 0 has no number
    /// in u32.
    pub fn new(
        alloc: Global,
        sig: &'a Signature,
        sizes: Vec<u32>,
    ) -> Result<StructureBuilder<'a>, BuildError>
        requires sorts { is_signature sig.now ≡ true }
        requires sizes { length sizes.items ≡ length sig.now.sorts }
        ensures { Starts sig.now sizes.items result }
    {
        if let Some(sort) = zero_at(sizes.as_slice()) {
            let Ok(sort) = u32::try_from(sort) else {
                return Err(BuildError::Memory);
            };
            return Err(BuildError::SizeZero { sort });
        }
        let tables = new_tables(alloc, sizes.as_slice(), sig.symbols.as_slice())?;
        Ok(StructureBuilder {
            signature: sig,
            sizes: Items::from_vec(sizes),
            tables,
        })
    }

    /// Sets the entry of a symbol at a tuple; for a relation 1 is true and 0 is false.
    pub fn set(&mut self, symbol: u32, tuple: &[u32], value: u32) -> Result<(), BuildError>
        requires symbol { symbol < length self.old.signature.symbols }
        requires arity { length tuple.now ≡ length (args_of self.old.signature symbol) }
        ensures answer { result ≡ (if is_entry self.old symbol tuple.now value then Ok tt else Err BuildError.ValueRange) }
        ensures ok { OnOk result (IsSet self.old self.new symbol tuple.now value) }
        ensures err { OnErr result (self.new ≡ self.old) }
    {
        let sizes = self.sizes.as_slice();
        let entry = &self.signature.symbols.as_slice()[symbol as usize];
        let Some(at) = place_of(sizes, entry.args.as_slice(), tuple) else {
            return Err(BuildError::ValueRange);
        };
        if value >= value_limit(sizes, entry) {
            return Err(BuildError::ValueRange);
        }
        set_entry(&mut self.tables[symbol as usize], at, value);
        Ok(())
    }

    /// The structure so far.
    pub fn finish(self) -> Structure
        ensures same { result ≡ self.entry.structure }
        ensures fits { fits self.entry.signature result ≡ true }
    {
        Structure {
            sizes: self.sizes,
            tables: Items::from_vec(self.tables),
        }
    }
}
