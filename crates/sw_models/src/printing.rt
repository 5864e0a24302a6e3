//! Structures as text.
ghost use Rattle.std.specs.Prelude.{◌≡◌, ◌++◌, [], ◌∷◌, map, string_bytes, IfOk, OnOk, codes};
ghost use Rattle.std.specs.Fmt.{decimal};
ghost use Rattle.sw_models.specs.Text.{bit_digit, values_text, others_text, table_text, kind_word, line_start, line_above, sizes_text, tables_text, structure_text};

use std::alloc::{AllocError, Global};
use sw_logic::{Name, Signature, Structure, Symbol, SymbolKind, Table};

/// The word that the line of such a symbol begins with.
pub fn kind_word(kind: SymbolKind) -> &'static str
    ensures { result.now ≡ kind_word kind }
{
    match kind {
        SymbolKind::Relation => "relation",
        SymbolKind::Constant => "constant",
        SymbolKind::Function => "function",
    }
}

fn push_start(text: &mut String, word: &str, name: &str) -> Result<(), AllocError>
    ensures { OnOk result (string_bytes text.new ≡ string_bytes text.old ++ line_start word.now name.now) }
{
    text.push_str(word)?;
    text.push_str(" ")?;
    text.push_str(name)?;
    text.push_str(" ")
}

fn push_number(alloc: Global, text: &mut String, number: u32) -> Result<(), AllocError>
    ensures { OnOk result (string_bytes text.new ≡ string_bytes text.old ++ decimal number) }
{
    let digits = format!(in alloc; "{number}")?;
    text.push_str(digits.as_str())
}

fn push_bits(text: &mut String, bits: &[bool]) -> Result<(), AllocError>
    ensures { OnOk result (string_bytes text.new ≡ string_bytes text.old ++ map bit_digit bits.now) }
{
    for bit in bits {
        text.push_str(if *bit { "1" } else { "0" })?;
    }
    Ok(())
}

fn push_others(alloc: Global, text: &mut String, values: &[u32]) -> Result<(), AllocError>
    ensures { OnOk result (string_bytes text.new ≡ string_bytes text.old ++ others_text values.now) }
{
    for value in values {
        text.push_str(" ")?;
        push_number(alloc, text, *value)?;
    }
    Ok(())
}

fn push_values(alloc: Global, text: &mut String, values: &[u32]) -> Result<(), AllocError>
    ensures { OnOk result (string_bytes text.new ≡ string_bytes text.old ++ values_text values.now) }
{
    let Some((first, others)) = values.split_first() else {
        return Ok(());
    };
    push_number(alloc, text, *first)?;
    push_others(alloc, text, others)
}

fn push_table(alloc: Global, text: &mut String, table: &Table) -> Result<(), AllocError>
    ensures { OnOk result (string_bytes text.new ≡ string_bytes text.old ++ table_text table.now) }
{
    match table {
        Table::Bits(bits) => push_bits(text, bits.as_slice()),
        Table::Value(value) => push_number(alloc, text, *value),
        Table::Values(values) => push_values(alloc, text, values.as_slice()),
    }
}

fn push_size_line(
    alloc: Global,
    text: &mut String,
    sort: &Name,
    size: u32,
) -> Result<(), AllocError>
    ensures { OnOk result (string_bytes text.new ≡ string_bytes text.old ++ line_above (line_start (codes "size") sort.now) (decimal size) []) }
{
    push_start(text, "size", sort.as_str())?;
    push_number(alloc, text, size)?;
    text.push_str("\n")
}

fn push_table_line(
    alloc: Global,
    text: &mut String,
    symbol: &Symbol,
    table: &Table,
) -> Result<(), AllocError>
    ensures { OnOk result (string_bytes text.new ≡ string_bytes text.old ++ line_above (line_start (kind_word symbol.now.kind) symbol.now.name) (table_text table.now) []) }
{
    push_start(text, kind_word(symbol.kind), symbol.name.as_str())?;
    push_table(alloc, text, table)?;
    text.push_str("\n")
}

fn push_sizes(
    alloc: Global,
    text: &mut String,
    sorts: &[Name],
    sizes: &[u32],
) -> Result<(), AllocError>
    ensures { OnOk result (string_bytes text.new ≡ string_bytes text.old ++ sizes_text sorts.now sizes.now) }
{
    for (sort, size) in sorts.iter().zip(sizes) {
        push_size_line(alloc, text, sort, *size)?;
    }
    Ok(())
}

fn push_tables(
    alloc: Global,
    text: &mut String,
    symbols: &[Symbol],
    tables: &[Table],
) -> Result<(), AllocError>
    ensures { OnOk result (string_bytes text.new ≡ string_bytes text.old ++ tables_text symbols.now tables.now) }
{
    for (symbol, table) in symbols.iter().zip(tables) {
        push_table_line(alloc, text, symbol, table)?;
    }
    Ok(())
}

/// The text of a structure of the signature.
pub fn print_structure(
    alloc: Global,
    sig: &Signature,
    structure: &Structure,
) -> Result<String, AllocError>
    ensures { IfOk result (λ text. string_bytes text ≡ structure_text sig.now structure.now) }
{
    let mut text = String::from_str(alloc, "structure\n")?;
    push_sizes(
        alloc,
        &mut text,
        sig.sorts.as_slice(),
        structure.sizes.as_slice(),
    )?;
    push_tables(
        alloc,
        &mut text,
        sig.symbols.as_slice(),
        structure.tables.as_slice(),
    )?;
    Ok(text)
}
