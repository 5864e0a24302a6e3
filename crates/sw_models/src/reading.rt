//! Text as structures.
ghost use Rattle.std.specs.Prelude.{◌≡◌, ◌≢◌, ℕ, ◌+◌, ◌-◌, ◌*◌, ◌^◌, ◌<◌, ◌≤◌, [], ◌∷◌, ◌++◌, List, Bool, length, map, All, Option, Some, None, Result, Ok, IfOk, IfSome, MatchOption, MatchResult, codes, true, IsTrue, ◌↔◌, slice_index};
ghost use Rattle.std.specs.Fmt.{decimal};
ghost use Rattle.std.specs.Char.{digit_value};
ghost use Rattle.std.specs.Str.Parse.{AllDigits, digits_value};
ghost use Rattle.sw_logic.specs.declared.structure.Structure.{Structure};
ghost use Rattle.sw_logic.specs.declared.structure.Table.{Table};
ghost use Rattle.sw_logic.specs.Fits.{fits};
ghost use Rattle.sw_models.specs.declared.errors.StructureError.{StructureError};
ghost use Rattle.sw_logic.specs.Signatures.{is_signature};
ghost use Rattle.sw_models.specs.Text.{bit_digit, others_text, values_text, table_text, kind_word, spaced, line_start, line_above, structure_text};
ghost use Rattle.sw_models.specs.Reading.{Line, Content, IsNumber, IsTableOf, IsFault, value_fault, table_fault, HasText, answer_of};
ghost use Rattle.sw_models.specs.Steps.{IsLine, HasNoLine, InOrder, SizesRead, TablesRead, FailsAt};

use crate::errors::StructureError;
use crate::printing::kind_word;
use sqlite_items::Items;
use std::alloc::{AllocError, Global};
use sw_logic::{Name, Signature, Structure, Symbol, SymbolKind, Table, count_tuples, size_at};

/// The bytes after this prefix, if they begin with it.
fn after<'t>(bytes: &'t [u8], prefix: &[u8]) -> Option<&'t [u8]>
    ensures { MatchOption result ((rest : List ℕ) → bytes.now ≢ prefix.now ++ rest) (λ rest. bytes.now ≡ prefix.now ++ rest.now) }
{
    bytes.strip_prefix(prefix)
}

fn after_spaced<'t>(bytes: &'t [u8], word: &str) -> Option<&'t [u8]>
    ensures { MatchOption result ((rest : List ℕ) → bytes.now ≢ spaced word.now ++ rest) (λ rest. bytes.now ≡ spaced word.now ++ rest.now) }
{
    after(after(bytes, word.as_bytes())?, b" ")
}

fn after_start<'t>(bytes: &'t [u8], word: &str, name: &str) -> Option<&'t [u8]>
    ensures { MatchOption result ((rest : List ℕ) → bytes.now ≢ line_start word.now name.now ++ rest) (λ rest. bytes.now ≡ line_start word.now name.now ++ rest.now) }
{
    after_spaced(after_spaced(bytes, word)?, name)
}

/// The first line without its line feed, and what is below it.
fn first_line(bytes: &[u8]) -> Option<(&[u8], &[u8])>
    ensures { MatchOption result (HasNoLine [] bytes.now) (λ line. IsLine [] line.0.now line.1.now bytes.now) }
{
    let Some(end) = bytes.iter().position(|byte| *byte == b'\n') else {
        return None;
    };
    Some((&bytes[..end], &bytes[end + 1..]))
}

/// What the first line has after its start, and what is below it.
fn line_after<'t>(bytes: &'t [u8], word: &str, name: &str) -> Option<(&'t [u8], &'t [u8])>
    ensures { MatchOption result (HasNoLine (line_start word.now name.now) bytes.now) (λ line. IsLine (line_start word.now name.now) line.0.now line.1.now bytes.now) }
{
    first_line(after_start(bytes, word, name)?)
}

/// The number with one more digit at its end, if it fits.
fn with_digit(number: u32, byte: u8) -> Option<u32>
    ensures { MatchOption result (digit_value byte < 10 → 2 ^ 32 ≤ number * 10 + digit_value byte) (λ n. (digit_value byte < 10) × (n ≡ number * 10 + digit_value byte) × IsNumber n) }
{
    if !byte.is_ascii_digit() {
        return None;
    }
    let digit = (byte - b'0') as u32;
    number.checked_mul(10)?.checked_add(digit)
}

/// The number that these digits are, if it fits.
fn number_of(digits: &[u8]) -> Option<u32>
    ensures { MatchOption result (AllDigits 10 digits.now → 2 ^ 32 ≤ digits_value 10 digits.now) (λ n. AllDigits 10 digits.now × (digits_value 10 digits.now ≡ n) × IsNumber n) }
{
    let mut number: u32 = 0;
    for byte in digits {
        let Some(more) = with_digit(number, *byte) else {
            return None;
        };
        number = more;
    }
    Some(number)
}

fn has_zero_in_front(word: &[u8]) -> bool
    ensures { IsTrue result ↔ ((1 < length word.now) × (slice_index word.now 0 ≡ 48)) }
{
    word.len() > 1 && word[0] == b'0'
}

/// The number that a word is, if it is one: digits without a zero in front.
fn read_number(word: &[u8]) -> Option<u32>
    ensures { MatchOption result ((n : ℕ) → IsNumber n → word.now ≢ decimal n) (λ n. (word.now ≡ decimal n) × IsNumber n) }
{
    if word.is_empty() || has_zero_in_front(word) {
        return None;
    }
    number_of(word)
}

fn bit_of(byte: u8) -> Option<bool>
    ensures { MatchOption result ((bit : Bool) → byte ≢ bit_digit bit) (λ bit. byte ≡ bit_digit bit) }
{
    match byte {
        b'0' => Some(false),
        b'1' => Some(true),
        _ => None,
    }
}

fn read_bits(alloc: Global, body: &[u8]) -> Result<Option<Items<bool>>, AllocError>
    ensures { IfOk result (λ found. MatchOption found ((bits : List Bool) → body.now ≢ map bit_digit bits) (λ bits. body.now ≡ map bit_digit bits)) }
{
    let mut bits = Items::new(alloc);
    for byte in body {
        let Some(bit) = bit_of(*byte) else {
            return Ok(None);
        };
        bits.push(bit)?;
    }
    Ok(Some(bits))
}

fn read_values(alloc: Global, body: &[u8]) -> Result<Option<Items<u32>>, AllocError>
    ensures { IfOk result (λ found. MatchOption found ((values : List ℕ) → values ≢ [] → All IsNumber values → body.now ≢ values_text values) (λ values. (values ≢ []) × All IsNumber values × (body.now ≡ values_text values))) }
{
    let mut values = Items::new(alloc);
    for word in body.split(|byte| *byte == b' ') {
        let Some(value) = read_number(word) else {
            return Ok(None);
        };
        values.push(value)?;
    }
    Ok(Some(values))
}

/// The table that a line of such a symbol has as its body.
fn read_body(alloc: Global, kind: SymbolKind, body: &[u8]) -> Result<Option<Table>, AllocError>
    ensures { IfOk result (λ found. MatchOption found ((table : Table) → IsTableOf kind table → body.now ≢ table_text table) (λ table. IsTableOf kind table × (body.now ≡ table_text table))) }
{
    match kind {
        SymbolKind::Relation if body.is_empty() => Ok(None),
        SymbolKind::Relation => Ok(read_bits(alloc, body)?.map(Table::Bits)),
        SymbolKind::Constant => Ok(read_number(body).map(Table::Value)),
        SymbolKind::Function => Ok(read_values(alloc, body)?.map(Table::Values)),
    }
}

/// How many digits a number has.
fn digit_count(number: u32) -> u32
    ensures { result ≡ length (decimal number) }
{
    let mut left = number;
    let mut count = 1;
    while left >= 10 {
        left /= 10;
        count += 1;
    }
    count
}

/// The first value that is not below the size, by its place in the text.
fn value_fault(size: u32, mut at: u32, values: &[u32]) -> Option<StructureError>
    requires { at + length (others_text values.now) < 2 ^ 32 }
    ensures { result ≡ value_fault size at values.now }
{
    for value in values {
        if *value >= size {
            return Some(StructureError::ValueRange { at });
        }
        at += digit_count(*value) + 1;
    }
    None
}

/// What is wrong with a symbol's table that stands at this place of the text.
fn table_fault(sizes: &[u32], symbol: &Symbol, at: u32, table: &Table) -> Option<StructureError>
    requires { at + (length (table_text table.now) + 1) < 2 ^ 32 }
    ensures { result ≡ table_fault sizes.now symbol.now at table.now }
{
    let count = count_tuples(sizes, symbol.args.as_slice());
    let size = size_at(sizes, symbol.gives);
    match table {
        Table::Bits(bits) if bits.len() as u128 != count => {
            Some(StructureError::TableLength { at })
        }
        Table::Bits(_) => None,
        Table::Value(value) => value_fault(size, at, &[*value]),
        Table::Values(values) if values.len() as u128 != count => {
            Some(StructureError::TableLength { at })
        }
        Table::Values(values) => value_fault(size, at, values.as_slice()),
    }
}

fn read_size<'t>(at: u32, bytes: &'t [u8], sort: &Name) -> Result<(u32, &'t [u8]), StructureError>
    ensures { (sizes : List ℕ) → MatchResult result (λ read. InOrder sizes at (Line.of_sort sort.now) (Content.a_size read.0) read.1.now bytes.now) (λ e. IsFault sizes at (Line.of_sort sort.now) bytes.now e) }
{
    let Some((body, below)) = line_after(bytes, "size", sort.as_str()) else {
        return Err(StructureError::Syntax { at });
    };
    match read_number(body) {
        None => Err(StructureError::Syntax { at }),
        Some(0) => Err(StructureError::SizeZero { at }),
        Some(size) => Ok((size, below)),
    }
}

fn read_table<'t>(
    alloc: Global,
    sizes: &[u32],
    at: u32,
    bytes: &'t [u8],
    symbol: &Symbol,
) -> Result<(Table, &'t [u8]), StructureError>
    requires { at + length bytes.now < 2 ^ 32 }
    ensures { MatchResult result (λ read. InOrder sizes.now at (Line.of_symbol symbol.now) (Content.a_table read.0) read.1.now bytes.now) (λ e. e ≢ StructureError.Memory → IsFault sizes.now at (Line.of_symbol symbol.now) bytes.now e) }
{
    let word = kind_word(symbol.kind);
    let name = symbol.name.as_str();
    let Some((body, below)) = line_after(bytes, word, name) else {
        return Err(StructureError::Syntax { at });
    };
    let Some(table) = read_body(alloc, symbol.kind, body)? else {
        return Err(StructureError::Syntax { at });
    };
    let start = (word.len() + name.len() + 2) as u32;
    match table_fault(sizes, symbol, at + start, &table) {
        Some(fault) => Err(fault),
        None => Ok((table, below)),
    }
}

fn read_sizes<'t>(
    alloc: Global,
    end: u32,
    bytes: &'t [u8],
    sorts: &[Name],
) -> Result<(Items<u32>, &'t [u8]), StructureError>
    requires { length bytes.now ≤ end }
    ensures { MatchResult result (λ read. SizesRead end sorts.now read.0 read.1.now bytes.now) (λ e. FailsAt (map Line.of_sort sorts.now) [] end bytes.now e) }
{
    let mut sizes = Items::new(alloc);
    let mut rest = bytes;
    for sort in sorts {
        let (size, below) = read_size(end - rest.len() as u32, rest, sort)?;
        sizes.push(size)?;
        rest = below;
    }
    Ok((sizes, rest))
}

fn read_tables<'t>(
    alloc: Global,
    end: u32,
    bytes: &'t [u8],
    sizes: &[u32],
    symbols: &[Symbol],
) -> Result<(Items<Table>, &'t [u8]), StructureError>
    requires { length bytes.now ≤ end }
    ensures { MatchResult result (λ read. TablesRead end symbols.now sizes.now read.0 read.1.now bytes.now) (λ e. FailsAt (map Line.of_symbol symbols.now) sizes.now end bytes.now e) }
{
    let mut tables = Items::new(alloc);
    let mut rest = bytes;
    for symbol in symbols {
        let at = end - rest.len() as u32;
        let (table, below) = read_table(alloc, sizes, at, rest, symbol)?;
        tables.push(table)?;
        rest = below;
    }
    Ok((tables, rest))
}

/// The structure that a text of this length is, or its first fault.
fn read_lines(
    alloc: Global,
    sig: &Signature,
    end: u32,
    text: &[u8],
) -> Result<Structure, StructureError>
    requires { length text.now ≡ end }
    ensures { IfSome (answer_of result) (HasText sig.now text.now) }
{
    let Some(body) = after(text, b"structure\n") else {
        return Err(StructureError::Syntax { at: 0 });
    };
    let (sizes, rest) = read_sizes(alloc, end, body, sig.sorts.as_slice())?;
    let symbols = sig.symbols.as_slice();
    let (tables, rest) = read_tables(alloc, end, rest, sizes.as_slice(), symbols)?;
    if !rest.is_empty() {
        let at = end - rest.len() as u32;
        return Err(StructureError::Syntax { at });
    }
    Ok(Structure { sizes, tables })
}

/// The structure of the signature that a text is.
///
/// The first fault in the text is the answer. `Memory` comes where memory ran out, or where the
/// text has 2^32 bytes or more.
pub fn read_structure(
    alloc: Global,
    sig: &Signature,
    text: &[u8],
) -> Result<Structure, StructureError>
    ensures has { IfSome (answer_of result) (HasText sig.now text.now) }
    ensures no_other { (r : Result Structure StructureError) → HasText sig.now text.now r → IfSome (answer_of result) (λ s. s ≡ r) }
    ensures is { IfOk result (λ s. (fits sig.now s ≡ true) × (text.now ≡ structure_text sig.now s)) }
    ensures complete { (s : Structure) → is_signature sig.now ≡ true → fits sig.now s ≡ true → All IsNumber s.sizes → text.now ≡ structure_text sig.now s → IfSome (answer_of result) (λ r. r ≡ Ok s) }
{
    match u32::try_from(text.len()) {
        Ok(end) => read_lines(alloc, sig, end, text),
        Err(_) => Err(StructureError::Memory),
    }
}
