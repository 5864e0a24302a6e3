//! Numbers of ground terms, capped.
ghost use Rattle.std.specs.Prelude.{◌≡◌, ◌+◌, ◌*◌, length, IfOk, map, true};
ghost use Rattle.std.specs.List.{sum_by, range_with_len};
ghost use Rattle.sw_universe.specs.Sizes.{capped};
ghost use Rattle.sw_universe.specs.GroundTerms.{term_count};
ghost use Rattle.sw_logic.specs.Signatures.{is_signature};
ghost use Rattle.sw_universe.specs.Counting.{AreCounts, count_in, one_constant, choices_in, applied_count, constant_count, count_over};

use crate::listing::{is_constant, is_function};
use sqlite_items::Items;
use std::alloc::{AllocError, Global};
use sw_logic::{Signature, Symbol};

const MOST: u128 = 18446744073709551616;

fn cap(n: u128) -> u128
    ensures { result ≡ capped n }
{
    if n < MOST { n } else { MOST }
}

pub fn add(a: u128, b: u128) -> u128
    ensures { result ≡ capped (a + b) }
{
    match a.checked_add(b) {
        Some(sum) => cap(sum),
        None => MOST,
    }
}

pub fn times(a: u128, b: u128) -> u128
    ensures { result ≡ capped (a * b) }
{
    match a.checked_mul(b) {
        Some(product) => cap(product),
        None => MOST,
    }
}

pub fn count(counts: &[u128], sort: usize) -> u128
    ensures { result ≡ count_in counts.now sort }
{
    if sort < counts.len() { counts[sort] } else { 0 }
}

/// How many choices of terms of these sorts there are.
pub fn choices(counts: &[u128], sorts: &[u32]) -> u128
    ensures { result ≡ capped (choices_in (count_in counts.now) sorts.now) }
{
    let mut all = 1;
    let mut at = sorts.len();
    while at > 0 {
        at -= 1;
        all = times(count(counts, sorts[at] as usize), all);
    }
    all
}

fn of_constant(symbol: &Symbol, sort: u32) -> u128
    ensures { result ≡ one_constant sort symbol.now }
{
    if is_constant(symbol, sort) { 1 } else { 0 }
}

fn of_function(symbol: &Symbol, counts: &[u128], sort: u32) -> u128
    ensures { result ≡ capped (applied_count (count_in counts.now) sort symbol.now) }
{
    if is_function(symbol, sort) {
        choices(counts, symbol.args.as_slice())
    } else {
        0
    }
}

fn constants(symbols: &[Symbol], sort: u32) -> u128
    ensures { result ≡ constant_count symbols.now sort }
{
    let mut total = 0;
    for symbol in symbols {
        total = add(total, of_constant(symbol, sort));
    }
    total
}

fn applications(symbols: &[Symbol], counts: &[u128], sort: u32) -> u128
    ensures { result ≡ capped (sum_by (applied_count (count_in counts.now) sort) symbols.now) }
{
    let mut total = 0;
    for symbol in symbols {
        total = add(total, of_function(symbol, counts, sort));
    }
    total
}

/// The numbers of constants of each sort.
fn all_constants(alloc: Global, symbols: &[Symbol], sorts: u32) -> Result<Items<u128>, AllocError>
    ensures { IfOk result (λ counts. counts ≡ map (constant_count symbols.now) (range_with_len 0 sorts)) }
{
    let mut counts = Items::new(alloc);
    for sort in 0..sorts {
        counts.push(constants(symbols, sort))?;
    }
    Ok(counts)
}

/// The numbers of terms of each sort whose arguments are counted.
fn deeper(
    alloc: Global,
    symbols: &[Symbol],
    sorts: u32,
    counted: &[u128],
) -> Result<Items<u128>, AllocError>
    ensures { IfOk result (λ counts. counts ≡ map (count_over symbols.now counted.now) (range_with_len 0 sorts)) }
{
    let mut counts = Items::new(alloc);
    for sort in 0..sorts {
        counts.push(add(
            constants(symbols, sort),
            applications(symbols, counted, sort),
        ))?;
    }
    Ok(counts)
}

/// The numbers of terms of each sort that are nested no deeper than there are sorts. Numbers that no
/// deeper term changes stay as they are.
pub fn term_counts(alloc: Global, sig: &Signature, sorts: u32) -> Result<Items<u128>, AllocError>
    requires signature { is_signature sig.now ≡ true }
    requires count { length sig.now.sorts ≡ sorts }
    ensures { IfOk result (AreCounts sig.now sorts) }
{
    let mut counts = all_constants(alloc, sig.symbols.as_slice(), sorts)?;
    for depth in 0..sorts {
        let _depth = depth;
        let next = deeper(alloc, sig.symbols.as_slice(), sorts, counts.as_slice())?;
        if next.as_slice() == counts.as_slice() {
            return Ok(counts);
        }
        counts = next;
    }
    Ok(counts)
}
