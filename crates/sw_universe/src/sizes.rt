//! How many instances there are over counted ground terms, capped.
ghost use Rattle.std.specs.Prelude.{◌≡◌, length, IfOk, true};
ghost use Rattle.std.specs.List.{sum_by, range_with_len};
ghost use Rattle.sw_truth.specs.declared.sets.Piece.{Piece};
ghost use Rattle.sw_universe.specs.Sizes.{capped, equalities, size_of_set};
ghost use Rattle.sw_logic.specs.Signatures.{is_signature};
ghost use Rattle.sw_logic.specs.Strata.{IsStratified};
ghost use Rattle.sw_universe.specs.Counting.{count_in, choices_in, congruences_in, instances_in};

use crate::counting::{add, choices, count, term_counts, times};
use std::alloc::{AllocError, Global};
use sw_logic::Symbol;
use sw_truth::{Piece, SkolemSet};

/// How many ground terms a query has, and how many instances over them. Each is capped at 2^64.
#[derive(Clone, Copy, PartialEq, Eq)]
pub struct Size {
    pub terms: u128,
    pub instances: u128,
}

fn total(counts: &[u128], sorts: u32) -> u128
    ensures { result ≡ capped (sum_by (count_in counts.now) (range_with_len 0 sorts)) }
{
    let mut total = 0;
    for sort in 0..sorts {
        total = add(total, count(counts, sort as usize));
    }
    total
}

/// The instances of reflexivity, symmetry and transitivity over so many terms.
fn equality(count: u128) -> u128
    ensures { result ≡ capped (equalities count) }
{
    let square = times(count, count);
    let cube = times(count, square);
    let more = add(square, cube);
    add(count, more)
}

fn all_equality(counts: &[u128], sorts: u32) -> u128
    ensures { result ≡ capped (sum_by (λ sort. equalities (count_in counts.now sort)) (range_with_len 0 sorts)) }
{
    let mut total = 0;
    for sort in 0..sorts {
        total = add(total, equality(count(counts, sort as usize)));
    }
    total
}

fn of_pieces(pieces: &[Piece], counts: &[u128]) -> u128
    ensures { result ≡ capped (sum_by (λ (p : Piece). choices_in (count_in counts.now) p.vars) pieces.now) }
{
    let mut total = 0;
    for piece in pieces {
        total = add(total, choices(counts, piece.vars.as_slice()));
    }
    total
}

/// The instances of congruence in each argument of a symbol.
fn congruence(symbol: &Symbol, counts: &[u128]) -> u128
    ensures { result ≡ capped (congruences_in (count_in counts.now) symbol.now) }
{
    let all = choices(counts, symbol.args.as_slice());
    let mut total = 0;
    for sort in symbol.args.as_slice() {
        total = add(total, times(count(counts, *sort as usize), all));
    }
    total
}

fn all_congruence(symbols: &[Symbol], counts: &[u128]) -> u128
    ensures { result ≡ capped (sum_by (congruences_in (count_in counts.now)) symbols.now) }
{
    let mut total = 0;
    for symbol in symbols {
        total = add(total, congruence(symbol, counts));
    }
    total
}

/// How many instances a set has over so many ground terms of each sort, capped at 2^64.
pub fn count_instances(set: &SkolemSet, counts: &[u128], sorts: u32) -> u128
    requires { length set.now.signature.sorts ≡ sorts }
    ensures { result ≡ capped (instances_in (count_in counts.now) set.now) }
{
    let pieces = of_pieces(set.pieces.as_slice(), counts);
    let equality = all_equality(counts, sorts);
    let congruence = all_congruence(set.signature.symbols.as_slice(), counts);
    let axioms = add(equality, congruence);
    add(pieces, axioms)
}

fn sized(alloc: Global, set: &SkolemSet, sorts: u32) -> Result<Size, AllocError>
    requires signature { is_signature set.now.signature ≡ true }
    requires count { length set.now.signature.sorts ≡ sorts }
    ensures { IfOk result (λ size. size ≡ size_of_set set.now) }
{
    let counts = term_counts(alloc, &set.signature, sorts)?;
    let terms = total(counts.as_slice(), sorts);
    let instances = count_instances(set, counts.as_slice(), sorts);
    Ok(Size { terms, instances })
}

/// How many ground terms and instances there are, each capped at 2^64.
pub fn query_size(alloc: Global, set: &SkolemSet) -> Result<Size, AllocError>
    requires signature { is_signature set.now.signature ≡ true }
    requires strata { IsStratified set.now.signature }
    ensures { IfOk result (λ size. size ≡ size_of_set set.now) }
{
    let Ok(sorts) = u32::try_from(set.signature.sorts.len()) else {
        return Err(AllocError);
    };
    sized(alloc, set, sorts)
}
