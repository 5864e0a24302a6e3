//! All instances of a Skolem set and of equality over its ground terms.
ghost use Rattle.std.specs.Prelude.{◌≡◌, ◌≤◌, ◌++◌, ◌∷◌, ℕ, List, map, length, MatchResult, IfOk, OnOk};
ghost use Rattle.std.specs.List.{flat_map, range_with_len, enumerate_from};
ghost use Rattle.sw_logic.specs.Truth.{size_of};
ghost use Rattle.sw_truth.specs.declared.instances.Instance.TheVariants.{Of, Reflexive, Symmetric, Transitive, Congruent};
ghost use Rattle.sw_universe.specs.ByNumber.{counts};
ghost use Rattle.sw_universe.specs.Sizes.{capped};
ghost use Rattle.sw_instances.specs.AllInstances.{instances_of, piece_instances, equality_instances, congruence_instances, congruence_at, choices, IsGroundFault};

use sqlite_items::Items;
use std::alloc::{AllocError, Global};
use sw_logic::Symbol;
use sw_truth::{Instance, MOST_INSTANCES, Piece, SkolemSet};
use sw_universe::{Universe, count_instances};

/// Why there is no list of all instances.
#[derive(Debug, Drop)]
pub enum GroundError {
    /// There are this many, more than 4,194,304. The number is capped at 2^64.
    TooLarge { count: u128 },
    Memory,
}

/// How many ground terms a sort has, 0 where there is no such sort.
fn count(universe: &Universe, sort: u32) -> Result<u32, AllocError>
    ensures { IfOk result (λ n. n ≡ size_of (counts universe.now) sort) }
{
    match universe.lists.get(sort as usize) {
        Some(list) => u32::try_from(list.len()).map_err(|_| AllocError),
        None => Ok(0),
    }
}

/// How many ground terms each sort has.
fn term_counts(alloc: Global, universe: &Universe) -> Result<Items<u128>, AllocError>
    ensures { IfOk result (λ ns. ns ≡ counts universe.now) }
{
    let mut all = Items::new(alloc);
    for list in universe.lists.as_slice() {
        all.push(list.len() as u128)?;
    }
    Ok(all)
}

/// How many instances there are, capped at 2^64.
fn count_all(alloc: Global, set: &SkolemSet, universe: &Universe) -> Result<u128, AllocError>
    ensures { IfOk result (λ n. n ≡ capped (length (instances_of set.now universe.now))) }
{
    let Ok(sorts) = u32::try_from(set.signature.sorts.len()) else {
        return Err(AllocError);
    };
    let counts = term_counts(alloc, universe)?;
    Ok(count_instances(set, counts.as_slice(), sorts))
}

/// The number before each of the tuples.
fn before_each(
    alloc: Global,
    count: u32,
    tuples: &[Items<u32>],
) -> Result<Items<Items<u32>>, AllocError>
    ensures { IfOk result (λ all. all ≡ flat_map (λ n. map (λ (tuple : List ℕ). n ∷ tuple) tuples.now) (range_with_len 0 count)) }
{
    let mut longer = Items::new(alloc);
    for n in 0..count {
        push_longer(alloc, n, tuples, &mut longer)?;
    }
    Ok(longer)
}

fn longer_by(alloc: Global, n: u32, tuple: &[u32]) -> Result<Items<u32>, AllocError>
    ensures { IfOk result (λ longer. longer ≡ n ∷ tuple.now) }
{
    let mut longer = Vec::with_capacity(alloc, tuple.len().saturating_add(1))?;
    longer.push(n)?;
    longer.extend_from_slice(tuple)?;
    Ok(Items::from_vec(longer))
}

fn push_longer(
    alloc: Global,
    n: u32,
    tuples: &[Items<u32>],
    all: &mut Items<Items<u32>>,
) -> Result<(), AllocError>
    ensures { OnOk result (all.new ≡ all.old ++ map (λ (tuple : List ℕ). n ∷ tuple) tuples.now) }
{
    for tuple in tuples {
        all.push(longer_by(alloc, n, tuple.as_slice())?)?;
    }
    Ok(())
}

/// One ground term of each sort, in lexicographic order.
fn choices(
    alloc: Global,
    universe: &Universe,
    sorts: &[u32],
) -> Result<Items<Items<u32>>, AllocError>
    ensures { IfOk result (λ all. all ≡ choices universe.now sorts.now) }
{
    let [sort, sorts @ ..] = sorts else {
        let mut none = Items::new(alloc);
        none.push(Items::new(alloc))?;
        return Ok(none);
    };
    let rest = choices(alloc, universe, sorts)?;
    before_each(alloc, count(universe, *sort)?, rest.as_slice())
}

fn piece_at(alloc: Global, piece: u32, terms: &[u32]) -> Result<Instance, AllocError>
    ensures { IfOk result (λ i. i ≡ Of piece terms.now) }
{
    let terms = Items::from_slice(alloc, terms)?;
    Ok(Instance::Of { piece, terms })
}

fn congruent_at(
    alloc: Global,
    symbol: u32,
    place: u32,
    terms: &[u32],
    u: u32,
) -> Result<Instance, AllocError>
    ensures { IfOk result (λ i. i ≡ Congruent symbol place terms.now u) }
{
    let terms = Items::from_slice(alloc, terms)?;
    Ok(Instance::Congruent {
        symbol,
        place,
        terms,
        u,
    })
}

fn push_piece(
    alloc: Global,
    piece: u32,
    tuples: &[Items<u32>],
    all: &mut Items<Instance>,
) -> Result<(), AllocError>
    ensures { OnOk result (all.new ≡ all.old ++ map (Of piece) tuples.now) }
{
    for terms in tuples {
        all.push(piece_at(alloc, piece, terms.as_slice())?)?;
    }
    Ok(())
}

fn push_pieces(
    alloc: Global,
    universe: &Universe,
    pieces: &[Piece],
    all: &mut Items<Instance>,
) -> Result<(), AllocError>
    ensures { OnOk result (all.new ≡ all.old ++ flat_map (piece_instances universe.now) (enumerate_from 0 pieces.now)) }
{
    for (k, piece) in pieces.iter().enumerate() {
        let Ok(number) = u32::try_from(k) else {
            return Err(AllocError);
        };
        let tuples = choices(alloc, universe, piece.vars.as_slice())?;
        push_piece(alloc, number, tuples.as_slice(), all)?;
    }
    Ok(())
}

fn push_reflexive(sort: u32, n: u32, all: &mut Items<Instance>) -> Result<(), AllocError>
    ensures { OnOk result (all.new ≡ all.old ++ map (Reflexive sort) (range_with_len 0 n)) }
{
    for t in 0..n {
        all.push(Instance::Reflexive { sort, t })?;
    }
    Ok(())
}

fn push_symmetric_with(
    sort: u32,
    n: u32,
    t: u32,
    all: &mut Items<Instance>,
) -> Result<(), AllocError>
    ensures { OnOk result (all.new ≡ all.old ++ map (Symmetric sort t) (range_with_len 0 n)) }
{
    for u in 0..n {
        all.push(Instance::Symmetric { sort, t, u })?;
    }
    Ok(())
}

fn push_symmetric(sort: u32, n: u32, all: &mut Items<Instance>) -> Result<(), AllocError>
    ensures { OnOk result (all.new ≡ all.old ++ flat_map (λ t. map (Symmetric sort t) (range_with_len 0 n)) (range_with_len 0 n)) }
{
    for t in 0..n {
        push_symmetric_with(sort, n, t, all)?;
    }
    Ok(())
}

fn push_transitive_over(
    sort: u32,
    n: u32,
    t: u32,
    u: u32,
    all: &mut Items<Instance>,
) -> Result<(), AllocError>
    ensures { OnOk result (all.new ≡ all.old ++ map (Transitive sort t u) (range_with_len 0 n)) }
{
    for v in 0..n {
        all.push(Instance::Transitive { sort, t, u, v })?;
    }
    Ok(())
}

fn push_transitive_with(
    sort: u32,
    n: u32,
    t: u32,
    all: &mut Items<Instance>,
) -> Result<(), AllocError>
    ensures { OnOk result (all.new ≡ all.old ++ flat_map (λ u. map (Transitive sort t u) (range_with_len 0 n)) (range_with_len 0 n)) }
{
    for u in 0..n {
        push_transitive_over(sort, n, t, u, all)?;
    }
    Ok(())
}

fn push_transitive(sort: u32, n: u32, all: &mut Items<Instance>) -> Result<(), AllocError>
    ensures { OnOk result (all.new ≡ all.old ++ flat_map (λ t. flat_map (λ u. map (Transitive sort t u) (range_with_len 0 n)) (range_with_len 0 n)) (range_with_len 0 n)) }
{
    for t in 0..n {
        push_transitive_with(sort, n, t, all)?;
    }
    Ok(())
}

fn push_equality(
    universe: &Universe,
    sort: u32,
    all: &mut Items<Instance>,
) -> Result<(), AllocError>
    ensures { OnOk result (all.new ≡ all.old ++ equality_instances universe.now sort) }
{
    let n = count(universe, sort)?;
    push_reflexive(sort, n, all)?;
    push_symmetric(sort, n, all)?;
    push_transitive(sort, n, all)
}

fn push_equalities(
    universe: &Universe,
    sorts: u32,
    all: &mut Items<Instance>,
) -> Result<(), AllocError>
    ensures { OnOk result (all.new ≡ all.old ++ flat_map (equality_instances universe.now) (range_with_len 0 sorts)) }
{
    for sort in 0..sorts {
        push_equality(universe, sort, all)?;
    }
    Ok(())
}

fn push_congruent_to(
    alloc: Global,
    symbol: u32,
    place: u32,
    n: u32,
    terms: &[u32],
    all: &mut Items<Instance>,
) -> Result<(), AllocError>
    ensures { OnOk result (all.new ≡ all.old ++ map (Congruent symbol place terms.now) (range_with_len 0 n)) }
{
    for u in 0..n {
        all.push(congruent_at(alloc, symbol, place, terms, u)?)?;
    }
    Ok(())
}

fn push_congruent_at(
    alloc: Global,
    symbol: u32,
    place: u32,
    n: u32,
    tuples: &[Items<u32>],
    all: &mut Items<Instance>,
) -> Result<(), AllocError>
    ensures { OnOk result (all.new ≡ all.old ++ flat_map (λ (ns : List ℕ). map (Congruent symbol place ns) (range_with_len 0 n)) tuples.now) }
{
    for terms in tuples {
        push_congruent_to(alloc, symbol, place, n, terms.as_slice(), all)?;
    }
    Ok(())
}

fn push_congruence(
    alloc: Global,
    universe: &Universe,
    symbol: u32,
    sorts: &[u32],
    tuples: &[Items<u32>],
    all: &mut Items<Instance>,
) -> Result<(), AllocError>
    ensures { OnOk result (all.new ≡ all.old ++ flat_map (congruence_at universe.now symbol tuples.now) (enumerate_from 0 sorts.now)) }
{
    for (k, sort) in sorts.iter().enumerate() {
        let Ok(place) = u32::try_from(k) else {
            return Err(AllocError);
        };
        let n = count(universe, *sort)?;
        push_congruent_at(alloc, symbol, place, n, tuples, all)?;
    }
    Ok(())
}

fn push_congruences(
    alloc: Global,
    universe: &Universe,
    symbols: &[Symbol],
    all: &mut Items<Instance>,
) -> Result<(), AllocError>
    ensures { OnOk result (all.new ≡ all.old ++ flat_map (congruence_instances universe.now) (enumerate_from 0 symbols.now)) }
{
    for (k, symbol) in symbols.iter().enumerate() {
        let Ok(number) = u32::try_from(k) else {
            return Err(AllocError);
        };
        let tuples = choices(alloc, universe, symbol.args.as_slice())?;
        push_congruence(
            alloc,
            universe,
            number,
            symbol.args.as_slice(),
            tuples.as_slice(),
            all,
        )?;
    }
    Ok(())
}

/// All instances in order, in a list with room for so many.
fn list_instances(
    alloc: Global,
    set: &SkolemSet,
    universe: &Universe,
    room: usize,
) -> Result<Items<Instance>, AllocError>
    ensures { IfOk result (λ is. is ≡ instances_of set.now universe.now) }
{
    let mut all = Items::from_vec(Vec::with_capacity(alloc, room)?);
    let Ok(sorts) = u32::try_from(set.signature.sorts.len()) else {
        return Err(AllocError);
    };
    push_pieces(alloc, universe, set.pieces.as_slice(), &mut all)?;
    push_equalities(universe, sorts, &mut all)?;
    push_congruences(alloc, universe, set.signature.symbols.as_slice(), &mut all)?;
    Ok(all)
}

/// All instances in order: the pieces by number, each with its terms lexicographically; then per sort
/// reflexivity, symmetry and transitivity; then congruence per symbol and place.
pub fn all_instances(
    alloc: Global,
    set: &SkolemSet,
    universe: &Universe,
) -> Result<Items<Instance>, GroundError>
    ensures { MatchResult result (λ is. (is ≡ instances_of set.now universe.now) × (length is ≤ MOST_INSTANCES)) (IsGroundFault set.now universe.now) }
{
    let Ok(count) = count_all(alloc, set, universe) else {
        return Err(GroundError::Memory);
    };
    if count > MOST_INSTANCES as u128 {
        return Err(GroundError::TooLarge { count });
    }
    match list_instances(alloc, set, universe, count as usize) {
        Ok(all) => Ok(all),
        Err(_) => Err(GroundError::Memory),
    }
}
