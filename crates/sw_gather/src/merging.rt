//! Where a worker's filters stand among all, and its settlements by these places.
ghost use Rattle.std.specs.Prelude.{◌≡◌, ◌+◌, ◌<◌, IfOk, Some, length, map, slice_get};
ghost use Rattle.std.specs.List.{AllByRecursion, AllZip};
ghost use Rattle.sw_pool.specs.Pools.{IsShown, filter_of};
ghost use Rattle.sw_core.specs.Machine.{AreBelow};
ghost use Rattle.sw_gather.specs.Gathers.{AreAt, IsMovedBy, moved_by, shown_by};

use sqlite_items::{Items, at};
use std::alloc::{AllocError, Global};
use sw_core::Settled;
use sw_pool::{Pool, Seen};

/// In a table of places, that there is none.
const NONE: u32 = u32::MAX;

/// Adds that the token's index has this place.
fn put(table: &mut Vec<u32>, token: &Seen, place: u32) -> Result<(), AllocError> {
    let index = Pool::index(token) as usize;
    while table.len() <= index {
        table.push(NONE)?;
    }
    table[index] = place;
    Ok(())
}

/// For each index of the pool the place of a token that has it. Only the speed of `place_of` depends on it.
pub(crate) fn table_of(alloc: Global, tokens: &[Seen]) -> Result<Vec<u32>, AllocError> {
    let mut table = Vec::new(alloc);
    for place in 0..tokens.len() {
        let Ok(number) = u32::try_from(place) else {
            return Err(AllocError);
        };
        put(&mut table, &tokens[place], number)?;
    }
    Ok(table)
}

/// The place of a token with this one's index, which the table has.
fn place_of(pool: &Pool, table: &[u32], tokens: &[Seen], token: &Seen) -> Result<u32, AllocError>
    requires all { AllByRecursion (IsShown pool.now) tokens.now }
    requires shown { IsShown pool.now token.now }
    ensures { IfOk result (λ place. slice_get (shown_by tokens.now) place ≡ Some (filter_of token.now)) }
{
    let Some(place) = at(table, Pool::index(token) as usize) else {
        return Err(AllocError);
    };
    let Some(other) = at(tokens, *place as usize) else {
        return Err(AllocError);
    };
    if Pool::index(other) != Pool::index(token) {
        return Err(AllocError);
    }
    pool.agree(other, token);
    Ok(*place)
}

/// The places of a worker's filters among all.
pub(crate) fn places_of(
    alloc: Global,
    pool: &Pool,
    table: &[u32],
    tokens: &[Seen],
    own: &[Seen],
) -> Result<Vec<u32>, AllocError>
    requires all { AllByRecursion (IsShown pool.now) tokens.now }
    requires own { AllByRecursion (IsShown pool.now) own.now }
    ensures { IfOk result (λ places. AreAt (shown_by tokens.now) (shown_by own.now) places.items) }
{
    let mut places = Vec::new(alloc);
    for token in own {
        places.push(place_of(pool, table, tokens, token)?)?;
    }
    Ok(places)
}

/// A place among the filters before and a worker's own, as a place among all.
fn moved(before: u32, places: &[u32], place: u32) -> Result<u32, AllocError>
    ensures moved { IfOk result (λ moved. moved ≡ moved_by before places.now place) }
    ensures within { IfOk result (λ _. place < before + length places.now) }
{
    if place < before {
        return Ok(place);
    }
    match at(places, (place - before) as usize) {
        Some(moved) => Ok(*moved),
        None => Err(AllocError),
    }
}

fn moved_all(alloc: Global, before: u32, places: &[u32], by: &[u32]) -> Result<Vec<u32>, AllocError>
    ensures moved { IfOk result (λ moved. moved.items ≡ map (moved_by before places.now) by.now) }
    ensures within { IfOk result (λ _. AreBelow (before + length places.now) by.now) }
{
    let mut all = Vec::new(alloc);
    for place in by {
        all.push(moved(before, places, *place)?)?;
    }
    Ok(all)
}

/// A settlement with its places among all filters, rising.
fn merged(
    alloc: Global,
    before: u32,
    places: &[u32],
    settled: &Settled,
) -> Result<Settled, AllocError>
    ensures { IfOk result (IsMovedBy before places.now settled.now) }
{
    let mut by = moved_all(alloc, before, places, settled.by.as_slice())?;
    by.sort_unstable();
    Ok(Settled {
        part: settled.part,
        worker: settled.worker,
        under: settled.under,
        by: Items::from_vec(by),
    })
}

/// A worker's settlements with their places among all filters, each list rising.
pub(crate) fn merged_all(
    alloc: Global,
    before: u32,
    places: &[u32],
    settled: &[Settled],
) -> Result<Items<Settled>, AllocError>
    ensures { IfOk result (λ all. AllZip (IsMovedBy before places.now) settled.now all) }
{
    let mut all = Items::new(alloc);
    for one in settled {
        all.push(merged(alloc, before, places, one)?)?;
    }
    Ok(all)
}
