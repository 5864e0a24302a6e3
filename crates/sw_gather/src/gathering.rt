//! The record of a round.
ghost use Rattle.std.specs.Prelude.{◌≡◌, ◌≤◌, IfOk, length, map};
ghost use Rattle.std.specs.List.{AllByRecursion};
ghost use Rattle.sw_pool.specs.Pools.{IsShown};
ghost use Rattle.sw_gather.specs.Gathers.{AreSettledOf, HasTokens, IsRoundOf, shown_by};

use crate::keeping::keep_all;
use crate::merging::{merged_all, places_of, table_of};
use sqlite_items::Items;
use std::alloc::{AllocError, Global};
use sw_core::{Round, Settled};
use sw_hand::Handed;
use sw_pool::{Pool, Seen};

/// The settlements of all workers, with their places among all filters.
fn settle_all(
    alloc: Global,
    pool: &Pool,
    before: u32,
    tokens: &[Seen],
    shares: &[Handed],
) -> Result<Items<Settled>, AllocError>
    requires tokens { AllByRecursion (HasTokens pool.now) shares.now }
    requires shown { AllByRecursion (IsShown pool.now) tokens.now }
    ensures { IfOk result (AreSettledOf before (shown_by tokens.now) shares.now) }
{
    let table = table_of(alloc, tokens)?;
    let mut all = Items::new(alloc);
    for share in shares {
        let places = places_of(alloc, pool, &table, tokens, &share.tokens)?;
        all.append(merged_all(alloc, before, &places, share.settled.as_slice())?)?;
    }
    Ok(all)
}

/// The parts that each worker drew.
fn draw_all(alloc: Global, shares: &[Handed]) -> Result<Items<Items<u64>>, AllocError>
    ensures { IfOk result (λ all. all ≡ map (λ h. h.drawn) shares.now) }
{
    let mut all = Items::new(alloc);
    for share in shares {
        all.push(Items::from_slice(alloc, share.drawn.as_slice())?)?;
    }
    Ok(all)
}

/// The record of a round of these shares, after the filters that the tokens show and with the log's
/// length at its end. The tokens show the filters of the round too then.
pub fn gather(
    alloc: Global,
    pool: &Pool,
    log: u32,
    tokens: &mut Vec<Seen>,
    shares: &[Handed],
) -> Result<Round, AllocError>
    requires tokens { AllByRecursion (HasTokens pool.now) shares.now }
    requires shown { AllByRecursion (IsShown pool.now) tokens.old.items }
    ensures round { IfOk result (IsRoundOf (shown_by tokens.old.items) log shares.now (shown_by tokens.new.items)) }
    ensures shown { IfOk result (λ _. AllByRecursion (IsShown pool.now) tokens.new.items) }
{
    let Ok(before) = u32::try_from(tokens.len()) else {
        return Err(AllocError);
    };
    let kept = keep_all(alloc, pool, tokens, shares)?;
    let settled = settle_all(alloc, pool, before, tokens, shares)?;
    let drawn = draw_all(alloc, shares)?;
    Ok(Round {
        drawn,
        kept,
        settled,
        log,
    })
}
