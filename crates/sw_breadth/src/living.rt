//! Whether a round was the last one.
ghost use Rattle.std.specs.Prelude.{◌≡◌, ◌<◌, ◌≤◌, true, false, IfOk, length, take};
ghost use Rattle.std.specs.List.{AllByRecursion};
ghost use Rattle.sw_meaning.specs.WellFormed.{IsWellFormed};
ghost use Rattle.sw_filter.specs.declared.filter.Mode.TheVariants.{Breadth};
ghost use Rattle.sw_filter.specs.Filters.{AreNarrow};
ghost use Rattle.sw_core.specs.Machine.{parts_in};
ghost use Rattle.sw_core.specs.Gathered.{formulas_of as gathered_formulas};
ghost use Rattle.sw_hand.specs.Hands.{search_of, Serves};
ghost use Rattle.sw_walk.specs.Parts.{IsClass};
ghost use Rattle.sw_breadth.specs.Joins.{IsWholeRound};
ghost use Rattle.sw_breadth.specs.Records.{AreLiveAt, IsLiveShare, IsLiveRound};

use sqlite_items::at;
use std::alloc::{AllocError, Global};
use sw_core::{Entry, Kept};
use sw_filter::{Candidates, Mode, is_live};
use sw_hand::{Handed, Task};
use sw_logic::Formula;
use sw_meaning::Protocol;
use sw_walk::Walk;

/// Whether the filters at these places are kept ones of the share, and live.
fn are_live(
    protocol: &Protocol,
    list: &[Formula],
    before: u32,
    kept: &[Kept],
    places: &[u32],
) -> bool
    requires well_formed { IsWellFormed protocol.now }
    requires narrow { AreNarrow list.now }
    ensures { result ≡ true → AreLiveAt protocol.now list.now before kept.now places.now }
{
    for place in places {
        let Some(own) = place.checked_sub(before) else {
            return false;
        };
        let Some(kept) = at(kept, own as usize) else {
            return false;
        };
        if !is_live(protocol, Mode::Breadth, list, &kept.filter) {
            return false;
        }
    }
    true
}

/// Whether all parts of a share are settled by filters that are live.
fn is_live_share(protocol: &Protocol, list: &[Formula], before: u32, share: &Handed) -> bool
    requires well_formed { IsWellFormed protocol.now }
    requires narrow { AreNarrow list.now }
    ensures { result ≡ true → IsLiveShare protocol.now list.now before share.now }
{
    for settled in share.settled.as_slice() {
        if !are_live(
            protocol,
            list,
            before,
            share.kept.as_slice(),
            settled.by.as_slice(),
        ) {
            return false;
        }
    }
    true
}

/// Whether all parts are settled by filters that are live.
fn are_live_shares(protocol: &Protocol, list: &[Formula], before: u32, shares: &[Handed]) -> bool
    requires well_formed { IsWellFormed protocol.now }
    requires narrow { AreNarrow list.now }
    ensures { result ≡ true → AllByRecursion (IsLiveShare protocol.now list.now before) shares.now }
{
    for share in shares {
        if !is_live_share(protocol, list, before, share) {
            return false;
        }
    }
    true
}

/// The formulas of the entries.
fn formulas_of<B: Candidates + Walk>(
    alloc: Global,
    task: &Task<'_, B>,
    entries: &[Entry],
) -> Result<Vec<Formula>, AllocError>
    requires serves { Serves (search_of task.now.protocol.now (B.template task.now.space.now) Breadth task.now.workers) (B.part_lists task.now.space.now) (B.has task.now.space.now) (B.formula_of task.now.space.now) }
    requires classes { AllByRecursion (λ e. IsClass (B.part_lists task.now.space.now) e.body) entries.now }
    ensures formulas { IfOk result (λ formulas. formulas.items ≡ gathered_formulas (search_of task.now.protocol.now (B.template task.now.space.now) Breadth task.now.workers) entries.now) }
    ensures narrow { IfOk result (λ formulas. AreNarrow formulas.items) }
{
    let mut formulas = Vec::new(alloc);
    for entry in entries {
        formulas.push(task.space.formula(alloc, &entry.body)?)?;
    }
    Ok(formulas)
}

/// Whether the round gained nothing, or all parts are settled by filters that are live under the whole
/// log. `since` is the log's length at the round's start.
pub(crate) fn is_last<B: Candidates + Walk>(
    alloc: Global,
    task: &Task<'_, B>,
    before: u32,
    since: usize,
    log: &[Entry],
    shares: &[Handed],
) -> Result<bool, AllocError>
    requires serves { Serves (search_of task.now.protocol.now (B.template task.now.space.now) Breadth task.now.workers) (B.part_lists task.now.space.now) (B.has task.now.space.now) (B.formula_of task.now.space.now) }
    requires classes { AllByRecursion (λ e. IsClass (B.part_lists task.now.space.now) e.body) log.now }
    requires whole { IsWholeRound (search_of task.now.protocol.now (B.template task.now.space.now) Breadth task.now.workers) task.now.pool.now before (take since log.now) log.now shares.now }
    requires since { since ≤ length log.now }
    ensures last { IfOk result (λ last. last ≡ true → IsLiveRound (search_of task.now.protocol.now (B.template task.now.space.now) Breadth task.now.workers) before log.now shares.now) }
    ensures more { IfOk result (λ last. last ≡ false → since < length log.now) }
{
    if log.len() == since {
        return Ok(true);
    }
    let formulas = formulas_of(alloc, task, log)?;
    Ok(are_live_shares(task.protocol, &formulas, before, shares))
}
