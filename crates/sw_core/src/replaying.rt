//! The steps that a record stands for, and its replay.
ghost use Rattle.std.specs.Prelude.{◌≡◌, ◌↔◌, ◌<◌, ◌≤◌, ◌-◌, ◌^◌, ◌++◌, take, drop, map, length, vec_len, IsTrue, IfOk, ◌+◌};
ghost use Rattle.std.specs.List.{flat_map};
ghost use Rattle.sw_filter.specs.Filters.{AreNarrow};
ghost use Rattle.sw_core.specs.Machine.{start, AreAccepted};
ghost use Rattle.sw_core.specs.Records.{steps_of, round_steps, draws_of, entry_steps, publish_step, settle_steps, Rises, IsRecord};
ghost use Rattle.sw_core.specs.Draws.{pair, draw_step};
ghost use Rattle.sw_core.specs.States.{search_of};
ghost use Rattle.sw_template.specs.Prefix.{variable_count};
ghost use Rattle.sw_enumerate.specs.Spaces.{IsFor};
ghost use Rattle.sw_meaning.specs.WellFormed.{IsWellFormed};

use crate::copy::{copy_kept, copy_settled};
use crate::draws::Drawn;
use crate::record::{Entry, Kept, Record, Round, Settled};
use crate::state::State;
use crate::steps::Step;
use sqlite_items::Items;
use std::alloc::{AllocError, Global};
use sw_enumerate::Space;
use sw_filter::Mode;
use sw_log::copy_body;
use sw_logic::Formula;
use sw_meaning::Protocol;

fn push_numbers(numbers: &[u64], worker: u32, draws: &mut Vec<Drawn>) -> Result<(), AllocError>
    ensures { IfOk result (λ _. draws.new.items ≡ draws.old.items ++ map (λ n. pair n worker) numbers.now) }
{
    for number in numbers {
        draws.push(Drawn {
            number: *number,
            worker,
        })?;
    }
    Ok(())
}

fn push_sorted(draws: &[Drawn], steps: &mut Vec<Step>) -> Result<(), AllocError>
    ensures { IfOk result (λ _. steps.new.items ≡ steps.old.items ++ map draw_step draws.now) }
{
    for draw in draws {
        steps.push(Step::Draw(draw.worker))?;
    }
    Ok(())
}

/// The draws of a round, by number, and those of one number by worker.
fn push_draws(alloc: Global, drawn: &[Items<u64>], steps: &mut Vec<Step>) -> Result<(), AllocError>
    requires { length drawn.now < 2 ^ 32 }
    ensures { IfOk result (λ _. steps.new.items ≡ steps.old.items ++ draws_of drawn.now) }
{
    let mut draws = Vec::new(alloc);
    for worker in 0..drawn.len() as u32 {
        push_numbers(drawn[worker as usize].as_slice(), worker, &mut draws)?;
    }
    draws.sort()?;
    push_sorted(draws.as_slice(), steps)?;
    Ok(())
}

fn push_entries(alloc: Global, entries: &[Entry], steps: &mut Vec<Step>) -> Result<(), AllocError>
    ensures { IfOk result (λ _. steps.new.items ≡ steps.old.items ++ flat_map entry_steps entries.now) }
{
    for entry in entries {
        steps.push(Step::Look(entry.worker))?;
        steps.push(Step::Append(entry.worker, copy_body(alloc, &entry.body)?))?;
    }
    Ok(())
}

fn push_published(alloc: Global, all: &[Kept], steps: &mut Vec<Step>) -> Result<(), AllocError>
    ensures { IfOk result (λ _. steps.new.items ≡ steps.old.items ++ map publish_step all.now) }
{
    for kept in all {
        steps.push(Step::Publish(kept.worker, copy_kept(alloc, kept)?))?;
    }
    Ok(())
}

fn push_settled(alloc: Global, all: &[Settled], steps: &mut Vec<Step>) -> Result<(), AllocError>
    ensures { IfOk result (λ _. steps.new.items ≡ steps.old.items ++ flat_map settle_steps all.now) }
{
    for settled in all {
        steps.push(Step::Look(settled.worker))?;
        steps.push(Step::Settle(settled.worker, copy_settled(alloc, settled)?))?;
    }
    Ok(())
}

fn push_round(
    alloc: Global,
    entries: &[Entry],
    from: usize,
    to: usize,
    round: &Round,
    steps: &mut Vec<Step>,
) -> Result<(), AllocError>
    requires few { length round.now.drawn < 2 ^ 32 }
    requires rise { from ≤ to }
    requires within { to ≤ length entries.now }
    ensures { IfOk result (λ _. steps.new.items ≡ steps.old.items ++ round_steps (take (to - from) (drop from entries.now)) round.now) }
{
    steps.push(Step::Begin)?;
    push_draws(alloc, round.drawn.as_slice(), steps)?;
    push_entries(alloc, &entries[from..to], steps)?;
    push_published(alloc, round.kept.as_slice(), steps)?;
    push_settled(alloc, round.settled.as_slice(), steps)
}

/// Whether the lengths of the log rise through the rounds to that with so many entries after the opening
/// list.
fn rises(at: u32, rounds: &[Round], opening: u32, entries: usize) -> bool
    ensures { IsTrue result ↔ Rises at rounds.now (opening + entries) }
{
    let [round, rest @ ..] = rounds else {
        return at >= opening && (at - opening) as usize == entries;
    };
    at <= round.log
        && round.drawn.len() <= u32::MAX as usize
        && rises(round.log, rest, opening, entries)
}

/// Whether the lengths of the log that a record names are those of its entries after an opening list
/// of so many formulas.
pub fn is_record(kept: &Record, opening: u32) -> bool
    ensures { IsTrue result ↔ IsRecord kept.now opening }
{
    rises(opening, kept.rounds.as_slice(), opening, kept.entries.len())
}

/// The steps of a record, from an opening list of so many formulas.
pub fn steps_of(alloc: Global, kept: &Record, opening: u32) -> Result<Vec<Step>, AllocError>
    requires { IsRecord kept.now opening }
    ensures { IfOk result (λ steps. steps.items ≡ steps_of kept.now opening) }
{
    let mut steps = Vec::new(alloc);
    let mut at: u32 = opening;
    for round in kept.rounds.as_slice() {
        let from = (at - opening) as usize;
        let to = (round.log - opening) as usize;
        push_round(alloc, kept.entries.as_slice(), from, to, round, &mut steps)?;
        at = round.log;
    }
    steps.push(Step::Close)?;
    Ok(steps)
}

/// Takes the steps one after the other; whether all were taken.
fn take_all(state: &mut State, steps: Vec<Step>) -> Result<bool, AllocError>
    ensures { IfOk result (λ all. IsTrue all ↔ AreAccepted state.old.search state.old.board steps.items) }
{
    for step in steps {
        state.reserve(&step)?;
        if !state.step(step) {
            return Ok(false);
        }
    }
    Ok(true)
}

/// Whether the machine takes every step of the record.
pub fn replay(
    alloc: Global,
    protocol: &Protocol,
    space: &Space,
    workers: u32,
    mode: Mode,
    opening: Vec<Formula>,
    kept: &Record,
) -> Result<bool, AllocError>
    requires well_formed { IsWellFormed protocol.now }
    requires space { IsFor space.now protocol.now.signature }
    requires variables { variable_count space.now.template.prefix ≤ 6 }
    requires opening { AreNarrow opening.items }
    requires few { vec_len opening < 2 ^ 32 }
    requires record_ { IsRecord kept.now (vec_len opening) }
    ensures { IfOk result (λ all. IsTrue all ↔ AreAccepted (search_of protocol.now space.now.template mode workers) (start (search_of protocol.now space.now.template mode workers) opening.items) (steps_of kept.now (length opening.items))) }
{
    let count = opening.len() as u32;
    let steps = steps_of(alloc, kept, count)?;
    let mut state = State::new(alloc, protocol, space, workers, mode, opening)?;
    take_all(&mut state, steps)
}
