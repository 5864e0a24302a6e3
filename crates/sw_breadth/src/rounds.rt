//! Rounds of workers, until each part is settled by filters that are live under the whole log.
ghost use Rattle.std.specs.Prelude.{◌≡◌, ◌≤◌, true, false, length, IfOk, IfErr};
ghost use Rattle.std.specs.List.{AllByRecursion};
ghost use Rattle.sw_meaning.specs.Plain.{PlainList};
ghost use Rattle.sw_filter.specs.declared.filter.Mode.TheVariants.{Breadth};
ghost use Rattle.sw_pool.specs.Pools.{IsShown};
ghost use Rattle.sw_gather.specs.Gathers.{HasTokens};
ghost use Rattle.sw_walk.specs.Parts.{classes_of};
ghost use Rattle.sw_hand.specs.Hands.{search_of};
ghost use Rattle.sw_work.specs.Works.{CanSearch, bodies_of};
ghost use Rattle.sw_breadth.specs.Records.{HasRound, HaveRun, StaysPlain};
ghost use Rattle.sw_breadth.specs.Rounds.{IsGathered, IsCause, IsOnTheWay, listed};

use crate::living::is_last;
use crate::working::{Ended, run};
use sqlite_items::Items;
use std::alloc::{AllocError, Global};
use std::sync::Wait;
use std::thread::Threads;
use sw_core::{Entry, Record, Round};
use sw_edge::Gate;
use sw_filter::{Candidates, Mode};
use sw_gather::gather;
use sw_hand::{Handed, Task};
use sw_meaning::Protocol;
use sw_pool::{Pool, Seen};
use sw_walk::Walk;
use sw_work::BreadthError;

/// The rounds so far: the log, their records, and tokens of the filters that they kept.
#[derive(Drop)]
struct Made {
    log: Vec<Entry>,
    rounds: Items<Round>,
    tokens: Vec<Seen>,
}

/// The rounds with one more, of these shares.
fn with_round(
    alloc: Global,
    pool: &Pool,
    rounds: Items<Round>,
    tokens: Vec<Seen>,
    log: Vec<Entry>,
    shares: &[Handed],
) -> Result<Made, AllocError>
    requires shown { AllByRecursion (IsShown pool.now) tokens.items }
    requires tokens { AllByRecursion (HasTokens pool.now) shares.now }
    ensures log { IfOk result (λ next. next.log.items ≡ log.items) }
    ensures round { IfOk result (λ next. HasRound tokens.items next.tokens.items rounds next.rounds (length log.items) shares.now) }
    ensures shown { IfOk result (λ next. AllByRecursion (IsShown pool.now) next.tokens.items) }
{
    let Ok(length) = u32::try_from(log.len()) else {
        return Err(AllocError);
    };
    let mut tokens = tokens;
    let round = gather(alloc, pool, length, &mut tokens, shares)?;
    let mut rounds = rounds;
    rounds.push(round)?;
    Ok(Made {
        log,
        rounds,
        tokens,
    })
}

/// Makes one round more; whether it is the last one.
fn next_round<H: Threads + Wait + Sync, G: Gate + Sync, B: Candidates + Walk + Sync>(
    rt: &H,
    alloc: Global,
    task: &Task<'_, B>,
    made: Made,
    budget: Option<u64>,
    gate: &G,
) -> Result<(bool, Made), BreadthError>
    requires mode { task.now.mode ≡ Breadth }
    requires can { CanSearch task.now.protocol.now (B.template task.now.space.now) (B.part_lists task.now.space.now) (B.has task.now.space.now) (B.formula_of task.now.space.now) budget }
    requires few { length (B.part_lists task.now.space.now) ≤ 8589934592 }
    requires worker { task.now.worker ≡ 0 }
    requires workers { (1 ≤ task.now.workers) × (task.now.workers ≤ 64) }
    requires run { HaveRun (search_of task.now.protocol.now (B.template task.now.space.now) Breadth task.now.workers) task.now.pool.now made.log.items made.rounds made.tokens.items }
    requires plain { StaysPlain (search_of task.now.protocol.now (B.template task.now.space.now) Breadth task.now.workers) made.log.items }
    ensures last { IfOk result (λ next. next.0 ≡ true → IsGathered (search_of task.now.protocol.now (B.template task.now.space.now) Breadth task.now.workers) (record { entries = next.1.log.items; rounds = next.1.rounds })) }
    ensures last_plain { IfOk result (λ next. next.0 ≡ true → task.now.workers ≡ 1 → PlainList task.now.protocol.now (B.template task.now.space.now) (classes_of (bodies_of next.1.log.items))) }
    ensures more { IfOk result (λ next. next.0 ≡ false → HaveRun (search_of task.now.protocol.now (B.template task.now.space.now) Breadth task.now.workers) task.now.pool.now next.1.log.items next.1.rounds next.1.tokens.items) }
    ensures more_plain { IfOk result (λ next. next.0 ≡ false → StaysPlain (search_of task.now.protocol.now (B.template task.now.space.now) Breadth task.now.workers) next.1.log.items) }
    ensures cause { IfErr result (IsCause (search_of task.now.protocol.now (B.template task.now.space.now) Breadth task.now.workers) budget) }
    ensures on_the_way { IfErr result (λ e. task.now.workers ≡ 1 → IsOnTheWay (search_of task.now.protocol.now (B.template task.now.space.now) Breadth task.now.workers) e) }
{
    let Ok(before) = u32::try_from(made.tokens.len()) else {
        return Err(BreadthError::Memory);
    };
    let Made {
        log,
        rounds,
        tokens,
    } = made;
    let since = log.len();
    let Ended { log, shares } = run(rt, alloc, task, log, before, budget, gate)?;
    let last = is_last(alloc, task, before, since, &log, shares.as_slice())?;
    let made = with_round(alloc, task.pool, rounds, tokens, log, shares.as_slice())?;
    Ok((last, made))
}

/// Closes the space: rounds of `workers` workers, who draw its parts, share their filters and append to
/// one log, until every part is settled by filters that are live under the whole log. The gate is passed
/// after each draw. An error of one worker stops the others; the answer is that of the least worker
/// that met one.
pub fn breadth<H: Threads + Wait + Sync, G: Gate + Sync, B: Candidates + Walk + Sync>(
    rt: &H,
    alloc: Global,
    protocol: &Protocol,
    space: &B,
    workers: u32,
    budget: Option<u64>,
    gate: &G,
) -> Result<Record, BreadthError>
    requires workers { (1 ≤ workers) × (workers ≤ 64) }
    requires can { CanSearch protocol.now (B.template space.now) (B.part_lists space.now) (B.has space.now) (B.formula_of space.now) budget }
    requires few { length (B.part_lists space.now) ≤ 8589934592 }
    ensures gathered { IfOk result (IsGathered (search_of protocol.now (B.template space.now) Breadth workers)) }
    ensures plain { IfOk result (λ r. workers ≡ 1 → PlainList protocol.now (B.template space.now) (listed r)) }
    ensures cause { IfErr result (IsCause (search_of protocol.now (B.template space.now) Breadth workers) budget) }
    ensures on_the_way { IfErr result (λ e. workers ≡ 1 → IsOnTheWay (search_of protocol.now (B.template space.now) Breadth workers) e) }
{
    let pool = Pool::new(alloc)?;
    let task = Task {
        protocol,
        space,
        pool: &pool,
        mode: Mode::Breadth,
        workers,
        worker: 0,
    };
    let mut made = Made {
        log: Vec::new(alloc),
        rounds: Items::new(alloc),
        tokens: Vec::new(alloc),
    };
    for _ in rt.forever() {
        let (last, next) = next_round(rt, alloc, &task, made, budget, gate)?;
        if last {
            let Made {
                log,
                rounds,
                tokens: _,
            } = next;
            let entries = Items::from_vec(log);
            return Ok(Record { entries, rounds });
        }
        made = next;
    }
    unreachable!()
}
