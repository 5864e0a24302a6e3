//! One round of workers that look for a class that joins.
ghost use Rattle.std.specs.Prelude.{◌≡◌, ◌≤◌, length, IfOk, IfErr};
ghost use Rattle.sw_filter.specs.declared.filter.Mode.TheVariants.{Finish as FinishMode};
ghost use Rattle.sw_hand.specs.Hands.{search_of};
ghost use Rattle.sw_seek.specs.Seeking.{CanFinish, IsCause};
ghost use Rattle.sw_finish.specs.Finished.{IsFinished};
ghost use Rattle.std.specs.List.{AllByRecursion};
ghost use Rattle.sw_gather.specs.Gathers.{HasTokens};
ghost use Rattle.sw_finish.specs.Joins.{others_of};
ghost use Rattle.sw_finish.specs.Shares.{IsOneRound};

use crate::finding::Finder;
use crate::joining::Joined;
use sqlite_items::Items;
use std::alloc::{AllocError, Global};
use std::sync::Wait;
use std::thread::Threads;
use sw_claims::{ClaimSeat, Claims};
use sw_core::Record;
use sw_edge::Gate;
use sw_filter::{Candidates, Mode};
use sw_gather::gather;
use sw_hand::{Handed, Task};
use sw_logic::Formula;
use sw_meaning::Protocol;
use sw_pool::Pool;
use sw_seek::FinishError;
use sw_template::Body;
use sw_truth::Refutation;
use sw_walk::Walk;

/// A class that joins, with the refutations that show it, or the record of a search of every part
/// that found none.
#[derive(Drop)]
pub enum Finished {
    Joined {
        body: Body,
        start: Refutation,
        steps: Items<Refutation>,
    },
    Exhausted(Record),
}

/// How many seats there are besides the first: a worker alone uses that one itself.
fn others(workers: u32) -> u32
    ensures { result ≡ others_of workers }
{
    if workers == 1 { 0 } else { workers }
}

/// The record of a round of these shares, in which nothing was appended to a list of this length.
fn one_round(
    alloc: Global,
    pool: &Pool,
    log: usize,
    shares: &[Handed],
) -> Result<Record, AllocError>
    requires tokens { AllByRecursion (HasTokens pool.now) shares.now }
    ensures { IfOk result (IsOneRound log shares.now) }
{
    let Ok(log) = u32::try_from(log) else {
        return Err(AllocError);
    };
    let mut tokens = Vec::new(alloc);
    let round = gather(alloc, pool, log, &mut tokens, shares)?;
    let mut rounds = Items::new(alloc);
    rounds.push(round)?;
    Ok(Record {
        entries: Items::new(alloc),
        rounds,
    })
}

impl<'a, 'b, G: Gate + Sync, B: Candidates + Walk + Sync> Finder<'a, 'b, G, B> {
    ghost use Rattle.sw_finish.specs.Joins.{CanFind, IsOver, searched};

    /// The answer of workers that were joined. A stop alone is not what they came to: whoever wrote its
    /// reason found a class or met an error.
    fn conclude(
        &self,
        alloc: Global,
        claims: Claims,
        first: ClaimSeat,
        joined: Joined,
    ) -> Result<Finished, FinishError>
        requires can { CanFind B.template B.part_lists B.has B.formula_of self.now }
        requires over { IsOver (searched B.template self.now) self.now.task.now.pool.now self.now.entries.now self.now.budget claims first joined }
        ensures finished { IfOk result (IsFinished (searched B.template self.now) self.now.entries.now self.now.budget) }
        ensures cause { IfErr result (IsCause (searched B.template self.now) self.now.entries.now self.now.budget) }
    {
        match joined {
            Joined::Found { body, start, steps } => Ok(Finished::Joined { body, start, steps }),
            Joined::Failed(error) => Err(error),
            Joined::Stopped => {
                claims.close(first);
                unreachable!();
            }
            Joined::Whole(shares) => {
                claims.close(first);
                let record_ = one_round(
                    alloc,
                    self.task.pool,
                    self.entries.len(),
                    shares.as_slice(),
                )?;
                Ok(Finished::Exhausted(record_))
            }
        }
    }
}

/// Looks for a class that joins under the entries: `workers` workers draw the parts of the space and
/// share their filters. The gate is passed after each draw. A class that joins and an error stop the
/// others; where some worker found one, the answer is that of the least such worker, and else the
/// error of the least worker that met one.
pub fn finish<H: Threads + Wait + Sync, G: Gate + Sync, B: Candidates + Walk + Sync>(
    rt: &H,
    alloc: Global,
    protocol: &Protocol,
    space: &B,
    entries: &[Formula],
    workers: u32,
    budget: Option<u64>,
    gate: &G,
) -> Result<Finished, FinishError>
    requires workers { (1 ≤ workers) × (workers ≤ 64) }
    requires can { CanFinish protocol.now (B.template space.now) (B.part_lists space.now) (B.has space.now) (B.formula_of space.now) entries.now budget }
    requires few { length (B.part_lists space.now) ≤ 8589934592 }
    ensures finished { IfOk result (IsFinished (search_of protocol.now (B.template space.now) FinishMode workers) entries.now budget) }
    ensures cause { IfErr result (IsCause (search_of protocol.now (B.template space.now) FinishMode workers) entries.now budget) }
{
    let pool = Pool::new(alloc)?;
    let task = Task {
        protocol,
        space,
        pool: &pool,
        mode: Mode::Finish,
        workers,
        worker: 0,
    };
    let finder = Finder {
        task: &task,
        entries,
        budget,
        gate,
    };
    let seats = others(workers) + 1;
    let (claims, mut first) = Claims::new(alloc, space.parts(), seats)?;
    let joined = finder.find(rt, alloc, &claims, &mut first)?;
    finder.conclude(alloc, claims, first, joined)
}
