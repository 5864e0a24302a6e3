//! A round of one worker: it draws parts until the end, and settles each.
ghost use Rattle.std.specs.Prelude.{◌≡◌, ◌≤◌, length, map, IfOk, IfErr};
ghost use Rattle.sw_filter.specs.declared.filter.Mode.TheVariants.{Breadth};
ghost use Rattle.sw_hand.specs.Hands.{search_of, IsHanded};
ghost use Rattle.sw_work.specs.Works.{CanSearch, Gained, IsWorked, IsCause, IsAloneAt, IsOnTheWay, carried};

use crate::bench::{Bench, Desk};
use crate::drawing::{Drew, Progress};
use crate::errors::BreadthError;
use sqlite_items::Items;
use std::alloc::{AllocError, Global};
use std::sync::Wait;
use sw_claims::{ClaimSeat, Claims};
use sw_edge::Gate;
use sw_filter::{Candidates, Shown};
use sw_hand::{Hand, Handed, Task};
use sw_log::{LogSeat, SharedLog};
use sw_walk::Walk;

/// What a round came to: all parts were drawn, or some worker stopped it for this reason.
#[derive(Drop)]
pub enum Worked {
    Done(Handed),
    Stopped(u64),
}

/// Of each filter shown, whether the worker found it itself.
fn own_marks(alloc: Global, shown: &[Shown]) -> Result<Items<bool>, AllocError>
    ensures { IfOk result (λ own. own ≡ map (λ e. e.own) shown.now) }
{
    let mut own = Items::new(alloc);
    for filter in shown {
        own.push(filter.own)?;
    }
    Ok(own)
}

impl<'a, B: Candidates + Walk> Desk<'_, 'a, B> {
    ghost use Rattle.sw_work.specs.Steps.{CanWork, Stands, IsPromised, FailsRound, searched};
    ghost use Rattle.sw_core.specs.declared.record.Settled.{Settled};
    ghost use Rattle.std.specs.Prelude.{ℕ};
    ghost use Rattle.std.specs.List.{AllByRecursion};

    /// What the worker hands back of a round.
    fn hand_over(
        &self,
        alloc: Global,
        bench: Bench<'a, B>,
        progress: Progress,
    ) -> Result<Handed, AllocError>
        requires stands { Stands B.template self.now.task.now bench bench.entries.items }
        ensures drawn { IfOk result (λ h. h.drawn ≡ progress.drawn) }
        ensures handed { (before : ℕ) (since : ℕ) → map (λ (x : Settled). x.part) progress.settled ≡ progress.drawn → AllByRecursion (IsPromised (searched B.template self.now.task.now) self.now.task.now.worker before since bench.entry.formulas bench.entry.hand.kept) progress.settled → IfOk result (IsHanded (searched B.template self.now.task.now) self.now.task.now.pool.now self.now.task.now.worker before since bench.entry.formulas) }
    {
        let own = own_marks(alloc, &bench.hand.mine.shown)?;
        let Bench {
            hand,
            entries: _,
            formulas: _,
            implied: _,
        } = bench;
        let Hand {
            mine: _,
            others: _,
            cursor: _,
            kept,
            tokens,
            found: _,
            used: _,
        } = hand;
        let Progress { drawn, settled } = progress;
        Ok(Handed {
            drawn,
            kept,
            tokens,
            own,
            settled,
        })
    }

    /// One round, which leaves the claims as they are where it fails.
    fn round<H: Wait, G: Gate>(
        &self,
        rt: &H,
        alloc: Global,
        claims: &Claims,
        claim_seat: &mut ClaimSeat,
        seat: &mut LogSeat,
        before: u32,
        gate: &G,
    ) -> Result<Worked, BreadthError>
        requires can { CanWork B.template B.part_lists B.has B.formula_of self.now.task.now self.now.budget }
        requires object { seat.old.object ≡ self.now.log.now }
        requires claims { claim_seat.old.object ≡ claims.now }
        requires parts { claim_seat.old.view.parts ≡ length (B.part_lists self.now.task.now.space.now) }
        ensures claims { claim_seat.new.object ≡ claim_seat.old.object }
        ensures object { seat.new.object ≡ seat.old.object }
        ensures gained { Gained (searched B.template self.now.task.now) self.now.task.now.worker seat.old.view seat.new.view }
        ensures worked { IfOk result (IsWorked (searched B.template self.now.task.now) self.now.task.now.pool.now self.now.task.now.worker before claim_seat.old.view claim_seat.new.view seat.old.view seat.new.view) }
        ensures cause { IfErr result (FailsRound (searched B.template self.now.task.now) self.now.budget claim_seat.old.view seat.old.view seat.new.view) }
    {
        let mut bench = self.begin(rt, alloc, seat)?;
        match self.draw_parts(
            rt, alloc, &mut bench, claims, claim_seat, seat, before, gate,
        )? {
            Drew::All(progress) => Ok(Worked::Done(self.hand_over(alloc, bench, progress)?)),
            Drew::Stopped(reason) => Ok(Worked::Stopped(reason)),
        }
    }
}

/// One round of one worker. It draws a part, passes the gate, takes in what the pool and the log have
/// gained, and goes through the classes of the part in order: each is sifted, and examined where no
/// filter rejects it; a counterexample is published and kept, an earned class appended under the list
/// that it was examined under, and examined again where the log is longer by then. The part is gone
/// through again until a passage leaves the list as it was, and then settled with the filters used.
/// `before` is the number of filters of the rounds before. Before an error is answered the claims are
/// stopped with the worker's number plus 1.
pub fn work<'a, H: Wait, G: Gate, B: Candidates + Walk>(
    rt: &H,
    alloc: Global,
    task: &Task<'a, B>,
    claims: &Claims,
    claim_seat: &mut ClaimSeat,
    log: &SharedLog,
    log_seat: &mut LogSeat,
    before: u32,
    budget: Option<u64>,
    gate: &G,
) -> Result<Worked, BreadthError>
    requires mode { task.now.mode ≡ Breadth }
    requires can { CanSearch task.now.protocol.now (B.template task.now.space.now) (B.part_lists task.now.space.now) (B.has task.now.space.now) (B.formula_of task.now.space.now) budget }
    requires claims { claim_seat.old.object ≡ claims.now }
    requires parts { claim_seat.old.view.parts ≡ length (B.part_lists task.now.space.now) }
    requires log { log_seat.old.object ≡ log.now }
    ensures claims { claim_seat.new.object ≡ claim_seat.old.object }
    ensures log { log_seat.new.object ≡ log_seat.old.object }
    ensures gained { Gained (search_of task.now.protocol.now (B.template task.now.space.now) Breadth task.now.workers) task.now.worker log_seat.old.view log_seat.new.view }
    ensures worked { IfOk result (IsWorked (search_of task.now.protocol.now (B.template task.now.space.now) Breadth task.now.workers) task.now.pool.now task.now.worker before claim_seat.old.view claim_seat.new.view log_seat.old.view log_seat.new.view) }
    ensures cause { IfErr result (IsCause (search_of task.now.protocol.now (B.template task.now.space.now) Breadth task.now.workers) budget log_seat.new.view.seen) }
    ensures stopped { IfErr result (λ _. 1 ≤ claim_seat.new.view.seen) }
    ensures on_the_way { IfErr result (λ e. IsAloneAt (search_of task.now.protocol.now (B.template task.now.space.now) Breadth task.now.workers) claim_seat.old.view log_seat.old.view → IsOnTheWay (search_of task.now.protocol.now (B.template task.now.space.now) Breadth task.now.workers) log_seat.old.view (carried e)) }
{
    let desk = Desk { task, log, budget };
    match desk.round(rt, alloc, claims, claim_seat, log_seat, before, gate) {
        Ok(worked) => Ok(worked),
        Err(error) => {
            claims.stop(claim_seat, task.worker as u64 + 1);
            Err(error)
        }
    }
}
