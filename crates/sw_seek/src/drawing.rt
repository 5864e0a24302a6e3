//! The draws of one worker, and what they come to.
ghost use Rattle.std.specs.Prelude.{◌≡◌, ◌<◌, [], map, length, IfOk, IfErr};
ghost use Rattle.sw_filter.specs.declared.view.Shown.{Shown as Entry};

use crate::considering::{Found, Seeking};
use crate::errors::FinishError;
use sqlite_items::Items;
use std::alloc::{AllocError, Global};
use std::sync::Wait;
use sw_claims::{ClaimSeat, Claims, Drawn};
use sw_core::Settled;
use sw_edge::Gate;
use sw_filter::{Candidates, Shown};
use sw_hand::{Hand, Handed};
use sw_walk::Walk;

/// The parts that were drawn and gone through, in order, and the settlement of each.
#[derive(Drop)]
pub struct Progress {
    pub drawn: Items<u64>,
    pub settled: Items<Settled>,
}

/// How the draws of a worker end: at a class that joins, at the last part, or by a reason to stop.
#[derive(Drop)]
pub enum Drew {
    Found(Found),
    All,
    Stopped(u64),
}

/// Which of the filters the worker published itself.
fn own_marks(alloc: Global, shown: &[Shown]) -> Result<Items<bool>, AllocError>
    ensures { IfOk result (λ own. own ≡ map (λ (e : Entry). e.own) shown.now) }
{
    let mut own = Items::new(alloc);
    for each in shown {
        own.push(each.own)?;
    }
    Ok(own)
}

impl<'a, B: Candidates + Walk> Seeking<'_, 'a, B> {
    ghost use Rattle.sw_hand.specs.Hands.{IsHanded};
    ghost use Rattle.sw_seek.specs.Seeking.{IsCause};
    ghost use Rattle.sw_seek.specs.Steps.{CanSeek, Holds, IsTaken, IsDrew, HasSettled, searched};

    /// Takes in what the pool has gained, goes through a part, and settles it where no class joins.
    fn take<H: Wait>(
        &self,
        rt: &H,
        alloc: Global,
        hand: &mut Hand<'a, B>,
        progress: &mut Progress,
        part: u64,
    ) -> Result<Option<Found>, FinishError>
        requires can { CanSeek B.template B.part_lists B.has B.formula_of self.now }
        requires holds { Holds B.template self.now hand.old }
        requires part { part < length (B.part_lists self.now.task.now.space.now) }
        ensures holds { IfOk result (λ _. Holds B.template self.now hand.new) }
        ensures taken { IfOk result (IsTaken (searched B.template self.now) self.now.task.now.worker self.now.entries.now self.now.budget part hand.old.kept hand.new.kept progress.old progress.new) }
        ensures cause { IfErr result (IsCause (searched B.template self.now) self.now.entries.now self.now.budget) }
    {
        self.task.refresh(alloc, hand, self.entries)?;
        self.task.clear(hand, self.entries)?;
        if let Some(found) = self.seek_part(rt, alloc, hand, part)? {
            return Ok(Some(found));
        }
        let settled = self.settle(alloc, hand, part)?;
        progress.drawn.push(part)?;
        progress.settled.push(settled)?;
        Ok(None)
    }

    /// Draws parts until the end, until a class joins, or until a reason to stop is seen.
    pub(crate) fn draw<H: Wait, G: Gate>(
        &self,
        rt: &H,
        alloc: Global,
        claims: &Claims,
        seat: &mut ClaimSeat,
        gate: &G,
        hand: &mut Hand<'a, B>,
        progress: &mut Progress,
    ) -> Result<Drew, FinishError>
        requires can { CanSeek B.template B.part_lists B.has B.formula_of self.now }
        requires holds { Holds B.template self.now hand.old }
        requires claims { seat.old.object ≡ claims.now }
        requires parts { seat.old.view.parts ≡ length (B.part_lists self.now.task.now.space.now) }
        requires drawn { progress.old.drawn ≡ [] }
        requires settled { progress.old.settled ≡ [] }
        ensures claims { seat.new.object ≡ seat.old.object }
        ensures holds { IfOk result (λ _. Holds B.template self.now hand.new) }
        ensures drew { IfOk result (IsDrew (searched B.template self.now) self.now.task.now.worker self.now.entries.now self.now.budget seat.old.view seat.new.view hand.new.kept progress.new) }
        ensures cause { IfErr result (IsCause (searched B.template self.now) self.now.entries.now self.now.budget) }
    {
        for _ in rt.forever() {
            match claims.draw(seat) {
                Drawn::Number(part) => {
                    gate.pass(self.task.worker, part);
                    if let Some(found) = self.take(rt, alloc, hand, progress, part)? {
                        return Ok(Drew::Found(found));
                    }
                }
                Drawn::AllDrawn => return Ok(Drew::All),
                Drawn::Stopped(reason) => return Ok(Drew::Stopped(reason)),
            }
        }
        unreachable!()
    }

    /// What the worker hands back.
    pub(crate) fn hand_over(
        &self,
        alloc: Global,
        hand: Hand<'a, B>,
        progress: Progress,
    ) -> Result<Handed, AllocError>
        requires holds { Holds B.template self.now hand }
        requires settled { HasSettled (searched B.template self.now) self.now.task.now.worker self.now.entries.now hand.kept progress }
        ensures drawn { IfOk result (λ handed. handed.drawn ≡ progress.drawn) }
        ensures own { IfOk result (λ handed. handed.own ≡ map (λ (e : Entry). e.own) hand.entry.mine.shown.items) }
        ensures handed { IfOk result (IsHanded (searched B.template self.now) self.now.task.now.pool.now self.now.task.now.worker 0 (length self.now.entries.now) self.now.entries.now) }
    {
        let own = own_marks(alloc, hand.mine.shown.as_slice())?;
        let Hand {
            mine: _,
            others: _,
            cursor: _,
            kept,
            tokens,
            found: _,
            used: _,
        } = hand;
        let Progress { drawn, settled } = progress;
        Ok(Handed {
            drawn,
            kept,
            tokens,
            own,
            settled,
        })
    }
}
