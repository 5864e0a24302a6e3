//! One part: gone through until a passage leaves the list as it was.
ghost use Rattle.std.specs.Prelude.{◌≡◌, ℕ, ◌<◌, ◌≤◌, false, IfOk, IfErr, length};

use crate::bench::{Bench, Desk};
use crate::errors::BreadthError;
use std::alloc::{AllocError, Global};
use std::sync::Wait;
use sw_core::Settled;
use sw_filter::Candidates;
use sw_log::LogSeat;
use sw_walk::Walk;

impl<'a, B: Candidates + Walk> Desk<'_, 'a, B> {
    ghost use Rattle.sw_meaning.specs.Plain.{Passage, Until};
    ghost use Rattle.sw_walk.specs.Parts.{part_at};
    ghost use Rattle.sw_work.specs.Works.{Gained};
    ghost use Rattle.sw_work.specs.Steps.{CanWork, Stands, Moves, Leads, Fails, KeepsMore, IsPassed, IsPromised, searched};

    /// Goes through the classes of a part once; whether the list has grown.
    fn pass_part<H: Wait>(
        &self,
        rt: &H,
        alloc: Global,
        bench: &mut Bench<'a, B>,
        seat: &mut LogSeat,
        part: u64,
    ) -> Result<bool, BreadthError>
        requires can { CanWork B.template B.part_lists B.has B.formula_of self.now.task.now self.now.budget }
        requires object { seat.old.object ≡ self.now.log.now }
        requires stands { Stands B.template self.now.task.now bench.old seat.old.view.seen }
        requires part { part < length (B.part_lists self.now.task.now.space.now) }
        ensures object { seat.new.object ≡ seat.old.object }
        ensures gained { Gained (searched B.template self.now.task.now) self.now.task.now.worker seat.old.view seat.new.view }
        ensures stands { IfOk result (λ _. Stands B.template self.now.task.now bench.new seat.new.view.seen) }
        ensures kept { IfOk result (λ _. KeepsMore bench.old.hand.kept bench.new.hand.kept) }
        ensures moves { IfOk result (Moves seat.old.view seat.new.view) }
        ensures good { IfOk result (IsPassed (searched B.template self.now.task.now) bench.new (part_at (B.part_lists self.now.task.now.space.now) part)) }
        ensures leads { IfOk result (λ _. Leads (searched B.template self.now.task.now) (Passage self.now.task.now.protocol.now (B.template self.now.task.now.space.now) (part_at (B.part_lists self.now.task.now.space.now) part)) seat.old.view seat.new.view) }
        ensures cause { IfErr result (Fails (searched B.template self.now.task.now) self.now.budget (Passage self.now.task.now.protocol.now (B.template self.now.task.now.space.now) (part_at (B.part_lists self.now.task.now.space.now) part)) seat.old.view seat.new.view) }
    {
        self.task.clear(&mut bench.hand, bench.formulas.as_slice())?;
        bench.implied.begin(alloc);
        let mut changed = false;
        let mut next = self.task.space.first_of(part);
        for at in 0..u64::MAX {
            let Some(body) = next else {
                return Ok(changed);
            };
            if self.consider(rt, alloc, bench, seat, &body)? {
                changed = true;
            }
            next = self.task.space.next_of(part, &body);
        }
        Ok(changed)
    }

    /// What is settled of a part that was gone through and left the list as it was.
    fn settled(
        &self,
        alloc: Global,
        bench: &Bench<'a, B>,
        part: u64,
        before: u32,
    ) -> Result<Settled, AllocError>
        requires can { CanWork B.template B.part_lists B.has B.formula_of self.now.task.now self.now.budget }
        requires stands { Stands B.template self.now.task.now bench.now bench.now.entries.items }
        requires good { IsPassed (searched B.template self.now.task.now) bench.now (part_at (B.part_lists self.now.task.now.space.now) part) false }
        ensures part { IfOk result (λ x. x.part ≡ part) }
        ensures promised { IfOk result (λ x. (since : ℕ) → since ≤ length bench.now.entries.items → IsPromised (searched B.template self.now.task.now) self.now.task.now.worker before since bench.now.formulas bench.now.hand.kept x) }
    {
        let Ok(under) = u32::try_from(bench.entries.len()) else {
            return Err(AllocError);
        };
        Ok(Settled {
            part,
            worker: self.task.worker,
            under,
            by: bench.hand.used_places(alloc, before)?,
        })
    }

    /// Goes through a part until the list stays, with the filters and the entries that there are at first.
    pub(crate) fn settle_part<H: Wait>(
        &self,
        rt: &H,
        alloc: Global,
        bench: &mut Bench<'a, B>,
        seat: &mut LogSeat,
        part: u64,
        before: u32,
    ) -> Result<Settled, BreadthError>
        requires can { CanWork B.template B.part_lists B.has B.formula_of self.now.task.now self.now.budget }
        requires object { seat.old.object ≡ self.now.log.now }
        requires stands { Stands B.template self.now.task.now bench.old seat.old.view.seen }
        requires part { part < length (B.part_lists self.now.task.now.space.now) }
        ensures object { seat.new.object ≡ seat.old.object }
        ensures gained { Gained (searched B.template self.now.task.now) self.now.task.now.worker seat.old.view seat.new.view }
        ensures stands { IfOk result (λ _. Stands B.template self.now.task.now bench.new seat.new.view.seen) }
        ensures kept { IfOk result (λ _. KeepsMore bench.old.hand.kept bench.new.hand.kept) }
        ensures part { IfOk result (λ x. x.part ≡ part) }
        ensures promised { IfOk result (λ x. (since : ℕ) → since ≤ length seat.old.view.seen → IsPromised (searched B.template self.now.task.now) self.now.task.now.worker before since bench.new.formulas bench.new.hand.kept x) }
        ensures leads { IfOk result (λ _. Leads (searched B.template self.now.task.now) (Until (Passage self.now.task.now.protocol.now (B.template self.now.task.now.space.now) (part_at (B.part_lists self.now.task.now.space.now) part))) seat.old.view seat.new.view) }
        ensures cause { IfErr result (Fails (searched B.template self.now.task.now) self.now.budget (Until (Passage self.now.task.now.protocol.now (B.template self.now.task.now.space.now) (part_at (B.part_lists self.now.task.now.space.now) part))) seat.old.view seat.new.view) }
    {
        self.catch_up(rt, alloc, bench, seat)?;
        for _ in rt.forever() {
            if !self.pass_part(rt, alloc, bench, seat, part)? {
                return Ok(self.settled(alloc, bench, part, before)?);
            }
        }
        unreachable!()
    }
}
