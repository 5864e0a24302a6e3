//! A passage through the classes of one part, and the settlement of a part without a class that joins.
ghost use Rattle.std.specs.Prelude.{◌≡◌, ◌<◌, length, IfOk, IfErr};
ghost use Rattle.std.specs.List.{AllByRecursion};
ghost use Rattle.sw_core.specs.Machine.{parts_in};
ghost use Rattle.sw_hand.specs.Hands.{IsGoodBy};
ghost use Rattle.sw_walk.specs.Parts.{part_at};

use crate::considering::{Found, Seeking};
use crate::errors::FinishError;
use std::alloc::{AllocError, Global};
use std::sync::Wait;
use sw_core::Settled;
use sw_filter::Candidates;
use sw_hand::Hand;
use sw_walk::Walk;

impl<'a, B: Candidates + Walk> Seeking<'_, 'a, B> {
    ghost use Rattle.sw_seek.specs.Seeking.{IsCause};
    ghost use Rattle.sw_seek.specs.Steps.{CanSeek, Holds, IsPassed, IsPromised, searched};

    /// The first class of a part that joins, if one does. Else each is good by the filters used then.
    pub(crate) fn seek_part<H: Wait>(
        &self,
        rt: &H,
        alloc: Global,
        hand: &mut Hand<'a, B>,
        part: u64,
    ) -> Result<Option<Found>, FinishError>
        requires can { CanSeek B.template B.part_lists B.has B.formula_of self.now }
        requires holds { Holds B.template self.now hand.old }
        requires part { part < length (B.part_lists self.now.task.now.space.now) }
        ensures holds { IfOk result (λ _. Holds B.template self.now hand.new) }
        ensures passed { IfOk result (IsPassed (searched B.template self.now) self.now.entries.now self.now.budget hand.old hand.new (part_at (B.part_lists self.now.task.now.space.now) part)) }
        ensures cause { IfErr result (IsCause (searched B.template self.now) self.now.entries.now self.now.budget) }
    {
        let mut next = self.task.space.first_of(part);
        for at in 0..u64::MAX {
            let Some(body) = next else {
                return Ok(None);
            };
            if let Some(found) = self.consider(rt, alloc, hand, &body)? {
                return Ok(Some(found));
            }
            next = self.task.space.next_of(part, &body);
        }
        Ok(None)
    }

    /// The settlement of a part by the filters used.
    pub(crate) fn settle(
        &self,
        alloc: Global,
        hand: &Hand<'a, B>,
        part: u64,
    ) -> Result<Settled, AllocError>
        requires holds { Holds B.template self.now hand.now }
        requires good { AllByRecursion (IsGoodBy (searched B.template self.now) self.now.entries.now hand.now.kept hand.now.used.items) (part_at (parts_in (searched B.template self.now)) part) }
        ensures part { IfOk result (λ settled. settled.part ≡ part) }
        ensures promised { IfOk result (IsPromised (searched B.template self.now) self.now.task.now.worker self.now.entries.now hand.now.kept) }
    {
        let Ok(under) = u32::try_from(self.entries.len()) else {
            return Err(AllocError);
        };
        Ok(Settled {
            part,
            worker: self.task.worker,
            under,
            by: hand.used_places(alloc, 0)?,
        })
    }
}
