//! One class at a time: sifted, examined, and appended where it is earned.
ghost use Rattle.std.specs.Prelude.{◌≡◌, None, IsTrue, IfOk, IfErr, length};
ghost use Rattle.sw_filter.specs.Views.{FirstRejects};

use crate::bench::{Bench, Desk, copy_bodies};
use crate::errors::BreadthError;
use std::alloc::{AllocError, Global};
use std::sync::Wait;
use sw_decide::Decision;
use sw_examine::asking::Asking;
use sw_examine::{Examined, copy_body, examine};
use sw_filter::{Candidates, Filter};
use sw_log::{Appended, Entry, LogSeat};
use sw_template::Body;
use sw_walk::Walk;

/// What one look at a class came to.
#[derive(Drop)]
pub enum Tried {
    /// It is good under the list, by the filters that are marked as used.
    Good,
    /// It was earned, and is the last entry now.
    Added,
    /// It was earned under a list that was not the last.
    Behind,
}

impl<'a, B: Candidates + Walk> Desk<'_, 'a, B> {
    ghost use Rattle.sw_meaning.specs.Inductive.{Follows};
    ghost use Rattle.sw_meaning.specs.Plain.{After};
    ghost use Rattle.sw_core.specs.Founded.{Gains};
    ghost use Rattle.sw_core.specs.Machine.{formula_in};
    ghost use Rattle.sw_walk.specs.Parts.{IsClass};
    ghost use Rattle.sw_hand.specs.Hands.{Rejects};
    ghost use Rattle.sw_work.specs.Works.{Gained};
    ghost use Rattle.sw_work.specs.Steps.{CanWork, Stands, Moves, Leads, Fails, KeepsMore, IsTried, IsGoodNow, IsConsidered, IsCauseAt, searched};
    ghost use Rattle.sw_work.specs.declared.considering.Tried.TheVariants.{Good};

    /// The entry of a class under the list of the bench.
    fn entry(&self, alloc: Global, bench: &Bench<'a, B>, body: &Body) -> Result<Entry, AllocError>
        ensures { IfOk result (λ e. e ≡ record { body = body.now; worker = self.now.task.now.worker; under = length bench.now.entries.items }) }
    {
        let Ok(under) = u32::try_from(bench.entries.len()) else {
            return Err(AllocError);
        };
        Ok(Entry {
            body: copy_body(alloc, body)?,
            worker: self.task.worker,
            under,
        })
    }

    /// Appends an earned class.
    fn append<H: Wait>(
        &self,
        rt: &H,
        alloc: Global,
        bench: &mut Bench<'a, B>,
        seat: &mut LogSeat,
        body: &Body,
    ) -> Result<Tried, AllocError>
        requires can { CanWork B.template B.part_lists B.has B.formula_of self.now.task.now self.now.budget }
        requires object { seat.old.object ≡ self.now.log.now }
        requires stands { Stands B.template self.now.task.now bench.old seat.old.view.seen }
        requires class { IsClass (B.part_lists self.now.task.now.space.now) body.now }
        requires gains { Gains (searched B.template self.now.task.now) bench.old.formulas (formula_in (searched B.template self.now.task.now) body.now.cubes) }
        ensures object { seat.new.object ≡ seat.old.object }
        ensures gained { Gained (searched B.template self.now.task.now) self.now.task.now.worker seat.old.view seat.new.view }
        ensures stands { IfOk result (λ _. Stands B.template self.now.task.now bench.new seat.new.view.seen) }
        ensures kept { IfOk result (λ _. bench.new.hand.kept ≡ bench.old.hand.kept) }
        ensures tried { IfOk result (IsTried (searched B.template self.now.task.now) seat.old.view seat.new.view bench.old bench.new body.now) }
    {
        let entry = self.entry(alloc, bench, body)?;
        let own = self.entry(alloc, bench, body)?;
        match self.log.append(rt, alloc, seat, entry) {
            Appended::Done => {
                self.push(alloc, bench, own)?;
                Ok(Tried::Added)
            }
            Appended::Behind(entries) => {
                self.take_in(alloc, bench, entries)?;
                Ok(Tried::Behind)
            }
            Appended::Memory(_entry) => Err(AllocError),
        }
    }

    /// Keeps a counterexample to a class that none in the hand rejects.
    fn keep<H: Wait>(
        &self,
        rt: &H,
        alloc: Global,
        bench: &mut Bench<'a, B>,
        body: &Body,
        filter: Filter,
    ) -> Result<Tried, AllocError>
        requires can { CanWork B.template B.part_lists B.has B.formula_of self.now.task.now self.now.budget }
        requires stands { Stands B.template self.now.task.now bench.old bench.old.entries.items }
        requires class { IsClass (B.part_lists self.now.task.now.space.now) body.now }
        requires passed { FirstRejects self.now.task.now.protocol.now (B.formula_of self.now.task.now.space.now body.now) bench.old.hand.mine.shown.items None }
        requires rejects { Rejects (searched B.template self.now.task.now) bench.old.formulas body.now.cubes filter }
        ensures tried { IfOk result (λ tried. tried ≡ Good) }
        ensures stands { IfOk result (λ _. Stands B.template self.now.task.now bench.new bench.old.entries.items) }
        ensures good { IfOk result (λ _. IsGoodNow (searched B.template self.now.task.now) bench.old bench.new body.now.cubes) }
    {
        self.task.keep(
            rt,
            alloc,
            &mut bench.hand,
            bench.formulas.as_slice(),
            body,
            filter,
        )?;
        Ok(Tried::Good)
    }

    /// Whether the class is one that followed in the passage before.
    fn recall(
        &self,
        alloc: Global,
        bench: &mut Bench<'a, B>,
        body: &Body,
    ) -> Result<bool, AllocError>
        requires can { CanWork B.template B.part_lists B.has B.formula_of self.now.task.now self.now.budget }
        requires stands { Stands B.template self.now.task.now bench.old bench.old.entries.items }
        ensures stands { IfOk result (λ _. Stands B.template self.now.task.now bench.new bench.old.entries.items) }
        ensures hand { IfOk result (λ _. bench.new.hand ≡ bench.old.hand) }
        ensures good { IfOk result (λ known. IsTrue known → IsGoodNow (searched B.template self.now.task.now) bench.old bench.new body.now.cubes) }
    {
        let known = bench.implied.is_next(body);
        if known {
            bench.implied.add(alloc, body)?;
        }
        Ok(known)
    }

    /// Remembers a class that follows.
    fn remember(
        &self,
        alloc: Global,
        bench: &mut Bench<'a, B>,
        body: &Body,
    ) -> Result<Tried, AllocError>
        requires can { CanWork B.template B.part_lists B.has B.formula_of self.now.task.now self.now.budget }
        requires stands { Stands B.template self.now.task.now bench.old bench.old.entries.items }
        requires class { IsClass (B.part_lists self.now.task.now.space.now) body.now }
        requires follows { Follows self.now.task.now.protocol.now bench.old.formulas (B.formula_of self.now.task.now.space.now body.now) }
        ensures tried { IfOk result (λ tried. tried ≡ Good) }
        ensures stands { IfOk result (λ _. Stands B.template self.now.task.now bench.new bench.old.entries.items) }
        ensures good { IfOk result (λ _. IsGoodNow (searched B.template self.now.task.now) bench.old bench.new body.now.cubes) }
    {
        bench.implied.add(alloc, body)?;
        Ok(Tried::Good)
    }

    /// Whether the class is known to follow from the list by one query. Of one that spends the budget or
    /// is too large nothing is known.
    fn follows(&self, alloc: Global, bench: &Bench<'a, B>, body: &Body) -> Result<bool, AllocError>
        requires can { CanWork B.template B.part_lists B.has B.formula_of self.now.task.now self.now.budget }
        requires stands { Stands B.template self.now.task.now bench.now bench.now.entries.items }
        requires class { IsClass (B.part_lists self.now.task.now.space.now) body.now }
        ensures { IfOk result (λ yes. IsTrue yes → Follows self.now.task.now.protocol.now bench.now.formulas (B.formula_of self.now.task.now.space.now body.now)) }
    {
        let formula = self.task.space.formula(alloc, body)?;
        let asking = Asking {
            protocol: self.task.protocol,
            list: bench.formulas.as_slice(),
            formula: &formula,
            budget: self.budget,
        };
        match asking.ask_follow(alloc)? {
            Decision::Refuted(_) => Ok(true),
            Decision::Found(_) => Ok(false),
            Decision::Spent(_) => Ok(false),
            Decision::TooLarge(_) => Ok(false),
        }
    }

    /// Asks the queries of a class in order; the first that decides tells what it is.
    fn examine_in_order<H: Wait>(
        &self,
        rt: &H,
        alloc: Global,
        bench: &mut Bench<'a, B>,
        seat: &mut LogSeat,
        body: &Body,
    ) -> Result<Tried, BreadthError>
        requires can { CanWork B.template B.part_lists B.has B.formula_of self.now.task.now self.now.budget }
        requires object { seat.old.object ≡ self.now.log.now }
        requires stands { Stands B.template self.now.task.now bench.old seat.old.view.seen }
        requires class { IsClass (B.part_lists self.now.task.now.space.now) body.now }
        requires passed { FirstRejects self.now.task.now.protocol.now (B.formula_of self.now.task.now.space.now body.now) bench.old.hand.mine.shown.items None }
        ensures object { seat.new.object ≡ seat.old.object }
        ensures gained { Gained (searched B.template self.now.task.now) self.now.task.now.worker seat.old.view seat.new.view }
        ensures stands { IfOk result (λ _. Stands B.template self.now.task.now bench.new seat.new.view.seen) }
        ensures kept { IfOk result (λ _. KeepsMore bench.old.hand.kept bench.new.hand.kept) }
        ensures tried { IfOk result (IsTried (searched B.template self.now.task.now) seat.old.view seat.new.view bench.old bench.new body.now) }
        ensures cause { IfErr result (IsCauseAt (searched B.template self.now.task.now) self.now.budget seat.old.view seat.new.view) }
    {
        let found = examine(
            alloc,
            self.task.protocol,
            self.task.space,
            bench.formulas.as_slice(),
            &bench.hand.mine,
            body,
            self.budget,
        )?;
        match found {
            Examined::Follows(_) => Ok(self.remember(alloc, bench, body)?),
            Examined::StartFails(filter) => Ok(self.keep(rt, alloc, bench, body, filter)?),
            Examined::NotKept(filter) => Ok(self.keep(rt, alloc, bench, body, filter)?),
            Examined::Earned {
                start: _,
                steps: _,
                novel: _,
            } => Ok(self.append(rt, alloc, bench, seat, body)?),
            Examined::Spent(query, steps) => {
                let list = copy_bodies(alloc, &bench.entries)?;
                Err(BreadthError::Spent { query, list, steps })
            }
            Examined::TooLarge(query, size) => {
                let list = copy_bodies(alloc, &bench.entries)?;
                Err(BreadthError::TooLarge { query, list, size })
            }
        }
    }

    /// Examines a class that no filter rejects. Most follow from the list, so that is asked first, and
    /// the start of those is not asked about at all.
    fn examined<H: Wait>(
        &self,
        rt: &H,
        alloc: Global,
        bench: &mut Bench<'a, B>,
        seat: &mut LogSeat,
        body: &Body,
    ) -> Result<Tried, BreadthError>
        requires can { CanWork B.template B.part_lists B.has B.formula_of self.now.task.now self.now.budget }
        requires object { seat.old.object ≡ self.now.log.now }
        requires stands { Stands B.template self.now.task.now bench.old seat.old.view.seen }
        requires class { IsClass (B.part_lists self.now.task.now.space.now) body.now }
        requires passed { FirstRejects self.now.task.now.protocol.now (B.formula_of self.now.task.now.space.now body.now) bench.old.hand.mine.shown.items None }
        ensures object { seat.new.object ≡ seat.old.object }
        ensures gained { Gained (searched B.template self.now.task.now) self.now.task.now.worker seat.old.view seat.new.view }
        ensures stands { IfOk result (λ _. Stands B.template self.now.task.now bench.new seat.new.view.seen) }
        ensures kept { IfOk result (λ _. KeepsMore bench.old.hand.kept bench.new.hand.kept) }
        ensures tried { IfOk result (IsTried (searched B.template self.now.task.now) seat.old.view seat.new.view bench.old bench.new body.now) }
        ensures cause { IfErr result (IsCauseAt (searched B.template self.now.task.now) self.now.budget seat.old.view seat.new.view) }
    {
        if self.follows(alloc, bench, body)? {
            return Ok(self.remember(alloc, bench, body)?);
        }
        self.examine_in_order(rt, alloc, bench, seat, body)
    }

    /// Sifts a class, and examines it where no filter rejects it.
    fn sift_or_examine<H: Wait>(
        &self,
        rt: &H,
        alloc: Global,
        bench: &mut Bench<'a, B>,
        seat: &mut LogSeat,
        body: &Body,
    ) -> Result<Tried, BreadthError>
        requires can { CanWork B.template B.part_lists B.has B.formula_of self.now.task.now self.now.budget }
        requires object { seat.old.object ≡ self.now.log.now }
        requires stands { Stands B.template self.now.task.now bench.old seat.old.view.seen }
        requires class { IsClass (B.part_lists self.now.task.now.space.now) body.now }
        ensures object { seat.new.object ≡ seat.old.object }
        ensures gained { Gained (searched B.template self.now.task.now) self.now.task.now.worker seat.old.view seat.new.view }
        ensures stands { IfOk result (λ _. Stands B.template self.now.task.now bench.new seat.new.view.seen) }
        ensures kept { IfOk result (λ _. KeepsMore bench.old.hand.kept bench.new.hand.kept) }
        ensures tried { IfOk result (IsTried (searched B.template self.now.task.now) seat.old.view seat.new.view bench.old bench.new body.now) }
        ensures cause { IfErr result (IsCauseAt (searched B.template self.now.task.now) self.now.budget seat.old.view seat.new.view) }
    {
        if self
            .task
            .sift(alloc, &mut bench.hand, bench.formulas.as_slice(), body)?
        {
            return Ok(Tried::Good);
        }
        self.examined(rt, alloc, bench, seat, body)
    }

    /// Looks at a class once: one that followed before is neither sifted nor examined.
    fn attempt<H: Wait>(
        &self,
        rt: &H,
        alloc: Global,
        bench: &mut Bench<'a, B>,
        seat: &mut LogSeat,
        body: &Body,
    ) -> Result<Tried, BreadthError>
        requires can { CanWork B.template B.part_lists B.has B.formula_of self.now.task.now self.now.budget }
        requires object { seat.old.object ≡ self.now.log.now }
        requires stands { Stands B.template self.now.task.now bench.old seat.old.view.seen }
        requires class { IsClass (B.part_lists self.now.task.now.space.now) body.now }
        ensures object { seat.new.object ≡ seat.old.object }
        ensures gained { Gained (searched B.template self.now.task.now) self.now.task.now.worker seat.old.view seat.new.view }
        ensures stands { IfOk result (λ _. Stands B.template self.now.task.now bench.new seat.new.view.seen) }
        ensures kept { IfOk result (λ _. KeepsMore bench.old.hand.kept bench.new.hand.kept) }
        ensures tried { IfOk result (IsTried (searched B.template self.now.task.now) seat.old.view seat.new.view bench.old bench.new body.now) }
        ensures cause { IfErr result (IsCauseAt (searched B.template self.now.task.now) self.now.budget seat.old.view seat.new.view) }
    {
        if self.recall(alloc, bench, body)? {
            return Ok(Tried::Good);
        }
        self.sift_or_examine(rt, alloc, bench, seat, body)
    }

    /// Looks at a class until it is good or was added; whether the list has grown.
    pub(crate) fn consider<H: Wait>(
        &self,
        rt: &H,
        alloc: Global,
        bench: &mut Bench<'a, B>,
        seat: &mut LogSeat,
        body: &Body,
    ) -> Result<bool, BreadthError>
        requires can { CanWork B.template B.part_lists B.has B.formula_of self.now.task.now self.now.budget }
        requires object { seat.old.object ≡ self.now.log.now }
        requires stands { Stands B.template self.now.task.now bench.old seat.old.view.seen }
        requires class { IsClass (B.part_lists self.now.task.now.space.now) body.now }
        ensures object { seat.new.object ≡ seat.old.object }
        ensures gained { Gained (searched B.template self.now.task.now) self.now.task.now.worker seat.old.view seat.new.view }
        ensures stands { IfOk result (λ _. Stands B.template self.now.task.now bench.new seat.new.view.seen) }
        ensures kept { IfOk result (λ _. KeepsMore bench.old.hand.kept bench.new.hand.kept) }
        ensures moves { IfOk result (Moves seat.old.view seat.new.view) }
        ensures good { IfOk result (IsConsidered (searched B.template self.now.task.now) bench.old bench.new body.now.cubes) }
        ensures leads { IfOk result (λ _. Leads (searched B.template self.now.task.now) (λ g h. After self.now.task.now.protocol.now (B.template self.now.task.now.space.now) g body.now.cubes h) seat.old.view seat.new.view) }
        ensures cause { IfErr result (Fails (searched B.template self.now.task.now) self.now.budget (λ g h. After self.now.task.now.protocol.now (B.template self.now.task.now.space.now) g body.now.cubes h) seat.old.view seat.new.view) }
    {
        let mut changed = false;
        for _ in rt.forever() {
            match self.attempt(rt, alloc, bench, seat, body)? {
                Tried::Good => return Ok(changed),
                Tried::Added => return Ok(true),
                Tried::Behind => changed = true,
            }
        }
        unreachable!()
    }
}
