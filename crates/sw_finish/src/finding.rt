//! The workers that look for a class that joins: one that looks alone, or several side by side.
ghost use Rattle.std.specs.Prelude.{◌≡◌, All, IfOk, length, vec_len};
ghost use Rattle.sw_claims.specs.ClaimsRule.{opened};
ghost use Rattle.sw_claims.specs.Sharing.{IsFresh};
ghost use Rattle.sw_core.specs.Machine.{parts_in};
ghost use Rattle.sw_finish.specs.Joins.{AreReports, CanFind, HaveJoined, IsFirst, IsOver, IsReport, IsUnused, others_of, searched};

use crate::joining::{Joined, Report};
use std::alloc::{AllocError, Global};
use std::sync::Wait;
use std::thread::Threads;
use sw_claims::{ClaimSeat, Claims, fork};
use sw_edge::Gate;
use sw_filter::Candidates;
use sw_hand::Task;
use sw_logic::Formula;
use sw_seek::seek;
use sw_walk::Walk;

/// What the workers look for: the task is that of worker 0.
#[derive(Clone, Copy)]
pub(crate) struct Finder<'a, 'b, G, B> {
    pub(crate) task: &'b Task<'a, B>,
    pub(crate) entries: &'b [Formula],
    pub(crate) budget: Option<u64>,
    pub(crate) gate: &'b G,
}

/// A seat for each split that the first one has left.
fn split_all(
    alloc: Global,
    claims: &Claims,
    first: &mut ClaimSeat,
) -> Result<Vec<ClaimSeat>, AllocError>
    requires object { first.old.object ≡ claims.now }
    requires new { first.old.view ≡ opened first.old.view.parts first.old.view.splits }
    ensures len { IfOk result (λ seats. vec_len seats ≡ first.old.view.splits) }
    ensures fresh { IfOk result (λ seats. All (IsFresh claims.now first.old.view.parts) seats.items) }
    ensures first { IfOk result (λ seats. IsFirst claims.now first.old.view.parts (vec_len seats) first.new) }
    ensures unused { IfOk result (λ _. IsUnused first.new.view) }
{
    let mut seats = Vec::new(alloc);
    while let Some(seat) = claims.split(first) {
        seats.push(seat)?;
    }
    Ok(seats)
}

impl<'a, 'b, G: Gate + Sync, B: Candidates + Walk + Sync> Finder<'a, 'b, G, B> {
    /// One worker, which looks from the only seat.
    fn alone<H: Wait>(
        &self,
        rt: &H,
        alloc: Global,
        claims: &Claims,
        first: &mut ClaimSeat,
    ) -> Result<Joined, AllocError>
        requires can { CanFind B.template B.part_lists B.has B.formula_of self.now }
        requires object { first.old.object ≡ claims.now }
        requires new { first.old.view ≡ opened (length (B.part_lists self.now.task.now.space.now)) 0 }
        requires workers { self.now.task.now.workers ≡ 1 }
        ensures { IfOk result (IsOver (searched B.template self.now) self.now.task.now.pool.now self.now.entries.now self.now.budget claims.now first.new) }
    {
        let answer = seek(
            rt,
            alloc,
            self.task,
            self.entries,
            claims,
            first,
            self.budget,
            self.gate,
        );
        Joined::new(alloc).with(answer)
    }

    /// What a worker comes to, from a new seat.
    fn report<H: Wait>(
        &self,
        rt: &H,
        alloc: Global,
        worker: u32,
        claims: &Claims,
        seat: ClaimSeat,
    ) -> Report
        requires can { CanFind B.template B.part_lists B.has B.formula_of self.now }
        requires new { IsFresh claims.now (length (B.part_lists self.now.task.now.space.now)) seat }
        ensures { IsReport (searched B.template self.now) self.now.entries.now self.now.budget self.now.task.now.pool.now claims.now worker result }
    {
        let task = Task {
            worker,
            ..*self.task
        };
        let mut seat = seat;
        let answer = seek(
            rt,
            alloc,
            &task,
            self.entries,
            claims,
            &mut seat,
            self.budget,
            self.gate,
        );
        Report { seat, answer }
    }

    /// Joins the workers into the first seat, in their order.
    fn gather(
        &self,
        alloc: Global,
        claims: &Claims,
        first: &mut ClaimSeat,
        reports: Vec<Report>,
    ) -> Result<Joined, AllocError>
        requires first { IsFirst claims.now (length (parts_in (searched B.template self.now))) (vec_len reports) first.old }
        requires unused { IsUnused first.old.view }
        requires workers { vec_len reports ≡ self.now.task.now.workers }
        requires reports { AreReports (searched B.template self.now) self.now.entries.now self.now.budget self.now.task.now.pool.now claims.now 0 reports.items }
        ensures { IfOk result (HaveJoined (searched B.template self.now) self.now.task.now.pool.now self.now.entries.now self.now.budget claims.now self.now.task.now.workers 0 first.new) }
    {
        let mut joined = Joined::new(alloc);
        for report in reports {
            let Report { seat, answer } = report;
            claims.join(first, seat);
            joined = joined.with(answer)?;
        }
        Ok(joined)
    }

    /// Several workers, side by side, each with a seat of its own.
    fn together<H: Threads + Wait + Sync>(
        &self,
        rt: &H,
        alloc: Global,
        claims: &Claims,
        first: &mut ClaimSeat,
    ) -> Result<Joined, AllocError>
        requires can { CanFind B.template B.part_lists B.has B.formula_of self.now }
        requires object { first.old.object ≡ claims.now }
        requires new { first.old.view ≡ opened (length (B.part_lists self.now.task.now.space.now)) self.now.task.now.workers }
        ensures { IfOk result (HaveJoined (searched B.template self.now) self.now.task.now.pool.now self.now.entries.now self.now.budget claims.now self.now.task.now.workers 0 first.new) }
    {
        let seats = split_all(alloc, claims, first)?;
        let reports = fork(
            rt,
            alloc,
            seats,
            &|worker: u32, seat: ClaimSeat| -> Report
                requires can { CanFind B.template B.part_lists B.has B.formula_of self.now }
                requires new { IsFresh claims.now (length (B.part_lists self.now.task.now.space.now)) seat }
                ensures { IsReport (searched B.template self.entry.now) self.entry.now.entries.now self.entry.now.budget self.entry.now.task.now.pool.now claims.entry.now worker result }
            { self.report(rt, alloc, worker, claims, seat) },
        )?;
        self.gather(alloc, claims, first, reports)
    }

    /// What the workers come to, from the first of new seats: one for each, where they are several.
    pub(crate) fn find<H: Threads + Wait + Sync>(
        &self,
        rt: &H,
        alloc: Global,
        claims: &Claims,
        first: &mut ClaimSeat,
    ) -> Result<Joined, AllocError>
        requires can { CanFind B.template B.part_lists B.has B.formula_of self.now }
        requires object { first.old.object ≡ claims.now }
        requires new { first.old.view ≡ opened (length (B.part_lists self.now.task.now.space.now)) (others_of self.now.task.now.workers) }
        ensures { IfOk result (IsOver (searched B.template self.now) self.now.task.now.pool.now self.now.entries.now self.now.budget claims.now first.new) }
    {
        if self.task.workers == 1 {
            return self.alone(rt, alloc, claims, first);
        }
        self.together(rt, alloc, claims, first)
    }
}
