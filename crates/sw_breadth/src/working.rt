//! One round: the workers draw the parts and settle them, and are joined.
ghost use Rattle.std.specs.Prelude.{◌≡◌, ◌+◌, ◌≤◌, All, IfErr, IfOk, length, vec_len};
ghost use Rattle.std.specs.List.{AllByRecursion};
ghost use Rattle.sw_filter.specs.declared.filter.Mode.TheVariants.{Breadth};
ghost use Rattle.sw_claims.specs.Workers.{AnswersEach};
ghost use Rattle.sw_log.specs.LogRule.{HoldsEach, Placed};
ghost use Rattle.sw_log.specs.LogSteps.{IsAlone};
ghost use Rattle.sw_core.specs.Machine.{parts_in};
ghost use Rattle.sw_hand.specs.Hands.{search_of};
ghost use Rattle.sw_walk.specs.Parts.{IsClass};
ghost use Rattle.sw_work.specs.Works.{CanSearch, IsAloneAt};
ghost use Rattle.sw_breadth.specs.Joins.{AreSeats, AreNew, AreFirst, AreReports, IsReport, HaveJoined, IsWholeRound, IsCauseOfRound, IsPlainRound, IsOnItsWay, IsClosable, IsClosed, IsPlainlyJoined, MayClose};
ghost use Rattle.sw_breadth.specs.declared.joining.Joined.TheVariants.{Failed};

use crate::joining::{Joined, Report};
use crate::sharing::{Figures, Places, Shared};
use sqlite_items::Items;
use std::alloc::{AllocError, Global};
use std::sync::Wait;
use std::thread::Threads;
use sw_claims::fork;
use sw_core::Entry;
use sw_edge::Gate;
use sw_filter::{Candidates, Mode};
use sw_hand::{Handed, Task};
use sw_meaning::Protocol;
use sw_pool::Pool;
use sw_walk::Walk;
use sw_work::{BreadthError, Worked, work};

/// A round: what it is for, and what its workers share.
#[derive(Clone, Copy)]
pub(crate) struct Round<'a, 'b, G, B> {
    pub(crate) task: &'b Task<'a, B>,
    pub(crate) gate: &'b G,
    pub(crate) shared: &'b Shared,
}

impl<'a, 'b, G: Gate, B: Candidates + Walk> Round<'a, 'b, G, B> {
    /// What the worker comes to, from new seats.
    fn report<H: Wait>(&self, rt: &H, alloc: Global, places: Places) -> Report
        requires mode { self.now.task.now.mode ≡ Breadth }
        requires can { CanSearch self.now.task.now.protocol.now (B.template self.now.task.now.space.now) (B.part_lists self.now.task.now.space.now) (B.has self.now.task.now.space.now) (B.formula_of self.now.task.now.space.now) self.now.shared.now.figures.budget }
        requires new { AreNew self.now.shared.now (length (B.part_lists self.now.task.now.space.now)) places.log.view.seen places }
        ensures { IsReport (search_of self.now.task.now.protocol.now (B.template self.now.task.now.space.now) Breadth self.now.task.now.workers) self.now.shared.now.figures.budget self.now.task.now.pool.now self.now.shared.now self.now.shared.now.figures.before places.log.view.seen self.now.task.now.worker result }
    {
        let mut places = places;
        let answer = work(
            rt,
            alloc,
            self.task,
            &self.shared.claims,
            &mut places.claim,
            &self.shared.log,
            &mut places.log,
            self.shared.figures.before,
            self.shared.figures.budget,
            self.gate,
        );
        Report { places, answer }
    }
}

impl<'a, 'b, G: Gate + Sync, B: Candidates + Walk + Sync> Round<'a, 'b, G, B> {
    /// Joins the workers into the first seats, in their order.
    fn gather(
        &self,
        alloc: Global,
        first: &mut Places,
        reports: Vec<Report>,
    ) -> Result<Joined, AllocError>
        requires seats { AreSeats self.now.shared.now first.old }
        requires first { AreFirst (length (parts_in (search_of self.now.task.now.protocol.now (B.template self.now.task.now.space.now) Breadth self.now.task.now.workers))) first.old.log.view.seen (vec_len reports) 0 first.old }
        requires workers { vec_len reports ≡ self.now.task.now.workers }
        requires reports { AreReports (search_of self.now.task.now.protocol.now (B.template self.now.task.now.space.now) Breadth self.now.task.now.workers) self.now.shared.now.figures.budget self.now.task.now.pool.now self.now.shared.now self.now.shared.now.figures.before first.old.log.view.seen 0 reports.items }
        ensures seats { IfOk result (λ _. AreSeats self.now.shared.now first.new) }
        ensures joined { IfOk result (HaveJoined (search_of self.now.task.now.protocol.now (B.template self.now.task.now.space.now) Breadth self.now.task.now.workers) self.now.task.now.pool.now self.now.shared.now.figures.budget first.old.log.view.seen self.now.shared.now.figures.before (vec_len reports) 0 first.new) }
    {
        let mut joined = Joined::Whole(Items::new(alloc));
        for report in reports {
            let Report { places, answer } = report;
            self.shared.join(first, places);
            joined = joined.with(answer)?;
        }
        Ok(joined)
    }

    /// The round of several workers, side by side.
    fn together<H: Threads + Wait + Sync>(
        &self,
        rt: &H,
        alloc: Global,
        first: &mut Places,
    ) -> Result<Joined, AllocError>
        requires mode { self.now.task.now.mode ≡ Breadth }
        requires can { CanSearch self.now.task.now.protocol.now (B.template self.now.task.now.space.now) (B.part_lists self.now.task.now.space.now) (B.has self.now.task.now.space.now) (B.formula_of self.now.task.now.space.now) self.now.shared.now.figures.budget }
        requires workers { self.now.shared.now.figures.workers ≡ self.now.task.now.workers }
        requires seats { AreSeats self.now.shared.now first.old }
        requires first { AreFirst (length (B.part_lists self.now.task.now.space.now)) first.old.log.view.seen 0 self.now.task.now.workers first.old }
        ensures seats { IfOk result (λ _. AreSeats self.now.shared.now first.new) }
        ensures joined { IfOk result (HaveJoined (search_of self.now.task.now.protocol.now (B.template self.now.task.now.space.now) Breadth self.now.task.now.workers) self.now.task.now.pool.now self.now.shared.now.figures.budget first.old.log.view.seen self.now.shared.now.figures.before self.now.task.now.workers 0 first.new) }
    {
        let shared = self.shared;
        let workers = self.task.workers;
        let places = shared.split_all(alloc, first, workers, self.task.pool)?;
        let reports = side_by_side(
            rt,
            alloc,
            self.task.protocol,
            self.task.space,
            self.gate,
            places,
        )?;
        self.gather(alloc, first, reports)
    }

    /// The round of one worker, on the first seats themselves.
    fn alone<H: Wait>(
        &self,
        rt: &H,
        alloc: Global,
        first: &mut Places,
    ) -> Result<Joined, AllocError>
        requires mode { self.now.task.now.mode ≡ Breadth }
        requires can { CanSearch self.now.task.now.protocol.now (B.template self.now.task.now.space.now) (B.part_lists self.now.task.now.space.now) (B.has self.now.task.now.space.now) (B.formula_of self.now.task.now.space.now) self.now.shared.now.figures.budget }
        requires seats { AreSeats self.now.shared.now first.old }
        requires worker { (self.now.task.now.worker ≡ 0) × (self.now.task.now.workers ≡ 1) }
        requires alone { IsAloneAt (search_of self.now.task.now.protocol.now (B.template self.now.task.now.space.now) Breadth self.now.task.now.workers) first.old.claim.view first.old.log.view }
        requires own { first.old.log.view.own ≡ first.old.log.view.seen }
        ensures seats { IfOk result (λ _. AreSeats self.now.shared.now first.new) }
        ensures joined { IfOk result (IsClosable (search_of self.now.task.now.protocol.now (B.template self.now.task.now.space.now) Breadth self.now.task.now.workers) self.now.task.now.pool.now self.now.shared.now.figures.budget first.old.log.view.seen self.now.shared.now.figures.before first.new) }
        ensures plain { IfOk result (IsPlainlyJoined (search_of self.now.task.now.protocol.now (B.template self.now.task.now.space.now) Breadth self.now.task.now.workers) first.old.log.view.seen first.new.log.view.seen) }
    {
        let answer = work(
            rt,
            alloc,
            self.task,
            &self.shared.claims,
            &mut first.claim,
            &self.shared.log,
            &mut first.log,
            self.shared.figures.before,
            self.shared.figures.budget,
            self.gate,
        );
        match answer {
            Ok(Worked::Done(handed)) => {
                let mut shares = Items::new(alloc);
                shares.push(handed)?;
                Ok(Joined::Whole(shares))
            }
            Ok(Worked::Stopped(_)) => unreachable!(),
            Err(error) => Ok(Joined::Failed(error)),
        }
    }
}

/// What the workers come to, side by side, each from its own seats.
fn side_by_side<H: Threads + Wait + Sync, G: Gate + Sync, B: Candidates + Walk + Sync>(
    rt: &H,
    alloc: Global,
    protocol: &Protocol,
    space: &B,
    gate: &G,
    places: Vec<(Places, &Pool, &Shared)>,
) -> Result<Vec<Report>, AllocError>
    requires new { All (λ place. CanSearch protocol.now (B.template space.now) (B.part_lists space.now) (B.has space.now) (B.formula_of space.now) place.2.now.figures.budget × AreNew place.2.now (length (B.part_lists space.now)) place.0.log.view.seen place.0) places.items }
    ensures len { IfOk result (λ reports. vec_len reports ≡ vec_len places.entry) }
    ensures each { IfOk result (λ reports. AnswersEach (λ i place r. IsReport (search_of protocol.now (B.template space.now) Breadth place.2.now.figures.workers) place.2.now.figures.budget place.1.now place.2.now place.2.now.figures.before place.0.log.view.seen i r) places.entry.items reports.items) }
{
    fork(
        rt,
        alloc,
        places,
        &|worker: u32, place: (Places, &Pool, &Shared)| -> Report
            requires can { CanSearch protocol.now (B.template space.now) (B.part_lists space.now) (B.has space.now) (B.formula_of space.now) place.2.now.figures.budget }
            requires new { AreNew place.2.now (length (B.part_lists space.now)) place.0.log.view.seen place.0 }
            ensures { IsReport (search_of protocol.entry.now (B.template space.entry.now) Breadth place.entry.2.now.figures.workers) place.entry.2.now.figures.budget place.entry.1.now place.entry.2.now place.entry.2.now.figures.before place.entry.0.log.view.seen worker result }
        {
            let (places, pool, shared) = place;
            let workers = shared.figures.workers;
            let task = Task {
                protocol,
                space,
                pool,
                mode: Mode::Breadth,
                workers,
                worker,
            };
            let round = Round {
                task: &task,
                gate,
                shared,
            };
            round.report(rt, alloc, places)
        },
    )
}

/// What a round leaves: the log, and the share of each worker.
#[derive(Drop)]
pub(crate) struct Ended {
    pub(crate) log: Vec<Entry>,
    pub(crate) shares: Items<Handed>,
}

/// Closes the claims and the log.
fn close(shared: Shared, first: Places, joined: Joined) -> Result<Ended, BreadthError>
    requires seats { AreSeats shared first }
    requires log { IsAlone first.log.view }
    requires claims { MayClose first.claim.view joined }
    ensures whole { IfOk result (λ ended. IsClosed first joined ended.log.items ended.shares) }
    ensures failed { IfErr result (λ e. (joined ≡ Failed e) × HoldsEach first.log.view.own first.log.view.seen) }
{
    let Shared {
        figures: _,
        claims,
        log,
    } = shared;
    let Places { claim, log: seat } = first;
    match joined {
        Joined::Whole(shares) => {
            claims.close(claim);
            let log = log.close(seat);
            Ok(Ended { log, shares })
        }
        Joined::Stopped => {
            claims.close(claim);
            unreachable!()
        }
        Joined::Failed(error) => {
            log.close(seat);
            Err(error)
        }
    }
}

/// A round of one worker.
fn run_alone<H: Wait, G: Gate + Sync, B: Candidates + Walk + Sync>(
    rt: &H,
    alloc: Global,
    task: &Task<'_, B>,
    entries: Vec<Entry>,
    before: u32,
    budget: Option<u64>,
    gate: &G,
) -> Result<Ended, BreadthError>
    requires mode { task.now.mode ≡ Breadth }
    requires can { CanSearch task.now.protocol.now (B.template task.now.space.now) (B.part_lists task.now.space.now) (B.has task.now.space.now) (B.formula_of task.now.space.now) budget }
    requires few { length (B.part_lists task.now.space.now) ≤ 8589934592 }
    requires worker { (task.now.worker ≡ 0) × (task.now.workers ≡ 1) }
    requires placed { Placed entries.items }
    requires classes { AllByRecursion (λ e. IsClass (B.part_lists task.now.space.now) e.body) entries.items }
    ensures whole { IfOk result (λ ended. IsWholeRound (search_of task.now.protocol.now (B.template task.now.space.now) Breadth task.now.workers) task.now.pool.now before entries.items ended.log.items ended.shares) }
    ensures plain { IfOk result (λ ended. IsPlainRound (search_of task.now.protocol.now (B.template task.now.space.now) Breadth task.now.workers) entries.items ended.log.items) }
    ensures cause { IfErr result (IsCauseOfRound (search_of task.now.protocol.now (B.template task.now.space.now) Breadth task.now.workers) budget entries.items) }
    ensures on_its_way { IfErr result (IsOnItsWay (search_of task.now.protocol.now (B.template task.now.space.now) Breadth task.now.workers) entries.items) }
{
    let figures = Figures {
        workers: task.workers,
        before,
        budget,
    };
    let (shared, mut first) = Shared::new(alloc, task.space.parts(), entries, 1, figures)?;
    let round = Round {
        task,
        gate,
        shared: &shared,
    };
    let joined = round.alone(rt, alloc, &mut first)?;
    close(shared, first, joined)
}

/// A round of several workers.
fn run_together<H: Threads + Wait + Sync, G: Gate + Sync, B: Candidates + Walk + Sync>(
    rt: &H,
    alloc: Global,
    task: &Task<'_, B>,
    entries: Vec<Entry>,
    before: u32,
    budget: Option<u64>,
    gate: &G,
) -> Result<Ended, BreadthError>
    requires mode { task.now.mode ≡ Breadth }
    requires can { CanSearch task.now.protocol.now (B.template task.now.space.now) (B.part_lists task.now.space.now) (B.has task.now.space.now) (B.formula_of task.now.space.now) budget }
    requires few { length (B.part_lists task.now.space.now) ≤ 8589934592 }
    requires workers { (2 ≤ task.now.workers) × (task.now.workers ≤ 64) }
    requires placed { Placed entries.items }
    requires classes { AllByRecursion (λ e. IsClass (B.part_lists task.now.space.now) e.body) entries.items }
    ensures whole { IfOk result (λ ended. IsWholeRound (search_of task.now.protocol.now (B.template task.now.space.now) Breadth task.now.workers) task.now.pool.now before entries.items ended.log.items ended.shares) }
    ensures plain { IfOk result (λ ended. IsPlainRound (search_of task.now.protocol.now (B.template task.now.space.now) Breadth task.now.workers) entries.items ended.log.items) }
    ensures cause { IfErr result (IsCauseOfRound (search_of task.now.protocol.now (B.template task.now.space.now) Breadth task.now.workers) budget entries.items) }
    ensures on_its_way { IfErr result (IsOnItsWay (search_of task.now.protocol.now (B.template task.now.space.now) Breadth task.now.workers) entries.items) }
{
    let figures = Figures {
        workers: task.workers,
        before,
        budget,
    };
    let seats = task.workers + 1;
    let (shared, mut first) = Shared::new(alloc, task.space.parts(), entries, seats, figures)?;
    let round = Round {
        task,
        gate,
        shared: &shared,
    };
    let joined = round.together(rt, alloc, &mut first)?;
    close(shared, first, joined)
}

/// A round, from these entries and after so many filters.
pub(crate) fn run<H: Threads + Wait + Sync, G: Gate + Sync, B: Candidates + Walk + Sync>(
    rt: &H,
    alloc: Global,
    task: &Task<'_, B>,
    entries: Vec<Entry>,
    before: u32,
    budget: Option<u64>,
    gate: &G,
) -> Result<Ended, BreadthError>
    requires mode { task.now.mode ≡ Breadth }
    requires can { CanSearch task.now.protocol.now (B.template task.now.space.now) (B.part_lists task.now.space.now) (B.has task.now.space.now) (B.formula_of task.now.space.now) budget }
    requires few { length (B.part_lists task.now.space.now) ≤ 8589934592 }
    requires worker { task.now.worker ≡ 0 }
    requires workers { (1 ≤ task.now.workers) × (task.now.workers ≤ 64) }
    requires placed { Placed entries.items }
    requires classes { AllByRecursion (λ e. IsClass (B.part_lists task.now.space.now) e.body) entries.items }
    ensures whole { IfOk result (λ ended. IsWholeRound (search_of task.now.protocol.now (B.template task.now.space.now) Breadth task.now.workers) task.now.pool.now before entries.items ended.log.items ended.shares) }
    ensures plain { IfOk result (λ ended. IsPlainRound (search_of task.now.protocol.now (B.template task.now.space.now) Breadth task.now.workers) entries.items ended.log.items) }
    ensures cause { IfErr result (IsCauseOfRound (search_of task.now.protocol.now (B.template task.now.space.now) Breadth task.now.workers) budget entries.items) }
    ensures on_its_way { IfErr result (IsOnItsWay (search_of task.now.protocol.now (B.template task.now.space.now) Breadth task.now.workers) entries.items) }
{
    if task.workers == 1 {
        run_alone(rt, alloc, task, entries, before, budget, gate)
    } else {
        run_together(rt, alloc, task, entries, before, budget, gate)
    }
}
