//! The examination of a class.
ghost use Rattle.std.specs.Prelude.{◌≡◌, ◌≤◌, None, IfOk, IfSome};
ghost use Rattle.sw_meaning.specs.WellFormed.{IsWellFormed};
ghost use Rattle.sw_queries.specs.Queries.{start_query_of};
ghost use Rattle.sw_filter.specs.Views.{AreMarked, FirstRejects};
ghost use Rattle.sw_examine.specs.Answers.{CanAsk, IsRefutedBy};
ghost use Rattle.sw_examine.specs.Examinations.{DoesNotFollowAfterStart, IsExamined};

use crate::asking::Asking;
use crate::stepping::AllStepped;
use sqlite_items::Items;
use std::alloc::{AllocError, Global};
use sw_decide::Decision;
use sw_filter::{Candidates, Filter, Mode, View};
use sw_logic::{Formula, Structure};
use sw_meaning::Protocol;
use sw_template::Body;
use sw_truth::Refutation;
use sw_universe::Size;

/// A query by what it asks of which class; the number is a transition's.
#[derive(Drop)]
pub enum QueryName {
    Start(Body),
    Follow(Body),
    Step(u32, Body),
    Join(u32, Body),
    SafetyStart,
    SafetyStep(u32),
}

/// What was found of a class.
#[derive(Drop)]
pub enum Examined {
    /// It is false in this start.
    StartFails(Filter),
    /// It follows from the list.
    Follows(Refutation),
    /// This step leaves it.
    NotKept(Filter),
    /// It is inductive and does not follow, as the structure shows.
    Earned {
        start: Refutation,
        steps: Items<Refutation>,
        novel: Structure,
    },
    /// The budget was spent on this query.
    Spent(QueryName, Refutation),
    /// This query is too large.
    TooLarge(QueryName, Size),
}

pub fn copy_body(alloc: Global, body: &Body) -> Result<Body, AllocError>
    ensures { IfOk result (λ b. b ≡ body.now) }
{
    Body::of_list(alloc, body.template(), body.cubes())
}

impl Asking<'_> {
    fn after_follow(
        &self,
        alloc: Global,
        body: &Body,
        start: Refutation,
        novel: Structure,
    ) -> Result<Examined, AllocError>
        requires well_formed { IsWellFormed self.now.protocol.now }
        requires ask { CanAsk self.now.protocol.now self.now.list.now self.now.formula.now }
        requires some { IfSome self.now.budget (λ most. 1 ≤ most) }
        requires start { IsRefutedBy (start_query_of self.now.protocol.now self.now.formula.now) self.now.budget start }
        requires novel { DoesNotFollowAfterStart self.now.protocol.now self.now.list.now self.now.formula.now novel }
        ensures { IfOk result (IsExamined self.now.protocol.now self.now.list.now self.now.formula.now self.now.budget body.now) }
    {
        match self.steps(alloc)? {
            AllStepped::Keep(steps) => Ok(Examined::Earned {
                start,
                steps,
                novel,
            }),
            AllStepped::Leaves(filter) => Ok(Examined::NotKept(filter)),
            AllStepped::Spent(transition, steps) => {
                let body = copy_body(alloc, body)?;
                Ok(Examined::Spent(QueryName::Step(transition, body), steps))
            }
            AllStepped::TooLarge(transition, size) => {
                let body = copy_body(alloc, body)?;
                Ok(Examined::TooLarge(QueryName::Step(transition, body), size))
            }
        }
    }

    fn after_start(
        &self,
        alloc: Global,
        body: &Body,
        start: Refutation,
    ) -> Result<Examined, AllocError>
        requires well_formed { IsWellFormed self.now.protocol.now }
        requires ask { CanAsk self.now.protocol.now self.now.list.now self.now.formula.now }
        requires some { IfSome self.now.budget (λ most. 1 ≤ most) }
        requires start { IsRefutedBy (start_query_of self.now.protocol.now self.now.formula.now) self.now.budget start }
        ensures { IfOk result (IsExamined self.now.protocol.now self.now.list.now self.now.formula.now self.now.budget body.now) }
    {
        match self.ask_follow(alloc)? {
            Decision::Refuted(refutation) => Ok(Examined::Follows(refutation)),
            Decision::Found(novel) => self.after_follow(alloc, body, start, novel),
            Decision::Spent(steps) => {
                let body = copy_body(alloc, body)?;
                Ok(Examined::Spent(QueryName::Follow(body), steps))
            }
            Decision::TooLarge(size) => {
                let body = copy_body(alloc, body)?;
                Ok(Examined::TooLarge(QueryName::Follow(body), size))
            }
        }
    }

    fn examined(&self, alloc: Global, body: &Body) -> Result<Examined, AllocError>
        requires well_formed { IsWellFormed self.now.protocol.now }
        requires ask { CanAsk self.now.protocol.now self.now.list.now self.now.formula.now }
        requires some { IfSome self.now.budget (λ most. 1 ≤ most) }
        ensures { IfOk result (IsExamined self.now.protocol.now self.now.list.now self.now.formula.now self.now.budget body.now) }
    {
        match self.ask_start(alloc)? {
            Decision::Refuted(start) => self.after_start(alloc, body, start),
            Decision::Found(structure) => Ok(Examined::StartFails(Filter::Start { structure })),
            Decision::Spent(steps) => {
                let body = copy_body(alloc, body)?;
                Ok(Examined::Spent(QueryName::Start(body), steps))
            }
            Decision::TooLarge(size) => {
                let body = copy_body(alloc, body)?;
                Ok(Examined::TooLarge(QueryName::Start(body), size))
            }
        }
    }
}

/// Asks the start, follow and step queries of a class in order; the first that decides is the answer.
/// The view is one that has sifted the class: no live filter of it refutes the formula.
pub fn examine<B: Candidates>(
    alloc: Global,
    protocol: &Protocol,
    space: &B,
    list: &[Formula],
    _view: &View<B>,
    body: &Body,
    budget: Option<u64>,
) -> Result<Examined, AllocError>
    requires well_formed { IsWellFormed protocol.now }
    requires body { B.has space.now body.now }
    requires ask { CanAsk protocol.now list.now (B.formula_of space.now body.now) }
    requires some { IfSome budget (λ most. 1 ≤ most) }
    requires mode { _view.now.mode ≡ Mode.Breadth }
    requires marked { AreMarked protocol.now Mode.Breadth list.now _view.now.shown.items }
    requires sifted { FirstRejects protocol.now (B.formula_of space.now body.now) _view.now.shown.items None }
    ensures { IfOk result (IsExamined protocol.now list.now (B.formula_of space.now body.now) budget body.now) }
{
    let formula = space.formula(alloc, body)?;
    let asking = Asking {
        protocol,
        list,
        formula: &formula,
        budget,
    };
    asking.examined(alloc, body)
}
