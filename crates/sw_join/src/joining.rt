//! The examination of a class that is to join.
ghost use Rattle.std.specs.Prelude.{◌≡◌, ◌≤◌, None, IfOk, IfSome};
ghost use Rattle.sw_meaning.specs.WellFormed.{IsWellFormed};
ghost use Rattle.sw_queries.specs.Queries.{start_query_of};
ghost use Rattle.sw_filter.specs.Views.{AreMarked, FirstRejects};
ghost use Rattle.sw_examine.specs.Answers.{CanAsk, IsRefutedBy};
ghost use Rattle.sw_join.specs.Joining.{IsExamined};

use crate::stepping::{AllStepped, ask_joins};
use sqlite_items::Items;
use std::alloc::{AllocError, Global};
use sw_decide::Decision;
use sw_examine::asking::Asking;
use sw_examine::{QueryName, copy_body};
use sw_filter::{Candidates, Filter, Mode, View};
use sw_logic::Formula;
use sw_meaning::Protocol;
use sw_template::Body;
use sw_truth::Refutation;
use sw_universe::Size;

/// What was found of a class that is to join.
#[derive(Drop)]
pub enum JoinExamined {
    /// It is false in this start.
    StartFails(Filter),
    /// This step leaves it, and keeps safety.
    NotKept(Filter),
    /// This step leaves safety.
    Bad(Filter),
    /// It joins.
    Joins {
        start: Refutation,
        steps: Items<Refutation>,
    },
    /// The budget was spent on this query.
    Spent(QueryName, Refutation),
    /// This query is too large.
    TooLarge(QueryName, Size),
}

fn after_start(
    alloc: Global,
    asking: &Asking,
    body: &Body,
    start: Refutation,
) -> Result<JoinExamined, AllocError>
    requires well_formed { IsWellFormed asking.now.protocol.now }
    requires ask { CanAsk asking.now.protocol.now asking.now.list.now asking.now.formula.now }
    requires some { IfSome asking.now.budget (λ most. 1 ≤ most) }
    requires start { IsRefutedBy (start_query_of asking.now.protocol.now asking.now.formula.now) asking.now.budget start }
    ensures { IfOk result (IsExamined asking.now.protocol.now asking.now.list.now asking.now.formula.now asking.now.budget body.now) }
{
    match ask_joins(alloc, asking)? {
        AllStepped::Join(steps) => Ok(JoinExamined::Joins { start, steps }),
        AllStepped::Leaves(filter) => Ok(JoinExamined::NotKept(filter)),
        AllStepped::Bad(filter) => Ok(JoinExamined::Bad(filter)),
        AllStepped::Spent(transition, steps) => {
            let body = copy_body(alloc, body)?;
            Ok(JoinExamined::Spent(QueryName::Join(transition, body), steps))
        }
        AllStepped::TooLarge(transition, size) => {
            let body = copy_body(alloc, body)?;
            Ok(JoinExamined::TooLarge(QueryName::Join(transition, body), size))
        }
    }
}

fn examined(alloc: Global, asking: &Asking, body: &Body) -> Result<JoinExamined, AllocError>
    requires well_formed { IsWellFormed asking.now.protocol.now }
    requires ask { CanAsk asking.now.protocol.now asking.now.list.now asking.now.formula.now }
    requires some { IfSome asking.now.budget (λ most. 1 ≤ most) }
    ensures { IfOk result (IsExamined asking.now.protocol.now asking.now.list.now asking.now.formula.now asking.now.budget body.now) }
{
    match asking.ask_start(alloc)? {
        Decision::Refuted(start) => after_start(alloc, asking, body, start),
        Decision::Found(structure) => Ok(JoinExamined::StartFails(Filter::Start { structure })),
        Decision::Spent(steps) => {
            let body = copy_body(alloc, body)?;
            Ok(JoinExamined::Spent(QueryName::Start(body), steps))
        }
        Decision::TooLarge(size) => {
            let body = copy_body(alloc, body)?;
            Ok(JoinExamined::TooLarge(QueryName::Start(body), size))
        }
    }
}

/// Asks the start query and the join queries of a class in order; the first that decides is the answer.
/// The view is one that has sifted the class: no live filter of it refutes the formula.
pub fn examine_join<B: Candidates>(
    alloc: Global,
    protocol: &Protocol,
    space: &B,
    list: &[Formula],
    _view: &View<B>,
    body: &Body,
    budget: Option<u64>,
) -> Result<JoinExamined, AllocError>
    requires well_formed { IsWellFormed protocol.now }
    requires body { B.has space.now body.now }
    requires ask { CanAsk protocol.now list.now (B.formula_of space.now body.now) }
    requires some { IfSome budget (λ most. 1 ≤ most) }
    requires mode { _view.now.mode ≡ Mode.Finish }
    requires marked { AreMarked protocol.now Mode.Finish list.now _view.now.shown.items }
    requires sifted { FirstRejects protocol.now (B.formula_of space.now body.now) _view.now.shown.items None }
    ensures { IfOk result (IsExamined protocol.now list.now (B.formula_of space.now body.now) budget body.now) }
{
    let formula = space.formula(alloc, body)?;
    let asking = Asking {
        protocol,
        list,
        formula: &formula,
        budget,
    };
    examined(alloc, &asking, body)
}
