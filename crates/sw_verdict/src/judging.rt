//! The queries of safety, in their order: at the start, then the steps as they are declared.
ghost use Rattle.std.specs.Prelude.{◌≡◌, ◌<◌, ◌≤◌, None, length, IfOk, IfSome};
ghost use Rattle.sw_queries.specs.Queries.{safety_start_query_of};
ghost use Rattle.sw_verdict.specs.Judgement.{CanAsk, IsCleared, AreCleared, IsClearedAt, HasWord, IsAnswered};

use std::alloc::{AllocError, Global};
use sw_decide::{Decision, decide};
use sw_logic::Formula;
use sw_meaning::Protocol;
use sw_queries::{join_query, safety_start_query};
use sw_truth::Refutation;
use sw_universe::Size;

/// A query of safety: of the starts, or of the steps of the transition of this number.
#[derive(Clone, Copy)]
pub enum SafetyQuery {
    Start,
    Step(u32),
}

/// What is answered of safety under a list.
#[derive(Drop)]
pub enum Judged {
    /// Safety is false in some start.
    Violated,
    /// Safety is true in every start, and every step from the list and safety keeps it.
    Safe,
    /// Safety is true in every start, and some step from the list and safety does not keep it.
    Open,
    /// The budget was spent on this query.
    Spent(SafetyQuery, Refutation),
    /// This query is too large.
    TooLarge(SafetyQuery, Size),
}

/// A list of a protocol, and the budget of each query.
#[derive(Clone, Copy)]
struct Asking<'a> {
    protocol: &'a Protocol,
    list: &'a [Formula],
    budget: Option<u64>,
}

impl Asking<'_> {
    /// Asks whether the transition keeps safety: nothing where it does, and else what is answered.
    fn step(&self, alloc: Global, transition: usize) -> Result<Option<Judged>, AllocError>
        requires ask { CanAsk self.now.protocol.now self.now.list.now }
        requires some { IfSome self.now.budget (λ most. 1 ≤ most) }
        requires number { transition < length self.now.protocol.now.transitions }
        requires start { IsCleared (safety_start_query_of self.now.protocol.now) }
        requires before { AreCleared self.now.protocol.now self.now.list.now transition }
        ensures kept { IfOk result (λ o. o ≡ None → IsClearedAt self.now.protocol.now self.now.list.now transition) }
        ensures word { IfOk result (λ o. IfSome o (HasWord self.now.protocol.now self.now.list.now)) }
        ensures cause { IfOk result (λ o. IfSome o (IsAnswered self.now.protocol.now self.now.list.now self.now.budget)) }
    {
        let Ok(number) = u32::try_from(transition) else {
            return Err(AllocError);
        };
        let query = join_query(alloc, self.protocol, self.list, None, number)?;
        match decide(alloc, &query, self.budget)? {
            Decision::Refuted(_) => Ok(None),
            Decision::Found(_) => Ok(Some(Judged::Open)),
            Decision::Spent(steps) => Ok(Some(Judged::Spent(SafetyQuery::Step(number), steps))),
            Decision::TooLarge(size) => {
                Ok(Some(Judged::TooLarge(SafetyQuery::Step(number), size)))
            }
        }
    }

    /// Asks of each transition, as they are declared, up to the first that does not keep safety.
    fn steps(&self, alloc: Global) -> Result<Judged, AllocError>
        requires ask { CanAsk self.now.protocol.now self.now.list.now }
        requires some { IfSome self.now.budget (λ most. 1 ≤ most) }
        requires start { IsCleared (safety_start_query_of self.now.protocol.now) }
        ensures word { IfOk result (HasWord self.now.protocol.now self.now.list.now) }
        ensures cause { IfOk result (IsAnswered self.now.protocol.now self.now.list.now self.now.budget) }
    {
        for transition in 0..self.protocol.transitions.len() {
            if let Some(judged) = self.step(alloc, transition)? {
                return Ok(judged);
            }
        }
        Ok(Judged::Safe)
    }
}

/// Asks for a start without safety, then for a step of each transition in turn that leaves it; the
/// first query that has a structure, is too large or spends the budget decides. Without one of these
/// the list and safety are kept.
pub fn judge_safety(
    alloc: Global,
    protocol: &Protocol,
    list: &[Formula],
    budget: Option<u64>,
) -> Result<Judged, AllocError>
    requires ask { CanAsk protocol.now list.now }
    requires some { IfSome budget (λ most. 1 ≤ most) }
    ensures word { IfOk result (HasWord protocol.now list.now) }
    ensures cause { IfOk result (IsAnswered protocol.now list.now budget) }
{
    let asking = Asking {
        protocol,
        list,
        budget,
    };
    let query = safety_start_query(alloc, protocol)?;
    match decide(alloc, &query, budget)? {
        Decision::Refuted(_) => asking.steps(alloc),
        Decision::Found(_) => Ok(Judged::Violated),
        Decision::Spent(steps) => Ok(Judged::Spent(SafetyQuery::Start, steps)),
        Decision::TooLarge(size) => Ok(Judged::TooLarge(SafetyQuery::Start, size)),
    }
}
