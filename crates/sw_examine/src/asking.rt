//! The queries of a formula under a list, each decided.
ghost use Rattle.std.specs.Prelude.{◌≡◌, ◌≤◌, ◌<◌, Some, length, slice_get, IfOk, IfSome};
ghost use Rattle.sw_logic.specs.Queries.{IsQuery};
ghost use Rattle.sw_meaning.specs.declared.protocol.Transition.{Transition};
ghost use Rattle.sw_meaning.specs.WellFormed.{IsWellFormed};
ghost use Rattle.sw_ground.specs.Verdict.{IsStratifiedQuery};
ghost use Rattle.sw_queries.specs.Queries.{start_query_of, follow_query_of, step_query_of};
ghost use Rattle.sw_examine.specs.Answers.{IsAnswer, CanAsk};

use std::alloc::{AllocError, Global};
use sw_decide::{Decision, decide};
use sw_logic::{Formula, Query};
use sw_meaning::Protocol;
use sw_queries::{follow_query, start_query, step_query};

/// A formula under a list, and the budget of each query.
#[derive(Clone, Copy)]
pub struct Asking<'a> {
    pub protocol: &'a Protocol,
    pub list: &'a [Formula],
    pub formula: &'a Formula,
    pub budget: Option<u64>,
}

fn ask(alloc: Global, query: &Query, budget: Option<u64>) -> Result<Decision, AllocError>
    requires query { IsQuery query.now }
    requires strata { IsStratifiedQuery query.now }
    requires some { IfSome budget (λ most. 1 ≤ most) }
    ensures { IfOk result (IsAnswer query.now budget) }
{
    decide(alloc, query, budget)
}

impl Asking<'_> {
    pub fn ask_start(&self, alloc: Global) -> Result<Decision, AllocError>
        requires well_formed { IsWellFormed self.now.protocol.now }
        requires ask { CanAsk self.now.protocol.now self.now.list.now self.now.formula.now }
        requires some { IfSome self.now.budget (λ most. 1 ≤ most) }
        ensures { IfOk result (IsAnswer (start_query_of self.now.protocol.now self.now.formula.now) self.now.budget) }
    {
        let query = start_query(alloc, self.protocol, self.formula)?;
        ask(alloc, &query, self.budget)
    }

    pub fn ask_follow(&self, alloc: Global) -> Result<Decision, AllocError>
        requires well_formed { IsWellFormed self.now.protocol.now }
        requires ask { CanAsk self.now.protocol.now self.now.list.now self.now.formula.now }
        requires some { IfSome self.now.budget (λ most. 1 ≤ most) }
        ensures { IfOk result (IsAnswer (follow_query_of self.now.protocol.now self.now.list.now self.now.formula.now) self.now.budget) }
    {
        let query = follow_query(alloc, self.protocol, self.list, self.formula)?;
        ask(alloc, &query, self.budget)
    }

    pub fn ask_step(&self, alloc: Global, transition: u32) -> Result<Decision, AllocError>
        requires well_formed { IsWellFormed self.now.protocol.now }
        requires ask { CanAsk self.now.protocol.now self.now.list.now self.now.formula.now }
        requires some { IfSome self.now.budget (λ most. 1 ≤ most) }
        requires number { transition < length self.now.protocol.now.transitions }
        ensures { IfOk result (λ d. (t : Transition) → slice_get self.now.protocol.now.transitions transition ≡ Some t → IsAnswer (step_query_of self.now.protocol.now t self.now.list.now self.now.formula.now) self.now.budget d) }
    {
        let query = step_query(alloc, self.protocol, self.list, self.formula, transition)?;
        ask(alloc, &query, self.budget)
    }
}
