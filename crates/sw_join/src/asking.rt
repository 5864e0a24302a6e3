//! The join query of a transition, decided.
ghost use Rattle.std.specs.Prelude.{◌≡◌, ◌≤◌, ◌<◌, Some, length, slice_get, IfOk, IfSome};
ghost use Rattle.sw_logic.specs.Queries.{IsQuery};
ghost use Rattle.sw_meaning.specs.declared.protocol.Transition.{Transition};
ghost use Rattle.sw_meaning.specs.WellFormed.{IsWellFormed};
ghost use Rattle.sw_ground.specs.Verdict.{IsStratifiedQuery};
ghost use Rattle.sw_queries.specs.Queries.{join_query_of};
ghost use Rattle.sw_examine.specs.Answers.{IsAnswer, CanAsk};

use std::alloc::{AllocError, Global};
use sw_decide::{Decision, decide};
use sw_examine::asking::Asking;
use sw_logic::Query;
use sw_queries::join_query;

fn ask(alloc: Global, query: &Query, budget: Option<u64>) -> Result<Decision, AllocError>
    requires query { IsQuery query.now }
    requires strata { IsStratifiedQuery query.now }
    requires some { IfSome budget (λ most. 1 ≤ most) }
    ensures { IfOk result (IsAnswer query.now budget) }
{
    decide(alloc, query, budget)
}

/// Asks whether a step of the transition leaves safety or the formula.
pub fn ask_join(alloc: Global, asking: &Asking, transition: u32) -> Result<Decision, AllocError>
    requires well_formed { IsWellFormed asking.now.protocol.now }
    requires ask { CanAsk asking.now.protocol.now asking.now.list.now asking.now.formula.now }
    requires some { IfSome asking.now.budget (λ most. 1 ≤ most) }
    requires number { transition < length asking.now.protocol.now.transitions }
    ensures { IfOk result (λ d. (t : Transition) → slice_get asking.now.protocol.now.transitions transition ≡ Some t → IsAnswer (join_query_of asking.now.protocol.now t asking.now.list.now (Some asking.now.formula.now)) asking.now.budget d) }
{
    let query = join_query(
        alloc,
        asking.protocol,
        asking.list,
        Some(asking.formula),
        transition,
    )?;
    ask(alloc, &query, asking.budget)
}
