//! The decision over all instances at once.
ghost use Rattle.std.specs.Prelude.{◌≡◌, ◌≤◌, ◌↔◌, IfOk, IfSome, IsTrue};
ghost use Rattle.sw_logic.specs.Queries.{IsQuery};
ghost use Rattle.sw_truth.specs.Models.{restricted};
ghost use Rattle.sw_universe.specs.GroundTerms.{universe_of};
ghost use Rattle.sw_skolem.specs.Skolem.{skolem_of};
ghost use Rattle.sw_ground.specs.Verdict.{IsPrepared, IsStratifiedQuery};
ghost use Rattle.sw_decide.specs.Decision.{size_of_query, IsPast, Decides, IsTooLarge, IsExact};

use crate::decision::Decision;
use sqlite_items::Items;
use std::alloc::{AllocError, Global};
use sw_ground::{accepted_leaves_no_structure, clauses_of};
use sw_instances::{all_instances, count_is_length, ground_is_well_formed};
use sw_logic::{Query, Structure};
use sw_quotient::{clauses_mean, quotient_exists, quotient_is_model, structure_of};
use sw_sat::{Solved, solve};
use sw_skolem::{skolem_is_well_formed, skolem_keeps_strata, skolem_restricts, skolemise};
use sw_truth::{MOST_INSTANCES, MOST_TERMS, Refutation, SkolemSet};
use sw_universe::{Size, Universe, query_size, universe_is_inhabited};

fn is_past(size: &Size) -> bool
    ensures { IsTrue result ↔ IsPast size.now }
{
    size.terms > MOST_TERMS as u128 || size.instances > MOST_INSTANCES as u128
}

/// The structure with its first tables alone.
fn restrict(structure: Structure, query: &Query) -> Structure
    ensures { result ≡ restricted query.now.signature structure }
{
    let Structure { sizes, mut tables } = structure;
    let count = query.signature.symbols.len();
    while tables.len() > count {
        let _ = tables.pop();
    }
    Structure { sizes, tables }
}

/// Decides a query over all instances of its Skolem form, where they are not too many.
fn decide_within(
    alloc: Global,
    query: &Query,
    set: &SkolemSet,
    universe: &Universe,
    budget: Option<u64>,
) -> Result<Decision, AllocError>
    requires query { IsQuery query.now }
    requires set { set.now ≡ skolem_of query.now }
    requires prepared { IsPrepared set.now universe.now }
    requires some { IfSome budget (λ most. 1 ≤ most) }
    ensures { IfOk result (λ d. Decides query.now budget d × (IsTooLarge d → ⊥)) }
{
    clauses_mean();
    quotient_exists();
    quotient_is_model();
    ground_is_well_formed();
    skolem_is_well_formed();
    skolem_restricts();
    universe_is_inhabited();
    let Ok(instances) = all_instances(alloc, set, universe) else {
        return Err(AllocError);
    };
    let ground = clauses_of(alloc, set, universe, &instances)?;
    match solve(alloc, &ground.cnf, budget)? {
        Solved::Satisfied(values) => {
            let structure = structure_of(alloc, set, universe, &ground, values.as_slice())?;
            Ok(Decision::Found(restrict(structure, query)))
        }
        Solved::Refuted(steps) => {
            let steps = Items::from_vec(steps);
            Ok(Decision::Refuted(Refutation { instances, steps }))
        }
        Solved::Spent(steps) => {
            let steps = Items::from_vec(steps);
            Ok(Decision::Spent(Refutation { instances, steps }))
        }
    }
}

/// Decides whether some finite structure satisfies a query. A budget bounds how many nonempty clauses
/// are learnt. Sizes are capped at 2^64.
pub fn decide(alloc: Global, query: &Query, budget: Option<u64>) -> Result<Decision, AllocError>
    requires query { IsQuery query.now }
    requires strata { IsStratifiedQuery query.now }
    requires some { IfSome budget (λ most. 1 ≤ most) }
    ensures carried { IfOk result (Decides query.now budget) }
    ensures exact { IfOk result (IsExact query.now) }
    ensures large { IfOk result (λ d. IsTooLarge d ↔ IsPast (size_of_query query.now)) }
{
    accepted_leaves_no_structure();
    skolem_is_well_formed();
    skolem_keeps_strata();
    let set = skolemise(alloc, query)?;
    let size = query_size(alloc, &set)?;
    if is_past(&size) {
        return Ok(Decision::TooLarge(size));
    }
    let universe = Universe::new(alloc, &set)?;
    decide_within(alloc, query, &set, &universe, budget)
}
