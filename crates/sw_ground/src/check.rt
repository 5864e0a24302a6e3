//! The check of refutations: instances and steps, with no structure and no solver.
ghost use Rattle.std.specs.Prelude.{◌≡◌, ◌≤◌, ◌<◌, ◌↔◌, ◌^◌, IfOk, OnOk, IsTrue, MatchOption};
ghost use Rattle.sw_logic.specs.declared.structure.Structure.{Structure};
ghost use Rattle.sw_logic.specs.Truth.{size_of};
ghost use Rattle.sw_logic.specs.Queries.{IsQuery, Satisfies};
ghost use Rattle.sw_truth.specs.declared.instances.Instance.TheVariants.{Of, Congruent};
ghost use Rattle.sw_truth.specs.Models.{AreOfSorts};
ghost use Rattle.sw_universe.specs.ByNumber.{counts, IsTerm};
ghost use Rattle.sw_instances.specs.Instances.{IsInstance, AreInstances};
ghost use Rattle.sw_ground.specs.declared.check.RefutationVerdict.TheVariants.{Accepted, Refused};
ghost use Rattle.sw_ground.specs.Verdict.{JudgesRefutation, IsFirstMissing, IsStratifiedQuery, terms_of_query};

use crate::clauses::clauses_of;
use crate::laws::accepted_leaves_no_structure;
use std::alloc::{AllocError, Global};
use sw_instances::ground_is_well_formed;
use sw_logic::Query;
use sw_refute::{StepsVerdict, check_steps};
use sw_skolem::{skolem_is_well_formed, skolem_keeps_strata, skolemise};
use sw_truth::{Instance, MOST_LISTED, Refutation, SkolemSet};
use sw_universe::Universe;

/// What the check of a refutation says.
#[derive(Clone, Copy)]
pub enum RefutationVerdict {
    Accepted,
    /// The first place that fails: instances are counted from 0, then steps; the place after the
    /// last step is that the last clause is not empty.
    Refused { place: u32 },
}

fn count(universe: &Universe, sort: u32) -> usize
    ensures { result ≡ size_of (counts universe.now) sort }
{
    match universe.lists.get(sort as usize) {
        Some(list) => list.len(),
        None => 0,
    }
}

fn is_term(universe: &Universe, sort: u32, number: u32) -> bool
    ensures { IsTrue result ↔ IsTerm universe.now sort number }
{
    (number as usize) < count(universe, sort)
}

fn are_terms(universe: &Universe, sorts: &[u32], numbers: &[u32]) -> bool
    ensures { IsTrue result ↔ AreOfSorts (counts universe.now) sorts.now numbers.now }
{
    let [sort, sorts @ ..] = sorts else {
        return numbers.is_empty();
    };
    let [number, numbers @ ..] = numbers else {
        return false;
    };
    is_term(universe, *sort, *number) && are_terms(universe, sorts, numbers)
}

fn is_congruent(
    set: &SkolemSet,
    universe: &Universe,
    symbol: u32,
    place: u32,
    terms: &[u32],
    u: u32,
) -> bool
    ensures { IsTrue result ↔ IsInstance set.now universe.now (Congruent symbol place terms.now u) }
{
    let Some(symbol) = set.signature.symbols.get(symbol as usize) else {
        return false;
    };
    let Some(sort) = symbol.args.get(place as usize) else {
        return false;
    };
    are_terms(universe, symbol.args.as_slice(), terms) && is_term(universe, *sort, u)
}

fn is_of(set: &SkolemSet, universe: &Universe, piece: u32, terms: &[u32]) -> bool
    ensures { IsTrue result ↔ IsInstance set.now universe.now (Of piece terms.now) }
{
    match set.pieces.get(piece as usize) {
        Some(piece) => are_terms(universe, piece.vars.as_slice(), terms),
        None => false,
    }
}

/// Whether the instance's piece, sort, symbol, place and terms are there.
fn is_instance(set: &SkolemSet, universe: &Universe, instance: &Instance) -> bool
    ensures { IsTrue result ↔ IsInstance set.now universe.now instance.now }
{
    match instance {
        Instance::Of { piece, terms } => is_of(set, universe, *piece, terms.as_slice()),
        Instance::Reflexive { sort, t } => is_term(universe, *sort, *t),
        Instance::Symmetric { sort, t, u } => {
            is_term(universe, *sort, *t) && is_term(universe, *sort, *u)
        }
        Instance::Transitive { sort, t, u, v } => {
            is_term(universe, *sort, *t)
                && is_term(universe, *sort, *u)
                && is_term(universe, *sort, *v)
        }
        Instance::Congruent {
            symbol,
            place,
            terms,
            u,
        } => is_congruent(set, universe, *symbol, *place, terms.as_slice(), *u),
    }
}

/// The first of the instances that is none.
fn first_missing(set: &SkolemSet, universe: &Universe, instances: &[Instance]) -> Option<usize>
    ensures { MatchOption result (AreInstances set.now universe.now instances.now) (IsFirstMissing set.now universe.now instances.now) }
{
    for (k, instance) in instances.iter().enumerate() {
        if !is_instance(set, universe, instance) {
            return Some(k);
        }
    }
    None
}

/// Checks a refutation for its query: that its instances are there, that its steps are accepted after
/// their clauses, and that the last clause is empty. A place past the 2^32nd counts as want of memory.
pub fn check_refutation(
    alloc: Global,
    query: &Query,
    refutation: &Refutation,
) -> Result<RefutationVerdict, AllocError>
    requires query { IsQuery query.now }
    requires strata { IsStratifiedQuery query.now }
    requires few { terms_of_query query.now ≤ MOST_LISTED }
    ensures judged { IfOk result (JudgesRefutation query.now refutation.now) }
    ensures sound { IfOk result (λ v. v ≡ Accepted → (s : Structure) → Satisfies query.now s → ⊥) }
{
    skolem_is_well_formed();
    skolem_keeps_strata();
    ground_is_well_formed();
    accepted_leaves_no_structure();
    let set = skolemise(alloc, query)?;
    let universe = Universe::new(alloc, &set)?;
    if let Some(place) = first_missing(&set, &universe, refutation.instances.as_slice()) {
        return refused(place);
    }
    let ground = clauses_of(alloc, &set, &universe, &refutation.instances)?;
    let start = refutation.instances.len();
    let end = start.saturating_add(refutation.steps.len());
    match check_steps(alloc, &ground.cnf, refutation.steps.as_slice())? {
        StepsVerdict::Accepted { empty: true } => Ok(RefutationVerdict::Accepted),
        StepsVerdict::Accepted { empty: false } => refused(end),
        StepsVerdict::Refused { step } => refused(start.saturating_add(step as usize)),
    }
}

fn refused(place: usize) -> Result<RefutationVerdict, AllocError>
    ensures place { IfOk result (λ v. v ≡ Refused place) }
    ensures fits { OnOk result (place < 2 ^ 32) }
{
    let place = u32::try_from(place).map_err(|_| AllocError)?;
    Ok(RefutationVerdict::Refused { place })
}
