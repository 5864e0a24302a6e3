//! Protocols that the rows are, and what is made of their queries.
ghost use Rattle.std.specs.Prelude.{[], ◌≤◌, All, IfOk};
ghost use Rattle.sw_logic.specs.Truth.{binds};
ghost use Rattle.sw_logic.specs.Queries.{IsQuery};
ghost use Rattle.sw_ground.specs.Verdict.{IsStratifiedQuery};
ghost use Rattle.sw_meaning.specs.Edges.{IsStratifiedWith};
ghost use Rattle.sw_meaning.specs.WellFormed.{IsWellFormed};

use std::alloc::{AllocError, Global};
use std::test::Fail;
use sw_asking::read_stratified;
use sw_ground::{RefutationVerdict, check_refutation};
use sw_logic::{Env, Formula, Query, Signature, Structure, holds};
use sw_meaning::Protocol;
use sw_skolem::{skolem_is_well_formed, skolem_keeps_strata, skolemise};
use sw_truth::{MOST_LISTED, Refutation};
use sw_universe::{Size, query_size};

/// The protocol that the text is.
pub fn protocol_of(alloc: Global, text: &str) -> Result<Protocol, Fail>
    ensures well_formed { IfOk result (λ p. IsWellFormed p) }
    ensures strata { IfOk result (λ p. IsStratifiedWith p []) }
{
    match read_stratified(alloc, text.as_bytes()) {
        Ok(protocol) => Ok(protocol),
        Err(_) => Err(Fail::from("a text of a protocol is wanted")),
    }
}

/// How many ground terms and instances the query has.
pub fn size_of(alloc: Global, query: &Query) -> Result<Size, AllocError>
    requires query { IsQuery query.now }
    requires strata { IsStratifiedQuery query.now }
{
    skolem_is_well_formed();
    skolem_keeps_strata();
    let set = skolemise(alloc, query)?;
    query_size(alloc, &set)
}

/// What the check says of the refutation: `accepted`, or the place of its first fault.
pub fn checked(alloc: Global, query: &Query, refutation: &Refutation) -> Result<String, Fail>
    requires query { IsQuery query.now }
    requires strata { IsStratifiedQuery query.now }
{
    skolem_is_well_formed();
    skolem_keeps_strata();
    let set = skolemise(alloc, query)?;
    let size = query_size(alloc, &set)?;
    if size.terms > MOST_LISTED as u128 {
        return Err(Fail::from("fewer ground terms are wanted"));
    }
    match check_refutation(alloc, query, refutation)? {
        RefutationVerdict::Accepted => Ok(String::from_str(alloc, "accepted")?),
        RefutationVerdict::Refused { place } => Ok(format!(in alloc; "refused at {place}")?),
    }
}

/// Whether each of the sentences is true in the structure.
pub fn are_true(signature: &Signature, structure: &Structure, sentences: &[Formula]) -> bool
    requires { All (λ f. binds f ≤ 32) sentences.now }
{
    for sentence in sentences {
        if !holds(signature, structure, sentence, &Env::new()) {
            return false;
        }
    }
    true
}
