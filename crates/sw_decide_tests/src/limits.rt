//! How large queries are, and the largest that are decided.
ghost use Rattle.sw_logic.specs.Queries.{IsQuery};
ghost use Rattle.sw_ground.specs.Verdict.{IsStratifiedQuery};

use crate::asked::{protocol_of, size_of};
use crate::asserts::{is, is_text};
use std::alloc::{AllocError, Global};
use std::process::Abort;
use std::test::Fail;
use sw_asking::safety_at_start;
use sw_decide::{Decision, decide};
use sw_ground::{GroundError, all_instances};
use sw_logic::Query;
use sw_skolem::{skolem_is_well_formed, skolem_keeps_strata, skolemise};
use sw_truth::MOST_LISTED;
use sw_universe::{Universe, query_size};

// Sentences to be true together, how many ground terms they have, and how many instances.
static SIZES: [(&str, u128, u128); 7] = [
    ("mutable relation a; init a;", 0, 1),
    // an element of its own: two pieces, three of equality, one of congruence
    (
        "sort s; immutable relation p(s); init forall X: s. p(X); init forall X: s. !p(X);",
        1,
        6,
    ),
    // a variable that does not occur
    ("sort s; mutable relation a; init forall X: s. a;", 1, 4),
    // a disjunction is one piece, a conjunction as many as its parts have
    (
        "sort s; immutable constant a: s; immutable constant b: s; immutable relation p(s); init (forall X: s. p(X)) | (forall Y: s. !p(Y));",
        2,
        22,
    ),
    (
        "sort s; immutable constant a: s; immutable constant b: s; immutable relation p(s); init forall X: s. p(X) & (forall Y: s. !p(Y));",
        2,
        22,
    ),
    // functions, and one in the place of an existential variable
    (
        "sort s; sort t; immutable constant a: s; immutable constant b: s; immutable function f(s): t; immutable relation r(s, t); init forall X: s, Y: t. r(X, Y);",
        4,
        52,
    ),
    (
        "sort s; sort t; immutable constant a: s; immutable relation r(s, t); init forall X: s. exists Y: t. r(X, Y);",
        2,
        10,
    ),
];

fn is_sized(rt: &impl Abort, alloc: Global, row: (&str, u128, u128)) -> Result<(), Fail> {
    let (text, terms, instances) = row;
    let text = format!(in alloc; "{text} safety false;")?;
    let protocol = protocol_of(alloc, text.as_str())?;
    let query = safety_at_start(alloc, &protocol)?;
    let size = size_of(alloc, &query)?;
    is(rt, size.terms == terms, text.as_str());
    is(rt, size.instances == instances, text.as_str());
    Ok(())
}

#[test]
fn queries_have_their_sizes(rt: HostRuntime) -> Result<(), Fail> {
    for row in SIZES.iter() {
        is_sized(&rt, rt.alloc(), *row)?;
    }
    Ok(())
}

// How many constants each sort has, what else is declared, what is decided of the query, which has the
// sentence `false`, and whether all its instances are listed.
static LIMITS: [(&[u32], &str, &str, &str); 5] = [
    (
        &[40],
        "immutable relation r(s0, s0, s0);",
        "too large: terms 40, instances 7745641",
        "too large: 7745641",
    ),
    // 128 ground terms at most
    (&[128], "", "refuted", "listed: 2113665"),
    (
        &[129],
        "",
        "too large: terms 129, instances 2163460",
        "listed: 2163460",
    ),
    // 4,194,304 instances at most
    (
        &[34, 52, 10, 6, 3, 2, 2],
        "immutable relation r(s0, s0, s0); mutable relation q; init q; init q;",
        "refuted",
        "listed: 4194304",
    ),
    (
        &[34, 52, 10, 6, 3, 2, 2],
        "immutable relation r(s0, s0, s0); mutable relation q; init q; init q; init q;",
        "too large: terms 109, instances 4194305",
        "too large: 4194305",
    ),
];

// A sort with so many constants.
fn push_sort(alloc: Global, sort: usize, count: u32, text: &mut String) -> Result<(), AllocError> {
    let declared = format!(in alloc; "sort s{sort};")?;
    text.push_str(declared.as_str())?;
    for i in 0..count {
        let constant = format!(in alloc; "immutable constant c{sort}_{i}: s{sort};")?;
        text.push_str(constant.as_str())?;
    }
    Ok(())
}

fn text_of(alloc: Global, counts: &[u32], more: &str) -> Result<String, AllocError> {
    let mut text = String::new(alloc);
    for (sort, count) in counts.iter().enumerate() {
        push_sort(alloc, sort, *count, &mut text)?;
    }
    text.push_str(more)?;
    Ok(text)
}

fn told(alloc: Global, query: &Query) -> Result<String, AllocError>
    requires query { IsQuery query.now }
    requires strata { IsStratifiedQuery query.now }
{
    match decide(alloc, query, None)? {
        Decision::Refuted(_) => String::from_str(alloc, "refuted"),
        Decision::Found(_) => String::from_str(alloc, "found"),
        Decision::Spent(_) => String::from_str(alloc, "spent"),
        Decision::TooLarge(size) => {
            let terms = size.terms;
            let instances = size.instances;
            format!(in alloc; "too large: terms {terms}, instances {instances}")
        }
    }
}

// How many instances are listed, or that they are too many.
fn listed(alloc: Global, query: &Query) -> Result<String, AllocError>
    requires query { IsQuery query.now }
    requires strata { IsStratifiedQuery query.now }
{
    skolem_is_well_formed();
    skolem_keeps_strata();
    let set = skolemise(alloc, query)?;
    let size = query_size(alloc, &set)?;
    if size.terms > MOST_LISTED as u128 {
        return String::from_str(alloc, "not listed");
    }
    let universe = Universe::new(alloc, &set)?;
    match all_instances(alloc, &set, &universe) {
        Ok(instances) => {
            let count = instances.len();
            format!(in alloc; "listed: {count}")
        }
        Err(GroundError::TooLarge { count }) => format!(in alloc; "too large: {count}"),
        Err(GroundError::Memory) => Err(AllocError),
    }
}

fn is_limited(rt: &impl Abort, alloc: Global, row: (&[u32], &str, &str, &str)) -> Result<(), Fail> {
    let (counts, more, decided, all) = row;
    let text = text_of(alloc, counts, more)?;
    let protocol = protocol_of(alloc, text.as_str())?;
    let query = safety_at_start(alloc, &protocol)?;
    is_text(rt, more, told(alloc, &query)?.as_str(), decided);
    is_text(rt, more, listed(alloc, &query)?.as_str(), all);
    Ok(())
}

#[test]
fn queries_past_the_limits_are_too_large(rt: HostRuntime) -> Result<(), Fail> {
    for row in LIMITS.iter() {
        is_limited(&rt, rt.alloc(), *row)?;
    }
    Ok(())
}
