//! Refutations that are accepted, and where others are refused.
use crate::asked::{checked, protocol_of};
use crate::asserts::is_text;
use sqlite_items::Items;
use std::alloc::Global;
use std::process::Abort;
use std::test::Fail;
use sw_asking::safety_at_start;
use sw_ground::{Instance, Refutation};
use sw_refute::{Clause, Derived, Lit};

const ONE: &str =
    "sort s; immutable relation p(s); init forall X: s. p(X); init forall X: s. !p(X); safety false;";

const OTHER: &str =
    "sort s; immutable relation p(s); init forall X: s. p(X); init forall X: s. p(X); safety false;";

// One term of the first sort, and two of the second.
const TWO_SORTS: &str =
    "sort s; sort t; immutable constant c: s; immutable constant d: t; immutable constant e: t; immutable relation p(s); init forall X: s. p(X); init forall X: s. !p(X); safety false;";

const EQUAL: &str =
    "sort s; immutable constant a: s; immutable constant b: s; immutable relation p(s); init a = b; init p(a); init !p(b); safety false;";

const TURNED: &str =
    "sort s; immutable constant a: s; immutable constant b: s; immutable relation p(s); init b = a; init p(a); init !p(b); safety false;";

const CHAIN: &str =
    "sort s; immutable constant a: s; immutable constant b: s; immutable constant c: s; init a = b; init b = c; init a != c; safety false;";

const UNLIKE_ITSELF: &str = "sort s; init forall X: s. X != X; safety false;";

const VALUES: &str =
    "sort s; sort t; immutable constant a: s; immutable constant b: s; immutable function f(s): t; init a = b; init f(a) != f(b); safety false;";

// Sentences; instances by their numbers (of a piece its number and terms, of equality the sort and
// terms, of congruence the symbol, the place, the terms and the other term); steps with their literals
// and hints; and what the check says.
static CHECKED: [(&str, &str, &str, &str); 29] = [
    (ONE, "of 0 0; of 1 0", "learn by 0 1", "accepted"),
    (
        ONE,
        "of 0 0; of 1 0",
        "learn 0 by 0; learn by 2 1",
        "accepted",
    ),
    // a step is missing
    (ONE, "of 0 0; of 1 0", "", "refused at 2"),
    (ONE, "", "", "refused at 0"),
    (ONE, "of 0 0; of 1 0", "learn 0 by 0", "refused at 3"),
    // a piece, a sort, a term that are not there, and too few or many terms
    (ONE, "of 0 0; of 2 0", "learn by 0 1", "refused at 1"),
    (
        ONE,
        "refl 1 0; of 0 0; of 1 0",
        "learn by 1 2",
        "refused at 0",
    ),
    (ONE, "of 0 0; of 1 1", "learn by 0 1", "refused at 1"),
    (ONE, "of 0; of 1 0", "learn by 0 1", "refused at 0"),
    (ONE, "of 0 0; of 1 0 0", "learn by 0 1", "refused at 1"),
    // a step that does not follow, and one that counts on what is not there
    (ONE, "of 0 0; of 1 0", "learn by 1", "refused at 2"),
    (
        ONE,
        "of 0 0; of 1 0",
        "learn 0 by 0; learn by 0",
        "refused at 3",
    ),
    (ONE, "of 0 0; of 1 0", "learn 2 by 0 1", "refused at 2"),
    (ONE, "of 0 0; of 1 0", "learn by 0 2", "refused at 2"),
    // the refutation of another query
    (OTHER, "of 0 0; of 1 0", "learn by 0 1", "refused at 2"),
    // a term of another sort
    (TWO_SORTS, "of 0 0; of 1 0", "learn by 0 1", "accepted"),
    (TWO_SORTS, "of 0 1; of 1 0", "learn by 0 1", "refused at 0"),
    (
        TWO_SORTS,
        "of 0 0; of 1 0; symm 0 0 1",
        "learn by 0 1",
        "refused at 2",
    ),
    (
        TWO_SORTS,
        "of 0 0; of 1 0; symm 1 0 1; congr 3 0 0 0",
        "learn by 0 1",
        "accepted",
    ),
    (
        TWO_SORTS,
        "of 0 0; of 1 0; congr 3 0 0 1",
        "learn by 0 1",
        "refused at 2",
    ),
    // equality
    (
        UNLIKE_ITSELF,
        "of 0 0; refl 0 0",
        "learn by 0 1",
        "accepted",
    ),
    (
        EQUAL,
        "of 0; of 1; of 2; congr 2 0 0 1",
        "learn by 0 1 2 3",
        "accepted",
    ),
    (
        EQUAL,
        "of 0; of 1; of 2; congr 2 1 0 1",
        "learn by 0 1 2 3",
        "refused at 3",
    ),
    (
        EQUAL,
        "of 0; of 1; of 2; congr 0 0 1",
        "learn by 0 1 2",
        "refused at 3",
    ),
    (
        TURNED,
        "of 0; of 1; of 2; congr 2 0 0 1",
        "learn by 0 1 2 3",
        "refused at 4",
    ),
    (
        TURNED,
        "of 0; of 1; of 2; symm 0 1 0; congr 2 0 0 1",
        "learn by 0 3 1 2 4",
        "accepted",
    ),
    (
        CHAIN,
        "of 0; of 1; of 2; trans 0 0 1 2",
        "learn by 0 1 2 3",
        "accepted",
    ),
    (
        CHAIN,
        "of 0; of 1; of 2; trans 0 0 1 3",
        "learn by 0 1 2 3",
        "refused at 3",
    ),
    (
        VALUES,
        "of 0; of 1; congr 2 0 0 1",
        "learn by 0 1 2",
        "accepted",
    ),
];

// The numbers that the text is, with one space before each.
fn numbers(alloc: Global, text: &str) -> Result<Items<u32>, Fail> {
    let mut all = Items::new(alloc);
    for word in text.split(' ').skip(1) {
        match word.parse::<u32>() {
            Ok(number) => all.push(number)?,
            Err(_) => return Err(Fail::from("a number is wanted")),
        }
    }
    Ok(all)
}

fn instance_of(alloc: Global, text: &str) -> Result<Instance, Fail> {
    let numbers = numbers(alloc, text)?;
    let kind = text.split(' ').next();
    match (kind, numbers.as_slice()) {
        (Some("of"), [piece, terms @ ..]) => {
            Ok(Instance::Of {
                piece: *piece,
                terms: Items::from_slice(alloc, terms)?,
            })
        }
        (Some("refl"), [sort, t]) => Ok(Instance::Reflexive { sort: *sort, t: *t }),
        (Some("symm"), [sort, t, u]) => {
            Ok(Instance::Symmetric {
                sort: *sort,
                t: *t,
                u: *u,
            })
        }
        (Some("trans"), [sort, t, u, v]) => {
            Ok(Instance::Transitive {
                sort: *sort,
                t: *t,
                u: *u,
                v: *v,
            })
        }
        (Some("congr"), [symbol, place, terms @ .., u]) => {
            Ok(Instance::Congruent {
                symbol: *symbol,
                place: *place,
                terms: Items::from_slice(alloc, terms)?,
                u: *u,
            })
        }
        _ => Err(Fail::from("an instance is wanted")),
    }
}

fn step_of(alloc: Global, text: &str) -> Result<Derived, Fail> {
    let Some((learnt, hints)) = text.split_once(" by") else {
        return Err(Fail::from("a step is wanted"));
    };
    let mut lits = Items::new(alloc);
    for number in numbers(alloc, learnt)?.as_slice() {
        lits.push(Lit(*number))?;
    }
    Ok(Derived {
        clause: Clause { lits },
        hints: numbers(alloc, hints)?,
    })
}

fn refutation_of(alloc: Global, instances: &str, steps: &str) -> Result<Refutation, Fail> {
    let mut refutation = Refutation {
        instances: Items::new(alloc),
        steps: Items::new(alloc),
    };
    if !instances.is_empty() {
        for text in instances.split("; ") {
            refutation.instances.push(instance_of(alloc, text)?)?;
        }
    }
    if !steps.is_empty() {
        for text in steps.split("; ") {
            refutation.steps.push(step_of(alloc, text)?)?;
        }
    }
    Ok(refutation)
}

fn is_checked(rt: &impl Abort, alloc: Global, row: (&str, &str, &str, &str)) -> Result<(), Fail> {
    let (text, instances, steps, wanted) = row;
    let protocol = protocol_of(alloc, text)?;
    let query = safety_at_start(alloc, &protocol)?;
    let refutation = refutation_of(alloc, instances, steps)?;
    let verdict = checked(alloc, &query, &refutation)?;
    is_text(rt, instances, verdict.as_str(), wanted);
    Ok(())
}

#[test]
fn refutations_are_accepted_or_refused(rt: HostRuntime) -> Result<(), Fail> {
    for row in CHECKED.iter() {
        is_checked(&rt, rt.alloc(), *row)?;
    }
    Ok(())
}
