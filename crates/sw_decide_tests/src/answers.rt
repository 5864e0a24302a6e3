//! Queries whose answers are known.
ghost use Rattle.std.specs.Prelude.{[]};
ghost use Rattle.sw_meaning.specs.Edges.{IsStratifiedWith};
ghost use Rattle.sw_meaning.specs.WellFormed.{IsWellFormed};

use crate::asked::{are_true, checked, protocol_of};
use crate::asserts::{is, is_text};
use std::alloc::{AllocError, Global};
use std::process::Abort;
use std::test::Fail;
use sw_asking::safety_at_start;
use sw_decide::{Decision, decide};
use sw_logic::{Query, Structure, fits};
use sw_meaning::Protocol;

// Declarations with sentences that are to be true together, and what is decided: `refuted`, or `found`
// with the sizes of the sorts, where the sentences leave one choice.
static ANSWERS: [(&str, &str); 34] = [
    // nothing is asked, or what cannot be
    ("", "found"),
    ("sort s;", "found 1"),
    ("init false;", "refuted"),
    ("sort s; init forall X: s. X != X;", "refuted"),
    // a domain has an element
    (
        "sort s; immutable relation p(s); init forall X: s. p(X); init forall X: s. !p(X);",
        "refuted",
    ),
    // without sorts
    (
        "mutable relation a; mutable relation b; init a <-> b; init a <-> !b;",
        "refuted",
    ),
    (
        "mutable relation a; mutable relation b; init !((a <-> b) <-> (b <-> a));",
        "refuted",
    ),
    (
        "mutable relation a; mutable relation b; init (a -> b) & (!a -> b); init !(a & b);",
        "found",
    ),
    // domains of exactly one, two and three elements
    (
        "sort s; immutable constant a: s; immutable constant b: s; init forall X: s, Y: s. X = Y;",
        "found 1",
    ),
    (
        "sort s; immutable constant c: s; immutable constant d: s; init c != d;",
        "found 2",
    ),
    (
        "sort s; immutable constant a: s; immutable constant b: s; immutable constant c: s; init forall X: s. X = a | X = b; init a != b & b != c;",
        "found 2",
    ),
    (
        "sort s; init exists X: s, Y: s, Z: s. X != Y & X != Z & Y != Z & (forall W: s. W = X | W = Y | W = Z);",
        "found 3",
    ),
    (
        "sort s; immutable constant a: s; immutable constant b: s; init forall X: s. X = a | X = b; init exists X: s, Y: s, Z: s. X != Y & X != Z & Y != Z;",
        "refuted",
    ),
    // equality
    (
        "sort s; immutable constant a: s; immutable constant b: s; immutable constant c: s; immutable relation p(s); init a = b & c = b; init p(a) & !p(c);",
        "refuted",
    ),
    (
        "sort s; sort t; immutable constant a: s; immutable constant b: s; immutable function f(s): t; init a = b & f(a) != f(b);",
        "refuted",
    ),
    (
        "sort s; immutable constant a: s; immutable constant b: s; immutable relation r(s, s); init r(a, b) & !r(b, a); init a = b;",
        "refuted",
    ),
    // functions of functions, and of several sorts
    (
        "sort s; sort t; sort u; immutable constant a: s; immutable constant b: s; immutable function f(s): t; immutable function g(t): u; init f(a) = f(b) & g(f(a)) != g(f(b));",
        "refuted",
    ),
    (
        "sort s; sort t; sort u; immutable constant a: s; immutable constant b: s; immutable function f(s): t; immutable function g(t): u; init f(a) != f(b) & g(f(a)) = g(f(b));",
        "found 2 2 1",
    ),
    (
        "sort s; sort t; sort u; immutable constant a: s; immutable constant d: t; immutable constant k: u; immutable function h(s, t): u; init forall X: s, Y: t. h(X, Y) = k; init exists X: s, Y: t. h(X, Y) != k;",
        "refuted",
    ),
    (
        "sort s; sort t; sort u; immutable constant a: s; immutable constant b: s; immutable constant d: t; immutable function h(s, t): u; init h(a, d) != h(b, d); init forall X: t. X = d;",
        "found 2 1 2",
    ),
    // an order of three elements: without a greatest one, and with one
    (
        "sort s; immutable relation lt(s, s); immutable constant a: s; immutable constant b: s; immutable constant c: s; init forall X: s. X = a | X = b | X = c; init forall X: s. !lt(X, X); init forall X: s, Y: s, Z: s. lt(X, Y) & lt(Y, Z) -> lt(X, Z); init forall X: s. lt(X, a) | lt(X, b) | lt(X, c);",
        "refuted",
    ),
    (
        "sort s; immutable relation lt(s, s); immutable constant a: s; immutable constant b: s; immutable constant c: s; init a != b & a != c & b != c; init forall X: s. X = a | X = b | X = c; init forall X: s. !lt(X, X); init forall X: s, Y: s, Z: s. lt(X, Y) & lt(Y, Z) -> lt(X, Z); init exists G: s. forall X: s. X = G | lt(X, G);",
        "found 3",
    ),
    // a relation that leads on from each of two elements, without a cycle, and with one
    (
        "sort s; immutable relation r(s, s); immutable relation path(s, s); immutable constant a: s; immutable constant b: s; init forall X: s. X = a | X = b; init forall X: s. r(X, a) | r(X, b); init forall X: s, Y: s. r(X, Y) -> path(X, Y); init forall X: s, Y: s, Z: s. path(X, Y) & path(Y, Z) -> path(X, Z); init forall X: s. !path(X, X);",
        "refuted",
    ),
    (
        "sort s; immutable relation r(s, s); immutable constant a: s; immutable constant b: s; init forall X: s. X = a | X = b; init forall X: s. r(X, a) | r(X, b); init forall X: s. !r(X, X);",
        "found 2",
    ),
    // a function from three elements onto two: not one to one
    (
        "sort s; sort t; immutable function f(s): t; immutable constant a: s; immutable constant b: s; immutable constant c: s; immutable constant d: t; immutable constant e: t; init a != b & a != c & b != c & (forall X: s. X = a | X = b | X = c); init d != e & (forall Y: t. Y = d | Y = e); init forall Y: t. f(a) = Y | f(b) = Y | f(c) = Y; init exists X: s, Y: s. X != Y & f(X) = f(Y);",
        "found 3 2",
    ),
    (
        "sort s; sort t; immutable function f(s): t; immutable constant a: s; immutable constant b: s; immutable constant c: s; immutable constant d: t; immutable constant e: t; init a != b & a != c & b != c; init forall Y: t. Y = d | Y = e; init forall X: s, Y: s. f(X) = f(Y) -> X = Y;",
        "refuted",
    ),
    // two quorums with a common member, and two without
    (
        "sort node; sort quorum; immutable relation member(node, quorum); mutable relation left(node); axiom forall Q: quorum, R: quorum. exists N: node. member(N, Q) & member(N, R); init exists Q: quorum. forall N: node. member(N, Q) -> left(N); init exists Q: quorum. forall N: node. member(N, Q) -> !left(N);",
        "refuted",
    ),
    (
        "sort node; sort quorum; immutable relation member(node, quorum); mutable relation left(node); axiom forall Q: quorum, R: quorum. exists N: node. member(N, Q) & member(N, R); init exists Q: quorum. forall N: node. member(N, Q) -> left(N); init exists N: node. !left(N);",
        "found",
    ),
    (
        "sort node; sort quorum; immutable relation member(node, quorum); init exists Q: quorum, R: quorum. Q != R & (forall N: node. !(member(N, Q) & member(N, R)));",
        "found",
    ),
    // a choice for each element of one sort among those of the next
    (
        "sort s; sort t; immutable relation r(s, t); init forall X: s. exists Y: t. r(X, Y); init forall X: s, Y: t. !r(X, Y);",
        "refuted",
    ),
    (
        "sort s; sort t; sort u; immutable relation r(s, t); immutable relation q(t, u); immutable relation p(s); init forall X: s. exists Y: t. r(X, Y); init forall Y: t. exists Z: u. q(Y, Z); init forall X: s, Y: t, Z: u. r(X, Y) & q(Y, Z) -> p(X); init exists X: s. !p(X);",
        "refuted",
    ),
    (
        "sort s; sort t; immutable relation r(s, t); init forall X: s. exists Y: t. r(X, Y); init exists X: s, Z: s. forall Y: t. !(r(X, Y) & r(Z, Y));",
        "found",
    ),
    // two classes at most of an equivalence, and three elements of which no two are of one
    (
        "sort s; immutable relation e(s, s); immutable constant a: s; immutable constant b: s; init forall X: s. e(X, X); init forall X: s, Y: s. e(X, Y) -> e(Y, X); init forall X: s, Y: s, Z: s. e(X, Y) & e(Y, Z) -> e(X, Z); init forall X: s. e(X, a) | e(X, b); init exists X: s, Y: s, Z: s. !e(X, Y) & !e(X, Z) & !e(Y, Z);",
        "refuted",
    ),
    (
        "sort s; immutable relation e(s, s); immutable constant a: s; immutable constant b: s; init forall X: s. e(X, X); init forall X: s, Y: s. e(X, Y) -> e(Y, X); init forall X: s, Y: s, Z: s. e(X, Y) & e(Y, Z) -> e(X, Z); init forall X: s. e(X, a) | e(X, b); init exists X: s, Y: s, Z: s. !e(X, Y) & X != Z & Y != Z;",
        "found",
    ),
];

// `found`, and the sizes of the sorts.
fn sizes(alloc: Global, structure: &Structure) -> Result<String, AllocError> {
    let mut text = String::from_str(alloc, "found")?;
    for size in structure.sizes.as_slice() {
        let one = format!(in alloc; " {size}")?;
        text.push_str(one.as_str())?;
    }
    Ok(text)
}

// What is found, where it is a structure of the sentences.
fn found(
    alloc: Global,
    protocol: &Protocol,
    query: &Query,
    structure: &Structure,
) -> Result<String, AllocError>
    requires { IsWellFormed protocol.now }
{
    let signature = &query.signature;
    if fits(signature, structure) && are_true(signature, structure, protocol.inits.as_slice()) {
        return sizes(alloc, structure);
    }
    String::from_str(alloc, "a sentence is false")
}

// What is decided of the sentences: `refuted` where the refutation is accepted, and the sizes of what
// was found where that has the sentences.
fn told(alloc: Global, protocol: &Protocol) -> Result<String, Fail>
    requires well_formed { IsWellFormed protocol.now }
    requires strata { IsStratifiedWith protocol.now [] }
{
    let query = safety_at_start(alloc, protocol)?;
    match decide(alloc, &query, None)? {
        Decision::Refuted(refutation) => {
            let verdict = checked(alloc, &query, &refutation)?;
            if verdict.as_str() == "accepted" {
                return Ok(String::from_str(alloc, "refuted")?);
            }
            Ok(verdict)
        }
        Decision::Found(structure) => Ok(found(alloc, protocol, &query, &structure)?),
        Decision::Spent(_) => Ok(String::from_str(alloc, "spent")?),
        Decision::TooLarge(_) => Ok(String::from_str(alloc, "too large")?),
    }
}

fn is_told(rt: &impl Abort, alloc: Global, row: (&str, &str)) -> Result<(), Fail> {
    let (text, wanted) = row;
    let text = format!(in alloc; "{text} safety false;")?;
    let protocol = protocol_of(alloc, text.as_str())?;
    let answer = told(alloc, &protocol)?;
    is(rt, answer.as_str().starts_with(wanted), answer.as_str());
    Ok(())
}

#[test]
fn queries_have_their_answers(rt: HostRuntime) -> Result<(), Fail> {
    for row in ANSWERS.iter() {
        is_told(&rt, rt.alloc(), *row)?;
    }
    Ok(())
}

// Four pigeons, and a hole of three for each.
const PIGEONS: &str =
    "mutable relation p11; mutable relation p12; mutable relation p13; mutable relation p21; mutable relation p22; mutable relation p23; mutable relation p31; mutable relation p32; mutable relation p33; mutable relation p41; mutable relation p42; mutable relation p43; init (p11 | p12 | p13) & (p21 | p22 | p23) & (p31 | p32 | p33) & (p41 | p42 | p43); init !(p11 & p21) & !(p11 & p31) & !(p11 & p41) & !(p21 & p31) & !(p21 & p41) & !(p31 & p41); init !(p12 & p22) & !(p12 & p32) & !(p12 & p42) & !(p22 & p32) & !(p22 & p42) & !(p32 & p42); init !(p13 & p23) & !(p13 & p33) & !(p13 & p43) & !(p23 & p33) & !(p23 & p43) & !(p33 & p43); safety false;";

// How many nonempty clauses were learnt where the budget was spent, if it was.
fn spent(decision: &Decision) -> Option<usize> {
    match decision {
        Decision::Spent(refutation) => Some(refutation.steps.len()),
        _ => None,
    }
}

#[test]
fn a_budget_is_spent_or_enough(rt: HostRuntime) -> Result<(), Fail> {
    let alloc = rt.alloc();
    let protocol = protocol_of(alloc, PIGEONS)?;
    is_text(&rt, "a query", told(alloc, &protocol)?.as_str(), "refuted");
    let query = safety_at_start(alloc, &protocol)?;
    let decision = decide(alloc, &query, Some(1))?;
    is(&rt, spent(&decision) == Some(1), "one step");
    let decision = decide(alloc, &query, Some(1_000_000))?;
    is(
        &rt,
        matches!(decision, Decision::Refuted(_)),
        "a budget of many",
    );
    Ok(())
}
