//! Negation normal forms, and the edges between sorts.
ghost use Rattle.sw_meaning.specs.WellFormed.{IsWellFormed};

use crate::asked::protocol_of;
use crate::asserts::{is, is_text};
use sqlite_items::Items;
use std::alloc::{AllocError, Global};
use std::process::Abort;
use std::test::Fail;
use sw_logic::{Edge, Scope, Signature};
use sw_meaning::Protocol;
use sw_protocol::strata_with;
use sw_skolem::nnf;
use sw_strata::StrataError;
use sw_text::{print_formula, read_formula};

const DECLARED: &str =
    "sort s; sort t; mutable relation a; mutable relation b; mutable relation c; mutable relation r(s, t); immutable constant k: s; immutable constant m: s;";

// A formula, its negation normal form, and that of its negation.
static FORMS: [(&str, &str, &str); 13] = [
    ("true", "true", "false"),
    ("a", "a", "!a"),
    ("!!a", "a", "!a"),
    ("k = m", "k = m", "k != m"),
    ("!(k = m)", "k != m", "k = m"),
    ("a -> b", "!a | b", "a & !b"),
    ("a & b & c", "a & b & c", "!a | !b | !c"),
    ("!(a | !b)", "!a & b", "a | !b"),
    ("a <-> b", "(!a | b) & (!b | a)", "(a & !b) | (b & !a)"),
    ("(a -> b) -> c", "(a & !b) | c", "(!a | b) & !c"),
    ("true & a", "true & a", "false | !a"),
    (
        "forall X: s. exists Y: t. r(X, Y)",
        "forall X: s. exists Y: t. r(X, Y)",
        "exists X: s. forall Y: t. !r(X, Y)",
    ),
    (
        "!(exists X: s, Y: t. r(X, Y) & a)",
        "forall X: s, Y: t. !r(X, Y) | !a",
        "exists X: s, Y: t. r(X, Y) & a",
    ),
];

// The canonical text of the formula's negation normal form, or of its negation's.
fn normal(alloc: Global, signature: &Signature, text: &str, negate: bool) -> Result<String, Fail> {
    let scope = Scope {
        sorts: Items::new(alloc),
        post: false,
    };
    let Ok(formula) = read_formula(alloc, signature, &scope, text.as_bytes()) else {
        return Err(Fail::from("a text of a formula is wanted"));
    };
    let form = nnf(alloc, &formula, negate)?;
    Ok(print_formula(alloc, signature, &scope, &form)?)
}

#[test]
fn formulas_have_their_normal_forms(rt: HostRuntime) -> Result<(), Fail> {
    let alloc = rt.alloc();
    let protocol = protocol_of(alloc, DECLARED)?;
    for (text, wanted, denied) in FORMS.iter() {
        let form = normal(alloc, &protocol.signature, text, false)?;
        is_text(&rt, text, form.as_str(), wanted);
        let form = normal(alloc, &protocol.signature, text, true)?;
        is_text(&rt, text, form.as_str(), denied);
    }
    Ok(())
}

const LED: &str = "sort node; sort value; immutable function g(value): node;";

// An edge beside those of the protocol, and the first sort on a cycle.
static EDGES: [(u32, u32, Option<u32>); 4] = [
    (1, 0, None),
    (0, 1, Some(0)),
    (0, 0, Some(0)),
    (1, 1, Some(1)),
];

fn cycle(alloc: Global, protocol: &Protocol, from: u32, to: u32) -> Result<Option<u32>, AllocError>
    requires { IsWellFormed protocol.now }
{
    let sorts = protocol.signature.sorts.len();
    if from as usize >= sorts || to as usize >= sorts {
        return Err(AllocError);
    }
    let mut extra = Items::new(alloc);
    extra.push(Edge { from, to })?;
    match strata_with(alloc, protocol, &extra) {
        Ok(_) => Ok(None),
        Err(StrataError::Cycle { sort }) => Ok(Some(sort)),
        Err(StrataError::Memory) => Err(AllocError),
    }
}

#[test]
fn edges_lie_on_cycles(rt: HostRuntime) -> Result<(), Fail> {
    let alloc = rt.alloc();
    let protocol = protocol_of(alloc, LED)?;
    for (from, to, wanted) in EDGES.iter() {
        is(
            &rt,
            cycle(alloc, &protocol, *from, *to)? == *wanted,
            "an edge",
        );
    }
    Ok(())
}
