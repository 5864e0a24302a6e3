//! Formulas in finite structures: where they are true, what is of a signature, and what is well sorted.
use crate::asserts::{is, is_text};
use crate::reading::{protocol_of, sentence_of, structure_of};
use sqlite_items::Items;
use std::alloc::Global;
use std::process::Abort;
use std::test::Fail;
use sw_logic::{
    Env, Pair, Scope, Signature, copy_formula, copy_structure, fits, fits_pair, holds, holds_pair,
    well_sorted,
};
use sw_models::print_structure;
use sw_text::print_formula;

const EDGES: &str =
    "sort node; mutable relation edge(node, node); immutable constant root: node; mutable relation on;";

const CROSSED: &str =
    "structure\nsize node 2\nrelation edge 0110\nconstant root 0\nrelation on 1\n";

const LATE: &str = "structure\nsize node 2\nrelation edge 1000\nconstant root 0\nrelation on 1\n";

const INTO_LAST: &str =
    "structure\nsize node 2\nrelation edge 0101\nconstant root 0\nrelation on 1\n";

const NONE: &str = "structure\nsize node 2\nrelation edge 0000\nconstant root 0\nrelation on 0\n";

const NONE_OF_LAST: &str =
    "structure\nsize node 2\nrelation edge 0000\nconstant root 1\nrelation on 0\n";
// of nine edges that from 2 to 1 alone
const OF_THREE: &str =
    "structure\nsize node 3\nrelation edge 000000010\nconstant root 2\nrelation on 0\n";

// A structure, a formula, and whether it is true.
static OVER_EDGES: [(&str, &str, bool); 22] = [
    (CROSSED, "forall X: node. exists Y: node. edge(X, Y)", true),
    (LATE, "forall X: node. exists Y: node. edge(X, Y)", false),
    (CROSSED, "exists Y: node. forall X: node. edge(X, Y)", false),
    (
        INTO_LAST,
        "exists Y: node. forall X: node. edge(X, Y)",
        true,
    ),
    (OF_THREE, "exists Y: node. edge(root, Y) & Y != root", true),
    (OF_THREE, "exists Y: node. edge(Y, root)", false),
    (
        OF_THREE,
        "forall X: node, Y: node. edge(X, Y) -> X = root",
        true,
    ),
    (
        OF_THREE,
        "exists X: node, Y: node. X != Y & X != root & Y != root",
        true,
    ),
    (
        CROSSED,
        "exists X: node, Y: node. X != Y & X != root & Y != root",
        false,
    ),
    (NONE, "true", true),
    (NONE, "false", false),
    (NONE, "!on", true),
    (CROSSED, "on & true", true),
    (NONE, "on | false", false),
    (NONE, "true & true & on", false),
    (NONE, "false | false | true", true),
    (NONE, "on -> false", true),
    (CROSSED, "on -> false", false),
    (CROSSED, "on <-> true", true),
    (NONE, "on <-> true", false),
    (NONE, "on <-> false", true),
    // a primed symbol reads the same structure where there is one
    (CROSSED, "on' & (exists X: node. edge'(root, X))", true),
];

const VALUES: &str =
    "sort node; sort place; sort kind; immutable function at(node, place): kind; immutable constant b: node; immutable constant q: place; immutable constant k: kind; mutable relation holds(kind);";

// of the six pairs of a node and a place each has a kind of its own
const SIX: &str =
    "structure\nsize node 3\nsize place 2\nsize kind 6\nfunction at 0 1 2 3 4 5\nconstant b 2\nconstant q 0\nconstant k 4\nrelation holds 000010\n";

static OVER_VALUES: [(&str, &str, bool); 5] = [
    (SIX, "at(b, q) = k", true),
    (SIX, "holds(at(b, q))", true),
    (
        SIX,
        "forall X: node, Y: place. at(X, Y) = k -> X = b & Y = q",
        true,
    ),
    (SIX, "exists X: node. holds(at(X, q)) & X != b", false),
    (
        SIX,
        "forall K: kind. exists X: node, Y: place. at(X, Y) = K",
        true,
    ),
];

// A structure before and one after, a formula, and whether it is true.
static OVER_PAIRS: [(&str, &str, &str, bool); 4] = [
    (
        NONE,
        CROSSED,
        "forall X: node. exists Y: node. edge'(X, Y)",
        true,
    ),
    (
        NONE,
        CROSSED,
        "forall X: node. exists Y: node. edge(X, Y)",
        false,
    ),
    (
        CROSSED,
        NONE,
        "forall X: node, Y: node. edge(X, Y) & !edge'(X, Y) | X = Y",
        true,
    ),
    (CROSSED, NONE, "on & !on'", true),
];

// A structure before and one after, and whether the pair is of the signature.
static PAIRS: [(&str, &str, bool); 4] = [
    (NONE, CROSSED, true),
    (OF_THREE, OF_THREE, true),
    // what is immutable may not change
    (NONE, NONE_OF_LAST, false),
    // nor may a size
    (CROSSED, OF_THREE, false),
];

fn is_true(
    rt: &impl Abort,
    alloc: Global,
    signature: &Signature,
    row: (&str, &str, bool),
) -> Result<(), Fail> {
    let (text, formula, wanted) = row;
    let structure = structure_of(alloc, signature, text)?;
    let sentence = sentence_of(alloc, signature, formula, true)?;
    let found = holds(signature, &structure, &sentence, &Env::new());
    is(rt, found == wanted, formula);
    is(rt, fits(signature, &structure), text);
    Ok(())
}

fn is_true_on(
    rt: &impl Abort,
    alloc: Global,
    signature: &Signature,
    row: (&str, &str, &str, bool),
) -> Result<(), Fail> {
    let (before, after, formula, wanted) = row;
    let pair = Pair {
        before: structure_of(alloc, signature, before)?,
        after: structure_of(alloc, signature, after)?,
    };
    let sentence = sentence_of(alloc, signature, formula, true)?;
    let found = holds_pair(signature, &pair, &sentence, &Env::new());
    is(rt, found == wanted, formula);
    Ok(())
}

fn is_pair(
    rt: &impl Abort,
    alloc: Global,
    signature: &Signature,
    row: (&str, &str, bool),
) -> Result<(), Fail> {
    let (before, after, wanted) = row;
    let pair = Pair {
        before: structure_of(alloc, signature, before)?,
        after: structure_of(alloc, signature, after)?,
    };
    is(rt, fits_pair(signature, &pair) == wanted, after);
    Ok(())
}

#[test]
fn formulas_are_true_where_they_should_be(rt: HostRuntime) -> Result<(), Fail> {
    let edges = protocol_of(rt.alloc(), EDGES)?;
    for row in OVER_EDGES.iter() {
        is_true(&rt, rt.alloc(), &edges.signature, *row)?;
    }
    for row in OVER_PAIRS.iter() {
        is_true_on(&rt, rt.alloc(), &edges.signature, *row)?;
    }
    for row in PAIRS.iter() {
        is_pair(&rt, rt.alloc(), &edges.signature, *row)?;
    }
    let values = protocol_of(rt.alloc(), VALUES)?;
    for row in OVER_VALUES.iter() {
        is_true(&rt, rt.alloc(), &values.signature, *row)?;
    }
    Ok(())
}

// Two signatures of which one text is read by both, but for what is said of it: a text of the first,
// and whether it is of the second.
static OF_ANOTHER: [(&str, &str, &str, bool); 4] = [
    (
        "sort n; sort m; immutable constant c: m;",
        "sort n; sort m; immutable constant c: n;",
        "structure\nsize n 2\nsize m 3\nconstant c 2\n",
        false,
    ),
    (
        "sort n; sort m; immutable constant c: m;",
        "sort n; sort m; immutable constant c: n;",
        "structure\nsize n 2\nsize m 3\nconstant c 1\n",
        true,
    ),
    (
        "sort n; sort m; mutable relation p(m);",
        "sort n; sort m; mutable relation p(n);",
        "structure\nsize n 2\nsize m 3\nrelation p 000\n",
        false,
    ),
    (
        "sort n; mutable relation p(n);",
        "sort n; mutable relation p(n); mutable relation q;",
        "structure\nsize n 2\nrelation p 00\n",
        false,
    ),
];

fn is_of(rt: &impl Abort, alloc: Global, row: (&str, &str, &str, bool)) -> Result<(), Fail> {
    let (first, second, text, wanted) = row;
    let structure = structure_of(alloc, &protocol_of(alloc, first)?.signature, text)?;
    let other = protocol_of(alloc, second)?;
    is(rt, fits(&other.signature, &structure) == wanted, second);
    Ok(())
}

// A formula, whether it may have primes, and whether it is well sorted with and without them.
static SORTED: [(&str, bool, bool); 3] = [
    ("forall X: node. exists Y: node. edge(X, Y)", true, true),
    ("forall X: node. exists Y: node. edge'(X, Y)", true, false),
    ("root = root & on'", true, false),
];

fn is_sorted(
    rt: &impl Abort,
    alloc: Global,
    signature: &Signature,
    row: (&str, bool, bool),
) -> Result<(), Fail> {
    let (text, with_primes, without) = row;
    let formula = sentence_of(alloc, signature, text, true)?;
    let mut scope = Scope {
        sorts: Items::new(alloc),
        post: true,
    };
    let sorted = well_sorted(signature, &formula, &scope);
    is(rt, sorted == with_primes, text);
    scope.post = false;
    let sorted = well_sorted(signature, &formula, &scope);
    is(rt, sorted == without, text);
    let copy = copy_formula(alloc, &formula)?;
    let printed = print_formula(alloc, signature, &scope, &copy)?;
    is_text(rt, "a copy", printed.as_str(), text);
    Ok(())
}

#[test]
fn what_fits_and_what_is_well_sorted_is_told(rt: HostRuntime) -> Result<(), Fail> {
    let alloc = rt.alloc();
    for row in OF_ANOTHER.iter() {
        is_of(&rt, alloc, *row)?;
    }
    let edges = protocol_of(alloc, EDGES)?;
    for row in SORTED.iter() {
        is_sorted(&rt, alloc, &edges.signature, *row)?;
    }
    let other = protocol_of(alloc, "mutable relation edge; mutable relation on;")?;
    let formula = sentence_of(alloc, &edges.signature, "exists X: node. edge(X, X)", false)?;
    let plain = Scope {
        sorts: Items::new(alloc),
        post: false,
    };
    is(
        &rt,
        !well_sorted(&other.signature, &formula, &plain),
        "another signature",
    );
    let crossed = structure_of(alloc, &edges.signature, CROSSED)?;
    let copy = copy_structure(alloc, &crossed)?;
    let printed = print_structure(alloc, &edges.signature, &copy)?;
    is_text(&rt, "a copy", printed.as_str(), CROSSED);
    Ok(())
}
