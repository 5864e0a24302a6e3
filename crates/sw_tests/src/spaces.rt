//! How large the spaces of templates are, and which texts name none.
use crate::running::{check_on, is_ended, run_on};
use std::alloc::{AllocError, Global};
use std::process::Abort;
use std::sync::Wait;
use std::test::Fail;
use std::thread::Threads;
use sw_edge::{OpenGate, Turn};

const NODE: &str = "sort node; mutable relation p(node);";

const TOKEN: &str =
    "sort node; mutable relation holds(node); immutable constant first: node; init forall N: node. holds(N) <-> N = first;";

const QUAD: &str = "sort node; immutable relation q(node, node, node, node);";

const INTO_NODE: &str = "sort node; sort value; immutable function g(value): node;";

const INTO_VALUE: &str = "sort node; sort value; immutable function h(node): value;";

// Over six variables 432 + 36 + 24 + 5 relations and 15 equalities.
const ATOMS_512: &str =
    "sort n; immutable relation a(n, n, n); immutable relation b(n, n, n); immutable relation c(n, n); immutable relation d(n); immutable relation e(n); immutable relation f(n); immutable relation g(n); immutable relation h; immutable relation i; immutable relation j; immutable relation k; immutable relation l;";

const ATOMS_513: &str =
    "sort n; immutable relation a(n, n, n); immutable relation b(n, n, n); immutable relation c(n, n); immutable relation d(n); immutable relation e(n); immutable relation f(n); immutable relation g(n); immutable relation h; immutable relation i; immutable relation j; immutable relation k; immutable relation l; immutable relation m;";

const EIGHTEEN: &str =
    "mutable relation a; mutable relation b; mutable relation c; mutable relation d; mutable relation e; mutable relation f; mutable relation g; mutable relation h; mutable relation i; mutable relation j; mutable relation k; mutable relation l; mutable relation m; mutable relation n; mutable relation o; mutable relation p; mutable relation q; mutable relation r;";

// Relations of 24 and of 25 arguments: 6^24 and 6^25 atoms over six variables, and 15 equalities.
const ARITY_24: &str =
    "sort n; immutable relation a(n, n, n, n, n, n, n, n, n, n, n, n, n, n, n, n, n, n, n, n, n, n, n, n);";

const ARITY_25: &str =
    "sort n; immutable relation a(n, n, n, n, n, n, n, n, n, n, n, n, n, n, n, n, n, n, n, n, n, n, n, n, n);";

// Command lines and texts of protocols, and what is told of the space.
static SIZES: [(&str, &str, &str); 11] = [
    (
        "space|forall 2 node literals 2 depth 1 terms 0",
        NODE,
        "atoms 3\ncubes 6\nclasses 21\n",
    ),
    // the words that may be left out, numbers with zeros, blanks and a comment
    (
        "space|forall 02 node # of one sort\n\tliterals 000000002",
        NODE,
        "atoms 3\ncubes 6\nclasses 21\n",
    ),
    // two runs of one quantifier
    (
        "space|forall 1 node forall 1 node literals 2",
        NODE,
        "atoms 3\ncubes 6\nclasses 21\n",
    ),
    // a constant is a term: 12 + 66 + 220 classes
    (
        "space|forall 2 node literals 3",
        TOKEN,
        "atoms 6\ncubes 12\nclasses 298\n",
    ),
    (
        "space|forall 2 node literals 3 terms 3",
        TOKEN,
        "atoms 6\ncubes 12\nclasses 298\n",
    ),
    // h(_1) = _2, where applications are terms
    (
        "space|forall 1 node exists 1 value literals 1 terms 1",
        INTO_VALUE,
        "atoms 1\ncubes 2\nclasses 2\n",
    ),
    (
        "space|forall 1 node exists 1 value literals 1",
        INTO_VALUE,
        "atoms 0\ncubes 0\nclasses 0\n",
    ),
    // a, !a and a & !a; then a | !a too
    (
        "space|literals 2 depth 2",
        "mutable relation a;",
        "atoms 1\ncubes 3\nclasses 4\n",
    ),
    ("space|literals 6", "", "atoms 0\ncubes 0\nclasses 0\n"),
    // 36 + 630 + 7,140 + 58,905 + 376,992 + 1,947,792 classes
    (
        "space|literals 6",
        EIGHTEEN,
        "atoms 18\ncubes 36\nclasses 2391495\n",
    ),
    // the most atoms
    (
        "space|forall 6 n literals 1",
        ATOMS_512,
        "atoms 512\ncubes 1024\nclasses 1024\n",
    ),
];

// Command lines and texts of protocols, and the line that tells the first fault.
static FAULTS: [(&str, &str, &str); 31] = [
    (
        "space|forall 7 node literals 1",
        QUAD,
        "swiss: space VariablesOver 7\n",
    ),
    (
        "space|forall 1 nodes literals 1",
        QUAD,
        "swiss: space UnknownSort at 9\n",
    ),
    (
        "space|forall 1 node literals 7",
        QUAD,
        "swiss: space LiteralsOver 7\n",
    ),
    // 6^4 + 15
    (
        "space|forall 6 node literals 1",
        QUAD,
        "swiss: space AtomsOver 1311\n",
    ),
    (
        "space|forall 6 n literals 1",
        ATOMS_513,
        "swiss: space AtomsOver 513\n",
    ),
    (
        "space|forall 6 n literals 6",
        ARITY_24,
        "swiss: space AtomsOver 4738381338321616911\n",
    ),
    (
        "space|forall 6 n literals 6",
        ARITY_25,
        "swiss: space AtomsOver 18446744073709551616\n",
    ),
    (
        "space|literals 6 depth 2",
        EIGHTEEN,
        "swiss: space CubesOver 2391495\n",
    ),
    (
        "space|forall 6 node literals 5",
        "sort node; immutable relation r(node, node, node);",
        "swiss: space SpaceTooLarge 173521902400\n",
    ),
    // g leads from value to node, and the template from node to value
    (
        "space|forall 1 node exists 1 value literals 1",
        INTO_NODE,
        "swiss: space NotStratified node\n",
    ),
    // the grammar
    ("space|forall", NODE, "swiss: space Syntax at 6\n"),
    (
        "space|forall 0 node literals 1",
        NODE,
        "swiss: space Syntax at 7\n",
    ),
    (
        "space|forall node literals 1",
        NODE,
        "swiss: space Syntax at 7\n",
    ),
    (
        "space|forall 1 sort literals 1",
        NODE,
        "swiss: space Syntax at 9\n",
    ),
    (
        "space|forall 1 terms literals 1",
        NODE,
        "swiss: space Syntax at 9\n",
    ),
    ("space|forall 1 node", NODE, "swiss: space Syntax at 13\n"),
    ("space|literals", NODE, "swiss: space Syntax at 8\n"),
    ("space|literals 0", NODE, "swiss: space Syntax at 9\n"),
    (
        "space|literals 0000000001",
        NODE,
        "swiss: space Syntax at 9\n",
    ),
    (
        "space|literals 1 depth 3",
        NODE,
        "swiss: space Syntax at 17\n",
    ),
    (
        "space|literals 1 terms 4",
        NODE,
        "swiss: space Syntax at 17\n",
    ),
    (
        "space|literals 1 terms 1 depth 1",
        NODE,
        "swiss: space Syntax at 19\n",
    ),
    // the order of faults: bytes, grammar, sorts, variables, literals, cycles, counts
    ("space|literals 0 $", NODE, "swiss: space BadByte at 11\n"),
    (
        "space|forall 1 nodes literals",
        NODE,
        "swiss: space Syntax at 23\n",
    ),
    (
        "space|forall 7 nodes literals 9",
        NODE,
        "swiss: space UnknownSort at 9\n",
    ),
    (
        "space|forall 7 node literals 9",
        NODE,
        "swiss: space VariablesOver 7\n",
    ),
    (
        "space|forall 999999999 node exists 999999999 node literals 1",
        NODE,
        "swiss: space VariablesOver 1999999998\n",
    ),
    (
        "space|forall 1 node exists 1 value literals 7",
        INTO_NODE,
        "swiss: space LiteralsOver 7\n",
    ),
    (
        "space|forall 3 node exists 3 node literals 1",
        QUAD,
        "swiss: space NotStratified node\n",
    ),
    // the faults of the protocol come before those of the template
    ("space|$", "sort n; init q;", "swiss: Unknown at 13\n"),
    (
        "space|$",
        "sort node; immutable function f(node): node;",
        "swiss: NotStratified node\n",
    ),
];

fn has_size<R: Threads + Wait + Sync + Abort>(
    rt: &R,
    alloc: Global,
    row: (&str, &str, &str),
) -> Result<(), AllocError> {
    let (line, text, sizes) = row;
    let ended = check_on(alloc, line, text.as_bytes(), &[], &[])?;
    is_ended(rt, &ended, 0, sizes, "");
    // the call that serves all commands says the same
    let ended = run_on(rt, alloc, line, text.as_bytes(), &[], &[], &OpenGate)?;
    is_ended(rt, &ended, 0, sizes, "");
    Ok(())
}

fn has_fault(rt: &impl Abort, alloc: Global, row: (&str, &str, &str)) -> Result<(), AllocError> {
    let (line, text, fault) = row;
    let ended = check_on(alloc, line, text.as_bytes(), &[], &[])?;
    is_ended(rt, &ended, 3, "", fault);
    Ok(())
}

#[test]
fn spaces_have_their_sizes_or_their_first_fault(rt: HostRuntime) -> Result<(), Fail> {
    let alloc = rt.alloc();
    for row in SIZES.iter() {
        has_size(&rt, alloc, *row)?;
    }
    for row in FAULTS.iter() {
        has_fault(&rt, alloc, *row)?;
    }
    // the front of the text is written
    let writes = [Turn::Take(10), Turn::Fail];
    let line = "space|forall 2 node literals 2";
    let ended = check_on(alloc, line, NODE.as_bytes(), &[], &writes)?;
    is_ended(&rt, &ended, 6, "atoms 3\ncu", "");
    Ok(())
}
