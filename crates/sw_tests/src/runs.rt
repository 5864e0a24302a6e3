//! What whole runs write: reports, refusals and what comes of faults.
use crate::running::{USAGE, check_on, is_ended, run_on};
use std::alloc::{AllocError, Global};
use std::process::Abort;
use std::sync::Wait;
use std::test::Fail;
use std::thread::Threads;
use sw_edge::{OpenGate, Turn};

pub const SWAP: &str =
    "mutable relation a; mutable relation b; init a & !b; transition swap modifies a, b: a & !b & !a' & b'; safety !(a & b);";

pub const SWAP_REPORT: &str =
    "classes 10\ninvariant a | b\ninvariant !a | !b\nclosed under single formulas\nverdict safe\n";

const SORTS: &str = "sort node; mutable relation p(node);";

pub const TOKEN: &str =
    "sort node; mutable relation holds(node); immutable constant first: node; init forall N: node. holds(N) <-> N = first; transition pass(a: node, b: node) modifies holds: holds(a) & (forall N: node. holds'(N) <-> N = b); safety forall A: node, B: node. holds(A) & holds(B) -> A = B;";

pub const TOKEN_REPORT: &str =
    "classes 298\ninvariant forall _1: node, _2: node. !holds(_1) | !holds(_2) | _1 = _2\nclosed under single formulas\nverdict safe\n";

// Four pigeons, each in one of three holes, and no two in the same.
const PIGEONS: &str =
    "mutable relation p11; mutable relation p12; mutable relation p13; mutable relation p21; mutable relation p22; mutable relation p23; mutable relation p31; mutable relation p32; mutable relation p33; mutable relation p41; mutable relation p42; mutable relation p43; init (p11 | p12 | p13) & (p21 | p22 | p23) & (p31 | p32 | p33) & (p41 | p42 | p43) & !(p11 & p21) & !(p11 & p31) & !(p11 & p41) & !(p21 & p31) & !(p21 & p41) & !(p31 & p41) & !(p12 & p22) & !(p12 & p32) & !(p12 & p42) & !(p22 & p32) & !(p22 & p42) & !(p32 & p42) & !(p13 & p23) & !(p13 & p33) & !(p13 & p43) & !(p23 & p33) & !(p23 & p43) & !(p33 & p43); safety false;";

// A relation of three places over forty constants.
const FORTY: &str =
    "sort s; immutable constant c0: s; immutable constant c1: s; immutable constant c2: s; immutable constant c3: s; immutable constant c4: s; immutable constant c5: s; immutable constant c6: s; immutable constant c7: s; immutable constant c8: s; immutable constant c9: s; immutable constant c10: s; immutable constant c11: s; immutable constant c12: s; immutable constant c13: s; immutable constant c14: s; immutable constant c15: s; immutable constant c16: s; immutable constant c17: s; immutable constant c18: s; immutable constant c19: s; immutable constant c20: s; immutable constant c21: s; immutable constant c22: s; immutable constant c23: s; immutable constant c24: s; immutable constant c25: s; immutable constant c26: s; immutable constant c27: s; immutable constant c28: s; immutable constant c29: s; immutable constant c30: s; immutable constant c31: s; immutable constant c32: s; immutable constant c33: s; immutable constant c34: s; immutable constant c35: s; immutable constant c36: s; immutable constant c37: s; immutable constant c38: s; immutable constant c39: s; immutable relation r(s, s, s);";

// A flag that a step sets though it may not, and thirteen constants.
const THIRTEEN: &str =
    "sort s; immutable constant c0: s; immutable constant c1: s; immutable constant c2: s; immutable constant c3: s; immutable constant c4: s; immutable constant c5: s; immutable constant c6: s; immutable constant c7: s; immutable constant c8: s; immutable constant c9: s; immutable constant c10: s; immutable constant c11: s; immutable constant c12: s; mutable relation x; init !x; transition t modifies x: x'; safety !x;";

// Command lines, texts, and the status and the report that they have.
static REPORTS: [(&str, &str, u8, &str); 16] = [
    ("synth|--breadth|literals 2", SWAP, 0, SWAP_REPORT),
    (
        "synth|--workers=1|--breadth=literals\t\n 2",
        SWAP,
        0,
        SWAP_REPORT,
    ),
    // each connective, with the same meaning
    (
        "synth|--breadth|literals 2",
        "mutable relation a; mutable relation b; init true & !(a -> b); transition swap modifies a, b: (a <-> !b) & (b -> false) & (a' <-> b) & b'; safety a -> !b;",
        0,
        SWAP_REPORT,
    ),
    // a candidate is tried again under a later entry
    (
        "synth|--breadth|literals 1",
        "mutable relation x; mutable relation y; init !x & !y; transition t modifies x: y & x'; safety !x;",
        0,
        "classes 4\ninvariant !y\ninvariant !x\nclosed under single formulas\nverdict safe\n",
    ),
    // without a start everything is inductive
    (
        "synth|--breadth|literals 1",
        "mutable relation a; init a & !a;",
        0,
        "classes 2\ninvariant a\ninvariant !a\nclosed under single formulas\nverdict safe\n",
    ),
    // an unsafe start is a violation
    (
        "synth|--breadth|literals 1",
        "mutable relation a; init a; safety !a;",
        11,
        "classes 2\ninvariant a\nclosed under single formulas\nverdict violated\n",
    ),
    // an unsafe step leaves the verdict open
    (
        "synth|--breadth|literals 1",
        "mutable relation a; init !a; transition set modifies a: a'; safety !a;",
        10,
        "classes 2\nclosed under single formulas\nverdict open\n",
    ),
    // what is not listed may not change: b stays as it is, and a may become what it likes
    (
        "synth|--breadth|literals 1",
        "mutable relation a; mutable relation b; init a & b; transition t modifies a: true; safety b;",
        0,
        "classes 4\ninvariant b\nclosed under single formulas\nverdict safe\n",
    ),
    // the one token that nodes hand on
    (
        "synth|--breadth|forall 2 node literals 3",
        TOKEN,
        0,
        TOKEN_REPORT,
    ),
    // a budget that is not spent changes nothing
    (
        "synth|--breadth|forall 2 node literals 3|--conflicts|1000000",
        TOKEN,
        0,
        TOKEN_REPORT,
    ),
    // what holds of all nodes at the start holds of one, since there is one
    (
        "synth|--breadth|exists 1 node literals 1",
        "sort node; mutable relation p(node); init forall N: node. p(N);",
        0,
        "classes 2\ninvariant exists _1: node. p(_1)\nclosed under single formulas\nverdict safe\n",
    ),
    // a function from one sort to another, at the variable of the first
    (
        "synth|--breadth|forall 1 node exists 1 value literals 1 terms 1",
        "sort node; sort value; immutable function h(node): value;",
        0,
        "classes 2\nclosed under single formulas\nverdict safe\n",
    ),
    ("synth", SORTS, 0, "classes 0\nverdict safe\n"),
    (
        "synth",
        "mutable relation a; axiom true;",
        0,
        "classes 0\nverdict safe\n",
    ),
    ("synth", PIGEONS, 0, "classes 0\nverdict safe\n"),
    (
        "synth|--breadth|literals 4",
        SWAP,
        0,
        "classes 15\ninvariant a | b\ninvariant !a | !b\nclosed under single formulas\nverdict safe\n",
    ),
];

// Eight relations that stay as they are, so each literal that is true at the start is an entry.
const EIGHT: &str =
    "mutable relation a; mutable relation b; mutable relation c; mutable relation d; mutable relation e; mutable relation f; mutable relation g; mutable relation h; init a & !b & c & !d & e & !f & g & !h; transition stay: true; safety a & !h;";

// There are 16 + 120 + 560 classes.
const EIGHT_REPORT: &str =
    "classes 696\ninvariant a\ninvariant !b\ninvariant c\ninvariant !d\ninvariant e\ninvariant !f\ninvariant g\ninvariant !h\nclosed under single formulas\nverdict safe\n";

// Command lines and texts that are read and then refused, with the status and this line.
static REFUSED: [(&str, &str, u8, &str); 11] = [
    // the template's own faults, then a cycle, then the counts
    (
        "synth|--breadth|literals 7",
        SWAP,
        3,
        "swiss: breadth LiteralsOver 7\n",
    ),
    (
        "synth|--breadth|literals2",
        SWAP,
        3,
        "swiss: breadth Syntax at 0\n",
    ),
    (
        "synth|--breadth|forall 1 edge literals 1",
        SORTS,
        3,
        "swiss: breadth UnknownSort at 9\n",
    ),
    (
        "synth|--breadth|forall 1 node exists 1 value literals 1",
        "sort node; sort value; immutable function g(value): node;",
        3,
        "swiss: breadth NotStratified node\n",
    ),
    (
        "synth|--breadth|forall 6 node literals 5",
        "sort node; immutable relation q(node, node, node, node);",
        3,
        "swiss: breadth AtomsOver 1311\n",
    ),
    // the faults of the text come first
    ("synth", "sort n; sort n;", 3, "swiss: Twice at 13\n"),
    (
        "synth|--breadth|literals 7",
        "a $",
        3,
        "swiss: BadByte at 2\n",
    ),
    (
        "synth|--breadth|literals 7",
        "sort n; init q;",
        3,
        "swiss: Unknown at 13\n",
    ),
    // queries that end a search
    (
        "synth|--conflicts|1",
        PIGEONS,
        4,
        "swiss: Spent on safety at start: 1\n",
    ),
    (
        "synth",
        FORTY,
        4,
        "swiss: TooLarge on safety at start: terms 40, instances 7745641\n",
    ),
    // a formula to finish with: the step's three sentences and its end at 19^6 choices, and 19 + 19^2 + 19^3
    (
        "synth|--finish|exists 6 s literals 1",
        THIRTEEN,
        4,
        "swiss: TooLarge on join t of exists _1: s, _2: s, _3: s, _4: s, _5: s, _6: s. !x: terms 19, instances 47053123\n",
    ),
];

// A flag that only a set flag sets another, which is then unsafe; and a third that is never set.
const THIRD: &str =
    "mutable relation x; mutable relation y; mutable relation z; init !x & !y & !z; transition t modifies x: y & x'; transition u modifies y: (x | z) & y'; safety !x;";

pub const UNSETTLED: &str =
    "mutable relation x; mutable relation y; init !x & !y; transition t modifies x: y & x'; safety !x;";

const SET: &str = "mutable relation a; init !a; transition set modifies a: a'; safety !a;";

// Searches with a template to finish with, and the status and the report that they have.
pub static FINISHED: [(&str, &str, u8, &str); 9] = [
    // the formula that joins shows safety, which is open without it
    (
        "synth|--finish|literals 1",
        UNSETTLED,
        0,
        "classes 0\nverdict safe with !y\n",
    ),
    ("synth", UNSETTLED, 10, "classes 0\nverdict open\n"),
    // no formula joins
    (
        "synth|--finish|literals 1",
        SET,
        10,
        "classes 0\nverdict exhausted\n",
    ),
    (
        "synth|--breadth|literals 1|--finish|literals 1",
        SET,
        10,
        "classes 2\nclosed under single formulas\nverdict exhausted\n",
    ),
    // none joins alone, and one does under the list
    (
        "synth|--finish|literals 1",
        THIRD,
        10,
        "classes 0\nverdict exhausted\n",
    ),
    (
        "synth|--finish|literals 1|--breadth|literals 1",
        THIRD,
        0,
        "classes 6\ninvariant !z\nclosed under single formulas\nverdict safe with !y\n",
    ),
    // no formula is looked for where the list shows safety, or where a start is unsafe
    (
        "synth|--breadth|literals 2|--finish|literals 1",
        SWAP,
        0,
        SWAP_REPORT,
    ),
    (
        "synth|--finish|literals 1",
        "mutable relation a; init a; safety !a;",
        11,
        "classes 0\nverdict violated\n",
    ),
    // alone the template has no cycle
    (
        "synth|--finish|forall 1 b exists 1 a literals 1",
        "sort a; sort b;",
        0,
        "classes 0\nverdict safe\n",
    ),
];

// Searches whose template to finish with is refused, or whose other template is refused before it.
static UNFINISHED: [(&str, &str, u8, &str); 7] = [
    // the edges of both templates have a cycle
    (
        "synth|--breadth|forall 1 a exists 1 b literals 1|--finish|forall 1 b exists 1 a literals 1",
        "sort a; sort b;",
        3,
        "swiss: finish NotStratified a\n",
    ),
    (
        "synth|--breadth|literals 2|--finish|literals 7",
        SWAP,
        3,
        "swiss: finish LiteralsOver 7\n",
    ),
    (
        "synth|--finish|forall 1 edge literals 1",
        SORTS,
        3,
        "swiss: finish UnknownSort at 9\n",
    ),
    (
        "synth|--finish|forall 6 node literals 5",
        "sort node; immutable relation q(node, node, node, node);",
        3,
        "swiss: finish AtomsOver 1311\n",
    ),
    // each fault of the other template comes first, and those of the input before both
    (
        "synth|--finish|literals2|--breadth|literals 7",
        SWAP,
        3,
        "swiss: breadth LiteralsOver 7\n",
    ),
    (
        "synth|--finish|literals2|--breadth|forall 6 node literals 5",
        "sort node; immutable relation q(node, node, node, node);",
        3,
        "swiss: breadth AtomsOver 1311\n",
    ),
    (
        "synth|--finish|literals2",
        "sort n; init q;",
        3,
        "swiss: Unknown at 13\n",
    ),
];

// Command lines whose answer comes before the source is read: the status and the line.
static UNREAD: [(&str, u8, &str); 15] = [
    ("", 2, USAGE),
    ("synth|--workers|0", 2, USAGE),
    ("synth|--finish", 2, USAGE),
    ("synth|--workers|2|--workers|2", 2, USAGE),
    ("drill|2", 2, USAGE),
    ("synth|--breadth|literals 2|more", 2, USAGE),
    ("certify", 3, "swiss: Unbuilt\n"),
    ("certify|--breadth|literals 2", 3, "swiss: Unbuilt\n"),
    ("check", 3, "swiss: Unbuilt\n"),
    ("drill|6", 3, "swiss: Unbuilt\n"),
    // and five that do read
    ("space|literals 2", 5, "swiss: read fault\n"),
    ("synth", 5, "swiss: read fault\n"),
    ("synth|--finish|x", 5, "swiss: read fault\n"),
    ("synth|--workers|2", 5, "swiss: read fault\n"),
    ("synth|--finish|x|--workers|64", 5, "swiss: read fault\n"),
];

// The same of the call that needs no threads.
static CHECK_UNREAD: [(&str, u8, &str); 8] = [
    ("", 2, USAGE),
    ("space", 2, USAGE),
    ("print|more", 2, USAGE),
    ("synth", 2, USAGE),
    ("drill|6", 2, USAGE),
    ("check", 3, "swiss: Unbuilt\n"),
    ("space|literals 2", 5, "swiss: read fault\n"),
    ("print", 5, "swiss: read fault\n"),
];

fn reports<R: Threads + Wait + Sync + Abort>(
    rt: &R,
    alloc: Global,
    row: (&str, &str, u8, &str),
) -> Result<(), AllocError> {
    let (line, text, status, report) = row;
    let ended = run_on(rt, alloc, line, text.as_bytes(), &[], &[], &OpenGate)?;
    is_ended(rt, &ended, status, report, "");
    Ok(())
}

fn refuses<R: Threads + Wait + Sync + Abort>(
    rt: &R,
    alloc: Global,
    row: (&str, &str, u8, &str),
) -> Result<(), AllocError> {
    let (line, text, status, refusal) = row;
    let ended = run_on(rt, alloc, line, text.as_bytes(), &[], &[], &OpenGate)?;
    is_ended(rt, &ended, status, "", refusal);
    Ok(())
}

// The source fails at the first read.
fn is_unread<R: Threads + Wait + Sync + Abort>(
    rt: &R,
    alloc: Global,
    row: (&str, u8, &str),
) -> Result<(), AllocError> {
    let (line, status, refusal) = row;
    let ended = run_on(rt, alloc, line, &[], &[Turn::Fail], &[], &OpenGate)?;
    is_ended(rt, &ended, status, "", refusal);
    Ok(())
}

fn check_is_unread(
    rt: &impl Abort,
    alloc: Global,
    row: (&str, u8, &str),
) -> Result<(), AllocError> {
    let (line, status, refusal) = row;
    let ended = check_on(alloc, line, &[], &[Turn::Fail], &[])?;
    is_ended(rt, &ended, status, "", refusal);
    Ok(())
}

#[test]
fn command_lines_and_texts_have_their_answers(rt: HostRuntime) -> Result<(), Fail> {
    for row in REPORTS.iter() {
        reports(&rt, rt.alloc(), *row)?;
    }
    for row in REFUSED.iter() {
        refuses(&rt, rt.alloc(), *row)?;
    }
    for row in UNREAD.iter() {
        is_unread(&rt, rt.alloc(), *row)?;
    }
    for row in CHECK_UNREAD.iter() {
        check_is_unread(&rt, rt.alloc(), *row)?;
    }
    Ok(())
}

#[test]
fn safety_is_settled_by_a_formula_that_joins_or_none_does(rt: HostRuntime) -> Result<(), Fail> {
    for row in FINISHED.iter() {
        reports(&rt, rt.alloc(), *row)?;
    }
    Ok(())
}

#[test]
fn the_template_to_finish_with_is_refused_after_the_other(rt: HostRuntime) -> Result<(), Fail> {
    for row in UNFINISHED.iter() {
        refuses(&rt, rt.alloc(), *row)?;
    }
    Ok(())
}

#[test]
fn eight_relations_are_searched_with_three_literals(rt: HostRuntime) -> Result<(), Fail> {
    let row = ("synth|--breadth|literals 3", EIGHT, 0, EIGHT_REPORT);
    reports(&rt, rt.alloc(), row)?;
    Ok(())
}

#[test]
fn a_failed_read_or_write_is_told(rt: HostRuntime) -> Result<(), Fail> {
    let alloc = rt.alloc();
    let line = "synth|--breadth|literals 2";
    let text = SWAP.as_bytes();
    let reads = [Turn::Take(100), Turn::Fail];
    let ended = run_on(&rt, alloc, line, text, &reads, &[], &OpenGate)?;
    is_ended(&rt, &ended, 5, "", "swiss: read fault\n");
    // the front of the text is written
    let writes = [Turn::Take(10), Turn::Fail];
    let ended = run_on(&rt, alloc, line, text, &[], &writes, &OpenGate)?;
    is_ended(&rt, &ended, 6, "classes 10", "");
    let ended = check_on(alloc, "print", text, &[], &writes)?;
    is_ended(&rt, &ended, 6, "mutable re", "");
    Ok(())
}

#[test]
fn the_longest_input_has_1048576_bytes(rt: HostRuntime) -> Result<(), Fail> {
    let alloc = rt.alloc();
    let long = vec![in alloc; b'#'; 1_048_577]?;
    let ended = run_on(&rt, alloc, "synth", long.as_slice(), &[], &[], &OpenGate)?;
    is_ended(&rt, &ended, 3, "", "swiss: input too long\n");
    let longest = vec![in alloc; b'#'; 1_048_576]?;
    let ended = run_on(&rt, alloc, "synth", longest.as_slice(), &[], &[], &OpenGate)?;
    is_ended(&rt, &ended, 0, "classes 0\nverdict safe\n", "");
    Ok(())
}
