//! Texts of protocols: what `print` writes of them.
use crate::running::{check_on, is_ended};
use std::alloc::{AllocError, Global};
use std::process::Abort;
use std::test::Fail;

const RING_LINES: &str =
    "sort node;\nsort place;\nimmutable relation le(node, node);\nimmutable function at(node): place;\nimmutable constant first: node;\nmutable relation holds(node);\naxiom forall X: node, Y: node. (le(X, Y) & le(Y, X)) -> X = Y;\ninit forall N: node. holds(N) <-> N = first;\ntransition pass(a: node, b: node) modifies holds: holds(a) & at(b) != at(a) & (forall N: node. holds'(N) <-> N = b);\nsafety forall A: node, B: node. (holds(A) & holds(B)) -> at(A) = at(B);\n";

// Each declaration stands on a line of its own.
static PRINTED: [(&str, &str); 13] = [
    (
        "mutable relation x; mutable relation y; init !x & !y; transition t modifies x: y & x'; safety !x;",
        "mutable relation x;\nmutable relation y;\ninit !x & !y;\ntransition t modifies x: y & x';\nsafety !x;\n",
    ),
    ("", ""),
    ("# nothing\n", ""),
    ("sort s; sort t2;", "sort s;\nsort t2;\n"),
    (
        "sort s; mutable relation r; immutable relation q(s, s);",
        "sort s;\nmutable relation r;\nimmutable relation q(s, s);\n",
    ),
    (
        "sort s; sort t; mutable constant c: s; immutable function f(s,s): t;",
        "sort s;\nsort t;\nmutable constant c: s;\nimmutable function f(s, s): t;\n",
    ),
    (
        "mutable relation forall_; axiom true&true; init forall_; safety forall_ -> forall_;",
        "mutable relation forall_;\naxiom true & true;\ninit forall_;\nsafety forall_ -> forall_;\n",
    ),
    (
        "sort s; mutable relation a(s); mutable relation b; transition t(X: s, Y: s) modifies a, b: a'(X) & a(Y);",
        "sort s;\nmutable relation a(s);\nmutable relation b;\ntransition t(X: s, Y: s) modifies a, b: a'(X) & a(Y);\n",
    ),
    ("transition t: true;", "transition t: true;\n"),
    // functions and quantifiers that lead from sort to sort, but to none again
    (
        "sort node; sort value; immutable function g(value): node;",
        "sort node;\nsort value;\nimmutable function g(value): node;\n",
    ),
    (
        "sort n; mutable relation p(n, n); transition t(x: n): exists Y: n. forall Z: n. p(x, Y) & p(Z, Y);",
        "sort n;\nmutable relation p(n, n);\ntransition t(x: n): exists Y: n. forall Z: n. p(x, Y) & p(Z, Y);\n",
    ),
    // other blanks, brackets and comments
    (
        "sort node;sort place;immutable relation le(node,node);immutable function at(node):place;immutable constant first:node; # the ring\nmutable relation holds(node);axiom forall X:node,Y:node.le(X,Y)&le(Y,X)->X=Y;init forall N:node.(holds(N)<->N=first);transition pass(a:node,b:node)modifies holds:holds(a)&!(at(b)=at(a))&(forall N:node.holds'(N)<->N=b);safety (forall A:node,B:node.((holds(A)&holds(B))->at(A)=at(B)));",
        RING_LINES,
    ),
    // what was printed prints as it is
    (RING_LINES, RING_LINES),
];

// The first fault of the text stands at its place.
static REFUSED: [(&str, &str); 43] = [
    ("a $", "BadByte at 2"),
    ("sort ; $", "BadByte at 7"),
    // a word that no protocol can have there
    ("sort ;", "Syntax at 5"),
    ("sort s", "Syntax at 6"),
    ("sort _s;", "Syntax at 5"),
    ("sort s; a", "Syntax at 8"),
    ("mutable function f(s): t;", "Syntax at 8"),
    ("immutable function f: t;", "Syntax at 20"),
    ("mutable relation r();", "Syntax at 19"),
    ("axiom ;", "Syntax at 6"),
    ("axiom a b;", "Syntax at 8"),
    ("axiom a <-> b <-> c;", "Syntax at 14"),
    ("transition t(_X: s): a;", "Syntax at 13"),
    ("transition t() : a;", "Syntax at 13"),
    ("transition t modifies : a;", "Syntax at 22"),
    ("transition t(X: s) a;", "Syntax at 19"),
    // a name declared before
    ("sort n; sort n;", "Twice at 13"),
    ("sort n; mutable relation n;", "Twice at 25"),
    ("mutable relation a; transition a: true;", "Twice at 31"),
    ("sort n; transition t(n: n): true;", "Twice at 21"),
    ("transition t: true; transition t: true;", "Twice at 31"),
    (
        "mutable relation a; transition t modifies a, a: true;",
        "Twice at 45",
    ),
    // a name that is not declared
    ("init q;", "Unknown at 5"),
    ("sort n; init q;", "Unknown at 13"),
    ("mutable relation r(_s);", "Unknown at 19"),
    ("transition t modifies a: true;", "Unknown at 22"),
    // what the place of a formula does not allow
    ("mutable relation a; axiom a;", "AxiomMutable at 26"),
    ("mutable relation a; axiom a';", "AxiomMutable at 26"),
    ("immutable relation a; axiom a';", "PostState at 28"),
    ("mutable relation a; init a';", "PostState at 25"),
    (
        "immutable relation a; transition t modifies a: a;",
        "PostState at 44",
    ),
    ("mutable relation a; transition t: a';", "NotModified at 34"),
    (
        "mutable relation a; mutable relation b; transition t modifies a: a' & b';",
        "NotModified at 70",
    ),
    // a sort that functions and quantifiers lead from to itself: the first one that is declared
    (
        "sort node; immutable function f(node): node;",
        "NotStratified node",
    ),
    (
        "sort a; sort b; sort c; immutable function f(b): c; axiom forall X: c. exists Y: b. f(Y) = X;",
        "NotStratified b",
    ),
    (
        "sort a; mutable relation p(a, a); safety exists X: a. forall Y: a. p(X, Y);",
        "NotStratified a",
    ),
    (
        "sort n; axiom forall X: n. exists Y: n. X = Y;",
        "NotStratified n",
    ),
    (
        "sort n; sort m; mutable relation p(n, m); init !(exists X: m. forall Y: n. p(Y, X)); axiom forall X: n. exists Y: m. Y = Y & X = X;",
        "NotStratified n",
    ),
    (
        "sort n; mutable relation p(n, n); transition t(x: n): (exists Y: n. p(x, Y)) <-> (forall Y: n. exists Z: n. p(Y, Z));",
        "NotStratified n",
    ),
    // the numbers of arguments and their sorts
    ("sort n; mutable relation p(n); init p;", "Arity at 36"),
    (
        "sort n; mutable relation p(n); transition t(x: n): p(x, x);",
        "Arity at 51",
    ),
    (
        "sort n; sort m; immutable constant c: m; mutable relation p(n); init p(c);",
        "SortMismatch at 71",
    ),
    (
        "sort n; immutable constant c: n; axiom c;",
        "SortMismatch at 39",
    ),
];

// A front, a part so many times, and a back, as one text; and its first fault.
static LONG: [(&str, &str, u32, &str, &str); 11] = [
    ("init ", "!", 257, "a;", "TooDeep at 261"),
    ("sort s; axiom ", "!", 256, "a;", "Unknown at 270"),
    ("sort s; axiom ", "!", 257, "a;", "TooDeep at 270"),
    ("axiom ", "a -> ", 128, "a;", "Unknown at 6"),
    ("axiom ", "a -> ", 129, "a;", "TooDeep at 652"),
    ("axiom ", "a -> ", 129, "a", "TooDeep at 652"),
    ("axiom ", "a -> ", 129, "a sort s;", "TooDeep at 653"),
    ("transition t(", "X: s, ", 31, "Y: s): a;", "Unknown at 16"),
    ("transition t(", "X: s, ", 32, "Y: s): a;", "TooDeep at 205"),
    ("transition t(", "X: s, ", 32, "_: s): a;", "Syntax at 205"),
    (
        "transition t(",
        "X: s, ",
        31,
        "Y: s): exists Z: s. a;",
        "TooDeep at 213",
    ),
];

fn prints(rt: &impl Abort, alloc: Global, text: &str, wanted: &str) -> Result<(), AllocError> {
    let ended = check_on(alloc, "print", text.as_bytes(), &[], &[])?;
    is_ended(rt, &ended, 0, wanted, "");
    Ok(())
}

fn refuses(rt: &impl Abort, alloc: Global, text: &str, wanted: &str) -> Result<(), AllocError> {
    let ended = check_on(alloc, "print", text.as_bytes(), &[], &[])?;
    let line = format!(in alloc; "swiss: {wanted}\n")?;
    is_ended(rt, &ended, 3, "", line.as_str());
    Ok(())
}

#[test]
fn texts_of_protocols_are_printed_or_refused(rt: HostRuntime) -> Result<(), Fail> {
    let alloc = rt.alloc();
    for (text, wanted) in PRINTED.iter() {
        prints(&rt, alloc, text, wanted)?;
    }
    for (text, wanted) in REFUSED.iter() {
        refuses(&rt, alloc, text, wanted)?;
    }
    for (front, part, count, back, wanted) in LONG.iter() {
        let many = part.repeat(alloc, *count as usize)?;
        let text = format!(in alloc; "{front}{many}{back}")?;
        refuses(&rt, alloc, text.as_str(), wanted)?;
    }
    Ok(())
}
