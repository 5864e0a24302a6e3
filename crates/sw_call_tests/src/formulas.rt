//! Texts of formulas: their canonical text, or their first fault and its place.
use crate::asserts::is_text;
use crate::reading::protocol_of;
use sqlite_items::Items;
use std::alloc::{AllocError, Global};
use std::process::Abort;
use std::test::Fail;
use sw_logic::{Scope, Signature};
use sw_text::{TextError, print_formula, read_formula};

const DECLARED: &str =
    "sort n; sort m; mutable relation a; mutable relation b; mutable relation e; mutable relation p(n); immutable relation q(n, n); immutable constant c: m; immutable constant d: n; immutable function f(n): m;";

// Texts of formulas with the variables `_1` and `_2` of sort n in scope, and what they are.
static IN_ONE_STATE: [(&str, &str); 89] = [
    // operators bind as the grammar says, and operands stand in brackets
    ("a & b | e", "(a & b) | e"),
    ("a | b & e", "a | (b & e)"),
    ("a & b & e", "a & b & e"),
    ("(a & b) & e", "(a & b) & e"),
    ("a | (b | e)", "a | (b | e)"),
    ("a -> b -> e", "a -> (b -> e)"),
    ("(a -> b) -> e", "(a -> b) -> e"),
    ("a <-> b -> e", "a <-> (b -> e)"),
    ("a <-> !(a | a)", "a <-> !(a | a)"),
    ("!a & !!b", "!a & !!b"),
    ("true | !c = f(d)", "true | c != f(d)"),
    (
        "forall X: n, Y: m. p(X) & a | b",
        "forall X: n, Y: m. (p(X) & a) | b",
    ),
    (
        "a -> forall X: n. b <-> e <-> a",
        "(a -> (forall X: n. b <-> e)) <-> a",
    ),
    (
        "exists X: n. forall Y: m. a -> b",
        "exists X: n. forall Y: m. a -> b",
    ),
    ("a & forall X: n. p(X) | a", "a & (forall X: n. p(X) | a)"),
    (
        "forall X:n,Y:m.exists Z:n.f(Z)=Y&p(X)",
        "forall X: n, Y: m. exists Z: n. f(Z) = Y & p(X)",
    ),
    ("!exists X: n. p(X)", "!(exists X: n. p(X))"),
    (
        "(exists X: n. p(X)) -> exists X: n. q(X, _1)",
        "(exists X: n. p(X)) -> (exists X: n. q(X, _1))",
    ),
    // each has one form
    ("true&false", "true & false"),
    ("p ( _1 )", "p(_1)"),
    ("q(d,_1)|a", "q(d, _1) | a"),
    ("(((a)))", "a"),
    ("f(d)=c", "f(d) = c"),
    ("f ( d )!=c", "f(d) != c"),
    ("!!a", "!!a"),
    ("!(d = _1)", "d != _1"),
    ("!d != _1", "!d != _1"),
    ("!d = _1", "d != _1"),
    ("a # a comment\n-> a", "a -> a"),
    ("a->b<->!e|a", "(a -> b) <-> (!e | a)"),
    ("a\t# c $\r\n&\n\tb#", "a & b"),
    ("\ra\r&\rb\r", "a & b"),
    ("p(_1) & q(_1, d) # and so on", "p(_1) & q(_1, d)"),
    ("exists _3: n. q(_3, _2)", "exists _3: n. q(_3, _2)"),
    // a byte that begins no token
    ("a $", "BadByte at 2"),
    ("-", "BadByte at 0"),
    ("a -b", "BadByte at 2"),
    ("a <- b", "BadByte at 2"),
    ("a<", "BadByte at 1"),
    ("a @ ;", "BadByte at 2"),
    ("zz - zz zz", "BadByte at 3"),
    // a word that no formula can have there
    ("", "Syntax at 0"),
    ("a &", "Syntax at 3"),
    ("a & # no more", "Syntax at 13"),
    ("& a", "Syntax at 0"),
    ("(a ; b)", "Syntax at 3"),
    ("(a", "Syntax at 2"),
    ("a =", "Syntax at 3"),
    ("a = b = c", "Syntax at 6"),
    ("c !== f(d)", "Syntax at 4"),
    ("a <->-> b", "Syntax at 5"),
    ("12x", "Syntax at 0"),
    ("a = zz zz", "Syntax at 7"),
    ("p(a = b)", "Syntax at 4"),
    ("p(a, )", "Syntax at 5"),
    ("p(_1) )", "Syntax at 6"),
    ("f(x)'", "Syntax at 4"),
    ("a b", "Syntax at 2"),
    ("a <-> b <-> c", "Syntax at 8"),
    ("(a <-> b <-> c)", "Syntax at 9"),
    ("forall X s", "Syntax at 9"),
    ("forall sort: s. a", "Syntax at 7"),
    ("forall X: s, . a", "Syntax at 13"),
    ("init", "Syntax at 0"),
    ("12", "Syntax at 0"),
    // a rule on names and sorts
    ("p", "Arity at 0"),
    ("p(c)", "SortMismatch at 2"),
    ("p(c, zz)", "Arity at 0"),
    ("zz", "Unknown at 0"),
    ("p(_3)", "Unknown at 2"),
    ("a'", "PostState at 0"),
    ("p'(_1)", "PostState at 0"),
    ("c", "SortMismatch at 0"),
    ("_1", "SortMismatch at 0"),
    ("p = c", "Arity at 0"),
    ("a = c", "SortMismatch at 0"),
    ("c = d", "SortMismatch at 4"),
    ("f(X) = c", "Unknown at 2"),
    ("exists X: k. a", "Unknown at 10"),
    ("exists p: n. a", "Twice at 7"),
    ("exists _1: n. a", "Twice at 7"),
    ("exists X: n, X: m. a", "Twice at 13"),
    ("exists X: n. exists X: n. a", "Twice at 20"),
    ("(exists X: n. p(X)) & p(X)", "Unknown at 24"),
    ("exists X: n. X", "SortMismatch at 13"),
    ("exists X: n. X' = X", "PostState at 13"),
    ("exists X: n. X(X) = X", "Arity at 13"),
    // the sixth `<->` on a path
    (
        "a <-> (a <-> (a <-> (a <-> (a <-> a))))",
        "a <-> (a <-> (a <-> (a <-> (a <-> a))))",
    ),
    (
        "a <-> (a <-> (a <-> (a <-> (a <-> (a <-> zz)))))",
        "TooDeep at 37",
    ),
];

// The same where symbols that may change may have primes.
static IN_TWO_STATES: [(&str, &str); 6] = [
    ("p' ( _1 )", "p'(_1)"),
    ("a'&!p'(_2)", "a' & !p'(_2)"),
    ("a' <-> a", "a' <-> a"),
    (
        "forall X: n. q(_1, X) -> _2 != X & p'(_2)",
        "forall X: n. q(_1, X) -> (_2 != X & p'(_2))",
    ),
    ("c' = c", "PostState at 0"),
    ("q(d, d) & q'(d, d)", "PostState at 10"),
];

// A front, a part so many times, and a back, as one text; and the fault that it has.
static LONG: [(&str, &str, u32, &str, &str); 12] = [
    // 256 nestings may be open, and so many in canonical text
    ("", "!", 256, "zz", "Unknown at 256"),
    ("", "!", 257, "zz", "TooDeep at 256"),
    ("", "!(", 128, "zz", "Syntax at 258"),
    ("", "!(", 129, "zz", "TooDeep at 256"),
    ("", "a -> ", 128, "zz", "Unknown at 640"),
    ("", "a -> ", 129, "zz", "TooDeep at 647"),
    ("", "a -> ", 129, "zz zz", "TooDeep at 648"),
    // and so many on the right of a conjunction
    ("a & ", "!", 256, "zz", "Unknown at 260"),
    ("a & ", "!", 257, "zz", "TooDeep at 260"),
    // 32 variables may be in scope, with the two around the text
    ("exists ", "X: n, ", 29, "Y: n. a", "Twice at 13"),
    ("exists ", "X: n, ", 30, "Y: n. a", "TooDeep at 187"),
    ("", "exists X: n. ", 31, "a", "TooDeep at 397"),
];

// The variables `_1` and `_2`, of sort n.
fn two_variables(alloc: Global, post: bool) -> Result<Scope, AllocError> {
    Ok(Scope {
        sorts: Items::from_slice(alloc, &[0, 0])?,
        post,
    })
}

// The canonical text of the formula that the text is, or its first fault and the place of this.
fn told(
    alloc: Global,
    signature: &Signature,
    scope: &Scope,
    text: &str,
) -> Result<String, AllocError> {
    match read_formula(alloc, signature, scope, text.as_bytes()) {
        Ok(formula) => print_formula(alloc, signature, scope, &formula),
        Err(TextError::BadByte { at }) => format!(in alloc; "BadByte at {at}"),
        Err(TextError::Syntax { at }) => format!(in alloc; "Syntax at {at}"),
        Err(TextError::TooDeep { at }) => format!(in alloc; "TooDeep at {at}"),
        Err(TextError::Broken(broken)) => {
            let rule = broken.rule;
            let at = broken.at;
            format!(in alloc; "{rule:?} at {at}")
        }
        Err(TextError::Memory) => String::from_str(alloc, "Memory"),
    }
}

fn is_told(
    rt: &impl Abort,
    alloc: Global,
    signature: &Signature,
    scope: &Scope,
    text: &str,
    wanted: &str,
) -> Result<(), AllocError> {
    let found = told(alloc, signature, scope, text)?;
    is_text(rt, text, found.as_str(), wanted);
    Ok(())
}

#[test]
fn texts_of_formulas_are_read_and_printed(rt: HostRuntime) -> Result<(), Fail> {
    let alloc = rt.alloc();
    let protocol = protocol_of(alloc, DECLARED)?;
    let scope = two_variables(alloc, false)?;
    for (text, wanted) in IN_ONE_STATE.iter() {
        is_told(&rt, alloc, &protocol.signature, &scope, text, wanted)?;
    }
    for (front, part, count, back, wanted) in LONG.iter() {
        let many = part.repeat(alloc, *count as usize)?;
        let text = format!(in alloc; "{front}{many}{back}")?;
        is_told(
            &rt,
            alloc,
            &protocol.signature,
            &scope,
            text.as_str(),
            wanted,
        )?;
    }
    let scope = two_variables(alloc, true)?;
    for (text, wanted) in IN_TWO_STATES.iter() {
        is_told(&rt, alloc, &protocol.signature, &scope, text, wanted)?;
    }
    Ok(())
}
