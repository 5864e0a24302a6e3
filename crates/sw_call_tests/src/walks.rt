//! Walks over the classes of spaces, and the formulas of classes.
ghost use Rattle.std.specs.Prelude.{◌<◌, length};
ghost use Rattle.sw_enumerate.specs.Spaces.{parts_in};

use crate::asserts::{is, is_text};
use sqlite_items::Items;
use std::alloc::{AllocError, Global};
use std::process::Abort;
use std::test::Fail;
use sw_enumerate::Space;
use sw_logic::{Scope, Signature};
use sw_protocol::read_protocol;
use sw_space::space_of;
use sw_text::print_formula;

const DECLARED: &str =
    "sort a; sort b; sort d; immutable relation le(a, a); immutable relation r(a, d); immutable constant c: a; immutable function f(a): b; immutable function h(b, a): d;";

// Templates, each with the numbers of its atoms, cubes and classes.
static SIZES: [(&str, u32, u32, u64); 12] = [
    ("literals 6 depth 2", 1, 3, 7),
    ("forall 2 a literals 2 depth 2", 12, 300, 576),
    ("forall 2 a literals 2 depth 2 terms 1", 15, 465, 900),
    ("forall 1 a literals 2 terms 2", 20, 40, 820),
    ("forall 2 a literals 2 terms 2", 78, 156, 12_246),
    ("forall 2 a literals 1 terms 3", 78, 156, 156),
    ("forall 2 a literals 1 terms 1", 15, 30, 30),
    ("forall 1 b literals 3 depth 2", 1, 3, 6),
    ("forall 1 a exists 1 d literals 3 depth 2", 7, 469, 2_198),
    ("exists 3 d literals 4", 7, 14, 1_470),
    ("forall 1 a forall 1 b literals 5", 5, 10, 637),
    (
        "forall 1 a exists 2 b forall 1 d literals 3 terms 1",
        31,
        62,
        39_773,
    ),
];

// Templates with the formulas of their classes in order.
static CLASSES: [(&str, &str); 3] = [
    (
        "forall 1 b literals 2 depth 2",
        "forall _1: b. le(c, c); forall _1: b. !le(c, c); forall _1: b. le(c, c) | !le(c, c); forall _1: b. le(c, c) & !le(c, c); ",
    ),
    (
        "exists 2 b literals 1",
        "exists _1: b, _2: b. le(c, c); exists _1: b, _2: b. !le(c, c); exists _1: b, _2: b. _1 = _2; exists _1: b, _2: b. _1 != _2; ",
    ),
    (
        "forall 1 a exists 1 b literals 1",
        "forall _1: a. exists _2: b. le(_1, _1); forall _1: a. exists _2: b. !le(_1, _1); forall _1: a. exists _2: b. le(_1, c); forall _1: a. exists _2: b. !le(_1, c); forall _1: a. exists _2: b. le(c, _1); forall _1: a. exists _2: b. !le(c, _1); forall _1: a. exists _2: b. le(c, c); forall _1: a. exists _2: b. !le(c, c); forall _1: a. exists _2: b. _1 = c; forall _1: a. exists _2: b. _1 != c; ",
    ),
];

/// More than any part here has classes.
const MANY: u64 = 1_000_000;

/// The space of the template that the text is.
fn space(alloc: Global, text: &str) -> Result<Space, Fail> {
    let Ok(protocol) = read_protocol(alloc, DECLARED.as_bytes()) else {
        return Err(Fail::from("a text of a protocol is wanted"));
    };
    match space_of(alloc, text.as_bytes(), &protocol, None) {
        Ok(space) => Ok(space),
        Err(_) => Err(Fail::from("a text of a template is wanted")),
    }
}

/// How many classes a walk of a part meets.
fn met_in(space: &Space, part: u64) -> u64
    requires { part < length (parts_in space.now) }
{
    let mut met: u64 = 0;
    let mut at = space.first_of(part);
    for _ in 0..MANY {
        let Some(body) = &at else {
            return met;
        };
        met = met.saturating_add(1);
        at = space.next_of(part, body);
    }
    met
}

/// How many classes a walk of all parts meets.
fn met(space: &Space) -> u64 {
    let mut met: u64 = 0;
    for part in 0..space.parts() {
        met = met.saturating_add(met_in(space, part));
    }
    met
}

/// Adds the texts of a part's classes in their order.
fn push_texts(
    alloc: Global,
    texts: &mut String,
    signature: &Signature,
    space: &Space,
    part: u64,
) -> Result<(), AllocError>
    requires { part < length (parts_in space.now) }
{
    let scope = Scope {
        sorts: Items::new(alloc),
        post: false,
    };
    let mut at = space.first_of(part);
    for _ in 0..MANY {
        let Some(body) = &at else {
            return Ok(());
        };
        let formula = space.formula(body)?;
        let text = print_formula(alloc, signature, &scope, &formula)?;
        texts.push_str(text.as_str())?;
        texts.push_str("; ")?;
        at = space.next_of(part, body);
    }
    Ok(())
}

#[test]
fn a_walk_meets_each_class(rt: HostRuntime) -> Result<(), Fail> {
    for (text, atoms, cubes, classes) in SIZES.iter() {
        let space = space(rt.alloc(), text)?;
        is(&rt, space.atoms() == *atoms, text);
        is(&rt, space.cubes() == *cubes, text);
        is(&rt, space.class_count() == *classes, text);
        is(&rt, met(&space) == *classes, text);
    }
    Ok(())
}

#[test]
fn classes_have_their_formulas(rt: HostRuntime) -> Result<(), Fail> {
    let alloc = rt.alloc();
    let Ok(protocol) = read_protocol(alloc, DECLARED.as_bytes()) else {
        return Err(Fail::from("a text of a protocol is wanted"));
    };
    for (text, wanted) in CLASSES.iter() {
        let space = space(alloc, text)?;
        let mut texts = String::new(alloc);
        for part in 0..space.parts() {
            push_texts(alloc, &mut texts, &protocol.signature, &space, part)?;
        }
        is_text(&rt, text, texts.as_str(), wanted);
    }
    Ok(())
}
