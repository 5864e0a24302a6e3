//! The sentences of a protocol's queries, and a step that is split.
ghost use Rattle.std.specs.Prelude.{[], ◌<◌, length};

use crate::asked::protocol_of;
use crate::asserts::{is, is_text};
use sqlite_items::Items;
use std::alloc::{AllocError, Global};
use std::process::Abort;
use std::test::Fail;
use sw_logic::{Formula, Query, Scope, Signature, fits, fits_pair};
use sw_meaning::Protocol;
use sw_models::{print_structure, read_structure};
use sw_queries::{
    follow_query, join_query, safety_start_query, split_step, start_query, step_query,
};
use sw_text::{print_formula, read_formula};

const PASSED: &str =
    "sort node; immutable constant first: node; mutable relation holds(node); mutable relation done; axiom first = first; init holds(first); init !done; transition pass(a: node) modifies holds: holds(a) & holds'(first); safety done -> holds(first); safety !done | done;";

// A query, the list that it is under, the formula that is asked about, and its sentences in order. What
// is read after the step has the name that it has before.
static SENTENCES: [(&str, &str, &str, &str); 7] = [
    (
        "start",
        "",
        "!done",
        "first = first; holds(first); !done; !!done; ",
    ),
    (
        "follow",
        "holds(first)",
        "!done",
        "first = first; holds(first); !!done; ",
    ),
    (
        "step",
        "true",
        "holds(first)",
        "first = first; true; holds(first); holds(a) & holds(first); !holds(first); ",
    ),
    (
        "join",
        "true",
        "!done",
        "first = first; true; done -> holds(first); !done | done; !done; holds(a) & holds(first); !(((done -> holds(first)) & (!done | done)) & !done); ",
    ),
    (
        "safety step",
        "true",
        "true",
        "first = first; true; done -> holds(first); !done | done; holds(a) & holds(first); !((done -> holds(first)) & (!done | done)); ",
    ),
    (
        "safety step",
        "",
        "true",
        "first = first; done -> holds(first); !done | done; holds(a) & holds(first); !((done -> holds(first)) & (!done | done)); ",
    ),
    (
        "safety start",
        "",
        "true",
        "first = first; holds(first); !done; !((done -> holds(first)) & (!done | done)); ",
    ),
];

fn closed(alloc: Global) -> Scope {
    Scope {
        sorts: Items::new(alloc),
        post: false,
    }
}

fn sentence_of(alloc: Global, signature: &Signature, text: &str) -> Result<Formula, Fail> {
    match read_formula(alloc, signature, &closed(alloc), text.as_bytes()) {
        Ok(formula) => Ok(formula),
        Err(_) => Err(Fail::from("a text of a formula is wanted")),
    }
}

fn list_of(alloc: Global, signature: &Signature, text: &str) -> Result<Items<Formula>, Fail> {
    let mut list = Items::new(alloc);
    if !text.is_empty() {
        list.push(sentence_of(alloc, signature, text)?)?;
    }
    Ok(list)
}

fn asked(
    alloc: Global,
    protocol: &Protocol,
    kind: &str,
    list: &[Formula],
    f: &Formula,
) -> Result<Query, AllocError>
    requires { 0 < length protocol.now.transitions }
{
    match kind {
        "start" => start_query(alloc, protocol, f),
        "follow" => follow_query(alloc, protocol, list, f),
        "step" => step_query(alloc, protocol, list, f, 0),
        "join" => join_query(alloc, protocol, list, Some(f), 0),
        "safety step" => join_query(alloc, protocol, list, None, 0),
        _ => safety_start_query(alloc, protocol),
    }
}

fn printed(alloc: Global, query: &Query) -> Result<String, AllocError> {
    let scope = closed(alloc);
    let mut text = String::new(alloc);
    for sentence in query.sentences.as_slice() {
        let one = print_formula(alloc, &query.signature, &scope, sentence)?;
        text.push_str(one.as_str())?;
        text.push_str("; ")?;
    }
    Ok(text)
}

fn is_asked(
    rt: &impl Abort,
    alloc: Global,
    protocol: &Protocol,
    row: (&str, &str, &str, &str),
) -> Result<(), Fail>
    requires { 0 < length protocol.now.transitions }
{
    let (kind, list, f, wanted) = row;
    let list = list_of(alloc, &protocol.signature, list)?;
    let f = sentence_of(alloc, &protocol.signature, f)?;
    let query = asked(alloc, protocol, kind, list.as_slice(), &f)?;
    let text = printed(alloc, &query)?;
    is_text(rt, kind, text.as_str(), wanted);
    Ok(())
}

#[test]
fn queries_have_their_sentences(rt: HostRuntime) -> Result<(), Fail> {
    let alloc = rt.alloc();
    let protocol = protocol_of(alloc, PASSED)?;
    if protocol.transitions.is_empty() {
        return Err(Fail::from("a transition is wanted"));
    }
    for row in SENTENCES.iter() {
        is_asked(&rt, alloc, &protocol, *row)?;
    }
    Ok(())
}

// A structure of the step's query: the symbols before the step, those after it that it modifies, and
// the parameter.
const STEP: &str =
    "structure\nsize node 2\nconstant first 0\nrelation holds 01\nrelation done 1\nrelation holds 10\nconstant a 1\n";

const BEFORE: &str =
    "structure\nsize node 2\nconstant first 0\nrelation holds 01\nrelation done 1\n";

const AFTER: &str =
    "structure\nsize node 2\nconstant first 0\nrelation holds 10\nrelation done 1\n";

#[test]
fn a_step_is_split(rt: HostRuntime) -> Result<(), Fail> {
    let alloc = rt.alloc();
    let protocol = protocol_of(alloc, PASSED)?;
    if protocol.transitions.is_empty() {
        return Err(Fail::from("a transition is wanted"));
    }
    let query = join_query(alloc, &protocol, &[], None, 0)?;
    let Ok(structure) = read_structure(alloc, &query.signature, STEP.as_bytes()) else {
        return Err(Fail::from("a text of a structure is wanted"));
    };
    is(&rt, fits(&query.signature, &structure), "a structure");
    let (pair, arguments) = split_step(alloc, &protocol, 0, &structure)?;
    is(&rt, fits_pair(&protocol.signature, &pair), "a step");
    let before = print_structure(alloc, &protocol.signature, &pair.before)?;
    is_text(&rt, "before", before.as_str(), BEFORE);
    let after = print_structure(alloc, &protocol.signature, &pair.after)?;
    is_text(&rt, "after", after.as_str(), AFTER);
    is(&rt, arguments.as_slice() == [1].as_slice(), "arguments");
    Ok(())
}
