//! Searches by many workers: what does not hang on the schedule is as with one.
use crate::asserts::is;
use crate::running::{is_either, run_on};
use crate::runs::{FINISHED, SWAP, SWAP_REPORT, TOKEN, TOKEN_REPORT, UNSETTLED};
use std::alloc::{AllocError, Global};
use std::process::Abort;
use std::str;
use std::sync::Wait;
use std::test::Fail;
use std::thread::Threads;
use sw_edge::OpenGate;

// Where a formula of the first node comes first, from which the other one does not follow.
const TOKEN_OTHER: &str =
    "classes 298\ninvariant forall _1: node, _2: node. !holds(_2) | !holds(first) | _2 = first\ninvariant forall _1: node, _2: node. !holds(_1) | !holds(_2) | _1 = _2\nclosed under single formulas\nverdict safe\n";

// The two formulas do not follow from each other, and either may come first.
const SWAP_OTHER: &str =
    "classes 10\ninvariant !a | !b\ninvariant a | b\nclosed under single formulas\nverdict safe\n";

// A formula that is kept only under another one.
static RETIRED: (&str, &str, u8, &str) = (
    "synth|--breadth|literals 1",
    UNSETTLED,
    0,
    "classes 4\ninvariant !y\ninvariant !x\nclosed under single formulas\nverdict safe\n",
);

fn with_workers(alloc: Global, line: &str, workers: &str) -> Result<String, AllocError> {
    let mut words = String::from_str(alloc, line)?;
    words.push_str("|--workers|")?;
    words.push_str(workers)?;
    Ok(words)
}

// The number of classes and the word of a report.
fn classes_and_word(report: &str) -> (Option<&str>, Option<&str>) {
    let classes = report.lines().next();
    match report.rsplit_once("\nverdict ") {
        Some((_, word)) => (classes, Some(word)),
        None => (classes, None),
    }
}

// The status, the number of classes and the word are those of the row.
fn says_the_same<R: Threads + Wait + Sync + Abort>(
    rt: &R,
    alloc: Global,
    row: (&str, &str, u8, &str),
    workers: &str,
) -> Result<(), Fail> {
    let (line, text, status, report) = row;
    let line = with_workers(alloc, line, workers)?;
    let ended = run_on(rt, alloc, &line, text.as_bytes(), &[], &[], &OpenGate)?;
    let Ok(out) = str::from_utf8(ended.out.as_slice()) else {
        return Err(Fail::from("a report is wanted"));
    };
    is(rt, ended.status == status, "the status");
    is(
        rt,
        classes_and_word(out) == classes_and_word(report),
        "classes and word",
    );
    Ok(())
}

#[test]
fn workers_find_what_one_worker_does(rt: HostRuntime) -> Result<(), Fail> {
    let alloc = rt.alloc();
    for workers in ["2", "4"] {
        for row in FINISHED.iter() {
            says_the_same(&rt, alloc, *row, workers)?;
        }
        says_the_same(&rt, alloc, RETIRED, workers)?;
        let line = with_workers(alloc, "synth|--breadth|literals 2", workers)?;
        let ended = run_on(&rt, alloc, &line, SWAP.as_bytes(), &[], &[], &OpenGate)?;
        is_either(&rt, &ended, 0, SWAP_REPORT, SWAP_OTHER);
    }
    Ok(())
}

#[test]
fn four_workers_find_that_there_is_one_token(rt: HostRuntime) -> Result<(), Fail> {
    let alloc = rt.alloc();
    let line = "synth|--breadth|forall 2 node literals 3|--workers|4";
    let ended = run_on(&rt, alloc, line, TOKEN.as_bytes(), &[], &[], &OpenGate)?;
    is_either(&rt, &ended, 0, TOKEN_REPORT, TOKEN_OTHER);
    Ok(())
}
