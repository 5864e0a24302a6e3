//! Whole runs over a source and sinks in memory.
use crate::asserts::is;
use std::alloc::{AllocError, Global};
use std::process::Abort;
use std::sync::Wait;
use std::thread::Threads;
use sw_edge::{Gate, MemSink, MemSource, Turn};
use sw_run::{run, run_check};

/// The line of words that are no command.
pub const USAGE: &str =
    "usage: swiss synth|certify [--breadth TEXT] [--finish TEXT] [--workers N] [--conflicts K], check, print, space TEXT, drill N [--workers N]\n";

/// The most bytes that a sink takes.
const ROOM: usize = 5000;

/// What a run ended with: its status, and what `out` and `err` gained.
#[derive(Drop)]
pub struct Ended {
    pub status: u8,
    pub out: Vec<u8>,
    pub err: Vec<u8>,
}

// The words of a command line, which are parted by `|` here.
fn words_of(alloc: Global, line: &str) -> Result<Vec<String>, AllocError> {
    let mut words = Vec::new(alloc);
    if line.is_empty() {
        return Ok(words);
    }
    for word in line.split('|') {
        words.push(String::from_str(alloc, word)?)?;
    }
    Ok(words)
}

/// A run of this command line on these bytes, with turns for the source and for `out`.
pub fn run_on<R: Threads + Wait + Sync, G: Gate + Sync>(
    rt: &R,
    alloc: Global,
    line: &str,
    bytes: &[u8],
    reads: &[Turn],
    writes: &[Turn],
    gate: &G,
) -> Result<Ended, AllocError> {
    let words = words_of(alloc, line)?;
    let mut source = MemSource::new(bytes.to_vec(alloc)?, reads.to_vec(alloc)?);
    let mut out = MemSink::new(alloc, ROOM, writes.to_vec(alloc)?)?;
    let mut err = MemSink::new(alloc, ROOM, Vec::new(alloc))?;
    let status = run(rt, alloc, &words, &mut source, &mut out, &mut err, gate);
    Ok(Ended {
        status,
        out: out.bytes().clone()?,
        err: err.bytes().clone()?,
    })
}

/// The same of the call that needs no threads.
pub fn check_on(
    alloc: Global,
    line: &str,
    bytes: &[u8],
    reads: &[Turn],
    writes: &[Turn],
) -> Result<Ended, AllocError> {
    let words = words_of(alloc, line)?;
    let mut source = MemSource::new(bytes.to_vec(alloc)?, reads.to_vec(alloc)?);
    let mut out = MemSink::new(alloc, ROOM, writes.to_vec(alloc)?)?;
    let mut err = MemSink::new(alloc, ROOM, Vec::new(alloc))?;
    let status = run_check(alloc, &words, &mut source, &mut out, &mut err);
    Ok(Ended {
        status,
        out: out.bytes().clone()?,
        err: err.bytes().clone()?,
    })
}

/// Asserts that a run ended with this status and one of these texts for `out`.
pub fn is_either<R: Abort>(rt: &R, ended: &Ended, status: u8, one: &str, other: &str) {
    is(rt, ended.err.is_empty(), "no refusal");
    is(
        rt,
        ended.out.as_slice() == one.as_bytes() || ended.out.as_slice() == other.as_bytes(),
        "one of the two",
    );
    is(rt, ended.status == status, "the status");
}

/// Asserts what a run ended with.
pub fn is_ended<R: Abort>(rt: &R, ended: &Ended, status: u8, out: &str, err: &str) {
    is(rt, ended.err.as_slice() == err.as_bytes(), err);
    is(
        rt,
        ended.out.as_slice() == out.as_bytes(),
        "what was written",
    );
    is(rt, ended.status == status, "the status");
}
