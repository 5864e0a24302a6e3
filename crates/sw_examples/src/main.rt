//! Prints each example that the words name, and prints what was printed. A word that has a template
//! behind a `/` is searched with it, and the report is written.
#![tactic(auto)]

use std::alloc::{AllocError, Global};
use std::io::Write;
use std::sync::Wait;
use std::thread::Threads;
use std::{env, fs, io};
use sw_edge::{MemSink, MemSource, OpenGate};
use sw_run::{run, run_check};

/// The most bytes that are written of an example.
const ROOM: usize = 1_048_576;

// What a run wrote to `out`, or to `err` where that is nothing.
fn written(out: &MemSink, err: &MemSink) -> Result<Vec<u8>, AllocError> {
    let bytes = if out.bytes().is_empty() {
        err.bytes()
    } else {
        out.bytes()
    };
    Ok(bytes.clone()?)
}

// What `print` writes of the text.
fn printed(alloc: Global, text: &[u8]) -> Result<Vec<u8>, AllocError> {
    let words = vec![in alloc; String::from_str(alloc, "print")?]?;
    let mut source = MemSource::new(text.to_vec(alloc)?, Vec::new(alloc));
    let mut out = MemSink::new(alloc, ROOM, Vec::new(alloc))?;
    let mut err = MemSink::new(alloc, ROOM, Vec::new(alloc))?;
    let _ = run_check(alloc, &words, &mut source, &mut out, &mut err);
    written(&out, &err)
}

// What `synth` writes of the text, with this template.
fn searched<R: Threads + Wait + Sync>(
    rt: &R,
    alloc: Global,
    text: &[u8],
    template: &str,
) -> Result<Vec<u8>, AllocError> {
    let mut words = Vec::new(alloc);
    for word in ["synth", "--breadth", template] {
        words.push(String::from_str(alloc, word)?)?;
    }
    let mut source = MemSource::new(text.to_vec(alloc)?, Vec::new(alloc));
    let mut out = MemSink::new(alloc, ROOM, Vec::new(alloc))?;
    let mut err = MemSink::new(alloc, ROOM, Vec::new(alloc))?;
    let _ = run(
        rt,
        alloc,
        &words,
        &mut source,
        &mut out,
        &mut err,
        &OpenGate,
    );
    written(&out, &err)
}

// Whether the example is printed, and what was printed is printed as it is.
fn prints_back(alloc: Global, text: &[u8]) -> Result<bool, AllocError> {
    let once = printed(alloc, text)?;
    let twice = printed(alloc, once.as_slice())?;
    Ok(once.as_slice() == twice.as_slice() && !once.starts_with(b"swiss: "))
}

// What is said of the example: that it is printed back, and the report of a search, if one is asked for.
fn told<R: Threads + Wait + Sync>(
    rt: &R,
    alloc: Global,
    name: &str,
    template: Option<&str>,
    text: &[u8],
) -> Result<Vec<u8>, AllocError> {
    let back = if prints_back(alloc, text)? {
        format!(in alloc; "{name} is printed back\n")?
    } else {
        format!(in alloc; "{name} is not printed back\n")?
    };
    let mut told = back.into_bytes();
    if let Some(template) = template {
        told.extend_from_slice(searched(rt, alloc, text, template)?.as_slice())?;
    }
    Ok(told)
}

// The name of an example, and the template behind its `/`.
fn parts(word: &str) -> (&str, Option<&str>) {
    match word.split_once('/') {
        Some((name, template)) => (name, Some(template)),
        None => (word, None),
    }
}

fn main(rt: HostRuntime) -> io::Result<()> {
    for word in env::args(&rt)?.skip(1) {
        let (name, template) = parts(word.as_str());
        let text = fs::read(&rt, name)?;
        let told = told(&rt, rt.alloc(), name, template, text.as_slice())?;
        rt.stdout().write_all(told.as_slice())?;
    }
    Ok(())
}
