//! The command `swiss`: reads a protocol from standard input and writes a report of inductive
//! invariants to standard output, or the line of a refusal to standard error.
#![tactic(auto)]

use std::alloc::AllocError;
use std::env;
use std::io::ErrorKind;
use std::process::ExitCode;
use sw_edge::{OpenGate, StdSink, StdSource};
use sw_run::{Refusal, run, run_check, tell};

// The words after the program's name. One that is not UTF-8 is in no command, and no words are none
// either, so these stand for it.
fn words(rt: &HostRuntime) -> Result<Vec<String>, AllocError> {
    match env::args(rt) {
        Ok(args) => args.skip(1).collect(rt.alloc()),
        Err(error) if error.kind() == ErrorKind::OutOfMemory => Err(AllocError),
        Err(_) => Ok(Vec::new(rt.alloc())),
    }
}

// Whether the first word is a command that needs no workers.
fn names_check(words: &[String]) -> bool {
    match words.first() {
        Some(first) => matches!(first.as_str(), "space" | "print" | "check"),
        None => false,
    }
}

fn main(rt: HostRuntime) -> ExitCode {
    let mut source = StdSource::new(rt.stdin());
    let mut out = StdSink::new(rt.stdout());
    let mut err = StdSink::new(rt.stderr());
    let status = match words(&rt) {
        Ok(words) if names_check(words.as_slice()) => {
            run_check(rt.alloc(), &words, &mut source, &mut out, &mut err)
        }
        Ok(words) => run(
            &rt,
            rt.alloc(),
            &words,
            &mut source,
            &mut out,
            &mut err,
            &OpenGate,
        ),
        Err(_) => tell(rt.alloc(), &Err(Refusal::NoMemory), &mut out, &mut err),
    };
    ExitCode::from(status)
}
