// The top call.
ghost use Rattle.std.specs.Prelude.{map, string_bytes};
ghost use Rattle.sw_words.specs.Grammar.{command_of};
ghost use Rattle.sw_run.specs.Ending.{Ends, Allowed, AllowedCheck, change};

use crate::answer::{answer, answer_check};
use crate::told::tell;
use std::alloc::Global;
use std::sync::Wait;
use std::thread::Threads;
use sw_edge::{Gate, Sink, Source};

/// What the program ends with: 0 for `safe` and `safe with`, 10 for `open` and `exhausted`, 11 for
/// `violated`, 2 for words that are no command, 3 for an input or a template that is refused or a
/// command that is not served, 4 for a search that a query ended, 5 for a failed read, 6 for a
/// failed write and 7 for want of memory.
pub type Status = u8;

/// Runs the command that the words name, which are given without the program's name: reads the
/// whole source, and writes a report to `out` or the line of a refusal to `err`. The text is made
/// whole before its first byte is written. The runtime is for the threads of a search's workers, who
/// pass the gate at the same time.
pub fn run<H: Threads + Wait + Sync, S: Source, O: Sink, E: Sink, G: Gate + Sync>(
    rt: &H,
    alloc: Global,
    words: &Vec<String>,
    source: &mut S,
    out: &mut O,
    err: &mut E,
    gate: &G,
) -> Status
    ensures { Ends
        (Allowed (command_of (map string_bytes words.now.items))
        (change (S.left source.old) (S.left source.new) (S.faults source.old) (S.faults source.new)))
        (change (O.held out.old) (O.held out.new) (O.faults out.old) (O.faults out.new))
        (change (E.held err.old) (E.held err.new) (E.faults err.old) (E.faults err.new))
        result }
{
    let told = answer(rt, alloc, words.as_slice(), source, gate);
    tell(alloc, &told, out, err)
}

/// Runs `space`, `print` and `check`, of which `check` is not served yet, and answers other words
/// with the usage line. It needs no threads and does not wait.
pub fn run_check<S: Source, O: Sink, E: Sink>(
    alloc: Global,
    words: &Vec<String>,
    source: &mut S,
    out: &mut O,
    err: &mut E,
) -> Status
    ensures { Ends
        (AllowedCheck (command_of (map string_bytes words.now.items))
        (change (S.left source.old) (S.left source.new) (S.faults source.old) (S.faults source.new)))
        (change (O.held out.old) (O.held out.new) (O.faults out.old) (O.faults out.new))
        (change (E.held err.old) (E.held err.new) (E.faults err.old) (E.faults err.new))
        result }
{
    let told = answer_check(alloc, words.as_slice(), source);
    tell(alloc, &told, out, err)
}
