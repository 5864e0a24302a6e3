// Refusals, and how a report or a refusal is told.
ghost use Rattle.std.specs.Prelude.{◌≡◌};
ghost use Rattle.sw_run.specs.Ending.{answer_of, Ends, Writes, TellsLine, TellsRefusal, IsOrLacksMemory, change};
ghost use Rattle.sw_space.specs.Lines.{fault_line as space_line};

use crate::faults::{Fault, cycle_line};
use crate::report::Report;
use std::alloc::{AllocError, Global};
use sw_edge::{ReadError, Sink, write_all};
use sw_logic::Name;
use sw_protocol::ProtocolError;
use sw_space::{NoSpace, SpaceFault};
use sw_words::WordsError;

/// The status of a run whose text or line could not be written.
const WRITE_FAULT: u8 = 6;

/// Why no report comes.
#[derive(Drop)]
pub enum Refusal {
    Usage,
    TooLong,
    /// The text of the input has this fault at this byte, from 0.
    Faulty(Fault, u32),
    /// The functions and existential quantifiers lead from the sort of this name back to itself.
    NotStratified(Name),
    /// The template of `space` has this fault.
    SpaceFaulty(SpaceFault),
    /// The template of `--breadth` has this fault.
    BreadthFaulty(SpaceFault),
    /// The template of `--finish` has this fault.
    FinishFaulty(SpaceFault),
    /// The line of the query that ended a search, or of a report that is too long.
    Stopped(String),
    Unbuilt,
    ReadFault,
    NoMemory,
}

impl From<AllocError> for Refusal {
    ghost use Rattle.sw_run.specs.declared.told.Refusal.TheVariants.{NoMemory};

    ghost from_gives = { λ _ refusal. refusal ≡ NoMemory };

    fn from(_error: AllocError) -> Refusal {
        Refusal::NoMemory
    }
}

impl From<WordsError> for Refusal {
    ghost use Rattle.sw_run.specs.Refusals.{words_refusal};

    ghost from_gives = { λ error refusal. refusal ≡ words_refusal error };

    fn from(error: WordsError) -> Refusal {
        match error {
            WordsError::Usage => Refusal::Usage,
            WordsError::Memory => Refusal::NoMemory,
        }
    }
}

impl From<ReadError> for Refusal {
    ghost use Rattle.sw_run.specs.Refusals.{read_refusal};

    ghost from_gives = { λ error refusal. refusal ≡ read_refusal error };

    fn from(error: ReadError) -> Refusal {
        match error {
            ReadError::ReadFault => Refusal::ReadFault,
            ReadError::TooLong => Refusal::TooLong,
            ReadError::Memory(_) => Refusal::NoMemory,
        }
    }
}

impl From<ProtocolError> for Refusal {
    ghost use Rattle.sw_run.specs.Refusals.{input_refusal};

    ghost from_gives = { λ error refusal. refusal ≡ input_refusal error };

    fn from(error: ProtocolError) -> Refusal {
        match error {
            ProtocolError::BadByte { at } => Refusal::Faulty(Fault::BadByte, at),
            ProtocolError::Syntax { at } => Refusal::Faulty(Fault::Syntax, at),
            ProtocolError::TooDeep { at } => Refusal::Faulty(Fault::TooDeep, at),
            ProtocolError::Broken(broken) => Refusal::Faulty(Fault::Broken(broken.rule), broken.at),
            ProtocolError::NotStratified { .. } => Refusal::NoMemory,
            ProtocolError::Memory => Refusal::NoMemory,
        }
    }
}

impl From<NoSpace> for Refusal {
    ghost use Rattle.sw_run.specs.Refusals.{space_refusal};

    ghost from_gives = { λ error refusal. refusal ≡ space_refusal error };

    fn from(error: NoSpace) -> Refusal {
        match error {
            NoSpace::Faulty(fault) => Refusal::SpaceFaulty(fault),
            NoSpace::Memory => Refusal::NoMemory,
        }
    }
}

// Writes the text, and gives this status, or the one of a failed write.
fn write_text<O: Sink>(sink: &mut O, text: &str, status: u8) -> u8
    ensures { Writes (change (O.held sink.old) (O.held sink.new) (O.faults sink.old) (O.faults sink.new)) text.now status result }
{
    match write_all(sink, text.as_bytes()) {
        Ok(()) => status,
        Err(_) => WRITE_FAULT,
    }
}

// Writes the line of a fault of the input, or that memory ran out before the line was made.
fn tell_fault<E: Sink>(alloc: Global, fault: Fault, at: u32, err: &mut E) -> u8
    ensures { TellsRefusal (Refusal.Faulty fault at)
        (change (E.held err.old) (E.held err.new) (E.faults err.old) (E.faults err.new)) result }
{
    match fault.line(alloc, at) {
        Ok(line) => write_text(err, line.as_str(), 3),
        Err(_) => write_text(err, "swiss: out of memory\n", 7),
    }
}

// Writes the line of a sort on a cycle, or that memory ran out before the line was made.
fn tell_cycle<E: Sink>(alloc: Global, name: &Name, err: &mut E) -> u8
    ensures { TellsRefusal (Refusal.NotStratified name.now)
        (change (E.held err.old) (E.held err.new) (E.faults err.old) (E.faults err.new)) result }
{
    match cycle_line(alloc, name) {
        Ok(line) => write_text(err, line.as_str(), 3),
        Err(_) => write_text(err, "swiss: out of memory\n", 7),
    }
}

// Writes the line of a fault of the template of this name, or that memory ran out before it was made.
fn tell_template<E: Sink>(alloc: Global, which: &str, fault: &SpaceFault, err: &mut E) -> u8
    ensures { TellsLine (space_line which.now fault.now) 3
        (change (E.held err.old) (E.held err.new) (E.faults err.old) (E.faults err.new)) result }
{
    match fault.line(alloc, which) {
        Ok(line) => write_text(err, line.as_str(), 3),
        Err(_) => write_text(err, "swiss: out of memory\n", 7),
    }
}

// Writes the line of a refusal, and gives the status to end with.
fn tell_refusal<E: Sink>(alloc: Global, refusal: &Refusal, err: &mut E) -> u8
    ensures { TellsRefusal refusal.now
        (change (E.held err.old) (E.held err.new) (E.faults err.old) (E.faults err.new)) result }
{
    match refusal {
        Refusal::Usage => write_text(
            err,
            "usage: swiss synth|certify [--breadth TEXT] [--finish TEXT] [--workers N] [--conflicts K], check, print, space TEXT, drill N [--workers N]\n",
            2,
        ),
        Refusal::TooLong => write_text(err, "swiss: input too long\n", 3),
        Refusal::Faulty(fault, at) => tell_fault(alloc, *fault, *at, err),
        Refusal::NotStratified(name) => tell_cycle(alloc, name, err),
        Refusal::SpaceFaulty(fault) => tell_template(alloc, "space", fault, err),
        Refusal::BreadthFaulty(fault) => tell_template(alloc, "breadth", fault, err),
        Refusal::FinishFaulty(fault) => tell_template(alloc, "finish", fault, err),
        Refusal::Stopped(line) => write_text(err, line.as_str(), 4),
        Refusal::Unbuilt => write_text(err, "swiss: Unbuilt\n", 3),
        Refusal::ReadFault => write_text(err, "swiss: read fault\n", 5),
        Refusal::NoMemory => write_text(err, "swiss: out of memory\n", 7),
    }
}

/// Writes a report to `out`, or a refusal's line to `err`, and gives the status to end with. The
/// line of a fault of the input takes memory; where there is none, that is told in its place.
pub fn tell<O: Sink, E: Sink>(
    alloc: Global,
    told: &Result<Report, Refusal>,
    out: &mut O,
    err: &mut E,
) -> u8
    ensures { Ends (IsOrLacksMemory (answer_of told.now))
        (change (O.held out.old) (O.held out.new) (O.faults out.old) (O.faults out.new))
        (change (E.held err.old) (E.held err.new) (E.faults err.old) (E.faults err.new))
        result }
{
    match told {
        Ok(report) => write_text(out, report.text.as_str(), report.status),
        Err(refusal) => tell_refusal(alloc, refusal, err),
    }
}
