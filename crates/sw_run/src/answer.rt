// The answer to words and an input: a report, or the first refusal in order.
ghost use Rattle.std.specs.Prelude.{◌≡◌, ◌⊎◌, ◌≤◌, [], None, Some, Ok, Err, IfSome, IfOk, IfErr, map, string_bytes};
ghost use Rattle.std.specs.Option.{option_copied};
ghost use Rattle.sw_words.specs.Grammar.{command_of};
ghost use Rattle.sw_meaning.specs.WellFormed.{IsWellFormed};
ghost use Rattle.sw_meaning.specs.Edges.{IsStratifiedWith};
ghost use Rattle.sw_cover.specs.Laws.{IsOver};
ghost use Rattle.sw_search.specs.Spaces.{template_of};
ghost use Rattle.sw_run.specs.Ending.{Allowed, AllowedCheck, Names, Searches, Sizes, change, answer_of, refused, told_answer};
ghost use Rattle.sw_run.specs.Giving.{Gives, GivesNone};

use crate::input::read_input;
use crate::report::Report;
use crate::told::Refusal;
use std::alloc::Global;
use std::sync::Wait;
use std::thread::Threads;
use sw_edge::{Gate, Source};
use sw_enumerate::Space;
use sw_meaning::Template;
use sw_protocol::{Protocol, print_protocol};
use sw_search::{Told, search};
use sw_space::{NoSpace, sizes_text, space_of};
use sw_words::{Command, Options, Text, read_words};

// What a search tells, as a report or as what is told in its place.
fn answer_told(told: Told) -> Result<Report, Refusal>
    ensures { answer_of result ≡ told_answer told }
{
    match told {
        Told::Report { status, text } => Ok(Report { status, text }),
        Told::Stopped(line) => Err(Refusal::Stopped(line)),
    }
}

// The space of the template that an option's text names, beside another template; without a text none.
fn named_space(
    alloc: Global,
    given: &Option<Text>,
    protocol: &Protocol,
    beside: Option<&Template>,
) -> Result<Option<Space>, NoSpace>
    requires well_formed { IsWellFormed protocol.now }
    requires over { IfSome (option_copied beside) (IsOver protocol.now.signature) }
    ensures gives { IfOk result (Gives given.now protocol.now (option_copied beside.entry)) }
    ensures none { IfErr result (GivesNone given.now protocol.now (option_copied beside.entry)) }
{
    let Some(text) = given else {
        return Ok(None);
    };
    let space = space_of(alloc, text.as_str().as_bytes(), protocol, beside)?;
    Ok(Some(space))
}

// The space of the template of `--breadth`.
fn breadth_space(
    alloc: Global,
    options: &Options,
    protocol: &Protocol,
) -> Result<Option<Space>, Refusal>
    requires { IsWellFormed protocol.now }
    ensures gives { IfOk result (Gives options.now.breadth protocol.now None) }
    ensures refused { IfErr result (λ e. Searches options.now protocol.now (refused e) ⊎ (e ≡ Refusal.NoMemory)) }
{
    match named_space(alloc, &options.breadth, protocol, None) {
        Ok(space) => Ok(space),
        Err(NoSpace::Faulty(fault)) => Err(Refusal::BreadthFaulty(fault)),
        Err(NoSpace::Memory) => Err(Refusal::NoMemory),
    }
}

// The space of the template of `--finish`, beside that of `--breadth`.
fn finish_space(
    alloc: Global,
    options: &Options,
    protocol: &Protocol,
    breadth: Option<&Template>,
) -> Result<Option<Space>, Refusal>
    requires well_formed { IsWellFormed protocol.now }
    requires named { Names options.now.breadth protocol.now None (option_copied breadth) }
    ensures gives { IfOk result (Gives options.now.finish protocol.now (option_copied breadth.entry)) }
    ensures refused { IfErr result (λ e. Searches options.now protocol.now (refused e) ⊎ (e ≡ Refusal.NoMemory)) }
{
    match named_space(alloc, &options.finish, protocol, breadth) {
        Ok(space) => Ok(space),
        Err(NoSpace::Faulty(fault)) => Err(Refusal::FinishFaulty(fault)),
        Err(NoSpace::Memory) => Err(Refusal::NoMemory),
    }
}

fn template_of(space: Option<&Space>) -> Option<&Template>
    ensures { option_copied result ≡ template_of (option_copied space.entry) }
{
    match space {
        Some(space) => Some(space.template()),
        None => None,
    }
}

// The answer to a search of the protocol: the first fault of its templates, or what the search tells.
fn search_protocol<H: Threads + Wait + Sync, G: Gate + Sync>(
    rt: &H,
    alloc: Global,
    options: &Options,
    protocol: &Protocol,
    gate: &G,
) -> Result<Report, Refusal>
    requires workers { (1 ≤ options.now.workers) × (options.now.workers ≤ 64) }
    requires some { IfSome options.now.conflicts (λ most. 1 ≤ most) }
    requires well_formed { IsWellFormed protocol.now }
    requires stratified { IsStratifiedWith protocol.now [] }
    ensures { Searches options.now protocol.now (answer_of result) ⊎ (result ≡ Err Refusal.NoMemory) }
{
    let breadth = breadth_space(alloc, options, protocol)?;
    let first = breadth.as_ref();
    let finish = finish_space(alloc, options, protocol, template_of(first))?;
    let last = finish.as_ref();
    let workers = options.workers;
    let budget = options.conflicts;
    let told = search(rt, alloc, protocol, first, last, workers, budget, gate)?;
    answer_told(told)
}

// The answer to a search: what reading meets, then what the search tells.
fn synth<H: Threads + Wait + Sync, S: Source, G: Gate + Sync>(
    rt: &H,
    alloc: Global,
    options: &Options,
    source: &mut S,
    gate: &G,
) -> Result<Report, Refusal>
    requires workers { (1 ≤ options.now.workers) × (options.now.workers ≤ 64) }
    requires some { IfSome options.now.conflicts (λ most. 1 ≤ most) }
    ensures { Allowed (Some (Command.Synth options.now))
        (change (S.left source.old) (S.left source.new) (S.faults source.old) (S.faults source.new))
        (answer_of result) }
{
    let protocol = read_input(alloc, source)?;
    search_protocol(rt, alloc, options, &protocol, gate)
}

// The canonical text of the protocol that the input is a text of.
fn print<S: Source>(alloc: Global, source: &mut S) -> Result<Report, Refusal>
    ensures { Allowed (Some Command.Print)
        (change (S.left source.old) (S.left source.new) (S.faults source.old) (S.faults source.new))
        (answer_of result) }
{
    let protocol = read_input(alloc, source)?;
    let text = print_protocol(alloc, &protocol)?;
    Ok(Report { status: 0, text })
}

// How large the space is that the text names over the protocol.
fn size_of(alloc: Global, text: &str, protocol: &Protocol) -> Result<Report, Refusal>
    requires { IsWellFormed protocol.now }
    ensures { Sizes text.now protocol.now (answer_of result) ⊎ (result ≡ Err Refusal.NoMemory) }
{
    let space = space_of(alloc, text.as_bytes(), protocol, None)?;
    let sizes = sizes_text(alloc, &space)?;
    Ok(Report {
        status: 0,
        text: sizes,
    })
}

// How large the space is that the text names over the protocol that the input is a text of.
fn space<S: Source>(alloc: Global, text: &Text, source: &mut S) -> Result<Report, Refusal>
    ensures { Allowed (Some (Command.Space text.now))
        (change (S.left source.old) (S.left source.new) (S.faults source.old) (S.faults source.new))
        (answer_of result) }
{
    let protocol = read_input(alloc, source)?;
    size_of(alloc, text.as_str(), &protocol)
}

// The answer to a command that needs no workers; others are not meant here.
fn check<S: Source>(alloc: Global, command: &Command, source: &mut S) -> Result<Report, Refusal>
    ensures { AllowedCheck (Some command.now)
        (change (S.left source.old) (S.left source.new) (S.faults source.old) (S.faults source.new))
        (answer_of result) }
{
    match command {
        Command::Print => print(alloc, source),
        Command::Space(text) => space(alloc, text, source),
        Command::Check => Err(Refusal::Unbuilt),
        _ => Err(Refusal::Usage),
    }
}

/// The report that the words ask for on the input, or why there is none. Usage comes first; memory
/// may run out at any place.
pub fn answer<H: Threads + Wait + Sync, S: Source, G: Gate + Sync>(
    rt: &H,
    alloc: Global,
    words: &[String],
    source: &mut S,
    gate: &G,
) -> Result<Report, Refusal>
    ensures { Allowed (command_of (map string_bytes words.now))
        (change (S.left source.old) (S.left source.new) (S.faults source.old) (S.faults source.new))
        (answer_of result) }
{
    let command = read_words(alloc, words)?;
    match &command {
        Command::Synth(options) => synth(rt, alloc, options, source, gate),
        Command::Certify(_) | Command::Drill(_, _) => Err(Refusal::Unbuilt),
        _ => check(alloc, &command, source),
    }
}

/// The answer to words that are one of the commands that need no workers, and Usage to others.
pub fn answer_check<S: Source>(
    alloc: Global,
    words: &[String],
    source: &mut S,
) -> Result<Report, Refusal>
    ensures { AllowedCheck (command_of (map string_bytes words.now))
        (change (S.left source.old) (S.left source.new) (S.faults source.old) (S.faults source.new))
        (answer_of result) }
{
    let command = read_words(alloc, words)?;
    check(alloc, &command, source)
}
