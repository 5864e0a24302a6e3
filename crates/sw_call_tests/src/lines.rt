//! Which command lines are which commands.
use crate::asserts::is_text;
use std::alloc::{AllocError, Global};
use std::process::Abort;
use std::test::Fail;
use sw_words::{Command, Options, Text, WordsError, read_words};

// Words, joined by `;`, and what they are: a command with its breadth, finish, workers and
// conflicts, or `usage`.
static LINES: [(&str, &str); 86] = [
    ("", "usage"),
    ("synth", "synth - - 1 -"),
    ("certify", "certify - - 1 -"),
    ("print", "print"),
    ("check", "check"),
    ("Print", "usage"),
    ("synth ", "usage"),
    ("synth;", "usage"),
    ("synth;synth", "usage"),
    ("synth;--", "usage"),
    ("synth;-", "usage"),
    ("--", "usage"),
    ("-h", "usage"),
    ("--help", "usage"),
    ("help", "usage"),
    ("synth;-h", "usage"),
    ("synth;--help", "usage"),
    ("synth;--version", "usage"),
    ("synth;--breadth;literals 2", "synth literals 2 - 1 -"),
    ("synth;--breadth=literals 2", "synth literals 2 - 1 -"),
    ("synth;--breadth;a=b", "synth a=b - 1 -"),
    ("synth;--breadth=a=b", "synth a=b - 1 -"),
    ("synth;--breadth", "usage"),
    ("synth;--breadth=", "usage"),
    ("synth;--breadth;", "usage"),
    ("synth;--breadth=-x", "usage"),
    ("synth;--breadth;-x", "usage"),
    ("synth;--breadth;--", "usage"),
    ("synth;--breadth;-", "usage"),
    ("synth;--=x", "usage"),
    ("synth;--Breadth;x", "usage"),
    ("synth;-breadth;x", "usage"),
    ("synth;---breadth;x", "usage"),
    ("synth;--finish", "usage"),
    ("synth;--finish;x", "synth - x 1 -"),
    ("synth;--finish;--breadth;x", "usage"),
    ("synth;--breadth;x;--finish;y", "synth x y 1 -"),
    ("synth;--finish=y;--breadth;x", "synth x y 1 -"),
    ("synth;--breadth;x;--breadth;y", "usage"),
    ("synth;--breadth;x;y", "usage"),
    ("synth;x;--breadth;y", "usage"),
    ("synth;--", "usage"),
    ("synth;--breadth;x;--", "usage"),
    ("synth;--workers;0", "usage"),
    ("synth;--workers;1", "synth - - 1 -"),
    ("synth;--workers;04", "synth - - 4 -"),
    ("synth;--workers=4", "synth - - 4 -"),
    ("synth;--workers;64", "synth - - 64 -"),
    ("synth;--workers;65", "usage"),
    ("synth;--workers;00000000000000000004", "synth - - 4 -"),
    ("synth;--workers;000000000000000000004", "usage"),
    ("synth;--workers;+4", "usage"),
    ("synth;--workers;4a", "usage"),
    ("synth;--workers;2;--workers;2", "usage"),
    ("synth;--workers;4;--workers=4", "usage"),
    ("synth;--workers=4;--breadth=x;--workers=4", "usage"),
    ("synth;--work;2", "usage"),
    ("synth;--conflicts;0", "usage"),
    ("synth;--conflicts;1", "synth - - 1 1"),
    (
        "synth;--conflicts;18446744073709551615",
        "synth - - 1 18446744073709551615",
    ),
    ("synth;--conflicts;18446744073709551616", "usage"),
    ("synth;--conflicts;99999999999999999999", "usage"),
    (
        "certify;--conflicts;7;--finish;b;--workers;2;--breadth;a",
        "certify a b 2 7",
    ),
    (
        "certify;--workers=2;--breadth=a;--conflicts=7;--finish=b",
        "certify a b 2 7",
    ),
    ("space", "usage"),
    ("space;x", "space x"),
    (
        "space;forall 2 node literals 2",
        "space forall 2 node literals 2",
    ),
    ("space;x;y", "usage"),
    ("space;-x", "usage"),
    ("space;--breadth=x", "usage"),
    ("print;x", "usage"),
    ("check;x", "usage"),
    ("drill", "usage"),
    ("drill;2", "usage"),
    ("drill;3", "drill 3 1"),
    ("drill;6", "drill 6 1"),
    ("drill;64", "drill 64 1"),
    ("drill;65", "usage"),
    ("drill;6;6", "usage"),
    ("drill;6;--workers;4", "drill 6 4"),
    ("drill;6;--workers=4", "drill 6 4"),
    ("drill;--workers;4;6", "drill 6 4"),
    ("drill;--workers=4;6", "drill 6 4"),
    ("drill;--workers=4", "usage"),
    ("drill;--workers;4", "usage"),
    ("drill;6;--breadth;x", "usage"),
];

fn option_text(text: &Option<Text>) -> &str {
    match text {
        Some(text) => text.as_str(),
        None => "-",
    }
}

// The command's name with its breadth, finish, workers and conflicts.
fn search_text(alloc: Global, name: &str, options: &Options) -> Result<String, AllocError> {
    let breadth = option_text(&options.breadth);
    let finish = option_text(&options.finish);
    let workers = options.workers;
    let text = format!(in alloc; "{name} {breadth} {finish} {workers}")?;
    match options.conflicts {
        Some(n) => format!(in alloc; "{text} {n}"),
        None => format!(in alloc; "{text} -"),
    }
}

// What the words are, as the table above writes it.
fn told(alloc: Global, words: &[String]) -> Result<String, AllocError> {
    match read_words(alloc, words) {
        Ok(Command::Synth(options)) => search_text(alloc, "synth", &options),
        Ok(Command::Certify(options)) => search_text(alloc, "certify", &options),
        Ok(Command::Space(text)) => {
            let text = text.as_str();
            format!(in alloc; "space {text}")
        }
        Ok(Command::Print) => String::from_str(alloc, "print"),
        Ok(Command::Check) => String::from_str(alloc, "check"),
        Ok(Command::Drill(n, workers)) => format!(in alloc; "drill {n} {workers}"),
        Err(WordsError::Usage) => String::from_str(alloc, "usage"),
        Err(WordsError::Memory) => String::from_str(alloc, "memory"),
    }
}

fn is_told(rt: &impl Abort, alloc: Global, line: &str, wanted: &str) -> Result<(), AllocError> {
    let mut words = Vec::new(alloc);
    for word in line.split(';') {
        words.push(String::from_str(alloc, word)?)?;
    }
    let found = told(alloc, words.as_slice())?;
    is_text(rt, line, found.as_str(), wanted);
    Ok(())
}

#[test]
fn lines_are_their_commands(rt: HostRuntime) -> Result<(), Fail> {
    let alloc = rt.alloc();
    for (line, wanted) in LINES.iter() {
        is_told(&rt, alloc, line, wanted)?;
    }
    is_text(&rt, "no words", told(alloc, &[])?.as_str(), "usage");
    // a word has 4096 bytes at most
    let longest = "x".repeat(alloc, 4096)?;
    let within = format!(in alloc; "space;{longest}")?;
    let wanted = format!(in alloc; "space {longest}")?;
    is_told(&rt, alloc, within.as_str(), wanted.as_str())?;
    let over = format!(in alloc; "space;{longest}x")?;
    is_told(&rt, alloc, over.as_str(), "usage")?;
    Ok(())
}
