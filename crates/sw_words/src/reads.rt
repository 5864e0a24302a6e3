// The words of a command line, as a command.
ghost use Rattle.std.specs.Prelude.{◌≡◌, None, Some, true, IfOk, IfSome, IfNone, IsErrOf, map, string_bytes, option_map};
ghost use Rattle.std.specs.List.{list_all, flat_map};
ghost use Rattle.sw_words.specs.Lines.{drill_apart};
ghost use Rattle.sw_words.specs.Grammar.{alone, command_of, command_with, conflicts_of, drill_of, may_stand, options_of, pieces, space_of, workers_of};

use crate::commands::{Command, Options, Text, WordsError};
use crate::forms::{is_value, may_stand};
use crate::limits::{LEAST_DRILL, MOST_CONFLICTS, MOST_DRILL, MOST_WORKERS};
use crate::lines::{search_matches, workers_matches};
use crate::numbers::number_within;
use std::alloc::{AllocError, Global};

// The number of workers, which is one where none is given.
fn workers_of(text: Option<&str>) -> Option<u32>
    ensures { result ≡ workers_of (option_map (λ s. s.now) text.entry) }
{
    match text {
        Some(text) => number_within(text, 1, MOST_WORKERS).map(|n| n as u32),
        None => Some(1),
    }
}

// The budget of conflicts, of which there is none where no number is given.
fn conflicts_of(text: Option<&str>) -> Option<Option<u64>>
    ensures { result ≡ conflicts_of (option_map (λ s. s.now) text.entry) }
{
    match text {
        Some(text) => number_within(text, 1, MOST_CONFLICTS).map(Some),
        None => Some(None),
    }
}

fn copied(alloc: Global, text: Option<&str>) -> Result<Option<Text>, AllocError>
    ensures { IfOk result (λ t. t ≡ option_map (λ s. s.now) text.entry) }
{
    match text {
        Some(text) => Ok(Some(Text::new(String::from_str(alloc, text)?))),
        None => Ok(None),
    }
}

// The options of `synth` and of `certify`.
fn read_options(alloc: Global, words: &[String]) -> Result<Options, WordsError>
    requires { list_all may_stand (map string_bytes words.now) ≡ true }
    ensures options { IfOk result (λ o. options_of (flat_map pieces (map string_bytes words.now)) ≡ Some o) }
    ensures usage { IsErrOf result WordsError.Usage → options_of (flat_map pieces (map string_bytes words.now)) ≡ None }
{
    let matches = search_matches(alloc, words)?;
    let workers = workers_of(matches.get_str("workers")).ok_or(WordsError::Usage)?;
    let conflicts = conflicts_of(matches.get_str("conflicts")).ok_or(WordsError::Usage)?;
    let breadth = copied(alloc, matches.get_str("breadth"))?;
    let finish = copied(alloc, matches.get_str("finish"))?;
    Ok(Options {
        breadth,
        finish,
        workers,
        conflicts,
    })
}

// The number of a drill, which stands first or last, and the words behind it or before it.
fn number_apart(words: &[String]) -> Option<(&String, &[String])>
    requires { list_all may_stand (map string_bytes words.now) ≡ true }
    ensures none { IfNone result (drill_of (flat_map pieces (map string_bytes words.now)) ≡ None) }
    ensures drill { IfSome result (λ r. drill_of (flat_map pieces (map string_bytes words.now))
        ≡ drill_apart (string_bytes r.0.now) (flat_map pieces (map string_bytes r.1.now))) }
    ensures stand { IfSome result (λ r. list_all may_stand (map string_bytes r.1.now) ≡ true) }
{
    let (first, rest) = words.split_first()?;
    if is_value(first.as_bytes()) {
        return Some((first, rest));
    }
    let (last, front) = words.split_last()?;
    if is_value(last.as_bytes()) {
        return Some((last, front));
    }
    None
}

fn read_drill(alloc: Global, words: &[String]) -> Result<Command, WordsError>
    requires { list_all may_stand (map string_bytes words.now) ≡ true }
    ensures command { IfOk result (λ c. drill_of (flat_map pieces (map string_bytes words.now)) ≡ Some c) }
    ensures usage { IsErrOf result WordsError.Usage → drill_of (flat_map pieces (map string_bytes words.now)) ≡ None }
{
    let (number, options) = number_apart(words).ok_or(WordsError::Usage)?;
    let matches = workers_matches(alloc, options)?;
    let workers = workers_of(matches.get_str("workers")).ok_or(WordsError::Usage)?;
    let number = number_within(number.as_str(), LEAST_DRILL, MOST_DRILL).ok_or(WordsError::Usage)?;
    Ok(Command::Drill(number as u32, workers))
}

// The text of `space`.
fn read_space(alloc: Global, words: &[String]) -> Result<Command, WordsError>
    requires { list_all may_stand (map string_bytes words.now) ≡ true }
    ensures command { IfOk result (λ c. space_of (flat_map pieces (map string_bytes words.now)) ≡ Some c) }
    ensures usage { IsErrOf result WordsError.Usage → space_of (flat_map pieces (map string_bytes words.now)) ≡ None }
{
    if words.len() != 1 {
        return Err(WordsError::Usage);
    }
    let text = &words[0];
    if !is_value(text.as_bytes()) {
        return Err(WordsError::Usage);
    }
    Ok(Command::Space(Text::new(text.clone()?)))
}

fn read_alone(command: Command, words: &[String]) -> Result<Command, WordsError>
    requires { list_all may_stand (map string_bytes words.now) ≡ true }
    ensures command { IfOk result (λ c. alone command (flat_map pieces (map string_bytes words.now)) ≡ Some c) }
    ensures usage { IsErrOf result WordsError.Usage → alone command (flat_map pieces (map string_bytes words.now)) ≡ None }
{
    if !words.is_empty() {
        return Err(WordsError::Usage);
    }
    Ok(command)
}

fn all_stand(words: &[String]) -> bool
    ensures { result ≡ list_all (λ word. may_stand (string_bytes word)) words.now }
{
    words.iter().all(|word| may_stand(word.as_bytes()))
}

// The command of this name with these words.
fn read_command(alloc: Global, name: &str, words: &[String]) -> Result<Command, WordsError>
    requires { list_all may_stand (map string_bytes words.now) ≡ true }
    ensures command { IfOk result (λ c. command_with name.now (flat_map pieces (map string_bytes words.now)) ≡ Some c) }
    ensures usage { IsErrOf result WordsError.Usage → command_with name.now (flat_map pieces (map string_bytes words.now)) ≡ None }
{
    match name {
        "synth" => Ok(Command::Synth(read_options(alloc, words)?)),
        "certify" => Ok(Command::Certify(read_options(alloc, words)?)),
        "space" => read_space(alloc, words),
        "print" => read_alone(Command::Print, words),
        "check" => read_alone(Command::Check, words),
        "drill" => read_drill(alloc, words),
        _ => Err(WordsError::Usage),
    }
}

/// The command that the words are, which are given without the program's name.
pub fn read_words(alloc: Global, words: &[String]) -> Result<Command, WordsError>
    ensures command { IfOk result (λ c. command_of (map string_bytes words.now) ≡ Some c) }
    ensures usage { IsErrOf result WordsError.Usage → command_of (map string_bytes words.now) ≡ None }
{
    let Some((name, rest)) = words.split_first() else {
        return Err(WordsError::Usage);
    };
    if !all_stand(rest) {
        return Err(WordsError::Usage);
    }
    read_command(alloc, name.as_str(), rest)
}
