//! Reading a template's words.
ghost use Rattle.std.specs.Prelude.{◌≡◌, ◌<◌, ◌≤◌, ◌++◌, ◌∷◌, [], IfOk, length};
ghost use Rattle.sw_template_text.specs.Grammar.{IsParsed};
ghost use Rattle.sw_template_text.specs.Machine.{step, ended};

use crate::words::{NamedRun, Numbers, Parsed, Word};
use sqlite_items::Items;
use std::alloc::{AllocError, Global};

/// What is expected next, and what was read of the current part.
#[derive(Clone, Copy, PartialEq, Eq)]
pub enum State {
    Run,
    Count(bool),
    Sort(bool, u32),
    Literals,
    AfterLiterals(u32),
    Depth(u32),
    AfterDepth(u32, u32),
    Terms(u32, u32),
    Done(u32, u32, u32),
}

/// A state after a word, and the run that the word ends.
#[derive(Clone, Copy, PartialEq, Eq)]
pub enum Next {
    State(State),
    Run(NamedRun),
    Stop,
}

/// What comes after a word.
fn step(state: State, word: Word) -> Next
    ensures { result ≡ step state word }
{
    match (state, word) {
        (State::Run, Word::ForAll) => Next::State(State::Count(true)),
        (State::Run, Word::Exists) => Next::State(State::Count(false)),
        (State::Run, Word::Literals) => Next::State(State::Literals),
        (State::Count(universal), Word::Number(count)) if count > 0 => {
            Next::State(State::Sort(universal, count))
        }
        (State::Sort(universal, count), Word::Name { at, len }) => Next::Run(NamedRun {
            universal,
            count,
            at,
            len,
        }),
        (State::Literals, Word::Number(literals)) if literals > 0 => {
            Next::State(State::AfterLiterals(literals))
        }
        (State::AfterLiterals(literals), Word::Depth) => Next::State(State::Depth(literals)),
        (State::AfterLiterals(literals), Word::Terms) => Next::State(State::Terms(literals, 1)),
        (State::Depth(literals), Word::Number(depth)) if depth == 1 || depth == 2 => {
            Next::State(State::AfterDepth(literals, depth))
        }
        (State::AfterDepth(literals, depth), Word::Terms) => {
            Next::State(State::Terms(literals, depth))
        }
        (State::Terms(literals, depth), Word::Number(terms)) if terms <= 3 => {
            Next::State(State::Done(literals, depth, terms))
        }
        _ => Next::Stop,
    }
}

/// The numbers, where the words may end.
fn ended(state: State) -> Option<Numbers>
    ensures { result ≡ ended state }
{
    match state {
        State::AfterLiterals(literals) => Some(Numbers {
            literals,
            depth: 1,
            terms: 0,
        }),
        State::AfterDepth(literals, depth) => Some(Numbers {
            literals,
            depth,
            terms: 0,
        }),
        State::Done(literals, depth, terms) => Some(Numbers {
            literals,
            depth,
            terms,
        }),
        _ => None,
    }
}

/// Reads the words.
pub fn parse(alloc: Global, words: &[Word]) -> Result<Parsed, AllocError>
    ensures { IfOk result (IsParsed words.now) }
{
    let mut runs = Items::new(alloc);
    let mut state = State::Run;
    for (n, word) in words.iter().enumerate() {
        match step(state, *word) {
            Next::State(next) => state = next,
            Next::Run(run) => {
                runs.push(run)?;
                state = State::Run;
            }
            Next::Stop => return Ok(Parsed::Syntax(n)),
        }
    }
    match ended(state) {
        Some(numbers) => Ok(Parsed::Template(runs, numbers)),
        None => Ok(Parsed::Syntax(words.len())),
    }
}
