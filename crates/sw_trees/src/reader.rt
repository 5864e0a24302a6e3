//! The reader: the longest formula that begins a list of words, or the first word that stands in its way.
ghost use Rattle.std.specs.Prelude.{◌≡◌, IfOk, MatchOption};
ghost use Rattle.sw_trees.specs.Machine.{finish};
ghost use Rattle.sw_trees.specs.Limits.{IsCount};
ghost use Rattle.sw_trees.specs.Answers.{base_of, IsAnswer, EndsAs};

use crate::limits::{NESTINGS, Open, is_within};
use crate::machine::{State, Step};
use crate::measures::nestings_of;
use crate::tree::Tree;
use crate::words::Word;
use std::alloc::{AllocError, Global};

/// What is open where a formula begins: nestings, and variables in scope.
#[derive(Clone, Copy)]
pub struct Around {
    pub nestings: u32,
    pub variables: u32,
}

impl Around {
    fn open(self) -> Open
        ensures { IsCount (base_of self) result }
    {
        Open {
            nestings: self.nestings,
            iffs: 0,
            variables: self.variables,
        }
    }
}

/// A formula with the number of its words; or the number of the first word that no formula can have
/// after those before it; or of the first that goes past a limit.
#[derive(Drop)]
pub enum Read {
    Formula(Tree, usize),
    Syntax(usize),
    TooDeep(usize),
}

/// What was read, where no formula goes on.
fn finish_at(alloc: Global, around: Around, state: State, count: usize) -> Result<Read, AllocError>
    ensures { IfOk result (EndsAs around count (finish state)) }
{
    let Some(tree) = state.finish(alloc)? else {
        return Ok(Read::Syntax(count));
    };
    let nestings = around.nestings.saturating_add(nestings_of(&tree).alone);
    if nestings <= NESTINGS {
        Ok(Read::Formula(tree, count))
    } else {
        Ok(Read::TooDeep(count))
    }
}

/// The longest formula that begins the words, where so much is open around it. `TooDeep` is at the
/// word that goes past a limit, or behind a formula whose canonical text would go past it.
pub fn read_tree(alloc: Global, words: &[Word], around: Around) -> Result<Read, AllocError>
    ensures { IfOk result (IsAnswer (base_of around) words.now) }
{
    let open = around.open();
    let mut state = State::new(alloc);
    for (i, word) in words.iter().enumerate() {
        match state.step(alloc, *word)? {
            Step::Taken(next) => {
                if !is_within(open, &next, *word) {
                    return Ok(Read::TooDeep(i));
                }
                state = next;
            }
            Step::Refused(last) => return finish_at(alloc, around, last, i),
        }
    }
    finish_at(alloc, around, state, words.len())
}
