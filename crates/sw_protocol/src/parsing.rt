//! The reader of a protocol's words: its declarations, or the first word that stands in their way.
ghost use Rattle.std.specs.Prelude.{◌≡◌, IfOk};
ghost use Rattle.sw_protocol.specs.Answers.{IsAnswer};
ghost use Rattle.sw_protocol.specs.Steps.{unfinished, Finishes};

use crate::phases::{Move, Phase};
use crate::tree::Declaration;
use sqlite_items::Items;
use std::alloc::{AllocError, Global};
use sw_trees::Word;

/// The declarations; or the number of the first word that no protocol can have after those before
/// it; or of the first that goes past a limit, or that follows a formula whose canonical text would.
#[derive(Drop)]
pub enum Parsed {
    Whole(Items<Declaration>),
    Syntax(usize),
    TooDeep(usize),
}

/// What was read where the words end within a declaration, by what a semicolon would do there.
fn unfinished(end: Move, count: usize) -> Parsed
    ensures { result ≡ unfinished end count }
{
    match end {
        Move::Past => Parsed::TooDeep(count),
        _ => Parsed::Syntax(count),
    }
}

/// What was read where the words end.
fn finish(
    alloc: Global,
    done: Items<Declaration>,
    phase: Phase,
    count: usize,
) -> Result<Parsed, AllocError>
    ensures { IfOk result (Finishes done phase count) }
{
    if let Phase::Begin = phase {
        return Ok(Parsed::Whole(done));
    }
    let end = phase.end(alloc)?;
    Ok(unfinished(end, count))
}

/// The declarations that all of the words of the text are.
pub fn parse(alloc: Global, text: &[u8], words: &[Word]) -> Result<Parsed, AllocError>
    ensures { IfOk result (IsAnswer text.now words.now) }
{
    let mut done = Items::new(alloc);
    let mut phase = Phase::Begin;
    for (i, word) in words.iter().enumerate() {
        match phase.step(alloc, text, *word)? {
            Move::Taken(next) => phase = next,
            Move::Whole(declaration) => {
                done.push(declaration)?;
                phase = Phase::Begin;
            }
            Move::Past => return Ok(Parsed::TooDeep(i)),
            Move::Refused => return Ok(Parsed::Syntax(i)),
        }
    }
    finish(alloc, done, phase, words.len())
}
