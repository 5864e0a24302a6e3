//! Whole texts that are formulas: from bytes to a formula whose names are looked up, or the first
//! fault with its place.
ghost use Rattle.std.specs.Prelude.{◌≡◌, length, Result, IfOk, IfSome, true};
ghost use Rattle.sw_logic.specs.Sorted.{well_sorted};
ghost use Rattle.sw_logic.specs.declared.syntax.Formula.{Formula};
ghost use Rattle.sw_text.specs.declared.texts.TextError.{TextError};
ghost use Rattle.sw_text.specs.Names.{reads_post};
ghost use Rattle.sw_text.specs.Resolving.{around};
ghost use Rattle.sw_text.specs.Texts.{place_in, outcome, sorts_of_scope, HasFormula, answer_of};

use crate::names::{Names, Violation};
use crate::resolve::Resolved;
use std::alloc::Global;
use sw_logic::{Binder, Formula};
use sw_scan::{ScanError, scan};
use sw_trees::{Around, Read, Word, read_tree, words_of};
use thiserror::Error;

/// Why a text is no formula. Places are those of bytes, from 0.
#[derive(Clone, Copy, Debug, PartialEq, Eq, Error)]
pub enum TextError {
    /// The byte here begins no token.
    #[error("the byte at {at} begins no token")]
    BadByte { at: u32 },

    /// No formula has the word that begins here after the words before it; or the text ends here.
    #[error("the word at {at} is not one that may stand there")]
    Syntax { at: u32 },

    /// The word that begins here goes past a limit; or the formula before it has a canonical text
    /// that does.
    #[error("the word at {at} goes past a limit")]
    TooDeep { at: u32 },

    /// A rule on names and sorts is broken.
    #[error("a rule on names and sorts is broken")]
    Broken(Violation),

    /// Memory ran out, or the text's length or the number of variables does not fit u32.
    #[error("out of memory")]
    Memory,
}

/// The place of the word of this number, or the end of the text behind the last one.
pub fn place_of(words: &[Word], end: u32, number: usize) -> u32
    ensures { result ≡ place_in end words.now number }
{
    match words.get(number) {
        Some(word) => word.token.at,
        None => end,
    }
}

/// What the text has, where so much of its words was read.
fn outcome(
    alloc: Global,
    names: &Names<'_>,
    variables: Vec<Binder>,
    words: &[Word],
    end: u32,
    read: Read,
) -> Result<Formula, TextError>
    requires { end ≡ length names.now.text.now }
    ensures { IfSome (answer_of result) (λ r. r ≡ outcome (around names.now) variables.items words.now read) }
{
    match read {
        Read::Syntax(number) => Err(TextError::Syntax {
            at: place_of(words, end, number),
        }),
        Read::TooDeep(number) => Err(TextError::TooDeep {
            at: place_of(words, end, number),
        }),
        Read::Formula(tree, number) => {
            if number != words.len() {
                return Err(TextError::Syntax {
                    at: place_of(words, end, number),
                });
            }
            let mut scope = variables;
            match names.formula(alloc, &mut scope, &tree) {
                Ok(Resolved::Found(formula)) => Ok(formula),
                Ok(Resolved::Broken(violation)) => Err(TextError::Broken(violation)),
                Err(_) => Err(TextError::Memory),
            }
        }
    }
}

/// The formula that the whole text is, by these names, with these variables in scope, outermost first.
pub fn read_named(
    alloc: Global,
    names: &Names<'_>,
    variables: Vec<Binder>,
) -> Result<Formula, TextError>
    ensures has { IfSome (answer_of result) (HasFormula (around names.now) variables.items) }
    ensures no_other { (r : Result Formula TextError) → HasFormula (around names.now) variables.items r → IfSome (answer_of result) (λ s. s ≡ r) }
    ensures sorted { IfOk result (λ f. well_sorted names.now.signature.now (reads_post names.now.place.now) f (sorts_of_scope variables.items) ≡ true) }
{
    let Ok(end) = u32::try_from(names.text.len()) else {
        return Err(TextError::Memory);
    };
    let Ok(count) = u32::try_from(variables.len()) else {
        return Err(TextError::Memory);
    };
    let tokens = match scan(alloc, names.text) {
        Ok(tokens) => tokens,
        Err(ScanError::BadByte { at }) => return Err(TextError::BadByte { at }),
        Err(ScanError::Memory) => return Err(TextError::Memory),
    };
    let Ok(words) = words_of(alloc, names.text, tokens.as_slice()) else {
        return Err(TextError::Memory);
    };
    let nothing = Around {
        nestings: 0,
        variables: count,
    };
    let Ok(read) = read_tree(alloc, words.as_slice(), nothing) else {
        return Err(TextError::Memory);
    };
    outcome(alloc, names, variables, words.as_slice(), end, read)
}
