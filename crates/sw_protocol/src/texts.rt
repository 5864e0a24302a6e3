//! Whole texts that declare protocols: from bytes to a protocol whose names and sorts are right, or
//! the first fault with its place.
ghost use Rattle.std.specs.Prelude.{◌≡◌, length, Result, IfSome};
ghost use Rattle.sw_meaning.specs.declared.protocol.Protocol.{Protocol};
ghost use Rattle.sw_protocol.specs.declared.texts.ProtocolError.{ProtocolError};
ghost use Rattle.sw_protocol.specs.Texts.{outcome, HasDeclared, answer_of};

use crate::declaring::declare;
use crate::parsing::{Parsed, parse};
use std::alloc::Global;
use sw_meaning::Protocol;
use sw_scan::{ScanError, scan};
use sw_text::{Resolved, Violation, place_of};
use sw_trees::{Word, words_of};
use thiserror::Error;

/// Why a text is no protocol. Places are those of bytes, from 0.
#[derive(Clone, Copy, Debug, PartialEq, Eq, Error)]
pub enum ProtocolError {
    /// The byte here begins no token.
    #[error("the byte at {at} begins no token")]
    BadByte { at: u32 },

    /// No protocol has the word that begins here after the words before it; or the text ends here.
    #[error("the word at {at} is not one that may stand there")]
    Syntax { at: u32 },

    /// The word that begins here goes past a limit; or the formula before it has a canonical text
    /// that does.
    #[error("the word at {at} goes past a limit")]
    TooDeep { at: u32 },

    /// A rule on names and sorts is broken.
    #[error("a rule on names and sorts is broken")]
    Broken(Violation),

    /// The functions and the existential quantifiers lead from this sort back to itself. It is the
    /// first declared one of which this is so.
    #[error("the sort of number {sort} lies on a cycle")]
    NotStratified { sort: u32 },

    /// Memory ran out, or the text's length does not fit u32.
    #[error("out of memory")]
    Memory,
}

/// What the text has, where its words are so.
fn outcome(
    alloc: Global,
    text: &[u8],
    words: &[Word],
    end: u32,
    parsed: Parsed,
) -> Result<Protocol, ProtocolError>
    requires { end ≡ length text.now }
    ensures { IfSome (answer_of result) (λ r. r ≡ outcome text.now words.now parsed) }
{
    match parsed {
        Parsed::Syntax(number) => Err(ProtocolError::Syntax {
            at: place_of(words, end, number),
        }),
        Parsed::TooDeep(number) => Err(ProtocolError::TooDeep {
            at: place_of(words, end, number),
        }),
        Parsed::Whole(declarations) => match declare(alloc, text, declarations.as_slice()) {
            Ok(Resolved::Found(protocol)) => Ok(protocol),
            Ok(Resolved::Broken(violation)) => Err(ProtocolError::Broken(violation)),
            Err(_) => Err(ProtocolError::Memory),
        },
    }
}

/// The protocol that the whole text declares. Its sorts need not be stratified.
pub fn read_declared(alloc: Global, text: &[u8]) -> Result<Protocol, ProtocolError>
    ensures has { IfSome (answer_of result) (HasDeclared text.now) }
    ensures no_other { (r : Result Protocol ProtocolError) → HasDeclared text.now r → IfSome (answer_of result) (λ s. s ≡ r) }
{
    let Ok(end) = u32::try_from(text.len()) else {
        return Err(ProtocolError::Memory);
    };
    let tokens = match scan(alloc, text) {
        Ok(tokens) => tokens,
        Err(ScanError::BadByte { at }) => return Err(ProtocolError::BadByte { at }),
        Err(ScanError::Memory) => return Err(ProtocolError::Memory),
    };
    let Ok(words) = words_of(alloc, text, tokens.as_slice()) else {
        return Err(ProtocolError::Memory);
    };
    let Ok(parsed) = parse(alloc, text, words.as_slice()) else {
        return Err(ProtocolError::Memory);
    };
    outcome(alloc, text, words.as_slice(), end, parsed)
}
