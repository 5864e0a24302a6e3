//! The tokens of a text: names, numbers and marks with their places, without blanks and comments.
#![tactic(auto)]

ghost use Rattle.std.specs.Prelude.{◌≡◌, ℕ, ◌+◌, ◌<◌, ◌≤◌, List, [], ◌∷◌, length, slice_index, Result, IfOk, IfSome, MatchOption, All};
ghost use Rattle.std.specs.List.{prefix_len};
ghost use Rattle.std.specs.Char.{is_ascii_digit};
ghost use Rattle.sw_scan.specs.declared.ScanError.{ScanError};
ghost use Rattle.sw_scan.specs.declared.Token.{Token};
ghost use Rattle.sw_scan.specs.Spelling.{is_blank, begins_name, continues_name, kind_of, IsFirst, BeginsNone};
ghost use Rattle.sw_scan.specs.Scans.{Scans, OneScan, IsComment, IsWithin, answer_of};

use std::alloc::{AllocFailed, Global};
use thiserror::Error;

/// What a token is.
#[derive(Clone, Copy, PartialEq, Eq)]
pub enum Kind {
    Name,
    Number,
    LeftRound,
    RightRound,
    Comma,
    Colon,
    Semicolon,
    Dot,
    Prime,
    Equal,
    NotEqual,
    Not,
    And,
    Or,
    Arrow,
    DoubleArrow,
}

/// A token: its kind, the place of its first byte (from 0), and how many bytes it has.
#[derive(Clone, Copy, PartialEq, Eq)]
pub struct Token {
    pub kind: Kind,
    pub at: u32,
    pub len: u32,
}

/// Why a text has no tokens.
#[derive(Clone, Copy, Debug, PartialEq, Eq, Error)]
pub enum ScanError {
    /// The first byte that begins no token stands at this place (from 0).
    #[error("the byte at {at} begins no token")]
    BadByte { at: u32 },

    /// Memory ran out, or the text's length does not fit u32.
    #[error("out of memory")]
    Memory,
}

impl<T: Drop> From<AllocFailed<T>> for ScanError {
    ghost from_gives = { λ _ e. e ≡ ScanError.Memory };

    fn from(_: AllocFailed<T>) -> ScanError {
        ScanError::Memory
    }
}

/// The tokens of a text, in order.
///
/// `Memory` comes where memory ran out, or where the text has 2^32 bytes or more.
pub fn scan(alloc: Global, text: &[u8]) -> Result<Vec<Token>, ScanError>
    ensures scans { IfSome (answer_of result) (Scans text.now 0) }
    ensures no_other { (r : Result (List Token) ℕ) → Scans text.now 0 r → IfSome (answer_of result) (λ s. s ≡ r) }
    ensures within { IfOk result (λ tokens. All (IsWithin text.now) tokens.items) }
{
    if text.len() > u32::MAX as usize {
        return Err(ScanError::Memory);
    }
    let mut tokens = Vec::new(alloc);
    let mut at = 0;
    while at < text.len() {
        if is_blank(text[at]) {
            at += 1;
        } else if text[at] == b'#' {
            at = comment_end(text, at);
        } else {
            let Some((kind, len)) = front(&text[at..]) else {
                return Err(ScanError::BadByte { at: at as u32 });
            };
            tokens.push(Token {
                kind,
                at: at as u32,
                len: len as u32,
            })?;
            at += len;
        }
    }
    Ok(tokens)
}

/// The law that a text is cut in one way.
pub fn one_scan()
    ensures { OneScan }
{}

/// Where the comment that begins at this place ends: at a line feed, or at the text's length.
fn comment_end(text: &[u8], at: usize) -> usize
    requires within { at < length text.now }
    requires begins { slice_index text.now at ≡ 35 }
    ensures { IsComment text.now at result }
{
    let mut end = at + 1;
    while end < text.len() && text[end] != b'\n' {
        end += 1;
    }
    end
}

/// The kind and the length of the longest token that begins these bytes.
fn front(rest: &[u8]) -> Option<(Kind, usize)>
    ensures { MatchOption result (BeginsNone rest.now) (λ t. IsFirst rest.now t.0 t.1) }
{
    if rest.starts_with(b"!=") {
        return Some((Kind::NotEqual, 2));
    }
    if rest.starts_with(b"->") {
        return Some((Kind::Arrow, 2));
    }
    if rest.starts_with(b"<->") {
        return Some((Kind::DoubleArrow, 3));
    }
    let (first, later) = rest.split_first()?;
    let Some(kind) = kind_of_byte(*first) else {
        return None;
    };
    match kind {
        Kind::Name => Some((kind, 1 + name_len(later))),
        Kind::Number => Some((kind, 1 + digits_len(later))),
        _ => Some((kind, 1)),
    }
}

/// How many of these bytes continue a name, up to the first that does not.
fn name_len(later: &[u8]) -> usize
    ensures value { result ≡ prefix_len continues_name later.now }
    ensures bound { result ≤ length later.now }
{
    later.iter().take_while(|b| continues_name(**b)).count()
}

/// How many of these bytes are digits, up to the first that is none.
fn digits_len(later: &[u8]) -> usize
    ensures value { result ≡ prefix_len is_ascii_digit later.now }
    ensures bound { result ≤ length later.now }
{
    later.iter().take_while(|b| b.is_ascii_digit()).count()
}

/// What this byte is as a token of its own.
fn kind_of_byte(byte: u8) -> Option<Kind>
    ensures { result ≡ kind_of (byte ∷ []) }
{
    match byte {
        b'(' => Some(Kind::LeftRound),
        b')' => Some(Kind::RightRound),
        b',' => Some(Kind::Comma),
        b':' => Some(Kind::Colon),
        b';' => Some(Kind::Semicolon),
        b'.' => Some(Kind::Dot),
        b'\'' => Some(Kind::Prime),
        b'=' => Some(Kind::Equal),
        b'!' => Some(Kind::Not),
        b'&' => Some(Kind::And),
        b'|' => Some(Kind::Or),
        _ if begins_name(byte) => Some(Kind::Name),
        _ if byte.is_ascii_digit() => Some(Kind::Number),
        _ => None,
    }
}

fn is_blank(byte: u8) -> bool
    ensures { result ≡ is_blank byte }
{
    matches!(byte, b' ' | b'\t' | b'\r' | b'\n')
}

fn begins_name(byte: u8) -> bool
    ensures { result ≡ begins_name byte }
{
    byte.is_ascii_alphabetic() || byte == b'_'
}

fn continues_name(byte: u8) -> bool
    ensures { result ≡ continues_name byte }
{
    begins_name(byte) || byte.is_ascii_digit()
}
