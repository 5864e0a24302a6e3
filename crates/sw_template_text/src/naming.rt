//! What a token is in a template's text.
ghost use Rattle.std.specs.Prelude.{◌≡◌, ◌+◌, ◌-◌, ◌*◌, ◌<◌, ◌≤◌, true, length};
ghost use Rattle.std.specs.List.{list_any, list_all};
ghost use Rattle.std.specs.Char.{is_ascii_digit};
ghost use Rattle.std.specs.Str.{bytes_eq};
ghost use Rattle.sw_template_text.specs.Texts.{keywords, value_of_digits, name_word, number_word, word_by, bytes_at, IsKind};

use crate::words::Word;
use sw_scan::{Kind, Token};

/// The bytes at a place.
pub fn bytes_at(text: &[u8], at: u32, len: u32) -> &[u8]
    ensures { result.now ≡ bytes_at text.now at len }
{
    let later = &text[text.len().min(at as usize)..];
    &later[..later.len().min(len as usize)]
}

fn is_word(bytes: &[u8], word: &str) -> bool
    ensures { result ≡ bytes_eq bytes.now word.now }
{
    bytes == word.as_bytes()
}

/// Whether these bytes are a keyword of protocols.
fn is_keyword(bytes: &[u8]) -> bool
    ensures { result ≡ list_any (bytes_eq bytes.now) keywords }
{
    is_word(bytes, "sort")
        || is_word(bytes, "immutable")
        || is_word(bytes, "mutable")
        || is_word(bytes, "relation")
        || is_word(bytes, "constant")
        || is_word(bytes, "function")
        || is_word(bytes, "axiom")
        || is_word(bytes, "init")
        || is_word(bytes, "transition")
        || is_word(bytes, "modifies")
        || is_word(bytes, "safety")
        || is_word(bytes, "true")
        || is_word(bytes, "false")
}

fn name_word(bytes: &[u8], token: &Token) -> Word
    ensures { result ≡ name_word bytes.now token.now }
{
    if is_word(bytes, "forall") {
        Word::ForAll
    } else if is_word(bytes, "exists") {
        Word::Exists
    } else if is_word(bytes, "literals") {
        Word::Literals
    } else if is_word(bytes, "depth") {
        Word::Depth
    } else if is_word(bytes, "terms") {
        Word::Terms
    } else if is_keyword(bytes) {
        Word::Other
    } else {
        Word::Name {
            at: token.at,
            len: token.len,
        }
    }
}

/// A number with one more digit.
fn with_digit(value: u32, byte: u8) -> u32
    requires value { value < 100000000 }
    requires digit { is_ascii_digit byte ≡ true }
    ensures { result ≡ value * 10 + (byte - 48) }
{
    value * 10 + u32::from(byte - 48)
}

/// The number that digits write.
fn value_of(digits: &[u8]) -> u32
    requires digits { list_all is_ascii_digit digits.now ≡ true }
    requires few { length digits.now ≤ 9 }
    ensures { result ≡ value_of_digits digits.now }
{
    let mut value = 0;
    for byte in digits {
        value = with_digit(value, *byte);
    }
    value
}

fn number_word(digits: &[u8]) -> Word
    requires { list_all is_ascii_digit digits.now ≡ true }
    ensures { result ≡ number_word digits.now }
{
    if digits.len() > 9 {
        return Word::Other;
    }
    Word::Number(value_of(digits))
}

/// The word that a token is.
pub fn word_of(text: &[u8], token: &Token) -> Word
    requires { IsKind text.now token.now }
    ensures { result ≡ word_by token.now.kind (bytes_at text.now token.now.at token.now.len) token.now }
{
    match token.kind {
        Kind::Name => name_word(bytes_at(text, token.at, token.len), token),
        Kind::Number => number_word(bytes_at(text, token.at, token.len)),
        Kind::LeftRound => Word::Other,
        Kind::RightRound => Word::Other,
        Kind::Comma => Word::Other,
        Kind::Colon => Word::Other,
        Kind::Semicolon => Word::Other,
        Kind::Dot => Word::Other,
        Kind::Prime => Word::Other,
        Kind::Equal => Word::Other,
        Kind::NotEqual => Word::Other,
        Kind::Not => Word::Other,
        Kind::And => Word::Other,
        Kind::Or => Word::Other,
        Kind::Arrow => Word::Other,
        Kind::DoubleArrow => Word::Other,
    }
}
