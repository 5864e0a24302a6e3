//! Words: the tokens of a text with what each is in a formula, so that keywords are told from names.
ghost use Rattle.std.specs.Prelude.{◌≡◌, take, drop, map, IfOk};
ghost use Rattle.std.specs.Str.{bytes_eq};
ghost use Rattle.sw_trees.specs.Words.{sign_of, name_sign, keyword_of, word_of};

use std::alloc::{AllocError, Global};
use sw_scan::{Kind, Token};

/// A keyword that stands in declarations and in no formula.
#[derive(Clone, Copy)]
pub enum Keyword {
    Sort,
    Immutable,
    Mutable,
    Relation,
    Constant,
    Function,
    Axiom,
    Init,
    Transition,
    Modifies,
    Safety,
}

/// What a word is. No formula has a number, a semicolon or a keyword of declarations.
#[derive(Clone, Copy)]
pub enum Sign {
    Name,
    LeftRound,
    RightRound,
    Comma,
    Colon,
    Dot,
    Prime,
    Equal,
    NotEqual,
    Not,
    And,
    Or,
    Arrow,
    DoubleArrow,
    ForAll,
    Exists,
    True,
    False,
    Keyword(Keyword),
    Semicolon,
    Number,
}

/// A token with its sign.
#[derive(Clone, Copy)]
pub struct Word {
    pub sign: Sign,
    pub token: Token,
}

/// The token's bytes.
pub fn bytes_of<'a>(text: &'a [u8], token: &Token) -> &'a [u8]
    ensures { result.now ≡ take token.now.len (drop token.now.at text.now) }
{
    let later = &text[text.len().min(token.at as usize)..];
    &later[..later.len().min(token.len as usize)]
}

fn is_word(bytes: &[u8], word: &str) -> bool
    ensures { result ≡ bytes_eq bytes.now word.now }
{
    bytes == word.as_bytes()
}

/// The keyword of declarations that these bytes are.
fn keyword_of(bytes: &[u8]) -> Option<Keyword>
    ensures { result ≡ keyword_of bytes.now }
{
    if is_word(bytes, "sort") {
        Some(Keyword::Sort)
    } else if is_word(bytes, "immutable") {
        Some(Keyword::Immutable)
    } else if is_word(bytes, "mutable") {
        Some(Keyword::Mutable)
    } else if is_word(bytes, "relation") {
        Some(Keyword::Relation)
    } else if is_word(bytes, "constant") {
        Some(Keyword::Constant)
    } else if is_word(bytes, "function") {
        Some(Keyword::Function)
    } else if is_word(bytes, "axiom") {
        Some(Keyword::Axiom)
    } else if is_word(bytes, "init") {
        Some(Keyword::Init)
    } else if is_word(bytes, "transition") {
        Some(Keyword::Transition)
    } else if is_word(bytes, "modifies") {
        Some(Keyword::Modifies)
    } else if is_word(bytes, "safety") {
        Some(Keyword::Safety)
    } else {
        None
    }
}

/// What a name or a keyword is.
fn name_sign(bytes: &[u8]) -> Sign
    ensures { result ≡ name_sign bytes.now }
{
    if is_word(bytes, "forall") {
        Sign::ForAll
    } else if is_word(bytes, "exists") {
        Sign::Exists
    } else if is_word(bytes, "true") {
        Sign::True
    } else if is_word(bytes, "false") {
        Sign::False
    } else {
        match keyword_of(bytes) {
            Some(keyword) => Sign::Keyword(keyword),
            None => Sign::Name,
        }
    }
}

/// What the token is in a formula.
pub fn sign_of(text: &[u8], token: &Token) -> Sign
    ensures { result ≡ sign_of text.now token.now }
{
    match token.kind {
        Kind::Name => name_sign(bytes_of(text, token)),
        Kind::LeftRound => Sign::LeftRound,
        Kind::RightRound => Sign::RightRound,
        Kind::Comma => Sign::Comma,
        Kind::Colon => Sign::Colon,
        Kind::Dot => Sign::Dot,
        Kind::Prime => Sign::Prime,
        Kind::Equal => Sign::Equal,
        Kind::NotEqual => Sign::NotEqual,
        Kind::Not => Sign::Not,
        Kind::And => Sign::And,
        Kind::Or => Sign::Or,
        Kind::Arrow => Sign::Arrow,
        Kind::DoubleArrow => Sign::DoubleArrow,
        Kind::Number => Sign::Number,
        Kind::Semicolon => Sign::Semicolon,
    }
}

fn word_of(text: &[u8], token: &Token) -> Word
    ensures { result ≡ word_of text.now token.now }
{
    Word {
        sign: sign_of(text, token),
        token: *token,
    }
}

/// The tokens of the text as words.
pub fn words_of(alloc: Global, text: &[u8], tokens: &[Token]) -> Result<Vec<Word>, AllocError>
    ensures { IfOk result (λ ws. ws.items ≡ map (word_of text.now) tokens.now) }
{
    tokens
        .iter()
        .map(|token| word_of(text, token))
        .collect(alloc)
}
