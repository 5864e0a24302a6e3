// The form of each word by itself.
ghost use Rattle.std.specs.Prelude.{◌≡◌};
ghost use Rattle.std.specs.List.{list_all, position};
ghost use Rattle.sw_words.specs.Grammar.{is_equals, is_value, is_fit, option_pieces, pieces, may_stand};

use crate::limits::WORD_LIMIT;

/// Whether the text is not empty and does not begin with a hyphen.
pub fn is_value(text: &[u8]) -> bool
    ensures { result ≡ is_value text.now }
{
    match text.first() {
        Some(first) => *first != b'-',
        None => false,
    }
}

fn place_of_equals(text: &[u8]) -> Option<usize>
    ensures { result ≡ position is_equals text.now }
{
    text.iter().position(|b| *b == b'=')
}

// Whether what stands behind the first `=` is a value, where there is one.
fn attaches_value(text: &[u8]) -> bool
    ensures { result ≡ list_all is_fit (option_pieces text.now) }
{
    match place_of_equals(text) {
        Some(at) => is_value(&text[at + 1..]),
        None => true,
    }
}

// Whether the word is `--name`, `--name=value` or a value.
fn is_fit(word: &[u8]) -> bool
    ensures { result ≡ list_all is_fit (pieces word.now) }
{
    match word {
        [b'-', b'-', _, ..] => attaches_value(&word[2..]),
        _ => is_value(word),
    }
}

/// Whether the word may stand after the command.
pub fn may_stand(word: &[u8]) -> bool
    ensures { result ≡ may_stand word.now }
{
    word.len() <= WORD_LIMIT && is_fit(word)
}
