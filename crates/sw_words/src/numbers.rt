// Numbers among the words.
ghost use Rattle.std.specs.Prelude.{◌≡◌};
ghost use Rattle.std.specs.List.{list_all};
ghost use Rattle.std.specs.Char.{is_ascii_digit};
ghost use Rattle.sw_words.specs.Grammar.{number_within};

use crate::limits::MOST_DIGITS;

fn are_digits(text: &[u8]) -> bool
    ensures { result ≡ list_all is_ascii_digit text.now }
{
    text.iter().all(|b| b.is_ascii_digit())
}

// The number of 1 to 20 digits, where it lies between these.
pub fn number_within(text: &str, least: u64, most: u64) -> Option<u64>
    ensures { result ≡ number_within least most text.now }
{
    if text.len() > MOST_DIGITS || !are_digits(text.as_bytes()) {
        return None;
    }
    let number = text.parse::<u64>().ok()?;
    if least <= number && number <= most {
        Some(number)
    } else {
        None
    }
}
