// Commands, their options, and why words are none.
ghost use Rattle.std.specs.Prelude.{◌≡◌, string_bytes};

use std::alloc::AllocError;
use std::marker::Model;
use thiserror::Error;

/// A text of the command line. Contracts see its bytes.
#[derive(Drop)]
pub struct Text {
    text: String,
}

impl Model for Text {
    ghost use Rattle.std.specs.Prelude.{List, ℕ, string_bytes};

    ghost Value = { List ℕ };

    ghost view = { λ t. string_bytes t.text };
}

impl Text {
    pub fn new(text: String) -> Text
        ensures { result ≡ string_bytes text }
    {
        Text { text }
    }

    pub fn as_str(&self) -> &str
        ensures { result.now ≡ self.now }
    {
        self.text.as_str()
    }
}

/// The options of a search: the texts of its templates, how many workers it has, and its budget of
/// conflicts, where it has one.
#[derive(Drop)]
pub struct Options {
    pub breadth: Option<Text>,
    pub finish: Option<Text>,
    pub workers: u32,
    pub conflicts: Option<u64>,
}

/// A command. `Space` has the text of a template; `Drill` has its number, and how many workers.
#[derive(Drop)]
pub enum Command {
    Synth(Options),
    Certify(Options),
    Space(Text),
    Print,
    Check,
    Drill(u32, u32),
}

/// Why words give no command.
#[derive(Clone, Copy, Debug, PartialEq, Eq, Error)]
pub enum WordsError {
    /// The words are no command.
    #[error("the words are no command")]
    Usage,

    /// Memory ran out.
    #[error("out of memory")]
    Memory,
}

impl From<AllocError> for WordsError {
    ghost use Rattle.sw_words.specs.declared.commands.WordsError.TheVariants.{Memory};

    ghost from_gives = { λ _ e. e ≡ Memory };

    fn from(_: AllocError) -> WordsError {
        WordsError::Memory
    }
}

impl From<clap::Error> for WordsError {
    ghost use Rattle.clap.specs.Words.{kind_of};
    ghost use Rattle.sw_words.specs.Lines.{error_of};

    ghost from_gives = { λ error e. e ≡ error_of (kind_of error) };

    fn from(error: clap::Error) -> WordsError {
        match error.kind() {
            clap::error::ErrorKind::OutOfMemory => WordsError::Memory,
            _ => WordsError::Usage,
        }
    }
}
