//! The words of a command line: which command they are.
#![tactic(auto)]

mod commands;
mod forms;
mod limits;
mod lines;
mod numbers;
mod reads;

pub use commands::{Command, Options, Text, WordsError};
pub use limits::{LEAST_DRILL, MOST_CONFLICTS, MOST_DIGITS, MOST_DRILL, MOST_WORKERS, WORD_LIMIT};
pub use reads::read_words;
