//! Trees of words: which words spell a formula, and the reader that finds the longest one.
#![tactic(auto)]

mod frames;
mod laws;
mod limits;
mod machine;
mod measures;
mod reader;
mod stack;
mod tree;
mod words;

pub use frames::with;
pub use laws::one_answer;
pub use limits::{NESTINGS, Open, PATH, is_within};
pub use machine::{Stage, State, Step};
pub use measures::nestings_of;
pub use reader::{Around, Read, read_tree};
pub use tree::{Binder, TermTree, Tree};
pub use words::{Keyword, Sign, Word, bytes_of, words_of};
