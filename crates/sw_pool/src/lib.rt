//! A pool of filters that only grows, so that views hold its filters while it does.
#![tactic(auto)]

pub mod cursor;
pub mod pool;

pub use cursor::Cursor;
pub use pool::{Pool, PublishError, Seen};
