//! One draw of a round.

/// A number, and the worker that drew it.
#[derive(Clone, Copy, PartialEq, Eq, PartialOrd, Ord)]
pub struct Drawn {
    pub number: u64,
    pub worker: u32,
}
