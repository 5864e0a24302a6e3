// The limits of words and of their numbers.

/// The most bytes of a word.
pub const WORD_LIMIT: usize = 4096;

/// The most digits of a number.
pub const MOST_DIGITS: usize = 20;

/// The most workers of a run.
pub const MOST_WORKERS: u64 = 64;

/// The largest budget of conflicts.
pub const MOST_CONFLICTS: u64 = 18_446_744_073_709_551_615;

/// The least number of a drill.
pub const LEAST_DRILL: u64 = 3;

/// The largest number of a drill.
pub const MOST_DRILL: u64 = 64;
