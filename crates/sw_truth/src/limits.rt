//! Limits of the sizes of queries.

/// The most ground terms of a query that is decided.
pub const MOST_TERMS: u32 = 128;

/// The most instances of a query, those of equality among them.
pub const MOST_INSTANCES: u32 = 4_194_304;

/// The most ground terms that are listed.
pub const MOST_LISTED: u32 = 1_024;
