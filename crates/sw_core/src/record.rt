//! What a run leaves behind: who drew, appended, kept and settled what.
use sqlite_items::Items;
use sw_filter::Filter;
pub use sw_log::Entry;
use sw_template::Body;

/// A part that a worker is done with: each of its classes is good under the first `under` formulas of
/// the log, by the filters at the places `by`.
#[derive(Drop)]
pub struct Settled {
    pub part: u64,
    pub worker: u32,
    pub under: u32,
    pub by: Items<u32>,
}

/// A published filter, the class that it was found for, and the length of the list then.
#[derive(Drop)]
pub struct Kept {
    pub filter: Filter,
    pub worker: u32,
    pub body: Body,
    pub under: u32,
}

/// One round: per worker the parts that it drew, then the filters kept and the parts settled. `log` is
/// the log's length when the workers were joined.
#[derive(Drop)]
pub struct Round {
    pub drawn: Items<Items<u64>>,
    pub kept: Items<Kept>,
    pub settled: Items<Settled>,
    pub log: u32,
}

/// A whole run: the appended entries and the rounds.
#[derive(Drop)]
pub struct Record {
    pub entries: Items<Entry>,
    pub rounds: Items<Round>,
}
