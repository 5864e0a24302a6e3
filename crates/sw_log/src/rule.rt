//! What a seat knows of the log, the rule of its two words and its slot, and what each step tells its seat.
use crate::entry::Entry;
use atomic_table::{Join, Play, Split, TableRule};
use std::collections::LinkedList;
use std::snapshot::Snapshot;

/// What a seat knows. No value of it is made: clauses alone speak of it.
pub struct LogView {
    /// The seat was not joined into another.
    pub live: bool,
    /// It is the seat that `SharedLog::new` gave.
    pub first: bool,
    /// The log as far as the seat has seen it.
    pub seen: LinkedList<Entry>,
    /// The entries that it appended, and those of the seats that joined it. The opening ones are the first seat's.
    pub own: LinkedList<Entry>,
    /// The splits that it has left.
    pub splits: u64,
    /// The splits that it made, less the seats that joined it.
    pub out: u64,
    /// It has the turn, and the slot.
    pub holds: bool,
    /// The shorter of two lists at a join, until the load that follows it.
    pub shorter: LinkedList<Entry>,
}

/// The turn word is word 0, and the length word is word 1. The slot has the list.
pub(crate) struct LogRule;

impl TableRule<Vec<Entry>, LogView, (Snapshot<Vec<Entry>>, u32)> for LogRule {
    ghost use Rattle.std.specs.Prelude.{◌-◌};
    ghost use Rattle.sw_log.specs.LogRule.{Kept, opened};

    ghost holds = { λ _. Kept };

    ghost first = { λ k. opened k.0.value.items (k.1 - 1) };
}

/// A `compare_exchange` on the turn word, which takes the slot.
pub(crate) struct TakeStep;

impl Play<Vec<Entry>, LogView> for TakeStep {
    ghost use Rattle.sw_log.specs.LogSteps.{Took};

    ghost then = { Took };
}

/// A store of the length word.
pub(crate) struct StoreStep;

impl Play<Vec<Entry>, LogView> for StoreStep {
    ghost use Rattle.sw_log.specs.LogSteps.{Stored};

    ghost then = { Stored };
}

/// A store of the turn word, which gives the slot back.
pub(crate) struct FreeStep;

impl Play<Vec<Entry>, LogView> for FreeStep {
    ghost use Rattle.sw_log.specs.LogSteps.{Freed};

    ghost then = { Freed };
}

/// A load of the length word.
pub(crate) struct LengthStep;

impl Play<Vec<Entry>, LogView> for LengthStep {
    ghost use Rattle.sw_log.specs.LogSteps.{Measured};

    ghost then = { Measured };
}

/// A seat gives a new seat.
pub(crate) struct SplitStep;

impl Split<LogView> for SplitStep {
    ghost use Rattle.sw_log.specs.LogSteps.{given};
    ghost use Rattle.sw_log.specs.LogRule.{fresh};

    ghost left = { given };

    ghost right = { λ v. fresh v.seen };
}

/// The first seat takes in what another seat knows.
pub(crate) struct JoinStep;

impl Join<LogView> for JoinStep {
    ghost use Rattle.sw_log.specs.LogSteps.{merged};
    ghost use Rattle.sw_log.specs.LogRule.{spent};

    ghost both = { merged };

    ghost spent = { spent };
}
