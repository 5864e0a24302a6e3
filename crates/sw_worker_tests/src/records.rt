//! What a record tells of a round of two workers.
use sw_core::{Record, Round};

/// The round of a record that has one.
pub fn only_round(record_: &Record) -> Option<&Round> {
    if record_.rounds.len() == 1 {
        record_.rounds.get(0)
    } else {
        None
    }
}

/// Whether the two workers drew these parts, the one or the other first.
pub fn are_drawn(round: &Round, some: &[u64], rest: &[u64]) -> bool {
    let Some(first) = round.drawn.get(0) else {
        return false;
    };
    let Some(second) = round.drawn.get(1) else {
        return false;
    };
    let (first, second) = (first.as_slice(), second.as_slice());
    round.drawn.len() == 2 && (first == some && second == rest || first == rest && second == some)
}
