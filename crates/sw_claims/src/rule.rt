//! What a seat knows of the claims, the rule of the two words that all seats share, and what each step tells its seat.
use atomic_table::{Join, Play, Split, TableRule};
use std::collections::LinkedList;

/// The largest number of parts, 2^33.
pub const MOST_PARTS: u64 = 8_589_934_592;

/// The largest number of seats, with the first.
pub const MOST_SEATS: u32 = 65;

/// What a seat knows. No value of it is made: clauses alone speak of it.
pub struct ClaimView {
    /// The seat was not joined into another.
    pub live: bool,
    /// It is the seat that `Claims::new` gave.
    pub first: bool,
    pub parts: u64,
    /// The numbers that it drew, in their order, then those of the seats that joined it.
    pub drawn: LinkedList<u64>,
    /// The draws that met the end.
    pub ends: u64,
    /// The reason that it wrote, or 0.
    pub wrote: u64,
    /// The reason that it has seen, or 0.
    pub seen: u64,
    /// The splits that it has left.
    pub splits: u64,
    /// The splits that it made, less the seats that joined it.
    pub out: u64,
    /// Its loads of the stop word.
    pub looks: u64,
    /// How many of its looks stood before its last step on the draw word.
    pub looks_at_draw: u64,
}

/// The draw word is word 0, and the stop word is word 1.
pub(crate) struct ClaimsRule;

impl TableRule<(), ClaimView, (u64, u32)> for ClaimsRule {
    ghost use Rattle.std.specs.Prelude.{◌-◌};
    ghost use Rattle.sw_claims.specs.ClaimsRule.{Kept, opened};

    ghost holds = { λ k. Kept k.0 };

    ghost first = { λ k. opened k.0 (k.1 - 1) };
}

/// A `fetch_add` on the draw word.
pub(crate) struct DrawStep;

impl Play<(), ClaimView> for DrawStep {
    ghost use Rattle.sw_claims.specs.ClaimsSteps.{Drew};

    ghost then = { Drew };
}

/// A load of the stop word.
pub(crate) struct LookStep;

impl Play<(), ClaimView> for LookStep {
    ghost use Rattle.sw_claims.specs.ClaimsSteps.{Looked};

    ghost then = { Looked };
}

/// A `compare_exchange` on the stop word.
pub(crate) struct StopStep;

impl Play<(), ClaimView> for StopStep {
    ghost use Rattle.sw_claims.specs.ClaimsSteps.{TriedStop};

    ghost then = { TriedStop };
}

/// A seat gives a new seat.
pub(crate) struct SplitStep;

impl Split<ClaimView> for SplitStep {
    ghost use Rattle.sw_claims.specs.ClaimsSteps.{given};
    ghost use Rattle.sw_claims.specs.ClaimsRule.{fresh};

    ghost left = { given };

    ghost right = { λ v. fresh v.parts };
}

/// The first seat takes in what another seat knows.
pub(crate) struct JoinStep;

impl Join<ClaimView> for JoinStep {
    ghost use Rattle.sw_claims.specs.ClaimsSteps.{taken};
    ghost use Rattle.sw_claims.specs.ClaimsRule.{spent};

    ghost both = { taken };

    ghost spent = { spent };
}
