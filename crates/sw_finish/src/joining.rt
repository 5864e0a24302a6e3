//! How the workers are joined.
ghost use Rattle.std.specs.Prelude.{◌≡◌, [], IfOk, Ok, Err};
ghost use Rattle.sw_seek.specs.declared.seeking.Sought.TheVariants.{Joins, Done, Stopped as SoughtStopped};
ghost use Rattle.sw_finish.specs.declared.joining.Joined.TheVariants.{Whole};
ghost use Rattle.sw_finish.specs.Joins.{with_answer};

use sqlite_items::Items;
use std::alloc::{AllocError, Global};
use sw_claims::ClaimSeat;
use sw_hand::Handed;
use sw_seek::{FinishError, Sought};
use sw_template::Body;
use sw_truth::Refutation;

/// What a worker hands back: its seat, and its answer.
#[derive(Drop)]
pub(crate) struct Report {
    pub(crate) seat: ClaimSeat,
    pub(crate) answer: Result<Sought, FinishError>,
}

/// What the workers that were joined came to: the first class that joins; else the first error; else a
/// stop; else the shares of all.
#[derive(Drop)]
pub(crate) enum Joined {
    Found {
        body: Body,
        start: Refutation,
        steps: Items<Refutation>,
    },
    Failed(FinishError),
    Stopped,
    Whole(Items<Handed>),
}

impl Joined {
    /// What no workers come to.
    pub(crate) fn new(alloc: Global) -> Joined
        ensures { result ≡ Whole [] }
    {
        Joined::Whole(Items::new(alloc))
    }

    fn with_found(self, body: Body, start: Refutation, steps: Items<Refutation>) -> Joined
        ensures { result ≡ with_answer self (Ok (Joins body start steps)) }
    {
        match self {
            Joined::Found { body, start, steps } => Joined::Found { body, start, steps },
            _ => Joined::Found { body, start, steps },
        }
    }

    fn with_error(self, error: FinishError) -> Joined
        ensures { result ≡ with_answer self (Err error) }
    {
        match self {
            Joined::Stopped => Joined::Failed(error),
            Joined::Whole(_) => Joined::Failed(error),
            decided => decided,
        }
    }

    fn with_stop(self, reason: u64) -> Joined
        ensures { result ≡ with_answer self (Ok (SoughtStopped reason)) }
    {
        match self {
            Joined::Whole(_) => Joined::Stopped,
            decided => decided,
        }
    }

    fn with_share(self, share: Handed) -> Result<Joined, AllocError>
        ensures { IfOk result (λ j. j ≡ with_answer self (Ok (Done share))) }
    {
        match self {
            Joined::Whole(shares) => {
                let mut shares = shares;
                shares.push(share)?;
                Ok(Joined::Whole(shares))
            }
            decided => Ok(decided),
        }
    }

    /// Takes one answer more.
    pub(crate) fn with(self, answer: Result<Sought, FinishError>) -> Result<Joined, AllocError>
        ensures { IfOk result (λ j. j ≡ with_answer self answer) }
    {
        match answer {
            Ok(Sought::Joins { body, start, steps }) => Ok(self.with_found(body, start, steps)),
            Ok(Sought::Done(share)) => self.with_share(share),
            Ok(Sought::Stopped(reason)) => Ok(self.with_stop(reason)),
            Err(error) => Ok(self.with_error(error)),
        }
    }
}
