//! How the workers of a round are joined.
ghost use Rattle.std.specs.Prelude.{◌≡◌, IfOk, Ok, Err};
ghost use Rattle.sw_breadth.specs.Joins.{with_answer};

use crate::sharing::Places;
use sqlite_items::Items;
use std::alloc::AllocError;
use sw_hand::Handed;
use sw_work::{BreadthError, Worked};

/// What a worker hands back: its seats, and its answer.
#[derive(Drop)]
pub(crate) struct Report {
    pub(crate) places: Places,
    pub(crate) answer: Result<Worked, BreadthError>,
}

/// What the workers that were joined came to: the shares of all, a stop with no error yet, or the first
/// error.
#[derive(Drop)]
pub(crate) enum Joined {
    Whole(Items<Handed>),
    Stopped,
    Failed(BreadthError),
}

impl Joined {
    fn with_worked(self, worked: Worked) -> Result<Joined, AllocError>
        ensures { IfOk result (λ j. j ≡ with_answer self (Ok worked)) }
    {
        match self {
            Joined::Whole(shares) => match worked {
                Worked::Done(handed) => {
                    let mut shares = shares;
                    shares.push(handed)?;
                    Ok(Joined::Whole(shares))
                }
                Worked::Stopped(_) => Ok(Joined::Stopped),
            },
            Joined::Stopped => Ok(Joined::Stopped),
            Joined::Failed(error) => Ok(Joined::Failed(error)),
        }
    }

    fn with_error(self, error: BreadthError) -> Joined
        ensures { result ≡ with_answer self (Err error) }
    {
        match self {
            Joined::Failed(first) => Joined::Failed(first),
            _ => Joined::Failed(error),
        }
    }

    /// Takes one answer more.
    pub(crate) fn with(self, answer: Result<Worked, BreadthError>) -> Result<Joined, AllocError>
        ensures { IfOk result (λ j. j ≡ with_answer self answer) }
    {
        match answer {
            Ok(worked) => self.with_worked(worked),
            Err(error) => Ok(self.with_error(error)),
        }
    }
}
