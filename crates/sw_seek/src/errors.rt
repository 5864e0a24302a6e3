//! Why the search for a class that joins ends without an answer.
ghost use Rattle.std.specs.Prelude.{◌≡◌};

use std::alloc::AllocError;
use sw_examine::QueryName;
use sw_truth::Refutation;
use sw_universe::Size;

/// Want of memory, or a query of a class under the entries.
#[derive(Drop)]
pub enum FinishError {
    Memory,
    Spent { query: QueryName, steps: Refutation },
    TooLarge { query: QueryName, size: Size },
}

impl From<AllocError> for FinishError {
    ghost use Rattle.sw_seek.specs.declared.errors.FinishError.TheVariants.{Memory};

    ghost from_gives = { λ _ e. e ≡ Memory };

    fn from(_error: AllocError) -> FinishError {
        FinishError::Memory
    }
}
