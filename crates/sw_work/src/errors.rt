//! Why a search ends without a list.
use sqlite_items::Items;
use std::alloc::AllocError;
use sw_examine::QueryName;
use sw_template::Body;
use sw_truth::Refutation;
use sw_universe::Size;

/// Want of memory, or a query under the list that the search stood at.
#[derive(Drop)]
pub enum BreadthError {
    Memory,
    Spent {
        query: QueryName,
        list: Items<Body>,
        steps: Refutation,
    },
    TooLarge {
        query: QueryName,
        list: Items<Body>,
        size: Size,
    },
}

impl From<AllocError> for BreadthError {
    ghost use Rattle.std.specs.Prelude.{◌≡◌};
    ghost use Rattle.sw_work.specs.declared.errors.BreadthError.TheVariants.{Memory};

    ghost from_gives = { λ _ e. e ≡ Memory };

    fn from(_error: AllocError) -> BreadthError {
        BreadthError::Memory
    }
}
