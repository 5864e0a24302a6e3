//! The laws of sizes.
ghost use Rattle.sw_size_laws.specs.Laws.{BudgetSuffices, ListedOnce, ListsGrow, SizesGrow};

use sw_ground_laws::ground_is_one;
use sw_skolem::{skolem_is_well_formed, skolem_keeps_strata};
use sw_universe::universe_is_inhabited;

/// A query of some of the sentences of another has no more ground terms and no more instances.
pub fn sizes_grow()
    ensures { SizesGrow }
{
    skolem_is_well_formed();
    skolem_keeps_strata();
    universe_is_inhabited();
}

/// What is asked under a part of a list is no larger than what is asked under the list.
pub fn lists_grow()
    ensures { ListsGrow }
{
    sizes_grow();
}

/// An earned list of classes is part of the list of all classes.
pub fn listed_once()
    ensures { ListedOnce }
{}

/// A budget is not spent where there is none, nor where it is as large as the variables can need.
pub fn budget_suffices()
    ensures { BudgetSuffices }
{
    ground_is_one();
}
