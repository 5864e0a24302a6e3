//! The laws of completeness. Each function does nothing, and its contract is a law.
ghost use Rattle.sw_completeness.specs.Laws.{SearchIsComplete, RunIsComplete, CheckIsComplete};

use sw_size_laws::laws::{budget_suffices, listed_once, lists_grow};

/// Where no query under all classes is too large, and the budget is enough, a search has its report.
pub fn search_is_complete()
    ensures { SearchIsComplete }
{
    listed_once();
    lists_grow();
    budget_suffices();
}

/// So a run over a protocol's text has it, but for want of memory, where the source has no fault.
pub fn run_is_complete()
    ensures { RunIsComplete }
{
    search_is_complete();
}

/// The same of `print` and of `space`.
pub fn check_is_complete()
    ensures { CheckIsComplete }
{}
