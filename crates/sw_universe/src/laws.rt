//! Laws of ground terms. Each function does nothing, and its contract is a law.
ghost use Rattle.sw_universe.specs.Laws.{ValuesAreInRange, UniverseIsSorted, UniverseIsInhabited, UniverseIsClosed};

/// The value of a ground term is an element of its sort's domain.
pub fn values_are_in_range()
    ensures { ValuesAreInRange }
{}

/// The terms that are listed for a sort have the sort.
pub fn universe_is_sorted()
    ensures { UniverseIsSorted }
{}

/// Where some symbol gives each sort, a term is listed for each.
pub fn universe_is_inhabited()
    ensures { UniverseIsInhabited }
{}

/// Applications to listed terms are listed.
pub fn universe_is_closed()
    ensures { UniverseIsClosed }
{}
