//! Laws of edges. The function does nothing, and its contract is a law.
ghost use Rattle.sw_strata.specs.Laws.{EdgesAreWithin};

/// The edges of closed formulas are between sorts of the signature.
pub fn edges_are_within()
    ensures { EdgesAreWithin }
{}
