//! Laws about the definitions: each is the contract of a function that does nothing.
ghost use Rattle.sw_trees.specs.Laws.{OneAnswer};

/// A list of words has one answer.
pub fn one_answer()
    ensures { OneAnswer }
{}
