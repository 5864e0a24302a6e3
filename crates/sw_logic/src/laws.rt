//! What follows from the definitions for every formula: functions with nothing to do, whose contracts are laws.
ghost use Rattle.sw_logic.specs.Truth.{QuantifiersAlwaysRange};

/// A quantifier ranges over all values below the sizes of its binders' sorts.
pub fn quantifiers_range()
    ensures { QuantifiersAlwaysRange }
{}
