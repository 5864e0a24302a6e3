//! What follows from the definitions: a function with nothing to do, whose contract is a law.
ghost use Rattle.sw_numbers.specs.Numbers.{NumbersAreTerms};

/// A term has the number of what it is with ground terms in the place of its variables.
pub fn numbers_are_terms()
    ensures { NumbersAreTerms }
{}
