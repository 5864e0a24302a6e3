//! Laws about the definitions: each is the contract of a function that does nothing.
ghost use Rattle.sw_text.specs.Laws.{ReadIsWellSorted, ReadBindsFew};
ghost use Rattle.sw_text.specs.Texts.{OneFormula};

/// A formula that breaks no rule on names and sorts is well sorted.
pub fn read_is_well_sorted()
    ensures { ReadIsWellSorted }
{}

/// A text has one answer, but for want of memory.
pub fn one_formula()
    ensures { OneFormula }
{}

/// What is read has at most 32 variables in scope, with those around it.
pub fn read_binds_few()
    ensures { ReadBindsFew }
{}
