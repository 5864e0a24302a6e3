//! The laws of the Skolem form. Each function does nothing, and its contract is a law.
ghost use Rattle.sw_skolem.specs.Laws.{NnfKeepsTruth, NnfIsNormal, SkolemExpands, SkolemRestricts, SkolemIsWellFormed, SkolemKeepsStrata};

/// The negation normal form is true exactly where the formula, or its negation, is.
pub fn nnf_keeps_truth()
    ensures { NnfKeepsTruth }
{}

/// In the negation normal form only atoms are negated, and there are no implications.
pub fn nnf_is_normal()
    ensures { NnfIsNormal }
{}

/// A structure of a query expands to one of its Skolem form with the same domains.
pub fn skolem_expands()
    ensures { SkolemExpands }
{}

/// A structure of the Skolem form restricts to one of the query.
pub fn skolem_restricts()
    ensures { SkolemRestricts }
{}

/// The Skolem form has a signature that is declared rightly, and its pieces are well sorted.
pub fn skolem_is_well_formed()
    ensures { SkolemIsWellFormed }
{}

/// The Skolem form of a stratified query is stratified by the same ranks.
pub fn skolem_keeps_strata()
    ensures { SkolemKeepsStrata }
{}
