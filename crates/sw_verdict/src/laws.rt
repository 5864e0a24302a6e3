//! The law of the answers: a function with nothing to do, with the law as its contract.
ghost use Rattle.sw_verdict.specs.Judgement.{OneJudgement};

/// What is answered of a list is fixed but for a spent budget.
pub fn one_judgement()
    ensures { OneJudgement }
{}
