//! What follows from the definitions: functions with nothing to do, whose contracts are laws.
ghost use Rattle.sw_refute.specs.Laws.{AcceptedStepFollows, AcceptedStepsFollow, EmptyStepRefutes, StepsHaveOneVerdict};

/// An accepted step is true wherever the clauses before it are.
pub fn accepted_step_follows()
    ensures { AcceptedStepFollows }
{}

/// What accepted steps derive is true wherever the clauses of the set are.
pub fn accepted_steps_follow()
    ensures { AcceptedStepsFollow }
{}

/// Accepted steps to the empty clause show that no assignment makes every clause true.
pub fn empty_step_refutes()
    ensures { EmptyStepRefutes }
{}

/// The check has one right answer.
pub fn steps_have_one_verdict()
    ensures { StepsHaveOneVerdict }
{}
