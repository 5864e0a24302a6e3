//! What an accepted refutation means: a function with nothing to do, whose contract is a law.
ghost use Rattle.sw_ground.specs.Verdict.{AcceptedLeavesNoStructure};

use sw_instances::unsatisfiable_leaves_no_model;
use sw_refute::laws::empty_step_refutes;
use sw_skolem::{skolem_expands, skolem_is_well_formed};

/// An accepted refutation leaves no structure that satisfies the query.
pub fn accepted_leaves_no_structure()
    ensures { AcceptedLeavesNoStructure }
{
    empty_step_refutes();
    unsatisfiable_leaves_no_model();
    skolem_expands();
    skolem_is_well_formed();
}
