//! What follows from the definitions: functions with nothing to do, whose contracts are laws.
ghost use Rattle.sw_instances.specs.AllInstances.{CountIsLength};
ghost use Rattle.sw_instances.specs.Laws.{InstancesHold, UnsatisfiableLeavesNoModel, GroundIsWellFormed};

use sw_universe::{universe_is_sorted, values_are_in_range};

/// In a model of the set every clause of every instance is true.
pub fn instances_hold()
    ensures { InstancesHold }
{
    values_are_in_range();
    universe_is_sorted();
}

/// Where the clauses of instances cannot all be true, the set has no model.
pub fn unsatisfiable_leaves_no_model()
    ensures { UnsatisfiableLeavesNoModel }
{
    values_are_in_range();
    universe_is_sorted();
}

/// The clauses of instances are over their variables.
pub fn ground_is_well_formed()
    ensures { GroundIsWellFormed }
{}

/// There are as many instances as the size of the set says.
pub fn count_is_length()
    ensures { CountIsLength }
{}
