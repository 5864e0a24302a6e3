//! Functions with nothing to do, whose contracts are laws.
ghost use Rattle.sw_ground_laws.specs.Laws.{GroundIsOne, RefutationHasOneVerdict};

use sw_refute::laws::steps_have_one_verdict;

/// Instances have one list of clauses.
pub fn ground_is_one()
    ensures { GroundIsOne }
{}

/// A refutation has one verdict for its query.
pub fn refutation_has_one_verdict()
    ensures { RefutationHasOneVerdict }
{
    steps_have_one_verdict();
}
