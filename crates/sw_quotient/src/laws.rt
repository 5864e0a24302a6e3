//! Laws of quotients: functions with nothing to do, whose contracts are laws.
ghost use Rattle.sw_quotient.specs.Laws.{ClausesMean, QuotientAgrees, QuotientExists, QuotientIsModel};

use sw_numbers::numbers_are_terms;

/// A matrix is true in the quotient exactly where it is true of the terms.
pub fn quotient_agrees()
    ensures { QuotientAgrees }
{}

/// Where every instance of a piece is true, the quotient is a model.
pub fn quotient_is_model()
    ensures { QuotientIsModel }
{}

/// Where every instance of equality is true, the structure of least terms is the quotient.
pub fn quotient_exists()
    ensures { QuotientExists }
{}

/// An assignment that makes the clauses of instances true makes the instances true.
pub fn clauses_mean()
    ensures { ClausesMean }
{
    numbers_are_terms();
}
