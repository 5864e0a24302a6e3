//! What the decision of a query says.
use sw_logic::Structure;
use sw_truth::Refutation;
use sw_universe::Size;

/// The answer for a query.
#[derive(Drop)]
pub enum Decision {
    /// No finite structure satisfies the query; the refutation is accepted.
    Refuted(Refutation),
    /// A structure of the query's signature that satisfies it.
    Found(Structure),
    /// The budget was spent on these instances and steps.
    Spent(Refutation),
    /// The query has more than 128 ground terms or 4,194,304 instances.
    TooLarge(Size),
}
