//! Laws of the queries: functions with nothing to do, each with a law as its contract.
#![tactic(auto)]

ghost use Rattle.sw_query_laws.specs.Laws.{StartQueryMeans, FollowQueryMeans, SafetyStartQueryMeans, StepQueryMeans, JoinQueryMeans, QueriesAreSorted, QueriesAddNoEdges, RanksRiseAmong};

/// A structure of a start query is a start in which the formula is false.
pub fn start_query_means()
    ensures { StartQueryMeans }
{}

/// A structure of a follow query has the axioms and the list, and not the formula.
pub fn follow_query_means()
    ensures { FollowQueryMeans }
{}

/// A structure of the query of safety at start is a start without safety.
pub fn safety_start_query_means()
    ensures { SafetyStartQueryMeans }
{}

/// A structure of a step query is a step that leaves the formula.
pub fn step_query_means()
    ensures { StepQueryMeans }
{}

/// A structure of a join query is a step that leaves safety or the formula.
pub fn join_query_means()
    ensures { JoinQueryMeans }
{}

/// The queries of a well-formed protocol are of well-sorted sentences.
pub fn queries_are_sorted()
    ensures { QueriesAreSorted }
{}

/// The edges of a query are those of the protocol and of the formulas that are asked about.
pub fn queries_add_no_edges()
    ensures { QueriesAddNoEdges }
{}

/// Ranks that rise along edges rise along some of them.
pub fn ranks_rise_among()
    ensures { RanksRiseAmong }
{}
