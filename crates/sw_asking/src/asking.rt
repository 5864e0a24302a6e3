//! The queries of safety under no list.
ghost use Rattle.std.specs.Prelude.{◌≡◌, ◌<◌, [], IfOk, IfSome, None, Some, length, slice_get};
ghost use Rattle.sw_logic.specs.Queries.{IsQuery};
ghost use Rattle.sw_ground.specs.Verdict.{IsStratifiedQuery};
ghost use Rattle.sw_meaning.specs.declared.protocol.Transition.{Transition};
ghost use Rattle.sw_meaning.specs.Edges.{IsStratifiedWith};
ghost use Rattle.sw_meaning.specs.WellFormed.{IsWellFormed};
ghost use Rattle.sw_queries.specs.Queries.{safety_start_query_of, join_query_of};
ghost use Rattle.sw_protocol.specs.Texts.{answer_of};
ghost use Rattle.sw_protocol.specs.Stratified.{HasProtocol};

use std::alloc::{AllocError, Global};
use sw_logic::Query;
use sw_meaning::Protocol;
use sw_protocol::{ProtocolError, read_protocol};
use sw_queries::{join_query, safety_start_query};
use sw_query_laws::{queries_add_no_edges, queries_are_sorted, ranks_rise_among};

/// The protocol that the text is.
pub fn read_stratified(alloc: Global, text: &[u8]) -> Result<Protocol, ProtocolError>
    ensures has { IfSome (answer_of result) (HasProtocol text.now) }
    ensures well_formed { IfOk result (λ p. IsWellFormed p) }
    ensures strata { IfOk result (λ p. IsStratifiedWith p []) }
{
    read_protocol(alloc, text)
}

/// Asks for a start without safety.
pub fn safety_at_start(alloc: Global, protocol: &Protocol) -> Result<Query, AllocError>
    requires well_formed { IsWellFormed protocol.now }
    requires strata { IsStratifiedWith protocol.now [] }
    ensures asked { IfOk result (λ q. q ≡ safety_start_query_of protocol.now) }
    ensures query { IfOk result (λ q. IsQuery q) }
    ensures strata { IfOk result (λ q. IsStratifiedQuery q) }
{
    queries_are_sorted();
    queries_add_no_edges();
    ranks_rise_among();
    safety_start_query(alloc, protocol)
}

/// Asks for a step of the transition from safety to where safety is false.
pub fn safety_step(alloc: Global, protocol: &Protocol, transition: u32) -> Result<Query, AllocError>
    requires well_formed { IsWellFormed protocol.now }
    requires strata { IsStratifiedWith protocol.now [] }
    requires transition { transition < length protocol.now.transitions }
    ensures asked { IfOk result (λ q. (t : Transition) → slice_get protocol.now.transitions transition ≡ Some t → q ≡ join_query_of protocol.now t [] None) }
    ensures query { IfOk result (λ q. IsQuery q) }
    ensures strata { IfOk result (λ q. IsStratifiedQuery q) }
{
    queries_are_sorted();
    queries_add_no_edges();
    ranks_rise_among();
    join_query(alloc, protocol, &[], None, transition)
}
