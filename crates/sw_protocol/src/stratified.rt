//! Whole texts that are protocols: what they declare, where its sorts are stratified.
ghost use Rattle.std.specs.Prelude.{◌≡◌, Result, IfSome, IfOk};
ghost use Rattle.sw_meaning.specs.declared.protocol.Protocol.{Protocol};
ghost use Rattle.sw_meaning.specs.WellFormed.{IsWellFormed};
ghost use Rattle.sw_protocol.specs.declared.texts.ProtocolError.{ProtocolError};
ghost use Rattle.sw_protocol.specs.Texts.{answer_of};
ghost use Rattle.sw_protocol.specs.Stratified.{HasProtocol};

use crate::strata::strata_with;
use crate::texts::{ProtocolError, read_declared};
use sqlite_items::Items;
use std::alloc::Global;
use sw_meaning::Protocol;
use sw_strata::StrataError;

/// The protocol that the whole text is.
pub fn read_protocol(alloc: Global, text: &[u8]) -> Result<Protocol, ProtocolError>
    ensures has { IfSome (answer_of result) (HasProtocol text.now) }
    ensures no_other { (r : Result Protocol ProtocolError) → HasProtocol text.now r → IfSome (answer_of result) (λ s. s ≡ r) }
    ensures well_formed { IfOk result (λ p. IsWellFormed p) }
{
    crate::laws::declared_is_well_formed();
    let protocol = match read_declared(alloc, text) {
        Ok(protocol) => protocol,
        Err(fault) => return Err(fault),
    };
    let extra = Items::new(alloc);
    match strata_with(alloc, &protocol, &extra) {
        Ok(_) => Ok(protocol),
        Err(StrataError::Cycle { sort }) => Err(ProtocolError::NotStratified { sort }),
        Err(StrataError::Memory) => Err(ProtocolError::Memory),
    }
}
