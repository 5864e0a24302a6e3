// The protocol that an input is a text of.
ghost use Rattle.std.specs.Prelude.{◌≡◌, ◌⊎◌, IfOk, IfErr};
ghost use Rattle.sw_meaning.specs.ProtocolText.{sort_text};
ghost use Rattle.sw_meaning.specs.WellFormed.{IsWellFormed};
ghost use Rattle.sw_protocol.specs.Stratified.{IsText};
ghost use Rattle.sw_run.specs.Ending.{Faults, IsSpelled, Misreads, change, refused};

use crate::told::Refusal;
use sqlite_items::Items;
use std::alloc::Global;
use sw_edge::{Source, read_all};
use sw_logic::{Name, copy_name};
use sw_protocol::{Protocol, declared_is_well_formed, read_declared, strata_with};
use sw_strata::StrataError;

/// The most bytes of an input.
pub const INPUT_LIMIT: usize = 1_048_576;

// What is told of the sort of this number, where it lies on a cycle.
fn not_stratified(alloc: Global, protocol: &Protocol, sort: u32) -> Refusal
    ensures { (result ≡ Refusal.NotStratified (sort_text protocol.now.signature sort)) ⊎ (result ≡ Refusal.NoMemory) }
{
    let copied = match protocol.signature.sorts.get(sort as usize) {
        Some(name) => copy_name(alloc, name),
        None => Ok(Name::new(String::new(alloc))),
    };
    match copied {
        Ok(name) => Refusal::NotStratified(name),
        Err(_) => Refusal::NoMemory,
    }
}

// The protocol that the bytes are a text of, or why they are none.
fn read_text(alloc: Global, bytes: &[u8]) -> Result<Protocol, Refusal>
    ensures text { IfOk result (IsText bytes.now) }
    ensures well_formed { IfOk result (λ p. IsWellFormed p) }
    ensures fault { IfErr result (λ e. Faults bytes.now e ⊎ (e ≡ Refusal.NoMemory)) }
{
    declared_is_well_formed();
    let protocol = read_declared(alloc, bytes)?;
    let extra = Items::new(alloc);
    match strata_with(alloc, &protocol, &extra) {
        Ok(_) => Ok(protocol),
        Err(StrataError::Cycle { sort }) => Err(not_stratified(alloc, &protocol, sort)),
        Err(StrataError::Memory) => Err(Refusal::NoMemory),
    }
}

/// The protocol that the whole source is a text of, or why there is none.
pub fn read_input<S: Source>(alloc: Global, source: &mut S) -> Result<Protocol, Refusal>
    ensures spelled { IfOk result (IsSpelled
        (change (S.left source.old) (S.left source.new) (S.faults source.old) (S.faults source.new))) }
    ensures well_formed { IfOk result (λ p. IsWellFormed p) }
    ensures misread { IfErr result (λ e. Misreads
        (change (S.left source.old) (S.left source.new) (S.faults source.old) (S.faults source.new)) (refused e)
        ⊎ (e ≡ Refusal.NoMemory)) }
{
    let bytes = read_all(alloc, source, INPUT_LIMIT)?;
    let protocol = read_text(alloc, bytes.as_slice())?;
    Ok(protocol)
}
