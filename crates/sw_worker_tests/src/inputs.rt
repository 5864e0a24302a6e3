//! Protocols and spaces that can be searched, read by the calls that read them for the program.
ghost use Rattle.std.specs.Prelude.{[], None, Some, IfOk};
ghost use Rattle.sw_meaning.specs.Edges.{IsStratifiedWith};
ghost use Rattle.sw_meaning.specs.WellFormed.{IsWellFormed};
ghost use Rattle.sw_search.specs.Spaces.{CanSearch};

use sqlite_items::Items;
use std::alloc::{AllocError, Global};
use std::sync::Wait;
use std::test::Fail;
use sw_asking::read_stratified;
use sw_enumerate::Space;
use sw_filter::Filter;
use sw_logic::{Structure, Table};
use sw_meaning::Protocol;
use sw_pool::{Pool, Seen};
use sw_space::space_of;

/// Two relations that are false at the start, and no transition. Each literal is a class and a part of
/// its own: 0 is a, 1 is !a, 2 is b, 3 is !b.
pub const OFF: &str = "mutable relation a; mutable relation b; init !a & !b;";

/// The protocol that the text is.
pub fn protocol_of(alloc: Global, text: &str) -> Result<Protocol, Fail>
    ensures well_formed { IfOk result (λ p. IsWellFormed p) }
    ensures stratified { IfOk result (λ p. IsStratifiedWith p []) }
{
    match read_stratified(alloc, text.as_bytes()) {
        Ok(protocol) => Ok(protocol),
        Err(_) => Err(Fail::from("a text of a protocol is wanted")),
    }
}

/// The space of single literals over the protocol.
pub fn literals_of(alloc: Global, protocol: &Protocol) -> Result<Space, Fail>
    requires well_formed { IsWellFormed protocol.now }
    requires stratified { IsStratifiedWith protocol.now [] }
    ensures can { IfOk result (λ s. CanSearch protocol.now (Some s) None) }
{
    match space_of(alloc, "literals 1".as_bytes(), protocol, None) {
        Ok(space) => Ok(space),
        Err(_) => Err(Fail::from("a space is wanted")),
    }
}

fn bit(alloc: Global, value: bool) -> Result<Table, AllocError> {
    Ok(Table::Bits(Items::from_slice(alloc, &[value])?))
}

/// The start with both relations false.
fn off_start(alloc: Global) -> Result<Filter, AllocError> {
    let mut tables = Items::new(alloc);
    tables.push(bit(alloc, false)?)?;
    tables.push(bit(alloc, false)?)?;
    let structure = Structure {
        sizes: Items::new(alloc),
        tables,
    };
    Ok(Filter::Start { structure })
}

/// Publishes the start with both relations false.
pub fn publish_off_start<H: Wait>(rt: &H, alloc: Global, pool: &Pool) -> Result<Seen, Fail> {
    match pool.publish(rt, off_start(alloc)?) {
        Ok(token) => Ok(token),
        Err(_) => Err(Fail::from("memory is wanted")),
    }
}
