//! Filters that workers share through a pool.
ghost use Rattle.std.specs.Prelude.{◌≡◌};
ghost use Rattle.sw_meaning.specs.WellFormed.{IsWellFormed};

use crate::asserts::is;
use crate::inputs::{OFF, literals_of, protocol_of, publish_off_start};
use std::alloc::{AllocError, Global};
use std::process::Abort;
use std::sync::Wait;
use std::test::Fail;
use sw_filter::{Filter, Mode, Shown, View};
use sw_logic::Table;
use sw_meaning::Protocol;
use sw_pool::{Cursor, Pool, Seen};
use sw_search::Classes;

/// Whether the tokens are this one alone.
fn is_this(tokens: &[Seen], token: &Seen) -> bool {
    match tokens.first() {
        Some(only) => tokens.len() == 1 && Pool::index(only) == Pool::index(token),
        None => false,
    }
}

fn is_false(table: &Table) -> bool {
    match table {
        Table::Bits(bits) => bits.as_slice() == [false].as_slice(),
        _ => false,
    }
}

/// Whether another worker's start with both relations false is all that is shown.
fn is_off_start(shown: &[Shown]) -> bool {
    let Some(only) = shown.first() else {
        return false;
    };
    let Filter::Start { structure } = only.filter else {
        return false;
    };
    shown.len() == 1
        && !only.own
        && structure.tables.len() == 2
        && structure.tables.as_slice().iter().all(is_false)
}

/// What the view finds in the pool that the cursor has not read.
fn found<'a>(
    alloc: Global,
    pool: &'a Pool,
    cursor: &mut Cursor,
    view: &mut View<'a, Classes<'a>>,
) -> Result<Vec<Seen>, AllocError>
    requires { IsWellFormed view.old.protocol.now }
    ensures { view.new.protocol.now ≡ view.old.protocol.now }
{
    let protocol = view.protocol;
    pool.refresh(alloc, protocol, cursor, view)
}

/// A filter is found once by a cursor that has not read it, and not at all by its publisher's.
fn share<'a, R: Wait + Abort>(
    rt: &R,
    alloc: Global,
    protocol: &'a Protocol,
    classes: &'a Classes<'a>,
    pool: &'a Pool,
) -> Result<(), Fail>
    requires { IsWellFormed protocol.now }
{
    let token = publish_off_start(rt, alloc, pool)?;
    let mut view = View::new(alloc, protocol, classes, Mode::Breadth);
    let mut cursor = Cursor::new(alloc);
    let first = found(alloc, pool, &mut cursor, &mut view)?;
    is(rt, is_this(&first, &token), "the filter published");
    is(rt, is_off_start(&view.shown), "it is shown");
    let second = found(alloc, pool, &mut cursor, &mut view)?;
    is(rt, second.is_empty(), "no more");
    is(rt, is_off_start(&view.shown), "and no other is shown");
    let mut noted = Cursor::new(alloc);
    noted.note(&token)?;
    let mut own = View::new(alloc, protocol, classes, Mode::Breadth);
    let none = found(alloc, pool, &mut noted, &mut own)?;
    is(rt, none.is_empty(), "its own is not found");
    is(rt, own.shown.is_empty(), "nor shown");
    Ok(())
}

#[test]
fn a_refresh_adds_what_its_cursor_has_not_read(rt: HostRuntime) -> Result<(), Fail> {
    let alloc = rt.alloc();
    let protocol = protocol_of(alloc, OFF)?;
    let space = literals_of(alloc, &protocol)?;
    let classes = Classes::new(&space);
    let pool = Pool::new(alloc)?;
    share(&rt, alloc, &protocol, &classes, &pool)
}
