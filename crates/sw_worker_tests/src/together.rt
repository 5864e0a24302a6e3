//! Searches by two workers, one of whom is held while the other goes on.
ghost use Rattle.std.specs.Prelude.{None, Some};
ghost use Rattle.sw_meaning.specs.WellFormed.{IsWellFormed};
ghost use Rattle.sw_search.specs.Spaces.{CanSearch};

use crate::asserts::is;
use crate::gates::Holder;
use crate::inputs::{OFF, literals_of, protocol_of};
use crate::records::{are_drawn, only_round};
use std::alloc::Global;
use std::sync::Wait;
use std::test::Fail;
use std::thread::Threads;
use sw_breadth::breadth;
use sw_core::Record;
use sw_enumerate::Space;
use sw_finish::{Finished, finish};
use sw_meaning::Protocol;
use sw_search::Classes;

// A relation that a step may turn on, though it is to stay off. Neither literal helps: 0 is a, which the
// start has not, and 1 is !a, which a step turns off.
const TURNED_ON: &str = "mutable relation a; init !a; transition set modifies a: a'; safety !a;";

/// The record of two workers who list classes of the space.
fn listed<H: Threads + Wait + Sync>(
    rt: &H,
    alloc: Global,
    protocol: &Protocol,
    space: &Space,
    gate: &Holder,
) -> Result<Record, Fail>
    requires well_formed { IsWellFormed protocol.now }
    requires can { CanSearch protocol.now (Some space.now) None }
{
    let classes = Classes::new(space);
    match breadth(rt, alloc, protocol, &classes, 2, None, gate) {
        Ok(record_) => Ok(record_),
        Err(_) => Err(Fail::from("a record is wanted")),
    }
}

/// The record of two workers who find no class of the space to finish with.
fn exhausted<H: Threads + Wait + Sync>(
    rt: &H,
    alloc: Global,
    protocol: &Protocol,
    space: &Space,
    gate: &Holder,
) -> Result<Record, Fail>
    requires well_formed { IsWellFormed protocol.now }
    requires can { CanSearch protocol.now (Some space.now) None }
{
    let classes = Classes::new(space);
    match finish(rt, alloc, protocol, &classes, &[], 2, None, gate) {
        Ok(Finished::Exhausted(record_)) => Ok(record_),
        _ => Err(Fail::from("a record is wanted")),
    }
}

#[test]
fn two_workers_list_side_by_side(rt: HostRuntime) -> Result<(), Fail> {
    let protocol = protocol_of(rt.alloc(), OFF)?;
    let space = literals_of(rt.alloc(), &protocol)?;
    let gate = Holder::new(3);
    let record_ = listed(&rt, rt.alloc(), &protocol, &space, &gate)?;
    is(&rt, gate.has_seen(), "both were at work");
    let Some(round) = only_round(&record_) else {
        return Err(Fail::from("one round is wanted"));
    };
    is(&rt, are_drawn(round, &[0], &[1, 2, 3]), "the parts of each");
    is(&rt, round.kept.len() == 1, "one filter is kept");
    Ok(())
}

#[test]
fn two_workers_finish_side_by_side(rt: HostRuntime) -> Result<(), Fail> {
    let protocol = protocol_of(rt.alloc(), TURNED_ON)?;
    let space = literals_of(rt.alloc(), &protocol)?;
    let gate = Holder::new(1);
    let record_ = exhausted(&rt, rt.alloc(), &protocol, &space, &gate)?;
    is(&rt, gate.has_seen(), "both were at work");
    let Some(round) = only_round(&record_) else {
        return Err(Fail::from("one round is wanted"));
    };
    is(&rt, are_drawn(round, &[0], &[1]), "the parts of each");
    is(&rt, round.kept.len() == 2, "two filters are kept");
    Ok(())
}
