//! Rounds of workers who take turns, so that none meets another.
ghost use Rattle.std.specs.Prelude.{◌≡◌, None, Some, IfOk, length};
ghost use Rattle.sw_meaning.specs.WellFormed.{IsWellFormed};
ghost use Rattle.sw_enumerate.specs.Spaces.{parts_in};
ghost use Rattle.sw_filter.specs.declared.filter.Mode.TheVariants.{Breadth};
ghost use Rattle.sw_hand.specs.declared.hand.Handed.{Handed};
ghost use Rattle.sw_work.specs.declared.working.Worked.TheVariants.{Done};
ghost use Rattle.sw_search.specs.Spaces.{CanSearch};

use crate::asserts::is;
use crate::gates::Open;
use crate::inputs::{OFF, literals_of, protocol_of, publish_off_start};
use std::alloc::Global;
use std::process::Abort;
use std::sync::Wait;
use std::test::Fail;
use sw_claims::{ClaimSeat, Claims};
use sw_filter::Mode;
use sw_hand::{Handed, Task};
use sw_log::{Entry, LogSeat, SharedLog};
use sw_pool::{Pool, Seen};
use sw_search::Classes;
use sw_walk::Walk;
use sw_work::{Worked, work};

/// A round of a worker, from these seats.
fn round<H: Wait>(
    rt: &H,
    alloc: Global,
    task: &Task<'_, Classes<'_>>,
    claims: &Claims,
    claim_seat: &mut ClaimSeat,
    log: &SharedLog,
    log_seat: &mut LogSeat,
) -> Result<Worked, Fail>
    requires mode { task.now.mode ≡ Breadth }
    requires well_formed { IsWellFormed task.now.protocol.now }
    requires can { CanSearch task.now.protocol.now (Some task.now.space.now) None }
    requires claims { claim_seat.old.object ≡ claims.now }
    requires parts { claim_seat.old.view.parts ≡ length (parts_in task.now.space.now) }
    requires log { log_seat.old.object ≡ log.now }
    ensures claims { claim_seat.new.object ≡ claim_seat.old.object }
    ensures log { log_seat.new.object ≡ log_seat.old.object }
    ensures parts { IfOk result (λ worked. (handed : Handed) → worked ≡ Done handed → claim_seat.new.view.parts ≡ claim_seat.old.view.parts) }
{
    match work(
        rt, alloc, task, claims, claim_seat, log, log_seat, 0, None, &Open,
    ) {
        Ok(worked) => Ok(worked),
        Err(_) => Err(Fail::from("an answer is wanted")),
    }
}

/// Whether all parts were drawn and settled, with the published start alone, kept for the class a.
fn is_whole(handed: &Handed, token: &Seen) -> bool {
    let Some(kept) = handed.kept.get(0) else {
        return false;
    };
    let Some(seen) = handed.tokens.first() else {
        return false;
    };
    handed.drawn.as_slice() == [0, 1, 2, 3].as_slice()
        && handed.settled.len() == 4
        && handed.kept.len() == 1
        && kept.body.cubes() == [0].as_slice()
        && handed.own.as_slice() == [false].as_slice()
        && handed.tokens.len() == 1
        && Pool::index(seen) == Pool::index(token)
}

/// Whether the worker drew nothing, and hands back nothing.
fn is_empty(worked: &Worked) -> bool {
    let Worked::Done(handed) = worked else {
        return false;
    };
    handed.drawn.is_empty()
        && handed.kept.is_empty()
        && handed.tokens.is_empty()
        && handed.own.is_empty()
        && handed.settled.is_empty()
}

/// The reason that stopped the worker, or 0.
fn reason(worked: &Worked) -> u64 {
    match worked {
        Worked::Done(_) => 0,
        Worked::Stopped(reason) => *reason,
    }
}

/// Whether the entries are the classes !a and !b.
fn are_off(entries: &[Entry]) -> bool {
    let Some(first) = entries.first() else {
        return false;
    };
    let Some(last) = entries.last() else {
        return false;
    };
    entries.len() == 2
        && first.body.cubes() == [1].as_slice()
        && last.body.cubes() == [3].as_slice()
}

/// Two workers in turn, and a third round once the claims are stopped.
fn take_turns<R: Wait + Abort>(
    rt: &R,
    alloc: Global,
    task: &Task<'_, Classes<'_>>,
    token: &Seen,
) -> Result<(), Fail>
    requires mode { task.now.mode ≡ Breadth }
    requires well_formed { IsWellFormed task.now.protocol.now }
    requires can { CanSearch task.now.protocol.now (Some task.now.space.now) None }
{
    let (claims, mut claim) = Claims::new(alloc, task.space.parts(), 2)?;
    let (log, mut seat) = SharedLog::new(alloc, Vec::new(alloc), 2)?;
    let Some(mut next_claim) = claims.split(&mut claim) else {
        return Err(Fail::from("a second seat is wanted"));
    };
    let Some(mut next_seat) = log.split(&mut seat) else {
        return Err(Fail::from("a second seat is wanted"));
    };
    let Worked::Done(whole) = round(rt, alloc, task, &claims, &mut claim, &log, &mut seat)? else {
        return Err(Fail::from("a whole round is wanted"));
    };
    is(rt, is_whole(&whole, token), "all parts are drawn");
    let entries = log.look(rt, alloc, &mut seat)?;
    is(rt, are_off(&entries), "what is off is found");
    let next = Task { worker: 1, ..*task };
    let late = round(
        rt,
        alloc,
        &next,
        &claims,
        &mut next_claim,
        &log,
        &mut next_seat,
    )?;
    is(rt, is_empty(&late), "no part is left");
    claims.stop(&mut next_claim, 7);
    let stopped = round(rt, alloc, task, &claims, &mut claim, &log, &mut seat)?;
    is(rt, reason(&stopped) == 7, "the reason");
    Ok(())
}

#[test]
fn a_worker_alone_leaves_nothing_to_the_next(rt: HostRuntime) -> Result<(), Fail> {
    let alloc = rt.alloc();
    let protocol = protocol_of(alloc, OFF)?;
    let space = literals_of(alloc, &protocol)?;
    let classes = Classes::new(&space);
    let pool = Pool::new(alloc)?;
    let token = publish_off_start(&rt, alloc, &pool)?;
    let task = Task {
        protocol: &protocol,
        space: &classes,
        pool: &pool,
        mode: Mode::Breadth,
        workers: 2,
        worker: 0,
    };
    take_turns(&rt, alloc, &task, &token)
}
