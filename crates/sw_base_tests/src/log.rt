// What no clause says: that the calls succeed, and what several threads append.
ghost use Rattle.std.specs.Prelude.{◌≡◌, ◌≤◌, length, IfOk};
ghost use Rattle.std.specs.Thread.{IsSync};

use crate::asserts::is;
use std::alloc::{AllocError, Global};
use std::sync::Wait;
use std::thread::{Threads, join};
use sw_log::{Appended, Entry, LogSeat, SharedLog};
use sw_template::Body;

fn entry_of(alloc: Global, cube: u32, worker: u32, under: u32) -> Entry
    ensures { result.under ≡ under }
{
    Entry {
        body: Body::of_few(alloc, 0, &[cube]),
        worker,
        under,
    }
}

fn is_done(answer: Appended) -> bool {
    match answer {
        Appended::Done => true,
        Appended::Behind(_) => false,
        Appended::Memory(_) => false,
    }
}

fn list_behind(answer: Appended) -> Option<Vec<Entry>> {
    match answer {
        Appended::Done => None,
        Appended::Behind(list) => Some(list),
        Appended::Memory(_) => None,
    }
}

// The list has this one entry.
fn is_one(list: &[Entry], cube: u32, worker: u32) -> bool {
    match list.first() {
        Some(entry) => {
            list.len() == 1
                && entry.body.cubes() == [cube].as_slice()
                && entry.worker == worker
                && entry.under == 0
        }
        None => false,
    }
}

#[test]
fn an_append_on_a_shorter_list_is_behind(rt: HostRuntime) -> Result<(), AllocError> {
    let alloc = rt.alloc();
    let (log, mut first) = SharedLog::new(alloc, Vec::new(alloc), 2)?;
    let Some(mut second) = log.split(&mut first) else {
        panic!(rt; "the first seat has a split");
    };
    is(&rt, log.split(&mut first).is_none(), "no seat more");
    let done = log.append(&rt, alloc, &mut first, entry_of(alloc, 3, 0, 0));
    is(&rt, is_done(done), "the first entry");
    is(&rt, log.length(&mut second) == 1, "one is seen");
    let seen = log.look(&rt, alloc, &mut second)?;
    is(&rt, is_one(&seen, 3, 0), "the entry seen");
    let behind = log.append(&rt, alloc, &mut second, entry_of(alloc, 1, 1, 0));
    let Some(list) = list_behind(behind) else {
        panic!(rt; "the log is longer");
    };
    is(&rt, is_one(&list, 3, 0), "the entry that was missed");
    let again = log.look(&rt, alloc, &mut second)?;
    is(&rt, is_one(&again, 3, 0), "the entry seen again");
    log.join(&mut first, second);
    let all = log.look(&rt, alloc, &mut first)?;
    is(&rt, is_one(&all, 3, 0), "the entry joined");
    is(
        &rt,
        is_one(&log.close(first), 3, 0),
        "the entry at the close",
    );
    Ok(())
}

// One append under the length that the seat knows of: whether it was done, and the length that the seat then knows of.
fn tries_append<H: Wait>(
    rt: &H,
    alloc: Global,
    log: &SharedLog,
    seat: &mut LogSeat,
    worker: u32,
    under: u32,
) -> Result<(bool, u32), AllocError>
    requires object { seat.old.object ≡ log.now }
    requires under { under ≤ length seat.old.view.seen }
    ensures object { seat.new.object ≡ seat.old.object }
    ensures under { IfOk result (λ r. r.1 ≤ length seat.new.view.seen) }
{
    let entry = entry_of(alloc, 3, worker, under);
    match log.append(rt, alloc, seat, entry) {
        Appended::Done => Ok((true, under.saturating_add(1))),
        Appended::Behind(list) => Ok((false, list.len() as u32)),
        Appended::Memory(_) => Err(AllocError),
    }
}

fn appends_thousand<H: Wait>(
    rt: &H,
    alloc: Global,
    log: &SharedLog,
    seat: LogSeat,
    worker: u32,
) -> Result<LogSeat, AllocError>
    requires { seat.object ≡ log.now }
    ensures { IfOk result (λ s. s.object ≡ log.now) }
{
    let mut seat = seat;
    let mut under = 0u32;
    let mut left = 1000u32;
    for _ in rt.forever() {
        if left == 0 {
            break;
        }
        let (done, known) = tries_append(rt, alloc, log, &mut seat, worker, under)?;
        under = known;
        if done {
            left -= 1;
        }
    }
    Ok(seat)
}

fn two_append<H: Threads + Wait + Sync>(
    rt: &H,
    alloc: Global,
    log: &SharedLog,
    one: LogSeat,
    other: LogSeat,
    worker: u32,
) -> Result<(LogSeat, LogSeat), AllocError>
    requires { (one.object ≡ log.now) × (other.object ≡ log.now) }
    ensures { IfOk result (λ s. (s.0.object ≡ log.now) × (s.1.object ≡ log.now)) }
{
    let (a, b) = join(
        rt,
        || -> Result<LogSeat, AllocError>
            requires { IsSync H.row × (one.object ≡ log.now) }
            ensures { IfOk result (λ s. s.object ≡ log.entry.now) }
        { appends_thousand(rt, alloc, log, one, worker) },
        || -> Result<LogSeat, AllocError>
            requires { IsSync H.row × (other.object ≡ log.now) }
            ensures { IfOk result (λ s. s.object ≡ log.entry.now) }
        { appends_thousand(rt, alloc, log, other, worker ^ 1) },
    );
    Ok((a?, b?))
}

// How many of the entries are this worker's.
fn count_of(entries: &[Entry], worker: u32) -> usize {
    entries
        .iter()
        .filter(|entry| entry.worker == worker)
        .count()
}

#[test]
fn four_threads_append_a_thousand_entries_each(rt: HostRuntime) -> Result<(), AllocError> {
    let alloc = rt.alloc();
    let (log, mut first) = SharedLog::new(alloc, Vec::new(alloc), 5)?;
    let Some(a) = log.split(&mut first) else {
        panic!(rt; "a split");
    };
    let Some(b) = log.split(&mut first) else {
        panic!(rt; "a split");
    };
    let Some(c) = log.split(&mut first) else {
        panic!(rt; "a split");
    };
    let Some(d) = log.split(&mut first) else {
        panic!(rt; "a split");
    };
    let (two, more) = join(
        &rt,
        || two_append(&rt, alloc, &log, a, b, 0),
        || two_append(&rt, alloc, &log, c, d, 2),
    );
    let (a, b) = two?;
    let (c, d) = more?;
    log.join(&mut first, a);
    log.join(&mut first, b);
    log.join(&mut first, c);
    log.join(&mut first, d);
    is(&rt, log.length(&mut first) == 4000, "all entries");
    let entries = log.look(&rt, alloc, &mut first)?;
    for (place, entry) in entries.iter().enumerate() {
        is(
            &rt,
            entry.under as usize == place,
            "each under those before it",
        );
    }
    for worker in 0..4 {
        is(
            &rt,
            count_of(&entries, worker) == 1000,
            "those of each worker",
        );
    }
    Ok(())
}
