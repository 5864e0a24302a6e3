//! A record that is written by hand, and whether the core machine takes its steps.
use crate::asserts::is;
use sqlite_items::Items;
use std::alloc::{AllocError, Global};
use std::test::Fail;
use sw_core::{Entry, Kept, Record, Round, Settled, is_record, replay};
use sw_enumerate::Space;
use sw_filter::{Filter, Mode};
use sw_logic::{Pair, Structure, Table};
use sw_protocol::read_protocol;
use sw_template::Body;
use sw_template_text::read_template;

/// x is to stay off: only where y is on may it go on. Each literal is a class of its own: 0 is x, 1 is
/// !x, 2 is y, 3 is !y.
const RETIRE: &str =
    "mutable relation x; mutable relation y; init !x & !y; transition t modifies x: y & x'; safety !x;";

const TEMPLATE: &str = "literals 1";

fn state(alloc: Global, x: bool, y: bool) -> Result<Structure, AllocError> {
    let mut tables = Items::new(alloc);
    tables.push(Table::Bits(Items::from_slice(alloc, &[x])?))?;
    tables.push(Table::Bits(Items::from_slice(alloc, &[y])?))?;
    Ok(Structure {
        sizes: Items::new(alloc),
        tables,
    })
}

fn settled(alloc: Global, part: u64, under: u32, by: &[u32]) -> Result<Settled, AllocError> {
    Ok(Settled {
        part,
        worker: 0,
        under,
        by: Items::from_slice(alloc, by)?,
    })
}

/// Worker 0 draws all four parts.
fn drawn(alloc: Global) -> Result<Items<Items<u64>>, AllocError> {
    let mut all = Items::new(alloc);
    all.push(Items::from_slice(alloc, &[0, 1, 2, 3])?)?;
    Ok(all)
}

/// The start, kept for x, and a step from where y is on, kept for !x.
fn kept(alloc: Global) -> Result<Items<Kept>, AllocError> {
    let mut all = Items::new(alloc);
    all.push(Kept {
        filter: Filter::Start {
            structure: state(alloc, false, false)?,
        },
        worker: 0,
        body: Body::of_list(alloc, 0, &[0])?,
        under: 0,
    })?;
    all.push(Kept {
        filter: Filter::Move {
            pair: Pair {
                before: state(alloc, false, true)?,
                after: state(alloc, true, true)?,
            },
            transition: 0,
            args: Items::new(alloc),
            under: 0,
        },
        worker: 0,
        body: Body::of_list(alloc, 0, &[1])?,
        under: 0,
    })?;
    Ok(all)
}

/// !y is appended; x, !x and y are settled under the empty list.
fn first_round(alloc: Global) -> Result<Round, AllocError> {
    let mut all = Items::new(alloc);
    all.push(settled(alloc, 0, 0, &[0])?)?;
    all.push(settled(alloc, 1, 0, &[1])?)?;
    all.push(settled(alloc, 2, 0, &[0])?)?;
    all.push(settled(alloc, 3, 1, &[])?)?;
    Ok(Round {
        drawn: drawn(alloc)?,
        kept: kept(alloc)?,
        settled: all,
        log: 1,
    })
}

/// !x is appended, and all parts are settled under both; or all but that of y.
fn second_round(alloc: Global, whole: bool) -> Result<Round, AllocError> {
    let mut all = Items::new(alloc);
    all.push(settled(alloc, 0, 2, &[0])?)?;
    all.push(settled(alloc, 1, 2, &[])?)?;
    if whole {
        all.push(settled(alloc, 2, 2, &[0])?)?;
    }
    all.push(settled(alloc, 3, 2, &[])?)?;
    Ok(Round {
        drawn: drawn(alloc)?,
        kept: Items::new(alloc),
        settled: all,
        log: 2,
    })
}

fn entry(alloc: Global, cube: u32, under: u32) -> Result<Entry, AllocError> {
    Ok(Entry {
        body: Body::of_list(alloc, 0, &[cube])?,
        worker: 0,
        under,
    })
}

fn two_rounds(alloc: Global, whole: bool) -> Result<Record, AllocError> {
    let mut entries = Items::new(alloc);
    entries.push(entry(alloc, 3, 0)?)?;
    entries.push(entry(alloc, 1, 1)?)?;
    let mut rounds = Items::new(alloc);
    rounds.push(first_round(alloc)?)?;
    rounds.push(second_round(alloc, whole)?)?;
    Ok(Record { entries, rounds })
}

fn one_round(alloc: Global) -> Result<Record, AllocError> {
    let mut entries = Items::new(alloc);
    entries.push(entry(alloc, 3, 0)?)?;
    let mut rounds = Items::new(alloc);
    rounds.push(first_round(alloc)?)?;
    Ok(Record { entries, rounds })
}

/// Whether one worker may have left the record, from the empty list.
fn replays(alloc: Global, record: &Record) -> Result<Option<bool>, AllocError> {
    let Ok(protocol) = read_protocol(alloc, RETIRE.as_bytes()) else {
        return Ok(None);
    };
    let signature = &protocol.signature;
    if signature.sorts.len() > u32::MAX as usize {
        return Ok(None);
    }
    let Ok(template) = read_template(alloc, TEMPLATE.as_bytes(), signature) else {
        return Ok(None);
    };
    let Ok(space) = Space::new(alloc, template, signature) else {
        return Ok(None);
    };
    if !is_record(record, 0) {
        return Ok(None);
    }
    let opening = Vec::new(alloc);
    let all = replay(alloc, &protocol, &space, 1, Mode::Breadth, opening, record)?;
    Ok(Some(all))
}

#[test]
fn a_record_written_by_hand_is_replayed(rt: HostRuntime) -> Result<(), Fail> {
    let alloc = rt.alloc();
    let whole = two_rounds(alloc, true)?;
    let found = replays(alloc, &whole)?;
    is(&rt, found == Some(true), "all steps are taken");
    let stale = one_round(alloc)?;
    let found = replays(alloc, &stale)?;
    is(&rt, found == Some(false), "the step is not live under !y");
    let held = two_rounds(alloc, false)?;
    let found = replays(alloc, &held)?;
    is(&rt, found == Some(false), "the part of y is in a hand");
    Ok(())
}
