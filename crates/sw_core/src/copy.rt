//! Copies of what records hold.
ghost use Rattle.std.specs.Prelude.{◌≡◌, IfOk};

use crate::record::{Kept, Settled};
use sqlite_items::Items;
use std::alloc::{AllocError, Global};
use sw_filter::Filter;
use sw_log::copy_body;
use sw_logic::{Pair, copy_structure};

pub fn copy_settled(alloc: Global, settled: &Settled) -> Result<Settled, AllocError>
    ensures { IfOk result (λ s. s ≡ settled.now) }
{
    Ok(Settled {
        part: settled.part,
        worker: settled.worker,
        under: settled.under,
        by: Items::from_slice(alloc, settled.by.as_slice())?,
    })
}

fn copy_pair(alloc: Global, pair: &Pair) -> Result<Pair, AllocError>
    ensures { IfOk result (λ p. p ≡ pair.now) }
{
    Ok(Pair {
        before: copy_structure(alloc, &pair.before)?,
        after: copy_structure(alloc, &pair.after)?,
    })
}

/// The same filter.
pub fn copy_filter(alloc: Global, filter: &Filter) -> Result<Filter, AllocError>
    ensures { IfOk result (λ f. f ≡ filter.now) }
{
    match filter {
        Filter::Start { structure } => Ok(Filter::Start {
            structure: copy_structure(alloc, structure)?,
        }),
        Filter::Move {
            pair,
            transition,
            args,
            under,
        } => Ok(Filter::Move {
            pair: copy_pair(alloc, pair)?,
            transition: *transition,
            args: Items::from_slice(alloc, args.as_slice())?,
            under: *under,
        }),
        Filter::Bad {
            pair,
            transition,
            args,
            under,
        } => Ok(Filter::Bad {
            pair: copy_pair(alloc, pair)?,
            transition: *transition,
            args: Items::from_slice(alloc, args.as_slice())?,
            under: *under,
        }),
    }
}

/// The same kept filter.
pub fn copy_kept(alloc: Global, kept: &Kept) -> Result<Kept, AllocError>
    ensures { IfOk result (λ k. k ≡ kept.now) }
{
    Ok(Kept {
        filter: copy_filter(alloc, &kept.filter)?,
        worker: kept.worker,
        body: copy_body(alloc, &kept.body)?,
        under: kept.under,
    })
}
