//! Which filters of a worker stand in the record.
ghost use Rattle.std.specs.Prelude.{◌≡◌, ◌++◌, ◌∷◌, [], if◌then◌else◌, IfOk, map};
ghost use Rattle.std.specs.List.{AllByRecursion};
ghost use Rattle.sw_pool.specs.Pools.{IsShown, filter_of};
ghost use Rattle.sw_core.specs.Gathered.{chosen, filters_of};
ghost use Rattle.sw_gather.specs.Gathers.{AreKeptOf, HasTokens, shown_by};

use sqlite_items::{Items, at};
use std::alloc::{AllocError, Global};
use sw_core::{Kept, copy_kept};
use sw_hand::Handed;
use sw_pool::{Cursor, Pool, Seen};

/// The indexes of the filters that stand in the record already, or that one of the workers published.
fn published(alloc: Global, tokens: &[Seen], shares: &[Handed]) -> Result<Cursor, AllocError> {
    let mut cursor = Cursor::new(alloc);
    for token in tokens {
        cursor.note(token)?;
    }
    for share in shares {
        note_own(share, &mut cursor)?;
    }
    Ok(cursor)
}

fn note_own(share: &Handed, cursor: &mut Cursor) -> Result<(), AllocError> {
    for place in 0..share.tokens.len() {
        if let Some(own) = share.own.get(place) {
            if *own {
                cursor.note(&share.tokens[place])?;
            }
        }
    }
    Ok(())
}

/// Whether a filter stands in the record as this worker's: it published it, or none did that is known.
fn stands(cursor: &Cursor, own: Option<&bool>, token: &Seen) -> bool {
    match own {
        Some(own) => *own || !cursor.is_read(Pool::index(token) as usize),
        None => true,
    }
}

/// Of each of a worker's filters, whether it stands in the record as this worker's.
fn marks_of(alloc: Global, cursor: &Cursor, share: &Handed) -> Result<Vec<bool>, AllocError> {
    let mut marks = Vec::new(alloc);
    for place in 0..share.tokens.len() {
        let mark = stands(cursor, share.own.get(place), &share.tokens[place]);
        marks.push(mark)?;
    }
    Ok(marks)
}

/// Adds a filter and its token where they are marked.
fn keep_where(
    alloc: Global,
    mark: bool,
    one: &Kept,
    token: &Seen,
    tokens: &mut Vec<Seen>,
    kept: &mut Items<Kept>,
) -> Result<(), AllocError>
    ensures kept { IfOk result (λ _. kept.new ≡ kept.old ++ (if mark then one.now ∷ [] else [])) }
    ensures tokens { IfOk result (λ _. tokens.new.items ≡ tokens.old.items ++ (if mark then token.now ∷ [] else [])) }
{
    if mark {
        kept.push(copy_kept(alloc, one)?)?;
        tokens.push(token.again())?;
    }
    Ok(())
}

/// Adds the filters of a worker that are marked, and their tokens.
fn keep_marked(
    alloc: Global,
    pool: &Pool,
    marks: &[bool],
    share: &Handed,
    tokens: &mut Vec<Seen>,
    kept: &mut Items<Kept>,
) -> Result<(), AllocError>
    requires tokens { HasTokens pool.now share.now }
    requires shown { AllByRecursion (IsShown pool.now) tokens.old.items }
    ensures kept { IfOk result (λ _. kept.new ≡ kept.old ++ chosen marks.now share.now.kept) }
    ensures filters { IfOk result (λ _. shown_by tokens.new.items ≡ shown_by tokens.old.items ++ filters_of (chosen marks.now share.now.kept)) }
    ensures shown { IfOk result (λ _. AllByRecursion (IsShown pool.now) tokens.new.items) }
{
    for place in 0..share.kept.len() {
        let Some(mark) = at(marks, place) else {
            return Err(AllocError);
        };
        let (Some(one), Some(token)) = (share.kept.get(place), at(&share.tokens, place)) else {
            return Err(AllocError);
        };
        keep_where(alloc, *mark, one, token, tokens, kept)?;
    }
    Ok(())
}

/// The filters of the workers that stand in the record, each of which is put behind the tokens too. A
/// filter that a worker found is left out where the record has it, or its publisher is among the workers.
pub(crate) fn keep_all(
    alloc: Global,
    pool: &Pool,
    tokens: &mut Vec<Seen>,
    shares: &[Handed],
) -> Result<Items<Kept>, AllocError>
    requires tokens { AllByRecursion (HasTokens pool.now) shares.now }
    requires shown { AllByRecursion (IsShown pool.now) tokens.old.items }
    ensures kept { IfOk result (AreKeptOf shares.now) }
    ensures filters { IfOk result (λ kept. shown_by tokens.new.items ≡ shown_by tokens.old.items ++ filters_of kept) }
    ensures shown { IfOk result (λ _. AllByRecursion (IsShown pool.now) tokens.new.items) }
{
    let cursor = published(alloc, tokens, shares)?;
    let mut kept = Items::new(alloc);
    for share in shares {
        let marks = marks_of(alloc, &cursor, share)?;
        keep_marked(alloc, pool, &marks, share, tokens, &mut kept)?;
    }
    Ok(kept)
}
