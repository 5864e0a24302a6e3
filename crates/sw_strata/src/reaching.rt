//! Which sorts are found from a sort along edges, and ranks by them.
ghost use Rattle.std.specs.Prelude.{◌≡◌, ◌++◌, ◌<◌, ◌^◌, length, false, true, IfOk, MatchOption, map, slice_set};
ghost use Rattle.std.specs.List.{list_any, range_with_len, Contains};
ghost use Rattle.sw_logic.specs.Strata.{AreWithin};
ghost use Rattle.sw_strata.specs.Reaching.{is_found, is_open, AreReached, AreTables, rank_in};

use sqlite_items::Items;
use std::alloc::{AllocError, Global};
use sw_logic::Edge;

pub fn is_found(found: &[bool], sort: usize) -> bool
    ensures { result ≡ is_found found.now sort }
{
    if sort < found.len() {
        found[sort]
    } else {
        false
    }
}

fn is_open(start: usize, found: &[bool], edge: &Edge) -> bool
    ensures { result ≡ is_open start found.now edge.now }
{
    let from = edge.from as usize;
    (from == start || is_found(found, from)) && !is_found(found, edge.to as usize)
}

/// An open edge.
fn open_edge(start: usize, found: &[bool], edges: &[Edge]) -> Option<Edge>
    ensures { MatchOption result (list_any (is_open start found.now) edges.now ≡ false) (λ e. Contains edges.now e × (is_open start found.now e ≡ true)) }
{
    for edge in edges {
        if is_open(start, found, edge) {
            return Some(*edge);
        }
    }
    None
}

fn none_found(alloc: Global, sorts: usize) -> Result<Items<bool>, AllocError>
    ensures { IfOk result (λ found. found ≡ map (λ k. false) (range_with_len 0 sorts)) }
{
    let mut found = Items::new(alloc);
    for _ in 0..sorts {
        found.push(false)?;
    }
    Ok(found)
}

/// The sorts to which edges lead from the start.
pub fn reached(
    alloc: Global,
    sorts: usize,
    edges: &[Edge],
    start: usize,
) -> Result<Items<bool>, AllocError>
    requires { AreWithin sorts edges.now }
    ensures { IfOk result (AreReached sorts edges.now start) }
{
    let mut found = none_found(alloc, sorts)?;
    while let Some(edge) = open_edge(start, found.as_slice(), edges) {
        found.set(edge.to as usize, true);
    }
    Ok(found)
}

fn rank(tables: &[Items<bool>], sort: usize) -> u32
    requires { length tables.now < 2 ^ 32 }
    ensures { result ≡ rank_in tables.now sort }
{
    let mut rank = 0;
    for found in tables {
        if is_found(found.as_slice(), sort) {
            rank += 1;
        }
    }
    rank
}

/// The rank of each sort: how many sorts lead to it.
pub fn ranks(alloc: Global, tables: &[Items<bool>]) -> Result<Items<u32>, AllocError>
    requires { length tables.now < 2 ^ 32 }
    ensures { IfOk result (λ rs. rs ≡ map (rank_in tables.now) (range_with_len 0 (length tables.now))) }
{
    let mut ranks = Items::new(alloc);
    for sort in 0..tables.len() {
        ranks.push(rank(tables, sort))?;
    }
    Ok(ranks)
}
