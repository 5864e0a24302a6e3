//! Strata: ranks of sorts that rise along the edges of functions and of existential quantifiers.
ghost use Rattle.std.specs.Prelude.{◌≡◌, ◌++◌, ◌<◌, [], map, length, IfOk, MatchResult};
ghost use Rattle.std.specs.List.{AllByRecursion, range_with_len};
ghost use Rattle.sw_logic.specs.Strata.{AreRanks, AreWithin, edges_of};
ghost use Rattle.sw_strata.specs.Answers.{IsStrataFault};

use crate::edges::all_edges;
use crate::reaching::{is_found, ranks, reached};
use sqlite_items::Items;
use std::alloc::{AllocError, Global};
use sw_logic::{Edge, Polar, Signature};

/// Why there are no ranks: the first declared sort that lies on a cycle of edges.
#[derive(Debug, Drop)]
pub enum StrataError {
    Cycle { sort: u32 },
    Memory,
}

impl From<AllocError> for StrataError {
    ghost use Rattle.sw_strata.specs.declared.ranks.StrataError.TheVariants.{Memory};

    ghost from_gives = { λ _ e. e ≡ Memory };

    fn from(_: AllocError) -> StrataError {
        StrataError::Memory
    }
}

fn zeros(alloc: Global, count: u32) -> Result<Items<u32>, AllocError>
    ensures { IfOk result (λ ns. ns ≡ map (λ k. 0) (range_with_len 0 count)) }
{
    let mut numbers = Items::new(alloc);
    for _ in 0..count {
        numbers.push(0)?;
    }
    Ok(numbers)
}

/// Ranks of so many sorts that have no edges.
fn level(alloc: Global, sorts: u32, edges: &[Edge]) -> Result<Items<u32>, AllocError>
    requires { edges.now ≡ [] }
    ensures { IfOk result (AreRanks sorts edges.now) }
{
    let ranks = zeros(alloc, sorts)?;
    Ok(ranks)
}

/// Ranks of so many sorts.
fn ranked(alloc: Global, sorts: u32, edges: &[Edge]) -> Result<Items<u32>, StrataError>
    requires { AreWithin sorts edges.now }
    ensures { MatchResult result (AreRanks sorts edges.now) (IsStrataFault edges.now) }
{
    let mut tables = Items::new(alloc);
    for sort in 0..sorts {
        let found = reached(alloc, sorts as usize, edges, sort as usize)?;
        if is_found(found.as_slice(), sort as usize) {
            return Err(StrataError::Cycle { sort });
        }
        tables.push(found)?;
    }
    Ok(ranks(alloc, tables.as_slice())?)
}

/// A rank for each sort that rises along each edge, of functions, of the existential quantifiers of the
/// formulas, and of those given beside.
pub fn strata(
    alloc: Global,
    sig: &Signature,
    formulas: &Items<Polar>,
    extra: &Items<Edge>,
) -> Result<Items<u32>, StrataError>
    requires { AreWithin (length sig.now.sorts) (edges_of sig.now formulas.now ++ extra.now) }
    ensures { let edges = edges_of sig.now formulas.now ++ extra.now in MatchResult result (AreRanks (length sig.now.sorts) edges) (IsStrataFault edges) }
{
    let mut edges = all_edges(alloc, sig, formulas.as_slice())?;
    edges.append(Items::from_slice(alloc, extra.as_slice())?)?;
    let Ok(sorts) = u32::try_from(sig.sorts.len()) else {
        return Err(StrataError::Memory);
    };
    if edges.is_empty() {
        return Ok(level(alloc, sorts, edges.as_slice())?);
    }
    ranked(alloc, sorts, edges.as_slice())
}
