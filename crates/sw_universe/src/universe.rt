//! The universe of a Skolem form: the ground terms of each sort.
ghost use Rattle.std.specs.Prelude.{◌≡◌, ◌≤◌, ◌<◌, length, IfOk, Some, slice_get, map, true};
ghost use Rattle.std.specs.List.{sum_by, range_with_len};
ghost use Rattle.sw_logic.specs.Strata.{IsStratified};
ghost use Rattle.sw_logic.specs.Signatures.{is_signature};
ghost use Rattle.sw_universe.specs.GroundTerms.{universe_of, term_count, terms_within};

use crate::listing::{all_constants, deeper};
use sqlite_items::Items;
use std::alloc::{AllocError, Global};
use sw_logic::{Signature, Term};
use sw_truth::SkolemSet;

/// The ground terms of each sort, in their order.
#[derive(Drop)]
pub struct Universe {
    pub lists: Items<Items<Term>>,
}

/// The terms of each sort that are nested no deeper than there are sorts.
fn nested(alloc: Global, sig: &Signature, sorts: u32) -> Result<Items<Items<Term>>, AllocError>
    requires signature { is_signature sig.now ≡ true }
    requires count { length sig.now.sorts ≡ sorts }
    ensures { IfOk result (λ lists. lists ≡ map (terms_within sig.now sorts) (range_with_len 0 sorts)) }
{
    let mut lists = all_constants(alloc, sig, sorts)?;
    for depth in 0..sorts {
        let _depth = depth;
        lists = deeper(alloc, sig, sorts, lists.as_slice())?;
    }
    Ok(lists)
}

impl Universe {
    /// The ground terms of a set's signature.
    pub fn new(alloc: Global, set: &SkolemSet) -> Result<Universe, AllocError>
        requires signature { is_signature set.now.signature ≡ true }
        requires strata { IsStratified set.now.signature }
        requires few { sum_by (term_count set.now.signature) (range_with_len 0 (length set.now.signature.sorts)) ≤ 1024 }
        ensures { IfOk result (λ u. u.lists ≡ universe_of set.now.signature) }
    {
        let Ok(sorts) = u32::try_from(set.signature.sorts.len()) else {
            return Err(AllocError);
        };
        Ok(Universe {
            lists: nested(alloc, &set.signature, sorts)?,
        })
    }

    /// The ground terms of a sort, in their order.
    pub fn terms(&self, sort: u32) -> &Items<Term>
        requires { sort < length self.now.lists }
        ensures { slice_get self.now.lists sort ≡ Some result.now }
    {
        &self.lists.as_slice()[sort as usize]
    }
}
