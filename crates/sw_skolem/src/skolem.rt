//! The Skolem form of a query, and its size.
ghost use Rattle.std.specs.Prelude.{◌≡◌, ◌++◌, length, IfOk};
ghost use Rattle.sw_skolem.specs.Skolem.{skolem_of, fresh_constants};
ghost use Rattle.sw_logic.specs.Queries.{IsQuery};

use crate::existentials::{Formed, forms_of};
use crate::forming::{copy_names, copy_symbols, fresh_constants, normal_forms};
use crate::pieces::all_pieces;
use sqlite_items::Items;
use std::alloc::{AllocError, Global};
use sw_logic::{Query, Signature, Symbol};
use sw_truth::SkolemSet;

/// The symbols that are added to a query's.
fn added(alloc: Global, query: &Query, made: Items<Symbol>) -> Result<Items<Symbol>, AllocError>
    ensures { IfOk result (λ ss. ss ≡ made ++ fresh_constants (length query.now.signature.sorts) (query.now.signature.symbols ++ made)) }
{
    let Ok(sorts) = u32::try_from(query.signature.sorts.len()) else {
        return Err(AllocError);
    };
    let mut symbols = copy_symbols(alloc, query.signature.symbols.as_slice())?;
    let mut added = copy_symbols(alloc, made.as_slice())?;
    symbols.append(made)?;
    let fresh = fresh_constants(alloc, sorts, symbols.as_slice())?;
    added.append(fresh)?;
    Ok(added)
}

/// The Skolem form of a query: its existential variables are symbols, and its sentences pieces.
pub fn skolemise(alloc: Global, query: &Query) -> Result<SkolemSet, AllocError>
    requires { IsQuery query.now }
    ensures { IfOk result (λ set. set ≡ skolem_of query.now) }
{
    let sentences = normal_forms(alloc, query.sentences.as_slice())?;
    let Formed { formulas, made } = forms_of(
        alloc,
        query.signature.symbols.len(),
        sentences.as_slice(),
    )?;
    let pieces = all_pieces(alloc, 0, formulas.as_slice())?;
    let more = added(alloc, query, made)?;
    let Ok(added) = u32::try_from(more.len()) else {
        return Err(AllocError);
    };
    let sorts = copy_names(alloc, query.signature.sorts.as_slice())?;
    let mut symbols = copy_symbols(alloc, query.signature.symbols.as_slice())?;
    symbols.append(more)?;
    Ok(SkolemSet {
        signature: Signature { sorts, symbols },
        added,
        pieces,
    })
}
