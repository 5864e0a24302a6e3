//! The ground terms of each sort, from those whose applications are nested less deep.
ghost use Rattle.std.specs.Prelude.{◌≡◌, ◌++◌, [], ◌∷◌, ◌&&◌, ◌==◌, length, IfOk, map, false};
ghost use Rattle.std.specs.List.{flat_map, range_with_len};
ghost use Rattle.sw_logic.specs.declared.syntax.Term.{Term};
ghost use Rattle.sw_logic.specs.declared.syntax.Term.TheVariants.{Apply};
ghost use Rattle.sw_universe.specs.GroundTerms.{tuples, constants, applications, is_constant as has_constant_kind, is_function as has_function_kind};
ghost use Rattle.sw_universe.specs.Listing.{listed_in, constant_of, applied, terms_over};

use sqlite_items::Items;
use std::alloc::{AllocError, Global};
use sw_logic::{Signature, Symbol, SymbolKind, Term, copy_term, copy_terms};

pub fn is_constant(symbol: &Symbol, sort: u32) -> bool
    ensures { result ≡ (has_constant_kind symbol.now.kind && (symbol.now.gives == sort)) }
{
    matches!(symbol.kind, SymbolKind::Constant) && symbol.gives == sort
}

pub fn is_function(symbol: &Symbol, sort: u32) -> bool
    ensures { result ≡ (has_function_kind symbol.now.kind && (symbol.now.gives == sort)) }
{
    matches!(symbol.kind, SymbolKind::Function) && symbol.gives == sort
}

fn one_longer(alloc: Global, first: &Term, tail: &[Term]) -> Result<Items<Term>, AllocError>
    ensures { IfOk result (λ tuple. tuple ≡ first.now ∷ tail.now) }
{
    let mut tuple = Items::new(alloc);
    tuple.push(copy_term(alloc, first)?)?;
    tuple.append(copy_terms(alloc, tail)?)?;
    Ok(tuple)
}

/// Puts each tuple with the term before it at the end.
fn put_longer(
    alloc: Global,
    first: &Term,
    tails: &[Items<Term>],
    tuples: &mut Items<Items<Term>>,
) -> Result<(), AllocError>
    ensures { IfOk result (λ u. tuples.new ≡ tuples.old ++ map (λ tuple. first.now ∷ tuple) tails.now) }
{
    for tail in tails {
        tuples.push(one_longer(alloc, first, tail.as_slice())?)?;
    }
    Ok(())
}

fn longer(
    alloc: Global,
    firsts: &[Term],
    tails: &[Items<Term>],
) -> Result<Items<Items<Term>>, AllocError>
    ensures { IfOk result (λ ts. ts ≡ flat_map (λ x. map (λ tuple. x ∷ tuple) tails.now) firsts.now) }
{
    let mut tuples = Items::new(alloc);
    for first in firsts {
        put_longer(alloc, first, tails, &mut tuples)?;
    }
    Ok(tuples)
}

fn listed(lists: &[Items<Term>], sort: usize) -> &[Term]
    ensures { result.now ≡ listed_in lists.now sort }
{
    if sort < lists.len() {
        lists[sort].as_slice()
    } else {
        &[]
    }
}

fn empty_tuple(alloc: Global) -> Result<Items<Items<Term>>, AllocError>
    ensures { IfOk result (λ ts. ts ≡ [] ∷ []) }
{
    let mut tuples = Items::new(alloc);
    tuples.push(Items::new(alloc))?;
    Ok(tuples)
}

/// One listed term of each sort, in all ways.
fn tuples(
    alloc: Global,
    lists: &[Items<Term>],
    sorts: &[u32],
) -> Result<Items<Items<Term>>, AllocError>
    ensures { IfOk result (λ ts. ts ≡ tuples (map (listed_in lists.now) sorts.now)) }
{
    let mut tails = empty_tuple(alloc)?;
    let mut at = sorts.len();
    while at > 0 {
        at -= 1;
        tails = longer(alloc, listed(lists, sorts[at] as usize), tails.as_slice())?;
    }
    Ok(tails)
}

/// Puts the applications of a symbol at the end.
fn put_applied(
    alloc: Global,
    number: u32,
    tuples: &[Items<Term>],
    terms: &mut Items<Term>,
) -> Result<(), AllocError>
    ensures { IfOk result (λ u. terms.new ≡ terms.old ++ map (Apply number false) tuples.now) }
{
    for tuple in tuples {
        terms.push(Term::Apply {
            symbol: number,
            post: false,
            args: copy_terms(alloc, tuple.as_slice())?,
        })?;
    }
    Ok(())
}

fn constant_of(
    alloc: Global,
    number: usize,
    symbol: &Symbol,
    sort: u32,
) -> Result<Items<Term>, AllocError>
    ensures { IfOk result (λ ts. ts ≡ constant_of number symbol.now sort) }
{
    let mut terms = Items::new(alloc);
    if is_constant(symbol, sort) {
        let Ok(number) = u32::try_from(number) else {
            return Err(AllocError);
        };
        terms.push(Term::Apply {
            symbol: number,
            post: false,
            args: Items::new(alloc),
        })?;
        return Ok(terms);
    }
    Ok(terms)
}

fn applied(
    alloc: Global,
    number: usize,
    symbol: &Symbol,
    lists: &[Items<Term>],
    sort: u32,
) -> Result<Items<Term>, AllocError>
    ensures { IfOk result (λ ts. ts ≡ applied (listed_in lists.now) number symbol.now sort) }
{
    let mut terms = Items::new(alloc);
    if is_function(symbol, sort) {
        let Ok(number) = u32::try_from(number) else {
            return Err(AllocError);
        };
        let tuples = tuples(alloc, lists, symbol.args.as_slice())?;
        put_applied(alloc, number, tuples.as_slice(), &mut terms)?;
        return Ok(terms);
    }
    Ok(terms)
}

pub fn constants(alloc: Global, sig: &Signature, sort: u32) -> Result<Items<Term>, AllocError>
    ensures { IfOk result (λ ts. ts ≡ constants sig.now sort) }
{
    let mut terms = Items::new(alloc);
    for (number, symbol) in sig.symbols.as_slice().iter().enumerate() {
        terms.append(constant_of(alloc, number, symbol, sort)?)?;
    }
    Ok(terms)
}

fn applications(
    alloc: Global,
    sig: &Signature,
    lists: &[Items<Term>],
    sort: u32,
) -> Result<Items<Term>, AllocError>
    ensures { IfOk result (λ ts. ts ≡ applications sig.now (listed_in lists.now) sort) }
{
    let mut terms = Items::new(alloc);
    for (number, symbol) in sig.symbols.as_slice().iter().enumerate() {
        terms.append(applied(alloc, number, symbol, lists, sort)?)?;
    }
    Ok(terms)
}

/// The constants of each sort.
pub fn all_constants(
    alloc: Global,
    sig: &Signature,
    sorts: u32,
) -> Result<Items<Items<Term>>, AllocError>
    ensures { IfOk result (λ lists. lists ≡ map (constants sig.now) (range_with_len 0 sorts)) }
{
    let mut lists = Items::new(alloc);
    for sort in 0..sorts {
        lists.push(constants(alloc, sig, sort)?)?;
    }
    Ok(lists)
}

/// The terms of each sort whose arguments are listed.
pub fn deeper(
    alloc: Global,
    sig: &Signature,
    sorts: u32,
    listed: &[Items<Term>],
) -> Result<Items<Items<Term>>, AllocError>
    ensures { IfOk result (λ lists. lists ≡ map (terms_over sig.now listed.now) (range_with_len 0 sorts)) }
{
    let mut lists = Items::new(alloc);
    for sort in 0..sorts {
        let mut terms = constants(alloc, sig, sort)?;
        terms.append(applications(alloc, sig, listed, sort)?)?;
        lists.push(terms)?;
    }
    Ok(lists)
}
