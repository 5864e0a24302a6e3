//! Lists of terms.
ghost use Rattle.std.specs.Prelude.{◌≡◌, ℕ, ◌+◌, ◌<◌, ◌++◌, ◌∷◌, ◌==◌, ◌&&◌, cond, false, [], map, max, min, length, IfOk, OnOk, slice_get};
ghost use Rattle.std.specs.List.{flat_map, filter, enumerate_from, range_with_len};
ghost use Rattle.sw_logic.specs.declared.syntax.Term.TheVariants.{Variable, Apply};
ghost use Rattle.sw_logic.specs.Truth.{greatest};
ghost use Rattle.sw_meaning.specs.Space.{depth_of};
ghost use Rattle.sw_meaning.specs.Classes.{scope_of, terms_of, is_constant, is_function, is_relation};
ghost use Rattle.sw_template.specs.Listing.{list_at, tuples_at, applied, next_terms, table_of};

use sqlite_items::Items;
use std::alloc::{AllocError, Global};
use sw_logic::{Signature, Symbol, SymbolKind, Term, copy_term, copy_terms};
use sw_meaning::Template;

/// The depth of a term, at most so much.
#[cycle(depths)]
pub fn depth_up_to(term: &Term, most: u32) -> u32
    ensures { result ≡ min (depth_of term.now) most }
{
    match term {
        Term::Variable(_) => 0,
        Term::Apply { args, .. } => {
            if args.is_empty() {
                return 0;
            }
            let deepest = greatest_up_to(args.as_slice(), most);
            if deepest < most { deepest + 1 } else { most }
        }
    }
}

/// The greater of two numbers.
fn greater(a: u32, b: u32) -> u32
    ensures { result ≡ max a b }
{
    if a < b { b } else { a }
}

/// The depth of the deepest term, at most so much.
#[cycle(depths)]
pub fn greatest_up_to(terms: &[Term], most: u32) -> u32
    ensures { result ≡ min (greatest (map depth_of terms.now)) most }
{
    let mut deepest = 0;
    for term in terms {
        deepest = greater(deepest, depth_up_to(term, most));
    }
    deepest
}

/// The sorts of the template's variables.
pub fn scope_in(alloc: Global, template: &Template) -> Result<Items<u32>, AllocError>
    ensures { IfOk result (λ s. s ≡ scope_of template.now) }
{
    let mut scope = Items::new(alloc);
    for run in template.prefix.as_slice() {
        for _ in 0..run.count {
            scope.push(run.sort)?;
        }
    }
    Ok(scope)
}

/// A term and a copy of others after it.
fn tuple_of(alloc: Global, first: &Term, rest: &[Term]) -> Result<Items<Term>, AllocError>
    ensures { IfOk result (λ ts. ts ≡ first.now ∷ rest.now) }
{
    let mut tuple = Items::new(alloc);
    tuple.push(copy_term(alloc, first)?)?;
    let rest = copy_terms(alloc, rest)?;
    tuple.append(rest)?;
    Ok(tuple)
}

/// Adds the tuples that begin with a term.
fn push_tuples(
    alloc: Global,
    tuples: &mut Items<Items<Term>>,
    first: &Term,
    rests: &[Items<Term>],
) -> Result<(), AllocError>
    ensures { OnOk result (tuples.new ≡ tuples.old ++ map (λ t. first.now ∷ t) rests.now) }
{
    for rest in rests {
        tuples.push(tuple_of(alloc, first, rest.as_slice())?)?;
    }
    Ok(())
}

/// The tuples that begin with each of these terms.
fn prefixed(
    alloc: Global,
    firsts: &[Term],
    rests: &[Items<Term>],
) -> Result<Items<Items<Term>>, AllocError>
    ensures { IfOk result (λ ts. ts ≡ flat_map (λ x. map (λ t. x ∷ t) rests.now) firsts.now) }
{
    let mut tuples = Items::new(alloc);
    for first in firsts {
        push_tuples(alloc, &mut tuples, first, rests)?;
    }
    Ok(tuples)
}

/// The terms that a table has for a sort.
fn list_of(lists: &[Items<Term>], sort: u32) -> &[Term]
    ensures { result.now ≡ list_at lists.now sort }
{
    match lists.get(sort as usize) {
        Some(terms) => terms.as_slice(),
        None => &[],
    }
}

/// The tuples of terms of these sorts. Where a sort has no term, those after it are not looked at.
pub fn tuples_of(
    alloc: Global,
    lists: &[Items<Term>],
    sorts: &[u32],
) -> Result<Items<Items<Term>>, AllocError>
    ensures { IfOk result (λ ts. ts ≡ tuples_at lists.now sorts.now) }
{
    let [sort, rest @ ..] = sorts else {
        let mut tuples = Items::new(alloc);
        tuples.push(Items::new(alloc))?;
        return Ok(tuples);
    };
    let firsts = list_of(lists, *sort);
    if firsts.is_empty() {
        return Ok(Items::new(alloc));
    }
    let rests = tuples_of(alloc, lists, rest)?;
    let tuples = prefixed(alloc, firsts, rests.as_slice())?;
    Ok(tuples)
}

/// Adds a function at a tuple whose deepest term has this depth.
fn push_application(
    alloc: Global,
    terms: &mut Items<Term>,
    symbol: u32,
    tuple: &[Term],
    depth: u32,
) -> Result<(), AllocError>
    requires { depth < 4294967295 }
    ensures { OnOk result (terms.new ≡ terms.old ++ cond (greatest (map depth_of tuple.now) == depth) (Apply symbol false tuple.now ∷ []) []) }
{
    if greatest_up_to(tuple, depth + 1) != depth {
        return Ok(());
    }
    terms.push(Term::Apply {
        symbol,
        post: false,
        args: copy_terms(alloc, tuple)?,
    })?;
    Ok(())
}

/// Adds a function at those of the tuples whose deepest term has this depth.
fn push_applied(
    alloc: Global,
    terms: &mut Items<Term>,
    symbol: u32,
    tuples: &[Items<Term>],
    depth: u32,
) -> Result<(), AllocError>
    requires { depth < 4294967295 }
    ensures { OnOk result (terms.new ≡ terms.old ++ applied depth symbol tuples.now) }
{
    for tuple in tuples {
        push_application(alloc, terms, symbol, tuple.as_slice(), depth)?;
    }
    Ok(())
}

/// Whether a symbol is a constant of a sort.
fn is_constant_of(symbol: &Symbol, sort: u32) -> bool
    ensures { result ≡ (is_constant symbol.now.kind && symbol.now.gives == sort) }
{
    match symbol.kind {
        SymbolKind::Relation => false,
        SymbolKind::Constant => symbol.gives == sort,
        SymbolKind::Function => false,
    }
}

/// Whether a symbol is a function of a sort.
pub fn is_function_of(symbol: &Symbol, sort: u32) -> bool
    ensures { result ≡ (is_function symbol.now.kind && symbol.now.gives == sort) }
{
    match symbol.kind {
        SymbolKind::Relation => false,
        SymbolKind::Constant => false,
        SymbolKind::Function => symbol.gives == sort,
    }
}

/// Whether a symbol is a relation.
pub fn is_relation(symbol: &Symbol) -> bool
    ensures { result ≡ is_relation symbol.now.kind }
{
    match symbol.kind {
        SymbolKind::Relation => true,
        SymbolKind::Constant => false,
        SymbolKind::Function => false,
    }
}

/// Adds a variable that is of a sort.
fn push_variable(terms: &mut Items<Term>, place: u32, of: u32, sort: u32) -> Result<(), AllocError>
    ensures { OnOk result (terms.new ≡ terms.old ++ cond (of == sort) (Variable place ∷ []) []) }
{
    if of != sort {
        return Ok(());
    }
    terms.push(Term::Variable(place))?;
    Ok(())
}

/// Adds a symbol that is a constant of a sort.
fn push_constant(
    alloc: Global,
    terms: &mut Items<Term>,
    n: u32,
    symbol: &Symbol,
    sort: u32,
) -> Result<(), AllocError>
    ensures { OnOk result (terms.new ≡ terms.old ++ cond (is_constant symbol.now.kind && symbol.now.gives == sort) (Apply n false [] ∷ []) []) }
{
    if !is_constant_of(symbol, sort) {
        return Ok(());
    }
    terms.push(Term::Apply {
        symbol: n,
        post: false,
        args: Items::new(alloc),
    })?;
    Ok(())
}

/// Adds a symbol that is a function of a sort, at those arguments whose deepest has this depth.
fn push_function(
    alloc: Global,
    terms: &mut Items<Term>,
    n: u32,
    symbol: &Symbol,
    sort: u32,
    table: &[Items<Term>],
    depth: u32,
) -> Result<(), AllocError>
    requires { depth < 4294967295 }
    ensures { OnOk result (terms.new ≡ terms.old ++ cond (is_function symbol.now.kind && symbol.now.gives == sort) (applied depth n (tuples_at table.now symbol.now.args)) []) }
{
    if !is_function_of(symbol, sort) {
        return Ok(());
    }
    let tuples = tuples_of(alloc, table, symbol.args.as_slice())?;
    push_applied(alloc, terms, n, tuples.as_slice(), depth)?;
    Ok(())
}

/// The variables of a sort and the constants of it.
fn first_terms(
    alloc: Global,
    sig: &Signature,
    scope: &[u32],
    sort: u32,
) -> Result<Items<Term>, AllocError>
    requires scope { length scope.now < 4294967296 }
    requires symbols { length sig.now.symbols < 4294967296 }
    ensures { IfOk result (λ ts. ts ≡ terms_of sig.now scope.now 0 sort) }
{
    let mut terms = Items::new(alloc);
    for (place, of) in scope.iter().enumerate() {
        push_variable(&mut terms, place as u32, *of, sort)?;
    }
    for (n, symbol) in sig.symbols.as_slice().iter().enumerate() {
        push_constant(alloc, &mut terms, n as u32, symbol, sort)?;
    }
    Ok(terms)
}

/// The variables and the constants of each sort.
pub fn first_table(
    alloc: Global,
    sig: &Signature,
    scope: &[u32],
) -> Result<Items<Items<Term>>, AllocError>
    requires scope { length scope.now < 4294967296 }
    requires symbols { length sig.now.symbols < 4294967296 }
    requires sorts { length sig.now.sorts < 4294967296 }
    ensures { IfOk result (λ ts. ts ≡ table_of sig.now scope.now 0) }
{
    let mut table = Items::new(alloc);
    let sorts = sig.sorts.len() as u32;
    for sort in 0..sorts {
        table.push(first_terms(alloc, sig, scope, sort)?)?;
    }
    Ok(table)
}

/// The terms of a sort up to a depth more than those of the table.
fn more_terms(
    alloc: Global,
    sig: &Signature,
    depth: u32,
    table: &[Items<Term>],
    sort: u32,
) -> Result<Items<Term>, AllocError>
    requires depth { depth < 4294967295 }
    requires symbols { length sig.now.symbols < 4294967296 }
    ensures { IfOk result (λ ts. ts ≡ next_terms sig.now depth table.now sort) }
{
    let mut terms = copy_terms(alloc, list_of(table, sort))?;
    for (n, symbol) in sig.symbols.as_slice().iter().enumerate() {
        push_function(alloc, &mut terms, n as u32, symbol, sort, table, depth)?;
    }
    Ok(terms)
}

/// The terms of each sort up to a depth more.
pub fn next_table(
    alloc: Global,
    sig: &Signature,
    depth: u32,
    table: &[Items<Term>],
) -> Result<Items<Items<Term>>, AllocError>
    requires depth { depth < 4294967295 }
    requires symbols { length sig.now.symbols < 4294967296 }
    requires sorts { length sig.now.sorts < 4294967296 }
    ensures { IfOk result (λ ts. ts ≡ map (next_terms sig.now depth table.now) (range_with_len 0 (length sig.now.sorts))) }
{
    let mut next = Items::new(alloc);
    let sorts = sig.sorts.len() as u32;
    for sort in 0..sorts {
        next.push(more_terms(alloc, sig, depth, table, sort)?)?;
    }
    Ok(next)
}
