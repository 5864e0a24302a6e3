//! The numbers of ground terms, by arithmetic: a symbol's applications stand in its sort's list in a
//! row, in the order of their arguments.
ghost use Rattle.std.specs.Prelude.{◌≡◌, ℕ, ◌+◌, ◌*◌, true, false, map, length, IfOk, OnOk, IfSome, Some, slice_get};
ghost use Rattle.sw_logic.specs.declared.syntax.SymbolKind.TheVariants.{Constant, Function};
ghost use Rattle.sw_logic.specs.Sorted.{sort_of};
ghost use Rattle.sw_logic.specs.Truth.{place_from, size_of};
ghost use Rattle.sw_logic.specs.Signatures.{is_signature};
ghost use Rattle.sw_logic.specs.Strata.{IsStratified};
ghost use Rattle.sw_universe.specs.GroundTerms.{universe_of};
ghost use Rattle.sw_numbers.specs.Numbers.{number_of, applied_number, HasTerms};
ghost use Rattle.sw_numbers.specs.Firsts.{many, of_kind, IsPlaced, ArePlaced, AreFirsts};

use sqlite_items::{Items, at};
use std::alloc::{AllocError, Global};
use sw_logic::{Signature, Symbol, SymbolKind, Term};
use sw_universe::Universe;

/// How many ground terms each sort has, and the number of each symbol's first application. Both lists
/// are in the signature's order.
#[derive(Drop)]
pub struct Terms<'a> {
    pub signature: &'a Signature,
    pub counts: Items<u32>,
    pub firsts: Items<u32>,
}

/// How many ground terms a sort has.
fn count(list: &Items<Term>) -> Result<u32, AllocError>
    ensures { IfOk result (λ n. n ≡ length list.now) }
{
    match u32::try_from(list.len()) {
        Ok(count) => Ok(count),
        Err(_) => Err(AllocError),
    }
}

/// How many ground terms each sort has.
fn counts(alloc: Global, universe: &Universe) -> Result<Items<u32>, AllocError>
    ensures { IfOk result (λ counts. counts ≡ map length universe.now.lists) }
{
    let mut counts = Items::new(alloc);
    for list in universe.lists.as_slice() {
        counts.push(count(list)?)?;
    }
    Ok(counts)
}

/// How many tuples of ground terms of these sorts there are.
fn product(counts: &[u32], sorts: &[u32]) -> Option<u32>
    ensures { IfSome result (λ n. n ≡ many counts.now sorts.now) }
{
    let [sort, sorts @ ..] = sorts else {
        return Some(1);
    };
    let Some(count) = at(counts, *sort as usize) else {
        return None;
    };
    let Some(rest) = product(counts, sorts) else {
        return None;
    };
    count.checked_mul(rest)
}

fn is_constant(kind: SymbolKind) -> bool
    ensures { result ≡ of_kind Constant kind }
{
    match kind {
        SymbolKind::Relation => false,
        SymbolKind::Constant => true,
        SymbolKind::Function => false,
    }
}

fn is_function(kind: SymbolKind) -> bool
    ensures { result ≡ of_kind Function kind }
{
    match kind {
        SymbolKind::Relation => false,
        SymbolKind::Constant => false,
        SymbolKind::Function => true,
    }
}

fn is_of(kind: SymbolKind, other: SymbolKind) -> bool
    ensures { result ≡ of_kind kind other }
{
    match kind {
        SymbolKind::Relation => false,
        SymbolKind::Constant => is_constant(other),
        SymbolKind::Function => is_function(other),
    }
}

/// Gives a symbol its sort's next number, and moves that behind the symbol's applications.
fn place_symbol(
    counts: &[u32],
    symbol: &Symbol,
    i: usize,
    next: &mut Items<u32>,
    firsts: &mut Items<u32>,
) -> Result<(), AllocError>
    ensures { OnOk result (IsPlaced counts.now symbol.now i next.old firsts.old next.new firsts.new) }
{
    let sort = symbol.gives as usize;
    let Some(first) = at(next.as_slice(), sort) else {
        return Err(AllocError);
    };
    let first = *first;
    let Some(many) = product(counts, symbol.args.as_slice()) else {
        return Err(AllocError);
    };
    let Some(behind) = first.checked_add(many) else {
        return Err(AllocError);
    };
    if sort < next.len() && i < firsts.len() {
        next.set(sort, behind);
        firsts.set(i, first);
        Ok(())
    } else {
        Err(AllocError)
    }
}

/// Places each symbol of a kind.
fn place_symbols(
    symbols: &[Symbol],
    kind: SymbolKind,
    counts: &[u32],
    next: &mut Items<u32>,
    firsts: &mut Items<u32>,
) -> Result<(), AllocError>
    ensures { OnOk result (ArePlaced counts.now kind symbols.now next.old firsts.old next.new firsts.new) }
{
    for (i, symbol) in symbols.iter().enumerate() {
        if is_of(kind, symbol.kind) {
            place_symbol(counts, symbol, i, next, firsts)?;
        }
    }
    Ok(())
}

fn firsts(alloc: Global, signature: &Signature, counts: &[u32]) -> Result<Items<u32>, AllocError>
    ensures { IfOk result (AreFirsts signature.now counts.now) }
{
    let mut next = Items::from_vec(vec![in alloc; 0; counts.len()]?);
    let mut firsts = Items::from_vec(vec![in alloc; 0; signature.symbols.len()]?);
    place_symbols(
        signature.symbols.as_slice(),
        SymbolKind::Constant,
        counts,
        &mut next,
        &mut firsts,
    )?;
    place_symbols(
        signature.symbols.as_slice(),
        SymbolKind::Function,
        counts,
        &mut next,
        &mut firsts,
    )?;
    Ok(firsts)
}

/// One more number of a tuple, whose place was `at` so far.
fn further(sizes: &[u32], sorts: &[u32], i: usize, at: u64, number: u32) -> Option<u64>
    ensures { IfSome result (λ next. (sort : ℕ) × (slice_get sorts.now i ≡ Some sort) × (next ≡ at * size_of sizes.now sort + number)) }
{
    let sort = *sorts.get(i)?;
    let size = *sizes.get(sort as usize)?;
    let start = at.checked_mul(size as u64)?;
    start.checked_add(number as u64)
}

/// The place of a tuple among those of the sorts, in lexicographic order.
pub fn place(sizes: &[u32], sorts: &[u32], numbers: &[u32]) -> Option<u64>
    ensures { IfSome result (λ at. at ≡ place_from sizes.now 0 sorts.now numbers.now) }
{
    let mut at: u64 = 0;
    for (i, number) in numbers.iter().enumerate() {
        let Some(next) = further(sizes, sorts, i, at, *number) else {
            return None;
        };
        at = next;
    }
    Some(at)
}

impl<'a> Terms<'a> {
    /// The numbers of a stratified signature's ground terms, which the universe lists.
    pub fn new(
        alloc: Global,
        signature: &'a Signature,
        universe: &Universe,
    ) -> Result<Terms<'a>, AllocError>
        requires good { is_signature signature.now ≡ true }
        requires strata { IsStratified signature.now }
        requires universe { universe.now.lists ≡ universe_of signature.now }
        ensures { IfOk result (λ terms. HasTerms signature.now universe.now terms.signature.now terms.counts terms.firsts) }
    {
        let counts = counts(alloc, universe)?;
        let firsts = firsts(alloc, signature, counts.as_slice())?;
        Ok(Terms {
            signature,
            counts,
            firsts,
        })
    }

    /// The number of a symbol's application to ground terms.
    pub fn applied(&self, symbol: u32, numbers: &[u32]) -> Option<u32>
        ensures { IfSome result (λ n. n ≡ applied_number self.now.signature.now self.now.counts self.now.firsts symbol numbers.now) }
    {
        let Some(first) = self.firsts.get(symbol as usize) else {
            return None;
        };
        let Some(named) = self.signature.symbols.get(symbol as usize) else {
            return None;
        };
        let Some(place) = place(self.counts.as_slice(), named.args.as_slice(), numbers) else {
            return None;
        };
        match u32::try_from(place) {
            Ok(place) => first.checked_add(place),
            Err(_) => None,
        }
    }

    /// The number of a term with the ground terms of these numbers in the place of its variables.
    #[cycle(numbers)]
    pub fn number(&self, alloc: Global, term: &Term, values: &[u32]) -> Result<u32, AllocError>
        ensures { IfOk result (λ n. n ≡ number_of self.now.signature.now self.now.counts self.now.firsts values.now term.now) }
    {
        match term {
            Term::Variable(v) => match values.get(*v as usize) {
                Some(value) => Ok(*value),
                None => Err(AllocError),
            },
            Term::Apply { symbol, args, .. } => {
                let numbers = self.numbers(alloc, args.as_slice(), values)?;
                match self.applied(*symbol, numbers.as_slice()) {
                    Some(number) => Ok(number),
                    None => Err(AllocError),
                }
            }
        }
    }

    /// The numbers of terms in a row.
    #[cycle(numbers)]
    pub fn numbers(
        &self,
        alloc: Global,
        terms: &[Term],
        values: &[u32],
    ) -> Result<Items<u32>, AllocError>
        ensures { IfOk result (λ ns. ns ≡ map (number_of self.now.signature.now self.now.counts self.now.firsts values.now) terms.now) }
    {
        let mut numbers = Items::new(alloc);
        for term in terms {
            numbers.push(self.number(alloc, term, values)?)?;
        }
        Ok(numbers)
    }

    /// The sort of a term that has one.
    pub fn sort(&self, term: &Term, vars: &[u32]) -> Option<u32>
        ensures { IfSome result (λ sort. (k : ℕ) → sort_of self.now.signature.now false vars.now term.now ≡ Some k → sort ≡ k) }
    {
        match term {
            Term::Variable(v) => match at(vars, *v as usize) {
                Some(sort) => Some(*sort),
                None => None,
            },
            Term::Apply { symbol, .. } => match self.signature.symbols.get(*symbol as usize) {
                Some(named) => Some(named.gives),
                None => None,
            },
        }
    }
}
