//! Which formulas are well sorted.
ghost use Rattle.std.specs.Prelude.{◌≡◌, ◌||◌, not, slice_get};
ghost use Rattle.std.specs.List.{list_all};
ghost use Rattle.sw_logic.specs.InScope.{sorts_in};
ghost use Rattle.sw_logic.specs.Sorted.{same_sort, sort_of, sorts_of, sorts_match, is_atom, are_sorts, well_sorted};

use crate::scopes::Sorts;
use crate::syntax::{Binder, Formula, Signature, SymbolKind, Term};
use crate::variables::Scope;

/// A signature, and whether post symbols may be read.
#[derive(Clone, Copy)]
struct Sorting<'a> {
    signature: &'a Signature,
    post: bool,
}

impl Sorting<'_> {
    #[cycle(sorts)]
    fn sort_of(&self, term: &Term, scope: &Sorts) -> Option<u32>
        ensures { result ≡ sort_of self.now.signature.now self.now.post (sorts_in scope.now) term.now }
    {
        match term {
            Term::Variable(place) => scope.sort_at(*place),
            Term::Apply { symbol, post, args } => {
                let symbol = self.signature.symbols.get(*symbol as usize)?;
                let is_value = symbol.kind != SymbolKind::Relation;
                if (self.post || !*post)
                    && is_value
                    && self.are_of(symbol.args.as_slice(), args.as_slice(), scope)
                {
                    Some(symbol.gives)
                } else {
                    None
                }
            }
        }
    }

    #[cycle(sorts)]
    fn are_of(&self, sorts: &[u32], args: &[Term], scope: &Sorts) -> bool
        ensures { result ≡ sorts_match sorts.now (sorts_of self.now.signature.now self.now.post (sorts_in scope.now) args.now) }
    {
        for (i, arg) in args.iter().enumerate() {
            let Some(sort) = sorts.get(i) else {
                return false;
            };
            if self.sort_of(arg, scope) != Some(*sort) {
                return false;
            }
        }
        sorts.len() == args.len()
    }

    fn is_atom(&self, symbol: u32, post: bool, args: &[Term], scope: &Sorts) -> bool
        ensures { let sig = self.now.signature.now in result ≡ is_atom (slice_get sig.symbols symbol) (self.now.post || not post) (sorts_of sig self.now.post (sorts_in scope.now) args.now) }
    {
        let Some(symbol) = self.signature.symbols.get(symbol as usize) else {
            return false;
        };
        (self.post || !post)
            && symbol.kind == SymbolKind::Relation
            && self.are_of(symbol.args.as_slice(), args, scope)
    }

    fn are_same_sort(&self, a: &Term, b: &Term, scope: &Sorts) -> bool
        ensures { let sort = sort_of self.now.signature.now self.now.post (sorts_in scope.now) in result ≡ same_sort (sort a.now) (sort b.now) }
    {
        match (self.sort_of(a, scope), self.sort_of(b, scope)) {
            (Some(sort), Some(other)) => sort == other,
            _ => false,
        }
    }

    fn are_sorts(&self, binders: &[Binder]) -> bool
        ensures { result ≡ are_sorts self.now.signature.now binders.now }
    {
        let count = self.signature.sorts.len();
        binders.iter().all(|binder| (binder.sort as usize) < count)
    }

    #[cycle(formulas)]
    fn is_sorted(&self, formula: &Formula, scope: &Sorts) -> bool
        ensures { result ≡ well_sorted self.now.signature.now self.now.post formula.now (sorts_in scope.now) }
    {
        match formula {
            Formula::True | Formula::False => true,
            Formula::Holds { symbol, post, args } => {
                self.is_atom(*symbol, *post, args.as_slice(), scope)
            }
            Formula::Equal(a, b) => self.are_same_sort(a, b, scope),
            Formula::Not(part) => self.is_sorted(part.get(), scope),
            Formula::All(parts) | Formula::Any(parts) => self.all_sorted(parts.as_slice(), scope),
            Formula::Implies(a, b) | Formula::Iff(a, b) => {
                self.is_sorted(a.get(), scope) && self.is_sorted(b.get(), scope)
            }
            Formula::ForAll(binders, part) | Formula::Exists(binders, part) => {
                let binders = binders.as_slice();
                self.are_sorts(binders)
                    && self.is_sorted(part.get(), &Sorts::Bound(&*scope, binders))
            }
        }
    }

    #[cycle(formulas)]
    fn all_sorted(&self, parts: &[Formula], scope: &Sorts) -> bool
        ensures { result ≡ list_all (λ p. well_sorted self.now.signature.now self.now.post p (sorts_in scope.now)) parts.now }
    {
        for part in parts {
            if !self.is_sorted(part, scope) {
                return false;
            }
        }
        true
    }
}

/// Whether each symbol, variable, equation and binder of a formula has its sorts. Post symbols may
/// be read where the scope says so.
pub fn well_sorted(sig: &Signature, formula: &Formula, scope: &Scope) -> bool
    ensures { result ≡ well_sorted sig.now scope.now.post formula.now scope.now.sorts }
{
    let sorting = Sorting {
        signature: sig,
        post: scope.post,
    };
    sorting.is_sorted(formula, &Sorts::Free(scope.sorts.as_slice()))
}
