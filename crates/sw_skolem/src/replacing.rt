//! Terms in the place of variables.
ghost use Rattle.std.specs.Prelude.{◌≡◌, IfOk, map, unwrap_or, slice_get};
ghost use Rattle.sw_logic.specs.Terms.{put, with_terms};
ghost use Rattle.sw_logic.specs.declared.syntax.Term.TheVariants.{Variable};

use sqlite_items::{Boxed, Items};
use std::alloc::{AllocError, Global};
use sw_logic::{Formula, Term, copy_binders, copy_term};

/// A term for each variable in scope.
#[derive(Clone, Copy)]
pub struct Putting<'a> {
    pub terms: &'a Items<Term>,
}

impl Putting<'_> {
    fn found(&self, alloc: Global, place: u32) -> Result<Term, AllocError>
        ensures { IfOk result (λ t. t ≡ unwrap_or (slice_get self.now.terms.now place) (Variable place)) }
    {
        match self.terms.get(place as usize) {
            Some(found) => copy_term(alloc, found),
            None => Ok(Term::Variable(place)),
        }
    }

    /// A term with the terms in the place of its variables.
    #[cycle(puts)]
    pub fn put(&self, alloc: Global, term: &Term) -> Result<Term, AllocError>
        ensures { IfOk result (λ t. t ≡ put self.now.terms.now term.now) }
    {
        match term {
            Term::Variable(place) => self.found(alloc, *place),
            Term::Apply { symbol, post, args } => Ok(Term::Apply {
                symbol: *symbol,
                post: *post,
                args: self.put_all(alloc, args.as_slice())?,
            }),
        }
    }

    /// Terms with the terms in the place of their variables.
    #[cycle(puts)]
    pub fn put_all(&self, alloc: Global, args: &[Term]) -> Result<Items<Term>, AllocError>
        ensures { IfOk result (λ ts. ts ≡ map (put self.now.terms.now) args.now) }
    {
        let mut put_args = Items::new(alloc);
        for arg in args {
            put_args.push(self.put(alloc, arg)?)?;
        }
        Ok(put_args)
    }
}

impl Putting<'_> {
    /// A formula with the terms in the place of its variables.
    #[cycle(formulas)]
    pub fn with(&self, alloc: Global, formula: &Formula) -> Result<Formula, AllocError>
        ensures { IfOk result (λ f. f ≡ with_terms self.now.terms.now formula.now) }
    {
        match formula {
            Formula::True => Ok(Formula::True),
            Formula::False => Ok(Formula::False),
            Formula::Holds { symbol, post, args } => Ok(Formula::Holds {
                symbol: *symbol,
                post: *post,
                args: self.put_all(alloc, args.as_slice())?,
            }),
            Formula::Equal(a, b) => Ok(Formula::Equal(self.put(alloc, a)?, self.put(alloc, b)?)),
            Formula::Not(part) => Ok(Formula::Not(self.with_boxed(alloc, part)?)),
            Formula::All(parts) => Ok(Formula::All(self.with_all(alloc, parts.as_slice())?)),
            Formula::Any(parts) => Ok(Formula::Any(self.with_all(alloc, parts.as_slice())?)),
            Formula::Implies(a, b) => {
                Ok(Formula::Implies(self.with_boxed(alloc, a)?, self.with_boxed(alloc, b)?))
            }
            Formula::Iff(a, b) => {
                Ok(Formula::Iff(self.with_boxed(alloc, a)?, self.with_boxed(alloc, b)?))
            }
            Formula::ForAll(binders, part) => Ok(Formula::ForAll(
                copy_binders(alloc, binders.as_slice())?,
                self.with_boxed(alloc, part)?,
            )),
            Formula::Exists(binders, part) => Ok(Formula::Exists(
                copy_binders(alloc, binders.as_slice())?,
                self.with_boxed(alloc, part)?,
            )),
        }
    }

    #[cycle(formulas)]
    fn with_boxed(&self, alloc: Global, part: &Boxed<Formula>) -> Result<Boxed<Formula>, AllocError>
        ensures { IfOk result (λ f. f ≡ with_terms self.now.terms.now part.now) }
    {
        Boxed::new(alloc, self.with(alloc, part.get())?)
    }

    #[cycle(formulas)]
    fn with_all(&self, alloc: Global, parts: &[Formula]) -> Result<Items<Formula>, AllocError>
        ensures { IfOk result (λ fs. fs ≡ map (with_terms self.now.terms.now) parts.now) }
    {
        let mut all = Items::new(alloc);
        for part in parts {
            all.push(self.with(alloc, part)?)?;
        }
        Ok(all)
    }
}
