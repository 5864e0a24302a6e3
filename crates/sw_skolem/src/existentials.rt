//! Existential variables of sentences in negation normal form, replaced by Skolem symbols.
ghost use Rattle.std.specs.Prelude.{◌≡◌, ◌++◌, ◌&&◌, [], IfOk, map, length, slice_index};
ghost use Rattle.sw_logic.specs.declared.syntax.Binder.{Binder};
ghost use Rattle.sw_logic.specs.declared.syntax.Term.TheVariants.{Variable};
ghost use Rattle.sw_logic.specs.Terms.{has, occurs, variables};
ghost use Rattle.sw_skolem.specs.Skolem.{skolem_symbol, skolem_terms};
ghost use Rattle.sw_skolem.specs.Forming.{IsForm, AreForms, IsReplaced, is_read, universals_of, variables_at};

use crate::replacing::Putting;
use sqlite_items::{Boxed, Items};
use std::alloc::{AllocError, Global};
use sw_logic::{Binder, Formula, Name, Symbol, SymbolKind, Term, copy_binders, copy_terms};
use sw_truth::{has, occurs};

/// Skolem forms of sentences, and the symbols made for them.
#[derive(Drop)]
pub struct Formed {
    pub formulas: Items<Formula>,
    pub made: Items<Symbol>,
}

fn sort_at(sorts: &[u32], place: u32) -> u32
    ensures { result ≡ slice_index sorts.now place }
{
    if (place as usize) < sorts.len() {
        sorts[place as usize]
    } else {
        0
    }
}

/// These universal variables, as terms.
fn variables_at(alloc: Global, universals: &[u32]) -> Result<Items<Term>, AllocError>
    ensures { IfOk result (λ ts. ts ≡ variables_at universals.now) }
{
    let mut terms = Items::new(alloc);
    for universal in universals {
        terms.push(Term::Variable(*universal))?;
    }
    Ok(terms)
}

/// Puts variables at the end, numbered from `first` on.
pub fn put_variables(first: u32, count: usize, terms: &mut Items<Term>) -> Result<(), AllocError>
    ensures { IfOk result (λ u. terms.new ≡ terms.old ++ variables first count) }
{
    let Ok(count) = u32::try_from(count) else {
        return Err(AllocError);
    };
    for place in 0..count {
        let Some(number) = first.checked_add(place) else {
            return Err(AllocError);
        };
        terms.push(Term::Variable(number))?;
    }
    Ok(())
}

/// Puts the sorts of binders at the end.
pub fn put_sorts(binders: &[Binder], sorts: &mut Items<u32>) -> Result<(), AllocError>
    ensures { IfOk result (λ u. sorts.new ≡ sorts.old ++ map (λ b. b.sort) binders.now) }
{
    for binder in binders {
        sorts.push(binder.sort)?;
    }
    Ok(())
}

/// Puts applications of new symbols at the end, numbered from `first` on.
fn put_skolem_terms(
    alloc: Global,
    universals: &[u32],
    first: u32,
    count: usize,
    terms: &mut Items<Term>,
) -> Result<(), AllocError>
    ensures { IfOk result (λ u. terms.new ≡ terms.old ++ skolem_terms universals.now first count) }
{
    let Ok(count) = u32::try_from(count) else {
        return Err(AllocError);
    };
    for place in 0..count {
        let Some(symbol) = first.checked_add(place) else {
            return Err(AllocError);
        };
        terms.push(Term::Apply {
            symbol,
            post: false,
            args: variables_at(alloc, universals)?,
        })?;
    }
    Ok(())
}

/// Whether a universal variable occurs in a term whose variable occurs in a formula.
fn reads(universal: u32, term: &Term, variable: u32, formula: &Formula) -> bool
    ensures { result ≡ (has universal term.now && occurs variable formula.now) }
{
    has(universal, term) && occurs(variable, formula)
}

/// What stands in the place of each variable in scope, over universal variables of these sorts, where
/// the query has `base` symbols.
#[derive(Drop)]
struct Outer {
    base: u32,
    terms: Items<Term>,
    sorts: Items<u32>,
}

impl Outer {
    fn copy(&self, alloc: Global) -> Result<Outer, AllocError>
        ensures { IfOk result (λ outer. outer ≡ self.now) }
    {
        Ok(Outer {
            base: self.base,
            terms: copy_terms(alloc, self.terms.as_slice())?,
            sorts: Items::from_slice(alloc, self.sorts.as_slice())?,
        })
    }

    /// Whether a universal variable occurs in a formula, with the terms in the place of its
    /// variables.
    fn is_read(&self, universal: u32, formula: &Formula) -> Result<bool, AllocError>
        ensures { IfOk result (λ yes. yes ≡ is_read self.now.terms formula.now universal) }
    {
        for (variable, term) in self.terms.as_slice().iter().enumerate() {
            let Ok(variable) = u32::try_from(variable) else {
                return Err(AllocError);
            };
            if reads(universal, term, variable, formula) {
                return Ok(true);
            }
        }
        Ok(false)
    }

    /// The universal variables that occur in a formula.
    fn universals(&self, alloc: Global, formula: &Formula) -> Result<Items<u32>, AllocError>
        ensures { IfOk result (λ us. us ≡ universals_of self.now.terms (length self.now.sorts) formula.now) }
    {
        let Ok(count) = u32::try_from(self.sorts.len()) else {
            return Err(AllocError);
        };
        let mut universals = Items::new(alloc);
        for universal in 0..count {
            if self.is_read(universal, formula)? {
                universals.push(universal)?;
            }
        }
        Ok(universals)
    }

    /// A new symbol: a constant, or a function of these universal variables.
    fn symbol(
        &self,
        alloc: Global,
        universals: &[u32],
        binder: &Binder,
    ) -> Result<Symbol, AllocError>
        ensures { IfOk result (λ s. s ≡ skolem_symbol self.now.sorts universals.now binder.now) }
    {
        let mut args = Items::new(alloc);
        for universal in universals {
            args.push(sort_at(self.sorts.as_slice(), *universal))?;
        }
        Ok(Symbol {
            name: Name::new(String::from_str(alloc, "")?),
            kind: if universals.is_empty() {
                SymbolKind::Constant
            } else {
                SymbolKind::Function
            },
            args,
            gives: binder.sort,
            mutable: false,
        })
    }

    fn put_symbols(
        &self,
        alloc: Global,
        universals: &[u32],
        binders: &[Binder],
        made: &mut Items<Symbol>,
    ) -> Result<(), AllocError>
        ensures { IfOk result (λ u. made.new ≡ made.old ++ map (skolem_symbol self.now.sorts universals.now) binders.now) }
    {
        for binder in binders {
            made.push(self.symbol(alloc, universals, binder)?)?;
        }
        Ok(())
    }

    /// The scope below an existential quantifier, whose variables are replaced by new symbols.
    fn existential(
        &self,
        alloc: Global,
        binders: &[Binder],
        part: &Formula,
        made: &mut Items<Symbol>,
    ) -> Result<Outer, AllocError>
        ensures { IfOk result (λ inner. (inner.base ≡ self.now.base) × (inner.sorts ≡ self.now.sorts) × IsReplaced self.now.base binders.now part.now self.now.terms self.now.sorts made.old inner.terms made.new) }
    {
        let universals = self.universals(alloc, part)?;
        let Ok(count) = u32::try_from(made.len()) else {
            return Err(AllocError);
        };
        let Some(first) = self.base.checked_add(count) else {
            return Err(AllocError);
        };
        let mut inner = self.copy(alloc)?;
        put_skolem_terms(
            alloc,
            universals.as_slice(),
            first,
            binders.len(),
            &mut inner.terms,
        )?;
        self.put_symbols(alloc, universals.as_slice(), binders, made)?;
        Ok(inner)
    }

    /// The scope below a universal quantifier.
    fn universal(&self, alloc: Global, binders: &[Binder]) -> Result<Outer, AllocError>
        ensures { IfOk result (λ inner. (inner.base ≡ self.now.base) × (inner.sorts ≡ self.now.sorts ++ map (λ b. b.sort) binders.now) × (inner.terms ≡ self.now.terms ++ variables (length self.now.sorts) (length binders.now))) }
    {
        let Ok(first) = u32::try_from(self.sorts.len()) else {
            return Err(AllocError);
        };
        let mut inner = self.copy(alloc)?;
        put_variables(first, binders.len(), &mut inner.terms)?;
        put_sorts(binders, &mut inner.sorts)?;
        Ok(inner)
    }

    /// The Skolem form of a formula; the symbols made for it are put behind those made so far.
    #[cycle(forms)]
    fn form(
        &self,
        alloc: Global,
        formula: &Formula,
        made: &mut Items<Symbol>,
    ) -> Result<Formula, AllocError>
        ensures { IfOk result (λ f. IsForm self.now.base formula.now self.now.terms self.now.sorts made.old f made.new) }
    {
        let putting = Putting { terms: &self.terms };
        match formula {
            Formula::True => Ok(Formula::True),
            Formula::False => Ok(Formula::False),
            Formula::Holds { symbol, post, args } => Ok(Formula::Holds {
                symbol: *symbol,
                post: *post,
                args: putting.put_all(alloc, args.as_slice())?,
            }),
            Formula::Equal(a, b) => Ok(Formula::Equal(
                putting.put(alloc, a)?,
                putting.put(alloc, b)?,
            )),
            Formula::Not(part) => {
                let part = self.form(alloc, part.get(), made)?;
                let part = Boxed::new(alloc, part)?;
                Ok(Formula::Not(part))
            }
            Formula::All(parts) => Ok(Formula::All(self.forms(alloc, parts.as_slice(), made)?)),
            Formula::Any(parts) => Ok(Formula::Any(self.forms(alloc, parts.as_slice(), made)?)),
            Formula::Implies(_, _) | Formula::Iff(_, _) => Ok(Formula::True),
            Formula::ForAll(binders, part) => {
                let inner = self.universal(alloc, binders.as_slice())?;
                let part = inner.form(alloc, part.get(), made)?;
                let binders = copy_binders(alloc, binders.as_slice())?;
                let part = Boxed::new(alloc, part)?;
                Ok(Formula::ForAll(binders, part))
            }
            Formula::Exists(binders, part) => {
                let inner = self.existential(alloc, binders.as_slice(), part.get(), made)?;
                let form = inner.form(alloc, part.get(), made)?;
                Ok(form)
            }
        }
    }

    /// The Skolem forms of the parts, from left to right.
    #[cycle(forms)]
    fn forms(
        &self,
        alloc: Global,
        parts: &[Formula],
        made: &mut Items<Symbol>,
    ) -> Result<Items<Formula>, AllocError>
        ensures { IfOk result (λ fs. AreForms self.now.base parts.now self.now.terms self.now.sorts made.old fs made.new) }
    {
        let mut forms = Items::new(alloc);
        for part in parts {
            forms.push(self.form(alloc, part, made)?)?;
        }
        Ok(forms)
    }
}

/// The Skolem forms of sentences in negation normal form, where the query has `base` symbols.
pub fn forms_of(alloc: Global, base: usize, sentences: &[Formula]) -> Result<Formed, AllocError>
    ensures { IfOk result (λ formed. AreForms base sentences.now [] [] [] formed.formulas formed.made) }
{
    let Ok(base) = u32::try_from(base) else {
        return Err(AllocError);
    };
    let outer = Outer {
        base,
        terms: Items::new(alloc),
        sorts: Items::new(alloc),
    };
    let mut made = Items::new(alloc);
    let formulas = outer.forms(alloc, sentences, &mut made)?;
    Ok(Formed { formulas, made })
}
