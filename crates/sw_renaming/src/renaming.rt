//! The formulas of a step, with the symbols of its query in the place of their own.
ghost use Rattle.std.specs.Prelude.{◌≡◌, ◌+◌, length, map, IfOk};
ghost use Rattle.sw_renaming.specs.Renamed.{copy_in, itself, copy_of, constant_of, symbol_at, variable_at, renamed_term, renamed};

use sqlite_items::{Boxed, Items};
use std::alloc::{AllocError, Global};
use sw_logic::{Formula, Term, copy_binders};
use sw_meaning::{Protocol, Transition};

/// Where a formula is read: in the state before the step, across it, or in the state after it.
#[derive(Clone, Copy)]
pub enum Moment {
    Before,
    Across,
    After,
}

/// The sum. Where it is no number of a symbol, that counts as want of memory.
pub fn number(a: usize, b: usize) -> Result<u32, AllocError>
    ensures { IfOk result (λ n. n ≡ a + b) }
{
    let Some(sum) = a.checked_add(b) else {
        return Err(AllocError);
    };
    match u32::try_from(sum) {
        Ok(sum) => Ok(sum),
        Err(_) => Err(AllocError),
    }
}

/// The copy of a symbol, where copies of these symbols begin at a number.
fn copy_in(listed: &[u32], at: usize, symbol: u32, itself: u32) -> Result<u32, AllocError>
    ensures { IfOk result (λ n. n ≡ copy_in listed.now at symbol itself) }
{
    let [first, rest @ ..] = listed else {
        return Ok(itself);
    };
    if *first == symbol {
        return number(at, 0);
    }
    let Some(next) = at.checked_add(1) else {
        return Err(AllocError);
    };
    copy_in(rest, next, symbol, itself)
}

/// The step of a transition, whose formulas are to be renamed.
#[derive(Clone, Copy)]
pub struct Renaming<'a> {
    pub protocol: &'a Protocol,
    pub transition: &'a Transition,
}

impl Renaming<'_> {
    /// A symbol is itself; a number that is none is moved past the symbols of the query.
    fn itself(&self, symbol: u32) -> Result<u32, AllocError>
        ensures { IfOk result (λ n. n ≡ itself self.now.protocol.now self.now.transition.now symbol) }
    {
        if (symbol as usize) < self.protocol.signature.symbols.len() {
            return Ok(symbol);
        }
        let added = number(self.transition.modifies.len(), self.transition.params.len())?;
        number(symbol as usize, added as usize)
    }

    /// What stands for a symbol after the step.
    pub fn copy_of(&self, symbol: u32) -> Result<u32, AllocError>
        ensures { IfOk result (λ n. n ≡ copy_of self.now.protocol.now self.now.transition.now symbol) }
    {
        let itself = self.itself(symbol)?;
        copy_in(
            self.transition.modifies.as_slice(),
            self.protocol.signature.symbols.len(),
            symbol,
            itself,
        )
    }

    /// The constant of a parameter.
    pub fn constant_of(&self, parameter: usize) -> Result<u32, AllocError>
        ensures { IfOk result (λ n. n ≡ constant_of self.now.protocol.now self.now.transition.now parameter) }
    {
        let symbols = self.protocol.signature.symbols.len();
        let copies = number(symbols, self.transition.modifies.len())?;
        number(copies as usize, parameter)
    }

    fn symbol_at(&self, moment: Moment, symbol: u32, post: bool) -> Result<u32, AllocError>
        ensures { IfOk result (λ n. n ≡ symbol_at self.now.protocol.now self.now.transition.now moment symbol post) }
    {
        match moment {
            Moment::Before => self.itself(symbol),
            Moment::After => self.copy_of(symbol),
            Moment::Across => {
                if post {
                    self.copy_of(symbol)
                } else {
                    self.itself(symbol)
                }
            }
        }
    }

    fn variable_at(&self, alloc: Global, moment: Moment, variable: u32) -> Result<Term, AllocError>
        ensures { IfOk result (λ t. t ≡ variable_at self.now.protocol.now self.now.transition.now moment variable) }
    {
        let params = self.transition.params.len();
        match moment {
            Moment::Before | Moment::After => Ok(Term::Variable(variable)),
            Moment::Across => {
                if (variable as usize) < params {
                    let symbol = self.constant_of(variable as usize)?;
                    Ok(Term::Apply {
                        symbol,
                        post: false,
                        args: Items::new(alloc),
                    })
                } else {
                    Ok(Term::Variable((variable as usize - params) as u32))
                }
            }
        }
    }

    #[cycle(terms)]
    fn term(&self, alloc: Global, moment: Moment, term: &Term) -> Result<Term, AllocError>
        ensures { IfOk result (λ t. t ≡ renamed_term self.now.protocol.now self.now.transition.now moment term.now) }
    {
        match term {
            Term::Variable(variable) => self.variable_at(alloc, moment, *variable),
            Term::Apply { symbol, post, args } => Ok(Term::Apply {
                symbol: self.symbol_at(moment, *symbol, *post)?,
                post: false,
                args: self.terms(alloc, moment, args.as_slice())?,
            }),
        }
    }

    #[cycle(terms)]
    fn terms(
        &self,
        alloc: Global,
        moment: Moment,
        terms: &[Term],
    ) -> Result<Items<Term>, AllocError>
        ensures { IfOk result (λ ts. ts ≡ map (renamed_term self.now.protocol.now self.now.transition.now moment) terms.now) }
    {
        let mut all = Items::new(alloc);
        for term in terms {
            all.push(self.term(alloc, moment, term)?)?;
        }
        Ok(all)
    }

    /// The formula as the query reads it.
    #[cycle(formulas)]
    pub fn formula(
        &self,
        alloc: Global,
        moment: Moment,
        formula: &Formula,
    ) -> Result<Formula, AllocError>
        ensures { IfOk result (λ f. f ≡ renamed self.now.protocol.now self.now.transition.now moment formula.now) }
    {
        match formula {
            Formula::True => Ok(Formula::True),
            Formula::False => Ok(Formula::False),
            Formula::Holds { symbol, post, args } => Ok(Formula::Holds {
                symbol: self.symbol_at(moment, *symbol, *post)?,
                post: false,
                args: self.terms(alloc, moment, args.as_slice())?,
            }),
            Formula::Equal(a, b) => Ok(Formula::Equal(
                self.term(alloc, moment, a)?,
                self.term(alloc, moment, b)?,
            )),
            Formula::Not(part) => Ok(Formula::Not(self.part(alloc, moment, part)?)),
            Formula::All(parts) => Ok(Formula::All(self.formulas(
                alloc,
                moment,
                parts.as_slice(),
            )?)),
            Formula::Any(parts) => Ok(Formula::Any(self.formulas(
                alloc,
                moment,
                parts.as_slice(),
            )?)),
            Formula::Implies(a, b) => Ok(Formula::Implies(
                self.part(alloc, moment, a)?,
                self.part(alloc, moment, b)?,
            )),
            Formula::Iff(a, b) => Ok(Formula::Iff(
                self.part(alloc, moment, a)?,
                self.part(alloc, moment, b)?,
            )),
            Formula::ForAll(binders, part) => Ok(Formula::ForAll(
                copy_binders(alloc, binders.as_slice())?,
                self.part(alloc, moment, part)?,
            )),
            Formula::Exists(binders, part) => Ok(Formula::Exists(
                copy_binders(alloc, binders.as_slice())?,
                self.part(alloc, moment, part)?,
            )),
        }
    }

    #[cycle(formulas)]
    fn part(
        &self,
        alloc: Global,
        moment: Moment,
        part: &Boxed<Formula>,
    ) -> Result<Boxed<Formula>, AllocError>
        ensures { IfOk result (λ f. f ≡ renamed self.now.protocol.now self.now.transition.now moment part.now) }
    {
        Boxed::new(alloc, self.formula(alloc, moment, part.get())?)
    }

    /// The formulas as the query reads them, in their order.
    #[cycle(formulas)]
    pub fn formulas(
        &self,
        alloc: Global,
        moment: Moment,
        formulas: &[Formula],
    ) -> Result<Items<Formula>, AllocError>
        ensures { IfOk result (λ fs. fs ≡ map (renamed self.now.protocol.now self.now.transition.now moment) formulas.now) }
    {
        let mut all = Items::new(alloc);
        for formula in formulas {
            all.push(self.formula(alloc, moment, formula)?)?;
        }
        Ok(all)
    }
}
