//! The pieces of sentences without existential quantifiers.
ghost use Rattle.std.specs.Prelude.{◌≡◌, ◌+◌, ◌++◌, [], IfOk, map, length};
ghost use Rattle.std.specs.List.{flat_map};
ghost use Rattle.sw_logic.specs.declared.syntax.Binder.{Binder};
ghost use Rattle.sw_logic.specs.declared.syntax.Formula.{Formula};
ghost use Rattle.sw_logic.specs.Terms.{variables, with_terms};
ghost use Rattle.sw_skolem.specs.Pieces.{bound, bound_all, pieces_of};
ghost use Rattle.sw_skolem.specs.Piecing.{IsPulled, ArePulled, sorts_of, one_piece};

use crate::existentials::{put_sorts, put_variables};
use crate::replacing::Putting;
use sqlite_items::{Boxed, Items};
use std::alloc::{AllocError, Global};
use sw_logic::{Binder, Formula, Term, copy_formula, copy_terms};
use sw_truth::{Piece, occurs};

/// So many variables, numbered from 0 on.
fn first_variables(alloc: Global, count: u32) -> Result<Items<Term>, AllocError>
    ensures { IfOk result (λ ts. ts ≡ variables 0 count) }
{
    let mut terms = Items::new(alloc);
    put_variables(0, count as usize, &mut terms)?;
    Ok(terms)
}

/// The variable that follows the first ones and those pulled out so far.
fn next_after(first: u32, vars: &Items<u32>) -> Result<u32, AllocError>
    ensures { IfOk result (λ next. next ≡ first + length vars.now) }
{
    let Ok(count) = u32::try_from(vars.len()) else {
        return Err(AllocError);
    };
    let Some(next) = first.checked_add(count) else {
        return Err(AllocError);
    };
    Ok(next)
}

/// Where quantifiers are pulled out: a term for each variable in scope, and how many variables there
/// are before those pulled out.
#[derive(Drop)]
struct Pulling {
    first: u32,
    terms: Items<Term>,
}

impl Pulling {
    /// The scope below a universal quantifier that is pulled out.
    fn inner(
        &self,
        alloc: Global,
        binders: &[Binder],
        vars: &mut Items<u32>,
    ) -> Result<Pulling, AllocError>
        ensures { IfOk result (λ inner. (inner.first ≡ self.now.first) × (inner.terms ≡ self.now.terms ++ variables (self.now.first + length vars.old) (length binders.now)) × (vars.new ≡ vars.old ++ sorts_of binders.now)) }
    {
        let next = next_after(self.first, vars)?;
        let mut terms = copy_terms(alloc, self.terms.as_slice())?;
        put_variables(next, binders.len(), &mut terms)?;
        put_sorts(binders, vars)?;
        Ok(Pulling {
            first: self.first,
            terms,
        })
    }

    /// A formula without the quantifiers inside; the sorts of their variables are put behind those
    /// pulled out so far.
    #[cycle(pulled)]
    fn pulled(
        &self,
        alloc: Global,
        formula: &Formula,
        vars: &mut Items<u32>,
    ) -> Result<Formula, AllocError>
        ensures { IfOk result (λ f. IsPulled formula.now self.now.terms self.now.first vars.old f vars.new) }
    {
        let putting = Putting { terms: &self.terms };
        match formula {
            Formula::True => Ok(Formula::True),
            Formula::False => Ok(Formula::False),
            Formula::Holds { symbol, post, args } => Ok(Formula::Holds {
                symbol: *symbol,
                post: *post,
                args: putting.put_all(alloc, args.as_slice())?,
            }),
            Formula::Equal(a, b) => Ok(Formula::Equal(
                putting.put(alloc, a)?,
                putting.put(alloc, b)?,
            )),
            Formula::Not(part) => {
                let part = self.pulled(alloc, part.get(), vars)?;
                let part = Boxed::new(alloc, part)?;
                Ok(Formula::Not(part))
            }
            Formula::All(parts) => {
                Ok(Formula::All(self.pulled_all(alloc, parts.as_slice(), vars)?))
            }
            Formula::Any(parts) => {
                Ok(Formula::Any(self.pulled_all(alloc, parts.as_slice(), vars)?))
            }
            Formula::Implies(_, _) | Formula::Iff(_, _) | Formula::Exists(_, _) => {
                Ok(Formula::True)
            }
            Formula::ForAll(binders, part) => {
                let inner = self.inner(alloc, binders.as_slice(), vars)?;
                let part = inner.pulled(alloc, part.get(), vars)?;
                Ok(part)
            }
        }
    }

    /// The parts without the quantifiers inside, from left to right.
    #[cycle(pulled)]
    fn pulled_all(
        &self,
        alloc: Global,
        parts: &[Formula],
        vars: &mut Items<u32>,
    ) -> Result<Items<Formula>, AllocError>
        ensures { IfOk result (λ fs. ArePulled parts.now self.now.terms self.now.first vars.old fs vars.new) }
    {
        let mut formulas = Items::new(alloc);
        for part in parts {
            formulas.push(self.pulled(alloc, part, vars)?)?;
        }
        Ok(formulas)
    }
}

/// A formula as one piece, where `count` variables are in scope.
fn whole(alloc: Global, count: u32, formula: &Formula) -> Result<Items<Piece>, AllocError>
    ensures { IfOk result (λ ps. ps ≡ one_piece count formula.now) }
{
    let pulling = Pulling {
        first: count,
        terms: first_variables(alloc, count)?,
    };
    let mut vars = Items::new(alloc);
    let matrix = pulling.pulled(alloc, formula, &mut vars)?;
    let mut pieces = Items::new(alloc);
    pieces.push(Piece { vars, matrix })?;
    Ok(pieces)
}

/// The terms that leave out one variable: those behind it are numbered one less.
fn without_variable(alloc: Global, variable: u32, behind: usize) -> Result<Items<Term>, AllocError>
    ensures { IfOk result (λ ts. ts ≡ variables 0 (variable + 1) ++ variables variable behind) }
{
    let Some(count) = variable.checked_add(1) else {
        return Err(AllocError);
    };
    let mut terms = first_variables(alloc, count)?;
    put_variables(variable, behind, &mut terms)?;
    Ok(terms)
}

/// A piece with a variable put before its own, where it occurs.
fn bound(alloc: Global, variable: u32, binder: &Binder, piece: &Piece) -> Result<Piece, AllocError>
    ensures { IfOk result (λ p. p ≡ bound variable binder.now piece.now) }
{
    let own = Items::from_slice(alloc, piece.vars.as_slice())?;
    if occurs(variable, &piece.matrix) {
        let mut vars = Items::new(alloc);
        vars.push(binder.sort)?;
        vars.append(own)?;
        return Ok(Piece {
            vars,
            matrix: copy_formula(alloc, &piece.matrix)?,
        });
    }
    let terms = without_variable(alloc, variable, piece.vars.len())?;
    let putting = Putting { terms: &terms };
    Ok(Piece {
        vars: own,
        matrix: putting.with(alloc, &piece.matrix)?,
    })
}

fn each_bound(
    alloc: Global,
    variable: u32,
    binder: &Binder,
    pieces: &[Piece],
) -> Result<Items<Piece>, AllocError>
    ensures { IfOk result (λ ps. ps ≡ map (bound variable binder.now) pieces.now) }
{
    let mut all = Items::new(alloc);
    for piece in pieces {
        all.push(bound(alloc, variable, binder, piece)?)?;
    }
    Ok(all)
}

/// Pieces with variables put before their own, where they occur; the first has the number `first`.
fn bound_all(
    alloc: Global,
    first: u32,
    binders: &[Binder],
    pieces: Items<Piece>,
) -> Result<Items<Piece>, AllocError>
    ensures { IfOk result (λ ps. ps ≡ bound_all first binders.now pieces) }
{
    let mut pieces = pieces;
    let mut at = binders.len();
    while at > 0 {
        at -= 1;
        let Ok(place) = u32::try_from(at) else {
            return Err(AllocError);
        };
        let Some(variable) = first.checked_add(place) else {
            return Err(AllocError);
        };
        pieces = each_bound(alloc, variable, &binders[at], pieces.as_slice())?;
    }
    Ok(pieces)
}

fn inner_count(count: u32, binders: usize) -> Result<u32, AllocError>
    ensures { IfOk result (λ n. n ≡ count + binders) }
{
    let Ok(more) = u32::try_from(binders) else {
        return Err(AllocError);
    };
    let Some(sum) = count.checked_add(more) else {
        return Err(AllocError);
    };
    Ok(sum)
}

/// The pieces of a formula without existential quantifiers, where `count` variables are in scope.
#[cycle(pieces)]
pub fn pieces(alloc: Global, count: u32, formula: &Formula) -> Result<Items<Piece>, AllocError>
    ensures { IfOk result (λ ps. ps ≡ pieces_of count formula.now) }
{
    match formula {
        Formula::True => Ok(Items::new(alloc)),
        Formula::All(parts) => all_pieces(alloc, count, parts.as_slice()),
        Formula::ForAll(binders, part) => {
            let inner = inner_count(count, binders.len())?;
            let pieces = pieces(alloc, inner, part.get())?;
            bound_all(alloc, count, binders.as_slice(), pieces)
        }
        _ => whole(alloc, count, formula),
    }
}

/// The pieces of formulas, one after the other.
#[cycle(pieces)]
pub fn all_pieces(
    alloc: Global,
    count: u32,
    formulas: &[Formula],
) -> Result<Items<Piece>, AllocError>
    ensures { IfOk result (λ ps. ps ≡ flat_map (pieces_of count) formulas.now) }
{
    let mut all = Items::new(alloc);
    for formula in formulas {
        let more = pieces(alloc, count, formula)?;
        all.append(more)?;
    }
    Ok(all)
}
