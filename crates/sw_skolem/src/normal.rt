//! Negation normal form.
ghost use Rattle.std.specs.Prelude.{◌≡◌, ◌∷◌, [], IfOk, not, map};
ghost use Rattle.sw_logic.specs.declared.syntax.Formula.TheVariants.{All, Any};
ghost use Rattle.sw_skolem.specs.Normal.{constant, signed};
ghost use Rattle.sw_skolem.specs.Absorbing.{listed, quantified, plain_nnf_of};

use sqlite_items::{Boxed, Items};
use std::alloc::{AllocError, Global};
use sw_logic::{Binder, Formula, copy_binders, copy_formula};

pub fn constant(value: bool) -> Formula
    ensures { result ≡ constant value }
{
    if value { Formula::True } else { Formula::False }
}

/// An atom or its negation.
fn signed(alloc: Global, positive: bool, atom: &Formula) -> Result<Formula, AllocError>
    ensures { IfOk result (λ f. f ≡ signed positive atom.now) }
{
    let atom = copy_formula(alloc, atom)?;
    if positive {
        Ok(atom)
    } else {
        Ok(Formula::Not(Boxed::new(alloc, atom)?))
    }
}

/// A conjunction or a disjunction.
fn listed(parts: Items<Formula>, all: bool) -> Formula
    ensures { result ≡ listed all parts }
{
    if all {
        Formula::All(parts)
    } else {
        Formula::Any(parts)
    }
}

/// A conjunction or a disjunction of two.
fn joined(alloc: Global, a: Formula, b: Formula, all: bool) -> Result<Formula, AllocError>
    ensures { IfOk result (λ f. f ≡ listed all (a ∷ b ∷ [])) }
{
    let mut parts = Items::new(alloc);
    parts.push(a)?;
    parts.push(b)?;
    Ok(listed(parts, all))
}

/// One of two is true and the other is not.
fn differ(
    alloc: Global,
    not_a: Formula,
    is_a: Formula,
    not_b: Formula,
    is_b: Formula,
) -> Result<Formula, AllocError>
    ensures { IfOk result (λ f. f ≡ Any (All (is_a ∷ not_b ∷ []) ∷ All (is_b ∷ not_a ∷ []) ∷ [])) }
{
    let left = joined(alloc, is_a, not_b, true)?;
    let right = joined(alloc, is_b, not_a, true)?;
    joined(alloc, left, right, false)
}

/// Each of two is true where the other is.
fn agree(
    alloc: Global,
    not_a: Formula,
    is_a: Formula,
    not_b: Formula,
    is_b: Formula,
) -> Result<Formula, AllocError>
    ensures { IfOk result (λ f. f ≡ All (Any (not_a ∷ is_b ∷ []) ∷ Any (not_b ∷ is_a ∷ []) ∷ [])) }
{
    let left = joined(alloc, not_a, is_b, false)?;
    let right = joined(alloc, not_b, is_a, false)?;
    joined(alloc, left, right, true)
}

/// A universal or an existential quantifier.
fn quantified(
    alloc: Global,
    binders: &[Binder],
    part: Formula,
    all: bool,
) -> Result<Formula, AllocError>
    ensures { IfOk result (λ f. f ≡ quantified all binders.now part) }
{
    let binders = copy_binders(alloc, binders)?;
    let part = Boxed::new(alloc, part)?;
    if all {
        Ok(Formula::ForAll(binders, part))
    } else {
        Ok(Formula::Exists(binders, part))
    }
}

/// The negation normal forms of the parts.
#[cycle(normal)]
fn nnf_all(alloc: Global, parts: &[Formula], negate: bool) -> Result<Items<Formula>, AllocError>
    ensures { IfOk result (λ fs. fs ≡ map (λ p. plain_nnf_of p (not negate)) parts.now) }
{
    let mut forms = Items::new(alloc);
    for part in parts {
        forms.push(nnf(alloc, part, negate)?)?;
    }
    Ok(forms)
}

/// The negation normal form of a formula, or of its negation. Only atoms are negated, there are no
/// implications, and `true` and `false` stay where they are.
#[cycle(normal)]
pub fn nnf(alloc: Global, formula: &Formula, negate: bool) -> Result<Formula, AllocError>
    ensures { IfOk result (λ f. f ≡ plain_nnf_of formula.now (not negate)) }
{
    match formula {
        Formula::True => Ok(constant(!negate)),
        Formula::False => Ok(constant(negate)),
        Formula::Holds { .. } | Formula::Equal(_, _) => signed(alloc, !negate, formula),
        Formula::Not(part) => nnf(alloc, part.get(), !negate),
        Formula::All(parts) => Ok(listed(nnf_all(alloc, parts.as_slice(), negate)?, !negate)),
        Formula::Any(parts) => Ok(listed(nnf_all(alloc, parts.as_slice(), negate)?, negate)),
        Formula::Implies(a, b) => {
            let a = nnf(alloc, a.get(), !negate)?;
            let b = nnf(alloc, b.get(), negate)?;
            joined(alloc, a, b, negate)
        }
        Formula::Iff(a, b) => {
            let not_a = nnf(alloc, a.get(), true)?;
            let is_a = nnf(alloc, a.get(), false)?;
            let not_b = nnf(alloc, b.get(), true)?;
            let is_b = nnf(alloc, b.get(), false)?;
            if negate {
                differ(alloc, not_a, is_a, not_b, is_b)
            } else {
                agree(alloc, not_a, is_a, not_b, is_b)
            }
        }
        Formula::ForAll(binders, part) => {
            let part = nnf(alloc, part.get(), negate)?;
            quantified(alloc, binders.as_slice(), part, !negate)
        }
        Formula::Exists(binders, part) => {
            let part = nnf(alloc, part.get(), negate)?;
            quantified(alloc, binders.as_slice(), part, negate)
        }
    }
}
