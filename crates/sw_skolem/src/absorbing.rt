//! Absorption of `true` and `false` in negation normal form.
ghost use Rattle.std.specs.Prelude.{◌≡◌, ◌<◌, length, IfOk, not, map, if◌then◌else◌};
ghost use Rattle.std.specs.List.{list_any, filter, remove};
ghost use Rattle.sw_skolem.specs.Normal.{stays, is_constant, whole, gathered, universal, existential};
ghost use Rattle.sw_skolem.specs.Absorbing.{absorbed};

use crate::normal::constant;
use sqlite_items::{Boxed, Items};
use std::alloc::{AllocError, Global};
use sw_logic::{Binder, Formula, copy_binders, copy_formula};

fn is_constant(value: bool, formula: &Formula) -> bool
    ensures { result ≡ is_constant value formula.now }
{
    match formula {
        Formula::True => value,
        Formula::False => !value,
        _ => false,
    }
}

/// A conjunction or a disjunction of parts of which none is a constant.
fn whole(mut parts: Items<Formula>, all: bool) -> Formula
    ensures { result ≡ whole all parts }
{
    if parts.len() == 1 {
        return parts.remove(0);
    }
    if parts.is_empty() {
        return constant(all);
    }
    if all {
        Formula::All(parts)
    } else {
        Formula::Any(parts)
    }
}

/// Whether a part is this constant.
fn has_constant(value: bool, parts: &[Formula]) -> bool
    ensures { result ≡ list_any (is_constant value) parts.now }
{
    for part in parts {
        if is_constant(value, part) {
            return true;
        }
    }
    false
}

fn take_out(parts: &mut Items<Formula>, at: usize)
    requires { at < length parts.old }
    ensures { parts.new ≡ remove parts.old at }
{
    let _part = parts.remove(at);
}

/// The parts that are not this constant.
fn without(value: bool, mut parts: Items<Formula>) -> Items<Formula>
    ensures { result ≡ filter (stays value) parts }
{
    let mut at = 0;
    while at < parts.len() {
        if is_constant(value, &parts.as_slice()[at]) {
            take_out(&mut parts, at);
        } else {
            at += 1;
        }
    }
    parts
}

/// A conjunction or a disjunction, with constants absorbed.
fn gather(parts: Items<Formula>, all: bool) -> Formula
    ensures { result ≡ gathered all parts }
{
    if has_constant(!all, parts.as_slice()) {
        return constant(!all);
    }
    whole(without(all, parts), all)
}

/// A quantified formula; a constant stands for itself.
fn quantified(
    alloc: Global,
    binders: &[Binder],
    part: Formula,
    all: bool,
) -> Result<Formula, AllocError>
    ensures { IfOk result (λ f. f ≡ (if all then universal binders.now part else existential binders.now part)) }
{
    if is_constant(true, &part) || is_constant(false, &part) {
        return Ok(part);
    }
    let binders = copy_binders(alloc, binders)?;
    let part = Boxed::new(alloc, part)?;
    if all {
        Ok(Formula::ForAll(binders, part))
    } else {
        Ok(Formula::Exists(binders, part))
    }
}

/// A formula in negation normal form with `true` and `false` absorbed: they stand only as the whole.
#[cycle(absorbs)]
pub fn absorb(alloc: Global, formula: &Formula) -> Result<Formula, AllocError>
    ensures { IfOk result (λ f. f ≡ absorbed formula.now) }
{
    match formula {
        Formula::True => Ok(Formula::True),
        Formula::False => Ok(Formula::False),
        Formula::Holds { .. } | Formula::Equal(_, _) => copy_formula(alloc, formula),
        Formula::Not(part) => Ok(Formula::Not(absorb_boxed(alloc, part)?)),
        Formula::All(parts) => Ok(gather(absorb_all(alloc, parts.as_slice())?, true)),
        Formula::Any(parts) => Ok(gather(absorb_all(alloc, parts.as_slice())?, false)),
        Formula::Implies(a, b) => {
            Ok(Formula::Implies(absorb_boxed(alloc, a)?, absorb_boxed(alloc, b)?))
        }
        Formula::Iff(a, b) => Ok(Formula::Iff(absorb_boxed(alloc, a)?, absorb_boxed(alloc, b)?)),
        Formula::ForAll(binders, part) => {
            let part = absorb(alloc, part.get())?;
            quantified(alloc, binders.as_slice(), part, true)
        }
        Formula::Exists(binders, part) => {
            let part = absorb(alloc, part.get())?;
            quantified(alloc, binders.as_slice(), part, false)
        }
    }
}

#[cycle(absorbs)]
fn absorb_boxed(alloc: Global, part: &Boxed<Formula>) -> Result<Boxed<Formula>, AllocError>
    ensures { IfOk result (λ f. f ≡ absorbed part.now) }
{
    Boxed::new(alloc, absorb(alloc, part.get())?)
}

#[cycle(absorbs)]
fn absorb_all(alloc: Global, parts: &[Formula]) -> Result<Items<Formula>, AllocError>
    ensures { IfOk result (λ fs. fs ≡ map absorbed parts.now) }
{
    let mut all = Items::new(alloc);
    for part in parts {
        all.push(absorb(alloc, part)?)?;
    }
    Ok(all)
}
