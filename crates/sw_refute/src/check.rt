//! The check of steps: reverse unit propagation with hints, as in LRAT.
ghost use Rattle.std.specs.Prelude.{◌≡◌, ◌++◌, ◌↔◌, All, IfOk, IsTrue, slice_get, map};
ghost use Rattle.std.specs.Option.{option_copied};
ghost use Rattle.sw_refute.specs.Satisfaction.{negation, IsOver, IsWellFormed};
ghost use Rattle.sw_refute.specs.Propagation.{IsConsistent, Propagates, IsAccepted, AreAccepted, EndsEmpty, clauses_of};
ghost use Rattle.sw_refute.specs.Trail.{IsTrail};
ghost use Rattle.sw_refute.specs.Verdict.{Judges, Implies};

use crate::clauses::{Clause, Cnf, Derived};
use crate::trail::{Status, Trail};
use std::alloc::{AllocError, Global};

/// What the check of a list of steps says.
#[derive(Clone, Copy, Debug, PartialEq, Eq)]
pub enum StepsVerdict {
    /// Every step is accepted; `empty` says that there is a last one, and its clause is empty.
    Accepted { empty: bool },
    /// The first step that is not accepted, by its number from 0.
    Refused { step: u32 },
}

/// The clause of this number: those of the set come first, then those of the earlier steps.
fn numbered<'a>(cnf: &'a Cnf, earlier: &'a [Derived], number: u32) -> Option<&'a Clause>
    ensures { option_copied result ≡ slice_get (cnf.now.clauses ++ clauses_of earlier.now) number }
{
    let at = number as usize;
    match at.checked_sub(cnf.clauses.len()) {
        None => cnf.clauses.get(at),
        Some(at) => earlier.get(at).map(|step| &step.clause),
    }
}

fn is_over(variables: u32, clause: &Clause) -> bool
    ensures { IsTrue result ↔ IsOver variables clause.now }
{
    clause
        .lits
        .as_slice()
        .iter()
        .all(|lit| lit.0 / 2 < variables)
}

/// Whether no two literals are opposite, where their negations are true.
fn is_consistent(trail: &Trail, clause: &Clause) -> bool
    requires trail { IsTrail trail.now }
    requires over { IsOver trail.now.variables clause.now }
    requires negated { trail.now.lits.items ≡ map negation clause.now.lits }
    ensures { IsTrue result ↔ IsConsistent clause.now }
{
    for lit in clause.lits.as_slice() {
        if trail.is_true(*lit) {
            return false;
        }
    }
    true
}

/// Whether the hinted clauses lead from the trail to a conflict, and it comes at the last of them.
fn propagates(
    cnf: &Cnf,
    earlier: &[Derived],
    hints: &[u32],
    trail: &mut Trail,
) -> Result<bool, AllocError>
    requires trail { IsTrail trail.old }
    requires over { All (IsOver trail.old.variables) (cnf.now.clauses ++ clauses_of earlier.now) }
    ensures trail { IfOk result (λ _. IsTrail trail.new) }
    ensures variables { trail.new.variables ≡ trail.old.variables }
    ensures conflict { IfOk result (λ yes. IsTrue yes ↔ Propagates (cnf.now.clauses ++ clauses_of earlier.now) trail.old.lits.items hints.now) }
{
    for (i, hint) in hints.iter().enumerate() {
        let Some(clause) = numbered(cnf, earlier, *hint) else {
            return Ok(false);
        };
        match trail.status(clause) {
            Status::Conflicting => return Ok(i + 1 == hints.len()),
            Status::Unit(lit) => trail.assign(lit)?,
            Status::Neither => return Ok(false),
        }
    }
    Ok(false)
}

/// Whether the step is accepted after the clauses of the set and of the earlier steps.
fn is_accepted(
    cnf: &Cnf,
    earlier: &[Derived],
    step: &Derived,
    trail: &mut Trail,
) -> Result<bool, AllocError>
    requires trail { IsTrail trail.old }
    requires variables { trail.old.variables ≡ cnf.now.variables }
    requires over { All (IsOver cnf.now.variables) (cnf.now.clauses ++ clauses_of earlier.now) }
    ensures trail { IfOk result (λ _. IsTrail trail.new) }
    ensures variables { trail.new.variables ≡ trail.old.variables }
    ensures accepted { IfOk result (λ yes. IsTrue yes ↔ IsAccepted cnf.now.variables (cnf.now.clauses ++ clauses_of earlier.now) step.now) }
{
    if !is_over(cnf.variables, &step.clause) {
        return Ok(false);
    }
    trail.negate_all(step.clause.lits.as_slice())?;
    if !is_consistent(trail, &step.clause) {
        return Ok(false);
    }
    propagates(cnf, earlier, step.hints.as_slice(), trail)
}

fn ends_empty(steps: &[Derived]) -> bool
    ensures { IsTrue result ↔ EndsEmpty steps.now }
{
    match steps {
        [] => false,
        [.., last] => last.clause.lits.is_empty(),
    }
}

/// Checks the steps in order, each against the clauses of the set and of the steps before it, by
/// reverse unit propagation with hints as in LRAT. The first refused step past the 2^32nd has no
/// number, and counts as want of memory.
pub fn check_steps(alloc: Global, cnf: &Cnf, steps: &[Derived]) -> Result<StepsVerdict, AllocError>
    requires { IsWellFormed cnf.now }
    ensures judged { IfOk result (Judges cnf.now steps.now) }
    ensures implied { IfOk result (Implies cnf.now steps.now) }
{
    let mut trail = Trail::new(alloc, cnf.variables)?;
    for (k, step) in steps.iter().enumerate() {
        if !is_accepted(cnf, &steps[..k], step, &mut trail)? {
            let step = u32::try_from(k).map_err(|_| AllocError)?;
            return Ok(StepsVerdict::Refused { step });
        }
    }
    Ok(StepsVerdict::Accepted {
        empty: ends_empty(steps),
    })
}
