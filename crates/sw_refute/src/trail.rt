//! The literals that are true in one step, as unit propagation reads them and adds to them.
ghost use Rattle.std.specs.Prelude.{◌≡◌, ◌++◌, ◌∷◌, [], ◌<◌, map, IfOk, slice_index_or, false};
ghost use Rattle.sw_refute.specs.Satisfaction.{negation, variable, IsOver};
ghost use Rattle.sw_refute.specs.Trail.{IsTrail, IsStatus, Extends, AreOver};

use crate::clauses::{Clause, Lit};
use std::alloc::{AllocError, Global};

/// The literals that are true, in the order in which they became so, and a table of them by number,
/// with two entries a variable. The table is cleared along the list.
#[derive(Drop)]
pub struct Trail {
    pub variables: u32,
    pub truth: Vec<bool>,
    pub lits: Vec<Lit>,
}

/// What a clause is where the literals of a trail are true.
#[derive(Clone, Copy, PartialEq, Eq)]
pub enum Status {
    /// Every literal is false.
    Conflicting,
    /// This literal is unassigned, and every other one is false.
    Unit(Lit),
    /// Neither of these.
    Neither,
}

/// The literal of the same variable with the other sign.
pub fn negation(lit: Lit) -> Lit
    ensures { result ≡ negation lit }
{
    if lit.0 % 2 == 0 {
        Lit(lit.0 + 1)
    } else {
        Lit(lit.0 - 1)
    }
}

impl Trail {
    /// No literal is true.
    pub fn new(alloc: Global, variables: u32) -> Result<Trail, AllocError>
        ensures trail { IfOk result IsTrail }
        ensures variables { IfOk result (λ trail. trail.variables ≡ variables) }
    {
        Ok(Trail {
            variables,
            truth: vec![in alloc; false; 2 * variables as usize]?,
            lits: Vec::new(alloc),
        })
    }

    pub fn is_true(&self, lit: Lit) -> bool
        requires trail { IsTrail self.now }
        requires over { variable lit < self.now.variables }
        ensures { result ≡ slice_index_or self.now.truth.items lit.0 false }
    {
        self.truth[lit.0 as usize]
    }

    /// Makes the literal true.
    pub fn assign(&mut self, lit: Lit) -> Result<(), AllocError>
        requires trail { IsTrail self.old }
        requires over { variable lit < self.old.variables }
        ensures trail { IfOk result (λ _. IsTrail self.new) }
        ensures variables { self.new.variables ≡ self.old.variables }
        ensures lits { IfOk result (λ _. self.new.lits.items ≡ self.old.lits.items ++ lit ∷ []) }
    {
        self.lits.push(lit)?;
        self.truth[lit.0 as usize] = true;
        Ok(())
    }

    fn clear(&mut self)
        requires { IsTrail self.old }
        ensures trail { IsTrail self.new }
        ensures variables { self.new.variables ≡ self.old.variables }
        ensures lits { self.new.lits.items ≡ [] }
    {
        while let Some(lit) = self.lits.pop() {
            self.truth[lit.0 as usize] = false;
        }
    }

    /// Makes the negations of the literals true, and no others.
    pub fn negate_all(&mut self, lits: &[Lit]) -> Result<(), AllocError>
        requires trail { IsTrail self.old }
        requires over { AreOver self.old.variables lits.now }
        ensures trail { IfOk result (λ _. IsTrail self.new) }
        ensures variables { self.new.variables ≡ self.old.variables }
        ensures lits { IfOk result (λ _. self.new.lits.items ≡ map negation lits.now) }
    {
        self.clear();
        for lit in lits {
            self.assign(negation(*lit))?;
        }
        Ok(())
    }

    /// The status with one more literal.
    fn with_literal(&self, status: Status, lit: Lit) -> Status
        requires trail { IsTrail self.now }
        requires over { variable lit < self.now.variables }
        ensures { Extends self.now.lits.items status lit result }
    {
        if self.is_true(negation(lit)) {
            return status;
        }
        if self.is_true(lit) {
            return Status::Neither;
        }
        match status {
            Status::Conflicting => Status::Unit(lit),
            Status::Unit(other) => {
                if other == lit {
                    status
                } else {
                    Status::Neither
                }
            }
            Status::Neither => Status::Neither,
        }
    }

    /// What the clause is where these literals are true.
    pub fn status(&self, clause: &Clause) -> Status
        requires trail { IsTrail self.now }
        requires over { IsOver self.now.variables clause.now }
        ensures { IsStatus self.now.lits.items clause.now result }
    {
        let mut status = Status::Conflicting;
        for lit in clause.lits.as_slice() {
            status = self.with_literal(status, *lit);
        }
        status
    }
}
