//! The trail: the literals that are true, in the order of assignment, and why each is.
ghost use Rattle.std.specs.Prelude.{◌≡◌, ◌+◌, ◌-◌, ◌*◌, ◌<◌, ◌≤◌, ◌↔◌, [], ◌∷◌, ◌++◌, length, take, IfOk, IsTrue, MatchOption, vec_capacity, Contains};

use crate::literals::negation;
use std::alloc::{AllocError, Global};
use sw_refute::Lit;

/// A true literal, with the number of the clause that forced it. A decision has none.
#[derive(Clone, Copy, PartialEq, Eq)]
pub struct Entry {
    pub lit: Lit,
    pub reason: Option<u32>,
}

/// The entries in the order of assignment, and the truth of each literal by its number.
#[derive(Drop)]
pub struct Trail {
    pub entries: Vec<Entry>,
    pub values: Vec<bool>,
}

impl Trail {
    ghost use Rattle.sw_refute.specs.Propagation.{IsFalse};
    ghost use Rattle.sw_sat.specs.Trail.{literals, Agrees, IsPlain, AreForcedFrom, IsLastDecision};

    /// Nothing is assigned, and there is room for every variable.
    pub fn new(alloc: Global, variables: u32) -> Result<Trail, AllocError>
        ensures empty { IfOk result (λ trail. trail.entries.items ≡ []) }
        ensures agrees { IfOk result Agrees }
        ensures size { IfOk result (λ trail. length trail.values.items ≡ 2 * variables) }
        ensures room { IfOk result (λ trail. variables ≤ vec_capacity trail.entries) }
    {
        let entries = Vec::with_capacity(alloc, variables as usize)?;
        let values = vec![in alloc; false; 2 * variables as usize]?;
        Ok(Trail { entries, values })
    }

    pub fn is_true(&self, lit: Lit) -> bool
        requires within { lit.0 < length self.now.values.items }
        requires agrees { Agrees self.now }
        ensures { IsTrue result ↔ Contains (literals self.now.entries.items) lit }
    {
        self.values[lit.0 as usize]
    }

    /// Makes the literal true.
    pub fn assign(&mut self, lit: Lit, reason: Option<u32>)
        requires within { lit.0 < length self.old.values.items }
        requires agrees { Agrees self.old }
        requires room { length self.old.entries.items < vec_capacity self.old.entries }
        ensures entries { self.new.entries.items ≡ self.old.entries.items ++ record { lit = lit; reason = reason } ∷ [] }
        ensures agrees { Agrees self.new }
        ensures size { length self.new.values.items ≡ length self.old.values.items }
        ensures room { vec_capacity self.new.entries ≡ vec_capacity self.old.entries }
    {
        self.entries.push_reserved(Entry { lit, reason });
        self.values[lit.0 as usize] = true;
    }

    /// Takes the last entry back.
    fn unassign(&mut self)
        requires plain { IsPlain self.old }
        requires agrees { Agrees self.old }
        ensures entries { self.new.entries.items ≡ take (length self.old.entries.items - 1) self.old.entries.items }
        ensures plain { IsPlain self.new }
        ensures agrees { Agrees self.new }
        ensures size { length self.new.values.items ≡ length self.old.values.items }
        ensures room { vec_capacity self.new.entries ≡ vec_capacity self.old.entries }
    {
        if let Some(last) = self.entries.pop() {
            self.values[last.lit.0 as usize] = false;
        }
    }

    /// Takes the entries from this position on back.
    pub fn backjump(&mut self, keep: usize)
        requires plain { IsPlain self.old }
        requires agrees { Agrees self.old }
        ensures entries { self.new.entries.items ≡ take keep self.old.entries.items }
        ensures agrees { Agrees self.new }
        ensures size { length self.new.values.items ≡ length self.old.values.items }
        ensures room { vec_capacity self.new.entries ≡ vec_capacity self.old.entries }
    {
        while self.entries.len() > keep {
            self.unassign();
        }
    }

    /// The position of the last decision.
    pub fn last_decision(&self) -> Option<usize>
        ensures { MatchOption result (AreForcedFrom self.now.entries.items 0) (IsLastDecision self.now.entries.items) }
    {
        let mut at = self.entries.len();
        while at > 0 {
            at -= 1;
            if self.entries[at].reason.is_none() {
                return Some(at);
            }
        }
        None
    }
}
