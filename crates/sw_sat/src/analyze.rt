//! The analysis of a conflict, up to the first unique implication point.
ghost use Rattle.std.specs.Prelude.{◌≡◌, ◌+◌, ◌*◌, ◌^◌, ◌<◌, ◌≤◌, ◌⊎◌, [], ◌∷◌, ◌++◌, length, take, slice_get, slice_index_or, true, false, reverse, All, IfOk, OnOk, MatchBool, Contains};
ghost use Rattle.sw_refute.specs.Satisfaction.{negation, IsOver};
ghost use Rattle.sw_refute.specs.Propagation.{IsAccepted};

use crate::literals::negation;
use crate::propagate::clause_at;
use crate::trail::{Entry, Trail};
use sqlite_items::Items;
use std::alloc::{AllocError, Global};
use sw_refute::{Clause, Cnf, Derived, Lit};

/// What is learnt from a conflict: a step, the literal of its clause that becomes true, and how much
/// of the trail is kept.
#[derive(Drop)]
pub struct Learnt {
    pub step: Derived,
    pub asserting: Lit,
    pub keep: usize,
}

/// Which literals' negations stand in the clauses used so far, by the literals' numbers, and the numbers
/// of these clauses: the one that conflicted, then reasons, the latest assigned first.
#[derive(Drop)]
pub struct Analysis {
    pub seen: Vec<bool>,
    pub hints: Vec<u32>,
}

impl Analysis {
    ghost use Rattle.sw_sat.specs.Trail.{all_clauses, literals, IsTrail, AreForcedFrom, IsDecision, IsLastDecision, IsConflict};
    ghost use Rattle.sw_sat.specs.Analysis.{IsSeen, KeepsSeen, IsSeenAt, IsSeenBetween, NoneSeenBetween, IsUnique, Leads, IsCut, NegatesSeen};

    fn new(alloc: Global, variables: u32) -> Result<Analysis, AllocError>
        ensures size { IfOk result (λ analysis. length analysis.seen.items ≡ 2 * variables) }
        ensures hints { IfOk result (λ analysis. analysis.hints.items ≡ []) }
    {
        let seen = vec![in alloc; false; 2 * variables as usize]?;
        let hints = Vec::new(alloc);
        Ok(Analysis { seen, hints })
    }

    fn has_seen(&self, lit: Lit) -> bool
        requires { lit.0 < length self.now.seen.items }
        ensures { result ≡ slice_index_or self.now.seen.items lit.0 false }
    {
        self.seen[lit.0 as usize]
    }

    /// Marks the negations of the clause's literals.
    fn mark(&mut self, clause: &Clause)
        requires { All (λ l. (negation l).0 < length self.old.seen.items) clause.now.lits }
        ensures size { length self.new.seen.items ≡ length self.old.seen.items }
        ensures hints { self.new.hints.items ≡ self.old.hints.items }
        ensures keeps { KeepsSeen self.old.seen.items self.new.seen.items }
        ensures marks { All (λ l. IsSeen self.new.seen.items (negation l)) clause.now.lits }
    {
        for lit in clause.lits.as_slice() {
            let number = negation(*lit).0 as usize;
            self.seen[number] = true;
        }
    }

    /// Begins with the clause that conflicts.
    fn begin(
        &mut self,
        cnf: &Cnf,
        steps: &[Derived],
        trail: &Trail,
        conflict: u32,
    ) -> Result<(), AllocError>
        requires over { All (IsOver cnf.now.variables) (all_clauses cnf.now steps.now) }
        requires size { length self.old.seen.items ≡ 2 * cnf.now.variables }
        requires hints { self.old.hints.items ≡ [] }
        requires conflict { IsConflict (all_clauses cnf.now steps.now) (literals trail.now.entries.items) conflict }
        ensures size { length self.new.seen.items ≡ length self.old.seen.items }
        ensures leads { OnOk result (Leads (all_clauses cnf.now steps.now) trail.now.entries.items self.new.seen.items self.new.hints.items (length trail.now.entries.items)) }
        ensures marks { (c : Clause) → slice_get (all_clauses cnf.now steps.now) conflict ≡ Some c → All (λ l. IsSeen self.new.seen.items (negation l)) c.lits }
    {
        self.mark(clause_at(cnf, steps, conflict as usize));
        self.hints.push(conflict)?;
        Ok(())
    }

    /// Uses the reason of the literal at this position, if it was seen.
    fn resolve(
        &mut self,
        cnf: &Cnf,
        steps: &[Derived],
        trail: &Trail,
        at: usize,
    ) -> Result<(), AllocError>
        requires over { All (IsOver cnf.now.variables) (all_clauses cnf.now steps.now) }
        requires size { length self.old.seen.items ≡ 2 * cnf.now.variables }
        requires numbered { length (all_clauses cnf.now steps.now) ≤ 2 ^ 32 }
        requires trail { IsTrail cnf.now.variables (all_clauses cnf.now steps.now) trail.now.entries.items }
        requires within { at < length trail.now.entries.items }
        requires forced { IsDecision trail.now.entries.items at → ⊥ }
        requires leads { Leads (all_clauses cnf.now steps.now) trail.now.entries.items self.old.seen.items self.old.hints.items (at + 1) }
        ensures size { length self.new.seen.items ≡ length self.old.seen.items }
        ensures keeps { KeepsSeen self.old.seen.items self.new.seen.items }
        ensures leads { OnOk result (Leads (all_clauses cnf.now steps.now) trail.now.entries.items self.new.seen.items self.new.hints.items at) }
    {
        let entry = trail.entries[at];
        if !self.has_seen(entry.lit) {
            return Ok(());
        }
        if let Some(reason) = entry.reason {
            self.mark(clause_at(cnf, steps, reason as usize));
            self.hints.push(reason)?;
        }
        Ok(())
    }

    /// Whether a literal from the first position up to the second was seen.
    fn has_seen_between(&self, trail: &Trail, from: usize, to: usize) -> bool
        requires within { to ≤ length trail.now.entries.items }
        requires size { All (λ e. e.lit.0 < length self.now.seen.items) trail.now.entries.items }
        ensures { MatchBool result (IsSeenBetween self.now.seen.items trail.now.entries.items from to) (NoneSeenBetween self.now.seen.items trail.now.entries.items from to) }
    {
        let mut at = to;
        while at > from {
            at -= 1;
            if self.has_seen(trail.entries[at].lit) {
                return true;
            }
        }
        false
    }

    /// Whether the literal at this position was seen, and none from the start up to it.
    fn is_unique(&self, trail: &Trail, start: usize, at: usize) -> bool
        requires within { at < length trail.now.entries.items }
        requires size { All (λ e. e.lit.0 < length self.now.seen.items) trail.now.entries.items }
        requires some { IsSeenBetween self.now.seen.items trail.now.entries.items start (at + 1) }
        ensures { MatchBool result (IsUnique self.now.seen.items trail.now.entries.items start at) (IsSeenBetween self.now.seen.items trail.now.entries.items start at) }
    {
        self.has_seen(trail.entries[at].lit) && !self.has_seen_between(trail, start, at)
    }

    /// Walks back from the end of the trail to the first unique implication point of the level that
    /// begins at this position, and gives its position.
    fn first_unique_point(
        &mut self,
        cnf: &Cnf,
        steps: &[Derived],
        trail: &Trail,
        start: usize,
    ) -> Result<usize, AllocError>
        requires over { All (IsOver cnf.now.variables) (all_clauses cnf.now steps.now) }
        requires size { length self.old.seen.items ≡ 2 * cnf.now.variables }
        requires numbered { length (all_clauses cnf.now steps.now) ≤ 2 ^ 32 }
        requires trail { IsTrail cnf.now.variables (all_clauses cnf.now steps.now) trail.now.entries.items }
        requires last { IsLastDecision trail.now.entries.items start }
        requires some { IsSeenBetween self.old.seen.items trail.now.entries.items start (length trail.now.entries.items) }
        requires leads { Leads (all_clauses cnf.now steps.now) trail.now.entries.items self.old.seen.items self.old.hints.items (length trail.now.entries.items) }
        ensures size { length self.new.seen.items ≡ length self.old.seen.items }
        ensures unique { IfOk result (IsUnique self.new.seen.items trail.now.entries.items start) }
        ensures above { IfOk result (λ at. start ≤ at) }
        ensures below { IfOk result (λ at. at < length trail.now.entries.items) }
        ensures leads { IfOk result (λ at. Leads (all_clauses cnf.now steps.now) trail.now.entries.items self.new.seen.items self.new.hints.items (at + 1)) }
    {
        let mut at = trail.entries.len() - 1;
        while !self.is_unique(trail, start, at) {
            self.resolve(cnf, steps, trail, at)?;
            at -= 1;
        }
        Ok(at)
    }

    /// Walks back through the whole trail.
    fn resolve_all(&mut self, cnf: &Cnf, steps: &[Derived], trail: &Trail) -> Result<(), AllocError>
        requires over { All (IsOver cnf.now.variables) (all_clauses cnf.now steps.now) }
        requires size { length self.old.seen.items ≡ 2 * cnf.now.variables }
        requires numbered { length (all_clauses cnf.now steps.now) ≤ 2 ^ 32 }
        requires trail { IsTrail cnf.now.variables (all_clauses cnf.now steps.now) trail.now.entries.items }
        requires forced { AreForcedFrom trail.now.entries.items 0 }
        requires leads { Leads (all_clauses cnf.now steps.now) trail.now.entries.items self.old.seen.items self.old.hints.items (length trail.now.entries.items) }
        ensures { OnOk result (Leads (all_clauses cnf.now steps.now) trail.now.entries.items self.new.seen.items self.new.hints.items 0) }
    {
        let mut at = trail.entries.len();
        while at > 0 {
            at -= 1;
            self.resolve(cnf, steps, trail, at)?;
        }
        Ok(())
    }

    /// The end of the highest level below this decision that has a literal that was seen, or else of the
    /// lowest level.
    fn cut_at(&self, trail: &Trail, start: usize) -> usize
        requires decision { IsDecision trail.now.entries.items start }
        requires size { All (λ e. e.lit.0 < length self.now.seen.items) trail.now.entries.items }
        ensures { IsCut self.now.seen.items trail.now.entries.items start result }
    {
        let mut keep = start;
        let mut at = start;
        while at > 0 {
            at -= 1;
            let entry = trail.entries[at];
            if self.has_seen(entry.lit) {
                return keep;
            }
            if entry.reason.is_none() {
                keep = at;
            }
        }
        keep
    }

    /// The clause of the negations of the literals that were seen among these entries.
    fn clause(&self, alloc: Global, entries: &[Entry]) -> Result<Clause, AllocError>
        requires { All (λ e. e.lit.0 < length self.now.seen.items) entries.now }
        ensures { IfOk result (NegatesSeen self.now.seen.items (literals entries.now)) }
    {
        let mut lits = Items::new(alloc);
        for entry in entries {
            if self.has_seen(entry.lit) {
                lits.push(negation(entry.lit))?;
            }
        }
        Ok(Clause { lits })
    }

    /// The step with this clause.
    fn into_step(self, clause: Clause) -> Derived
        ensures clause { result.clause ≡ clause }
        ensures hints { result.hints ≡ reverse self.hints.items }
    {
        let Analysis { seen: _, mut hints } = self;
        hints.reverse();
        Derived {
            clause,
            hints: Items::from_vec(hints),
        }
    }
}

ghost use Rattle.sw_sat.specs.Analysis.{IsLearnt};
ghost use Rattle.sw_sat.specs.Trail.{all_clauses, literals, IsTrail, AreForcedFrom, IsLastDecision, IsConflict};

/// What is learnt from a conflict at the level of the last decision: the clause of the first unique
/// implication point, as in GRASP and Chaff.
pub fn analyze(
    alloc: Global,
    cnf: &Cnf,
    steps: &[Derived],
    trail: &Trail,
    start: usize,
    conflict: u32,
) -> Result<Learnt, AllocError>
    requires over { All (IsOver cnf.now.variables) (all_clauses cnf.now steps.now) }
    requires numbered { length (all_clauses cnf.now steps.now) ≤ 2 ^ 32 }
    requires trail { IsTrail cnf.now.variables (all_clauses cnf.now steps.now) trail.now.entries.items }
    requires last { IsLastDecision trail.now.entries.items start }
    requires conflict { IsConflict (all_clauses cnf.now steps.now) (literals trail.now.entries.items) conflict }
    ensures { IfOk result (IsLearnt cnf.now.variables (all_clauses cnf.now steps.now) trail.now.entries.items) }
{
    let mut analysis = Analysis::new(alloc, cnf.variables)?;
    analysis.begin(cnf, steps, trail, conflict)?;
    let unique = analysis.first_unique_point(cnf, steps, trail, start)?;
    let asserting = negation(trail.entries[unique].lit);
    let keep = analysis.cut_at(trail, start);
    let clause = analysis.clause(alloc, &trail.entries[..unique + 1])?;
    Ok(Learnt {
        step: analysis.into_step(clause),
        asserting,
        keep,
    })
}

/// The step of the empty clause, from a conflict without decisions.
pub fn refute(
    alloc: Global,
    cnf: &Cnf,
    steps: &[Derived],
    trail: &Trail,
    conflict: u32,
) -> Result<Derived, AllocError>
    requires over { All (IsOver cnf.now.variables) (all_clauses cnf.now steps.now) }
    requires numbered { length (all_clauses cnf.now steps.now) ≤ 2 ^ 32 }
    requires trail { IsTrail cnf.now.variables (all_clauses cnf.now steps.now) trail.now.entries.items }
    requires forced { AreForcedFrom trail.now.entries.items 0 }
    requires conflict { IsConflict (all_clauses cnf.now steps.now) (literals trail.now.entries.items) conflict }
    ensures accepted { IfOk result (IsAccepted cnf.now.variables (all_clauses cnf.now steps.now)) }
    ensures empty { IfOk result (λ step. step.clause.lits ≡ []) }
{
    let mut analysis = Analysis::new(alloc, cnf.variables)?;
    analysis.begin(cnf, steps, trail, conflict)?;
    analysis.resolve_all(cnf, steps, trail)?;
    Ok(analysis.into_step(Clause {
        lits: Items::new(alloc),
    }))
}
