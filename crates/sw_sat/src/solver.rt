//! The search: propagation, decisions, and learning from conflicts.
ghost use Rattle.std.specs.Prelude.{◌≡◌, ◌+◌, ◌*◌, ◌<◌, ◌≤◌, ◌^◌, [], ◌∷◌, ◌++◌, length, All, IfOk, IfSome, MatchBool, MatchOption};
ghost use Rattle.std.specs.Bool.{OnFalse};
ghost use Rattle.sw_refute.specs.Satisfaction.{IsOver, IsWellFormed};
ghost use Rattle.sw_sat.specs.Answers.{Answers};
ghost use Rattle.sw_sat.specs.Analysis.{IsLearnt};
ghost use Rattle.sw_sat.specs.Progress.{IsSearch, IsTotal, IsFirstFree, IsValuation, Decides, GoesBack, Turns, IsPrepared, IsPreparedAfter};
ghost use Rattle.sw_sat.specs.Occurring.{lists_of, IsIndex};
ghost use Rattle.sw_sat.specs.Trail.{all_clauses, literals, Agrees, AreAssigned, IsTrail, IsState, IsFixpoint, IsConflict, IsReady, Grows};

use crate::analyze::{Learnt, analyze, refute};
use crate::occurrences::Occurrences;
use crate::propagate::propagate;
use crate::solved::Solved;
use crate::trail::Trail;
use std::alloc::{AllocError, Global};
use sw_refute::{Cnf, Derived, Lit};

/// How many clauses numbers of 32 bits tell apart.
const MOST_CLAUSES: usize = 4_294_967_296;

/// How many variables literals of 32 bits tell apart.
const MOST_VARIABLES: u32 = 2_147_483_648;

/// What one turn of the search came to.
#[derive(Clone, Copy, PartialEq, Eq)]
pub enum Turn {
    /// The search goes on.
    On,
    /// Every variable is assigned, and every clause is true.
    Satisfied,
    /// The last step is empty.
    Refuted,
    /// The budget was spent before this conflict.
    Spent,
}

/// The variable of the last decision, before which all are assigned, or else the first variable.
fn decided(cnf: &Cnf, steps: &[Derived], trail: &Trail) -> u32
    requires { IsTrail cnf.now.variables (all_clauses cnf.now steps.now) trail.now.entries.items }
    ensures { AreAssigned result trail.now.entries.items }
{
    match trail.last_decision() {
        Some(at) => trail.entries[at].lit.0 / 2,
        None => 0,
    }
}

/// The first variable that is not assigned, where those before this one are.
fn unassigned(trail: &Trail, from: u32, variables: u32) -> Option<u32>
    requires small { variables ≤ 2 ^ 31 }
    requires before { AreAssigned from trail.now.entries.items }
    requires agrees { Agrees trail.now }
    requires size { length trail.now.values.items ≡ 2 * variables }
    ensures { MatchOption result (IsTotal variables trail.now.entries.items) (IsFirstFree variables trail.now.entries.items) }
{
    let mut variable = from;
    while variable < variables {
        if !trail.is_true(Lit(2 * variable)) && !trail.is_true(Lit(2 * variable + 1)) {
            return Some(variable);
        }
        variable += 1;
    }
    None
}

/// Makes an unassigned variable false, and says whether there was one.
fn decide(cnf: &Cnf, steps: &[Derived], trail: &mut Trail) -> bool
    requires small { cnf.now.variables ≤ 2 ^ 31 }
    requires state { IsState cnf.now.variables (all_clauses cnf.now steps.now) trail.old }
    requires fixpoint { IsFixpoint (all_clauses cnf.now steps.now) (literals trail.old.entries.items) }
    ensures state { IsState cnf.now.variables (all_clauses cnf.now steps.now) trail.new }
    ensures ready { IsReady (all_clauses cnf.now steps.now) trail.new.entries.items }
    ensures decided { MatchBool result (Decides trail.old.entries.items trail.new.entries.items) (IsTotal cnf.now.variables trail.new.entries.items) }
    ensures unchanged { OnFalse result (trail.new.entries.items ≡ trail.old.entries.items) }
{
    match unassigned(trail, decided(cnf, steps, trail), cnf.variables) {
        Some(variable) => {
            trail.assign(Lit(2 * variable + 1), None);
            true
        }
        None => false,
    }
}

/// The value of each variable.
fn model(alloc: Global, trail: &Trail, variables: u32) -> Result<Vec<bool>, AllocError>
    requires small { variables ≤ 2 ^ 31 }
    requires agrees { Agrees trail.now }
    requires size { length trail.now.values.items ≡ 2 * variables }
    ensures { IfOk result (λ values. IsValuation values.items (literals trail.now.entries.items) variables) }
{
    let mut values = Vec::new(alloc);
    for variable in 0..variables {
        values.push(trail.is_true(Lit(2 * variable)))?;
    }
    Ok(values)
}

/// Adds the step, takes the trail back and makes the asserting literal true.
fn learn(
    cnf: &Cnf,
    steps: &mut Vec<Derived>,
    occurrences: &mut Occurrences,
    trail: &mut Trail,
    learnt: Learnt,
) -> Result<(), AllocError>
    requires state { IsState cnf.now.variables (all_clauses cnf.now steps.old.items) trail.old }
    requires numbered { length (all_clauses cnf.now steps.old.items) ≤ 2 ^ 32 }
    requires index { IsIndex cnf.now.variables (all_clauses cnf.now steps.old.items) (lists_of occurrences.old) }
    requires learnt { IsLearnt cnf.now.variables (all_clauses cnf.now steps.old.items) trail.old.entries.items learnt }
    ensures steps { IfOk result (λ _. steps.new.items ≡ steps.old.items ++ learnt.step ∷ []) }
    ensures numbered { IfOk result (λ _. length (all_clauses cnf.now steps.new.items) ≤ 2 ^ 32) }
    ensures state { IfOk result (λ _. IsState cnf.now.variables (all_clauses cnf.now steps.new.items) trail.new) }
    ensures index { IfOk result (λ _. IsIndex cnf.now.variables (all_clauses cnf.now steps.new.items) (lists_of occurrences.new)) }
    ensures ready { IfOk result (λ _. IsReady (all_clauses cnf.now steps.new.items) trail.new.entries.items) }
    ensures back { IfOk result (λ _. GoesBack learnt trail.old.entries.items trail.new.entries.items) }
{
    let Learnt {
        step,
        asserting,
        keep,
    } = learnt;
    let number = cnf.clauses.len() + steps.len();
    if number >= MOST_CLAUSES {
        return Err(AllocError);
    }
    occurrences.add(&step.clause, number as u32)?;
    steps.push(step)?;
    trail.backjump(keep);
    trail.assign(asserting, Some(number as u32));
    Ok(())
}

/// Learns from the conflict, unless there is no decision or the budget is spent.
fn handle_conflict(
    alloc: Global,
    cnf: &Cnf,
    budget: Option<u64>,
    steps: &mut Vec<Derived>,
    occurrences: &mut Occurrences,
    trail: &mut Trail,
    conflict: u32,
) -> Result<Turn, AllocError>
    requires over { All (IsOver cnf.now.variables) (all_clauses cnf.now steps.old.items) }
    requires found { IsSearch cnf.now budget steps.old.items trail.old }
    requires index { IsIndex cnf.now.variables (all_clauses cnf.now steps.old.items) (lists_of occurrences.old) }
    requires conflict { IsConflict (all_clauses cnf.now steps.old.items) (literals trail.old.entries.items) conflict }
    ensures turns { IfOk result (Turns cnf.now budget trail.old trail.new steps.new.items) }
    ensures prepared { IfOk result (IsPreparedAfter cnf.now steps.new.items (lists_of occurrences.new) trail.new.entries.items) }
{
    let Some(start) = trail.last_decision() else {
        let step = refute(alloc, cnf, steps.as_slice(), trail, conflict)?;
        steps.push(step)?;
        return Ok(Turn::Refuted);
    };
    if budget == Some(steps.len() as u64) {
        return Ok(Turn::Spent);
    }
    let learnt = analyze(alloc, cnf, steps.as_slice(), trail, start, conflict)?;
    learn(cnf, steps, occurrences, trail, learnt)?;
    Ok(Turn::On)
}

/// Propagates, and then decides or learns from the conflict.
fn take_turn(
    alloc: Global,
    cnf: &Cnf,
    budget: Option<u64>,
    steps: &mut Vec<Derived>,
    occurrences: &mut Occurrences,
    trail: &mut Trail,
) -> Result<Turn, AllocError>
    requires well_formed { IsWellFormed cnf.now }
    requires found { IsSearch cnf.now budget steps.old.items trail.old }
    requires prepared { IsPrepared cnf.now steps.old.items (lists_of occurrences.old) trail.old.entries.items }
    ensures turns { IfOk result (Turns cnf.now budget trail.old trail.new steps.new.items) }
    ensures prepared { IfOk result (IsPreparedAfter cnf.now steps.new.items (lists_of occurrences.new) trail.new.entries.items) }
{
    match propagate(cnf, steps.as_slice(), occurrences, trail) {
        Some(conflict) => handle_conflict(alloc, cnf, budget, steps, occurrences, trail, conflict),
        None => {
            if decide(cnf, steps.as_slice(), trail) {
                Ok(Turn::On)
            } else {
                Ok(Turn::Satisfied)
            }
        }
    }
}

/// Solves the set of clauses by unit propagation, decisions, and learning from conflicts, without
/// restarts and without deletion of what was learnt, in outline as GRASP and Chaff do. A step's hints
/// are the reasons used, in the order of assignment, and last the clause that conflicted. A budget
/// bounds how many nonempty clauses are learnt. It ends, since the list of the numbers of assignments
/// per decision level rises lexicographically at each conflict.
pub fn solve(alloc: Global, cnf: &Cnf, budget: Option<u64>) -> Result<Solved, AllocError>
    requires well_formed { IsWellFormed cnf.now }
    requires some { IfSome budget (λ most. 1 ≤ most) }
    ensures { IfOk result (Answers cnf.now budget) }
{
    if cnf.clauses.len() > MOST_CLAUSES || cnf.variables > MOST_VARIABLES {
        return Err(AllocError);
    }
    let mut steps = Vec::new(alloc);
    let mut occurrences = Occurrences::of_set(alloc, cnf)?;
    let mut trail = Trail::new(alloc, cnf.variables)?;
    loop {
        match take_turn(alloc, cnf, budget, &mut steps, &mut occurrences, &mut trail)? {
            Turn::On => {}
            Turn::Satisfied => return Ok(Solved::Satisfied(model(alloc, &trail, cnf.variables)?)),
            Turn::Refuted => return Ok(Solved::Refuted(steps)),
            Turn::Spent => return Ok(Solved::Spent(steps)),
        }
    }
}
