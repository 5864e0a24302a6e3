//! Unit propagation. A clause is read where a literal of it became false, and each once in the
//! beginning.
ghost use Rattle.std.specs.Prelude.{◌≡◌, ◌+◌, ◌*◌, ◌<◌, ◌≤◌, ◌^◌, Some, length, slice_get, All, MatchBool, MatchOption, MatchResult, vec_capacity};
ghost use Rattle.sw_refute.specs.Satisfaction.{IsOver};
ghost use Rattle.sw_sat.specs.Occurring.{lists_of, IsIndex};
ghost use Rattle.sw_sat.specs.Standing.{StandsAs};
ghost use Rattle.sw_sat.specs.Trail.{all_clauses, HasValues, literals, Agrees, IsState, IsFixpoint, IsConflict, IsSettledAt, AreQuiet, IsQuietFrom, IsReady, Grows};

use crate::literals::negation;
use crate::occurrences::Occurrences;
use crate::trail::Trail;
use sw_refute::{Clause, Cnf, Derived, Lit};

/// The clause of this number: those of the set come first, then those of the steps.
pub fn clause_at<'a>(cnf: &'a Cnf, steps: &'a [Derived], number: usize) -> &'a Clause
    requires { number < length (all_clauses cnf.now steps.now) }
    ensures { slice_get (all_clauses cnf.now steps.now) number ≡ Some result.now }
{
    let clauses = cnf.clauses.as_slice();
    if number < clauses.len() {
        &clauses[number]
    } else {
        &steps[number - clauses.len()].clause
    }
}

/// What a clause is under the true literals.
#[derive(Clone, Copy, PartialEq, Eq)]
pub enum Standing {
    /// A literal is true.
    Satisfied,
    /// Two different literals are unassigned.
    Open,
    /// All literals but this one are false, and it is unassigned.
    Unit(Lit),
    /// All literals are false.
    Falsified,
}

/// What the clause is under the trail.
fn examine(trail: &Trail, clause: &Clause) -> Standing
    requires agrees { Agrees trail.now }
    requires within { HasValues trail.now.values.items clause.now }
    ensures { StandsAs (literals trail.now.entries.items) clause.now result }
{
    let mut standing = Standing::Falsified;
    for lit in clause.lits.as_slice() {
        if trail.is_true(*lit) {
            return Standing::Satisfied;
        }
        if !trail.is_true(negation(*lit)) {
            match standing {
                Standing::Unit(first) => {
                    if first != *lit {
                        return Standing::Open;
                    }
                }
                _ => standing = Standing::Unit(*lit),
            }
        }
    }
    standing
}

/// Reads the clause of this number, and assigns its literal if it is a unit. The answer is whether the
/// clause is false.
fn read(cnf: &Cnf, steps: &[Derived], number: u32, trail: &mut Trail) -> bool
    requires over { All (IsOver cnf.now.variables) (all_clauses cnf.now steps.now) }
    requires within { number < length (all_clauses cnf.now steps.now) }
    requires state { IsState cnf.now.variables (all_clauses cnf.now steps.now) trail.old }
    ensures state { IsState cnf.now.variables (all_clauses cnf.now steps.now) trail.new }
    ensures grows { Grows trail.old.entries.items trail.new.entries.items }
    ensures ends { MatchBool result (IsConflict (all_clauses cnf.now steps.now) (literals trail.new.entries.items) number) (IsSettledAt (all_clauses cnf.now steps.now) (literals trail.new.entries.items) number) }
{
    match examine(trail, clause_at(cnf, steps, number as usize)) {
        Standing::Unit(lit) => {
            trail.assign(lit, Some(number));
            false
        }
        Standing::Falsified => true,
        _ => false,
    }
}

/// Reads all clauses. The answer is the number of one that is false.
fn read_all(cnf: &Cnf, steps: &[Derived], trail: &mut Trail) -> Option<u32>
    requires over { All (IsOver cnf.now.variables) (all_clauses cnf.now steps.now) }
    requires numbered { length (all_clauses cnf.now steps.now) ≤ 2 ^ 32 }
    requires state { IsState cnf.now.variables (all_clauses cnf.now steps.now) trail.old }
    ensures state { IsState cnf.now.variables (all_clauses cnf.now steps.now) trail.new }
    ensures grows { Grows trail.old.entries.items trail.new.entries.items }
    ensures ends { MatchOption result (IsQuietFrom (all_clauses cnf.now steps.now) trail.new.entries.items (length trail.old.entries.items)) (IsConflict (all_clauses cnf.now steps.now) (literals trail.new.entries.items)) }
{
    for number in 0..cnf.clauses.len() + steps.len() {
        if read(cnf, steps, number as u32, trail) {
            return Some(number as u32);
        }
    }
    None
}

/// Reads the clauses of these numbers. The answer is the number of one that is false.
fn read_each(cnf: &Cnf, steps: &[Derived], numbers: &[u32], trail: &mut Trail) -> Option<u32>
    requires over { All (IsOver cnf.now.variables) (all_clauses cnf.now steps.now) }
    requires within { All (λ n. n < length (all_clauses cnf.now steps.now)) numbers.now }
    requires state { IsState cnf.now.variables (all_clauses cnf.now steps.now) trail.old }
    ensures state { IsState cnf.now.variables (all_clauses cnf.now steps.now) trail.new }
    ensures grows { Grows trail.old.entries.items trail.new.entries.items }
    ensures ends { MatchOption result (AreQuiet (all_clauses cnf.now steps.now) numbers.now trail.new.entries.items (length trail.old.entries.items)) (IsConflict (all_clauses cnf.now steps.now) (literals trail.new.entries.items)) }
{
    for number in numbers {
        if read(cnf, steps, *number, trail) {
            return Some(*number);
        }
    }
    None
}

/// The position of the last entry. Where nothing is assigned yet all clauses are read first, and it is
/// the position of the first entry, or the number of a clause that is false.
fn begin(cnf: &Cnf, steps: &[Derived], trail: &mut Trail) -> Result<usize, u32>
    requires over { All (IsOver cnf.now.variables) (all_clauses cnf.now steps.now) }
    requires numbered { length (all_clauses cnf.now steps.now) ≤ 2 ^ 32 }
    requires state { IsState cnf.now.variables (all_clauses cnf.now steps.now) trail.old }
    requires ready { IsReady (all_clauses cnf.now steps.now) trail.old.entries.items }
    ensures state { IsState cnf.now.variables (all_clauses cnf.now steps.now) trail.new }
    ensures grows { Grows trail.old.entries.items trail.new.entries.items }
    ensures ends { MatchResult result (IsQuietFrom (all_clauses cnf.now steps.now) trail.new.entries.items) (IsConflict (all_clauses cnf.now steps.now) (literals trail.new.entries.items)) }
{
    let assigned = trail.entries.len();
    if assigned > 0 {
        return Ok(assigned - 1);
    }
    match read_all(cnf, steps, trail) {
        Some(conflict) => Err(conflict),
        None => Ok(0),
    }
}

/// Assigns what the clauses force. The answer is the number of a clause that is false, if there is
/// one.
pub fn propagate(
    cnf: &Cnf,
    steps: &[Derived],
    occurrences: &Occurrences,
    trail: &mut Trail,
) -> Option<u32>
    requires over { All (IsOver cnf.now.variables) (all_clauses cnf.now steps.now) }
    requires numbered { length (all_clauses cnf.now steps.now) ≤ 2 ^ 32 }
    requires index { IsIndex cnf.now.variables (all_clauses cnf.now steps.now) (lists_of occurrences.now) }
    requires state { IsState cnf.now.variables (all_clauses cnf.now steps.now) trail.old }
    requires ready { IsReady (all_clauses cnf.now steps.now) trail.old.entries.items }
    ensures state { IsState cnf.now.variables (all_clauses cnf.now steps.now) trail.new }
    ensures grows { Grows trail.old.entries.items trail.new.entries.items }
    ensures ends { MatchOption result (IsFixpoint (all_clauses cnf.now steps.now) (literals trail.new.entries.items)) (IsConflict (all_clauses cnf.now steps.now) (literals trail.new.entries.items)) }
{
    let mut head = match begin(cnf, steps, trail) {
        Ok(head) => head,
        Err(conflict) => return Some(conflict),
    };
    while head < trail.entries.len() {
        let now_false = negation(trail.entries[head].lit);
        if let Some(conflict) = read_each(cnf, steps, occurrences.of(now_false), trail) {
            return Some(conflict);
        }
        head += 1;
    }
    None
}
