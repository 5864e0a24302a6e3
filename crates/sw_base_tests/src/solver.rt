//! Answers on small sets of clauses, against truth under every assignment.
ghost use Rattle.std.specs.Prelude.{◌≤◌, ◌↔◌, IfSome, IsTrue};
ghost use Rattle.sw_refute.specs.Satisfaction.{IsOver, IsWellFormed};

use crate::asserts::is;
use sqlite_items::Items;
use std::alloc::{AllocError, Global};
use std::process::Abort;
use std::test::Fail;
use sw_refute::{Clause, Cnf, Lit, StepsVerdict, check_steps};
use sw_sat::{Solved, solve};

fn clause_of(alloc: Global, numbers: &[u32]) -> Result<Clause, AllocError> {
    let mut lits = Items::new(alloc);
    for number in numbers {
        lits.push(Lit(*number))?;
    }
    Ok(Clause { lits })
}

fn is_over(clause: &Clause, variables: u32) -> bool
    ensures { IsTrue result ↔ IsOver variables clause.now }
{
    clause
        .lits
        .as_slice()
        .iter()
        .all(|lit| lit.0 / 2 < variables)
}

fn is_well_formed(cnf: &Cnf) -> bool
    ensures { IsTrue result ↔ IsWellFormed cnf.now }
{
    cnf.clauses
        .as_slice()
        .iter()
        .all(|clause| is_over(clause, cnf.variables))
}

/// The clause's truth where the bits give the variables' values, the lowest for variable 0.
fn is_true(clause: &Clause, bits: u32) -> bool {
    clause
        .lits
        .as_slice()
        .iter()
        .any(|lit| bits.wrapping_shr(lit.0 / 2) % 2 != lit.0 % 2)
}

fn are_true(cnf: &Cnf, bits: u32) -> bool {
    cnf.clauses
        .as_slice()
        .iter()
        .all(|clause| is_true(clause, bits))
}

fn is_satisfiable(cnf: &Cnf) -> bool {
    (0..1u32.wrapping_shl(cnf.variables)).any(|bits| are_true(cnf, bits))
}

fn bits_of(values: &[bool]) -> u32 {
    values.iter().rev().fold(
        0,
        |bits: u32, value| bits.wrapping_mul(2) | u32::from(*value),
    )
}

/// Each answer is right, and carries as many steps as it may.
fn answers_rightly(
    rt: &impl Abort,
    alloc: Global,
    cnf: &Cnf,
    satisfiable: bool,
    budget: Option<u64>,
) -> Result<(), AllocError>
    requires { IfSome budget (λ most. 1 ≤ most) }
{
    is(rt, is_well_formed(cnf), "clauses in order");
    match solve(alloc, cnf, budget)? {
        Solved::Satisfied(values) => {
            is(rt, satisfiable, "there is an assignment");
            is(
                rt,
                are_true(cnf, bits_of(values.as_slice())),
                "it makes each clause true",
            );
        }
        Solved::Refuted(steps) => {
            is(rt, !satisfiable, "there is none");
            let verdict = check_steps(alloc, cnf, steps.as_slice())?;
            is(
                rt,
                verdict == StepsVerdict::Accepted { empty: true },
                "the steps are accepted",
            );
        }
        Solved::Spent(steps) => {
            is(
                rt,
                Some(steps.len() as u64) == budget,
                "each step of the budget",
            );
            is(rt, steps.len() < 8192, "a budget of few");
            let verdict = check_steps(alloc, cnf, steps.as_slice())?;
            is(
                rt,
                verdict == StepsVerdict::Accepted { empty: false },
                "the steps are accepted",
            );
        }
    }
    Ok(())
}

/// The answers without a budget, with small ones, and with one that is never spent.
fn answers_within_budgets(rt: &impl Abort, alloc: Global, cnf: &Cnf) -> Result<(), AllocError> {
    let satisfiable = is_satisfiable(cnf);
    answers_rightly(rt, alloc, cnf, satisfiable, None)?;
    answers_rightly(rt, alloc, cnf, satisfiable, Some(1))?;
    answers_rightly(rt, alloc, cnf, satisfiable, Some(5))?;
    answers_rightly(rt, alloc, cnf, satisfiable, Some(8192))
}

/// That this pigeon is in this hole.
fn place(pigeon: u32, hole: u32) -> u32 {
    pigeon.wrapping_mul(3).wrapping_add(hole).wrapping_mul(2)
}

/// The pigeon is in one of the holes.
fn push_choice(
    alloc: Global,
    clauses: &mut Items<Clause>,
    pigeon: u32,
    holes: u32,
) -> Result<(), AllocError> {
    let mut lits = Items::new(alloc);
    for hole in 0..holes {
        lits.push(Lit(place(pigeon, hole)))?;
    }
    clauses.push(Clause { lits })
}

/// The pigeon and each before it are not both in this hole.
fn push_apart(
    alloc: Global,
    clauses: &mut Items<Clause>,
    pigeon: u32,
    hole: u32,
) -> Result<(), AllocError> {
    for other in 0..pigeon {
        clauses.push(clause_of(alloc, &[place(pigeon, hole) | 1, place(other, hole) | 1])?)?;
    }
    Ok(())
}

/// Each pigeon is in one of at most three holes, and no two are in the same one.
fn pigeons(alloc: Global, pigeons: u32, holes: u32) -> Result<Cnf, AllocError> {
    let mut clauses = Items::new(alloc);
    for pigeon in 0..pigeons {
        push_choice(alloc, &mut clauses, pigeon, holes)?;
        for hole in 0..holes {
            push_apart(alloc, &mut clauses, pigeon, hole)?;
        }
    }
    Ok(Cnf {
        variables: 12,
        clauses,
    })
}

/// Each variable differs from the next, and the last from the first or not.
fn ring(alloc: Global, variables: u32, last_differs: bool) -> Result<Cnf, AllocError>
    requires { variables ≤ 1000 }
{
    let mut clauses = Items::new(alloc);
    for first in 0..variables {
        let closes = first + 1 == variables;
        let second = if closes { 0 } else { first + 1 };
        let same = u32::from(closes && !last_differs);
        clauses.push(clause_of(alloc, &[2 * first, 2 * second + same])?)?;
        clauses.push(clause_of(alloc, &[2 * first + 1, 2 * second + 1 - same])?)?;
    }
    Ok(Cnf { variables, clauses })
}

/// Clauses of three literals over twelve variables.
fn random(alloc: Global, seed: u64, count: u32) -> Result<Cnf, AllocError> {
    let mut state = seed;
    let mut clauses = Items::new(alloc);
    for _ in 0..count {
        let mut lits = Items::new(alloc);
        for _ in 0..3 {
            state = state
                .wrapping_mul(6364136223846793005)
                .wrapping_add(1442695040888963407);
            lits.push(Lit((state >> 33) as u32 % 24))?;
        }
        clauses.push(Clause { lits })?;
    }
    Ok(Cnf {
        variables: 12,
        clauses,
    })
}

fn without_clauses(alloc: Global) -> Cnf {
    Cnf {
        variables: 0,
        clauses: Items::new(alloc),
    }
}

fn with_the_empty_clause(alloc: Global) -> Result<Cnf, AllocError> {
    let mut clauses = Items::new(alloc);
    clauses.push(clause_of(alloc, &[])?)?;
    Ok(Cnf {
        variables: 0,
        clauses,
    })
}

#[test]
fn answers_agree_with_every_assignment(rt: HostRuntime) -> Result<(), Fail> {
    let alloc = rt.alloc();
    answers_within_budgets(&rt, alloc, &without_clauses(alloc))?;
    answers_within_budgets(&rt, alloc, &with_the_empty_clause(alloc)?)?;
    for (birds, holes) in [(3, 2), (3, 3), (4, 3)] {
        answers_within_budgets(&rt, alloc, &pigeons(alloc, birds, holes)?)?;
    }
    for variables in 2..6 {
        answers_within_budgets(&rt, alloc, &ring(alloc, variables, true)?)?;
        answers_within_budgets(&rt, alloc, &ring(alloc, variables, false)?)?;
    }
    for seed in 0..12 {
        answers_within_budgets(&rt, alloc, &random(alloc, seed, 46 + 2 * seed as u32)?)?;
    }
    Ok(())
}
