//! Steps on four clauses over two variables that no assignment makes true together.
ghost use Rattle.std.specs.Prelude.{◌≡◌, ◌<◌, IfOk};
ghost use Rattle.sw_refute.specs.Satisfaction.{IsOver, IsWellFormed};

use crate::asserts::is;
use sqlite_items::Items;
use std::alloc::{AllocError, Global};
use std::test::Fail;
use sw_refute::{Clause, Cnf, Derived, Lit, StepsVerdict, check_steps};

fn clause(alloc: Global, lits: &[u32]) -> Result<Clause, AllocError> {
    let mut list = Items::new(alloc);
    for lit in lits {
        list.push(Lit(*lit))?;
    }
    Ok(Clause { lits: list })
}

fn pair(alloc: Global, a: u32, b: u32) -> Result<Clause, AllocError>
    requires first { a < 4 }
    requires second { b < 4 }
    ensures { IfOk result (IsOver 2) }
{
    let lits = Items::from_slice(alloc, &[Lit(a), Lit(b)])?;
    Ok(Clause { lits })
}

/// [0 2], [0 3], [1 2], [1 3]
fn square(alloc: Global) -> Result<Cnf, AllocError>
    ensures { IfOk result IsWellFormed }
{
    let mut clauses = Items::new(alloc);
    for (a, b) in [(0, 2), (0, 3), (1, 2), (1, 3)] {
        clauses.push(pair(alloc, a, b)?)?;
    }
    Ok(Cnf {
        variables: 2,
        clauses,
    })
}

/// What the check says of steps on the square, each with its literals and its hints.
fn verdict(alloc: Global, steps: &[(&[u32], &[u32])]) -> Result<StepsVerdict, AllocError> {
    let mut list = Items::new(alloc);
    for (lits, hints) in steps {
        list.push(Derived {
            clause: clause(alloc, lits)?,
            hints: Items::from_slice(alloc, hints)?,
        })?;
    }
    check_steps(alloc, &square(alloc)?, list.as_slice())
}

#[test]
fn two_steps_refute_the_square(rt: HostRuntime) -> Result<(), Fail> {
    let alloc = rt.alloc();
    let told = verdict(alloc, &[(&[1], &[2, 3]), (&[], &[4, 0, 1])])?;
    is(
        &rt,
        told == StepsVerdict::Accepted { empty: true },
        "accepted",
    );
    let told = verdict(alloc, &[(&[1, 1], &[2, 3]), (&[], &[4, 0, 1])])?;
    is(
        &rt,
        told == StepsVerdict::Accepted { empty: true },
        "equal literals are one",
    );
    let told = verdict(alloc, &[(&[1], &[2, 3])])?;
    is(
        &rt,
        told == StepsVerdict::Accepted { empty: false },
        "no empty clause",
    );
    let told = verdict(alloc, &[])?;
    is(
        &rt,
        told == StepsVerdict::Accepted { empty: false },
        "no steps",
    );
    Ok(())
}

#[test]
fn wrong_first_steps_are_refused(rt: HostRuntime) -> Result<(), Fail> {
    let alloc = rt.alloc();
    let steps: [(&str, &[u32], &[u32]); 10] = [
        ("two literals are unassigned", &[], &[0, 1, 2, 3]),
        ("no such variable", &[1, 4], &[2, 3]),
        ("opposite literals", &[0, 2, 3], &[0]),
        ("no such clause", &[1], &[2, 9]),
        ("the step itself", &[1], &[4]),
        ("a later step", &[1], &[5]),
        ("a conflict before the last hint", &[1], &[2, 3, 0]),
        ("the hints run out", &[1], &[2]),
        ("no hints", &[1], &[]),
        ("a clause is true already", &[1], &[0, 2, 3]),
    ];
    for (why, lits, hints) in steps {
        let told = verdict(alloc, &[(lits, hints), (&[1], &[2, 3])])?;
        is(&rt, told == StepsVerdict::Refused { step: 0 }, why);
    }
    Ok(())
}

#[test]
fn the_first_wrong_step_is_named(rt: HostRuntime) -> Result<(), Fail> {
    let alloc = rt.alloc();
    let told = verdict(alloc, &[(&[1], &[2, 3]), (&[], &[4, 0]), (&[], &[0])])?;
    is(
        &rt,
        told == StepsVerdict::Refused { step: 1 },
        "the second step",
    );
    Ok(())
}
