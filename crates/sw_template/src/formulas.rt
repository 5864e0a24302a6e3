//! The formula of a body.
ghost use Rattle.std.specs.Prelude.{◌≡◌, ◌+◌, ◌<◌, ◌≤◌, ◌++◌, ◌∷◌, [], map, length, slice_get, unwrap_or, IfOk, OnOk};
ghost use Rattle.std.specs.Fmt.{decimal};
ghost use Rattle.sw_logic.specs.declared.syntax.Formula.TheVariants.{False};
ghost use Rattle.sw_meaning.specs.Space.{all_of, any_of, before_blocks, blocks, binders_of, quantified};
ghost use Rattle.sw_meaning.specs.Classes.{signed, cube_formulas, formula_by};
ghost use Rattle.sw_template.specs.Prefix.{variable_count};

use crate::body::Body;
use crate::cubes::Cubes;
use crate::literals::Literals;
use sqlite_items::{Boxed, Items};
use std::alloc::{AllocError, Global};
use sw_logic::{Binder, Formula, Name, copy_formula};
use sw_meaning::{Run, Template};

/// The formula of a literal's number: an atom, or its negation where the number is odd.
fn literal_formula(alloc: Global, literals: &Literals, literal: u32) -> Result<Formula, AllocError>
    ensures { IfOk result (λ f. f ≡ unwrap_or (slice_get (signed literals.now) literal) False) }
{
    let atom = literal / 2;
    if atom >= literals.count() {
        return Ok(Formula::False);
    }
    let copy = copy_formula(alloc, literals.atom(atom))?;
    if literal % 2 == 0 {
        return Ok(copy);
    }
    Ok(Formula::Not(Boxed::new(alloc, copy)?))
}

/// The formulas of these literals.
fn literal_formulas(
    alloc: Global,
    literals: &Literals,
    numbers: &[u32],
) -> Result<Items<Formula>, AllocError>
    ensures { IfOk result (λ fs. fs ≡ map (λ n. unwrap_or (slice_get (signed literals.now) n) False) numbers.now) }
{
    let mut formulas = Items::new(alloc);
    for number in numbers {
        formulas.push(literal_formula(alloc, literals, *number)?)?;
    }
    Ok(formulas)
}

/// The formulas together, where one stands for itself.
fn all_of(mut formulas: Items<Formula>) -> Formula
    ensures { result ≡ all_of formulas }
{
    if formulas.len() == 1 {
        return formulas.remove(0);
    }
    Formula::All(formulas)
}

/// One of the formulas, where one stands for itself.
fn any_of(mut formulas: Items<Formula>) -> Formula
    ensures { result ≡ any_of formulas }
{
    if formulas.len() == 1 {
        return formulas.remove(0);
    }
    Formula::Any(formulas)
}

/// The formula of a cube.
fn cube_formula(
    alloc: Global,
    literals: &Literals,
    cubes: &Cubes,
    cube: u32,
) -> Result<Formula, AllocError>
    ensures { IfOk result (λ f. f ≡ all_of (cube_formulas literals.now cubes.now cube)) }
{
    if cube >= cubes.count() {
        return Ok(Formula::All(Items::new(alloc)));
    }
    let lits = cubes.literals_in(cube);
    let numbers = &lits.literals[..lits.len as usize];
    Ok(all_of(literal_formulas(alloc, literals, numbers)?))
}

/// The formulas of these cubes.
fn body_formulas(
    alloc: Global,
    literals: &Literals,
    cubes: &Cubes,
    body: &[u32],
) -> Result<Items<Formula>, AllocError>
    ensures { IfOk result (λ fs. fs ≡ map all_of (map (cube_formulas literals.now cubes.now) body.now)) }
{
    let mut formulas = Items::new(alloc);
    for cube in body {
        formulas.push(cube_formula(alloc, literals, cubes, *cube)?)?;
    }
    Ok(formulas)
}

/// The variable of a number, from 1.
fn variable_name(alloc: Global, number: u32) -> Result<Name, AllocError>
    ensures { IfOk result (λ n. n ≡ 95 ∷ decimal number) }
{
    Ok(Name::new(format!(in alloc; "_{number}")?))
}

/// Adds the variables of a run, of which some stand before.
fn push_binders(
    alloc: Global,
    binders: &mut Items<Binder>,
    before: u32,
    run: &Run,
) -> Result<(), AllocError>
    requires { before + run.now.count ≤ 32 }
    ensures { OnOk result (binders.new ≡ binders.old ++ binders_of before run.now) }
{
    for n in 0..run.count {
        binders.push(Binder {
            name: variable_name(alloc, before + 1 + n)?,
            sort: run.sort,
        })?;
    }
    Ok(())
}

/// A formula under one block of variables.
fn under(
    alloc: Global,
    universal: bool,
    binders: Items<Binder>,
    formula: Formula,
) -> Result<Formula, AllocError>
    ensures { IfOk result (λ f. f ≡ quantified (record { universal = universal; binders = binders } ∷ []) formula) }
{
    let part = Boxed::new(alloc, formula)?;
    if universal {
        return Ok(Formula::ForAll(binders, part));
    }
    Ok(Formula::Exists(binders, part))
}

/// A formula under a block of variables and the further runs: runs of one quantifier are one block.
fn under_runs(
    alloc: Global,
    universal: bool,
    binders: Items<Binder>,
    runs: &[Run],
    before: u32,
    formula: Formula,
) -> Result<Formula, AllocError>
    requires { before + variable_count runs.now ≤ 32 }
    ensures { IfOk result (λ f. f ≡ quantified (before_blocks (record { universal = universal; binders = binders }) (blocks before runs.now)) formula) }
{
    let [run, later @ ..] = runs else {
        return under(alloc, universal, binders, formula);
    };
    if run.universal == universal {
        let mut more = binders;
        push_binders(alloc, &mut more, before, run)?;
        return under_runs(alloc, universal, more, later, before + run.count, formula);
    }
    let mut next = Items::new(alloc);
    push_binders(alloc, &mut next, before, run)?;
    let inner = under_runs(
        alloc,
        run.universal,
        next,
        later,
        before + run.count,
        formula,
    )?;
    under(alloc, universal, binders, inner)
}

/// A formula under a prefix.
fn under_prefix(alloc: Global, prefix: &[Run], formula: Formula) -> Result<Formula, AllocError>
    requires { variable_count prefix.now ≤ 32 }
    ensures { IfOk result (λ f. f ≡ quantified (blocks 0 prefix.now) formula) }
{
    let [run, later @ ..] = prefix else {
        return Ok(formula);
    };
    let mut binders = Items::new(alloc);
    push_binders(alloc, &mut binders, 0, run)?;
    under_runs(alloc, run.universal, binders, later, run.count, formula)
}

/// The formula of a body. A number that is no cube stands for an empty one.
pub fn formula_of(
    alloc: Global,
    template: &Template,
    literals: &Literals,
    cubes: &Cubes,
    body: &Body,
) -> Result<Formula, AllocError>
    requires { variable_count template.now.prefix ≤ 6 }
    ensures { IfOk result (λ f. f ≡ formula_by template.now literals.now cubes.now body.now.cubes) }
{
    let matrix = any_of(body_formulas(alloc, literals, cubes, body.cubes())?);
    under_prefix(alloc, template.prefix.as_slice(), matrix)
}
