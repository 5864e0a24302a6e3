//! The truth of a body's formula, without the formula.
ghost use Rattle.std.specs.Prelude.{◌≡◌, ◌+◌, ◌<◌, ◌≤◌, ◌++◌, ◌∷◌, [], length, replicate, unwrap_or, slice_get, Some};
ghost use Rattle.std.specs.List.{AllByRecursion, list_all, list_any, sum_by};
ghost use Rattle.sw_logic.specs.declared.syntax.Formula.TheVariants.{False};
ghost use Rattle.sw_logic.specs.Truth.{world, truth, binds, size_of, all_below, any_below};
ghost use Rattle.sw_meaning.specs.Classes.{signed, cube_formulas, formula_by};
ghost use Rattle.sw_template.specs.Bodies.{AreCubes};
ghost use Rattle.sw_template.specs.Prefix.{variable_count, variables, over, body_true};

use crate::body::Body;
use crate::cubes::Cubes;
use crate::literals::Literals;
use sw_logic::{Env, Signature, Structure, holds};
use sw_meaning::{Run, Template};

/// Where a body is evaluated.
#[derive(Clone, Copy)]
struct Around<'a> {
    literals: &'a Literals,
    cubes: &'a Cubes,
    sig: &'a Signature,
    structure: &'a Structure,
}

impl Around<'_> {
    /// The truth of a literal.
    fn literal(&self, literal: u32, env: &Env) -> bool
        requires env { length env.now ≤ 32 }
        requires flat { AllByRecursion (λ f. binds f ≡ 0) self.now.literals.now }
        ensures { result ≡ truth (world self.now.sig.now self.now.structure.now self.now.structure.now) (unwrap_or (slice_get (signed self.now.literals.now) literal) False) env.now }
    {
        let atom = literal / 2;
        if atom >= self.literals.count() {
            return false;
        }
        let truth = holds(self.sig, self.structure, self.literals.atom(atom), env);
        if literal % 2 == 0 { truth } else { !truth }
    }

    /// Whether all of these literals are true.
    fn all(&self, literals: &[u32], env: &Env) -> bool
        requires env { length env.now ≤ 32 }
        requires flat { AllByRecursion (λ f. binds f ≡ 0) self.now.literals.now }
        ensures { let w = world self.now.sig.now self.now.structure.now self.now.structure.now in result ≡ list_all (λ n. truth w (unwrap_or (slice_get (signed self.now.literals.now) n) False) env.now) literals.now }
    {
        for literal in literals {
            if !self.literal(*literal, env) {
                return false;
            }
        }
        true
    }

    /// The truth of a cube.
    fn cube(&self, cube: u32, env: &Env) -> bool
        requires env { length env.now ≤ 32 }
        requires flat { AllByRecursion (λ f. binds f ≡ 0) self.now.literals.now }
        requires cube { cube < length self.now.cubes.now }
        ensures { let w = world self.now.sig.now self.now.structure.now self.now.structure.now in result ≡ list_all (λ f. truth w f env.now) (cube_formulas self.now.literals.now self.now.cubes.now cube) }
    {
        let cube = self.cubes.literals_in(cube);
        self.all(&cube.literals[..cube.len as usize], env)
    }

    /// The truth of a body at values of the variables.
    fn body(&self, body: &[u32], env: &Env) -> bool
        requires env { length env.now ≤ 32 }
        requires flat { AllByRecursion (λ f. binds f ≡ 0) self.now.literals.now }
        requires cubes { AreCubes self.now.cubes.now body.now }
        ensures { let w = world self.now.sig.now self.now.structure.now self.now.structure.now in result ≡ body_true w self.now.literals.now self.now.cubes.now body.now env.now }
    {
        for cube in body {
            if self.cube(*cube, env) {
                return true;
            }
        }
        false
    }

    /// The size of a sort.
    fn size(&self, sort: u32) -> u32
        ensures { result ≡ size_of self.now.structure.now.sizes sort }
    {
        match self.structure.sizes.get(sort as usize) {
            Some(size) => *size,
            None => 0,
        }
    }

    /// The truth at all or some values of the variables that are left of a run and those of the
    /// runs after it.
    #[cycle(over)]
    fn over(&self, run: Run, left: u32, rest: &[Run], body: &[u32], env: &Env) -> bool
        requires room { length env.now + (left + variable_count rest.now) ≤ 32 }
        requires flat { AllByRecursion (λ f. binds f ≡ 0) self.now.literals.now }
        requires cubes { AreCubes self.now.cubes.now body.now }
        ensures { let w = world self.now.sig.now self.now.structure.now self.now.structure.now in result ≡ over w.before.sizes (replicate left run ++ variables rest.now) (body_true w self.now.literals.now self.now.cubes.now body.now) env.now }
    {
        if left > 0 {
            return if run.universal {
                self.at_all(run, left - 1, rest, body, env)
            } else {
                self.at_some(run, left - 1, rest, body, env)
            };
        }
        let [next, more @ ..] = rest else {
            return self.body(body, env);
        };
        self.over(*next, next.count, more, body, env)
    }

    /// The truth at all values of a variable.
    #[cycle(over)]
    fn at_all(&self, run: Run, left: u32, rest: &[Run], body: &[u32], env: &Env) -> bool
        requires room { length env.now + (1 + left + variable_count rest.now) ≤ 32 }
        requires flat { AllByRecursion (λ f. binds f ≡ 0) self.now.literals.now }
        requires cubes { AreCubes self.now.cubes.now body.now }
        ensures { let w = world self.now.sig.now self.now.structure.now self.now.structure.now in result ≡ all_below (size_of w.before.sizes run.sort) (λ v. over w.before.sizes (replicate left run ++ variables rest.now) (body_true w self.now.literals.now self.now.cubes.now body.now) (env.now ++ v ∷ [])) }
    {
        for value in 0..self.size(run.sort) {
            if !self.over(run, left, rest, body, &env.with(value)) {
                return false;
            }
        }
        true
    }

    /// The truth at some value of a variable.
    #[cycle(over)]
    fn at_some(&self, run: Run, left: u32, rest: &[Run], body: &[u32], env: &Env) -> bool
        requires room { length env.now + (1 + left + variable_count rest.now) ≤ 32 }
        requires flat { AllByRecursion (λ f. binds f ≡ 0) self.now.literals.now }
        requires cubes { AreCubes self.now.cubes.now body.now }
        ensures { let w = world self.now.sig.now self.now.structure.now self.now.structure.now in result ≡ any_below (size_of w.before.sizes run.sort) (λ v. over w.before.sizes (replicate left run ++ variables rest.now) (body_true w self.now.literals.now self.now.cubes.now body.now) (env.now ++ v ∷ [])) }
    {
        for value in 0..self.size(run.sort) {
            if self.over(run, left, rest, body, &env.with(value)) {
                return true;
            }
        }
        false
    }
}

/// The truth of a body's formula in a structure.
pub fn holds_body(
    template: &Template,
    literals: &Literals,
    cubes: &Cubes,
    body: &Body,
    sig: &Signature,
    structure: &Structure,
) -> bool
    requires variables { variable_count template.now.prefix ≤ 6 }
    requires flat { AllByRecursion (λ f. binds f ≡ 0) literals.now }
    requires cubes { AreCubes cubes.now body.now.cubes }
    ensures { result ≡ truth (world sig.now structure.now structure.now) (formula_by template.now literals.now cubes.now body.now.cubes) [] }
{
    let around = Around {
        literals,
        cubes,
        sig,
        structure,
    };
    let none = Run {
        universal: true,
        count: 0,
        sort: 0,
    };
    around.over(
        none,
        0,
        template.prefix.as_slice(),
        body.cubes(),
        &Env::new(),
    )
}
