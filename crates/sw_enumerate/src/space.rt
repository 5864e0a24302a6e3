//! The space of a template: its classes, part by part.
ghost use Rattle.std.specs.Prelude.{IsTrue, ◌↔◌, ◌≡◌, ℕ, ◌+◌, ◌/◌, ◌%◌, ◌<◌, ◌≤◌, length, slice_get, Contains, Some, IfSome, IfOk, IfErr, option_map, true};
ghost use Rattle.sw_logic.specs.Signatures.{is_signature};
ghost use Rattle.sw_meaning.specs.Classes.{part_of};
ghost use Rattle.sw_enumerate.specs.Refusals.{RefusesSpace, of_cubes};
ghost use Rattle.sw_enumerate.specs.Spaces.{IsSpaceOf, IsWithin, Made, classes_in, parts_in, part_in, formula_in};
ghost use Rattle.sw_template.specs.Prefix.{variable_count};

use crate::errors::{CLASSES, SpaceError};
use crate::picked::Picked;
use crate::tally::count_classes;
use crate::walk::Walk;
use std::alloc::{AllocError, Global};
use std::marker::Model;
use sw_logic::{Formula, Signature};
use sw_meaning::Template;
use sw_template::{Body, Cubes, CubesError, Literals, LiteralsError, formula_of};

/// The most sorts or symbols that are numbered.
const NUMBERS: usize = u32::MAX as usize;

/// A template's space. Contracts see the template, its atoms and its cubes.
#[derive(Drop)]
pub struct Space {
    template: Template,
    literals: Literals,
    walk: Walk,
    classes: u64,
    alloc: Global,
}

impl Model for Space {
    ghost use Rattle.std.specs.Prelude.{◌≡◌, length};
    ghost use Rattle.sw_meaning.specs.Classes.{classes_of};
    ghost use Rattle.sw_enumerate.specs.Spaces.{Made, IsSmall, IsWithin};
    ghost use Rattle.sw_logic.specs.contracts.syntax.Formula as formula;
    ghost use Rattle.sw_meaning.specs.contracts.template.Template as whole_template;
    ghost use Rattle.std.specs.Coded.{codes};

    ghost Value = { Made };

    ghost coded = { Prim.hlevel (codes, formula.the_row.coded, whole_template.the_row.coded) };

    ghost view = { λ s. record { template = s.template; atoms = s.literals; cubes = s.walk } };

    ghost invariant = { λ s. let made : Made = record { template = s.template; atoms = s.literals; cubes = s.walk } in IsSmall made × IsWithin made × (s.classes ≡ length (classes_of s.template.literals s.walk)) };
}

impl Space {
    /// The space of a template in a signature. Want of memory stands for more sorts or symbols than
    /// have a number.
    pub fn new(alloc: Global, template: Template, sig: &Signature) -> Result<Space, SpaceError>
        requires some { 0 < template.literals }
        requires most { template.literals ≤ 6 }
        requires variables { variable_count template.prefix ≤ 6 }
        requires signature { is_signature sig.now ≡ true }
        ensures ok { IfOk result (IsSpaceOf sig.now template) }
        ensures within { IfOk result IsWithin }
        ensures refused { IfErr result (RefusesSpace sig.now template) }
    {
        if sig.sorts.len() > NUMBERS {
            return Err(SpaceError::Memory);
        }
        if sig.symbols.len() > NUMBERS {
            return Err(SpaceError::Memory);
        }
        let literals = match Literals::new(alloc, &template, sig) {
            Ok(literals) => literals,
            Err(LiteralsError::AtomsOver { n }) => return Err(SpaceError::AtomsOver { n }),
            Err(LiteralsError::Memory) => return Err(SpaceError::Memory),
        };
        let cubes = match Cubes::new(alloc, &template, &literals) {
            Ok(cubes) => cubes,
            Err(error) => return Err(of_cubes(error)),
        };
        let n = count_classes(&cubes, template.literals);
        if n > CLASSES {
            return Err(SpaceError::SpaceTooLarge { n });
        }
        let Ok(walk) = Walk::new(alloc, cubes) else {
            return Err(SpaceError::Memory);
        };
        Ok(Space {
            template,
            literals,
            walk,
            classes: n as u64,
            alloc,
        })
    }

    /// Whether a body is a class.
    pub fn is_class(&self, body: &Body) -> bool
        ensures { IsTrue result ↔ ((body.now.template ≡ 0) × Contains (classes_in self.now) body.now.cubes) }
    {
        body.template() == 0 && self.walk.is_class(body.cubes(), self.template.literals)
    }

    /// The number of classes.
    pub fn class_count(&self) -> u64
        ensures { result ≡ length (classes_in self.now) }
    {
        self.classes
    }

    pub fn template(&self) -> &Template
        ensures { result.now ≡ self.now.template }
    {
        &self.template
    }

    /// The atoms.
    pub fn literals(&self) -> &Literals
        ensures { result.now ≡ self.now.atoms }
    {
        &self.literals
    }

    /// The cubes.
    pub fn all_cubes(&self) -> &Cubes
        ensures { result.now ≡ self.now.cubes }
    {
        self.walk.cubes()
    }

    /// The number of atoms.
    pub fn atoms(&self) -> u32
        ensures { result ≡ length self.now.atoms }
    {
        self.literals.count()
    }

    /// The number of cubes.
    pub fn cubes(&self) -> u32
        ensures { result ≡ length self.now.cubes }
    {
        self.walk.count()
    }

    /// The formula of a class. In another body a number that is no cube stands for an empty one.
    pub fn formula(&self, body: &Body) -> Result<Formula, AllocError>
        ensures { IfOk result (λ f. f ≡ formula_in self.now body.now.cubes) }
    {
        formula_of(
            self.alloc,
            &self.template,
            &self.literals,
            self.walk.cubes(),
            body,
        )
    }

    /// The number of parts.
    pub fn parts(&self) -> u64
        ensures { result ≡ length (parts_in self.now) }
    {
        self.template.literals as u64 * self.walk.count() as u64
    }

    /// The first class of a part.
    pub fn first_of(&self, part: u64) -> Option<Body>
        requires { part < length (parts_in self.now) }
        ensures cubes { option_map (λ b. b.cubes) result ≡ slice_get (part_in self.now part) 0 }
        ensures among { IfSome result (λ b. Contains (part_in self.now part) b.cubes) }
        ensures template { IfSome result (λ b. b.template ≡ 0) }
    {
        let literals = self.literals_of(part);
        let least = self.least_of(part);
        match self.walk.first_in(literals, least) {
            Some(picked) => Some(self.body_of(&picked)),
            None => None,
        }
    }

    /// The class after this one in its part.
    pub fn next_of(&self, part: u64, body: &Body) -> Option<Body>
        requires part { part < length (parts_in self.now) }
        requires is { Contains (part_in self.now part) body.now.cubes }
        ensures cubes { (i : ℕ) → slice_get (part_in self.now part) i ≡ Some body.now.cubes → option_map (λ b. b.cubes) result ≡ slice_get (part_in self.now part) (i + 1) }
        ensures among { IfSome result (λ b. Contains (part_in self.now part) b.cubes) }
        ensures template { IfSome result (λ b. b.template ≡ 0) }
    {
        let literals = self.literals_of(part);
        let least = self.least_of(part);
        match self.walk.next_in(literals, least, body.cubes()) {
            Some(picked) => Some(self.body_of(&picked)),
            None => None,
        }
    }

    /// How many literals the classes of a part have.
    fn literals_of(&self, part: u64) -> u32
        requires { part < length (parts_in self.now) }
        ensures some { 0 < result }
        ensures most { result ≤ 6 }
        ensures is { result ≡ part / length self.now.cubes + 1 }
    {
        (part / self.walk.count() as u64) as u32 + 1
    }

    /// The least cube of the classes of a part.
    fn least_of(&self, part: u64) -> u32
        requires { part < length (parts_in self.now) }
        ensures below { result < length self.now.cubes }
        ensures is { result ≡ part % length self.now.cubes }
        ensures part { part_in self.now part ≡ part_of self.now.cubes (part / length self.now.cubes + 1) result }
    {
        (part % self.walk.count() as u64) as u32
    }

    /// The body of these cubes.
    fn body_of(&self, picked: &Picked) -> Body
        ensures template { result.template ≡ 0 }
        ensures cubes { result.cubes ≡ picked.now }
    {
        let _ = &picked.len();
        Body::of_few(self.alloc, 0, picked.as_slice())
    }
}

/// Why there are no cubes is why there is no space.
fn of_cubes(error: CubesError) -> SpaceError
    ensures { result ≡ of_cubes error }
{
    match error {
        CubesError::CubesOver { n } => SpaceError::CubesOver { n },
        CubesError::Memory => SpaceError::Memory,
    }
}
