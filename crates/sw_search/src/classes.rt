//! A space as workers see it.
ghost use Rattle.std.specs.Prelude.{◌≡◌, ◌≤◌, ◌^◌, length};
ghost use Rattle.sw_enumerate.specs.Spaces.{classes_in};

use std::alloc::{AllocError, Global};
use std::marker::Model;
use sw_enumerate::Space;
use sw_filter::Candidates;
use sw_logic::{Formula, Signature, Structure};
use sw_template::{Body, holds_body};
use sw_walk::Walk;

/// The classes of a space, of which there are not too many. Contracts see what the space is made of.
#[derive(Drop)]
pub struct Classes<'a> {
    space: &'a Space,
}

impl<'a> Model for Classes<'a> {
    ghost use Rattle.std.specs.Prelude.{◌≤◌, ◌^◌, length};
    ghost use Rattle.sw_enumerate.specs.Spaces.{Made, classes_in};
    ghost use Rattle.sw_logic.specs.contracts.syntax.Formula as formula;
    ghost use Rattle.sw_meaning.specs.contracts.template.Template as whole_template;
    ghost use Rattle.std.specs.Coded.{codes};

    ghost Value = { Made };

    ghost coded = { Prim.hlevel (codes, formula.the_row.coded, whole_template.the_row.coded) };

    ghost view = { λ c. c.space.now };

    ghost invariant = { λ c. length (classes_in c.space.now) ≤ 2 ^ 32 };
}

impl<'a> Classes<'a> {
    pub fn new(space: &'a Space) -> Classes<'a>
        requires few { length (classes_in space.now) ≤ 2 ^ 32 }
        ensures { result ≡ space.now }
    {
        Classes { space }
    }
}

impl<'a> Candidates for Classes<'a> {
    ghost use Rattle.std.specs.Prelude.{◌≡◌, ◌↔◌, ◌≤◌, IsTrue, IfOk};
    ghost use Rattle.sw_logic.specs.Truth.{IsTrueIn, binds};
    ghost use Rattle.sw_enumerate.specs.Spaces.{formula_in};
    ghost use Rattle.sw_search.specs.Spaces.{IsReadable};

    ghost has = { λ s c. IsReadable s c };

    ghost formula_of = { λ s c. formula_in s c.cubes };

    fn holds_body(&self, body: &Body, sig: &Signature, structure: &Structure) -> bool {
        holds_body(
            self.space.template(),
            self.space.literals(),
            self.space.all_cubes(),
            body,
            sig,
            structure,
        )
    }

    fn formula(&self, _alloc: Global, body: &Body) -> Result<Formula, AllocError> {
        self.space.formula(body)
    }
}

impl<'a> Walk for Classes<'a> {
    ghost use Rattle.sw_enumerate.specs.Spaces.{parts_in};

    ghost template = { λ s. s.template };

    ghost part_lists = { λ s. parts_in s };

    fn parts(&self) -> u64 {
        self.space.parts()
    }

    fn first_of(&self, part: u64) -> Option<Body> {
        self.space.first_of(part)
    }

    fn next_of(&self, part: u64, body: &Body) -> Option<Body> {
        self.space.next_of(part, body)
    }

    fn is_class(&self, body: &Body) -> bool {
        self.space.is_class(body)
    }
}
