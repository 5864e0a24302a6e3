//! A body: a list of cubes.
ghost use Rattle.std.specs.Prelude.{◌≡◌, ◌≤◌, length, IfOk};

use smallvec::SmallVec;
use std::alloc::{AllocError, Global};
use std::marker::Model;

/// The most literals of a formula, and so the most cubes of a body.
pub const LITERALS: usize = 6;

/// A body: the number of its template and the numbers of its cubes. Contracts see both.
#[derive(Drop)]
pub struct Body {
    template: u32,
    cubes: SmallVec<u32, LITERALS>,
}

impl Model for Body {
    ghost use Rattle.sw_template.specs.Bodies.{Class};

    ghost Value = { Class };

    ghost view = { λ b. record { template = b.template; cubes = b.cubes.items } };
}

impl Body {
    /// A body of a few cubes, which takes no memory.
    pub fn of_few(alloc: Global, template: u32, cubes: &[u32]) -> Body
        requires { length cubes.now ≤ 6 }
        ensures template { result.template ≡ template }
        ensures cubes { result.cubes ≡ cubes.now }
    {
        Body {
            template,
            cubes: SmallVec::from_slice(alloc, cubes).unwrap(),
        }
    }

    /// A body of any list of cubes.
    pub fn of_list(alloc: Global, template: u32, cubes: &[u32]) -> Result<Body, AllocError>
        ensures template { IfOk result (λ b. b.template ≡ template) }
        ensures cubes { IfOk result (λ b. b.cubes ≡ cubes.now) }
    {
        let cubes = SmallVec::from_slice(alloc, cubes)?;
        Ok(Body { template, cubes })
    }

    pub fn template(&self) -> u32
        ensures { result ≡ self.now.template }
    {
        self.template
    }

    pub fn cubes(&self) -> &[u32]
        ensures { result.now ≡ self.now.cubes }
    {
        self.cubes.as_slice()
    }
}
