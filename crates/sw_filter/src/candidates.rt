//! What a search asks of a space of bodies.
use std::alloc::{AllocError, Global};
use sw_logic::{Formula, Signature, Structure};
use sw_template::Body;

/// Bodies and their formulas.
pub trait Candidates {
    ghost use Rattle.std.specs.Prelude.{◌≡◌, ◌↔◌, ◌≤◌, IsTrue, IfOk};
    ghost use Rattle.sw_logic.specs.declared.syntax.Formula.{Formula as Tree};
    ghost use Rattle.sw_logic.specs.Truth.{IsTrueIn, binds};
    ghost use Rattle.sw_template.specs.Bodies.{Class};

    /// Which bodies have a formula.
    ghost has: { Self → Class → Type 0 };

    ghost formula_of: { Self → Class → Tree };

    /// Whether the formula of the body is true in the structure.
    fn holds_body(&self, body: &Body, sig: &Signature, structure: &Structure) -> bool
        requires { has self.now body.now }
        ensures { IsTrue result ↔ IsTrueIn sig.now structure.now (formula_of self.now body.now) };

    /// The formula of the body.
    fn formula(&self, alloc: Global, body: &Body) -> Result<Formula, AllocError>
        requires { has self.now body.now }
        ensures formula { IfOk result (λ f. f ≡ formula_of self.now body.now) }
        ensures few { binds (formula_of self.now body.now) ≤ 32 };
}
