//! The classes of a part that follow from the list. They follow from every longer list too, so that a
//! later passage through the part does not ask about them again.
ghost use Rattle.std.specs.Prelude.{◌≡◌, ◌++◌, ◌∷◌, [], IsTrue, IfOk, Contains};
ghost use Rattle.sw_walk.specs.Parts.{classes_of};

use sqlite_items::Items;
use std::alloc::{AllocError, Global};
use std::mem::replace;
use sw_examine::copy_body;
use sw_template::Body;

/// Classes that follow: those of the passage before, in its order, and those of this one. Each passage
/// meets the classes in the same order, so that a look at the next one is enough.
#[derive(Drop)]
pub struct Implied {
    pub before: Items<Body>,
    pub next: usize,
    pub now: Items<Body>,
}

impl Implied {
    /// No class.
    pub fn new(alloc: Global) -> Implied
        ensures before { result.before ≡ [] }
        ensures now { result.now ≡ [] }
    {
        Implied {
            before: Items::new(alloc),
            next: 0,
            now: Items::new(alloc),
        }
    }

    /// What was of this passage is of the passage before.
    pub fn begin(&mut self, alloc: Global)
        ensures before { self.new.before ≡ self.old.now }
        ensures now { self.new.now ≡ [] }
    {
        self.before = replace(&mut self.now, Items::new(alloc));
        self.next = 0;
    }

    /// Whether the class is the next one of the passage before, which is passed then.
    pub fn is_next(&mut self, body: &Body) -> bool
        ensures before { self.new.before ≡ self.old.before }
        ensures now { self.new.now ≡ self.old.now }
        ensures known { IsTrue result → Contains (classes_of self.old.before) body.now.cubes }
    {
        let Some(known) = self.before.as_slice().get(self.next) else {
            return false;
        };
        if known.cubes() != body.cubes() {
            return false;
        }
        self.next = self.next.saturating_add(1);
        true
    }

    /// Adds a class to this passage.
    pub fn add(&mut self, alloc: Global, body: &Body) -> Result<(), AllocError>
        ensures before { self.new.before ≡ self.old.before }
        ensures now { IfOk result (λ _. self.new.now ≡ self.old.now ++ body.now ∷ []) }
    {
        self.now.push(copy_body(alloc, body)?)
    }
}
