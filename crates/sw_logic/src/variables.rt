//! What the variables in scope are: their values, and their sorts.
ghost use Rattle.std.specs.Prelude.{◌≡◌, ◌<◌, ◌≤◌, [], ◌∷◌, ◌++◌, length, slice_index, IsTrue, ◌↔◌};

use sqlite_items::Items;
use std::marker::Model;

/// The most variables that are ever in scope.
pub const VARIABLES: usize = 32;

/// The values of the variables in scope, outermost first. Contracts see their list.
#[derive(Drop)]
pub struct Env {
    values: [u32; VARIABLES],
    len: u32,
}

impl Model for Env {
    ghost use Rattle.std.specs.Prelude.{List, ℕ, take, ◌≤◌};

    ghost Value = { List ℕ };

    ghost view = { λ e. take e.len e.values };

    ghost invariant = { λ e. e.len ≤ 32 };
}

impl Env {
    /// No variables.
    pub fn new() -> Env
        ensures { result ≡ [] }
    {
        Env {
            values: [0; VARIABLES],
            len: 0,
        }
    }

    pub fn len(&self) -> u32
        ensures count { result ≡ length self.now }
        ensures most { result ≤ 32 }
    {
        self.len
    }

    pub fn is_empty(&self) -> bool
        ensures { IsTrue result ↔ (self.now ≡ []) }
    {
        self.len == 0
    }

    /// The value of the variable in a place, 0 where there is none.
    pub fn value(&self, place: u32) -> u32
        ensures { result ≡ slice_index self.now place }
    {
        if place < self.len {
            self.values[place as usize]
        } else {
            0
        }
    }

    /// A further variable, innermost.
    pub fn push(&mut self, value: u32)
        requires { length self.old < 32 }
        ensures { self.new ≡ self.old ++ value ∷ [] }
    {
        self.values[self.len as usize] = value;
        self.len += 1;
    }

    /// The same variables and one more, innermost.
    pub fn with(&self, value: u32) -> Env
        requires { length self.now < 32 }
        ensures { result ≡ self.now ++ value ∷ [] }
    {
        let mut values = self.values;
        values[self.len as usize] = value;
        Env {
            values,
            len: self.len + 1,
        }
    }
}

/// The sorts of the variables in scope, outermost first, and whether post symbols may be read.
#[derive(Drop)]
pub struct Scope {
    pub sorts: Items<u32>,
    pub post: bool,
}
