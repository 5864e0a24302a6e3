//! A list of at most six numbers.
ghost use Rattle.std.specs.Prelude.{◌≡◌, ◌<◌, ◌≤◌, ◌++◌, ◌∷◌, [], length, take, slice_index};

use std::marker::Model;

/// The cubes that are picked so far. Contracts see their list.
#[derive(Drop)]
pub struct Picked {
    cubes: [u32; 6],
    len: usize,
}

impl Model for Picked {
    ghost use Rattle.std.specs.Prelude.{List, ℕ, take, ◌≤◌};

    ghost Value = { List ℕ };

    ghost view = { λ p. take p.len p.cubes };

    ghost invariant = { λ p. p.len ≤ 6 };
}

impl Picked {
    pub fn new() -> Picked
        ensures { result ≡ [] }
    {
        Picked {
            cubes: [0; 6],
            len: 0,
        }
    }

    pub fn len(&self) -> usize
        ensures count { result ≡ length self.now }
        ensures most { result ≤ 6 }
    {
        self.len
    }

    pub fn push(&mut self, cube: u32)
        requires { length self.old < 6 }
        ensures { self.new ≡ self.old ++ cube ∷ [] }
    {
        self.cubes[self.len] = cube;
        self.len += 1;
    }

    pub fn truncate(&mut self, len: usize)
        requires { len ≤ length self.old }
        ensures { self.new ≡ take len self.old }
    {
        self.len = len;
    }

    pub fn get(&self, place: usize) -> u32
        requires { place < length self.now }
        ensures { result ≡ slice_index self.now place }
    {
        let cubes = self.as_slice();
        cubes[place]
    }

    pub fn as_slice(&self) -> &[u32]
        ensures { result.now ≡ self.now }
    {
        &self.cubes[..self.len]
    }
}
