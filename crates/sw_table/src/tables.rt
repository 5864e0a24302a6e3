//! Names in the order in which they were added, and the first place of each by look-up.
ghost use Rattle.std.specs.Prelude.{◌≡◌, [], ◌∷◌, ◌++◌, OnOk, OnErr, MatchOption};
ghost use Rattle.std.specs.List.{position, list_any};
ghost use Rattle.std.specs.Str.{bytes_eq};

use crate::places::{put, take};
use sqlite_items::Items;
use std::alloc::{AllocError, Global};
use std::collections::BTreeMap;
use std::marker::Model;
use sw_logic::Name;

/// A list of names. Contracts see their bytes.
#[derive(Drop)]
pub struct Table {
    names: Items<Name>,
    places: BTreeMap<Vec<u8>, usize>,
}

impl Model for Table {
    ghost use Rattle.std.specs.Prelude.{List, ℕ};
    ghost use Rattle.sw_table.specs.Firsts.{HasFirsts};

    ghost Value = { List (List ℕ) };

    ghost view = { λ t. t.names };

    ghost invariant = { λ t. HasFirsts t.names t.places };
}

impl Table {
    pub fn new(alloc: Global) -> Table
        ensures { result ≡ [] }
    {
        Table {
            names: Items::new(alloc),
            places: BTreeMap::new(alloc),
        }
    }

    /// The first place of the name.
    pub fn find(&self, name: &[u8]) -> Option<usize>
        ensures { result ≡ position (bytes_eq name.now) self.now }
    {
        self.places.get(name).copied()
    }

    /// Whether the name is there.
    pub fn has(&self, name: &[u8]) -> bool
        ensures { result ≡ list_any (bytes_eq name.now) self.now }
    {
        self.find(name).is_some()
    }

    /// Adds the name at the end. After an error the table is as before.
    pub fn push(&mut self, alloc: Global, name: Name) -> Result<(), AllocError>
        ensures added { OnOk result (self.new ≡ self.old ++ name ∷ []) }
        ensures kept { OnErr result (self.new ≡ self.old) }
    {
        let bytes = Vec::from_slice(alloc, name.as_str().as_bytes())?;
        let place = self.names.len();
        self.names.push(name)?;
        if put(&mut self.places, bytes, place).is_err() {
            self.names.pop();
            return Err(AllocError);
        }
        Ok(())
    }

    /// Takes the last name away.
    pub fn pop(&mut self) -> Option<Name>
        ensures { MatchOption result ((self.old ≡ []) × (self.new ≡ [])) (λ last. self.old ≡ self.new ++ last ∷ []) }
    {
        let Some(name) = self.names.pop() else {
            return None;
        };
        take(&mut self.places, name.as_str().as_bytes(), self.names.len());
        Some(name)
    }
}
