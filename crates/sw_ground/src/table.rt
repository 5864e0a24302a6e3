//! A table of the variables of ground atoms.
ghost use Rattle.std.specs.Prelude.{◌≡◌, OnOk};
ghost use Rattle.sw_ground.specs.Table.{variable_at, IsEmpty, Puts};

use std::alloc::{AllocError, Global};
use std::collections::HashMap;

/// The variable of each ground atom that has one, by the atom's group (its symbol, or its sort behind
/// all symbols) and the place of its terms among the tuples of their sorts.
#[derive(Drop)]
pub struct Table {
    map: HashMap<(u32, u64), u32>,
}

impl Table {
    pub fn new(alloc: Global) -> Table
        ensures { IsEmpty result }
    {
        Table {
            map: HashMap::new(alloc),
        }
    }

    pub fn get(&self, group: u32, place: u64) -> Option<u32>
        ensures { result ≡ variable_at self.now group place }
    {
        self.map.get(&(group, place)).copied()
    }

    pub fn put(&mut self, group: u32, place: u64, variable: u32) -> Result<(), AllocError>
        ensures { OnOk result (Puts self.old group place variable self.new) }
    {
        self.map.insert((group, place), variable)?;
        Ok(())
    }
}
