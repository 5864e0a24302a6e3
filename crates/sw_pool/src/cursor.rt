//! Which indexes of a pool a reader has read.
ghost use Rattle.std.specs.Prelude.{◌<◌, ◌↔◌, IsTrue, OnOk, OnErr, length};

use crate::pool::{Pool, Seen};
use std::alloc::{AllocError, Global};
use std::marker::Model;

/// Which indexes of a pool a reader has read. Contracts see a mark for each index; past the last mark
/// nothing is read.
#[derive(Drop)]
pub struct Cursor {
    marks: Vec<bool>,
    // All indexes below this one are read. Only the speed of a refresh depends on it.
    below: usize,
}

impl Model for Cursor {
    ghost use Rattle.std.specs.Prelude.{Bool, List};

    ghost Value = { List Bool };

    ghost view = { λ c. c.marks.items };
}

/// The first place from this one on that is not marked, or the first behind the marks.
fn first_unread(marks: &[bool], from: usize) -> usize {
    for place in from..marks.len() {
        if !marks[place] {
            return place;
        }
    }
    marks.len()
}

impl Cursor {
    ghost use Rattle.std.specs.Prelude.{◌≡◌};
    ghost use Rattle.sw_pool.specs.Pools.{index_of};
    ghost use Rattle.sw_pool.specs.Cursors.{IsRead, ReadsNone, ReadsSame, LeavesOthers};

    /// A cursor that has read nothing.
    pub fn new(alloc: Global) -> Cursor
        ensures { ReadsNone result }
    {
        Cursor {
            marks: Vec::new(alloc),
            below: 0,
        }
    }

    /// Marks the index of the token as read, as a worker does with what it published itself.
    pub fn note(&mut self, token: &Seen) -> Result<(), AllocError>
        ensures read { OnOk result (IsRead self.new (index_of token.now)) }
        ensures others { LeavesOthers (index_of token.now) self.old self.new }
        ensures memory { OnErr result (ReadsSame self.old self.new) }
    {
        let index = Pool::index(token) as usize;
        self.reach(index)?;
        self.marks[index] = true;
        self.below = first_unread(&self.marks, self.below);
        Ok(())
    }

    /// Makes marks up to that of the index.
    fn reach(&mut self, index: usize) -> Result<(), AllocError>
        ensures same { ReadsSame self.old self.new }
        ensures reached { OnOk result (index < length self.new) }
    {
        while self.marks.len() <= index {
            self.marks.push(false)?;
        }
        Ok(())
    }

    /// Whether the index is read.
    pub fn is_read(&self, index: usize) -> bool
        ensures { IsTrue result ↔ IsRead self.now index }
    {
        index < self.marks.len() && self.marks[index]
    }

    /// An index below which all are read.
    pub(crate) fn below(&self) -> usize {
        self.below
    }
}
