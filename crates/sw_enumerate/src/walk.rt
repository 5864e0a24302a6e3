//! From a body to the next.
ghost use Rattle.std.specs.Prelude.{IsTrue, ◌↔◌, ◌≡◌, ℕ, ◌+◌, ◌-◌, ◌<◌, ◌≤◌, ◌++◌, length, take, drop, slice_get, slice_index_or, false, Contains, Some, IsSome, IsTrue, IfOk, is_some, List};
ghost use Rattle.sw_meaning.specs.Classes.{part_of, classes_of};
ghost use Rattle.sw_enumerate.specs.Walk.{size, first, after, AreSmall, Fits, Advanced, IsRest, stepped};

use crate::picked::Picked;
use std::alloc::{AllocError, Global};
use std::marker::Model;
use sw_template::Cubes;

/// The cubes of a space, and of which numbers of literals there are bodies of the last cubes: row k
/// is about the last k of them. Contracts see the cubes.
#[derive(Drop)]
pub struct Walk {
    cubes: Cubes,
    rows: Vec<[bool; 7]>,
}

impl Model for Walk {
    ghost use Rattle.std.specs.Prelude.{◌≡◌, List, ℕ, length, ◌+◌, ◌≤◌};
    ghost use Rattle.sw_enumerate.specs.Walk.{RowsAre, AreSmall};

    ghost Value = { List (List ℕ) };

    ghost view = { λ w. w.cubes };

    ghost invariant = { λ w. (length w.cubes ≤ 1048576) × AreSmall w.cubes × RowsAre w.cubes w.rows.items × (length w.rows.items ≡ length w.cubes + 1) };
}

impl Walk {
    pub fn new(alloc: Global, cubes: Cubes) -> Result<Walk, AllocError>
        requires few { length cubes ≤ 1048576 }
        requires small { AreSmall cubes }
        ensures { IfOk result (λ w. w ≡ cubes) }
    {
        let mut rows = Vec::new(alloc);
        let mut row = [true, false, false, false, false, false, false];
        rows.push(row)?;
        let total = cubes.count();
        for k in 0..total {
            row = row_before(&row, size_in(&cubes, total - 1 - k));
            rows.push(row)?;
        }
        Ok(Walk { cubes, rows })
    }

    /// The cubes.
    pub fn cubes(&self) -> &Cubes
        ensures { result.now ≡ self.now }
    {
        &self.cubes
    }

    /// The number of cubes.
    pub fn count(&self) -> u32
        ensures { result ≡ length self.now }
    {
        self.cubes.count()
    }

    /// The number after a cube's.
    pub fn next(&self, cube: u32) -> u32
        requires { cube < length self.now }
        ensures is { result ≡ cube + 1 }
        ensures within { result ≤ length self.now }
    {
        let _ = &self.cubes;
        cube + 1
    }

    /// How many literals a cube has.
    pub fn size(&self, cube: u32) -> u32
        requires { cube < length self.now }
        ensures is { result ≡ size self.now cube }
        ensures some { 0 < result }
        ensures most { result ≤ 6 }
    {
        size_in(&self.cubes, cube)
    }

    /// Whether there is a body of so many literals with cubes from this one on.
    pub fn reaches(&self, at: u32, left: u32) -> bool
        requires at { at ≤ length self.now }
        requires left { left ≤ 6 }
        ensures { result ≡ is_some (first self.now at left) }
    {
        let back = self.cubes.count() - at;
        self.rows[back as usize][left as usize]
    }

    /// Adds the first body of so many literals with cubes from this one on.
    pub fn complete(&self, picked: &mut Picked, from: u32, count: u32)
        requires from { from ≤ length self.now }
        requires some { IsSome (first self.now from count) }
        requires room { length picked.old + count ≤ 6 }
        ensures { (body : List ℕ) → first self.now from count ≡ Some body → picked.new ≡ picked.old ++ body }
    {
        let total = self.count();
        let mut at = from;
        let mut left = count;
        while left > 0 {
            let size = self.size(at);
            if size <= left && self.reaches(at + 1, left - size) {
                picked.push(at);
                left -= size;
            }
            at += 1;
        }
    }

    /// Puts the next body of so many literals in the place of the one that stands from a place on.
    pub fn advance(&self, picked: &mut Picked, place: usize, count: u32) -> bool
        requires place { place ≤ length picked.old }
        requires fits { Fits self.now count (drop place picked.old) }
        requires room { place + count ≤ 6 }
        ensures { Advanced picked.old place (after self.now count (drop place picked.old)) picked.new result }
    {
        if place == picked.len() {
            return false;
        }
        let cube = picked.get(place);
        if self.advance(picked, place + 1, count - self.size(cube)) {
            return true;
        }
        let next = self.next(cube);
        if !self.reaches(next, count) {
            return false;
        }
        picked.truncate(place);
        self.complete(picked, next, count);
        true
    }

    /// The first body of so many literals with this least cube.
    pub fn first_in(&self, count: u32, least: u32) -> Option<Picked>
        requires least { least < length self.now }
        requires some { 0 < count }
        requires most { count ≤ 6 }
        ensures { result ≡ slice_get (part_of self.now count least) 0 }
    {
        let size = self.size(least);
        if size > count {
            return None;
        }
        let next = self.next(least);
        if !self.reaches(next, count - size) {
            return None;
        }
        let mut picked = Picked::new();
        picked.push(least);
        self.complete(&mut picked, next, count - size);
        Some(picked)
    }

    /// The body after this one of as many literals and the same least cube.
    pub fn next_in(&self, count: u32, least: u32, body: &[u32]) -> Option<Picked>
        requires least { least < length self.now }
        requires some { 0 < count }
        requires most { count ≤ 6 }
        requires is { Contains (part_of self.now count least) body.now }
        ensures { (i : ℕ) → slice_get (part_of self.now count least) i ≡ Some body.now → result ≡ slice_get (part_of self.now count least) (i + 1) }
    {
        let _ = &self.cubes;
        let mut picked = picked_of(body);
        let left = count - self.size(least);
        if self.advance(&mut picked, 1, left) {
            Some(picked)
        } else {
            None
        }
    }
}

/// How many literals a cube has.
pub fn size_in(cubes: &Cubes, cube: u32) -> u32
    requires cube { cube < length cubes.now }
    requires small { AreSmall cubes.now }
    ensures is { result ≡ size cubes.now cube }
    ensures some { 0 < result }
    ensures most { result ≤ 6 }
{
    cubes.literals_in(cube).len
}

/// Whether there is a body of n literals, with one more cube of a size before the others.
fn with_one_more(row: &[bool; 7], size: u32, n: usize) -> bool
    requires size { 0 < size }
    requires n { n < 7 }
    ensures { result ≡ stepped size row.now n }
{
    if size as usize <= n && row[n - size as usize] {
        true
    } else {
        row[n]
    }
}

/// The row with one more cube of a size before the others.
fn row_before(row: &[bool; 7], size: u32) -> [bool; 7]
    requires { 0 < size }
    ensures { (n : ℕ) → n < 7 → slice_index_or result n false ≡ stepped size row.now n }
{
    let mut next = *row;
    for n in 0..7 {
        next[n] = with_one_more(row, size, n);
    }
    next
}

impl Walk {
    /// Whether a list is one of a class of at most so many literals.
    pub fn is_class(&self, body: &[u32], most: u32) -> bool
        requires { most ≤ 6 }
        ensures { IsTrue result ↔ Contains (classes_of most self.now) body.now }
    {
        let _ = &self.cubes;
        !body.is_empty() && self.is_rest(body, 0, 0, most)
    }

    /// Whether these are rising cubes from this one on that have room beside the literals before.
    fn is_rest(&self, rest: &[u32], from: u32, before: u32, most: u32) -> bool
        requires room { before ≤ most }
        requires most { most ≤ 6 }
        ensures { IsTrue result ↔ IsRest self.now from before most rest.now }
    {
        let [cube, later @ ..] = rest else {
            return true;
        };
        if *cube < from || *cube >= self.count() {
            return false;
        }
        let with = before + self.size(*cube);
        with <= most && self.is_rest(later, self.next(*cube), with, most)
    }
}

/// The same numbers, picked.
fn picked_of(body: &[u32]) -> Picked
    requires { length body.now ≤ 6 }
    ensures { result ≡ body.now }
{
    let mut picked = Picked::new();
    for cube in body {
        picked.push(*cube);
    }
    picked
}
