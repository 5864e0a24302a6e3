//! The cubes of a template: short rising lists of literals.
ghost use Rattle.std.specs.Prelude.{◌≡◌, ℕ, ◌+◌, ◌*◌, ◌-◌, ◌<◌, ◌≤◌, ◌++◌, ◌∷◌, map, length, replicate, take, slice_get, slice_index_or, unwrap_or, [], IfOk, IfErr, OnOk, Some};
ghost use Rattle.std.specs.List.{range_with_len};
ghost use Rattle.sw_meaning.specs.Classes.{choices};
ghost use Rattle.sw_meaning.specs.Classes.{cubes_of};
ghost use Rattle.sw_template.specs.Counts.{capped, row_after, cubes_count, cubes_up_to, most_in};
ghost use Rattle.sw_cover.specs.Counting.{binomial};
ghost use Rattle.sw_template.specs.Limits.{RefusesCubes};
ghost use Rattle.sw_template.specs.Lits.{IsPadded, lits_of};

use crate::capped::capped_sum;
use crate::errors::{CUBES, CubesError};
use crate::literals::Literals;
use sqlite_items::Items;
use std::alloc::{AllocError, Global};
use std::marker::Model;
use sw_meaning::Template;

/// The literals of a cube in rising order, then zeros.
#[derive(Clone, Copy, PartialEq, Eq)]
pub struct CubeLits {
    pub literals: [u32; 6],
    pub len: u32,
}

/// The cubes of a template in order. Contracts see the lists of their literals.
#[derive(Drop)]
pub struct Cubes {
    cubes: Items<CubeLits>,
}

impl Model for Cubes {
    ghost use Rattle.std.specs.Prelude.{List, ℕ, map, take, length, ◌≤◌};
    ghost use Rattle.std.specs.List.{AllByRecursion};
    ghost use Rattle.sw_template.specs.Lits.{IsPadded};

    ghost Value = { List (List ℕ) };

    ghost view = { λ c. map (λ l. take l.len l.literals) c.cubes };

    ghost invariant = { λ c. (length c.cubes ≤ 1048576) × AllByRecursion IsPadded c.cubes };
}

impl Cubes {
    pub fn new(alloc: Global, template: &Template, literals: &Literals) -> Result<Cubes, CubesError>
        requires most { template.now.literals ≤ 6 }
        ensures ok { IfOk result (λ c. c ≡ cubes_of (2 * length literals.now) template.now) }
        ensures within { IfOk result (λ c. length c ≤ 1048576) }
        ensures refused { IfErr result (RefusesCubes (length (cubes_of (2 * length literals.now) template.now))) }
    {
        let all = 2 * literals.count();
        let most = most_of(template);
        let n = count_cubes(all, most);
        if n > CUBES as u128 {
            return Err(CubesError::CubesOver { n });
        }
        let Ok(cubes) = list_cubes(alloc, all, most) else {
            return Err(CubesError::Memory);
        };
        Ok(Cubes { cubes })
    }

    /// The number of cubes.
    pub fn count(&self) -> u32
        ensures count { result ≡ length self.now }
        ensures most { result ≤ 1048576 }
    {
        self.cubes.len() as u32
    }

    /// The literals of a cube.
    pub fn literals_in(&self, cube: u32) -> CubeLits
        requires { cube < length self.now }
        ensures literals { take result.len result.literals ≡ unwrap_or (slice_get self.now cube) [] }
        ensures padded { result.literals ≡ take result.len result.literals ++ replicate (6 - result.len) 0 }
        ensures most { result.len ≤ 6 }
    {
        *self.cubes.get(cube as usize).unwrap()
    }
}

/// The most literals of a cube.
fn most_of(template: &Template) -> u32
    requires { template.now.literals ≤ 6 }
    ensures is { result ≡ most_in template.now }
    ensures most { result ≤ 6 }
{
    if template.depth == 1 {
        1
    } else {
        template.literals
    }
}

/// The number of lists of at most so many of the literals.
fn count_cubes(literals: u32, most: u32) -> u128
    requires { most ≤ 6 }
    ensures { result ≡ capped (cubes_count literals most) }
{
    let counts = choice_counts(literals);
    let mut count = 0;
    for n in 0..most {
        count = capped_sum(count, counts[n as usize + 1]);
    }
    count
}

/// How many lists of each length up to six there are of the literals.
fn choice_counts(literals: u32) -> [u128; 7]
    ensures { (n : ℕ) → n < 7 → slice_index_or result n 0 ≡ capped (binomial literals n) }
{
    let mut counts = [1, 0, 0, 0, 0, 0, 0];
    for _ in 0..literals {
        counts = counts_with(&counts);
    }
    counts
}

/// The counts with one more literal.
fn counts_with(counts: &[u128; 7]) -> [u128; 7]
    requires { (n : ℕ) → n < 7 → slice_index_or counts.now n 0 ≤ 18446744073709551616 }
    ensures { (n : ℕ) → n < 7 → slice_index_or result n 0 ≡ row_after counts.now n }
{
    let mut next = *counts;
    for n in 0..6 {
        next[n + 1] = capped_sum(counts[n], counts[n + 1]);
    }
    next
}

/// The lists of at most so many of the literals.
fn list_cubes(alloc: Global, literals: u32, most: u32) -> Result<Items<CubeLits>, AllocError>
    requires { most ≤ 6 }
    ensures { IfOk result (λ cs. cs ≡ map lits_of (cubes_up_to literals most)) }
{
    let mut cubes = Items::new(alloc);
    for n in 0..most {
        let none = CubeLits {
            literals: [0; 6],
            len: 0,
        };
        push_choices(&mut cubes, &none, n + 1, 0, literals)?;
    }
    Ok(cubes)
}

/// Adds the chosen literals with each choice of so many later ones.
fn push_choices(
    cubes: &mut Items<CubeLits>,
    chosen: &CubeLits,
    left: u32,
    from: u32,
    end: u32,
) -> Result<(), AllocError>
    requires padded { IsPadded chosen.now }
    requires room { chosen.now.len + left ≤ 6 }
    requires order { from ≤ end }
    ensures { OnOk result (cubes.new ≡ cubes.old ++ map (λ c. lits_of (take chosen.now.len chosen.now.literals ++ c)) (choices left (range_with_len from (end - from)))) }
{
    if left == 0 {
        cubes.push(*chosen)?;
        return Ok(());
    }
    if from == end {
        return Ok(());
    }
    let with = with_literal(chosen, from);
    push_choices(cubes, &with, left - 1, from + 1, end)?;
    push_choices(cubes, chosen, left, from + 1, end)?;
    Ok(())
}

/// The chosen literals and one more.
fn with_literal(chosen: &CubeLits, literal: u32) -> CubeLits
    requires padded { IsPadded chosen.now }
    requires room { chosen.now.len < 6 }
    ensures { result ≡ lits_of (take chosen.now.len chosen.now.literals ++ literal ∷ []) }
{
    let mut next = *chosen;
    next.literals[chosen.len as usize] = literal;
    next.len += 1;
    next
}
