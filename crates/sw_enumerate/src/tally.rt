//! How many classes there are, by counting the bodies cube by cube.
ghost use Rattle.std.specs.Prelude.{◌≡◌, ℕ, ◌+◌, ◌-◌, ◌<◌, ◌≤◌, ◌^◌, length, slice_index_or};
ghost use Rattle.sw_meaning.specs.Classes.{classes_of};
ghost use Rattle.sw_enumerate.specs.Walk.{AreSmall, rests, summed};

use crate::walk::size_in;
use sw_template::Cubes;

/// The number of classes of at most so many literals.
pub fn count_classes(cubes: &Cubes, literals: u32) -> u128
    requires few { length cubes.now ≤ 1048576 }
    requires small { AreSmall cubes.now }
    requires most { literals ≤ 6 }
    ensures { result ≡ length (classes_of literals cubes.now) }
{
    let counts = body_counts(cubes);
    let mut all: u128 = 0;
    for n in 0..literals {
        all += counts[n as usize + 1];
    }
    all
}

/// How many bodies there are of each number of literals up to six.
fn body_counts(cubes: &Cubes) -> [u128; 7]
    requires few { length cubes.now ≤ 1048576 }
    requires small { AreSmall cubes.now }
    ensures are { (n : ℕ) → n < 7 → slice_index_or result n 0 ≡ length (rests cubes.now 0 n) }
    ensures most { (n : ℕ) → n < 7 → slice_index_or result n 0 ≤ 1048577 ^ 6 }
{
    let mut counts = [1, 0, 0, 0, 0, 0, 0];
    let total = cubes.count();
    for k in 0..total {
        counts = counts_before(&counts, size_in(cubes, total - 1 - k));
    }
    counts
}

/// The counts with one more cube of a size before the others.
fn counts_before(counts: &[u128; 7], size: u32) -> [u128; 7]
    requires some { 0 < size }
    requires most { (n : ℕ) → n < 7 → slice_index_or counts.now n 0 ≤ 1048577 ^ 6 }
    ensures { (n : ℕ) → n < 7 → slice_index_or result n 0 ≡ summed size counts.now n }
{
    let mut next = *counts;
    for n in 0..7 {
        next[n] = with_one_more(counts, size, n);
    }
    next
}

/// How many bodies of n literals there are with one more cube of a size before the others.
fn with_one_more(counts: &[u128; 7], size: u32, n: usize) -> u128
    requires some { 0 < size }
    requires n { n < 7 }
    requires most { (m : ℕ) → m < 7 → slice_index_or counts.now m 0 ≤ 1048577 ^ 6 }
    ensures { result ≡ summed size counts.now n }
{
    if size as usize <= n {
        counts[n - size as usize] + counts[n]
    } else {
        counts[n]
    }
}
