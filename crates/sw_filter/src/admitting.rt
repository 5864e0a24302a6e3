//! Which filters are what they say of the protocol.
ghost use Rattle.std.specs.Prelude.{◌≡◌, ◌↔◌, ◌≤◌, ℕ, IsTrue, SomeIff, length, slice_get, Contains};
ghost use Rattle.sw_logic.specs.Truth.{AreTrueIn, AreValues};
ghost use Rattle.sw_meaning.specs.Runs.{Start, Fires};
ghost use Rattle.sw_meaning.specs.WellFormed.{IsTransition, IsWellFormed};
ghost use Rattle.sw_filter.specs.Filters.{IsStepBy, IsAdmitted};

use crate::filter::Filter;
use crate::live::are_true;
use std::marker::Model;
use sw_logic::{Binder, Env, Pair, Structure, Table, fits, fits_pair, holds_pair, size_at};
use sw_meaning::{Protocol, Transition};

/// A filter that `admit` accepted. Contracts see the filter.
#[derive(Drop)]
pub struct Admitted<'a> {
    filter: &'a Filter,
}

impl<'a> Model for Admitted<'a> {
    ghost use Rattle.sw_filter.specs.declared.filter.Filter.{Filter as Kept};

    ghost Value = { Kept };

    ghost view = { λ a. a.filter.now };
}

impl<'a> Admitted<'a> {
    pub fn filter(&self) -> &'a Filter
        ensures { result.now ≡ self.now }
    {
        self.filter
    }
}

/// Whether the values are of the binders: one for each, below the size of its sort.
fn are_values(sizes: &[u32], binders: &[Binder], values: &[u32]) -> bool
    ensures { IsTrue result ↔ AreValues sizes.now binders.now values.now }
{
    if binders.len() != values.len() {
        return false;
    }
    for (i, binder) in binders.iter().enumerate() {
        if values[i] >= size_at(sizes, binder.sort) {
            return false;
        }
    }
    true
}

fn is_listed(numbers: &[u32], number: usize) -> bool
    ensures { IsTrue result ↔ Contains numbers.now number }
{
    numbers.iter().any(|n| *n as usize == number)
}

fn are_same(table: &Table, other: &Table) -> bool
    ensures { IsTrue result ↔ (table.now ≡ other.now) }
{
    match (table, other) {
        (Table::Bits(bits), Table::Bits(others)) => bits.as_slice() == others.as_slice(),
        (Table::Value(value), Table::Value(other)) => value == other,
        (Table::Values(values), Table::Values(others)) => values.as_slice() == others.as_slice(),
        _ => false,
    }
}

/// Whether the tables of the numbers that are not listed are the same.
fn others_stay(modifies: &[u32], before: &[Table], after: &[Table]) -> bool
    requires { length before.now ≡ length after.now }
    ensures { IsTrue result ↔ ((symbol : ℕ) → (Contains modifies.now symbol → ⊥) → slice_get before.now symbol ≡ slice_get after.now symbol) }
{
    for symbol in 0..before.len() {
        if !is_listed(modifies, symbol) && !are_same(&before[symbol], &after[symbol]) {
            return false;
        }
    }
    true
}

/// The values as those of the variables in scope.
fn env_of(values: &[u32]) -> Env
    requires { length values.now ≤ 32 }
    ensures { result ≡ values.now }
{
    let mut env = Env::new();
    for value in values {
        env.push(*value);
    }
    env
}

fn fires(protocol: &Protocol, transition: &Transition, args: &[u32], pair: &Pair) -> bool
    requires transition { IsTransition protocol.now.signature transition.now }
    requires tables { length pair.now.before.tables ≡ length pair.now.after.tables }
    ensures { IsTrue result ↔ Fires protocol.now transition.now args.now pair.now }
{
    let sizes = pair.before.sizes.as_slice();
    let before = pair.before.tables.as_slice();
    let after = pair.after.tables.as_slice();
    if !are_values(sizes, transition.params.as_slice(), args) {
        return false;
    }
    others_stay(transition.modifies.as_slice(), before, after)
        && holds_pair(
            &protocol.signature,
            pair,
            &transition.formula,
            &env_of(args),
        )
}

fn is_step(protocol: &Protocol, number: u32, args: &[u32], pair: &Pair) -> bool
    requires { IsWellFormed protocol.now }
    ensures { IsTrue result ↔ IsStepBy protocol.now number args.now pair.now }
{
    let sig = &protocol.signature;
    let Some(transition) = protocol.transitions.as_slice().get(number as usize) else {
        return false;
    };
    if !fits_pair(sig, pair) {
        return false;
    }
    are_true(sig, &pair.before, protocol.axioms.as_slice())
        && fires(protocol, transition, args, pair)
}

fn is_start(protocol: &Protocol, structure: &Structure) -> bool
    requires { IsWellFormed protocol.now }
    ensures { IsTrue result ↔ Start protocol.now structure.now }
{
    let sig = &protocol.signature;
    fits(sig, structure)
        && are_true(sig, structure, protocol.axioms.as_slice())
        && are_true(sig, structure, protocol.inits.as_slice())
}

fn is_admitted(protocol: &Protocol, filter: &Filter) -> bool
    requires { IsWellFormed protocol.now }
    ensures { IsTrue result ↔ IsAdmitted protocol.now filter.now }
{
    match filter {
        Filter::Start { structure } => is_start(protocol, structure),
        Filter::Move {
            pair,
            transition,
            args,
            under: _,
        } => { is_step(protocol, *transition, args.as_slice(), pair) }
        Filter::Bad {
            pair,
            transition,
            args,
            under: _,
        } => {
            is_step(protocol, *transition, args.as_slice(), pair)
                && !are_true(
                    &protocol.signature,
                    &pair.after,
                    protocol.safeties.as_slice(),
                )
        }
    }
}

/// The filter, where it is what it says of the protocol: a start, a step of its transition with its
/// arguments, or such a step whose last state violates safety.
pub fn admit<'a>(protocol: &Protocol, filter: &'a Filter) -> Option<Admitted<'a>>
    requires { IsWellFormed protocol.now }
    ensures { SomeIff result (IsAdmitted protocol.now filter.now) filter.now }
{
    if is_admitted(protocol, filter) {
        Some(Admitted { filter })
    } else {
        None
    }
}
