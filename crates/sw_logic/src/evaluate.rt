//! Truth in finite structures, by recursion on the formula.
ghost use Rattle.std.specs.Prelude.{◌≡◌, ◌+◌, ◌≤◌, length, map, min, ℕ, ◌^◌, ◌-◌};
ghost use Rattle.std.specs.List.{list_all, list_any};
ghost use Rattle.std.specs.Option.{option_copied};
ghost use Rattle.sw_logic.specs.Truth.{world, table_at, size_of, args_of, place, place_from, value_in, bit_in, value_of, values_of, truth, for_all, exists, binds, greatest};

use crate::structure::{Pair, Structure, Table};
use crate::syntax::{Binder, Formula, Signature, Term};
use crate::variables::Env;

/// A structure for plain symbols and one for primed ones, of one signature.
#[derive(Clone, Copy)]
struct World<'a> {
    signature: &'a Signature,
    before: &'a Structure,
    after: &'a Structure,
}

impl World<'_> {
    fn table(&self, symbol: u32, post: bool) -> Option<&Table>
        ensures { option_copied result ≡ table_at self.now.before.now self.now.after.now symbol post }
    {
        let structure = if post { self.after } else { self.before };
        structure.tables.get(symbol as usize)
    }

    fn size(&self, sort: u32) -> u32
        ensures { result ≡ size_of self.now.before.now.sizes sort }
    {
        match self.before.sizes.get(sort as usize) {
            Some(size) => *size,
            None => 0,
        }
    }

    #[cycle(term)]
    fn value(&self, term: &Term, env: &Env) -> u32
        ensures { result ≡ value_of (world self.now.signature.now self.now.before.now self.now.after.now) env.now term.now }
    {
        match term {
            Term::Variable(place) => env.value(*place),
            Term::Apply { symbol, post, args } => {
                let at = self.place(*symbol, args.as_slice(), env);
                match self.table(*symbol, *post) {
                    Some(table) => value_at(table, at),
                    None => 0,
                }
            }
        }
    }

    #[cycle(term)]
    fn place(&self, symbol: u32, args: &[Term], env: &Env) -> usize
        ensures { let w = world self.now.signature.now self.now.before.now self.now.after.now in result ≡ min (2 ^ 64 - 1) (place_from self.now.before.now.sizes 0 (args_of self.now.signature.now symbol) (values_of w env.now args.now)) }
    {
        let Some(symbol) = self.signature.symbols.get(symbol as usize) else {
            return 0;
        };
        let mut at: usize = 0;
        for (i, arg) in args.iter().enumerate() {
            let Some(sort) = symbol.args.get(i) else {
                return at;
            };
            at = at
                .saturating_mul(self.size(*sort) as usize)
                .saturating_add(self.value(arg, env) as usize);
        }
        at
    }

    fn bit(&self, symbol: u32, post: bool, args: &[Term], env: &Env) -> bool
        ensures { let w = world self.now.signature.now self.now.before.now self.now.after.now in result ≡ bit_in (table_at w.before w.after symbol post) (place w symbol (values_of w env.now args.now)) }
    {
        let at = self.place(symbol, args, env);
        match self.table(symbol, post) {
            Some(table) => bit_at(table, at),
            None => false,
        }
    }

    #[cycle(formula)]
    fn truth(&self, formula: &Formula, env: &Env) -> bool
        requires { length env.now + binds formula.now ≤ 32 }
        ensures { let w = world self.now.signature.now self.now.before.now self.now.after.now in result ≡ truth w formula.now env.now }
    {
        match formula {
            Formula::True => true,
            Formula::False => false,
            Formula::Holds { symbol, post, args } => self.bit(*symbol, *post, args.as_slice(), env),
            Formula::Equal(a, b) => self.value(a, env) == self.value(b, env),
            Formula::Not(part) => !self.truth(part.get(), env),
            Formula::All(parts) => self.all(parts.as_slice(), env),
            Formula::Any(parts) => self.any(parts.as_slice(), env),
            Formula::Implies(a, b) => !self.truth(a.get(), env) || self.truth(b.get(), env),
            Formula::Iff(a, b) => self.truth(a.get(), env) == self.truth(b.get(), env),
            Formula::ForAll(binders, part) => self.for_all(binders.as_slice(), part.get(), env),
            Formula::Exists(binders, part) => self.exists(binders.as_slice(), part.get(), env),
        }
    }

    #[cycle(formula)]
    fn all(&self, parts: &[Formula], env: &Env) -> bool
        requires { length env.now + greatest (map binds parts.now) ≤ 32 }
        ensures { let w = world self.now.signature.now self.now.before.now self.now.after.now in result ≡ list_all (λ p. truth w p env.now) parts.now }
    {
        for part in parts {
            if !self.truth(part, env) {
                return false;
            }
        }
        true
    }

    #[cycle(formula)]
    fn any(&self, parts: &[Formula], env: &Env) -> bool
        requires { length env.now + greatest (map binds parts.now) ≤ 32 }
        ensures { let w = world self.now.signature.now self.now.before.now self.now.after.now in result ≡ list_any (λ p. truth w p env.now) parts.now }
    {
        for part in parts {
            if self.truth(part, env) {
                return true;
            }
        }
        false
    }

    #[cycle(formula)]
    fn for_all(&self, binders: &[Binder], part: &Formula, env: &Env) -> bool
        requires { length env.now + (length binders.now + binds part.now) ≤ 32 }
        ensures { let w = world self.now.signature.now self.now.before.now self.now.after.now in result ≡ for_all w.before.sizes binders.now (truth w part.now) env.now }
    {
        let [binder, inner @ ..] = binders else {
            return self.truth(part, env);
        };
        for value in 0..self.size(binder.sort) {
            if !self.for_all(inner, part, &env.with(value)) {
                return false;
            }
        }
        true
    }

    #[cycle(formula)]
    fn exists(&self, binders: &[Binder], part: &Formula, env: &Env) -> bool
        requires { length env.now + (length binders.now + binds part.now) ≤ 32 }
        ensures { let w = world self.now.signature.now self.now.before.now self.now.after.now in result ≡ exists w.before.sizes binders.now (truth w part.now) env.now }
    {
        let [binder, inner @ ..] = binders else {
            return self.truth(part, env);
        };
        for value in 0..self.size(binder.sort) {
            if self.exists(inner, part, &env.with(value)) {
                return true;
            }
        }
        false
    }
}

/// What a table has at a place that stopped at the largest number.
fn value_at(table: &Table, at: usize) -> u32
    ensures { (place : ℕ) → at ≡ min (2 ^ 64 - 1) place → result ≡ value_in (Some table.now) place }
{
    match table {
        Table::Value(value) => *value,
        Table::Values(values) => {
            if at < values.len() {
                values.as_slice()[at]
            } else {
                0
            }
        }
        Table::Bits(_) => 0,
    }
}

/// What a table has at a place that stopped at the largest number.
fn bit_at(table: &Table, at: usize) -> bool
    ensures { (place : ℕ) → at ≡ min (2 ^ 64 - 1) place → result ≡ bit_in (Some table.now) place }
{
    match table {
        Table::Bits(bits) => at < bits.len() && bits.as_slice()[at],
        Table::Value(_) | Table::Values(_) => false,
    }
}

/// Whether a formula is true in a structure, which both plain and primed symbols read. A variable
/// past `env` is 0, a symbol with no table or no entry is 0 or false, and a sort with no size has no
/// values.
pub fn holds(sig: &Signature, structure: &Structure, formula: &Formula, env: &Env) -> bool
    requires { length env.now + binds formula.now ≤ 32 }
    ensures { result ≡ truth (world sig.now structure.now structure.now) formula.now env.now }
{
    let world = World {
        signature: sig,
        before: structure,
        after: structure,
    };
    world.truth(formula, env)
}

/// Whether a formula is true on a pair: plain symbols read `before` and primed ones `after`.
pub fn holds_pair(sig: &Signature, pair: &Pair, formula: &Formula, env: &Env) -> bool
    requires { length env.now + binds formula.now ≤ 32 }
    ensures { result ≡ truth (world sig.now pair.now.before pair.now.after) formula.now env.now }
{
    let world = World {
        signature: sig,
        before: &pair.before,
        after: &pair.after,
    };
    world.truth(formula, env)
}
