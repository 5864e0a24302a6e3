//! The variables of ground clauses, numbered as they come.
ghost use Rattle.std.specs.Prelude.{◌≡◌, ◌<◌, ◌+◌, ◌*◌, ◌++◌, ◌∷◌, [], ◌^◌, ℕ, List, length, IfOk, OnOk, Contains, Some};
ghost use Rattle.sw_logic.specs.Truth.{args_of};
ghost use Rattle.sw_truth.specs.declared.instances.Atom.TheVariants.{Holds, Equal, Inner};
ghost use Rattle.sw_truth.specs.declared.sets.SkolemSet.{SkolemSet};
ghost use Rattle.sw_universe.specs.declared.universe.Universe.{Universe};
ghost use Rattle.sw_truth.specs.Models.{AreOfSorts};
ghost use Rattle.sw_universe.specs.ByNumber.{counts, term_at, terms_at, IsTerm, AreDistinct, AreApart};
ghost use Rattle.sw_instances.specs.Named.{Name, related, equated, inner, plain};
ghost use Rattle.sw_ground.specs.Indexed.{IsNumbering, Numbers, Looked};

use crate::table::Table;
use sqlite_items::Items;
use std::alloc::{AllocError, Global};
use sw_logic::Signature;
use sw_numbers::place;
use sw_refute::Lit;
use sw_truth::Atom;

/// What each variable stands for, and the variable of each ground atom that has one.
#[derive(Drop)]
pub struct Numbering {
    pub table: Table,
    pub atoms: Items<Atom>,
}

/// The group of the equalities of a sort, behind those of the symbols.
fn equality_group(signature: &Signature, sort: u32) -> Result<u32, AllocError>
    ensures { IfOk result (λ group. group ≡ length signature.now.symbols + sort) }
{
    match u32::try_from(signature.symbols.len()) {
        Ok(symbols) => match symbols.checked_add(sort) {
            Some(group) => Ok(group),
            None => Err(AllocError),
        },
        Err(_) => Err(AllocError),
    }
}

/// The literal of a variable.
fn positive(variable: u32) -> Result<Lit, AllocError>
    ensures { IfOk result (λ lit. lit.0 ≡ 2 * variable) }
{
    match variable.checked_mul(2) {
        Some(number) => Ok(Lit(number)),
        None => Err(AllocError),
    }
}

impl Numbering {
    pub fn new(alloc: Global) -> Numbering
        ensures { (set : SkolemSet) (u : Universe) → IsNumbering set u result.table result.atoms [] }
    {
        Numbering {
            table: Table::new(alloc),
            atoms: Items::new(alloc),
        }
    }

    /// A new variable, below 2^31.
    fn add(&mut self, atom: Atom) -> Result<u32, AllocError>
        ensures table { self.new.table ≡ self.old.table }
        ensures atoms { OnOk result (self.new.atoms ≡ self.old.atoms ++ atom ∷ []) }
        ensures number { IfOk result (λ v. (v ≡ length self.old.atoms) × (v < 2 ^ 31)) }
    {
        let variable = self.atoms.len();
        if variable >= 1 << 31 {
            return Err(AllocError);
        }
        self.atoms.push(atom)?;
        Ok(variable as u32)
    }

    /// The new variable of an inner part.
    pub fn inner(&mut self) -> Result<Lit, AllocError>
        ensures { IfOk result (λ lit. (set : SkolemSet) (u : Universe) (names : List Name) (path : List ℕ) →
            IsNumbering set u self.old.table self.old.atoms names → (Contains names (inner path) → ⊥) → Numbers set u self.new.table self.new.atoms names (plain (inner path)) lit) }
    {
        let variable = self.add(Atom::Inner)?;
        positive(variable)
    }

    /// The variable of an atom at a spot, a new one where it has none.
    fn at(&mut self, group: u32, place: u64, atom: Atom) -> Result<Lit, AllocError>
        ensures { IfOk result (Looked self.old.table self.old.atoms group place atom self.new.table self.new.atoms) }
    {
        if let Some(variable) = self.table.get(group, place) {
            return positive(variable);
        }
        let variable = self.add(atom)?;
        self.table.put(group, place, variable)?;
        positive(variable)
    }

    /// The variable of an equality.
    pub fn equated(
        &mut self,
        signature: &Signature,
        sizes: &[u32],
        sort: u32,
        t: u32,
        u: u32,
    ) -> Result<Lit, AllocError>
        ensures { IfOk result (λ lit. (set : SkolemSet) (un : Universe) (names : List Name) → set.signature ≡ signature.now → sizes.now ≡ counts un → AreDistinct un → AreApart un
            → IsNumbering set un self.old.table self.old.atoms names → IsTerm un sort t → IsTerm un sort u
            → Numbers set un self.new.table self.new.atoms names (plain (equated (term_at un sort t) (term_at un sort u))) lit) }
    {
        let group = equality_group(signature, sort)?;
        let Some(spot) = place(sizes, &[sort, sort], &[t, u]) else {
            return Err(AllocError);
        };
        self.at(group, spot, Atom::Equal { sort, t, u })
    }

    /// The variable of a relation at ground terms.
    pub fn related(
        &mut self,
        signature: &Signature,
        sizes: &[u32],
        symbol: u32,
        numbers: Items<u32>,
    ) -> Result<Lit, AllocError>
        ensures { IfOk result (λ lit. (set : SkolemSet) (u : Universe) (names : List Name) → set.signature ≡ signature.now → sizes.now ≡ counts u → AreDistinct u
            → IsNumbering set u self.old.table self.old.atoms names → AreOfSorts (counts u) (args_of signature.now symbol) numbers
            → Numbers set u self.new.table self.new.atoms names (plain (related symbol (terms_at u (args_of signature.now symbol) numbers))) lit) }
    {
        let Some(named) = signature.symbols.get(symbol as usize) else {
            return Err(AllocError);
        };
        let Some(spot) = place(sizes, named.args.as_slice(), numbers.as_slice()) else {
            return Err(AllocError);
        };
        self.at(
            symbol,
            spot,
            Atom::Holds {
                symbol,
                terms: numbers,
            },
        )
    }
}
