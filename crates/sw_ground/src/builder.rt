//! The clauses of a matrix, with a new variable for each inner part.
ghost use Rattle.std.specs.Prelude.{◌≡◌, ◌==◌, ◌++◌, ◌∷◌, [], ℕ, List, IfOk, OnOk, map, true, false};
ghost use Rattle.sw_refute.specs.Satisfaction.{negation};
ghost use Rattle.sw_truth.specs.declared.sets.SkolemSet.{SkolemSet};
ghost use Rattle.sw_universe.specs.declared.universe.Universe.{Universe};
ghost use Rattle.sw_logic.specs.declared.syntax.Formula.{Formula};
ghost use Rattle.sw_logic.specs.declared.syntax.Formula.TheVariants.{Holds, Equal, Any};
ghost use Rattle.sw_refute.specs.declared.clauses.Lit.{Lit};
ghost use Rattle.sw_logic.specs.Terms.{put};
ghost use Rattle.sw_logic.specs.Sorted.{well_sorted};
ghost use Rattle.std.specs.List.{list_any};
ghost use Rattle.sw_universe.specs.ByNumber.{terms_at};
ghost use Rattle.sw_instances.specs.Named.{Name, related, equated, plain};
ghost use Rattle.sw_instances.specs.Matrix.{encoded};
ghost use Rattle.sw_instances.specs.Numbered.{once};
ghost use Rattle.sw_ground.specs.Indexed.{Numbers, IsNumbering};
ghost use Rattle.sw_ground.specs.Building.{IsAround, IsFree, AreLiterals, EmitsInside, EmitsInsides, EmitsTop, EmitsTops, EmitsSingle, clause_of};

use crate::numbering::Numbering;
use sqlite_items::{Items, at};
use std::alloc::{AllocError, Global};
use sw_logic::{Formula, Term};
use sw_numbers::Terms;
use sw_refute::{Clause, Lit};

/// The literal of the same variable with the other sign.
pub fn opposite(lit: Lit) -> Lit
    ensures { result ≡ negation lit }
{
    if lit.0 % 2 == 0 {
        Lit(lit.0 + 1)
    } else {
        Lit(lit.0 - 1)
    }
}

fn has(lits: &[Lit], lit: Lit) -> bool
    ensures { result ≡ list_any (λ (m : Lit). m.0 == lit.0) lits.now }
{
    lits.iter().any(|other| other.0 == lit.0)
}

/// Adds the literal, unless it is there.
pub fn push_once(lits: &mut Items<Lit>, lit: Lit) -> Result<(), AllocError>
    ensures { OnOk result ((ls : List Lit) → lits.old ≡ once ls → lits.new ≡ once (ls ++ lit ∷ [])) }
{
    if has(lits.as_slice(), lit) {
        return Ok(());
    }
    lits.push(lit)
}

/// The clauses so far, and what their variables stand for.
#[derive(Drop)]
pub struct Builder {
    pub numbering: Numbering,
    pub clauses: Items<Clause>,
}

/// A matrix's variables: their sorts, and the numbers of the ground terms in their place.
#[derive(Clone, Copy)]
pub struct Values<'a> {
    pub sorts: &'a [u32],
    pub numbers: &'a [u32],
}

impl Builder {
    pub fn new(alloc: Global) -> Builder
        ensures numbering { (set : SkolemSet) (u : Universe) → IsNumbering set u result.numbering.table result.numbering.atoms [] }
        ensures clauses { result.clauses ≡ [] }
    {
        Builder {
            numbering: Numbering::new(alloc),
            clauses: Items::new(alloc),
        }
    }

    pub fn push(&mut self, alloc: Global, lits: &[Lit]) -> Result<(), AllocError>
        ensures numbering { self.new.numbering ≡ self.old.numbering }
        ensures clauses { OnOk result (self.new.clauses ≡ self.old.clauses ++ record { lits = once lits.now } ∷ []) }
    {
        let mut kept = Items::new(alloc);
        for lit in lits {
            push_once(&mut kept, *lit)?;
        }
        self.clauses.push(Clause { lits: kept })
    }

    /// The literal of a relation at terms.
    fn related(
        &mut self,
        alloc: Global,
        terms: &Terms,
        values: &Values,
        symbol: u32,
        args: &[Term],
    ) -> Result<Lit, AllocError>
        ensures numbers { IfOk result (λ lit. (set : SkolemSet) (u : Universe) (names : List Name) → let sig = terms.now.signature.now in
            IsAround set u sig terms.now.counts terms.now.firsts values.now.sorts.now values.now.numbers.now
            → well_sorted sig false (Holds symbol false args.now) values.now.sorts.now ≡ true
            → IsNumbering set u self.old.numbering.table self.old.numbering.atoms names
            → Numbers set u self.new.numbering.table self.new.numbering.atoms names (plain (related symbol (map (put (terms_at u values.now.sorts.now values.now.numbers.now)) args.now))) lit) }
        ensures clauses { self.new.clauses ≡ self.old.clauses }
    {
        let numbers = terms.numbers(alloc, args, values.numbers)?;
        self.numbering
            .related(terms.signature, terms.counts.as_slice(), symbol, numbers)
    }

    /// The literal of an equality of terms.
    fn equated(
        &mut self,
        alloc: Global,
        terms: &Terms,
        values: &Values,
        a: &Term,
        b: &Term,
    ) -> Result<Lit, AllocError>
        ensures numbers { IfOk result (λ lit. (set : SkolemSet) (u : Universe) (names : List Name) → let sig = terms.now.signature.now in
            IsAround set u sig terms.now.counts terms.now.firsts values.now.sorts.now values.now.numbers.now
            → well_sorted sig false (Equal a.now b.now) values.now.sorts.now ≡ true
            → IsNumbering set u self.old.numbering.table self.old.numbering.atoms names
            → Numbers set u self.new.numbering.table self.new.numbering.atoms names (plain (equated (put (terms_at u values.now.sorts.now values.now.numbers.now) a.now) (put (terms_at u values.now.sorts.now values.now.numbers.now) b.now))) lit) }
        ensures clauses { self.new.clauses ≡ self.old.clauses }
    {
        let Some(sort) = terms.sort(a, values.sorts) else {
            return Err(AllocError);
        };
        let t = terms.number(alloc, a, values.numbers)?;
        let u = terms.number(alloc, b, values.numbers)?;
        self.numbering
            .equated(terms.signature, terms.counts.as_slice(), sort, t, u)
    }

    /// The literal of a part: its own, or a new variable.
    fn literal(
        &mut self,
        alloc: Global,
        terms: &Terms,
        values: &Values,
        part: &Formula,
    ) -> Result<Lit, AllocError>
        ensures numbers { IfOk result (λ lit. (set : SkolemSet) (u : Universe) (names : List Name) (path : List ℕ) → let sig = terms.now.signature.now in
            IsAround set u sig terms.now.counts terms.now.firsts values.now.sorts.now values.now.numbers.now
            → well_sorted sig false part.now values.now.sorts.now ≡ true
            → IsNumbering set u self.old.numbering.table self.old.numbering.atoms names → IsFree names path
            → Numbers set u self.new.numbering.table self.new.numbering.atoms names (encoded (terms_at u values.now.sorts.now values.now.numbers.now) part.now path).literal lit) }
        ensures clauses { self.new.clauses ≡ self.old.clauses }
    {
        match part {
            Formula::Holds { symbol, args, .. } => {
                self.related(alloc, terms, values, *symbol, args.as_slice())
            }
            Formula::Equal(a, b) => self.equated(alloc, terms, values, a, b),
            Formula::Not(part) => Ok(opposite(self.literal(alloc, terms, values, part.get())?)),
            Formula::True => self.numbering.inner(),
            Formula::False => self.numbering.inner(),
            Formula::All(_) => self.numbering.inner(),
            Formula::Any(_) => self.numbering.inner(),
            Formula::Implies(_, _) => self.numbering.inner(),
            Formula::Iff(_, _) => self.numbering.inner(),
            Formula::ForAll(_, _) => self.numbering.inner(),
            Formula::Exists(_, _) => self.numbering.inner(),
        }
    }

    /// The literals of parts in a row.
    fn literals(
        &mut self,
        alloc: Global,
        terms: &Terms,
        values: &Values,
        parts: &[Formula],
    ) -> Result<Items<Lit>, AllocError>
        ensures numbers { IfOk result (AreLiterals terms.now.signature.now terms.now.counts terms.now.firsts values.now.sorts.now values.now.numbers.now
            self.old.numbering.table self.old.numbering.atoms self.new.numbering.table self.new.numbering.atoms parts.now) }
        ensures clauses { self.new.clauses ≡ self.old.clauses }
    {
        let mut lits = Items::new(alloc);
        for part in parts {
            let lit = self.literal(alloc, terms, values, part)?;
            lits.push(lit)?;
        }
        Ok(lits)
    }

    /// What the literal of a conjunction implies: each part.
    fn push_each(&mut self, alloc: Global, lit: Lit, lits: &[Lit]) -> Result<(), AllocError>
        ensures numbering { self.new.numbering ≡ self.old.numbering }
        ensures clauses { OnOk result (self.new.clauses ≡ self.old.clauses ++ map (λ (m : Lit). clause_of (negation lit ∷ m ∷ [])) lits.now) }
    {
        for part in lits {
            self.push(alloc, &[opposite(lit), *part])?;
        }
        Ok(())
    }

    /// What the literal of a disjunction implies: some part.
    fn push_some(&mut self, alloc: Global, lit: Lit, lits: &[Lit]) -> Result<(), AllocError>
        ensures numbering { self.new.numbering ≡ self.old.numbering }
        ensures clauses { OnOk result (self.new.clauses ≡ self.old.clauses ++ clause_of (negation lit ∷ lits.now) ∷ []) }
    {
        let mut all = Items::new(alloc);
        all.push(opposite(lit))?;
        for part in lits {
            all.push(*part)?;
        }
        self.push(alloc, all.as_slice())
    }

    fn inside_all(
        &mut self,
        alloc: Global,
        terms: &Terms,
        values: &Values,
        parts: &[Formula],
        lit: Lit,
    ) -> Result<Items<Lit>, AllocError>
        ensures numbers { IfOk result (AreLiterals terms.now.signature.now terms.now.counts terms.now.firsts values.now.sorts.now values.now.numbers.now
            self.old.numbering.table self.old.numbering.atoms self.new.numbering.table self.new.numbering.atoms parts.now) }
        ensures clauses { IfOk result (λ lits. self.new.clauses ≡ self.old.clauses ++ map (λ (m : Lit). clause_of (negation lit ∷ m ∷ [])) lits) }
    {
        let lits = self.literals(alloc, terms, values, parts)?;
        self.push_each(alloc, lit, lits.as_slice())?;
        Ok(lits)
    }

    fn inside_any(
        &mut self,
        alloc: Global,
        terms: &Terms,
        values: &Values,
        parts: &[Formula],
        lit: Lit,
    ) -> Result<Items<Lit>, AllocError>
        ensures numbers { IfOk result (AreLiterals terms.now.signature.now terms.now.counts terms.now.firsts values.now.sorts.now values.now.numbers.now
            self.old.numbering.table self.old.numbering.atoms self.new.numbering.table self.new.numbering.atoms parts.now) }
        ensures clauses { IfOk result (λ lits. self.new.clauses ≡ self.old.clauses ++ clause_of (negation lit ∷ lits) ∷ []) }
    {
        let lits = self.literals(alloc, terms, values, parts)?;
        self.push_some(alloc, lit, lits.as_slice())?;
        Ok(lits)
    }

    /// The clauses that say what the literal of a part implies.
    #[cycle(inside)]
    fn inside(
        &mut self,
        alloc: Global,
        terms: &Terms,
        values: &Values,
        part: &Formula,
        lit: Lit,
    ) -> Result<(), AllocError>
        ensures { OnOk result (EmitsInside terms.now.signature.now terms.now.counts terms.now.firsts values.now.sorts.now values.now.numbers.now
            self.old.numbering.table self.old.numbering.atoms self.old.clauses self.new.numbering.table self.new.numbering.atoms self.new.clauses part.now lit) }
    {
        match part {
            Formula::True => Ok(()),
            Formula::False => self.push(alloc, &[opposite(lit)]),
            Formula::Holds { .. } => Ok(()),
            Formula::Equal(_, _) => Ok(()),
            Formula::Not(part) => self.inside(alloc, terms, values, part.get(), opposite(lit)),
            Formula::All(parts) => {
                let lits = self.inside_all(alloc, terms, values, parts.as_slice(), lit)?;
                self.insides(alloc, terms, values, parts.as_slice(), lits.as_slice())
            }
            Formula::Any(parts) => {
                let lits = self.inside_any(alloc, terms, values, parts.as_slice(), lit)?;
                self.insides(alloc, terms, values, parts.as_slice(), lits.as_slice())
            }
            Formula::Implies(_, _) => Ok(()),
            Formula::Iff(_, _) => Ok(()),
            Formula::ForAll(_, _) => Ok(()),
            Formula::Exists(_, _) => Ok(()),
        }
    }

    #[cycle(inside)]
    fn insides(
        &mut self,
        alloc: Global,
        terms: &Terms,
        values: &Values,
        parts: &[Formula],
        lits: &[Lit],
    ) -> Result<(), AllocError>
        ensures { OnOk result (EmitsInsides terms.now.signature.now terms.now.counts terms.now.firsts values.now.sorts.now values.now.numbers.now
            self.old.numbering.table self.old.numbering.atoms self.old.clauses self.new.numbering.table self.new.numbering.atoms self.new.clauses parts.now lits.now) }
    {
        for (i, part) in parts.iter().enumerate() {
            let Some(lit) = at(lits, i) else {
                return Err(AllocError);
            };
            self.inside(alloc, terms, values, part, *lit)?;
        }
        if lits.len() == parts.len() {
            Ok(())
        } else {
            Err(AllocError)
        }
    }

    /// The literal of a part as a clause, and what it implies.
    fn single(
        &mut self,
        alloc: Global,
        terms: &Terms,
        values: &Values,
        part: &Formula,
    ) -> Result<(), AllocError>
        ensures { OnOk result (EmitsSingle terms.now.signature.now terms.now.counts terms.now.firsts values.now.sorts.now values.now.numbers.now
            self.old.numbering.table self.old.numbering.atoms self.old.clauses self.new.numbering.table self.new.numbering.atoms self.new.clauses part.now) }
    {
        let lit = self.literal(alloc, terms, values, part)?;
        self.push(alloc, &[lit])?;
        self.inside(alloc, terms, values, part, lit)
    }

    /// The clauses of a disjunction at the top.
    fn disjunction(
        &mut self,
        alloc: Global,
        terms: &Terms,
        values: &Values,
        parts: &[Formula],
    ) -> Result<(), AllocError>
        ensures { OnOk result ((part : Formula) → part ≡ Any parts.now → EmitsTop terms.now.signature.now terms.now.counts terms.now.firsts values.now.sorts.now values.now.numbers.now
            self.old.numbering.table self.old.numbering.atoms self.old.clauses self.new.numbering.table self.new.numbering.atoms self.new.clauses part) }
    {
        let lits = self.literals(alloc, terms, values, parts)?;
        self.push(alloc, lits.as_slice())?;
        self.insides(alloc, terms, values, parts, lits.as_slice())
    }

    /// The clauses of a matrix at the top.
    #[cycle(top)]
    pub fn top(
        &mut self,
        alloc: Global,
        terms: &Terms,
        values: &Values,
        part: &Formula,
    ) -> Result<(), AllocError>
        ensures { OnOk result (EmitsTop terms.now.signature.now terms.now.counts terms.now.firsts values.now.sorts.now values.now.numbers.now
            self.old.numbering.table self.old.numbering.atoms self.old.clauses self.new.numbering.table self.new.numbering.atoms self.new.clauses part.now) }
    {
        match part {
            Formula::True => Ok(()),
            Formula::False => self.push(alloc, &[]),
            Formula::All(parts) => self.tops(alloc, terms, values, parts.as_slice()),
            Formula::Any(parts) => self.disjunction(alloc, terms, values, parts.as_slice()),
            Formula::Holds { .. } => self.single(alloc, terms, values, part),
            Formula::Equal(_, _) => self.single(alloc, terms, values, part),
            Formula::Not(_) => self.single(alloc, terms, values, part),
            Formula::Implies(_, _) => self.single(alloc, terms, values, part),
            Formula::Iff(_, _) => self.single(alloc, terms, values, part),
            Formula::ForAll(_, _) => self.single(alloc, terms, values, part),
            Formula::Exists(_, _) => self.single(alloc, terms, values, part),
        }
    }

    #[cycle(top)]
    fn tops(
        &mut self,
        alloc: Global,
        terms: &Terms,
        values: &Values,
        parts: &[Formula],
    ) -> Result<(), AllocError>
        ensures { OnOk result (EmitsTops terms.now.signature.now terms.now.counts terms.now.firsts values.now.sorts.now values.now.numbers.now
            self.old.numbering.table self.old.numbering.atoms self.old.clauses self.new.numbering.table self.new.numbering.atoms self.new.clauses parts.now) }
    {
        for part in parts {
            self.top(alloc, terms, values, part)?;
        }
        Ok(())
    }
}
