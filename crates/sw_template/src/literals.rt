//! The atoms of a template, as formulas over its variables.
ghost use Rattle.std.specs.Prelude.{◌≡◌, ◌<◌, ◌≤◌, ◌++◌, cond, [], true, false, map, length, slice_get, IfOk, IfErr, OnOk, Some};
ghost use Rattle.sw_logic.specs.declared.syntax.Formula.TheVariants.{Holds, Equal};
ghost use Rattle.sw_logic.specs.Signatures.{is_signature};
ghost use Rattle.sw_meaning.specs.Classes.{atoms, is_relation};
ghost use Rattle.sw_template.specs.Limits.{RefusesAtoms};
ghost use Rattle.sw_template.specs.Listing.{equalities, atoms_by, relations_at, tuples_at, table_of};
ghost use Rattle.sw_template.specs.Counts.{counts_told};
ghost use Rattle.sw_template.specs.Prefix.{variable_count};

use crate::counts::{count_atoms, first_counts, next_counts};
use crate::errors::{ATOMS, LiteralsError};
use crate::terms::{first_table, is_relation, next_table, scope_in, tuples_of};
use sqlite_items::Items;
use std::alloc::{AllocError, Global};
use std::marker::Model;
use sw_logic::{Formula, Signature, Symbol, Term, copy_term, copy_terms};
use sw_meaning::Template;

/// The atoms of a template in order. Contracts see their list; atom i gives literal 2i and its
/// negation 2i + 1.
#[derive(Drop)]
pub struct Literals {
    atoms: Items<Formula>,
}

impl Model for Literals {
    ghost use Rattle.std.specs.Prelude.{List, length, ◌≤◌};
    ghost use Rattle.sw_logic.specs.declared.syntax.Formula.{Formula};
    ghost use Rattle.sw_logic.specs.contracts.syntax.Formula as formula;
    ghost use Rattle.std.specs.Coded.{codes};

    ghost Value = { List Formula };

    ghost coded = { Prim.hlevel (codes, formula.the_row.coded) };

    ghost view = { λ l. l.atoms };

    ghost invariant = { λ l. length l.atoms ≤ 512 };
}

impl Literals {
    pub fn new(
        alloc: Global,
        template: &Template,
        sig: &Signature,
    ) -> Result<Literals, LiteralsError>
        requires signature { is_signature sig.now ≡ true }
        requires sorts { length sig.now.sorts < 4294967296 }
        requires symbols { length sig.now.symbols < 4294967296 }
        requires variables { variable_count template.now.prefix ≤ 6 }
        ensures ok { IfOk result (λ l. l ≡ atoms sig.now template.now) }
        ensures within { IfOk result (λ l. length l ≤ 512) }
        ensures refused { IfErr result (RefusesAtoms (length (atoms sig.now template.now))) }
    {
        let Ok(scope) = scope_in(alloc, template) else {
            return Err(LiteralsError::Memory);
        };
        let Ok(counts) = counts_up_to(alloc, sig, scope.as_slice(), template.terms) else {
            return Err(LiteralsError::Memory);
        };
        let n = count_atoms(sig, counts.as_slice());
        if n > ATOMS as u128 {
            return Err(LiteralsError::AtomsOver { n });
        }
        let Ok(table) = table_up_to(alloc, sig, scope.as_slice(), template.terms) else {
            return Err(LiteralsError::Memory);
        };
        let Ok(atoms) = atoms_of(alloc, sig, table.as_slice()) else {
            return Err(LiteralsError::Memory);
        };
        Ok(Literals { atoms })
    }

    /// The atom of a number.
    pub fn atom(&self, atom: u32) -> &Formula
        requires { atom < length self.now }
        ensures { slice_get self.now atom ≡ Some result.now }
    {
        self.atoms.get(atom as usize).unwrap()
    }

    /// The number of atoms.
    pub fn count(&self) -> u32
        ensures count { result ≡ length self.now }
        ensures most { result ≤ 512 }
    {
        self.atoms.len() as u32
    }
}

/// How many terms of each sort there are up to a depth.
fn counts_up_to(
    alloc: Global,
    sig: &Signature,
    scope: &[u32],
    depth: u32,
) -> Result<Items<u128>, AllocError>
    requires signature { is_signature sig.now ≡ true }
    requires sorts { length sig.now.sorts < 4294967296 }
    requires symbols { length sig.now.symbols < 4294967296 }
    requires scope { length scope.now < 4294967296 }
    ensures { IfOk result (λ ns. ns ≡ counts_told sig.now scope.now depth) }
{
    let table = first_table(alloc, sig, scope)?;
    let first = first_counts(alloc, table.as_slice())?;
    let mut counts = Items::from_slice(alloc, first.as_slice())?;
    for _ in 0..depth {
        counts = next_counts(alloc, sig, first.as_slice(), counts.as_slice())?;
    }
    Ok(counts)
}

/// The terms of each sort up to a depth.
fn table_up_to(
    alloc: Global,
    sig: &Signature,
    scope: &[u32],
    depth: u32,
) -> Result<Items<Items<Term>>, AllocError>
    requires signature { is_signature sig.now ≡ true }
    requires sorts { length sig.now.sorts < 4294967296 }
    requires symbols { length sig.now.symbols < 4294967296 }
    requires scope { length scope.now < 4294967296 }
    ensures { IfOk result (λ ts. ts ≡ table_of sig.now scope.now depth) }
{
    let mut table = first_table(alloc, sig, scope)?;
    for d in 0..depth {
        table = next_table(alloc, sig, d, table.as_slice())?;
    }
    Ok(table)
}

/// Adds the equalities of a term with each later one.
fn push_pairs(
    alloc: Global,
    atoms: &mut Items<Formula>,
    first: &Term,
    rest: &[Term],
) -> Result<(), AllocError>
    ensures { OnOk result (atoms.new ≡ atoms.old ++ map (Equal first.now) rest.now) }
{
    for later in rest {
        atoms.push(Formula::Equal(copy_term(alloc, first)?, copy_term(alloc, later)?))?;
    }
    Ok(())
}

/// Adds the equalities of each term with each later one.
fn push_equalities(
    alloc: Global,
    atoms: &mut Items<Formula>,
    terms: &[Term],
) -> Result<(), AllocError>
    ensures { OnOk result (atoms.new ≡ atoms.old ++ equalities terms.now) }
{
    let [first, rest @ ..] = terms else {
        return Ok(());
    };
    push_pairs(alloc, atoms, first, rest)?;
    push_equalities(alloc, atoms, rest)?;
    Ok(())
}

/// Adds a relation at each of the tuples.
fn push_relation(
    alloc: Global,
    atoms: &mut Items<Formula>,
    symbol: u32,
    tuples: &[Items<Term>],
) -> Result<(), AllocError>
    ensures { OnOk result (atoms.new ≡ atoms.old ++ map (Holds symbol false) tuples.now) }
{
    for tuple in tuples {
        atoms.push(Formula::Holds {
            symbol,
            post: false,
            args: copy_terms(alloc, tuple.as_slice())?,
        })?;
    }
    Ok(())
}

/// Adds a symbol that is a relation, at its tuples.
fn push_symbol(
    alloc: Global,
    atoms: &mut Items<Formula>,
    n: u32,
    symbol: &Symbol,
    table: &[Items<Term>],
) -> Result<(), AllocError>
    ensures { OnOk result (atoms.new ≡ atoms.old ++ cond (is_relation symbol.now.kind) (map (Holds n false) (tuples_at table.now symbol.now.args)) []) }
{
    if !is_relation(symbol) {
        return Ok(());
    }
    let tuples = tuples_of(alloc, table, symbol.args.as_slice())?;
    push_relation(alloc, atoms, n, tuples.as_slice())?;
    Ok(())
}

/// The atoms over the terms of a table.
fn atoms_of(
    alloc: Global,
    sig: &Signature,
    table: &[Items<Term>],
) -> Result<Items<Formula>, AllocError>
    requires symbols { length sig.now.symbols < 4294967296 }
    ensures { IfOk result (λ fs. fs ≡ atoms_by sig.now table.now) }
{
    let mut atoms = Items::new(alloc);
    for (n, symbol) in sig.symbols.as_slice().iter().enumerate() {
        push_symbol(alloc, &mut atoms, n as u32, symbol, table)?;
    }
    for terms in table {
        push_equalities(alloc, &mut atoms, terms.as_slice())?;
    }
    Ok(atoms)
}
