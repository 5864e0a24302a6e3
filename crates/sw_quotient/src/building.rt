//! The quotient of the ground terms by their equality under an assignment.
ghost use Rattle.std.specs.Prelude.{◌≡◌, ◌++◌, [], IfOk, length, map, true};
ghost use Rattle.std.specs.List.{range_with_len, position_or_len};
ghost use Rattle.sw_logic.specs.Signatures.{is_signature};
ghost use Rattle.sw_logic.specs.Strata.{IsStratified};
ghost use Rattle.sw_universe.specs.GroundTerms.{universe_of};
ghost use Rattle.sw_quotient.specs.Terms.{held, number};
ghost use Rattle.sw_quotient.specs.Valuations.{valuation};
ghost use Rattle.sw_quotient.specs.Classes.{leasts, class_of};
ghost use Rattle.sw_quotient.specs.Told.{told};
ghost use Rattle.sw_quotient.specs.Tables.{AreLeasts, row, tabulate, table_of, tables_from, IsStructureOf};

use crate::reading::TrueAtoms;
use sqlite_items::Items;
use std::alloc::{AllocError, Global};
use sw_logic::{Structure, Symbol, SymbolKind, Table};
use sw_numbers::Terms;
use sw_truth::{Ground, SkolemSet};
use sw_universe::Universe;

/// The terms of the sort that no lesser one equals.
fn least_terms(
    alloc: Global,
    truths: &TrueAtoms,
    sort: u32,
    count: u32,
) -> Result<Items<u32>, AllocError>
    ensures { IfOk result (λ terms. terms ≡ leasts (told truths.now) sort count) }
{
    let mut terms = Items::new(alloc);
    for t in 0..count {
        if truths.is_least(sort, t) {
            terms.push(t)?;
        }
    }
    Ok(terms)
}

/// The place of the first of the terms that equals this one.
fn place_among(truths: &TrueAtoms, sort: u32, terms: &[u32], t: u32) -> usize
    ensures { let v = told truths.now in result ≡ position_or_len (λ l. v.equal sort l t) terms.now }
{
    for (place, term) in terms.iter().enumerate() {
        if truths.equal(sort, *term, t) {
            return place;
        }
    }
    terms.len()
}

/// What the tables are made of: the true atoms, the ground terms, and the least terms of each sort.
#[derive(Clone, Copy)]
struct Making<'a> {
    truths: &'a TrueAtoms,
    terms: &'a Terms<'a>,
    leasts: &'a Items<Items<u32>>,
}

impl Making<'_> {
    /// The bits of a relation at the terms that begin so, in order.
    fn fill_bits(
        &self,
        alloc: Global,
        symbol: u32,
        sorts: &[u32],
        front: &[u32],
        bits: &mut Items<bool>,
    ) -> Result<(), AllocError>
        ensures { let v = told self.now.truths.now in IfOk result (λ done. bits.new ≡ bits.old ++ tabulate (row self.now.leasts.now) sorts.now (λ ts. v.holds symbol (front.now ++ ts))) }
    {
        let [sort, rest @ ..] = sorts else {
            let bit = self.truths.holds(alloc, symbol, front)?;
            return bits.push(bit);
        };
        let Some(terms) = self.leasts.get(*sort as usize) else {
            return Ok(());
        };
        for t in terms.as_slice() {
            let mut more = Items::from_slice(alloc, front)?;
            more.push(*t)?;
            self.fill_bits(alloc, symbol, rest, more.as_slice(), bits)?;
        }
        Ok(())
    }

    /// The class of a term.
    fn class(&self, sort: u32, t: u32) -> Result<u32, AllocError>
        requires { AreLeasts (told self.now.truths.now) self.now.terms.now.counts self.now.leasts.now }
        ensures { IfOk result (λ class. class ≡ class_of (told self.now.truths.now) self.now.terms.now.counts sort t) }
    {
        let Some(terms) = self.leasts.get(sort as usize) else {
            return Err(AllocError);
        };
        let place = place_among(self.truths, sort, terms.as_slice(), t);
        match u32::try_from(place) {
            Ok(class) => Ok(class),
            Err(_) => Err(AllocError),
        }
    }

    /// The class of the application of a symbol to these terms.
    fn value(&self, symbol: u32, gives: u32, terms: &[u32]) -> Result<u32, AllocError>
        requires { AreLeasts (told self.now.truths.now) self.now.terms.now.counts self.now.leasts.now }
        ensures { IfOk result (λ class. class ≡ class_of (told self.now.truths.now) self.now.terms.now.counts gives (number self.now.terms.now.signature.now (held self.now.terms.now) symbol terms.now)) }
    {
        let Some(number) = self.terms.applied(symbol, terms) else {
            return Err(AllocError);
        };
        self.class(gives, number)
    }

    /// The values of a function at the terms that begin so, in order.
    fn fill_values(
        &self,
        alloc: Global,
        symbol: u32,
        gives: u32,
        sorts: &[u32],
        front: &[u32],
        values: &mut Items<u32>,
    ) -> Result<(), AllocError>
        requires { AreLeasts (told self.now.truths.now) self.now.terms.now.counts self.now.leasts.now }
        ensures { let v = told self.now.truths.now in let t = self.now.terms.now in IfOk result (λ done. values.new ≡ values.old ++ tabulate (row self.now.leasts.now) sorts.now (λ ts. class_of v t.counts gives (number t.signature.now (held t) symbol (front.now ++ ts)))) }
    {
        let [sort, rest @ ..] = sorts else {
            let value = self.value(symbol, gives, front)?;
            values.push(value)?;
            return Ok(());
        };
        let Some(terms) = self.leasts.get(*sort as usize) else {
            return Ok(());
        };
        for t in terms.as_slice() {
            let mut more = Items::from_slice(alloc, front)?;
            more.push(*t)?;
            self.fill_values(alloc, symbol, gives, rest, more.as_slice(), values)?;
        }
        Ok(())
    }

    /// The table of a symbol.
    fn table(&self, alloc: Global, symbol: u32, x: &Symbol) -> Result<Table, AllocError>
        requires { AreLeasts (told self.now.truths.now) self.now.terms.now.counts self.now.leasts.now }
        ensures { let t = self.now.terms.now in IfOk result (λ table. table ≡ table_of (row self.now.leasts.now) t.signature.now (held t) (told self.now.truths.now) symbol x.now.args x.now.gives x.now.kind) }
    {
        match x.kind {
            SymbolKind::Relation => {
                let mut bits = Items::new(alloc);
                self.fill_bits(alloc, symbol, x.args.as_slice(), &[], &mut bits)?;
                Ok(Table::Bits(bits))
            }
            SymbolKind::Constant => {
                let value = self.value(symbol, x.gives, &[])?;
                Ok(Table::Value(value))
            }
            SymbolKind::Function => {
                let mut values = Items::new(alloc);
                self.fill_values(alloc, symbol, x.gives, x.args.as_slice(), &[], &mut values)?;
                Ok(Table::Values(values))
            }
        }
    }

    /// The tables of the symbols.
    fn tables(&self, alloc: Global, symbols: &[Symbol]) -> Result<Items<Table>, AllocError>
        requires { AreLeasts (told self.now.truths.now) self.now.terms.now.counts self.now.leasts.now }
        ensures { let t = self.now.terms.now in IfOk result (λ tables. tables ≡ tables_from t.signature.now (held t) (told self.now.truths.now) 0 symbols.now) }
    {
        let mut tables = Items::new(alloc);
        for (i, x) in symbols.iter().enumerate() {
            let Ok(symbol) = u32::try_from(i) else {
                return Err(AllocError);
            };
            let table = self.table(alloc, symbol, x)?;
            tables.push(table)?;
        }
        Ok(tables)
    }
}

/// The least terms of each sort, of which there are so many.
fn all_least_terms(
    alloc: Global,
    truths: &TrueAtoms,
    counts: &[u32],
) -> Result<Items<Items<u32>>, AllocError>
    ensures { IfOk result (λ lists. AreLeasts (told truths.now) counts.now lists) }
{
    let mut lists = Items::new(alloc);
    for (i, count) in counts.iter().enumerate() {
        let Ok(sort) = u32::try_from(i) else {
            return Err(AllocError);
        };
        let terms = least_terms(alloc, truths, sort, *count)?;
        lists.push(terms)?;
    }
    Ok(lists)
}

/// How many terms are listed for each of the sorts.
fn sizes_of(
    alloc: Global,
    lists: &Items<Items<u32>>,
    sorts: usize,
) -> Result<Items<u32>, AllocError>
    ensures { IfOk result (λ sizes. sizes ≡ map (λ sort. length (row lists.now sort)) (range_with_len 0 sorts)) }
{
    let mut sizes = Items::new(alloc);
    for sort in 0..sorts {
        let len = match lists.get(sort) {
            Some(terms) => terms.len(),
            None => 0,
        };
        let Ok(size) = u32::try_from(len) else {
            return Err(AllocError);
        };
        sizes.push(size)?;
    }
    Ok(sizes)
}

/// The structure of the least terms of each class of terms that are equal under an assignment. The
/// assignment has a value for each atom; an atom that is not among them is false.
pub fn structure_of(
    alloc: Global,
    set: &SkolemSet,
    universe: &Universe,
    ground: &Ground,
    assignment: &[bool],
) -> Result<Structure, AllocError>
    requires signature { is_signature set.now.signature ≡ true }
    requires strata { IsStratified set.now.signature }
    requires universe { universe.now.lists ≡ universe_of set.now.signature }
    requires values { length assignment.now ≡ length ground.now.atoms }
    ensures { IfOk result (IsStructureOf set.now universe.now (valuation ground.now.atoms assignment.now)) }
{
    let terms = Terms::new(alloc, &set.signature, universe)?;
    let truths = TrueAtoms::new(alloc, ground.atoms.as_slice(), assignment)?;
    let leasts = all_least_terms(alloc, &truths, terms.counts.as_slice())?;
    let sizes = sizes_of(alloc, &leasts, set.signature.sorts.len())?;
    let making = Making {
        truths: &truths,
        terms: &terms,
        leasts: &leasts,
    };
    let tables = making.tables(alloc, set.signature.symbols.as_slice())?;
    Ok(Structure { sizes, tables })
}
