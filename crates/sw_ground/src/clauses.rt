//! The clauses of instances.
ghost use Rattle.std.specs.Prelude.{◌≡◌, true, IfOk, OnOk};
ghost use Rattle.sw_logic.specs.declared.syntax.SymbolKind.{SymbolKind};
ghost use Rattle.sw_logic.specs.declared.syntax.SymbolKind.TheVariants.{Relation};
ghost use Rattle.sw_logic.specs.Sorted.{gives_value};
ghost use Rattle.sw_truth.specs.declared.sets.SkolemSet.{SkolemSet};
ghost use Rattle.sw_truth.specs.declared.instances.Instance.TheVariants.{Reflexive, Symmetric, Transitive, Congruent};
ghost use Rattle.sw_instances.specs.Instances.{AreInstances};
ghost use Rattle.sw_instances.specs.Numbered.{IsGround};
ghost use Rattle.sw_ground.specs.Verdict.{IsPrepared};
ghost use Rattle.sw_ground.specs.Adding.{NumbersEqual, NumbersRelated, EmitsCarried, EmitsInstance};

use crate::builder::{Builder, Values, opposite};
use crate::numbering::Numbering;
use sqlite_items::Items;
use std::alloc::{AllocError, Global};
use sw_logic::SymbolKind;
use sw_numbers::Terms;
use sw_refute::{Cnf, Lit};
use sw_truth::{Ground, Instance, SkolemSet};
use sw_universe::Universe;

/// The literal of an equality of ground terms.
fn equal(terms: &Terms, sort: u32, t: u32, u: u32, builder: &mut Builder) -> Result<Lit, AllocError>
    ensures numbers { IfOk result (NumbersEqual terms.now.signature.now terms.now.counts terms.now.firsts
        builder.old.numbering.table builder.old.numbering.atoms builder.new.numbering.table builder.new.numbering.atoms sort t u) }
    ensures clauses { builder.new.clauses ≡ builder.old.clauses }
{
    builder
        .numbering
        .equated(terms.signature, terms.counts.as_slice(), sort, t, u)
}

/// The literal of a relation at ground terms.
fn related(
    terms: &Terms,
    symbol: u32,
    numbers: Items<u32>,
    builder: &mut Builder,
) -> Result<Lit, AllocError>
    ensures numbers { IfOk result (NumbersRelated terms.now.signature.now terms.now.counts terms.now.firsts
        builder.old.numbering.table builder.old.numbering.atoms builder.new.numbering.table builder.new.numbering.atoms symbol numbers) }
    ensures clauses { builder.new.clauses ≡ builder.old.clauses }
{
    builder
        .numbering
        .related(terms.signature, terms.counts.as_slice(), symbol, numbers)
}

/// The literal implies that the relation at the terms before implies it at those after.
fn carry_relation(
    alloc: Global,
    terms: &Terms,
    symbol: u32,
    same: Lit,
    before: Items<u32>,
    after: Items<u32>,
    builder: &mut Builder,
) -> Result<(), AllocError>
    ensures { OnOk result (EmitsCarried (λ (k : SymbolKind). k ≡ Relation) terms.now.signature.now terms.now.counts terms.now.firsts
        builder.old.numbering.table builder.old.numbering.atoms builder.old.clauses builder.new.numbering.table builder.new.numbering.atoms builder.new.clauses symbol before after same) }
{
    let from = related(terms, symbol, before, builder)?;
    let to = related(terms, symbol, after, builder)?;
    builder.push(alloc, &[opposite(same), opposite(from), to])
}

/// The literal implies that the values at the terms before and after are equal.
fn carry_value(
    alloc: Global,
    terms: &Terms,
    symbol: u32,
    same: Lit,
    before: &[u32],
    after: &[u32],
    builder: &mut Builder,
) -> Result<(), AllocError>
    ensures { OnOk result (EmitsCarried (λ (k : SymbolKind). gives_value k ≡ true) terms.now.signature.now terms.now.counts terms.now.firsts
        builder.old.numbering.table builder.old.numbering.atoms builder.old.clauses builder.new.numbering.table builder.new.numbering.atoms builder.new.clauses symbol before.now after.now same) }
{
    let Some(named) = terms.signature.symbols.get(symbol as usize) else {
        return Err(AllocError);
    };
    let Some(from) = terms.applied(symbol, before) else {
        return Err(AllocError);
    };
    let Some(to) = terms.applied(symbol, after) else {
        return Err(AllocError);
    };
    let given = equal(terms, named.gives, from, to, builder)?;
    builder.push(alloc, &[opposite(same), given])
}

/// terms[place] = u, and the symbol at the terms before and after.
fn congruent(
    alloc: Global,
    terms: &Terms,
    symbol: u32,
    place: u32,
    numbers: &Items<u32>,
    u: u32,
    builder: &mut Builder,
) -> Result<(), AllocError>
    ensures { OnOk result ((set : SkolemSet) → EmitsInstance set terms.now.signature.now terms.now.counts terms.now.firsts
        builder.old.numbering.table builder.old.numbering.atoms builder.old.clauses builder.new.numbering.table builder.new.numbering.atoms builder.new.clauses (Congruent symbol place numbers.now u)) }
{
    let at = place as usize;
    let Some(named) = terms.signature.symbols.get(symbol as usize) else {
        return Err(AllocError);
    };
    let Some(sort) = named.args.get(at) else {
        return Err(AllocError);
    };
    let Some(t) = numbers.get(at) else {
        return Err(AllocError);
    };
    let before = Items::from_slice(alloc, numbers.as_slice())?;
    let mut after = Items::from_slice(alloc, numbers.as_slice())?;
    after.set(at, u);
    let same = equal(terms, *sort, *t, u, builder)?;
    match named.kind {
        SymbolKind::Relation => {
            carry_relation(alloc, terms, symbol, same, before, after, builder)
        }
        SymbolKind::Constant => {
            carry_value(
                alloc,
                terms,
                symbol,
                same,
                before.as_slice(),
                after.as_slice(),
                builder,
            )
        }
        SymbolKind::Function => {
            carry_value(
                alloc,
                terms,
                symbol,
                same,
                before.as_slice(),
                after.as_slice(),
                builder,
            )
        }
    }
}

fn reflexive(
    alloc: Global,
    terms: &Terms,
    sort: u32,
    t: u32,
    builder: &mut Builder,
) -> Result<(), AllocError>
    ensures { OnOk result ((set : SkolemSet) → EmitsInstance set terms.now.signature.now terms.now.counts terms.now.firsts
        builder.old.numbering.table builder.old.numbering.atoms builder.old.clauses builder.new.numbering.table builder.new.numbering.atoms builder.new.clauses (Reflexive sort t)) }
{
    let same = equal(terms, sort, t, t, builder)?;
    builder.push(alloc, &[same])
}

fn symmetric(
    alloc: Global,
    terms: &Terms,
    sort: u32,
    t: u32,
    u: u32,
    builder: &mut Builder,
) -> Result<(), AllocError>
    ensures { OnOk result ((set : SkolemSet) → EmitsInstance set terms.now.signature.now terms.now.counts terms.now.firsts
        builder.old.numbering.table builder.old.numbering.atoms builder.old.clauses builder.new.numbering.table builder.new.numbering.atoms builder.new.clauses (Symmetric sort t u)) }
{
    let from = equal(terms, sort, t, u, builder)?;
    let to = equal(terms, sort, u, t, builder)?;
    builder.push(alloc, &[opposite(from), to])
}

fn transitive(
    alloc: Global,
    terms: &Terms,
    sort: u32,
    t: u32,
    u: u32,
    v: u32,
    builder: &mut Builder,
) -> Result<(), AllocError>
    ensures { OnOk result ((set : SkolemSet) → EmitsInstance set terms.now.signature.now terms.now.counts terms.now.firsts
        builder.old.numbering.table builder.old.numbering.atoms builder.old.clauses builder.new.numbering.table builder.new.numbering.atoms builder.new.clauses (Transitive sort t u v)) }
{
    let first = equal(terms, sort, t, u, builder)?;
    let second = equal(terms, sort, u, v, builder)?;
    let whole = equal(terms, sort, t, v, builder)?;
    builder.push(alloc, &[opposite(first), opposite(second), whole])
}

fn add(
    alloc: Global,
    set: &SkolemSet,
    terms: &Terms,
    instance: &Instance,
    builder: &mut Builder,
) -> Result<(), AllocError>
    ensures { OnOk result (EmitsInstance set.now terms.now.signature.now terms.now.counts terms.now.firsts
        builder.old.numbering.table builder.old.numbering.atoms builder.old.clauses builder.new.numbering.table builder.new.numbering.atoms builder.new.clauses instance.now) }
{
    match instance {
        Instance::Of {
            piece,
            terms: numbers,
        } => {
            let Some(named) = set.pieces.get(*piece as usize) else {
                return Err(AllocError);
            };
            let values = Values {
                sorts: named.vars.as_slice(),
                numbers: numbers.as_slice(),
            };
            builder.top(alloc, terms, &values, &named.matrix)
        }
        Instance::Reflexive { sort, t } => reflexive(alloc, terms, *sort, *t, builder),
        Instance::Symmetric { sort, t, u } => symmetric(alloc, terms, *sort, *t, *u, builder),
        Instance::Transitive { sort, t, u, v } => {
            transitive(alloc, terms, *sort, *t, *u, *v, builder)
        }
        Instance::Congruent {
            symbol,
            place,
            terms: numbers,
            u,
        } => congruent(alloc, terms, *symbol, *place, numbers, *u, builder),
    }
}

/// The clauses of the instances over numbered variables.
pub fn clauses_of(
    alloc: Global,
    set: &SkolemSet,
    universe: &Universe,
    instances: &Items<Instance>,
) -> Result<Ground, AllocError>
    requires set { IsPrepared set.now universe.now }
    requires instances { AreInstances set.now universe.now instances.now }
    ensures { IfOk result (IsGround set.now universe.now instances.now) }
{
    let terms = Terms::new(alloc, &set.signature, universe)?;
    let mut builder = Builder::new(alloc);
    for instance in instances.as_slice() {
        add(alloc, set, &terms, instance, &mut builder)?;
    }
    let Builder { numbering, clauses } = builder;
    let Numbering { table, atoms } = numbering;
    drop(table);
    let Ok(variables) = u32::try_from(atoms.len()) else {
        return Err(AllocError);
    };
    Ok(Ground {
        cnf: Cnf { variables, clauses },
        atoms,
    })
}
