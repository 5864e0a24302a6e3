//! The edges of a signature and of formulas.
ghost use Rattle.std.specs.Prelude.{◌≡◌, ◌++◌, [], ◌∷◌, IfOk, map, not, if◌then◌else◌};
ghost use Rattle.std.specs.List.{flat_map};
ghost use Rattle.sw_logic.specs.declared.syntax.Binder.{Binder};
ghost use Rattle.sw_logic.specs.declared.syntax.Formula.{Formula};
ghost use Rattle.sw_logic.specs.declared.syntax.Symbol.{Symbol};
ghost use Rattle.sw_logic.specs.declared.query.Polar.{Polar};
ghost use Rattle.sw_logic.specs.Strata.{edge, edges_between, depended, symbol_edges, function_edges, sorts_of, formula_edges, edges_of};
ghost use Rattle.sw_strata.specs.Edges.{edges_in, sorts_below, edges_to, scope_below};

use sqlite_items::Items;
use std::alloc::{AllocError, Global};
use sw_logic::{Binder, Edge, Formula, Polar, Signature, SymbolKind};
use sw_truth::occurs;

/// Puts an edge to each of the sorts at the end.
fn put_edges(edges: &mut Items<Edge>, from: u32, to: &[u32]) -> Result<(), AllocError>
    ensures { IfOk result (λ u. edges.new ≡ edges.old ++ map (edge from) to.now) }
{
    for sort in to {
        edges.push(Edge { from, to: *sort })?;
    }
    Ok(())
}

/// An edge from each of the one sorts to each of the others.
fn between(alloc: Global, from: &[u32], to: &[u32]) -> Result<Items<Edge>, AllocError>
    ensures { IfOk result (λ es. es ≡ edges_between from.now to.now) }
{
    let mut edges = Items::new(alloc);
    for sort in from {
        put_edges(&mut edges, *sort, to)?;
    }
    Ok(edges)
}

fn binder_sorts(alloc: Global, binders: &[Binder]) -> Result<Items<u32>, AllocError>
    ensures { IfOk result (λ sorts. sorts ≡ sorts_of binders.now) }
{
    let mut sorts = Items::new(alloc);
    for binder in binders {
        sorts.push(binder.sort)?;
    }
    Ok(sorts)
}

/// The sorts of universal variables on which each variable in scope depends.
#[derive(Drop)]
struct Scope {
    sorts: Items<Items<u32>>,
}

/// What stands below a quantifier: edges to its variables, and the scope.
#[derive(Drop)]
struct Below {
    edges: Items<Edge>,
    scope: Scope,
}

impl Scope {
    fn copy(&self, alloc: Global) -> Result<Items<Items<u32>>, AllocError>
        ensures { IfOk result (λ sorts. sorts ≡ self.now.sorts) }
    {
        let mut sorts = Items::new(alloc);
        for list in self.sorts.as_slice() {
            sorts.push(Items::from_slice(alloc, list.as_slice())?)?;
        }
        Ok(sorts)
    }

    /// The sorts on which a formula depends.
    fn depended(&self, alloc: Global, formula: &Formula) -> Result<Items<u32>, AllocError>
        ensures { IfOk result (λ sorts. sorts ≡ sorts_below self.now.sorts formula.now) }
    {
        let mut sorts = Items::new(alloc);
        for (variable, list) in self.sorts.as_slice().iter().enumerate() {
            let Ok(variable) = u32::try_from(variable) else {
                return Err(AllocError);
            };
            if occurs(variable, formula) {
                sorts.append(Items::from_slice(alloc, list.as_slice())?)?;
            }
        }
        Ok(sorts)
    }

    fn universal(&self, alloc: Global, binders: &[Binder]) -> Result<Scope, AllocError>
        ensures { IfOk result (λ scope. scope.sorts ≡ self.now.sorts ++ map (λ b. b.sort ∷ []) binders.now) }
    {
        let mut sorts = self.copy(alloc)?;
        for binder in binders {
            let mut one = Items::new(alloc);
            one.push(binder.sort)?;
            sorts.push(one)?;
        }
        Ok(Scope { sorts })
    }

    fn existential(
        &self,
        alloc: Global,
        binders: &[Binder],
        depended: &[u32],
    ) -> Result<Scope, AllocError>
        ensures { IfOk result (λ scope. scope.sorts ≡ self.now.sorts ++ map (λ b. depended.now) binders.now) }
    {
        let mut sorts = self.copy(alloc)?;
        for _binder in binders {
            sorts.push(Items::from_slice(alloc, depended)?)?;
        }
        Ok(Scope { sorts })
    }

    fn below(
        &self,
        alloc: Global,
        universal: bool,
        binders: &[Binder],
        formula: &Formula,
    ) -> Result<Below, AllocError>
        ensures { IfOk result (λ below. (below.edges ≡ edges_to self.now.sorts universal binders.now formula.now) × (below.scope.sorts ≡ scope_below self.now.sorts universal binders.now formula.now)) }
    {
        if universal {
            return Ok(Below {
                edges: Items::new(alloc),
                scope: self.universal(alloc, binders)?,
            });
        }
        let depended = self.depended(alloc, formula)?;
        let to = binder_sorts(alloc, binders)?;
        Ok(Below {
            edges: between(alloc, depended.as_slice(), to.as_slice())?,
            scope: self.existential(alloc, binders, depended.as_slice())?,
        })
    }

    #[cycle(edges)]
    fn edges(
        &self,
        alloc: Global,
        formula: &Formula,
        positive: bool,
    ) -> Result<Items<Edge>, AllocError>
        ensures { IfOk result (λ es. es ≡ edges_in formula.now positive self.now.sorts) }
    {
        match formula {
            Formula::True | Formula::False | Formula::Holds { .. } | Formula::Equal(_, _) => {
                Ok(Items::new(alloc))
            }
            Formula::Not(part) => self.edges(alloc, part.get(), !positive),
            Formula::All(parts) => self.all_edges(alloc, parts.as_slice(), positive),
            Formula::Any(parts) => self.all_edges(alloc, parts.as_slice(), positive),
            Formula::Implies(a, b) => {
                let mut edges = self.edges(alloc, a.get(), !positive)?;
                let more = self.edges(alloc, b.get(), positive)?;
                edges.append(more)?;
                Ok(edges)
            }
            Formula::Iff(a, b) => {
                let mut edges = self.edges(alloc, a.get(), true)?;
                let second = self.edges(alloc, a.get(), false)?;
                let mut more = self.edges(alloc, b.get(), true)?;
                let last = self.edges(alloc, b.get(), false)?;
                edges.append(second)?;
                more.append(last)?;
                edges.append(more)?;
                Ok(edges)
            }
            Formula::ForAll(binders, part) => {
                let Below { mut edges, scope } = self.below(
                    alloc,
                    positive,
                    binders.as_slice(),
                    part.get(),
                )?;
                let more = scope.edges(alloc, part.get(), positive)?;
                edges.append(more)?;
                Ok(edges)
            }
            Formula::Exists(binders, part) => {
                let Below { mut edges, scope } = self.below(
                    alloc,
                    !positive,
                    binders.as_slice(),
                    part.get(),
                )?;
                let more = scope.edges(alloc, part.get(), positive)?;
                edges.append(more)?;
                Ok(edges)
            }
        }
    }

    #[cycle(edges)]
    fn all_edges(
        &self,
        alloc: Global,
        parts: &[Formula],
        positive: bool,
    ) -> Result<Items<Edge>, AllocError>
        ensures { IfOk result (λ es. es ≡ flat_map (λ (f : Formula). edges_in f positive self.now.sorts) parts.now) }
    {
        let mut edges = Items::new(alloc);
        for part in parts {
            let more = self.edges(alloc, part, positive)?;
            edges.append(more)?;
        }
        Ok(edges)
    }
}

fn of_functions(alloc: Global, sig: &Signature) -> Result<Items<Edge>, AllocError>
    ensures { IfOk result (λ es. es ≡ function_edges sig.now.symbols) }
{
    let mut edges = Items::new(alloc);
    for symbol in sig.symbols.as_slice() {
        if let SymbolKind::Function = symbol.kind {
            let mut to = Items::new(alloc);
            to.push(symbol.gives)?;
            let more = between(alloc, symbol.args.as_slice(), to.as_slice())?;
            edges.append(more)?;
        }
    }
    Ok(edges)
}

/// All edges of a signature and formulas.
pub fn all_edges(
    alloc: Global,
    sig: &Signature,
    formulas: &[Polar],
) -> Result<Items<Edge>, AllocError>
    ensures { IfOk result (λ es. es ≡ edges_of sig.now formulas.now) }
{
    let mut edges = of_functions(alloc, sig)?;
    for asserted in formulas {
        let scope = Scope {
            sorts: Items::new(alloc),
        };
        let more = scope.edges(alloc, &asserted.formula, asserted.positive)?;
        edges.append(more)?;
    }
    Ok(edges)
}
