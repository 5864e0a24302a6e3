//! The edges between a protocol's sorts, and ranks that rise along them.
ghost use Rattle.std.specs.Prelude.{◌≡◌, ◌++◌, ◌∷◌, [], map, length, IfOk, MatchResult};
ghost use Rattle.std.specs.List.{flat_map};
ghost use Rattle.sw_logic.specs.Strata.{AreRanks, AreWithin};
ghost use Rattle.sw_meaning.specs.declared.protocol.Transition.{Transition};
ghost use Rattle.sw_meaning.specs.Edges.{asserted, denied, chosen, polars_of, protocol_edges};
ghost use Rattle.sw_meaning.specs.WellFormed.{IsWellFormed};
ghost use Rattle.sw_strata.specs.Answers.{IsStrataFault};

use sqlite_items::{Boxed, Items};
use std::alloc::{AllocError, Global};
use sw_logic::{Edge, Formula, Polar, copy_binders, copy_formula};
use sw_meaning::{Protocol, Transition};
use sw_strata::{StrataError, edges_are_within, strata};

/// Adds copies of the formulas, asserted.
fn push_asserted(
    alloc: Global,
    polars: &mut Items<Polar>,
    formulas: &[Formula],
) -> Result<(), AllocError>
    ensures { IfOk result (λ _. polars.new ≡ polars.old ++ map asserted formulas.now) }
{
    for formula in formulas {
        polars.push(Polar {
            formula: copy_formula(alloc, formula)?,
            positive: true,
        })?;
    }
    Ok(())
}

/// The transition's formula, under a choice of its parameters.
fn chosen(alloc: Global, transition: &Transition) -> Result<Formula, AllocError>
    ensures { IfOk result (λ f. f ≡ chosen transition.now) }
{
    let params = copy_binders(alloc, transition.params.as_slice())?;
    let part = Boxed::new(alloc, copy_formula(alloc, &transition.formula)?)?;
    Ok(Formula::Exists(params, part))
}

/// Adds the transitions, each under a choice of its parameters.
fn push_chosen(
    alloc: Global,
    polars: &mut Items<Polar>,
    transitions: &[Transition],
) -> Result<(), AllocError>
    ensures { IfOk result (λ _. polars.new ≡ polars.old ++ map (λ (t : Transition). asserted (chosen t)) transitions.now) }
{
    for transition in transitions {
        polars.push(Polar {
            formula: chosen(alloc, transition)?,
            positive: true,
        })?;
    }
    Ok(())
}

/// Adds copies of the formulas, each asserted and denied.
fn push_both(
    alloc: Global,
    polars: &mut Items<Polar>,
    formulas: &[Formula],
) -> Result<(), AllocError>
    ensures { IfOk result (λ _. polars.new ≡ polars.old ++ flat_map (λ f. asserted f ∷ denied f ∷ []) formulas.now) }
{
    for formula in formulas {
        polars.push(Polar {
            formula: copy_formula(alloc, formula)?,
            positive: true,
        })?;
        polars.push(Polar {
            formula: copy_formula(alloc, formula)?,
            positive: false,
        })?;
    }
    Ok(())
}

/// The formulas that are asserted of the protocol's states and steps, or denied.
fn polars_of(alloc: Global, protocol: &Protocol) -> Result<Items<Polar>, AllocError>
    ensures { IfOk result (λ ps. ps ≡ polars_of protocol.now) }
{
    let mut polars = Items::new(alloc);
    push_asserted(alloc, &mut polars, protocol.axioms.as_slice())?;
    push_asserted(alloc, &mut polars, protocol.inits.as_slice())?;
    push_chosen(alloc, &mut polars, protocol.transitions.as_slice())?;
    push_both(alloc, &mut polars, protocol.safeties.as_slice())?;
    Ok(polars)
}

/// A rank for each sort that rises along each edge of the protocol and along those given beside;
/// `Cycle` exactly where they have a cycle, with the first declared sort that lies on one.
pub fn strata_with(
    alloc: Global,
    protocol: &Protocol,
    extra: &Items<Edge>,
) -> Result<Items<u32>, StrataError>
    requires well_formed { IsWellFormed protocol.now }
    requires within { AreWithin (length protocol.now.signature.sorts) extra.now }
    ensures { let edges = protocol_edges protocol.now ++ extra.now in MatchResult result (AreRanks (length protocol.now.signature.sorts) edges) (IsStrataFault edges) }
{
    edges_are_within();
    let polars = polars_of(alloc, protocol)?;
    strata(alloc, &protocol.signature, &polars, extra)
}
