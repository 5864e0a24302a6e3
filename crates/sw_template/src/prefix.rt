//! The edges between sorts that a template's prefix gives.
ghost use Rattle.std.specs.Prelude.{◌≡◌, ◌++◌, ◌∷◌, [], cond, not, IfOk, OnOk};
ghost use Rattle.sw_logic.specs.Strata.{edge};
ghost use Rattle.sw_meaning.specs.Space.{same_quantifier};
ghost use Rattle.sw_template.specs.Edges.{edges_to, edges_along, template_edges};

use sqlite_items::Items;
use std::alloc::{AllocError, Global};
use sw_logic::Edge;
use sw_meaning::{Run, Template};

/// Whether two runs have different quantifiers.
fn differ(run: &Run, other: &Run) -> bool
    ensures { result ≡ not (same_quantifier run.now.universal other.now.universal) }
{
    match (run.universal, other.universal) {
        (true, other) => !other,
        (false, other) => other,
    }
}

/// Adds the edge from a run to a later one of the other quantifier.
fn push_edge(edges: &mut Items<Edge>, run: &Run, other: &Run) -> Result<(), AllocError>
    ensures { OnOk result (edges.new ≡ edges.old ++ cond (not (same_quantifier run.now.universal other.now.universal)) (edge run.now.sort other.now.sort ∷ []) []) }
{
    if !differ(run, other) {
        return Ok(());
    }
    edges.push(Edge {
        from: run.sort,
        to: other.sort,
    })?;
    Ok(())
}

/// Adds the edges from a run to the later ones.
fn push_edges_to(edges: &mut Items<Edge>, run: &Run, later: &[Run]) -> Result<(), AllocError>
    ensures { OnOk result (edges.new ≡ edges.old ++ edges_to run.now later.now) }
{
    for other in later {
        push_edge(edges, run, other)?;
    }
    Ok(())
}

/// Adds the edges from each run to the later ones.
fn push_edges(edges: &mut Items<Edge>, runs: &[Run]) -> Result<(), AllocError>
    ensures { OnOk result (edges.new ≡ edges.old ++ edges_along runs.now) }
{
    let [first, rest @ ..] = runs else {
        return Ok(());
    };
    push_edges_to(edges, first, rest)?;
    push_edges(edges, rest)?;
    Ok(())
}

/// An edge from each variable's sort to the sort of each later variable of the other quantifier,
/// once for the variables of a run.
pub fn edges(alloc: Global, template: &Template) -> Result<Items<Edge>, AllocError>
    ensures { IfOk result (λ es. es ≡ template_edges template.now) }
{
    let mut edges = Items::new(alloc);
    push_edges(&mut edges, template.prefix.as_slice())?;
    Ok(edges)
}
