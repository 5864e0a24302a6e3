//! Laws of a template's formulas: which edges they add, and how many variables they have in scope.
//! Functions with nothing to do, each with a law as its contract.
#![tactic(auto)]

ghost use Rattle.sw_template_laws.specs.Laws.{FormulasAddTheseEdges, FormulasBindFew};

/// What a formula of the template, or its negation, adds is among the template's edges.
pub fn formulas_add_these_edges()
    ensures { FormulasAddTheseEdges }
{}

/// In a formula of the template as many variables are in scope as the prefix has.
pub fn formulas_bind_few()
    ensures { FormulasBindFew }
{}
