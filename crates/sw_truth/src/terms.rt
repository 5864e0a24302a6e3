//! Which variables occur.
ghost use Rattle.std.specs.Prelude.{◌≡◌};
ghost use Rattle.std.specs.List.{list_any};
ghost use Rattle.sw_logic.specs.Terms.{has, occurs};

use sw_logic::{Formula, Term};

/// Whether a variable occurs in a term.
#[cycle(terms)]
pub fn has(variable: u32, term: &Term) -> bool
    ensures { result ≡ has variable term.now }
{
    match term {
        Term::Variable(place) => *place == variable,
        Term::Apply { args, .. } => any_has(variable, args.as_slice()),
    }
}

#[cycle(terms)]
fn any_has(variable: u32, terms: &[Term]) -> bool
    ensures { result ≡ list_any (has variable) terms.now }
{
    for term in terms {
        if has(variable, term) {
            return true;
        }
    }
    false
}

/// Whether a variable occurs in a formula.
#[cycle(formulas)]
pub fn occurs(variable: u32, formula: &Formula) -> bool
    ensures { result ≡ occurs variable formula.now }
{
    match formula {
        Formula::True | Formula::False => false,
        Formula::Holds { args, .. } => any_has(variable, args.as_slice()),
        Formula::Equal(a, b) => has(variable, a) || has(variable, b),
        Formula::Not(part) => occurs(variable, part.get()),
        Formula::All(parts) | Formula::Any(parts) => any_occurs(variable, parts.as_slice()),
        Formula::Implies(a, b) | Formula::Iff(a, b) => {
            occurs(variable, a.get()) || occurs(variable, b.get())
        }
        Formula::ForAll(_, part) | Formula::Exists(_, part) => occurs(variable, part.get()),
    }
}

#[cycle(formulas)]
fn any_occurs(variable: u32, parts: &[Formula]) -> bool
    ensures { result ≡ list_any (occurs variable) parts.now }
{
    for part in parts {
        if occurs(variable, part) {
            return true;
        }
    }
    false
}
