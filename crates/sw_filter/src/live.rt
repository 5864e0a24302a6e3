//! Whether filters are live under a list.
ghost use Rattle.std.specs.Prelude.{◌↔◌, IsTrue};
ghost use Rattle.std.specs.List.{list_all};
ghost use Rattle.sw_logic.specs.Truth.{truth, world, AreTrueIn};
ghost use Rattle.sw_meaning.specs.WellFormed.{IsWellFormed};
ghost use Rattle.sw_filter.specs.Filters.{Obeys, IsLive, AreNarrow};

use crate::filter::{Filter, Mode};
use sw_logic::{Env, Formula, Signature, Structure, holds};
use sw_meaning::Protocol;

/// Whether all of the formulas are true in the structure.
pub fn are_true(sig: &Signature, structure: &Structure, formulas: &[Formula]) -> bool
    requires { AreNarrow formulas.now }
    ensures { IsTrue result ↔ AreTrueIn sig.now structure.now formulas.now }
{
    for formula in formulas {
        if !holds(sig, structure, formula, &Env::new()) {
            return false;
        }
    }
    true
}

/// Whether the first structure of a step obeys the list.
fn obeys(protocol: &Protocol, mode: Mode, list: &[Formula], structure: &Structure) -> bool
    requires well_formed { IsWellFormed protocol.now }
    requires list { AreNarrow list.now }
    ensures { IsTrue result ↔ Obeys protocol.now mode list.now structure.now }
{
    let listed = are_true(&protocol.signature, structure, list);
    match mode {
        Mode::Breadth => listed,
        Mode::Finish => {
            listed && are_true(&protocol.signature, structure, protocol.safeties.as_slice())
        }
    }
}

/// Whether the filter is live under the list.
pub fn is_live(protocol: &Protocol, mode: Mode, list: &[Formula], filter: &Filter) -> bool
    requires well_formed { IsWellFormed protocol.now }
    requires list { AreNarrow list.now }
    ensures { IsTrue result ↔ IsLive protocol.now mode list.now filter.now }
{
    match filter {
        Filter::Start { structure: _ } => true,
        Filter::Move {
            pair,
            transition: _,
            args: _,
            under: _,
        } => { obeys(protocol, mode, list, &pair.before) }
        Filter::Bad {
            pair,
            transition: _,
            args: _,
            under: _,
        } => match mode {
            Mode::Breadth => false,
            Mode::Finish => obeys(protocol, mode, list, &pair.before),
        },
    }
}
