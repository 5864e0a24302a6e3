//! The search: the list that workers find, then safety under it, then the classes to finish with.
ghost use Rattle.std.specs.Prelude.{◌≡◌, ◌≤◌, IfOk, IfSome};
ghost use Rattle.std.specs.Option.{option_copied};
ghost use Rattle.sw_meaning.specs.WellFormed.{IsWellFormed};
ghost use Rattle.sw_search.specs.Searches.{IsTold};
ghost use Rattle.sw_search.specs.Spaces.{CanSearch, template_of};

use crate::listing::{Listed, list_of};
use crate::telling::{Found, Told};
use std::alloc::{AllocError, Global};
use std::sync::Wait;
use std::thread::Threads;
use sw_edge::Gate;
use sw_enumerate::Space;
use sw_meaning::Protocol;

/// What is told of a protocol, with the space of a breadth template or without one, and with the space
/// of a template to finish with or without one: the report, or what ended the search. So many workers
/// draw the parts of each space; the gate is passed after each draw.
pub fn search<H: Threads + Wait + Sync, G: Gate + Sync>(
    rt: &H,
    alloc: Global,
    protocol: &Protocol,
    breadth: Option<&Space>,
    finish: Option<&Space>,
    workers: u32,
    budget: Option<u64>,
    gate: &G,
) -> Result<Told, AllocError>
    requires well_formed { IsWellFormed protocol.now }
    requires can { CanSearch protocol.now (option_copied breadth) (option_copied finish) }
    requires workers { (1 ≤ workers) × (workers ≤ 64) }
    requires some { IfSome budget (λ most. 1 ≤ most) }
    ensures { IfOk result (IsTold protocol.now (template_of (option_copied breadth.entry)) (template_of (option_copied finish.entry)) workers budget) }
{
    match list_of(rt, alloc, protocol, breadth, workers, budget, gate)? {
        Listed::Formulas(list) => {
            let found = Found {
                protocol,
                breadth,
                finish,
                workers,
                budget,
                list: list.as_slice(),
            };
            found.tell(rt, alloc, gate)
        }
        Listed::Stopped(line) => Ok(Told::Stopped(line)),
    }
}
