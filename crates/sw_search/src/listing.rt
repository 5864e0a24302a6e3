//! The first phase: the list that workers find in a space.
ghost use Rattle.std.specs.Prelude.{◌≡◌, ◌≤◌, map, None, Some, IfOk, IfSome};
ghost use Rattle.std.specs.Option.{option_copied};
ghost use Rattle.sw_meaning.specs.WellFormed.{IsWellFormed};
ghost use Rattle.sw_enumerate.specs.Spaces.{formula_in};
ghost use Rattle.sw_filter.specs.declared.filter.Mode.TheVariants.{Breadth};
ghost use Rattle.sw_hand.specs.Hands.{search_of};
ghost use Rattle.sw_breadth.specs.Rounds.{IsCause, IsOnTheWay};
ghost use Rattle.sw_search.specs.Searches.{InBreadth, EndsBy};
ghost use Rattle.sw_search.specs.Spaces.{CanSearch, template_of};
ghost use Rattle.sw_search.specs.Phases.{IsListed, ended_of};

use crate::asking::{Ending, class_line};
use crate::classes::Classes;
use sqlite_items::Items;
use std::alloc::{AllocError, Global};
use std::sync::Wait;
use std::thread::Threads;
use sw_breadth::breadth;
use sw_core::Entry;
use sw_edge::Gate;
use sw_enumerate::Space;
use sw_examine::QueryName;
use sw_logic::Formula;
use sw_meaning::Protocol;
use sw_work::BreadthError;

/// What the first phase leaves: the formulas of the list, or the line of the query that ended it.
#[derive(Drop)]
pub enum Listed {
    Formulas(Items<Formula>),
    Stopped(String),
}

/// The formulas of the classes of these entries.
fn formulas_of(
    alloc: Global,
    space: &Space,
    entries: &[Entry],
) -> Result<Items<Formula>, AllocError>
    ensures { IfOk result (λ fs. fs ≡ map (λ e. formula_in space.now e.body.cubes) entries.now) }
{
    let mut formulas = Items::new(alloc);
    for entry in entries {
        formulas.push(space.formula(&entry.body)?)?;
    }
    Ok(formulas)
}

/// A space whose classes are searched.
#[derive(Clone, Copy)]
struct Pass<'a> {
    protocol: &'a Protocol,
    space: &'a Space,
    workers: u32,
    budget: Option<u64>,
}

impl Pass<'_> {
    /// That a query about a class of the space ended the phase so.
    fn stopped(
        &self,
        alloc: Global,
        query: &QueryName,
        ending: Ending,
    ) -> Result<Listed, AllocError>
        requires well_formed { IsWellFormed self.now.protocol.now }
        requires can { CanSearch self.now.protocol.now (Some self.now.space.now) None }
        requires asked { InBreadth self.now.protocol.now self.now.space.now.template self.now.workers query.now (EndsBy self.now.budget (ended_of ending)) }
        ensures { IfOk result (IsListed self.now.protocol.now (Some self.now.space.now.template) self.now.workers self.now.budget) }
    {
        let line = class_line(alloc, self.protocol, self.space, query, ending)?;
        Ok(Listed::Stopped(line))
    }

    fn ended(&self, alloc: Global, error: BreadthError) -> Result<Listed, AllocError>
        requires well_formed { IsWellFormed self.now.protocol.now }
        requires can { CanSearch self.now.protocol.now (Some self.now.space.now) None }
        requires cause { IsCause (search_of self.now.protocol.now self.now.space.now.template Breadth self.now.workers) self.now.budget error }
        requires on_the_way { self.now.workers ≡ 1 → IsOnTheWay (search_of self.now.protocol.now self.now.space.now.template Breadth self.now.workers) error }
        ensures { IfOk result (IsListed self.now.protocol.now (Some self.now.space.now.template) self.now.workers self.now.budget) }
    {
        match error {
            BreadthError::Memory => Err(AllocError),
            BreadthError::Spent {
                query,
                list: _,
                steps: _,
            } => {
                let most = self.budget.unwrap_or(0);
                self.stopped(alloc, &query, Ending::Spent(most))
            }
            BreadthError::TooLarge {
                query,
                list: _,
                size,
            } => self.stopped(alloc, &query, Ending::TooLarge(size)),
        }
    }

    /// Closes the space, or tells what ended that.
    fn list<H: Threads + Wait + Sync, G: Gate + Sync>(
        &self,
        rt: &H,
        alloc: Global,
        gate: &G,
    ) -> Result<Listed, AllocError>
        requires well_formed { IsWellFormed self.now.protocol.now }
        requires can { CanSearch self.now.protocol.now (Some self.now.space.now) None }
        requires workers { (1 ≤ self.now.workers) × (self.now.workers ≤ 64) }
        requires some { IfSome self.now.budget (λ most. 1 ≤ most) }
        ensures { IfOk result (IsListed self.now.protocol.now (Some self.now.space.now.template) self.now.workers self.now.budget) }
    {
        let classes = Classes::new(self.space);
        match breadth(
            rt,
            alloc,
            self.protocol,
            &classes,
            self.workers,
            self.budget,
            gate,
        ) {
            Ok(record_) => {
                let formulas = formulas_of(alloc, self.space, record_.entries.as_slice())?;
                Ok(Listed::Formulas(formulas))
            }
            Err(error) => self.ended(alloc, error),
        }
    }
}

/// The list that workers find in a space, empty without one, or what ended their search.
pub fn list_of<H: Threads + Wait + Sync, G: Gate + Sync>(
    rt: &H,
    alloc: Global,
    protocol: &Protocol,
    space: Option<&Space>,
    workers: u32,
    budget: Option<u64>,
    gate: &G,
) -> Result<Listed, AllocError>
    requires well_formed { IsWellFormed protocol.now }
    requires can { CanSearch protocol.now (option_copied space) None }
    requires workers { (1 ≤ workers) × (workers ≤ 64) }
    requires some { IfSome budget (λ most. 1 ≤ most) }
    ensures { IfOk result (IsListed protocol.now (template_of (option_copied space.entry)) workers budget) }
{
    match space {
        Some(space) => {
            let pass = Pass {
                protocol,
                space,
                workers,
                budget,
            };
            pass.list(rt, alloc, gate)
        }
        None => Ok(Listed::Formulas(Items::new(alloc))),
    }
}
