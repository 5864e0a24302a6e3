//! The last phase: the classes of the template to finish with, under a list that leaves safety open.
ghost use Rattle.std.specs.Prelude.{◌≡◌, None, Some, IfOk};
ghost use Rattle.std.specs.Option.{option_copied};
ghost use Rattle.sw_meaning.specs.Verdict.{Word, Verdict};
ghost use Rattle.sw_filter.specs.declared.filter.Mode.TheVariants.{Finish as FinishMode};
ghost use Rattle.sw_hand.specs.Hands.{search_of};
ghost use Rattle.sw_seek.specs.Seeking.{IsCause};
ghost use Rattle.sw_search.specs.Searches.{InFinish, EndsBy};
ghost use Rattle.sw_search.specs.Spaces.{template_of};
ghost use Rattle.sw_search.specs.Phases.{IsFound, IsFinished, ended_of};

use crate::asking::{Ending, class_line};
use crate::classes::Classes;
use crate::telling::Found;
use std::alloc::{AllocError, Global};
use std::sync::Wait;
use std::thread::Threads;
use sw_edge::Gate;
use sw_enumerate::Space;
use sw_examine::QueryName;
use sw_finish::{Finished as Outcome, finish};
use sw_logic::Formula;
use sw_seek::FinishError;

/// What the last phase shows: the formula of a class that joins, that none joins, or the line of the
/// query that ended it.
#[derive(Drop)]
pub enum Finished {
    Joined(Formula),
    Exhausted,
    Stopped(String),
}

/// That a query about a class of the space ended the phase so.
fn stopped(
    alloc: Global,
    found: &Found,
    space: &Space,
    query: &QueryName,
    ending: Ending,
) -> Result<Finished, AllocError>
    requires can { IsFound found.now.protocol.now (option_copied found.now.breadth) (option_copied found.now.finish) found.now.workers found.now.budget found.now.list.now }
    requires space { option_copied found.now.finish ≡ Some space.now }
    requires asked { InFinish found.now.protocol.now (template_of (option_copied found.now.breadth)) found.now.workers space.now.template query.now (EndsBy found.now.budget (ended_of ending)) }
    ensures { IfOk result (IsFinished found.now.protocol.now (template_of (option_copied found.now.breadth)) space.now.template found.now.workers found.now.budget found.now.list.now) }
{
    let line = class_line(alloc, found.protocol, space, query, ending)?;
    Ok(Finished::Stopped(line))
}

fn ended(
    alloc: Global,
    found: &Found,
    space: &Space,
    error: FinishError,
) -> Result<Finished, AllocError>
    requires can { IsFound found.now.protocol.now (option_copied found.now.breadth) (option_copied found.now.finish) found.now.workers found.now.budget found.now.list.now }
    requires space { option_copied found.now.finish ≡ Some space.now }
    requires open_ { Verdict found.now.protocol.now None found.now.list.now Word.unsettled }
    requires cause { IsCause (search_of found.now.protocol.now space.now.template FinishMode found.now.workers) found.now.list.now found.now.budget error }
    ensures { IfOk result (IsFinished found.now.protocol.now (template_of (option_copied found.now.breadth)) space.now.template found.now.workers found.now.budget found.now.list.now) }
{
    match error {
        FinishError::Memory => Err(AllocError),
        FinishError::Spent { query, steps: _ } => {
            let most = found.budget.unwrap_or(0);
            stopped(alloc, found, space, &query, Ending::Spent(most))
        }
        FinishError::TooLarge { query, size } => {
            stopped(alloc, found, space, &query, Ending::TooLarge(size))
        }
    }
}

/// Looks for a class of the space that joins; one worker finds the first in order.
pub fn finish_list<H: Threads + Wait + Sync, G: Gate + Sync>(
    rt: &H,
    alloc: Global,
    found: &Found,
    space: &Space,
    gate: &G,
) -> Result<Finished, AllocError>
    requires can { IsFound found.now.protocol.now (option_copied found.now.breadth) (option_copied found.now.finish) found.now.workers found.now.budget found.now.list.now }
    requires space { option_copied found.now.finish ≡ Some space.now }
    requires open_ { Verdict found.now.protocol.now None found.now.list.now Word.unsettled }
    ensures { IfOk result (IsFinished found.now.protocol.now (template_of (option_copied found.now.breadth)) space.now.template found.now.workers found.now.budget found.now.list.now) }
{
    let classes = Classes::new(space);
    match finish(
        rt,
        alloc,
        found.protocol,
        &classes,
        found.list,
        found.workers,
        found.budget,
        gate,
    ) {
        Ok(
            Outcome::Joined {
                body,
                start: _,
                steps: _,
            },
        ) => {
            let formula = space.formula(&body)?;
            Ok(Finished::Joined(formula))
        }
        Ok(Outcome::Exhausted(_)) => Ok(Finished::Exhausted),
        Err(error) => ended(alloc, found, space, error),
    }
}
