//! The step queries of a formula, in the order of the transitions.
ghost use Rattle.std.specs.Prelude.{◌≡◌, ◌<◌, ◌≤◌, Some, length, slice_get, IfOk, IfSome};
ghost use Rattle.sw_logic.specs.Queries.{Satisfies};
ghost use Rattle.sw_meaning.specs.declared.protocol.Transition.{Transition};
ghost use Rattle.sw_meaning.specs.WellFormed.{IsWellFormed};
ghost use Rattle.sw_queries.specs.Queries.{step_query_of};
ghost use Rattle.sw_examine.specs.Answers.{CanAsk};
ghost use Rattle.sw_examine.specs.Examinations.{IsStepped, AreStepped, LeavesBy};

use crate::asking::Asking;
use sqlite_items::Items;
use std::alloc::{AllocError, Global};
use sw_decide::Decision;
use sw_filter::Filter;
use sw_logic::Structure;
use sw_queries::split_step;
use sw_truth::Refutation;
use sw_universe::Size;

/// The answer to the step query of one transition.
#[derive(Drop)]
pub enum Stepped {
    Keeps(Refutation),
    Leaves(Filter),
    Spent(Refutation),
    TooLarge(Size),
}

/// The answer to all of them: the first that is not kept decides.
#[derive(Drop)]
pub enum AllStepped {
    Keep(Items<Refutation>),
    Leaves(Filter),
    Spent(u32, Refutation),
    TooLarge(u32, Size),
}

/// A count as a number; one that does not fit counts as want of memory.
fn number(count: usize) -> Result<u32, AllocError>
    ensures { IfOk result (λ n. n ≡ count) }
{
    match u32::try_from(count) {
        Ok(number) => Ok(number),
        Err(_) => Err(AllocError),
    }
}

impl Asking<'_> {
    /// The filter that a structure of a step query is.
    fn filter(
        &self,
        alloc: Global,
        transition: u32,
        structure: &Structure,
    ) -> Result<Filter, AllocError>
        requires well_formed { IsWellFormed self.now.protocol.now }
        requires number { transition < length self.now.protocol.now.transitions }
        requires satisfies { (t : Transition) → slice_get self.now.protocol.now.transitions transition ≡ Some t → Satisfies (step_query_of self.now.protocol.now t self.now.list.now self.now.formula.now) structure.now }
        ensures { IfOk result (LeavesBy self.now.protocol.now self.now.list.now self.now.formula.now transition) }
    {
        let (pair, args) = split_step(alloc, self.protocol, transition, structure)?;
        let under = number(self.list.len())?;
        Ok(Filter::Move {
            pair,
            transition,
            args,
            under,
        })
    }

    fn step(&self, alloc: Global, transition: u32) -> Result<Stepped, AllocError>
        requires well_formed { IsWellFormed self.now.protocol.now }
        requires number { transition < length self.now.protocol.now.transitions }
        requires ask { CanAsk self.now.protocol.now self.now.list.now self.now.formula.now }
        requires some { IfSome self.now.budget (λ most. 1 ≤ most) }
        ensures { IfOk result (IsStepped self.now.protocol.now self.now.list.now self.now.formula.now self.now.budget transition) }
    {
        match self.ask_step(alloc, transition)? {
            Decision::Refuted(refutation) => Ok(Stepped::Keeps(refutation)),
            Decision::Found(structure) => {
                let filter = self.filter(alloc, transition, &structure)?;
                Ok(Stepped::Leaves(filter))
            }
            Decision::Spent(steps) => Ok(Stepped::Spent(steps)),
            Decision::TooLarge(size) => Ok(Stepped::TooLarge(size)),
        }
    }

    /// Asks the step queries in order, up to the first that is not refuted.
    pub fn steps(&self, alloc: Global) -> Result<AllStepped, AllocError>
        requires well_formed { IsWellFormed self.now.protocol.now }
        requires ask { CanAsk self.now.protocol.now self.now.list.now self.now.formula.now }
        requires some { IfSome self.now.budget (λ most. 1 ≤ most) }
        ensures { IfOk result (AreStepped self.now.protocol.now self.now.list.now self.now.formula.now self.now.budget) }
    {
        let count = number(self.protocol.transitions.len())?;
        let mut refutations = Items::new(alloc);
        for transition in 0..count {
            match self.step(alloc, transition)? {
                Stepped::Keeps(refutation) => refutations.push(refutation)?,
                Stepped::Leaves(filter) => return Ok(AllStepped::Leaves(filter)),
                Stepped::Spent(steps) => return Ok(AllStepped::Spent(transition, steps)),
                Stepped::TooLarge(size) => return Ok(AllStepped::TooLarge(transition, size)),
            }
        }
        Ok(AllStepped::Keep(refutations))
    }
}
