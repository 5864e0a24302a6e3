//! The join queries of a formula, in the order of the transitions.
ghost use Rattle.std.specs.Prelude.{◌≡◌, ◌<◌, ◌≤◌, Some, length, slice_get, IfOk, IfSome};
ghost use Rattle.sw_meaning.specs.declared.protocol.Transition.{Transition};
ghost use Rattle.sw_meaning.specs.WellFormed.{IsWellFormed};
ghost use Rattle.sw_queries.specs.Queries.{join_query_of};
ghost use Rattle.sw_examine.specs.Answers.{CanAsk, IsMetBy};
ghost use Rattle.sw_join.specs.Joining.{IsStepped, AreStepped};

use crate::asking::ask_join;
use sqlite_items::Items;
use std::alloc::{AllocError, Global};
use sw_decide::Decision;
use sw_examine::asking::Asking;
use sw_filter::{Filter, are_true};
use sw_logic::Structure;
use sw_queries::split_step;
use sw_truth::Refutation;
use sw_universe::Size;

/// The answer to the join query of one transition; a filter is bad where safety is left.
#[derive(Drop)]
pub enum Stepped {
    Joins(Refutation),
    Leaves(Filter),
    Bad(Filter),
    Spent(Refutation),
    TooLarge(Size),
}

/// The answer to all of them: the first that is not refuted decides.
#[derive(Drop)]
pub enum AllStepped {
    Join(Items<Refutation>),
    Leaves(Filter),
    Bad(Filter),
    Spent(u32, Refutation),
    TooLarge(u32, Size),
}

/// A count as a number; one that does not fit counts as want of memory.
fn number(count: usize) -> Result<u32, AllocError>
    ensures { IfOk result (λ n. n ≡ count) }
{
    match u32::try_from(count) {
        Ok(number) => Ok(number),
        Err(_) => Err(AllocError),
    }
}

/// The filter that a structure of a join query is.
fn filter(
    alloc: Global,
    asking: &Asking,
    transition: u32,
    structure: &Structure,
) -> Result<Stepped, AllocError>
    requires well_formed { IsWellFormed asking.now.protocol.now }
    requires number { transition < length asking.now.protocol.now.transitions }
    requires met { (t : Transition) → slice_get asking.now.protocol.now.transitions transition ≡ Some t → IsMetBy (join_query_of asking.now.protocol.now t asking.now.list.now (Some asking.now.formula.now)) structure.now }
    ensures { IfOk result (IsStepped asking.now.protocol.now asking.now.list.now asking.now.formula.now asking.now.budget transition) }
{
    let protocol = asking.protocol;
    let (pair, args) = split_step(alloc, protocol, transition, structure)?;
    let under = number(asking.list.len())?;
    let safe = are_true(
        &protocol.signature,
        &pair.after,
        protocol.safeties.as_slice(),
    );
    if safe {
        Ok(Stepped::Leaves(Filter::Move {
            pair,
            transition,
            args,
            under,
        }))
    } else {
        Ok(Stepped::Bad(Filter::Bad {
            pair,
            transition,
            args,
            under,
        }))
    }
}

fn step(alloc: Global, asking: &Asking, transition: u32) -> Result<Stepped, AllocError>
    requires well_formed { IsWellFormed asking.now.protocol.now }
    requires number { transition < length asking.now.protocol.now.transitions }
    requires ask { CanAsk asking.now.protocol.now asking.now.list.now asking.now.formula.now }
    requires some { IfSome asking.now.budget (λ most. 1 ≤ most) }
    ensures { IfOk result (IsStepped asking.now.protocol.now asking.now.list.now asking.now.formula.now asking.now.budget transition) }
{
    match ask_join(alloc, asking, transition)? {
        Decision::Refuted(refutation) => Ok(Stepped::Joins(refutation)),
        Decision::Found(structure) => filter(alloc, asking, transition, &structure),
        Decision::Spent(steps) => Ok(Stepped::Spent(steps)),
        Decision::TooLarge(size) => Ok(Stepped::TooLarge(size)),
    }
}

/// Asks the join queries in order, up to the first that is not refuted.
pub fn ask_joins(alloc: Global, asking: &Asking) -> Result<AllStepped, AllocError>
    requires well_formed { IsWellFormed asking.now.protocol.now }
    requires ask { CanAsk asking.now.protocol.now asking.now.list.now asking.now.formula.now }
    requires some { IfSome asking.now.budget (λ most. 1 ≤ most) }
    ensures { IfOk result (AreStepped asking.now.protocol.now asking.now.list.now asking.now.formula.now asking.now.budget) }
{
    let count = number(asking.protocol.transitions.len())?;
    let mut refutations = Items::new(alloc);
    for transition in 0..count {
        match step(alloc, asking, transition)? {
            Stepped::Joins(refutation) => refutations.push(refutation)?,
            Stepped::Leaves(filter) => return Ok(AllStepped::Leaves(filter)),
            Stepped::Bad(filter) => return Ok(AllStepped::Bad(filter)),
            Stepped::Spent(steps) => return Ok(AllStepped::Spent(transition, steps)),
            Stepped::TooLarge(size) => return Ok(AllStepped::TooLarge(transition, size)),
        }
    }
    Ok(AllStepped::Join(refutations))
}
