//! One class at a time: sifted, and examined where no filter rejects it.
ghost use Rattle.std.specs.Prelude.{◌≡◌, None, IfOk, IfErr};
ghost use Rattle.sw_filter.specs.Views.{FirstRejects};

use crate::errors::FinishError;
use sqlite_items::Items;
use std::alloc::{AllocError, Global};
use std::sync::Wait;
use sw_examine::copy_body;
use sw_filter::{Candidates, Filter};
use sw_hand::{Hand, Task};
use sw_join::{JoinExamined, examine_join};
use sw_logic::Formula;
use sw_template::Body;
use sw_truth::Refutation;
use sw_walk::Walk;

/// A class that joins: the refutation of its start query, and of its join queries in order.
#[derive(Drop)]
pub struct Found {
    pub body: Body,
    pub start: Refutation,
    pub steps: Items<Refutation>,
}

/// What a worker looks through, and for a class that joins under which entries.
#[derive(Clone, Copy)]
pub struct Seeking<'t, 'a, B> {
    pub task: &'t Task<'a, B>,
    pub entries: &'t [Formula],
    pub budget: Option<u64>,
}

impl<'a, B: Candidates + Walk> Seeking<'_, 'a, B> {
    ghost use Rattle.sw_hand.specs.Hands.{Rejects};
    ghost use Rattle.sw_walk.specs.Parts.{IsClass};
    ghost use Rattle.sw_seek.specs.Seeking.{IsCause};
    ghost use Rattle.sw_seek.specs.Steps.{CanSeek, Holds, IsConsidered, searched};

    /// A hand without filters, under the entries.
    pub(crate) fn begin(&self, alloc: Global) -> Result<Hand<'a, B>, AllocError>
        requires can { CanSeek B.template B.part_lists B.has B.formula_of self.now }
        ensures { IfOk result (Holds B.template self.now) }
    {
        let mut hand = self.task.hand(alloc);
        self.task.advance(&mut hand, self.entries, 0)?;
        Ok(hand)
    }

    /// Keeps a filter that rejects the class.
    fn reject<H: Wait>(
        &self,
        rt: &H,
        alloc: Global,
        hand: &mut Hand<'a, B>,
        body: &Body,
        filter: Filter,
    ) -> Result<Option<Found>, FinishError>
        requires can { CanSeek B.template B.part_lists B.has B.formula_of self.now }
        requires holds { Holds B.template self.now hand.old }
        requires class { IsClass (B.part_lists self.now.task.now.space.now) body.now }
        requires passed { FirstRejects self.now.task.now.protocol.now (B.formula_of self.now.task.now.space.now body.now) hand.old.mine.shown.items None }
        requires rejects { Rejects (searched B.template self.now) self.now.entries.now body.now.cubes filter }
        ensures holds { IfOk result (λ _. Holds B.template self.now hand.new) }
        ensures considered { IfOk result (IsConsidered (searched B.template self.now) self.now.entries.now self.now.budget hand.old hand.new body.now) }
        ensures cause { IfErr result (IsCause (searched B.template self.now) self.now.entries.now self.now.budget) }
    {
        self.task.keep(rt, alloc, hand, self.entries, body, filter)?;
        Ok(None)
    }

    /// Examines a class that no filter rejects.
    fn examined<H: Wait>(
        &self,
        rt: &H,
        alloc: Global,
        hand: &mut Hand<'a, B>,
        body: &Body,
    ) -> Result<Option<Found>, FinishError>
        requires can { CanSeek B.template B.part_lists B.has B.formula_of self.now }
        requires holds { Holds B.template self.now hand.old }
        requires class { IsClass (B.part_lists self.now.task.now.space.now) body.now }
        requires passed { FirstRejects self.now.task.now.protocol.now (B.formula_of self.now.task.now.space.now body.now) hand.old.mine.shown.items None }
        ensures holds { IfOk result (λ _. Holds B.template self.now hand.new) }
        ensures considered { IfOk result (IsConsidered (searched B.template self.now) self.now.entries.now self.now.budget hand.old hand.new body.now) }
        ensures cause { IfErr result (IsCause (searched B.template self.now) self.now.entries.now self.now.budget) }
    {
        let found = examine_join(
            alloc,
            self.task.protocol,
            self.task.space,
            self.entries,
            &hand.mine,
            body,
            self.budget,
        )?;
        match found {
            JoinExamined::StartFails(filter) => self.reject(rt, alloc, hand, body, filter),
            JoinExamined::NotKept(filter) => self.reject(rt, alloc, hand, body, filter),
            JoinExamined::Bad(filter) => self.reject(rt, alloc, hand, body, filter),
            JoinExamined::Joins { start, steps } => {
                let body = copy_body(alloc, body)?;
                Ok(Some(Found { body, start, steps }))
            }
            JoinExamined::Spent(query, steps) => Err(FinishError::Spent { query, steps }),
            JoinExamined::TooLarge(query, size) => Err(FinishError::TooLarge { query, size }),
        }
    }

    /// The class, where it joins. One that does not is good by the filters that are used then.
    pub(crate) fn consider<H: Wait>(
        &self,
        rt: &H,
        alloc: Global,
        hand: &mut Hand<'a, B>,
        body: &Body,
    ) -> Result<Option<Found>, FinishError>
        requires can { CanSeek B.template B.part_lists B.has B.formula_of self.now }
        requires holds { Holds B.template self.now hand.old }
        requires class { IsClass (B.part_lists self.now.task.now.space.now) body.now }
        ensures holds { IfOk result (λ _. Holds B.template self.now hand.new) }
        ensures considered { IfOk result (IsConsidered (searched B.template self.now) self.now.entries.now self.now.budget hand.old hand.new body.now) }
        ensures cause { IfErr result (IsCause (searched B.template self.now) self.now.entries.now self.now.budget) }
    {
        if self.task.sift(alloc, hand, self.entries, body)? {
            return Ok(None);
        }
        self.examined(rt, alloc, hand, body)
    }
}
