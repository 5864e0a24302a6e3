//! What a worker has in hand between two steps, and how it takes in what others appended.
ghost use Rattle.std.specs.Prelude.{◌≡◌, IfOk};
ghost use mathlib.Core.List.{IsPrefix};
ghost use Rattle.sw_work.specs.Works.{bodies_of};

use crate::implied::Implied;
use sqlite_items::Items;
use std::alloc::{AllocError, Global};
use std::sync::Wait;
use sw_examine::copy_body;
use sw_filter::Candidates;
use sw_hand::{Hand, Task};
use sw_log::{Entry, LogSeat, SharedLog};
use sw_logic::Formula;
use sw_template::Body;
use sw_walk::Walk;

/// The filters, all entries of the log that the seat has seen, with their formulas, and classes that
/// follow from those.
#[derive(Drop)]
pub struct Bench<'a, B> {
    pub hand: Hand<'a, B>,
    pub entries: Vec<Entry>,
    pub formulas: Items<Formula>,
    pub implied: Implied,
}

/// What a worker works on, and with.
#[derive(Clone, Copy)]
pub struct Desk<'t, 'a, B> {
    pub task: &'t Task<'a, B>,
    pub log: &'t SharedLog,
    pub budget: Option<u64>,
}

/// The classes of the entries.
pub(crate) fn copy_bodies(alloc: Global, entries: &[Entry]) -> Result<Items<Body>, AllocError>
    ensures { IfOk result (λ bodies. bodies ≡ bodies_of entries.now) }
{
    let mut bodies = Items::new(alloc);
    for entry in entries {
        bodies.push(copy_body(alloc, &entry.body)?)?;
    }
    Ok(bodies)
}

impl<'a, B: Candidates + Walk> Desk<'_, 'a, B> {
    ghost use Rattle.std.specs.Prelude.{◌++◌, ◌∷◌, [], ◌≤◌, length, take};
    ghost use Rattle.sw_logic.specs.Truth.{binds};
    ghost use Rattle.sw_filter.specs.Filters.{AreNarrow};
    ghost use Rattle.sw_work.specs.Works.{entry_formula, seen_formulas};
    ghost use Rattle.sw_work.specs.Steps.{CanWork, Fits, Stands, Looks, searched};

    /// The formula of an entry's class; that of an entry that is none is true.
    fn formula_of(&self, alloc: Global, entry: &Entry) -> Result<Formula, AllocError>
        requires can { CanWork B.template B.part_lists B.has B.formula_of self.now.task.now self.now.budget }
        ensures is { IfOk result (λ f. f ≡ entry_formula (searched B.template self.now.task.now) entry.now) }
        ensures few { IfOk result (λ f. binds f ≤ 32) }
    {
        if self.task.space.is_class(&entry.body) {
            self.task.space.formula(alloc, &entry.body)
        } else {
            Ok(Formula::True)
        }
    }

    /// Adds the formulas of the entries behind those that have one.
    fn add_formulas(
        &self,
        alloc: Global,
        formulas: &mut Items<Formula>,
        entries: &[Entry],
    ) -> Result<(), AllocError>
        requires can { CanWork B.template B.part_lists B.has B.formula_of self.now.task.now self.now.budget }
        requires narrow { AreNarrow formulas.old }
        ensures are { IfOk result (λ _. formulas.new ≡ formulas.old ++ seen_formulas (searched B.template self.now.task.now) entries.now) }
        ensures narrow { IfOk result (λ _. AreNarrow formulas.new) }
    {
        for entry in entries {
            formulas.push(self.formula_of(alloc, entry)?)?;
        }
        Ok(())
    }

    /// Adds the formulas of the further entries, and marks the filters under them.
    fn extend(
        &self,
        alloc: Global,
        hand: &mut Hand<'a, B>,
        formulas: &mut Items<Formula>,
        entries: &[Entry],
    ) -> Result<(), AllocError>
        requires can { CanWork B.template B.part_lists B.has B.formula_of self.now.task.now self.now.budget }
        requires fits { Fits B.template self.now.task.now formulas.old hand.old (take (length formulas.old) entries.now) }
        requires longer { length formulas.old ≤ length entries.now }
        ensures fits { IfOk result (λ _. Fits B.template self.now.task.now formulas.new hand.new entries.now) }
        ensures kept { IfOk result (λ _. hand.new.kept ≡ hand.old.kept) }
        ensures begins { IfOk result (λ _. IsPrefix formulas.old formulas.new) }
    {
        let from = formulas.len();
        self.add_formulas(alloc, formulas, &entries[from..])?;
        self.task.advance(hand, formulas.as_slice(), from)?;
        Ok(())
    }

    /// Takes in a log that begins with the entries of the bench.
    pub(crate) fn take_in(
        &self,
        alloc: Global,
        bench: &mut Bench<'a, B>,
        entries: Vec<Entry>,
    ) -> Result<(), AllocError>
        requires can { CanWork B.template B.part_lists B.has B.formula_of self.now.task.now self.now.budget }
        requires stands { Stands B.template self.now.task.now bench.old bench.old.entries.items }
        requires begins { IsPrefix bench.old.entries.items entries.items }
        ensures stands { IfOk result (λ _. Stands B.template self.now.task.now bench.new entries.items) }
        ensures kept { IfOk result (λ _. bench.new.hand.kept ≡ bench.old.hand.kept) }
    {
        self.extend(alloc, &mut bench.hand, &mut bench.formulas, &entries)?;
        bench.entries = entries;
        Ok(())
    }

    /// Takes in one entry more.
    pub(crate) fn push(
        &self,
        alloc: Global,
        bench: &mut Bench<'a, B>,
        entry: Entry,
    ) -> Result<(), AllocError>
        requires can { CanWork B.template B.part_lists B.has B.formula_of self.now.task.now self.now.budget }
        requires stands { Stands B.template self.now.task.now bench.old bench.old.entries.items }
        ensures stands { IfOk result (λ _. Stands B.template self.now.task.now bench.new (bench.old.entries.items ++ entry ∷ [])) }
        ensures kept { IfOk result (λ _. bench.new.hand.kept ≡ bench.old.hand.kept) }
    {
        bench.entries.push(entry)?;
        self.extend(alloc, &mut bench.hand, &mut bench.formulas, &bench.entries)?;
        Ok(())
    }

    /// A bench with what the log has now, and no filters.
    pub(crate) fn begin<H: Wait>(
        &self,
        rt: &H,
        alloc: Global,
        seat: &mut LogSeat,
    ) -> Result<Bench<'a, B>, AllocError>
        requires can { CanWork B.template B.part_lists B.has B.formula_of self.now.task.now self.now.budget }
        requires object { seat.old.object ≡ self.now.log.now }
        ensures object { seat.new.object ≡ seat.old.object }
        ensures looks { Looks seat.old.view seat.new.view }
        ensures stands { IfOk result (λ bench. Stands B.template self.now.task.now bench seat.new.view.seen) }
    {
        let entries = self.log.look(rt, alloc, seat)?;
        let mut bench = Bench {
            hand: self.task.hand(alloc),
            entries: Vec::new(alloc),
            formulas: Items::new(alloc),
            implied: Implied::new(alloc),
        };
        self.take_in(alloc, &mut bench, entries)?;
        Ok(bench)
    }

    /// Takes in what the pool and the log have gained.
    pub(crate) fn catch_up<H: Wait>(
        &self,
        rt: &H,
        alloc: Global,
        bench: &mut Bench<'a, B>,
        seat: &mut LogSeat,
    ) -> Result<(), AllocError>
        requires can { CanWork B.template B.part_lists B.has B.formula_of self.now.task.now self.now.budget }
        requires object { seat.old.object ≡ self.now.log.now }
        requires stands { Stands B.template self.now.task.now bench.old seat.old.view.seen }
        ensures object { seat.new.object ≡ seat.old.object }
        ensures looks { Looks seat.old.view seat.new.view }
        ensures stands { IfOk result (λ _. Stands B.template self.now.task.now bench.new seat.new.view.seen) }
        ensures kept { IfOk result (λ _. bench.new.hand.kept ≡ bench.old.hand.kept) }
    {
        if self.log.length(seat) as usize > bench.entries.len() {
            let entries = self.log.look(rt, alloc, seat)?;
            self.take_in(alloc, bench, entries)?;
        }
        self.task
            .refresh(alloc, &mut bench.hand, bench.formulas.as_slice())?;
        Ok(())
    }
}
