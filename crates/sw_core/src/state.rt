//! The core machine's state, and its steps.
use crate::holders::{has_all, is_among, with_one, without};
use crate::part::{Made, Part};
use crate::record::{Kept, Settled};
use crate::steps::{End, Step};
use sqlite_items::{Items, at};
use std::alloc::{AllocError, Global};
use std::marker::Model;
use sw_enumerate::Space;
use sw_filter::{Filter, Mode, is_live};
use sw_logic::Formula;
use sw_meaning::Protocol;
use sw_template::Body;

/// The most entries of the log, and the most filters: each has a number of 32 bits.
const ENTRIES: usize = u32::MAX as usize;

/// The state of the core machine for a protocol and a template.
#[derive(Drop)]
pub struct State<'a> {
    alloc: Global,
    protocol: &'a Protocol,
    space: &'a Space,
    workers: u32,
    mode: Mode,
    log: Vec<Formula>,
    filters: Vec<Filter>,
    drawn: usize,
    parts: Vec<Part>,
    seen: Vec<usize>,
    end: End,
    made: Made,
}

impl<'a> Model for State<'a> {
    ghost use Rattle.std.specs.Prelude.{◌≡◌, ◌-◌, ◌≤◌, true, length, vec_len, vec_capacity};
    ghost use Rattle.std.specs.Coded.{codes};
    ghost use Rattle.sw_logic.specs.contracts.syntax.Formula as formula;
    ghost use Rattle.sw_meaning.specs.WellFormed.{IsWellFormed};
    ghost use Rattle.sw_template.specs.Prefix.{variable_count};
    ghost use Rattle.sw_enumerate.specs.Spaces.{IsFor};
    ghost use Rattle.sw_core.specs.States.{Machine, are_narrow, is_made_narrow};

    ghost Value = { Machine };

    ghost coded = { Prim.hlevel (codes, formula.the_row.coded) };

    ghost view = { λ s. record { search = record { protocol = s.protocol.now; template = s.space.now.template; mode = s.mode; workers = s.workers }; board = record { log = s.log.items; filters = s.filters.items; drawn = s.drawn; parts = s.parts.items; seen = s.seen.items; end = s.end }; log_room = vec_capacity s.log - vec_len s.log; filter_room = vec_capacity s.filters - vec_len s.filters; made = s.made } };

    ghost invariant = { λ s. (length s.seen.items ≡ s.workers) × (are_narrow s.log.items ≡ true) × IsWellFormed s.protocol.now × IsFor s.space.now s.protocol.now.signature × (variable_count s.space.now.template.prefix ≤ 6) × (is_made_narrow s.made ≡ true) };
}

impl<'a> State<'a> {
    ghost use Rattle.std.specs.Prelude.{◌≡◌, ◌↔◌, ◌+◌, ◌≤◌, ◌<◌, ◌^◌, true, IsTrue, IfOk, OnOk, if◌then◌else◌, length, slice_get};
    ghost use Rattle.std.specs.List.{AllByRecursion};
    ghost use Rattle.sw_filter.specs.Filters.{AreNarrow, IsLive};
    ghost use Rattle.sw_core.specs.Machine.{Accepts, May, IsDone, after, start, taken, settled_by, filters_at};
    ghost use Rattle.sw_meaning.specs.WellFormed.{IsWellFormed};
    ghost use Rattle.sw_template.specs.Prefix.{variable_count};
    ghost use Rattle.sw_enumerate.specs.Spaces.{IsFor};
    ghost use Rattle.sw_core.specs.States.{HasRoom, HasHolders, IsOf, is_made_narrow};
    ghost use Rattle.sw_core.specs.declared.steps.Step.TheVariants.{Draw, Look, Append, Publish, Settle};

    /// The state at the start: the log is the opening list.
    pub fn new(
        alloc: Global,
        protocol: &'a Protocol,
        space: &'a Space,
        workers: u32,
        mode: Mode,
        opening: Vec<Formula>,
    ) -> Result<State<'a>, AllocError>
        requires well_formed { IsWellFormed protocol.now }
        requires space { IsFor space.now protocol.now.signature }
        requires variables { variable_count space.now.template.prefix ≤ 6 }
        requires opening { AreNarrow opening.items }
        ensures search { IfOk result (λ s. IsOf protocol.now space.now.template mode workers s.search) }
        ensures board { IfOk result (λ s. s.board ≡ start s.search opening.items) }
    {
        let mut parts = Vec::new(alloc);
        for _part in 0..space.parts() {
            parts.push(Part {
                holders: Items::new(alloc),
                last: None,
            })?;
        }
        Ok(State {
            alloc,
            protocol,
            space,
            workers,
            mode,
            log: opening,
            filters: Vec::new(alloc),
            drawn: 0,
            parts,
            seen: vec![in alloc; 0; workers as usize]?,
            end: End::Running,
            made: Made::Nothing,
        })
    }

    fn put_made(&mut self, made: Made)
        requires { is_made_narrow made ≡ true }
        ensures { self.new ≡ record self.old { made = made } }
    {
        self.made = made;
    }

    /// Makes the holders that a draw leaves the next part.
    fn make_taken(&mut self, worker: u32) -> Result<(), AllocError>
        ensures search { self.new.search ≡ self.old.search }
        ensures board { self.new.board ≡ self.old.board }
        ensures room { OnOk result (HasHolders self.new (slice_get self.new.board.parts self.new.board.drawn) (taken worker)) }
    {
        if let Some(part) = at(self.parts.as_slice(), self.drawn) {
            let holders = with_one(self.alloc, part.holders.as_slice(), worker)?;
            self.put_made(Made::Holders(holders));
        }
        Ok(())
    }

    /// Makes the holders that a settlement leaves its part.
    fn make_settled(&mut self, worker: u32, settled: &Settled) -> Result<(), AllocError>
        ensures search { self.new.search ≡ self.old.search }
        ensures board { self.new.board ≡ self.old.board }
        ensures room { OnOk result (HasHolders self.new (slice_get self.new.board.parts settled.now.part) (settled_by worker settled.now)) }
    {
        if let Some(part) = at(self.parts.as_slice(), settled.part as usize) {
            let holders = without(self.alloc, part.holders.as_slice(), worker)?;
            self.put_made(Made::Holders(holders));
        }
        Ok(())
    }

    /// Makes the formula that an entry leaves the log, and room for it.
    fn make_entry(&mut self, body: &Body) -> Result<(), AllocError>
        ensures search { self.new.search ≡ self.old.search }
        ensures board { self.new.board ≡ self.old.board }
        ensures room { OnOk result (HasRoom self.new (Append 0 body.now)) }
    {
        if self.log.len() >= ENTRIES {
            return Err(AllocError);
        }
        let formula = self.space.formula(body)?;
        self.log.reserve(1)?;
        self.put_made(Made::Entry(formula));
        Ok(())
    }

    /// Makes room for a filter.
    fn make_filter(&mut self) -> Result<(), AllocError>
        ensures search { self.new.search ≡ self.old.search }
        ensures board { self.new.board ≡ self.old.board }
        ensures room { OnOk result ((1 ≤ self.new.filter_room) × (length self.new.board.filters + 1 < 2 ^ 32)) }
    {
        if self.filters.len() >= ENTRIES {
            return Err(AllocError);
        }
        self.filters.reserve(1)
    }

    /// Makes room for the step, or answers want of memory where the log or the filters would have
    /// more than have a number.
    pub fn reserve(&mut self, step: &Step) -> Result<(), AllocError>
        ensures search { self.new.search ≡ self.old.search }
        ensures board { self.new.board ≡ self.old.board }
        ensures room { OnOk result (HasRoom self.new step.now) }
    {
        match step {
            Step::Draw(worker) => self.make_taken(*worker),
            Step::Append(_, body) => self.make_entry(body),
            Step::Publish(_, _) => self.make_filter(),
            Step::Settle(worker, settled) => self.make_settled(*worker, settled),
            Step::Begin | Step::Look(_) | Step::Stop(_, _) | Step::Close => Ok(()),
        }
    }

    fn may_publish(&self, kept: &Kept) -> bool
        ensures { IsTrue result ↔ May self.now.search self.now.board (Publish 0 kept.now) }
    {
        let under = kept.under as usize;
        if self.log.len() < under {
            return false;
        }
        is_live(
            self.protocol,
            self.mode,
            &self.log.as_slice()[..under],
            &kept.filter,
        )
    }

    fn may_settle(&self, worker: u32, settled: &Settled) -> bool
        requires { worker < self.now.search.workers }
        ensures { IsTrue result ↔ May self.now.search self.now.board (Settle worker settled.now) }
    {
        let Some(part) = at(self.parts.as_slice(), settled.part as usize) else {
            return false;
        };
        if !is_among(worker, part.holders.as_slice()) {
            return false;
        }
        if self.seen[worker as usize] < settled.under as usize {
            return false;
        }
        has_all(self.filters.len(), settled.by.as_slice())
    }

    /// Whether the filters of a settlement are all live under the whole log.
    fn are_live(&self, settled: &Settled) -> bool
        ensures { IsTrue result ↔ AllByRecursion (IsLive self.now.search.protocol self.now.search.mode self.now.board.log) (filters_at self.now.board.filters settled.now.by) }
    {
        for place in settled.by.as_slice() {
            match at(self.filters.as_slice(), *place as usize) {
                None => {}
                Some(filter) => {
                    if !is_live(self.protocol, self.mode, self.log.as_slice(), filter) {
                        return false;
                    }
                }
            }
        }
        true
    }

    fn is_done(&self, part: &Part) -> bool
        ensures { IsTrue result ↔ IsDone self.now.search self.now.board.log self.now.board.filters part.now }
    {
        if !part.holders.is_empty() {
            return false;
        }
        match &part.last {
            None => false,
            Some(settled) => self.are_live(settled),
        }
    }

    fn may_close(&self) -> bool
        ensures { IsTrue result ↔ AllByRecursion (IsDone self.now.search self.now.board.log self.now.board.filters) self.now.board.parts }
    {
        for part in self.parts.as_slice() {
            if !self.is_done(part) {
                return false;
            }
        }
        true
    }

    /// Whether the step may be taken.
    fn may(&self, step: &Step) -> bool
        ensures { IsTrue result ↔ Accepts self.now.search self.now.board step.now }
    {
        if self.end != End::Running {
            return false;
        }
        match step {
            Step::Begin => true,
            Step::Draw(worker) => *worker < self.workers && self.drawn < self.parts.len(),
            Step::Look(worker) => *worker < self.workers,
            Step::Append(worker, _) => {
                *worker < self.workers && self.seen[*worker as usize] == self.log.len()
            }
            Step::Publish(worker, kept) => *worker < self.workers && self.may_publish(kept),
            Step::Settle(worker, settled) => {
                *worker < self.workers && self.may_settle(*worker, settled)
            }
            Step::Stop(worker, _) => *worker < self.workers,
            Step::Close => self.may_close(),
        }
    }

    /// Gives the next part to the worker, whose holders were made.
    fn draw(&mut self, worker: u32)
        requires within { self.old.board.drawn < length self.old.board.parts }
        requires room { HasRoom self.old (Draw worker) }
        ensures search { self.new.search ≡ self.old.search }
        ensures board { self.new.board ≡ after self.old.search self.old.board (Draw worker) }
    {
        let Made::Holders(holders) = std::mem::replace(&mut self.made, Made::Nothing) else {
            return;
        };
        self.parts[self.drawn].holders = holders;
        self.drawn += 1;
    }

    fn look(&mut self, worker: u32)
        requires { worker < self.old.search.workers }
        ensures search { self.new.search ≡ self.old.search }
        ensures board { self.new.board ≡ after self.old.search self.old.board (Look worker) }
    {
        self.seen[worker as usize] = self.log.len();
    }

    /// Appends the formula that was made.
    fn append(&mut self, worker: u32, body: &Body)
        requires seat { worker < self.old.search.workers }
        requires room { HasRoom self.old (Append worker body.now) }
        ensures search { self.new.search ≡ self.old.search }
        ensures board { self.new.board ≡ after self.old.search self.old.board (Append worker body.now) }
    {
        let Made::Entry(formula) = std::mem::replace(&mut self.made, Made::Nothing) else {
            return;
        };
        self.log.push_reserved(formula);
        self.seen[worker as usize] = self.log.len();
    }

    /// Takes the part out of the worker's hand; the holders that stay were made.
    fn settle(&mut self, worker: u32, settled: Settled)
        requires within { settled.part < length self.old.board.parts }
        requires room { HasRoom self.old (Settle worker settled) }
        ensures search { self.new.search ≡ self.old.search }
        ensures board { self.new.board ≡ after self.old.search self.old.board (Settle worker settled) }
    {
        let Made::Holders(holders) = std::mem::replace(&mut self.made, Made::Nothing) else {
            return;
        };
        let place = settled.part as usize;
        self.parts[place] = Part {
            holders,
            last: Some(settled),
        };
    }

    fn take(&mut self, step: Step)
        requires may { Accepts self.old.search self.old.board step }
        requires room { HasRoom self.old step }
        ensures search { self.new.search ≡ self.old.search }
        ensures board { self.new.board ≡ after self.old.search self.old.board step }
    {
        match step {
            Step::Begin => self.drawn = 0,
            Step::Draw(worker) => self.draw(worker),
            Step::Look(worker) => self.look(worker),
            Step::Append(worker, body) => self.append(worker, &body),
            Step::Publish(_, kept) => {
                let Kept {
                    filter,
                    worker: _,
                    body: _,
                    under: _,
                } = kept;
                self.filters.push_reserved(filter);
            }
            Step::Settle(worker, settled) => self.settle(worker, settled),
            Step::Stop(_, _) => self.end = End::Stopped,
            Step::Close => self.end = End::Closed,
        }
    }

    /// Takes the step where it may be taken; whether it was.
    pub fn step(&mut self, step: Step) -> bool
        requires { HasRoom self.old step }
        ensures answer { IsTrue result ↔ Accepts self.old.search self.old.board step }
        ensures search { self.new.search ≡ self.old.search }
        ensures board { self.new.board ≡ (if result then after self.old.search self.old.board step else self.old.board) }
    {
        if !self.may(&step) {
            return false;
        }
        self.take(step);
        true
    }
}
