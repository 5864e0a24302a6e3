//! A log that threads share, and the seats that look and append.
ghost use Rattle.std.specs.Prelude.{◌≡◌, ℕ, ◌-◌, ◌≤◌, ◌<◌, ◌+◌, ◌^◌, ◌↔◌, true, false, [], ◌∷◌, ◌++◌, length, IfOk, IfErr, IsNone, IfSome, IfNone};
ghost use mathlib.Core.List.{IsPrefix};
ghost use Rattle.sw_log.specs.LogRule.{opened, fresh, Placed, HoldsEach};
ghost use Rattle.sw_log.specs.LogSteps.{given, appended, freed, joined, longer_of, shorter_of, IsAlone, IsIdle, HasSlot, HasList, Takes, SeesLength};
ghost use Rattle.sw_log.specs.LogAnswers.{Sees, Appends};

use crate::entry::{Entry, copy_entries};
use crate::rule::{
    FreeStep, JoinStep, LengthStep, LogRule, LogView, SplitStep, StoreStep, TakeStep,
};
use atomic_table::{Seat, Table};
use std::alloc::{AllocError, AllocFailed, Global};
use std::marker::Model;
use std::snapshot::Snapshot;
use std::sync::Wait;
use std::thread;

const TURN_WORD: usize = 0;

const LENGTH_WORD: usize = 1;

const SLOT: usize = 0;

/// What an append answers.
#[derive(Drop)]
pub enum Appended {
    /// The entry is the last one, at its place.
    Done,
    /// The log is longer than the list that the entry was examined under. This is the log.
    Behind(Vec<Entry>),
    /// Want of memory. The entry comes back, and the log is as it was.
    Memory(Entry),
}

/// A thread's place at the log, with which it looks and appends.
#[derive(Drop)]
pub struct LogSeat {
    seat: Seat<Vec<Entry>, LogView>,
    splits: u32,
}

impl Model for LogSeat {
    ghost use Rattle.sw_log.specs.Seats.{SeatValue, Sits};

    ghost Value = { SeatValue };

    ghost view = { λ s. record { object = s.seat.table_id; view = s.seat.me.0 } };

    ghost invariant = { λ s. Sits s.seat.me s.splits };
}

/// A list that threads append to through a `&`, each with a seat of its own.
/// A clause sees the log as the object that it is, which each of its seats names.
#[derive(Drop)]
pub struct SharedLog {
    table: Table<Vec<Entry>, LogView, (Snapshot<Vec<Entry>>, u32), LogRule, Global>,
}

impl Model for SharedLog {
    ghost use Rattle.std.specs.Prelude.{◌≡◌};
    ghost use Rattle.atomic_table.specs.Seated.{TableId, table_id_coded};

    ghost Value = { TableId };

    ghost coded = { table_id_coded };

    ghost view = { λ c. c.table.shared.table_id };

    ghost invariant = { λ c. (c.table.shared.table_id.words ≡ 2) × (c.table.shared.table_id.slots ≡ 1) };
}

impl SharedLog {
    /// The log of these entries, and the first seat, which has seen and owns them and may split `seats - 1` times.
    pub fn new(
        alloc: Global,
        entries: Vec<Entry>,
        seats: u32,
    ) -> Result<(SharedLog, LogSeat), AllocError>
        requires placed { Placed entries.items }
        requires seats { 1 ≤ seats }
        ensures { IfOk result (λ made. (made.1.object ≡ made.0) × (made.1.view ≡ opened entries.items (seats - 1))) }
    {
        let Ok(length) = u32::try_from(entries.len()) else {
            return Err(AllocError);
        };
        let opening = Snapshot::of(&entries);
        let mut slots = Vec::new(alloc);
        slots.push(entries)?;
        let Ok((table, seat)) = Table::new(alloc, &[0, length as u64], slots, &(opening, seats))
        else {
            return Err(AllocError);
        };
        let first = LogSeat {
            seat,
            splits: seats - 1,
        };
        Ok((SharedLog { table }, first))
    }

    /// The length of the log, by one load.
    pub fn length(&self, seat: &mut LogSeat) -> u32
        requires { seat.old.object ≡ self.now }
        ensures seat { seat.new ≡ seat.old }
        ensures length { SeesLength seat.old.view result }
    {
        let shared = &self.table.shared;
        shared.load::<LengthStep>(&mut seat.seat, LENGTH_WORD) as u32
    }

    /// Waits for the turn, and takes the list out of the slot.
    fn take<H: Wait>(
        &self,
        rt: &H,
        alloc: Global,
        seat: &mut Seat<Vec<Entry>, LogView>,
    ) -> Vec<Entry>
        requires table { seat.old.table_id ≡ self.now }
        requires idle { IsIdle seat.old.me }
        ensures table { seat.new.table_id ≡ seat.old.table_id }
        ensures took { Takes seat.old.me.0 result.items seat.new.me }
    {
        let shared = &self.table.shared;
        for _ in rt.forever() {
            if shared.compare_exchange::<TakeStep>(seat, TURN_WORD, 0, 1) == 0 {
                return shared.exchange(seat, SLOT, Vec::new(alloc));
            }
            thread::yield_now();
        }
        unreachable!()
    }

    /// Puts the list into the slot.
    fn put(&self, seat: &mut Seat<Vec<Entry>, LogView>, list: Vec<Entry>)
        requires table { seat.old.table_id ≡ self.now }
        requires slot { HasSlot seat.old.me.1 }
        ensures table { seat.new.table_id ≡ seat.old.table_id }
        ensures view { seat.new.me.0 ≡ seat.old.me.0 }
        ensures list { HasList list.items seat.new.me.1 }
    {
        drop(self.table.shared.exchange(seat, SLOT, list));
    }

    /// Gives the turn and the slot back.
    fn free(&self, seat: &mut Seat<Vec<Entry>, LogView>)
        requires table { seat.old.table_id ≡ self.now }
        requires holds { seat.old.me.0.holds ≡ true }
        requires list { HasList seat.old.me.0.seen seat.old.me.1 }
        ensures table { seat.new.table_id ≡ seat.old.table_id }
        ensures freed { seat.new.me ≡ (freed seat.old.me.0, []) }
    {
        self.table.shared.store::<FreeStep>(seat, TURN_WORD, 0);
    }

    /// Puts the list back into the slot as it was, and gives the turn back.
    fn put_back(&self, seat: &mut Seat<Vec<Entry>, LogView>, list: Vec<Entry>)
        requires table { seat.old.table_id ≡ self.now }
        requires holds { seat.old.me.0.holds ≡ true }
        requires slot { HasSlot seat.old.me.1 }
        requires list { list.items ≡ seat.old.me.0.seen }
        ensures table { seat.new.table_id ≡ seat.old.table_id }
        ensures freed { seat.new.me ≡ (freed seat.old.me.0, []) }
    {
        self.put(seat, list);
        self.free(seat);
    }

    /// The log, which begins with all that the seat had seen.
    pub fn look<H: Wait>(
        &self,
        rt: &H,
        alloc: Global,
        seat: &mut LogSeat,
    ) -> Result<Vec<Entry>, AllocError>
        requires { seat.old.object ≡ self.now }
        ensures object { seat.new.object ≡ seat.old.object }
        ensures list { IfOk result (λ list. Sees seat.old.view list.items seat.new.view) }
        ensures memory { IfErr result (λ _. Sees seat.old.view seat.new.view.seen seat.new.view) }
    {
        let list = self.take(rt, alloc, &mut seat.seat);
        let seen = copy_entries(alloc, &list);
        self.put_back(&mut seat.seat, list);
        seen
    }

    /// Puts the entry last, or hands it back for want of memory, and gives the turn back.
    fn append_last(
        &self,
        seat: &mut Seat<Vec<Entry>, LogView>,
        list: Vec<Entry>,
        entry: Entry,
    ) -> Result<(), Entry>
        requires table { seat.old.table_id ≡ self.now }
        requires holds { seat.old.me.0.holds ≡ true }
        requires slot { HasSlot seat.old.me.1 }
        requires list { list.items ≡ seat.old.me.0.seen }
        requires last { length list.items ≡ entry.under }
        ensures table { seat.new.table_id ≡ seat.old.table_id }
        ensures done { IfOk result (λ _. seat.new.me ≡ (freed (appended seat.old.me.0 entry), [])) }
        ensures memory { IfErr result (λ back. (back ≡ entry) × (seat.new.me ≡ (freed seat.old.me.0, []))) }
    {
        let mut longer = list;
        let under = entry.under;
        if under == u32::MAX {
            self.put_back(seat, longer);
            return Err(entry);
        }
        if let Err(failed) = longer.push(entry) {
            let AllocFailed { value } = failed;
            self.put_back(seat, longer);
            return Err(value);
        }
        self.put(seat, longer);
        self.table
            .shared
            .store::<StoreStep>(seat, LENGTH_WORD, under as u64 + 1);
        self.free(seat);
        Ok(())
    }

    /// Puts the entry at the place that it names, if the log is no longer than that.
    pub fn append<H: Wait>(
        &self,
        rt: &H,
        alloc: Global,
        seat: &mut LogSeat,
        entry: Entry,
    ) -> Appended
        requires object { seat.old.object ≡ self.now }
        requires under { entry.under ≤ length seat.old.view.seen }
        ensures object { seat.new.object ≡ seat.old.object }
        ensures appends { Appends seat.old.view entry result seat.new.view }
    {
        let list = self.take(rt, alloc, &mut seat.seat);
        if list.len() > entry.under as usize {
            let copy = copy_entries(alloc, &list);
            self.put_back(&mut seat.seat, list);
            return match copy {
                Ok(copy) => Appended::Behind(copy),
                Err(_) => Appended::Memory(entry),
            };
        }
        match self.append_last(&mut seat.seat, list, entry) {
            Ok(()) => Appended::Done,
            Err(entry) => Appended::Memory(entry),
        }
    }

    /// A new seat, which has seen the same, owns nothing and has no splits.
    pub fn split(&self, seat: &mut LogSeat) -> Option<LogSeat>
        requires { seat.old.object ≡ self.now }
        ensures none { IsNone result ↔ (seat.old.view.splits ≡ 0) }
        ensures kept { IfNone result (seat.new ≡ seat.old) }
        ensures made { IfSome result (λ made. made ≡ record seat.old { view = fresh seat.old.view.seen }) }
        ensures given { IfSome result (λ _. seat.new ≡ record seat.old { view = given seat.old.view }) }
    {
        if seat.splits == 0 {
            return None;
        }
        let made = self.table.shared.split_seat::<SplitStep>(&mut seat.seat);
        seat.splits -= 1;
        Some(LogSeat {
            seat: made,
            splits: 0,
        })
    }

    /// Takes what another seat knows into the first one. Of the lists that the two have seen one begins the other.
    pub fn join(&self, seat: &mut LogSeat, other: LogSeat)
        requires object { (seat.old.object ≡ self.now) × (other.object ≡ self.now) }
        requires first { seat.old.view.first ≡ true }
        ensures joined { seat.new ≡ record seat.old { view = joined seat.old.view other.view } }
        ensures begins { IsPrefix (shorter_of seat.old.view.seen other.view.seen) (longer_of seat.old.view.seen other.view.seen) }
    {
        let LogSeat {
            seat: other,
            splits: _,
        } = other;
        let shared = &self.table.shared;
        shared.join_seat::<JoinStep>(&mut seat.seat, other);
        shared.load::<LengthStep>(&mut seat.seat, LENGTH_WORD);
    }

    /// The log, once all other seats were joined into the first one.
    pub fn close(self, seat: LogSeat) -> Vec<Entry>
        requires object { seat.object ≡ self }
        requires alone { IsAlone seat.view }
        ensures list { result.items ≡ seat.view.seen }
        ensures placed { Placed result.items }
        ensures each { HoldsEach seat.view.own result.items }
    {
        let LogSeat { seat, splits: _ } = seat;
        let SharedLog { table } = self;
        let mut closed = table.close_with(seat);
        let list = closed.take(SLOT);
        closed.free();
        list
    }
}
