//! Claims on numbered parts, and the seats that draw them.
ghost use Rattle.std.specs.Prelude.{◌≡◌, ℕ, ◌+◌, ◌-◌, ◌^◌, ◌<◌, ◌≤◌, ◌↔◌, true, nat_lt, [], ◌∷◌, length, IfOk, IsNone, IfSome, IfNone, min};
ghost use Rattle.sw_claims.specs.ClaimsRule.{opened, fresh};
ghost use Rattle.sw_claims.specs.ClaimsSteps.{given, taken, looked, IsAlone, Finds};
ghost use Rattle.sw_claims.specs.ClaimsAnswers.{Draws, DrawsNumber, MeetsEnd, SeesReason, Stops, IsEachBelow};

use crate::rule::{
    ClaimView, ClaimsRule, DrawStep, JoinStep, LookStep, MOST_PARTS, MOST_SEATS, SplitStep,
    StopStep,
};
use atomic_table::{Seat, Table};
use std::alloc::{AllocError, Global};
use std::marker::Model;

const DRAW_WORD: usize = 0;

const STOP_WORD: usize = 1;

/// What a draw gives.
#[derive(Clone, Copy, Debug, PartialEq, Eq)]
pub enum Drawn {
    /// A number below the number of parts, which no other draw gives.
    Number(u64),
    /// Each number below the number of parts was drawn.
    AllDrawn,
    /// A seat stopped the claims for this reason.
    Stopped(u64),
}

/// A thread's place at the claims, with which it draws and stops.
#[derive(Drop)]
pub struct ClaimSeat {
    seat: Seat<(), ClaimView>,
    parts: u64,
    splits: u32,
    met_end: bool,
}

impl Model for ClaimSeat {
    ghost use Rattle.sw_claims.specs.Seats.{SeatValue, Sits};

    ghost Value = { SeatValue };

    ghost view = { λ s. record { object = s.seat.table_id; view = s.seat.me.0 } };

    ghost invariant = { λ s. Sits s.seat.me s.parts s.splits s.met_end };
}

/// The parts 0, 1 and on, which threads draw through a `&` to the claims, each with a seat of its own.
/// A clause sees the claims as the object that they are, which each of their seats names.
#[derive(Drop)]
pub struct Claims {
    table: Table<(), ClaimView, (u64, u32), ClaimsRule, Global>,
}

impl Model for Claims {
    ghost use Rattle.std.specs.Prelude.{◌≡◌};
    ghost use Rattle.atomic_table.specs.Seated.{TableId, table_id_coded};

    ghost Value = { TableId };

    ghost coded = { table_id_coded };

    ghost view = { λ c. c.table.shared.table_id };

    ghost invariant = { λ c. (c.table.shared.table_id.words ≡ 2) × (c.table.shared.table_id.slots ≡ 0) };
}

impl Claims {
    /// The claims on `parts` parts, and the first seat, which may split `seats - 1` times.
    pub fn new(alloc: Global, parts: u64, seats: u32) -> Result<(Claims, ClaimSeat), AllocError>
        requires parts { parts ≤ MOST_PARTS }
        requires seats { (1 ≤ seats) × (seats ≤ MOST_SEATS) }
        ensures { IfOk result (λ made. (made.1.object ≡ made.0) × (made.1.view ≡ opened parts (seats - 1))) }
    {
        let (table, seat) = Table::of_words(alloc, &[0, 0], &(parts, seats))?;
        let first = ClaimSeat {
            seat,
            parts,
            splits: seats - 1,
            met_end: false,
        };
        Ok((Claims { table }, first))
    }

    /// Draws a number by one `fetch_add`, after one load of the stop word. A seat that has met the end only loads.
    pub fn draw(&self, seat: &mut ClaimSeat) -> Drawn
        requires { seat.old.object ≡ self.now }
        ensures object { seat.new.object ≡ seat.old.object }
        ensures draws { Draws seat.old.view result seat.new.view }
    {
        let reason = self.look(seat);
        if reason != 0 {
            return Drawn::Stopped(reason);
        }
        match self.next_number(seat) {
            Some(number) => Drawn::Number(number),
            None => Drawn::AllDrawn,
        }
    }

    /// The reason in the stop word, or 0, by one load.
    fn look(&self, seat: &mut ClaimSeat) -> u64
        requires { seat.old.object ≡ self.now }
        ensures object { seat.new.object ≡ seat.old.object }
        ensures found { Finds seat.old.view result }
        ensures running { result ≡ 0 → seat.new.view ≡ looked seat.old.view }
        ensures stopped { 1 ≤ result → SeesReason (looked seat.old.view) result seat.new.view }
    {
        let shared = &self.table.shared;
        shared.load::<LookStep>(&mut seat.seat, STOP_WORD)
    }

    /// A number by one `fetch_add`, or `None` at the end. A seat that has met the end takes no step.
    fn next_number(&self, seat: &mut ClaimSeat) -> Option<u64>
        requires { seat.old.object ≡ self.now }
        ensures object { seat.new.object ≡ seat.old.object }
        ensures number { IfSome result (λ n. DrawsNumber seat.old.view n seat.new.view) }
        ensures end { IfNone result (MeetsEnd seat.old.view seat.new.view) }
    {
        if seat.met_end {
            return None;
        }
        let shared = &self.table.shared;
        let number = shared.fetch_add::<DrawStep>(&mut seat.seat, DRAW_WORD, 1);
        if number < seat.parts {
            return Some(number);
        }
        seat.met_end = true;
        None
    }

    /// Writes the reason by one `compare_exchange`, if none stands yet, and gives the reason that stands.
    pub fn stop(&self, seat: &mut ClaimSeat, reason: u64) -> u64
        requires object { seat.old.object ≡ self.now }
        requires reason { 1 ≤ reason }
        ensures object { seat.new.object ≡ seat.old.object }
        ensures stops { Stops seat.old.view reason result seat.new.view }
    {
        let shared = &self.table.shared;
        let found = shared.compare_exchange::<StopStep>(&mut seat.seat, STOP_WORD, 0, reason);
        if found == 0 { reason } else { found }
    }

    /// A new seat, which has no splits.
    pub fn split(&self, seat: &mut ClaimSeat) -> Option<ClaimSeat>
        requires { seat.old.object ≡ self.now }
        ensures none { IsNone result ↔ (seat.old.view.splits ≡ 0) }
        ensures kept { IfNone result (seat.new ≡ seat.old) }
        ensures made { IfSome result (λ made. made ≡ record seat.old { view = fresh seat.old.view.parts }) }
        ensures given { IfSome result (λ _. seat.new ≡ record seat.old { view = given seat.old.view }) }
    {
        if seat.splits == 0 {
            return None;
        }
        let parts = seat.parts;
        let made = self.table.shared.split_seat::<SplitStep>(&mut seat.seat);
        seat.splits -= 1;
        Some(ClaimSeat {
            seat: made,
            parts,
            splits: 0,
            met_end: false,
        })
    }

    /// Takes what another seat knows into the first one.
    pub fn join(&self, seat: &mut ClaimSeat, other: ClaimSeat)
        requires object { (seat.old.object ≡ self.now) × (other.object ≡ self.now) }
        requires first { seat.old.view.first ≡ true }
        ensures { seat.new ≡ record seat.old { view = taken seat.old.view other.view } }
    {
        let ClaimSeat {
            seat: joined,
            parts: _,
            splits: _,
            met_end,
        } = other;
        let shared = &self.table.shared;
        shared.join_seat::<JoinStep>(&mut seat.seat, joined);
        seat.met_end = seat.met_end || met_end;
    }

    /// The number of parts drawn, once all other seats were joined into the first one.
    pub fn close(self, seat: ClaimSeat) -> u64
        requires object { seat.object ≡ self }
        requires alone { IsAlone seat.view }
        ensures numbers { IsEachBelow result seat.view.drawn }
        ensures within { result ≤ seat.view.parts }
        ensures whole { 1 ≤ seat.view.ends → result ≡ seat.view.parts }
        ensures reason { 1 ≤ seat.view.seen → seat.view.wrote ≡ seat.view.seen }
    {
        let ClaimSeat {
            seat,
            parts,
            splits: _,
            met_end: _,
        } = seat;
        let Claims { table } = self;
        let closed = table.close_with(seat);
        let drawn = closed.word(DRAW_WORD).min(parts);
        closed.free();
        drawn
    }
}
