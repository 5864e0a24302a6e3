// A source and a sink in memory, which follow a list of turns and then move all that they can.
ghost use Rattle.std.specs.Prelude.{◌≡◌, ◌-◌, ◌<◌, ◌≤◌, [], length, drop, slice_get, Some, IfOk};
ghost use Rattle.sw_edge.specs.Edge.{ReadGives, ReadCause, WriteGives, WriteCause, faults_after_read, faults_after_write};
ghost use Rattle.sw_edge.specs.Turns.{most_of, got_of, put_of};

use crate::edge::{Got, Put, Sink, Source};
use std::alloc::{AllocError, Global};
use std::marker::Model;
use std::vec;

/// What a source or a sink in memory does at one call.
#[derive(Clone, Copy, PartialEq, Eq)]
pub enum Turn {
    /// It moves as many bytes as it can, at most so many. `Take(0)` is as `Take(1)`.
    Take(u32),
    /// It fails and moves nothing.
    Fail,
}

// The most bytes that a turn moves, or `None` for a fault.
fn most(turn: Option<Turn>) -> Option<usize>
    ensures { result ≡ most_of turn }
{
    match turn {
        None => Some(usize::MAX),
        Some(Turn::Take(n)) => Some((n as usize).max(1)),
        Some(Turn::Fail) => None,
    }
}

/// A source that gives the bytes that it was made of.
#[derive(Drop)]
pub struct MemSource {
    bytes: Vec<u8>,
    given: usize,
    turns: vec::IntoIter<Turn>,
    faults: u64,
}

impl Model for MemSource {
    ghost use Rattle.std.specs.Prelude.{◌≤◌, drop, vec_len};
    ghost use Rattle.std.specs.Vec.Iter.{into_iter_items};
    ghost use Rattle.sw_edge.specs.Turns.{Supply};

    ghost Value = { Supply };

    ghost view = { λ s. record {
      left = drop s.given s.bytes.items;
      turns = into_iter_items s.turns;
      faults = s.faults;
    } };

    ghost invariant = { λ s. s.given ≤ vec_len s.bytes };
}

impl MemSource {
    /// A source of these bytes, which takes one of the turns at each read.
    pub fn new(bytes: Vec<u8>, turns: Vec<Turn>) -> MemSource
        ensures bytes { result.left ≡ bytes.items }
        ensures turns { result.turns ≡ turns.items }
        ensures faults { result.faults ≡ 0 }
    {
        MemSource {
            bytes,
            given: 0,
            turns: turns.into_iter(),
            faults: 0,
        }
    }
}

impl Source for MemSource {
    ghost left = { λ s. Some s.left };

    ghost faults = { λ s. s.faults };

    fn read(&mut self, buf: &mut [u8]) -> Got
        requires { 0 < length buf.old }
        ensures bytes { ReadGives (Some self.old.left) (Some self.new.left) buf.new result }
        ensures cause { ReadCause self.old.faults self.new.faults result }

        // The answer is that of the next turn, which this call uses up.
        ensures turn { result ≡ got_of (most_of (slice_get self.old.turns 0)) (length buf.old) (length self.old.left) }
        ensures turns { self.new.turns ≡ drop 1 self.old.turns }
        ensures faults { self.new.faults ≡ faults_after_read self.old.faults result }
    {
        let Some(most) = most(self.turns.next()) else {
            self.faults = self.faults.saturating_add(1);
            return Got::Failed;
        };
        let n = most.min(buf.len()).min(self.bytes.len() - self.given);
        if n == 0 {
            return Got::End;
        }
        let end = self.given + n;
        buf[..n].copy_from_slice(&self.bytes[self.given..end]);
        self.given = end;
        Got::Bytes(n)
    }
}

/// A sink that keeps what it takes, up to the room that it was made with.
#[derive(Drop)]
pub struct MemSink {
    bytes: Vec<u8>,
    room: usize,
    turns: vec::IntoIter<Turn>,
    faults: u64,
}

impl Model for MemSink {
    ghost use Rattle.std.specs.Prelude.{◌≤◌, vec_len, vec_capacity};
    ghost use Rattle.std.specs.Vec.Iter.{into_iter_items};
    ghost use Rattle.sw_edge.specs.Turns.{Store};

    ghost Value = { Store };

    ghost view = { λ s. record {
      held = s.bytes.items;
      room = s.room;
      turns = into_iter_items s.turns;
      faults = s.faults;
    } };

    ghost invariant = { λ s. (vec_len s.bytes ≤ s.room) × (s.room ≤ vec_capacity s.bytes) };
}

impl MemSink {
    /// An empty sink with room for so many bytes, which takes one of the turns at each write.
    pub fn new(alloc: Global, room: usize, turns: Vec<Turn>) -> Result<MemSink, AllocError>
        ensures empty { IfOk result (λ sink. sink.held ≡ []) }
        ensures room { IfOk result (λ sink. sink.room ≡ room) }
        ensures turns { IfOk result (λ sink. sink.turns ≡ turns.items) }
        ensures faults { IfOk result (λ sink. sink.faults ≡ 0) }
    {
        Ok(MemSink {
            bytes: Vec::with_capacity(alloc, room)?,
            room,
            turns: turns.into_iter(),
            faults: 0,
        })
    }

    /// The bytes that it has taken, in their order.
    pub fn bytes(&self) -> &Vec<u8>
        ensures held { result.now.items ≡ self.now.held }
        ensures within { length self.now.held ≤ self.now.room }
    {
        &self.bytes
    }
}

impl Sink for MemSink {
    ghost held = { λ s. Some s.held };

    ghost faults = { λ s. s.faults };

    fn write(&mut self, piece: &[u8]) -> Put
        requires { 0 < length piece.now }
        ensures bytes { WriteGives (Some self.old.held) (Some self.new.held) piece.now result }
        ensures cause { WriteCause self.old.faults self.new.faults result }

        // The answer is that of the next turn, which this call uses up.
        ensures turn { result ≡ put_of (most_of (slice_get self.old.turns 0)) (length piece.now) (self.old.room - length self.old.held) }
        ensures turns { self.new.turns ≡ drop 1 self.old.turns }
        ensures faults { self.new.faults ≡ faults_after_write self.old.faults result }
        ensures room { self.new.room ≡ self.old.room }
    {
        let most = most(self.turns.next()).unwrap_or(0);
        let n = most.min(piece.len()).min(self.room - self.bytes.len());
        if n == 0 {
            self.faults = self.faults.saturating_add(1);
            return Put::Failed;
        }
        self.bytes.extend_from_slice(&piece[..n]).unwrap();
        Put::Bytes(n)
    }
}
