// Sources, sinks and gates: what the rest of the program may ask of the outside.
ghost use Rattle.std.specs.Prelude.{ℕ, ◌<◌, List, Option, length};

/// What one read of a source gave.
#[derive(Clone, Copy, PartialEq, Eq)]
pub enum Got {
    /// So many bytes, at the front of the buffer.
    Bytes(usize),
    /// Nothing was left.
    End,
    /// The source failed, and took nothing.
    Failed,
}

/// What one write to a sink took.
#[derive(Clone, Copy, PartialEq, Eq)]
pub enum Put {
    /// So many bytes, from the front of the piece.
    Bytes(usize),
    /// The sink failed, and took nothing.
    Failed,
}

/// Where bytes come from. `left` is the bytes that are still to come, where the source tells
/// them, and `faults` is how often it has failed.
pub trait Source {
    ghost use Rattle.sw_edge.specs.Edge.{ReadGives, ReadCause};

    ghost left: { Self → Option (List ℕ) };

    ghost faults: { Self → ℕ };

    fn read(&mut self, buf: &mut [u8]) -> Got
        requires { 0 < length buf.old }
        ensures bytes { ReadGives (left self.old) (left self.new) buf.new result }
        ensures cause { ReadCause (faults self.old) (faults self.new) result };
}

/// Where bytes go to. `held` is the bytes that it has taken, where the sink tells them, and
/// `faults` is how often it has failed.
pub trait Sink {
    ghost use Rattle.sw_edge.specs.Edge.{WriteGives, WriteCause};

    ghost held: { Self → Option (List ℕ) };

    ghost faults: { Self → ℕ };

    fn write(&mut self, piece: &[u8]) -> Put
        requires { 0 < length piece.now }
        ensures bytes { WriteGives (held self.old) (held self.new) piece.now result }
        ensures cause { WriteCause (faults self.old) (faults self.new) result };
}

/// A point that a worker passes after each part of the work that it draws, so that a test can
/// hold a worker back. It returns, and no answer of the program depends on it.
pub trait Gate {
    fn pass(&self, worker: u32, part: u64);
}
