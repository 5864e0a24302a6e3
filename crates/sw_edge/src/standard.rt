// The real source, sink and gate, over the standard library's readers and writers.
ghost use Rattle.std.specs.Prelude.{◌≡◌, ◌<◌, None, length};
ghost use Rattle.sw_edge.specs.Edge.{ReadGives, ReadCause, WriteGives, WriteCause, faults_after_read, faults_after_write};

use crate::edge::{Gate, Got, Put, Sink, Source};
use std::io::{Read, Write};
use std::marker::Model;

/// A source over a reader. It tells no bytes. A clause sees it as its count of faults.
#[derive(Drop)]
pub struct StdSource<R: Read> {
    reader: R,
    faults: u64,
}

impl<R: Read> Model for StdSource<R> {
    ghost use Rattle.std.specs.Prelude.{ℕ};

    ghost Value = { ℕ };

    ghost view = { λ s. s.faults };
}

impl<R: Read> StdSource<R> {
    /// A source that reads from this reader.
    pub fn new(reader: R) -> StdSource<R>
        ensures { result ≡ 0 }
    {
        StdSource { reader, faults: 0 }
    }
}

impl<R: Read> Source for StdSource<R> {
    ghost left = { λ _. None };

    ghost faults = { λ s. s };

    /// A read of no bytes is the end, and each error of the reader is a fault.
    fn read(&mut self, buf: &mut [u8]) -> Got
        requires { 0 < length buf.old }
        ensures bytes { ReadGives None None buf.new result }
        ensures cause { ReadCause self.old self.new result }
        ensures faults { self.new ≡ faults_after_read self.old result }
    {
        match self.reader.read(buf) {
            Ok(0) => Got::End,
            Ok(n) => Got::Bytes(n),
            Err(_) => {
                self.faults = self.faults.saturating_add(1);
                Got::Failed
            }
        }
    }
}

/// A sink over a writer. It tells no bytes. A clause sees it as its count of faults.
#[derive(Drop)]
pub struct StdSink<W: Write> {
    writer: W,
    faults: u64,
}

impl<W: Write> Model for StdSink<W> {
    ghost use Rattle.std.specs.Prelude.{ℕ};

    ghost Value = { ℕ };

    ghost view = { λ s. s.faults };
}

impl<W: Write> StdSink<W> {
    /// A sink that writes to this writer.
    pub fn new(writer: W) -> StdSink<W>
        ensures { result ≡ 0 }
    {
        StdSink { writer, faults: 0 }
    }
}

impl<W: Write> Sink for StdSink<W> {
    ghost held = { λ _. None };

    ghost faults = { λ s. s };

    /// The writer is flushed after each write. A write of no bytes is a fault, and so is each
    /// error of a write or a flush.
    fn write(&mut self, piece: &[u8]) -> Put
        requires { 0 < length piece.now }
        ensures bytes { WriteGives None None piece.now result }
        ensures cause { WriteCause self.old self.new result }
        ensures faults { self.new ≡ faults_after_write self.old result }
    {
        if let Ok(n) = self.writer.write(piece)
            && n > 0
            && self.writer.flush().is_ok()
        {
            return Put::Bytes(n);
        }
        self.faults = self.faults.saturating_add(1);
        Put::Failed
    }
}

/// The gate that holds nobody back.
#[derive(Clone, Copy, PartialEq, Eq)]
pub struct OpenGate;

impl Gate for OpenGate {
    fn pass(&self, _worker: u32, _part: u64) {}
}
