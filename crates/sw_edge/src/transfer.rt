// A whole text out of a source, and a whole text into a sink.
ghost use Rattle.std.specs.Prelude.{◌≡◌, ℕ, ◌+◌, ◌<◌, ◌≤◌, ◌↔◌, [], vec_len, IfOk, IfSome, OnOk, OnErr, IsErrOf};
ghost use Rattle.sw_edge.specs.Edge.{Took, Rose, Gains, GainsPrefix};

use crate::edge::{Got, Put, Sink, Source};
use std::alloc::{AllocError, Global};
use thiserror::Error;

/// The most bytes that one read asks for.
const CHUNK: usize = 65_536;

/// Why a source was not read to its end.
#[derive(Clone, Copy, Debug, PartialEq, Eq, Error)]
pub enum ReadError {
    #[error("the source failed")]
    ReadFault,
    #[error("the input is longer than its limit")]
    TooLong,
    #[error(transparent)]
    Memory(AllocError),
}

/// The sink failed before it had taken all bytes.
#[derive(Clone, Copy, Debug, PartialEq, Eq, Error)]
#[error("the sink failed")]
pub struct WriteFault;

// A buffer of so many zeros.
fn buffer(alloc: Global, size: usize) -> Result<Vec<u8>, AllocError>
    ensures { IfOk result (λ chunk. vec_len chunk ≡ size) }
{
    vec![in alloc; 0; size]
}

/// All bytes that a source has left, at most `limit`. Each read but the last takes a byte at
/// least, so there are at most `limit + 1` reads. Where memory runs out, what was read is lost.
pub fn read_all<S: Source>(
    alloc: Global,
    source: &mut S,
    limit: usize,
) -> Result<Vec<u8>, ReadError>
    ensures all { IfOk result (λ bytes. IfSome (S.left source.old) (λ left. bytes.items ≡ left)) }
    ensures end { OnOk result (IfSome (S.left source.new) (λ left. left ≡ [])) }
    ensures within { IfOk result (λ bytes. vec_len bytes ≤ limit) }

    // On every answer some n bytes were taken, and they were too many exactly where n is past the
    // limit, by one then.
    ensures taken { (n : ℕ) × Took (S.left source.old) (S.left source.new) n × (IsErrOf result ReadError.TooLong ↔ (limit < n)) × (n ≤ limit + 1) }
    ensures read_fault { result ≡ Err ReadError.ReadFault → Rose (S.faults source.old) (S.faults source.new) }
    ensures faults { S.faults source.old ≤ S.faults source.new }
{
    let mut all = Vec::new(alloc);
    let mut chunk = buffer(alloc, CHUNK).map_err(ReadError::Memory)?;
    loop {
        let room = limit - all.len();
        let part = &mut chunk[..room.saturating_add(1).min(CHUNK)];
        match source.read(part) {
            Got::Bytes(n) => {
                if n > room {
                    return Err(ReadError::TooLong);
                }
                all.extend_from_slice(&part[..n])
                    .map_err(ReadError::Memory)?;
            }
            Got::End => return Ok(all),
            Got::Failed => return Err(ReadError::ReadFault),
        }
    }
}

/// Writes all bytes to a sink, in as many pieces as it takes them.
pub fn write_all<O: Sink>(sink: &mut O, bytes: &[u8]) -> Result<(), WriteFault>
    ensures ok { OnOk result (Gains (O.held sink.old) (O.held sink.new) bytes.now) }
    ensures prefix { OnErr result (GainsPrefix (O.held sink.old) (O.held sink.new) bytes.now) }
    ensures write_fault { OnErr result (Rose (O.faults sink.old) (O.faults sink.new)) }
    ensures faults { O.faults sink.old ≤ O.faults sink.new }
{
    let mut rest = bytes;
    while !rest.is_empty() {
        match sink.write(rest) {
            Put::Bytes(n) => rest = &rest[n..],
            Put::Failed => return Err(WriteFault),
        }
    }
    Ok(())
}
