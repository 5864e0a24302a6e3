//! That the real ends carry bytes and faults, of which no clause tells.
use crate::asserts::is;
use std::io;
use std::io::{ErrorKind, Read, Write};
use std::test::Fail;
use sw_edge::{ReadError, StdSink, StdSource, WriteFault, read_all, write_all};

#[derive(Drop)]
struct NoReader;

impl Read for NoReader {
    fn read(&mut self, _buf: &mut [u8]) -> io::Result<usize> {
        Err(ErrorKind::Other.into())
    }
}

#[derive(Drop)]
struct NoFlush;

impl Write for NoFlush {
    fn write(&mut self, buf: &[u8]) -> io::Result<usize> {
        Ok(buf.len())
    }

    fn flush(&mut self) -> io::Result<()> {
        Err(ErrorKind::Other.into())
    }
}

#[test]
fn the_real_ends_carry_bytes_and_faults(rt: HostRuntime) -> Result<(), Fail> {
    let mut source = StdSource::new(b"some bytes".as_slice());
    let all = read_all(rt.alloc(), &mut source, 10)?;
    is(&rt, all.as_slice() == b"some bytes".as_slice(), "all bytes");
    let failed = read_all(rt.alloc(), &mut StdSource::new(NoReader), 10);
    is(
        &rt,
        failed.err() == Some(ReadError::ReadFault),
        "a reader that fails",
    );

    let mut held = Vec::new(rt.alloc());
    is(
        &rt,
        write_all(&mut StdSink::new(&mut held), b"some bytes") == Ok(()),
        "a writer",
    );
    is(
        &rt,
        held.as_slice() == b"some bytes".as_slice(),
        "what it holds",
    );

    // A writer that takes nothing more, and one that can't flush.
    let mut room = [0; 4];
    let full = write_all(&mut StdSink::new(room.as_mut_slice()), b"abcde");
    is(&rt, full == Err(WriteFault), "a full writer");
    is(
        &rt,
        write_all(&mut StdSink::new(NoFlush), b"a") == Err(WriteFault),
        "a writer that can't flush",
    );
    Ok(())
}
