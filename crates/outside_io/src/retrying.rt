//! Calls of readers and writers that are made again if a signal interrupted them.
ghost use Rattle.std.specs.Io.{ReadsAtMost, WritesAtMost};
ghost use Rattle.std.specs.Io.KnownBytes.{Keeps, ReadConsumes, WriteAppends};

use std::io::{Error, ErrorKind, Read, Result, Write};

// The most times that a call is made, whether it reads, writes or flushes. If all of these were
// interrupted, that is its error.
const MAX_TRIES: u32 = 1_000_000;

/// Reads once into `buf`. An interrupted call takes no byte, and is made again.
pub(crate) fn read_retrying<R: Read>(reader: &mut R, buf: &mut [u8]) -> Result<usize>
    ensures bound { ReadsAtMost result buf.new }
    ensures bytes { ReadConsumes (R.remaining reader.old) (R.remaining reader.new) result buf.new }
{
    for _ in 0..MAX_TRIES {
        match reader.read(buf) {
            Ok(count) => return Ok(count),
            Err(error) if error.kind() == ErrorKind::Interrupted => {}
            Err(error) => return Err(error),
        }
    }
    Err(Error::from(ErrorKind::Interrupted))
}

/// Writes the first of `bytes` in one call. An interrupted call writes no byte, and is made again.
pub(crate) fn write_retrying<W: Write>(writer: &mut W, bytes: &[u8]) -> Result<usize>
    ensures bound { WritesAtMost result bytes.now }
    ensures bytes { WriteAppends (W.contents writer.old) (W.contents writer.new) result bytes.now }
{
    for _ in 0..MAX_TRIES {
        match writer.write(bytes) {
            Ok(count) => return Ok(count),
            Err(error) if error.kind() == ErrorKind::Interrupted => {}
            Err(error) => return Err(error),
        }
    }
    Err(Error::from(ErrorKind::Interrupted))
}

/// Flushes `writer`. An interrupted call is made again.
pub(crate) fn flush_retrying<W: Write>(writer: &mut W) -> Result<()>
    ensures bytes { Keeps (W.contents writer.old) (W.contents writer.new) }
{
    for _ in 0..MAX_TRIES {
        match writer.flush() {
            Ok(()) => return Ok(()),
            Err(error) if error.kind() == ErrorKind::Interrupted => {}
            Err(error) => return Err(error),
        }
    }
    Err(Error::from(ErrorKind::Interrupted))
}
