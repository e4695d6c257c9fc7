//! Reads a whole file through a desk.
ghost use Rattle.std.specs.Prelude.{◌≡◌, ◌<◌, ◌≤◌, ◌+◌, ℕ, [], Some, length, IfOk, IfSome, IsErrOf};
ghost use Rattle.std.specs.Prelude.{vec_len};
ghost use Rattle.std.specs.Io.KnownBytes.{Keeps};
ghost use Rattle.outside_io.specs.Counts.{Rose};
ghost use Rattle.outside_io.specs.Desk.{GoesOnTelling};
ghost use Rattle.outside_io.specs.Reading.{TakesUpTo};
ghost use Rattle.outside_io.specs.declared.reading.TheConstants.{MAX_FILE};
ghost use Rattle.outside_io.specs.declared.reading.ReadWhole.TheVariants.{OutOfMemory};

use crate::{Begin, Desk, Got};
use std::alloc::{AllocError, Global};

/// Why a file was not read whole.
#[derive(Clone, Copy, Debug, PartialEq, Eq)]
pub enum ReadWhole {
    /// The desk failed to begin or to read the file.
    Fault,
    /// The file has more bytes than the limit.
    TooLong,
    /// There was not enough memory for the bytes of the file.
    OutOfMemory,
}

impl From<AllocError> for ReadWhole {
    ghost from_gives = { λ _ e. e ≡ OutOfMemory };

    fn from(_: AllocError) -> Self {
        ReadWhole::OutOfMemory
    }
}

/// The largest limit that [`read_whole`] accepts, in bytes (256 MiB).
pub const MAX_FILE: usize = 268_435_456;

// The most bytes that one read asks for.
const PIECE: usize = 65_536;

/// Reads all bytes of the named file, of which there may be at most `limit`.
///
/// `TooLong` is returned if and only if one byte more than the limit was read; no more than that is
/// ever read. After an error, part of the file may have been read; the next `begin` starts over.
pub fn read_whole<D: Desk>(
    alloc: Global,
    desk: &mut D,
    name: &str,
    limit: usize,
) -> Result<Vec<u8>, ReadWhole>
    requires { limit ≤ MAX_FILE }
    ensures whole { IfOk result (λ bytes. Keeps (D.held desk.old name.now) (Some bytes.items)) }
    ensures nothing_left { IfOk result (λ _.
        IfSome (D.held desk.old name.now) (λ _. D.left desk.new ≡ Some [])) }
    ensures within { IfOk result (λ bytes. vec_len bytes ≤ limit) }
    ensures taken { TakesUpTo result limit (D.taken desk.old) (D.taken desk.new) }
    ensures longer { IsErrOf result ReadWhole.TooLong →
        IfSome (D.held desk.old name.now) (λ bytes. limit < length bytes) }

    ensures fault { IsErrOf result ReadWhole.Fault → Rose (D.faults desk.old) (D.faults desk.new) }
    ensures later { D.faults desk.old ≤ D.faults desk.new }
    ensures reads { D.reads desk.new ≤ D.reads desk.old + (limit + 2) }
    ensures held { D.held desk.new ≡ D.held desk.old }
    ensures told { GoesOnTelling (D.left desk.old) (D.left desk.new) }
    ensures asked { IfSome (D.asked desk.new) (λ asked. asked ≡ name.now) }
{
    if desk.begin(name) == Begin::Failed {
        return Err(ReadWhole::Fault);
    }
    let mut bytes = Vec::new(alloc);
    let mut buffer = [0u8; PIECE];
    while bytes.len() <= limit {
        let room = (limit + 1 - bytes.len()).min(PIECE);
        match desk.read(&mut buffer[..room]) {
            Got::Bytes(count) => bytes.extend_from_slice(&buffer[..count])?,
            Got::End => return Ok(bytes),
            Got::Failed => return Err(ReadWhole::Fault),
        }
    }
    Err(ReadWhole::TooLong)
}
