//! Writes a whole piece to a sink.
ghost use Rattle.std.specs.Prelude.{◌≤◌, ℕ, OnOk, OnErr};
ghost use Rattle.std.specs.Io.KnownBytes.{Appends};
ghost use Rattle.outside_io.specs.Counts.{Rose};
ghost use Rattle.outside_io.specs.Sink.{AppendsSome};

use crate::{Sink, Took};

/// The sink failed before it had taken all bytes, or before it had sent on all bytes taken.
#[derive(Clone, Copy, Debug, PartialEq, Eq)]
pub struct WriteFault;

/// Writes all of `bytes`, in as many writes as the sink needs. On an error a prefix was written.
#[inline(always)]
pub fn write_whole<K: Sink>(out: &mut K, bytes: &[u8]) -> Result<(), WriteFault>
    ensures whole { OnOk result (Appends (K.written out.old) (K.written out.new) bytes.now) }
    ensures part { OnErr result (AppendsSome (K.written out.old) (K.written out.new) bytes.now) }
    ensures fault { OnErr result (Rose (K.faults out.old) (K.faults out.new)) }
    ensures later { K.faults out.old ≤ K.faults out.new }
{
    let mut done = 0;
    while done < bytes.len() {
        match out.write(&bytes[done..]) {
            Took::Bytes(count) => done += count,
            Took::Failed => return Err(WriteFault),
        }
    }
    Ok(())
}
