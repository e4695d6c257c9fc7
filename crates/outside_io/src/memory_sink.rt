//! A sink in memory that fails at listed writes and when it is full.
ghost use Rattle.std.specs.Prelude.{◌≡◌, ◌<◌, ◌≤◌, ℕ, [], Some, List, length, IfOk, vec_len};
ghost use Rattle.std.specs.Prelude.{IsOk, OnErr, OnOk, vec_capacity};
ghost use Rattle.std.specs.Io.KnownBytes.{IsAtEnd, Keeps};
ghost use Rattle.outside_io.specs.Counts.{Rose};
ghost use Rattle.outside_io.specs.Failures.{Counts, IsFresh};
ghost use Rattle.outside_io.specs.Sink.{Takes};

use crate::failures::Failures;
use crate::{Sink, Took, WriteFault};
use std::alloc::Global;
use steer_base::OutOfMemory;

/// Keeps what is written, up to its room. Writes are numbered from 1: the listed ones fail, and so
/// does a write of more bytes than the room left; every other write takes its whole piece. Bytes
/// count as unsent until the next flush, which never fails, so that a test notices a missing flush.
#[derive(Drop)]
pub struct MemorySink {
    bytes: Vec<u8>,
    sent: usize,
    room: usize,
    failures: Failures,
    ghost began: { sent ≤ vec_len bytes },
    ghost within: { vec_len bytes ≤ room },
    ghost reserved: { room ≤ vec_capacity bytes },
}

impl MemorySink {
    ghost use Rattle.outside_io.specs.MemorySink.{memory_sink_failures, room_of, unsent_by};
    ghost use Rattle.outside_io.specs.MemorySink.{written_to};

    /// An empty sink with room for this many bytes, all reserved here.
    pub fn make(alloc: Global, room: usize, failing: Vec<u64>) -> Result<Self, OutOfMemory>
        ensures empty { IfOk result (λ sink. written_to sink ≡ []) }
        ensures unsent { IfOk result (λ sink. unsent_by sink ≡ []) }
        ensures room { IfOk result (λ sink. room_of sink ≡ room) }
        ensures fresh { IfOk result (λ sink. IsFresh (memory_sink_failures sink) failing.items) }
    {
        Ok(MemorySink {
            bytes: Vec::with_capacity(alloc, room)?,
            sent: 0,
            room,
            failures: Failures::make(failing),
        })
    }

    /// All bytes written.
    pub fn bytes(&self) -> &[u8]
        ensures { result.now ≡ written_to self.now }
    {
        &self.bytes
    }

    /// What was written since the last flush.
    pub fn unsent(&self) -> &[u8]
        ensures { result.now ≡ unsent_by self.now }
    {
        &self.bytes[self.sent..]
    }
}

impl Sink for MemorySink {
    ghost use Rattle.outside_io.specs.MemorySink.{memory_sink_failures, memory_sink_faults};
    ghost use Rattle.outside_io.specs.MemorySink.{room_of, unsent_by};
    ghost use Rattle.outside_io.specs.MemorySink.{write_answer, write_fails, written_to};

    ghost written = { λ sink. Some (written_to sink) };

    ghost unsent = { λ sink. Some (unsent_by sink) };

    ghost faults = { λ sink. memory_sink_faults sink };

    fn write(&mut self, bytes: &[u8]) -> Took
        requires { 0 < length bytes.now }
        ensures written { Takes result bytes.now (Some (written_to self.old))
            (Some (written_to self.new)) }
        ensures unsent { Takes result bytes.now (Some (unsent_by self.old))
            (Some (unsent_by self.new)) }
        ensures later { memory_sink_faults self.old ≤ memory_sink_faults self.new }
        ensures failed { result ≡ Took.Failed → Rose (memory_sink_faults self.old)
            (memory_sink_faults self.new) }

        ensures exact { result ≡ write_answer self.old (length bytes.now) }
        ensures counted { Counts (memory_sink_failures self.old) (memory_sink_failures self.new)
            (write_fails self.old (length bytes.now)) }
        ensures room { room_of self.new ≡ room_of self.old }
    {
        if self.failures.next_call()
            || self.room - self.bytes.len() < bytes.len()
            || self.bytes.extend_from_slice(bytes).is_err()
        {
            self.failures.count_fault();
            return Took::Failed;
        }
        Took::Bytes(bytes.len())
    }

    fn flush(&mut self) -> Result<(), WriteFault>
        ensures kept { Keeps (Some (written_to self.old)) (Some (written_to self.new)) }
        ensures sent { OnOk result (IsAtEnd (Some (unsent_by self.new))) }
        ensures later { memory_sink_faults self.old ≤ memory_sink_faults self.new }
        ensures failed { OnErr result (Rose (memory_sink_faults self.old)
            (memory_sink_faults self.new)) }

        ensures exact { IsOk result }
        ensures same { memory_sink_failures self.new ≡ memory_sink_failures self.old }
        ensures room { room_of self.new ≡ room_of self.old }
    {
        self.sent = self.bytes.len();
        Ok(())
    }
}
