//! A sink that gathers bytes before it passes them on.
ghost use Rattle.std.specs.Prelude.{◌≡◌, ◌<◌, ◌≤◌, ◌+◌, [], ◌++◌, false, true, length, vec_len};
ghost use Rattle.std.specs.Prelude.{IfOk, OnErr, OnOk, is_err, vec_capacity};
ghost use Rattle.std.specs.Io.KnownBytes.{IsAtEnd, Keeps};
ghost use Rattle.outside_io.specs.Counts.{Rose, counted};
ghost use Rattle.outside_io.specs.Sink.{Takes, write_failed};

use crate::{Sink, Took, WriteFault};
use std::alloc::Global;
use steer_base::OutOfMemory;

/// Gathers what is written in a buffer of fixed size, and passes it on to the sink behind it when a
/// piece finds no room, and at a flush. The first call that fails closes it: nothing more is passed
/// on then, also not when it is dropped, and every further call fails. So the sink behind never
/// gets a byte twice, nor one after a gap.
#[derive(Drop)]
pub struct BufferedSink<K> {
    behind: K,
    buffer: Vec<u8>,
    passed: usize,
    closed: bool,
    faults: u64,
    ghost some_room: { 0 < vec_capacity buffer },
    ghost within: { passed ≤ vec_len buffer },
}

impl<K: Sink + Drop> BufferedSink<K> {
    ghost use Rattle.outside_io.specs.BufferedSink.{ClosesAtFault, and_held_back, held_back};
    ghost use Rattle.outside_io.specs.BufferedSink.{buffered_sink_faults, is_closed, sink_behind};

    /// A sink with room for this many bytes, all reserved here, on which no call has failed.
    pub fn make(alloc: Global, room: usize, behind: K) -> Result<Self, OutOfMemory>
        requires { 0 < room }
        ensures behind { IfOk result (λ sink. sink_behind sink ≡ behind) }
        ensures empty { IfOk result (λ sink. held_back sink ≡ []) }
        ensures open { IfOk result (λ sink. is_closed sink ≡ false) }
        ensures faults { IfOk result (λ sink. buffered_sink_faults sink ≡ 0) }
    {
        Ok(BufferedSink {
            behind,
            buffer: Vec::with_capacity(alloc, room)?,
            passed: 0,
            closed: false,
            faults: 0,
        })
    }

    // Appends to the buffer what finds room in it.
    #[inline(always)]
    fn gather(&mut self, bytes: &[u8])
        requires { vec_len self.old.buffer + length bytes.now ≤ vec_capacity self.old.buffer }
        ensures bytes { held_back self.new ≡ held_back self.old ++ bytes.now }
        ensures behind { sink_behind self.new ≡ sink_behind self.old }
        ensures closed { is_closed self.new ≡ is_closed self.old }
        ensures faults { buffered_sink_faults self.new ≡ buffered_sink_faults self.old }
    {
        let Ok(()) = self.buffer.extend_from_slice(bytes) else {
            unreachable!()
        };
    }

    // Takes the first bytes of a piece that finds no room, which is rare and so stands apart.
    #[inline(never)]
    fn write_full(&mut self, bytes: &[u8]) -> Took
        requires { 0 < length bytes.now }
        ensures written { Takes result bytes.now (and_held_back K.written self.old)
            (and_held_back K.written self.new) }
        ensures unsent { Takes result bytes.now (and_held_back K.unsent self.old)
            (and_held_back K.unsent self.new) }
        ensures closes { ClosesAtFault self.old self.new (write_failed result) }
    {
        if self.closed || self.pass_on().is_err() {
            self.close();
            return Took::Failed;
        }
        let count = bytes.len().min(self.buffer.capacity());
        self.gather(&bytes[..count]);
        Took::Bytes(count)
    }

    // Passes on all bytes that are held back. Those that a fault leaves stay unsent.
    fn pass_on(&mut self) -> Result<(), WriteFault>
        ensures written { Keeps (and_held_back K.written self.old)
            (and_held_back K.written self.new) }
        ensures unsent { Keeps (and_held_back K.unsent self.old)
            (and_held_back K.unsent self.new) }
        ensures empty { OnOk result (held_back self.new ≡ []) }
        ensures room { OnOk result (vec_len self.new.buffer ≡ 0) }
        ensures closed { is_closed self.new ≡ is_closed self.old }
        ensures faults { buffered_sink_faults self.new ≡ buffered_sink_faults self.old }
    {
        while self.passed < self.buffer.len() {
            match self.behind.write(&self.buffer[self.passed..]) {
                Took::Bytes(count) => self.passed += count,
                Took::Failed => return Err(WriteFault),
            }
        }
        self.passed = 0;
        self.buffer.clear();
        Ok(())
    }

    // Counts a failed call.
    fn close(&mut self)
        ensures behind { sink_behind self.new ≡ sink_behind self.old }
        ensures bytes { held_back self.new ≡ held_back self.old }
        ensures closed { is_closed self.new ≡ true }
        ensures faults { buffered_sink_faults self.new
            ≡ counted true (buffered_sink_faults self.old) }
    {
        self.closed = true;
        self.faults = self.faults.saturating_add(1);
    }
}

impl<K: Sink + Drop> Sink for BufferedSink<K> {
    ghost use Rattle.outside_io.specs.BufferedSink.{ClosesAtFault, and_held_back, held_back};
    ghost use Rattle.outside_io.specs.BufferedSink.{buffered_sink_faults};

    ghost written = { λ sink. and_held_back K.written sink };

    ghost unsent = { λ sink. and_held_back K.unsent sink };

    ghost faults = { λ sink. buffered_sink_faults sink };

    #[inline(always)]
    fn write(&mut self, bytes: &[u8]) -> Took
        requires { 0 < length bytes.now }
        ensures written { Takes result bytes.now (and_held_back K.written self.old)
            (and_held_back K.written self.new) }
        ensures unsent { Takes result bytes.now (and_held_back K.unsent self.old)
            (and_held_back K.unsent self.new) }
        ensures later { buffered_sink_faults self.old ≤ buffered_sink_faults self.new }
        ensures failed { result ≡ Took.Failed → Rose (buffered_sink_faults self.old)
            (buffered_sink_faults self.new) }

        ensures closes { ClosesAtFault self.old self.new (write_failed result) }
    {
        if !self.closed && bytes.len() <= self.buffer.capacity() - self.buffer.len() {
            self.gather(bytes);
            return Took::Bytes(bytes.len());
        }
        self.write_full(bytes)
    }

    fn flush(&mut self) -> Result<(), WriteFault>
        ensures kept { Keeps (and_held_back K.written self.old)
            (and_held_back K.written self.new) }
        ensures sent { OnOk result (IsAtEnd (and_held_back K.unsent self.new)) }
        ensures later { buffered_sink_faults self.old ≤ buffered_sink_faults self.new }
        ensures failed { OnErr result (Rose (buffered_sink_faults self.old)
            (buffered_sink_faults self.new)) }

        ensures empty { OnOk result (held_back self.new ≡ []) }
        ensures closes { ClosesAtFault self.old self.new (is_err result) }
    {
        if self.closed || self.pass_on().is_err() || self.behind.flush().is_err() {
            self.close();
            return Err(WriteFault);
        }
        Ok(())
    }
}
