//! A sink over an output stream of the operating system.
ghost use Rattle.std.specs.Prelude.{◌≡◌, ◌<◌, ◌≤◌, [], OnErr, OnOk, Some, is_err, length};
ghost use Rattle.std.specs.Io.KnownBytes.{IsAtEnd, Keeps};
ghost use Rattle.outside_io.specs.Counts.{Rose, counted};
ghost use Rattle.outside_io.specs.Sink.{Takes, write_failed};
ghost use Rattle.outside_io.specs.StdSink.{known_contents, passed_by, std_sink_faults};
ghost use Rattle.outside_io.specs.StdSink.{unflushed_by, writer_of};

use crate::ghost_bytes::GhostBytes;
use crate::retrying::{flush_retrying, write_retrying};
use crate::{Sink, Took, WriteFault};
use std::io::Write;

/// Writes to any `Write`, such as standard output or standard error, a call for each piece. It
/// keeps the bytes that it passed on, by what the writer's calls answered: those since it was made
/// are the bytes written, and those since the last flush that succeeded are unsent. What a writer
/// observes of its bytes changes alike.
#[derive(Drop)]
pub struct StdSink<W: Write + Drop> {
    writer: W,
    passed: GhostBytes,
    unflushed: GhostBytes,
    faults: u64,
}

impl<W: Write + Drop> StdSink<W> {
    /// A sink that has written nothing, and on which no call has failed.
    pub fn make(writer: W) -> Self
        ensures writer { writer_of result ≡ writer }
        ensures empty { passed_by result ≡ [] }
        ensures unsent { unflushed_by result ≡ [] }
        ensures faults { std_sink_faults result ≡ 0 }
    {
        StdSink {
            writer,
            passed: GhostBytes::new(),
            unflushed: GhostBytes::new(),
            faults: 0,
        }
    }
}

impl<W: Write + Drop> Sink for StdSink<W> {
    ghost written = { λ sink. Some (passed_by sink) };

    ghost unsent = { λ sink. Some (unflushed_by sink) };

    ghost faults = { λ sink. std_sink_faults sink };

    // `Ok(0)` counts as a failure too, since a piece is never empty.
    fn write(&mut self, bytes: &[u8]) -> Took
        requires { 0 < length bytes.now }
        ensures written { Takes result bytes.now (Some (passed_by self.old))
            (Some (passed_by self.new)) }
        ensures unsent { Takes result bytes.now (Some (unflushed_by self.old))
            (Some (unflushed_by self.new)) }
        ensures later { std_sink_faults self.old ≤ std_sink_faults self.new }
        ensures failed { result ≡ Took.Failed → Rose (std_sink_faults self.old)
            (std_sink_faults self.new) }

        ensures contents { Takes result bytes.now (known_contents W.contents self.old)
            (known_contents W.contents self.new) }
        ensures counted { std_sink_faults self.new ≡ counted (write_failed result)
            (std_sink_faults self.old) }
    {
        match write_retrying(&mut self.writer, bytes) {
            Ok(count) if count > 0 => {
                self.passed.append(&bytes[..count]);
                self.unflushed.append(&bytes[..count]);
                Took::Bytes(count)
            }
            _ => {
                self.faults = self.faults.saturating_add(1);
                Took::Failed
            }
        }
    }

    fn flush(&mut self) -> Result<(), WriteFault>
        ensures kept { Keeps (Some (passed_by self.old)) (Some (passed_by self.new)) }
        ensures sent { OnOk result (IsAtEnd (Some (unflushed_by self.new))) }
        ensures later { std_sink_faults self.old ≤ std_sink_faults self.new }
        ensures failed { OnErr result (Rose (std_sink_faults self.old) (std_sink_faults self.new)) }

        ensures contents { Keeps (known_contents W.contents self.old)
            (known_contents W.contents self.new) }
        ensures counted { std_sink_faults self.new ≡ counted (is_err result)
            (std_sink_faults self.old) }
    {
        match flush_retrying(&mut self.writer) {
            Ok(()) => {
                self.unflushed = GhostBytes::new();
                Ok(())
            }
            Err(_) => {
                self.faults = self.faults.saturating_add(1);
                Err(WriteFault)
            }
        }
    }
}
