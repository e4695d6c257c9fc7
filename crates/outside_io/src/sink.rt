//! A sink: an output byte stream.
ghost use Rattle.std.specs.Prelude.{◌≡◌, ◌<◌, ◌≤◌, List, ℕ, Option, None, OnErr, OnOk, length};
ghost use Rattle.std.specs.Io.KnownBytes.{IsAtEnd, Keeps};
ghost use Rattle.outside_io.specs.Counts.{Rose};
ghost use Rattle.outside_io.specs.Sink.{Takes};

use crate::WriteFault;

/// The result of a write.
#[derive(Clone, Copy, Debug, PartialEq, Eq)]
pub enum Took {
    /// The first bytes of the piece, this many and at least one, were taken.
    Bytes(usize),
    /// No byte was taken, and a fault was counted.
    Failed,
}

/// An output byte stream. Ghost state that an implementation cannot observe is `None`.
pub trait Sink {
    /// All bytes taken so far, if the sink can observe them.
    ghost written: { Self → Option (List ℕ) };

    /// The bytes taken but not yet sent on, if the sink can observe them. A sink that sends bytes
    /// on at times of its own choice says `None`.
    ghost unsent: { Self → Option (List ℕ) } = { λ _. None };

    /// The number of failed writes and flushes.
    ghost faults: { Self → ℕ };

    /// Takes the first bytes of a piece, at least one, or fails and takes none.
    fn write(&mut self, bytes: &[u8]) -> Took
        requires { 0 < length bytes.now }
        ensures written { Takes result bytes.now (written self.old) (written self.new) }
        ensures unsent { Takes result bytes.now (unsent self.old) (unsent self.new) }
        ensures later { faults self.old ≤ faults self.new }
        ensures failed { result ≡ Took.Failed → Rose (faults self.old) (faults self.new) };

    /// Sends on all bytes that were taken and are not yet sent. On `Ok` none is left unsent. It
    /// does not change the bytes written.
    fn flush(&mut self) -> Result<(), WriteFault>
        ensures kept { Keeps (written self.old) (written self.new) }
        ensures sent { OnOk result (IsAtEnd (unsent self.new)) }
        ensures later { faults self.old ≤ faults self.new }
        ensures failed { OnErr result (Rose (faults self.old) (faults self.new)) };
}
