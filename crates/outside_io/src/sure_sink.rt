//! A sink that never fails and keeps nothing.
ghost use Rattle.std.specs.Prelude.{◌≡◌, ◌<◌, ◌≤◌, ℕ, None, length};
ghost use Rattle.outside_io.specs.Counts.{Rose, raised};
ghost use Rattle.outside_io.specs.Sink.{Takes};

use crate::{Sink, Took, WriteFault};

/// Counts the bytes written, up to `u64::MAX`, and keeps none. No call fails.
#[derive(Drop)]
pub struct SureSink {
    count: u64,
}

impl SureSink {
    ghost use Rattle.outside_io.specs.SureSink.{sure_sink_count};

    /// A sink to which nothing was written.
    pub fn make() -> Self
        ensures { sure_sink_count result ≡ 0 }
    {
        SureSink { count: 0 }
    }

    /// The number of bytes written, up to `u64::MAX`.
    pub fn count(&self) -> u64
        ensures { result ≡ sure_sink_count self.now }
    {
        self.count
    }
}

impl Sink for SureSink {
    ghost use Rattle.outside_io.specs.SureSink.{sure_sink_count};

    ghost written = { λ _. None };

    ghost faults = { λ _. 0 };

    fn write(&mut self, bytes: &[u8]) -> Took
        requires { 0 < length bytes.now }
        ensures written { Takes result bytes.now None None }
        ensures unsent { Takes result bytes.now None None }
        ensures later { 0 ≤ 0 }
        ensures failed { result ≡ Took.Failed → Rose 0 0 }

        ensures whole { result ≡ Took.Bytes (length bytes.now) }
        ensures count { sure_sink_count self.new ≡ raised (length bytes.now)
            (sure_sink_count self.old) }
    {
        self.count = self.count.saturating_add(bytes.len() as u64);
        Took::Bytes(bytes.len())
    }

    fn flush(&mut self) -> Result<(), WriteFault> {
        Ok(())
    }
}
