//! A desk that gives one byte a read, and a sink that takes one byte a write; neither tells its
//! bytes.
ghost use Rattle.std.specs.Prelude.{None};
ghost use Rattle.outside_io.specs.Counts.{last_count};

use crate::calls::{Outcome, outcome_of, run, sink};
use outside_io::{Begin, Desk, Got, MemorySink, Sink, Took, WriteFault};
use std::alloc::Global;
use std::test::Fail;

/// A desk with a plan, `p.json`, and a capture under every other name.
#[derive(Drop)]
pub struct Slowly {
    plan: Vec<u8>,
    capture: Vec<u8>,
    is_plan: bool,
    at: usize,
}

impl Slowly {
    /// A desk with these two files.
    pub fn make(plan: Vec<u8>, capture: Vec<u8>) -> Slowly {
        Slowly {
            plan,
            capture,
            is_plan: false,
            at: 0,
        }
    }
}

impl Desk for Slowly {
    ghost held = { λ _ _. None };

    ghost left = { λ _. None };

    ghost taken = { λ _. last_count };

    ghost reads = { λ _. last_count };

    ghost faults = { λ _. 0 };

    fn begin(&mut self, name: &str) -> Begin {
        self.is_plan = name == "p.json";
        self.at = 0;
        Begin::Ok
    }

    fn read(&mut self, buf: &mut [u8]) -> Got {
        let byte = if self.is_plan {
            self.plan.get(self.at).copied()
        } else {
            self.capture.get(self.at).copied()
        };
        match byte {
            Some(byte) => {
                buf[0] = byte;
                self.at = self.at.saturating_add(1);
                Got::Bytes(1)
            }
            None => Got::End,
        }
    }
}

/// A sink that takes the first byte of each piece.
#[derive(Drop)]
pub struct Dripping {
    pub inner: MemorySink,
}

impl Sink for Dripping {
    ghost written = { λ _. None };

    ghost faults = { λ _. last_count };

    fn write(&mut self, bytes: &[u8]) -> Took {
        self.inner.write(&bytes[..1])
    }

    fn flush(&mut self) -> Result<(), WriteFault> {
        self.inner.flush()
    }
}

/// What a call of these words over a slow desk comes to, with a slow standard output.
pub fn called_slowly(alloc: Global, texts: &[&str], mut desk: Slowly) -> Result<Outcome, Fail> {
    let mut out = Dripping {
        inner: sink(alloc, &[])?,
    };
    let mut err = sink(alloc, &[])?;
    let status = run(alloc, texts, &mut desk, &mut out, &mut err, Vec::new(alloc))?;
    outcome_of(alloc, status, &out.inner, &err)
}
