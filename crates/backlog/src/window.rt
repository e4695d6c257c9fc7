//! The buckets of the last offers to a lane, with how often each bucket is among them.
ghost use Rattle.std.specs.Prelude.{ℕ, ◌≡◌, ◌<◌, ◌≤◌, ◌==◌, List, [], ◌∷◌, ◌++◌, count_by, drop};
ghost use Rattle.std.specs.Prelude.{length, replicate, IfOk, Option};
ghost use Rattle.std.specs.Option.{ForSome, option_map};
ghost use Rattle.steer_base.specs.Drops.{last_of};
ghost use Rattle.steer_base.specs.declared.limits.TheConstants.{FLOW_LIMIT_BUCKETS};
ghost use Rattle.backlog.specs.Offered.{window_after};

use circular_buffer::HeapCircularBuffer;
use std::alloc::Global;
use std::marker::Model;
use steer_base::{FLOW_LIMIT_BUCKETS, OutOfMemory};

/// How many offers the flow limit looks back at.
const WINDOW: usize = 256;

/// The last 256 buckets, seen as their list.
#[derive(Drop)]
pub struct Window {
    last: HeapCircularBuffer<u16>,
    counts: Vec<u16>,
}

impl Model for Window {
    ghost use Rattle.std.specs.Prelude.{ℕ, List};
    ghost use Rattle.backlog.specs.Counted.{IsWindow};

    ghost Value = { List ℕ };

    ghost view = { λ w. w.last.items };

    ghost invariant = { λ w. IsWindow w.last w.counts.items };
}

impl Window {
    /// The window before any offer.
    pub fn make(alloc: Global) -> Result<Window, OutOfMemory>
        ensures { IfOk result (λ window. window ≡ []) }
    {
        let last = HeapCircularBuffer::with_capacity(alloc, WINDOW)?;
        let counts = zeros(alloc)?;
        Ok(Window { last, counts })
    }

    /// Adds the bucket of an offer, if it has one, and returns how often it is in the window now.
    pub fn note(&mut self, bucket: Option<u16>) -> Option<u32>
        requires { ForSome bucket (λ b. b < FLOW_LIMIT_BUCKETS) }
        ensures window { self.new ≡ window_after self.old bucket }
        ensures count { result ≡ option_map (λ b. count_by (λ x. x == b) self.new) bucket }
    {
        let bucket = bucket?;
        self.push(bucket);
        Some(self.count(bucket))
    }

    // Adds a bucket, and drops the oldest one if there are 256.
    fn push(&mut self, bucket: u16)
        requires { bucket < FLOW_LIMIT_BUCKETS }
        ensures { self.new ≡ last_of 256 (self.old ++ bucket ∷ []) }
    {
        if self.last.is_full() {
            self.forget_oldest();
        }
        self.add(bucket);
    }

    // How often a bucket is in the window.
    fn count(&self, bucket: u16) -> u32
        requires { bucket < FLOW_LIMIT_BUCKETS }
        ensures { result ≡ count_by (λ b. b == bucket) self.now }
    {
        self.counts[bucket as usize] as u32
    }

    fn forget_oldest(&mut self)
        ensures { self.new ≡ drop 1 self.old }
    {
        if let Some(oldest) = self.last.pop_front() {
            self.counts[oldest as usize] -= 1;
        }
    }

    fn add(&mut self, bucket: u16)
        requires room { length self.old < 256 }
        requires bucket { bucket < FLOW_LIMIT_BUCKETS }
        ensures { self.new ≡ self.old ++ bucket ∷ [] }
    {
        self.last.try_push_back(bucket).unwrap();
        self.counts[bucket as usize] += 1;
    }
}

// A count of 0 for each bucket.
fn zeros(alloc: Global) -> Result<Vec<u16>, OutOfMemory>
    ensures { IfOk result (λ counts. counts.items ≡ replicate FLOW_LIMIT_BUCKETS 0) }
{
    Ok(Vec::from_elem(alloc, 0, FLOW_LIMIT_BUCKETS as usize)?)
}
