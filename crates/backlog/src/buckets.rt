//! The buckets of all offers to a lane, of which a run keeps the number alone.
ghost use Rattle.std.specs.Prelude.{◌≡◌, ◌+◌, ◌^◌, ◌<◌, [], ◌∷◌, ◌++◌, length};

use std::marker::Model;
use std::mem;
use std::snapshot::Snapshot;

/// The bucket of each offer in order, seen as a list. Clauses alone read the list, and it takes no
/// memory: a run has the number of offers.
#[derive(Drop)]
pub struct Buckets {
    all: Snapshot<Trail>,
    count: u32,
}

/// Offers in order: the last one, after a snapshot of those before it. A run makes one only to take
/// a snapshot of it.
#[derive(Drop)]
pub enum Trail {
    /// No offers.
    Start,
    /// The offers so far, and the bucket of one more.
    Offer(Snapshot<Trail>, Option<u16>),
}

impl Model for Buckets {
    ghost use Rattle.std.specs.Prelude.{ℕ, ◌≡◌, List, Option, length};
    ghost use Rattle.backlog.specs.Trails.{trail_buckets};

    ghost Value = { List (Option ℕ) };

    ghost view = { λ b. trail_buckets b.all.value };

    ghost invariant = { λ b. length (trail_buckets b.all.value) ≡ b.count };
}

impl Buckets {
    /// No offers.
    pub fn new() -> Buckets
        ensures { result ≡ [] }
    {
        Buckets {
            all: Snapshot::of(&Trail::Start),
            count: 0,
        }
    }

    /// The number of offers.
    pub fn len(&self) -> u32
        ensures { result ≡ length self.now }
    {
        self.count
    }

    /// Adds an offer.
    pub fn push(&mut self, bucket: Option<u16>)
        requires { length self.old + 1 < 2 ^ 32 }
        ensures { self.new ≡ self.old ++ bucket ∷ [] }
    {
        let so_far = mem::replace(&mut self.all, Snapshot::of(&Trail::Start));
        self.all = Snapshot::of(&Trail::Offer(so_far, bucket));
        self.count += 1;
    }
}
