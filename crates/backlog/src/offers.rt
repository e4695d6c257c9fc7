//! The offers to a lane, each by its bucket, with the window of the last ones.
ghost use Rattle.std.specs.Prelude.{ℕ, ◌≡◌, ◌<◌, List, [], length, IfOk, Option};
ghost use Rattle.std.specs.Option.{ForSome, option_map};
ghost use Rattle.steer_base.specs.Drops.{bucket_count};
ghost use Rattle.steer_base.specs.Journals.{grown, journal};
ghost use Rattle.steer_base.specs.declared.limits.TheConstants.{FLOW_LIMIT_BUCKETS};

use crate::lane_offers::LaneOffers;
use std::alloc::Global;
use std::marker::Model;
use steer_base::OutOfMemory;

/// The offers to a lane in order: the bucket of each, or none for an offer without a hash. It also
/// counts the buckets of the last 256 offers that have one.
#[derive(Drop)]
pub struct Offers {
    offers: LaneOffers,
}

impl Model for Offers {
    ghost use Rattle.std.specs.Prelude.{ℕ, ◌≡◌, true, Option};
    ghost use Rattle.steer_base.specs.Journals.{Journal, journal};

    ghost Value = { Journal (Option ℕ) };

    ghost view = { λ o. journal o.offers.buckets o.offers.room };

    ghost invariant = { λ o. o.offers.limited ≡ true };
}

impl Offers {
    /// An empty list with memory for `room` offers. Later calls allocate nothing.
    pub fn make(alloc: Global, room: u32) -> Result<Offers, OutOfMemory>
        ensures { IfOk result (λ offers. offers ≡ journal [] room) }
    {
        let offers = LaneOffers::make(alloc, room, true)?;
        Ok(Offers { offers })
    }

    /// Adds an offer, and returns how many of the last 256 offers with a hash have its bucket,
    /// itself included. Returns none for an offer without a hash.
    pub fn note(&mut self, bucket: Option<u16>) -> Option<u32>
        requires room { length self.old.items < self.old.room }
        requires bucket { ForSome bucket (λ b. b < FLOW_LIMIT_BUCKETS) }
        ensures items { self.new ≡ grown self.old bucket }
        ensures count { result ≡ option_map (bucket_count self.old.items) bucket }
    {
        self.offers.note(bucket)
    }

    /// The number of offers.
    pub fn len(&self) -> u32
        ensures { result ≡ length self.now.items }
    {
        self.offers.len()
    }
}
