//! The offers to a lane, with the window of the last ones where the flow limit applies.
ghost use Rattle.std.specs.Prelude.{◌≡◌, ◌<◌, [], ◌∷◌, ◌++◌, length, IfOk};
ghost use Rattle.std.specs.Option.{ForSome};
ghost use Rattle.steer_base.specs.declared.limits.TheConstants.{FLOW_LIMIT_BUCKETS};
ghost use Rattle.backlog.specs.Offered.{offered, noted_count};

use crate::buckets::Buckets;
use crate::window::Window;
use std::alloc::Global;
use std::marker::Model;
use steer_base::OutOfMemory;

/// The bucket of each offer to a lane in order, with the window of the last ones where the flow
/// limit applies: nothing else asks how often a bucket is among them. The window alone takes
/// memory.
#[derive(Drop)]
pub struct LaneOffers {
    buckets: Buckets,
    room: u32,
    window: Option<Window>,
}

impl Model for LaneOffers {
    ghost use Rattle.std.specs.Prelude.{◌≡◌, IfSome};
    ghost use Rattle.std.specs.Option.{is_some};
    ghost use Rattle.steer_base.specs.Drops.{window as window_of};
    ghost use Rattle.backlog.specs.Offered.{OfferedBuckets, offered};

    ghost Value = { OfferedBuckets };

    ghost view = { λ o. offered o.buckets o.room (is_some o.window) };

    ghost invariant = { λ o. IfSome o.window (λ w. w ≡ window_of o.buckets) };
}

impl LaneOffers {
    /// No offers yet, with room for `room` of them, and with memory for the window if the flow
    /// limit applies. Later calls allocate nothing.
    pub fn make(alloc: Global, room: u32, limited: bool) -> Result<LaneOffers, OutOfMemory>
        ensures { IfOk result (λ offers. offers ≡ offered [] room limited) }
    {
        let window = if limited {
            Some(Window::make(alloc)?)
        } else {
            None
        };
        Ok(LaneOffers {
            buckets: Buckets::new(),
            room,
            window,
        })
    }

    /// Whether the flow limit applies.
    pub fn limited(&self) -> bool
        ensures { result ≡ self.now.limited }
    {
        self.window.is_some()
    }

    /// The number of offers.
    pub fn len(&self) -> u32
        ensures { result ≡ length self.now.buckets }
    {
        self.buckets.len()
    }

    /// Adds an offer. Where the flow limit applies it returns how many of the last 256 offers with
    /// a hash have its bucket, itself included, or none for an offer without a hash.
    pub fn note(&mut self, bucket: Option<u16>) -> Option<u32>
        requires room { length self.old.buckets < self.old.room }
        requires bucket { ForSome bucket (λ b. b < FLOW_LIMIT_BUCKETS) }
        ensures buckets { self.new
            ≡ offered (self.old.buckets ++ bucket ∷ []) self.old.room self.old.limited }
        ensures count { result ≡ noted_count self.old bucket }
    {
        self.buckets.push(bucket);
        let Some(window) = &mut self.window else {
            return None;
        };
        window.note(bucket)
    }
}
