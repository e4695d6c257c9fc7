//! A lane of packets with its limits and drops: the backlog of a processor, or a transmit queue.
#![tactic(auto)]

mod bucket;
mod buckets;
mod lane;
mod lane_offers;
mod laws;
mod limits;
mod offers;
mod queue;
mod window;

pub use bucket::{bucket_of, drop_cause};
pub use lane::Lane;
pub use laws::{
    a_new_lane_is_explained, a_put_is_explained, a_take_is_explained, counts_of_drops_never_fall,
};
pub use limits::MAX_LANE_ROOM;
pub use offers::Offers;
