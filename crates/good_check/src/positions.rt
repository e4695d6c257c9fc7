//! The positions of packets at the lanes of their choices.
ghost use Rattle.std.specs.Prelude.{◌≡◌};
ghost use Rattle.good_check.specs.Positions.{position_in};

use steer_base::number_at;

// The position of a packet at a lane, if that is its own lane, by its place there.
pub(crate) fn position_in(start: u32, own: Option<u8>, place: Option<u32>, lane: u8) -> Option<u32>
    ensures { result ≡ position_in start own place lane }
{
    let Some(own) = own else {
        return None;
    };
    if own != lane {
        return None;
    }
    match place {
        None => None,
        Some(place) => Some(number_at(start, place)),
    }
}
