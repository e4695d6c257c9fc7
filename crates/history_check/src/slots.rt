//! Whether what a slot has of a packet is what its place in a list asks for.
ghost use Rattle.std.specs.Prelude.{◌≡◌};
ghost use Rattle.std.specs.Option.{option_map};
ghost use Rattle.history_check.specs.Tests.{drop_number, is_number, is_place};

use steer_base::Put;

// Whether a number is there, and is this one.
pub(crate) fn is_number(number: Option<u32>, wanted: usize) -> bool
    ensures { result ≡ is_number number wanted }
{
    match number {
        Some(number) => number as usize == wanted,
        None => false,
    }
}

// Whether a place is there, and is that of an index.
pub(crate) fn is_place(place: Option<u32>, index: usize) -> bool
    ensures { result ≡ is_place place index }
{
    match place {
        Some(place) => place > 0 && place as usize - 1 == index,
        None => false,
    }
}

// Whether a lane was chosen for a packet, and is this one.
pub(crate) fn lane_is(own: Option<u8>, lane: usize) -> bool
    ensures { result ≡ is_number own lane }
{
    match own {
        Some(own) => own as usize == lane,
        None => false,
    }
}

// Whether a packet was dropped, with the number of an index.
pub(crate) fn drop_is(put: Option<Put>, index: usize) -> bool
    ensures { result ≡ is_place (option_map drop_number put) index }
{
    match put {
        Some(Put::Dropped { number, .. }) => is_place(Some(number), index),
        _ => false,
    }
}
