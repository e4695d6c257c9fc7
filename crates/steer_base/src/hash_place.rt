//! The place of a hash in a table.
ghost use Rattle.std.specs.Prelude.{◌≡◌, ◌<◌, IfSome};
ghost use Rattle.steer_base.specs.Choices.{class_of};

use crate::division::remainder;

/// The place of a hash in a table of `size` rows: `hash mod size`, from 0, as the flow tables of
/// the kernel's scaling chapter and this project's filters of a card are asked. There is none
/// without a hash, and none in a table without rows.
pub fn place_of_hash(hash: Option<u32>, size: u32) -> Option<u32>
    ensures value { result ≡ class_of size hash }
    ensures within { IfSome result (λ place. place < size) }
{
    match hash {
        Some(hash) if size > 0 => Some(remainder(hash, size)),
        _ => None,
    }
}
