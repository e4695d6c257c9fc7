//! The lanes of a board, and lanes that a seat holds.
ghost use Rattle.std.specs.Prelude.{◌≡◌};
ghost use Rattle.board_api.specs.Calls.HeldLanes.{room_in};

use backlog::Lane;
use hop_rule::OutLane;

/// A lane of a board, by its number from 0.
#[derive(Clone, Copy, Debug, PartialEq, Eq, Drop)]
pub enum LaneId {
    /// A lane to which packets are put, and from which they are pulled.
    Middle(u8),
    /// A lane to which they are delivered.
    Out(u8),
}

/// A lane that a seat holds, with its number. A call of the board gives it back. A lane that is
/// dropped is lost: its seat holds it forever by its own list, and no board closes with that seat.
#[derive(Drop)]
pub enum HeldLane {
    /// A middle lane.
    Middle(u8, Lane),
    /// An out lane.
    Out(u8, OutLane),
}

impl HeldLane {
    /// The number of packets that may still be put or delivered: for a middle lane its room less
    /// all packets that were accepted or dropped, for an out lane its room less its packets.
    pub fn room(&self) -> u32
        ensures { result ≡ room_in self.now }
    {
        match self {
            HeldLane::Middle(_, lane) => lane.room(),
            HeldLane::Out(_, lane) => lane.room(),
        }
    }
}
