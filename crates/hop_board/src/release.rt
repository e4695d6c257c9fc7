//! Releases: giving a lane back.
ghost use Rattle.std.specs.Prelude.{◌≡◌};
ghost use Rattle.hop_board.specs.Releases.{released_lane, rises_in};

use board_api::LaneId;
use steer_base::{PacketId, Put};

/// A release of a lane, with its change.
#[derive(Clone, Copy)]
pub enum Release {
    /// The lane is as it was found.
    Unchanged(LaneId),
    /// A packet was offered to a middle lane, with this answer.
    Offered {
        lane: u8,
        id: PacketId,
        hash: Option<u32>,
        answer: Put,
    },
    /// The packet that waited longest was pulled from a middle lane.
    Pulled {
        lane: u8,
        id: PacketId,
    },
    /// A packet of a middle lane was delivered to an out lane, at this place there, from 1.
    Given {
        out: u8,
        from: u8,
        id: PacketId,
        place: u32,
    },
}

impl Release {
    // The lane that is given back.
    pub fn lane(&self) -> LaneId
        ensures { result ≡ released_lane self.now }
    {
        match self {
            Release::Unchanged(lane) => *lane,
            Release::Offered { lane, .. } => LaneId::Middle(*lane),
            Release::Pulled { lane, .. } => LaneId::Middle(*lane),
            Release::Given { out, .. } => LaneId::Out(*out),
        }
    }

    // Whether its tail rises.
    pub fn rises(&self) -> bool
        ensures { result ≡ rises_in self.now }
    {
        match self {
            Release::Offered { answer, .. } => match answer {
                Put::At(_) => true,
                Put::Dropped { .. } => false,
            },
            Release::Given { .. } => true,
            Release::Unchanged(_) => false,
            Release::Pulled { .. } => false,
        }
    }
}
