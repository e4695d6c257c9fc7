//! The choice of a lane for a packet, after the receive flow steering of the kernel's scaling
//! chapter.
ghost use Rattle.std.specs.Prelude.{◌≡◌};

use crate::ids::PacketId;

/// Why a packet goes to its lane.
#[derive(Clone, Copy, Debug, PartialEq, Eq)]
pub enum Why {
    /// It has no class, so there is no entry to consult.
    Plain,
    /// The current lane of its class is the desired one.
    Same,
    /// Its class has no current lane.
    Unset,
    /// The current lane of its class is offline.
    Offline,
    /// The head of the current lane has reached the recorded tail, so none of its packets waits
    /// there.
    Passed,
    /// The current lane may still hold packets of the class.
    Kept,
}

impl Why {
    ghost use Rattle.steer_base.specs.Choices.{has_moved};

    /// Whether the class got the desired lane as a new one: the three conditions under which the
    /// scaling chapter lets a flow change its processor.
    pub fn moved(&self) -> bool
        ensures { result ≡ has_moved self.now }
    {
        matches!(self, Why::Unset | Why::Offline | Why::Passed)
    }
}

/// The choice of a lane with everything it was based on. In this order its fields take 28 bytes,
/// and 32 with a packet.
#[derive(Clone, Copy, Debug, PartialEq, Eq)]
pub struct Choice {
    /// The class of the packet, if it has one, from 0.
    pub class: Option<u32>,
    /// The head of the current lane, if the rule looked at it: a counter number that wraps.
    pub head: Option<u32>,
    /// The recorded tail of the class before this choice, if there is a class: a counter number
    /// that wraps.
    pub tail: Option<u32>,
    /// The lane that was wanted, as it was seen.
    pub want: Option<u8>,
    /// The lane that was chosen.
    pub lane: u8,
    /// The rule's case.
    pub why: Why,
}

/// What is recorded of a class.
#[derive(Clone, Copy, Debug, PartialEq, Eq)]
pub struct Entry {
    /// The current lane, if the class has one.
    pub lane: Option<u8>,
    /// The recorded tail, a counter number that wraps.
    pub tail: u32,
}

/// A packet and the choice for it.
#[derive(Clone, Copy, Debug, PartialEq, Eq)]
pub struct Chosen {
    /// The packet.
    pub id: PacketId,
    /// What was chosen for it.
    pub choice: Choice,
}
