//! Why a step did nothing.

/// The first reason for which a step was not enabled.
#[derive(Clone, Copy, Debug, PartialEq, Eq)]
pub enum Idle {
    /// All packets have arrived.
    NothingLeft,
    /// The actor has a packet in hand.
    HandFull,
    /// No packet waits in the ring of the receive queue.
    RingEmpty,
    /// The actor is inside the gate.
    AlreadyInside,
    /// The actor is not inside the gate.
    NotInside,
    /// The packet in hand is at another stage.
    WrongStage,
    /// The actor has a packet half processed and may not leave the gate.
    MidPacket,
    /// No packet waits in the lane.
    NothingWaiting,
    /// The lane has no packet in hand.
    HandEmpty,
    /// The packet in hand was delivered and is not yet retired.
    AlreadyDelivered,
    /// The packet in hand is not yet delivered.
    NotDelivered,
    /// The capture has no such flow.
    NoFlow,
    /// The packets of the flow have no hash.
    NoHash,
    /// The socket flow table has no entries.
    NoTable,
    /// Every packet of the inbox was replied to.
    InboxDone,
    /// The processor is online.
    AlreadyOnline,
    /// A compound step in which no event was enabled.
    Nothing,
}
