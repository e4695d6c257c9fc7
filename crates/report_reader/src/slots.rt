//! Where a packet stands in the lists of a history.
ghost use Rattle.std.specs.Prelude.{◌≡◌};
ghost use Rattle.report_reader.specs.Slots.{accepted_slot, dropped_slot, in_list, shipped_slot};
ghost use Rattle.report_reader.specs.Slots.{slot_of};

use crate::packets::{SeenPacket, SeenReply};
use steer_base::Put;

/// One of the lists of a history, by its number, and the place of a packet in it, from 1.
#[derive(Clone, Copy, Debug, PartialEq, Eq, Drop)]
pub struct Slot {
    /// The number of the list.
    pub list: u8,
    /// The place.
    pub place: u32,
}

/// A kind of lists of a history.
#[derive(Clone, Copy, Debug, PartialEq, Eq)]
pub enum Kind {
    /// The packets that a processor accepted.
    Accepted,
    /// The packets that a processor dropped.
    Dropped,
    /// The packets in an inbox.
    Inbox,
    /// The replies that a transmit queue accepted.
    Shipped,
    /// The packets that left by the port.
    Port,
}

/// What a report shows of a packet: its line, and that of its reply if there was one.
#[derive(Clone, Copy, Debug, PartialEq, Eq, Drop)]
pub struct Seen {
    /// The line of the packet.
    pub packet: SeenPacket,
    /// The line of its reply.
    pub reply: Option<SeenReply>,
}

/// The place in a list of the given kind.
pub fn slot_of_kind(seen: &Seen, kind: Kind, start: u32) -> Option<Slot>
    ensures { result ≡ slot_of start kind seen.now }
{
    match kind {
        Kind::Accepted => accepted(&seen.packet, start),
        Kind::Dropped => dropped(&seen.packet),
        Kind::Inbox => inbox(&seen.packet),
        Kind::Shipped => shipped(seen.reply?, start),
        Kind::Port => port(seen.reply?),
    }
}

fn accepted(packet: &SeenPacket, start: u32) -> Option<Slot>
    ensures { result ≡ accepted_slot start packet.now.choice packet.now.put }
{
    match packet.put {
        Some(Put::At(position)) => Some(Slot {
            list: packet.choice?.lane,
            place: position.wrapping_sub(start),
        }),
        _ => None,
    }
}

fn dropped(packet: &SeenPacket) -> Option<Slot>
    ensures { result ≡ dropped_slot packet.now.choice packet.now.put }
{
    match packet.put {
        Some(Put::Dropped { number, .. }) => Some(Slot {
            list: packet.choice?.lane,
            place: number,
        }),
        _ => None,
    }
}

fn inbox(packet: &SeenPacket) -> Option<Slot>
    ensures { result ≡ in_list packet.now.app packet.now.inbox }
{
    Some(Slot {
        list: packet.app.0,
        place: packet.inbox?,
    })
}

fn shipped(reply: SeenReply, start: u32) -> Option<Slot>
    ensures { result ≡ shipped_slot start reply.choice reply.put }
{
    let position = reply.put?;
    Some(Slot {
        list: reply.choice?.lane,
        place: position.wrapping_sub(start),
    })
}

fn port(reply: SeenReply) -> Option<Slot>
    ensures { result ≡ in_list 0 reply.port }
{
    Some(Slot {
        list: 0,
        place: reply.port?,
    })
}
