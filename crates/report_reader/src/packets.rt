//! The lines of packets and of replies.
ghost use Rattle.std.specs.Prelude.{codes};
ghost use Rattle.report_reader.specs.Seen.{GivesPacket, GivesReply, ShowsPacket, ShowsReply};
ghost use Rattle.report_reader.specs.declared.shortest.TheConstants.{SHORTEST_PACKET};
ghost use Rattle.report_reader.specs.declared.shortest.TheConstants.{SHORTEST_REPLY};

use crate::fields::Fields;
use crate::puts::{put, put_end};
use crate::sections::Section;
use crate::seen::choice;
use crate::shortest::{SHORTEST_PACKET, SHORTEST_REPLY};
use crate::values::via;
use history::Via;
use steer_base::{AppId, Choice, Cpu, PacketId, Put, RxQueue};

/// What the line of a packet shows that is kept of it.
#[derive(Clone, Copy, Debug, PartialEq, Eq, Drop)]
pub struct SeenPacket {
    /// Its receive queue.
    pub queue: RxQueue,
    /// What led to this queue.
    pub via: Via,
    /// Its application.
    pub app: AppId,
    /// The choice of a processor, if there was one.
    pub choice: Option<Choice>,
    /// The result of the put, if there was one.
    pub put: Option<Put>,
    /// Its place in the application's inbox, from 1, if it is there.
    pub inbox: Option<u32>,
}

/// What the line of a reply shows that is kept of it.
#[derive(Clone, Copy, Debug, PartialEq, Eq, Drop)]
pub struct SeenReply {
    /// The packet that was replied to.
    pub id: PacketId,
    /// The receive queue of this packet.
    pub rxq: RxQueue,
    /// The processor of the application.
    pub cpu: Cpu,
    /// The choice of a transmit queue, without its class, if there was one.
    pub choice: Option<Choice>,
    /// The position at the transmit queue, if it was put there.
    pub put: Option<u32>,
    /// The place among the packets that left by the port, from 1, if it did.
    pub port: Option<u32>,
}

// The bytes of p, q, via, class, want, head, tail, cpu, why and at, each with a space.
const PACKET_STEPS: &[u8] = &[2, 2, 4, 6, 5, 5, 5, 4, 4, 3];

// The bytes of r, app, rxq, cpu, pick, head, tail, tx, why, at and port, each with a space.
const REPLY_STEPS: &[u8] = &[2, 4, 4, 4, 5, 5, 5, 3, 4, 3, 5];

/// The lines of packets.
pub struct Packets;

/// The lines of replies.
pub struct Replies;

impl Section<SeenPacket> for Packets {
    ghost first = { codes "p" };

    ghost least = { SHORTEST_PACKET };

    ghost shows = { ShowsPacket };

    ghost gives = { GivesPacket };

    fn word(&self) -> &'static [u8] {
        b"p".as_slice()
    }

    fn shortest(&self) -> usize {
        SHORTEST_PACKET
    }

    fn steps(&self) -> &'static [u8] {
        PACKET_STEPS
    }

    fn item(&self, fields: &Fields<'_>) -> SeenPacket {
        let put = put(fields);
        let behind = put_end(put);
        SeenPacket {
            queue: RxQueue(fields.byte(1)),
            via: via(fields.at(2)),
            choice: choice(fields, fields.maybe_word(3)),
            put,
            app: AppId(fields.byte(behind + 1)),
            inbox: fields.maybe_word(behind + 3),
        }
    }
}

impl Section<SeenReply> for Replies {
    ghost first = { codes "r" };

    ghost least = { SHORTEST_REPLY };

    ghost shows = { ShowsReply };

    ghost gives = { GivesReply };

    fn word(&self) -> &'static [u8] {
        b"r".as_slice()
    }

    fn shortest(&self) -> usize {
        SHORTEST_REPLY
    }

    fn steps(&self) -> &'static [u8] {
        REPLY_STEPS
    }

    fn item(&self, fields: &Fields<'_>) -> SeenReply {
        SeenReply {
            id: PacketId(fields.word(0)),
            rxq: RxQueue(fields.byte(2)),
            cpu: Cpu(fields.byte(3)),
            choice: choice(fields, None),
            put: fields.maybe_word(9),
            port: fields.maybe_word(10),
        }
    }
}
