//! The lines of all packets and replies of a history.
ghost use Rattle.std.specs.Prelude.{◌≡◌, ℕ, ◌<◌, ◌≤◌, None, is_some, length, slice_index};
ghost use Rattle.std.specs.Prelude.{slice_index_or, IfOk};
ghost use Rattle.std.specs.Option.{option_map};
ghost use Rattle.steer_base.specs.declared.limits.TheConstants.{MAX_PACKETS};
ghost use Rattle.history.specs.InOrder.{begun_of, lane_at};
ghost use Rattle.history.specs.Lines.{is_replied, lines_of, packet_line, reply_line};
ghost use Rattle.history.specs.Lists.{arrivals_at};
ghost use Rattle.history.specs.declared.packet_line.PacketLine.{PacketLine};
ghost use Rattle.history.specs.Regular.{Regular};

pub mod begun;
pub mod in_order;
pub mod making;
pub mod slots;

use crate::history::History;
use crate::known::counted::Counted;
use crate::lines::begun::Begun;
use crate::packet_line::PacketLine;
use crate::reply_line::ReplyLine;
use making::{begun_reply, choice_at, lane_of, packet_line, reply_line};
use slots::Slots;
use std::alloc::Global;
use std::marker::Model;
use steer_base::{OutOfMemory, Packet, PacketId};

/// The lines of the packets that arrived and of their replies, and the number of packets that
/// arrived at each queue. A line is made when it is asked for, from the history and from the
/// places of the packet in its lists.
#[derive(Drop)]
pub struct Lines<'a> {
    history: &'a History,
    packets: &'a [Packet],
    apps: u8,
    slots: Slots,
    counted: Counted,
}

impl<'a> Model for Lines<'a> {
    ghost use Rattle.history.specs.Lines.{LineLists, lines_of};
    ghost use Rattle.history.specs.Made.{AreMade};

    ghost Value = { LineLists };

    ghost view = { λ l. lines_of l.packets.now l.apps l.history.now };

    ghost invariant = { AreMade };
}

impl<'a> Lines<'a> {
    /// Looks up the packets of a history that is regular for these packets and `apps` applications,
    /// in time and memory linear in its packets. All memory is allocated here.
    pub fn make(
        alloc: Global,
        h: &'a History,
        packets: &'a [Packet],
        apps: u8,
    ) -> Result<Lines<'a>, OutOfMemory>
        requires regular { Regular packets.now apps h.now }
        requires apps { 1 ≤ apps }
        requires few { length packets.now ≤ MAX_PACKETS }
        ensures lines { IfOk result (λ l. l ≡ lines_of packets.now apps h.now) }

        // Each line by itself; a reply has a line if and only if it was begun.
        ensures packet { IfOk result
            (λ l. (x : ℕ) (d : PacketLine) → x < length h.now.arrivals
            → slice_index_or l.packets x d ≡ packet_line packets.now apps h.now x) }
        ensures reply { IfOk result
            (λ l. (x : ℕ) → slice_index_or l.replies x None ≡ reply_line packets.now apps h.now x) }
        ensures begun { IfOk result
            (λ l. (x : ℕ) → is_some (slice_index_or l.replies x None) ≡ is_replied h.now x) }
        ensures arrived { IfOk result
            (λ l. (q : ℕ) → q < length h.now.taken
            → slice_index l.arrived q ≡ length (arrivals_at h.now.arrivals q)) }
    {
        let slots = Slots::make(alloc, h)?;
        let counted = Counted::make(alloc, h)?;
        Ok(Lines {
            history: h,
            packets,
            apps,
            slots,
            counted,
        })
    }

    /// The number of packets that arrived.
    pub fn len(&self) -> usize
        ensures { result ≡ length self.now.packets }
    {
        self.history.arrivals.len()
    }

    // The number of packets that arrived, which is within 32 bits.
    pub(crate) fn arrived(&self) -> u32
        ensures packets { result ≡ length self.now.packets }
        ensures replies { result ≡ length self.now.replies }
    {
        self.history.arrivals.len() as u32
    }

    /// The line of a packet that arrived.
    pub fn packet(&self, id: PacketId) -> PacketLine
        requires { id < length self.now.packets }
        ensures { result ≡ slice_index_or self.now.packets id result }
    {
        self.packet_with(id, self.lane(id))
    }

    // The processor that was chosen for a packet that arrived, if one was.
    pub(crate) fn lane(&self, id: PacketId) -> Option<u8>
        requires { id < length self.now.packets }
        ensures { result ≡ lane_at self.now.packets id }
    {
        let rank = self.counted.ranks[id.0 as usize];
        let queue = self.history.arrivals.get(id.0 as usize).queue;
        lane_of(choice_at(&self.history.choices, queue.0 as usize, rank as usize))
    }

    // The line of a packet that arrived, for which this processor was chosen.
    pub(crate) fn packet_with(&self, id: PacketId, lane: Option<u8>) -> PacketLine
        requires arrived { id < length self.now.packets }
        requires lane { lane ≡ lane_at self.now.packets id }
        ensures { result ≡ slice_index_or self.now.packets id result }
    {
        let rank = self.counted.ranks[id.0 as usize];
        packet_line(
            self.history,
            &self.slots,
            self.packets,
            self.apps,
            rank,
            lane,
            id,
        )
    }

    /// The line of the reply to a packet, if one was begun.
    pub fn reply(&self, id: PacketId) -> Option<ReplyLine>
        ensures { result ≡ slice_index_or self.now.replies id None }
    {
        self.reply_with(id, self.begun(id))
    }

    // What the lists say of the reply to a packet, if one was begun.
    pub(crate) fn begun(&self, id: PacketId) -> Option<Begun>
        ensures { result ≡ option_map begun_of (slice_index_or self.now.replies id None) }
    {
        if id.0 as usize >= self.history.arrivals.len() {
            return None;
        }
        begun_reply(self.history, &self.slots, self.packets, self.apps, id)
    }

    // The line of the reply to a packet of which the lists say this.
    pub(crate) fn reply_with(&self, id: PacketId, begun: Option<Begun>) -> Option<ReplyLine>
        requires { begun ≡ option_map begun_of (slice_index_or self.now.replies id None) }
        ensures { result ≡ slice_index_or self.now.replies id None }
    {
        if id.0 as usize >= self.history.arrivals.len() {
            return None;
        }
        let begun = begun?;
        Some(reply_line(
            self.history,
            &self.slots,
            self.packets,
            self.apps,
            begun,
            id,
        ))
    }

    /// The number of receive queues.
    pub fn queues(&self) -> usize
        ensures { result ≡ length self.now.arrived }
    {
        self.counted.arrived.len()
    }

    /// The number of packets that arrived at a receive queue.
    pub fn arrived_at(&self, queue: usize) -> u32
        requires { queue < length self.now.arrived }
        ensures { result ≡ slice_index self.now.arrived queue }
    {
        self.counted.arrived[queue]
    }
}
