//! The lines of packets and of replies that are asked for in packet order.
ghost use Rattle.std.specs.Prelude.{◌≡◌, ◌<◌, ◌≤◌, None, length, slice_index_or};
ghost use Rattle.history.specs.InOrder.{AreBegun, AreLanes, lane_at};
ghost use Rattle.history.specs.declared.lines.in_order.TheConstants.{AHEAD};

use crate::lines::Lines;
use crate::lines::begun::Begun;
use crate::packet_line::PacketLine;
use crate::reply_line::ReplyLine;
use std::marker::Model;
use steer_base::PacketId;

/// How many packets are looked up together.
pub const AHEAD: usize = 16;

/// The lines of the packets that arrived, for a caller that asks for them in packet order: the
/// processors that were chosen for sixteen packets are looked up together, so that this processor
/// waits for all of them at once.
#[derive(Drop)]
pub struct PacketLines<'a> {
    lines: &'a Lines<'a>,
    first: u32,
    known: u32,
    lanes: [Option<u8>; AHEAD],
}

impl<'a> Model for PacketLines<'a> {
    ghost use Rattle.std.specs.Prelude.{List};
    ghost use Rattle.history.specs.InOrder.{AreLanes};
    ghost use Rattle.history.specs.declared.packet_line.PacketLine.{PacketLine};

    ghost Value = { List PacketLine };

    ghost view = { λ p. p.lines.now.packets };

    ghost invariant = { λ p. AreLanes p.lines.now.packets p.first p.known p.lanes };
}

impl<'a> PacketLines<'a> {
    /// The lines of the packets; nothing is looked up yet.
    pub fn of(lines: &'a Lines<'a>) -> PacketLines<'a>
        ensures { result ≡ lines.now.packets }
    {
        PacketLines {
            lines,
            first: 0,
            known: 0,
            lanes: [None; AHEAD],
        }
    }

    /// The line of a packet that arrived.
    #[inline(always)]
    pub fn line(&mut self, id: PacketId) -> PacketLine
        requires { id < length self.old }
        ensures line { result ≡ slice_index_or self.old id result }
        ensures same { self.new ≡ self.old }
    {
        let lane = self.lane(id);
        self.lines.packet_with(id, lane)
    }

    // The processor that was chosen for a packet that arrived, if one was.
    fn lane(&mut self, id: PacketId) -> Option<u8>
        requires { id < length self.old }
        ensures lane { result ≡ lane_at self.old id }
        ensures same { self.new ≡ self.old }
    {
        let PacketId(at) = id;
        if at < self.first || at - self.first >= self.known {
            self.known = look_up_lanes(self.lines, at, &mut self.lanes);
            self.first = at;
        }
        looked_up(&self.lanes, (at - self.first) as usize)
    }
}

// Looks up the processors of the packets from one on, and returns how many it looked up.
fn look_up_lanes(lines: &Lines, first: u32, lanes: &mut [Option<u8>; AHEAD]) -> u32
    requires { first < length lines.now.packets }
    ensures some { 0 < result }
    ensures lanes { AreLanes lines.now.packets first result lanes.new }
{
    let known = (lines.arrived() - first).min(AHEAD as u32);
    for k in 0..known {
        lanes[k as usize] = lines.lane(PacketId(first + k));
    }
    known
}

/// The lines of the replies, for a caller that asks for them in packet order: the replies to
/// sixteen packets are looked up together, so that the processor waits for all of them at once.
#[derive(Drop)]
pub struct ReplyLines<'a> {
    lines: &'a Lines<'a>,
    first: u32,
    known: u32,
    replies: [Option<Begun>; AHEAD],
}

impl<'a> Model for ReplyLines<'a> {
    ghost use Rattle.std.specs.Prelude.{List, Option};
    ghost use Rattle.history.specs.InOrder.{AreBegun};
    ghost use Rattle.history.specs.declared.reply_line.ReplyLine.{ReplyLine};

    ghost Value = { List (Option ReplyLine) };

    ghost view = { λ p. p.lines.now.replies };

    ghost invariant = { λ p. AreBegun p.lines.now.replies p.first p.known p.replies };
}

impl<'a> ReplyLines<'a> {
    /// The lines of the replies; none is looked up yet.
    pub fn of(lines: &'a Lines<'a>) -> ReplyLines<'a>
        ensures { result ≡ lines.now.replies }
    {
        ReplyLines {
            lines,
            first: 0,
            known: 0,
            replies: [None; AHEAD],
        }
    }

    /// The line of the reply to a packet, if one was begun.
    pub fn line(&mut self, id: PacketId) -> Option<ReplyLine>
        ensures line { result ≡ slice_index_or self.old id None }
        ensures same { self.new ≡ self.old }
    {
        let PacketId(at) = id;
        if at >= self.lines.arrived() {
            return None;
        }
        if at < self.first || at - self.first >= self.known {
            self.known = look_up_replies(self.lines, at, &mut self.replies);
            self.first = at;
        }
        let begun = looked_up(&self.replies, (at - self.first) as usize);
        self.lines.reply_with(id, begun)
    }
}

// Looks up the replies to the packets from one on, and returns how many it looked up.
fn look_up_replies(lines: &Lines, first: u32, replies: &mut [Option<Begun>; AHEAD]) -> u32
    requires { first < length lines.now.replies }
    ensures some { 0 < result }
    ensures replies { AreBegun lines.now.replies first result replies.new }
{
    let known = (lines.arrived() - first).min(AHEAD as u32);
    for k in 0..known {
        replies[k as usize] = lines.begun(PacketId(first + k));
    }
    known
}

// What was looked up at an index.
fn looked_up<T: Copy>(items: &[Option<T>; AHEAD], index: usize) -> Option<T>
    requires { index < AHEAD }
    ensures { result ≡ slice_index_or items.now index None }
{
    items[index]
}
