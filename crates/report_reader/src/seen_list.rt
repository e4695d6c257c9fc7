//! The lines of packets and of replies, put together.
ghost use Rattle.std.specs.Prelude.{ℕ, ◌≡◌, ◌≤◌, ◌<◌, ◌+◌, List, IfOk, None, Some, drop, length};
ghost use Rattle.std.specs.Prelude.{slice_index_or};
ghost use Rattle.std.specs.List.{slice_get};
ghost use Rattle.std.specs.Option.{option_and_then, option_map};
ghost use Rattle.steer_base.specs.declared.limits.TheConstants.{MAX_PACKETS};
ghost use Rattle.report_reader.specs.Joined.{AreJoined, first_of, reply_by};
ghost use Rattle.report_reader.specs.declared.packets.SeenReply.{SeenReply as ReplyLines};
ghost use Rattle.report_reader.specs.declared.slots.Seen.{Seen as SeenLines};

use crate::packets::{SeenPacket, SeenReply};
use crate::slots::Seen;
use std::alloc::Global;
use std::marker::Model;
use steer_base::OutOfMemory;

/// The line of each packet with that of its reply, if there was one. No line is copied: a number
/// for each packet says which reply is its own. Contracts see the list of the lines.
#[derive(Drop)]
pub struct SeenList {
    packets: Vec<SeenPacket>,
    replies: Vec<SeenReply>,
    // From 1, and 0 for a packet without a reply.
    numbers: Vec<u32>,
    ghost one_each: { length numbers.items ≡ length packets.items },
}

impl Model for SeenList {
    ghost use Rattle.std.specs.Prelude.{List};
    ghost use Rattle.report_reader.specs.Joined.{seen_lines};
    ghost use Rattle.report_reader.specs.declared.slots.Seen.{Seen as SeenLines};

    ghost Value = { List SeenLines };

    ghost view = { λ s. seen_lines s.replies.items s.packets.items s.numbers.items };
}

// The reply with this number, from 1.
fn reply_by(replies: &[SeenReply], number: u32) -> Option<SeenReply>
    ensures { result ≡ reply_by replies.now number }
{
    if number == 0 {
        return None;
    }
    Some(*replies.get(number as usize - 1)?)
}

// The reply at a place, if it is to this packet.
fn reply_at(replies: &[SeenReply], next: usize, packet: usize) -> Option<SeenReply>
    ensures { result ≡ first_of packet (drop next replies.now) }
{
    if next >= replies.len() {
        return None;
    }
    let reply = replies[next];
    if reply.id.0 as usize == packet {
        Some(reply)
    } else {
        None
    }
}

// 1 for a reply.
fn one_if(reply: &Option<SeenReply>) -> usize
    ensures none { reply.now ≡ None → result ≡ 0 }
    ensures some { (r : ReplyLines) → reply.now ≡ Some r → result ≡ 1 }
    ensures most { result ≤ 1 }
{
    match reply {
        None => 0,
        Some(_) => 1,
    }
}

// The number of a reply at a place, and 0 if there is none.
fn number_of(reply: &Option<SeenReply>, next: usize) -> u32
    requires { next < MAX_PACKETS }
    ensures none { reply.now ≡ None → result ≡ 0 }
    ensures some { (r : ReplyLines) → reply.now ≡ Some r → result ≡ next + 1 }
{
    match reply {
        None => 0,
        Some(_) => next as u32 + 1,
    }
}

impl SeenList {
    /// Each packet with its reply, if there was one.
    pub fn join(
        alloc: Global,
        packets: Vec<SeenPacket>,
        replies: Vec<SeenReply>,
    ) -> Result<SeenList, OutOfMemory>
        requires few { length packets.items ≤ MAX_PACKETS }
        ensures long { IfOk result (λ seen. length seen ≡ length packets.items) }
        ensures joined { IfOk result (λ seen. (lines : List SeenLines)
            → AreJoined packets.items replies.items lines → seen ≡ lines) }
    {
        let mut numbers = Vec::with_capacity(alloc, packets.len())?;
        let mut next = 0;
        for x in 0..packets.len() {
            let reply = reply_at(&replies, next, x);
            let number = number_of(&reply, next);
            next += one_if(&reply);
            numbers.push(number)?;
        }
        Ok(SeenList {
            packets,
            replies,
            numbers,
        })
    }

    /// The number of packets.
    pub fn len(&self) -> usize
        ensures { result ≡ length self.now }
    {
        self.packets.len()
    }

    /// The line of a packet.
    pub fn packet(&self, x: usize) -> Option<SeenPacket>
        ensures { result ≡ option_map (λ s. s.packet) (slice_get self.now x) }
    {
        if x >= self.len() {
            return None;
        }
        Some(self.at(x).packet)
    }

    /// The line of the reply to a packet.
    pub fn reply(&self, x: usize) -> Option<SeenReply>
        ensures { result ≡ option_and_then (λ s. s.reply) (slice_get self.now x) }
    {
        if x >= self.len() {
            return None;
        }
        self.at(x).reply
    }

    /// The lines of a packet.
    pub fn at(&self, x: usize) -> Seen
        requires { x < length self.now }
        ensures { result ≡ slice_index_or self.now x result }
    {
        Seen {
            packet: self.packets[x],
            reply: reply_by(&self.replies, self.numbers[x]),
        }
    }
}
