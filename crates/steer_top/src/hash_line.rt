//! The lines of the command `hash`.
ghost use Rattle.std.specs.Prelude.{◌≡◌, ◌≤◌, ◌+◌, ◌++◌, ◌^◌, ◌<◌, [], codes, length};
ghost use Rattle.steer_top.specs.HashText.{version_text, pair_text, proto_text, flow_text};
ghost use Rattle.steer_top.specs.HashText.{hash_text, packet_text, count_line};

use report::{LineBuf, hex8};
use steer_base::{Flow, Pair, Proto, RxQueue};

#[tactic(auto, unfolding(crate::specs::HashText::version_text))]
fn push_two(line: &mut LineBuf, pair: Pair)
    requires { length line.old ≤ 400 }
    ensures value { line.new ≡ line.old ++ codes "two" ++ version_text pair }
    ensures grows { length line.new ≤ length line.old + 5 }
{
    match pair {
        Pair::V4 { .. } => line.push(b"two4 "),
        Pair::V6 { .. } => line.push(b"two6 "),
    }
}

#[inline(always)]
#[tactic(auto, unfolding(crate::specs::HashText::pair_text))]
fn push_pair(line: &mut LineBuf, pair: Pair)
    requires { length line.old ≤ 400 }
    ensures value { line.new ≡ line.old ++ pair_text pair }
    ensures grows { length line.new ≤ length line.old + 65 }
{
    match pair {
        Pair::V4 { src, dst } => {
            line.push(&hex8(src));
            line.push(b" ");
            line.push(&hex8(dst));
        }
        Pair::V6 { src, dst } => {
            line.push_hex(src, 32);
            line.push(b" ");
            line.push_hex(dst, 32);
        }
    }
}

#[tactic(auto, unfolding(crate::specs::HashText::proto_text, crate::specs::HashText::version_text))]
fn push_kind(line: &mut LineBuf, proto: Proto, pair: Pair)
    requires { length line.old ≤ 400 }
    ensures value { line.new ≡ line.old ++ proto_text proto ++ version_text pair }
    ensures grows { length line.new ≤ length line.old + 5 }
{
    match (proto, pair) {
        (Proto::Tcp, Pair::V4 { .. }) => line.push(b"tcp4 "),
        (Proto::Tcp, Pair::V6 { .. }) => line.push(b"tcp6 "),
        (Proto::Udp, Pair::V4 { .. }) => line.push(b"udp4 "),
        (Proto::Udp, Pair::V6 { .. }) => line.push(b"udp6 "),
    }
}

/// Appends the text of a flow to the line.
#[tactic(auto, unfolding(crate::specs::HashText::flow_text))]
pub fn push_flow(line: &mut LineBuf, flow: &Flow)
    requires { length line.old ≤ 300 }
    ensures value { line.new ≡ line.old ++ flow_text flow.now }
    ensures grows { length line.new ≤ length line.old + 112 }
{
    match *flow {
        Flow::Bare => line.push(b"none"),
        Flow::Two(pair) => {
            push_two(line, pair);
            push_pair(line, pair);
        }
        Flow::Four(pair, proto, sport, dport) => {
            push_kind(line, proto, pair);
            push_pair(line, pair);
            line.push(b" ");
            line.push_decimal(u64::from(sport));
            line.push(b" ");
            line.push_decimal(u64::from(dport));
        }
    }
}

/// Appends the text of a hash and its table entry to the line.
#[tactic(auto, unfolding(crate::specs::HashText::hash_text))]
pub fn push_hash(line: &mut LineBuf, hash: Option<u32>)
    requires { length line.old ≤ 400 }
    ensures value { line.new ≡ line.old ++ hash_text hash }
    ensures grows { length line.new ≤ length line.old + 41 }
{
    match hash {
        None => line.push(b" hash - entry -"),
        Some(hash) => {
            line.push(b" hash ");
            line.push(&hex8(hash));
            line.push(b" entry ");
            line.push_decimal(u64::from(hash % 128));
        }
    }
}

/// Puts the text of a packet in an empty line, without a line feed.
#[tactic(auto, unfolding(crate::specs::HashText::packet_text))]
pub fn push_packet(line: &mut LineBuf, number: u64, flow: &Flow, hash: Option<u32>, queue: RxQueue)
    requires { line.old ≡ [] }
    ensures value { line.new ≡ packet_text number flow.now hash queue }
    ensures grows { length line.new ≤ 300 }
{
    line.push(b"packet ");
    line.push_decimal(number);
    line.push(b" ");
    push_flow(line, flow);
    push_hash(line, hash);
    line.push(b" queue ");
    line.push_decimal(u64::from(queue.0));
}

/// Puts the line that counts the packets in an empty line.
#[tactic(auto, unfolding(crate::specs::HashText::count_line))]
pub fn push_count(line: &mut LineBuf, packets: u64, cut: Option<u32>)
    requires { line.old ≡ [] }
    ensures { line.new ≡ count_line packets cut }
{
    line.push(b"packets ");
    line.push_decimal(packets);
    if let Some(cut) = cut {
        line.push(b" cut ");
        line.push_decimal(u64::from(cut));
    }
    line.push(b"\n");
}
