//! The replies of the applications and their transmit queue choices.
ghost use Rattle.std.specs.Prelude.{◌≡◌, ◌<◌, IfOk, length, map};
ghost use Rattle.std.specs.List.{filter_map};
ghost use Rattle.history.specs.Lists.{packet_at};
ghost use Rattle.report_history.specs.Ahead.{AreAhead};
ghost use Rattle.report_history.specs.Shown.{choice_with, shown_sent, shown_tx_choice, with_class};

use crate::lookup::{shown_reply, shown_sent};
use history::Sent;
use report_reader::SeenList;
use std::alloc::Global;
use steer_base::{Choice, Chosen, List, OutOfMemory, Packet, PacketId};

// The flow number of a packet.
fn flow_of(packets: &[Packet], id: PacketId) -> u32
    ensures { result ≡ (packet_at packets.now id).flow_number }
{
    let at = id.0 as usize;
    if at < packets.len() {
        packets[at].flow_number
    } else {
        0
    }
}

// A choice with a flow number as its class.
fn with_class(flow: u32, choice: Choice) -> Choice
    ensures { result ≡ with_class flow choice }
{
    Choice {
        class: Some(flow),
        ..choice
    }
}

// The transmit queue choice for the reply to a packet, with this flow number as its class.
fn choice_with(seen: &SeenList, flow: u32, id: PacketId) -> Option<Chosen>
    ensures { result ≡ choice_with seen.now flow id }
{
    let choice = shown_reply(seen, id)?.choice?;
    Some(Chosen {
        id,
        choice: with_class(flow, choice),
    })
}

// How many packets are looked up together, so that the processor waits for all of them at once.
const AHEAD: usize = 16;

// What is looked up of a packet: its reply, if that was begun, and its flow number.
#[derive(Clone, Copy)]
struct Ahead {
    sent: Option<Sent>,
    flow: u32,
}

// Looks up the packets at this place and after it, and returns how many it looked up.
fn look_up(
    seen: &SeenList,
    packets: &[Packet],
    ids: &[PacketId],
    first: usize,
    ahead: &mut [Ahead; AHEAD],
) -> usize
    requires { first < length ids.now }
    ensures some { 0 < result }
    ensures ahead { AreAhead seen.now packets.now ids.now first result ahead.new }
{
    let known = (ids.len() - first).min(AHEAD);
    for k in 0..known {
        let id = ids[first + k];
        ahead[k] = Ahead {
            sent: shown_sent(seen, id),
            flow: flow_of(packets, id),
        };
    }
    known
}

// The replies of one application, and their transmit queue choices.
#[derive(Drop)]
struct OwnReplies {
    sent: Vec<Sent>,
    choices: Vec<Chosen>,
}

// The replies to these packets, as far as they were begun, and their transmit queue choices: both
// are on the line of the reply.
fn own_replies(
    alloc: Global,
    seen: &SeenList,
    packets: &[Packet],
    ids: &[PacketId],
) -> Result<OwnReplies, OutOfMemory>
    ensures sent { IfOk result
        (λ own. own.sent.items ≡ filter_map (shown_sent seen.now) ids.now) }
    ensures choices { IfOk result (λ own. own.choices.items
        ≡ filter_map (shown_tx_choice seen.now packets.now)
        (filter_map (shown_sent seen.now) ids.now)) }
{
    let mut replies = Vec::with_capacity(alloc, ids.len())?;
    let mut choices = Vec::with_capacity(alloc, ids.len())?;
    let mut ahead = [Ahead {
        sent: None,
        flow: 0,
    }; AHEAD];
    let mut first = 0;
    let mut known = 0;
    for x in 0..ids.len() {
        if x - first >= known {
            known = look_up(seen, packets, ids, x, &mut ahead);
            first = x;
        }
        let Ahead { sent, flow } = ahead[x - first];
        let choice = choice_with(seen, flow, ids[x]);
        if let Some(sent) = sent {
            replies.push(sent)?;
        }
        if let Some(choice) = choice {
            choices.push(choice)?;
        }
    }
    Ok(OwnReplies {
        sent: replies,
        choices,
    })
}

/// The replies of each application, and their transmit queue choices.
#[derive(Drop)]
pub struct Replied {
    /// The replies, by the inboxes.
    pub sent: Vec<List<Sent>>,
    /// Their transmit queue choices.
    pub tx_choices: Vec<List<Chosen>>,
}

/// The replies of each application, by its inbox, and their transmit queue choices.
pub fn all_replies(
    alloc: Global,
    seen: &SeenList,
    packets: &[Packet],
    inboxes: &[List<PacketId>],
) -> Result<Replied, OutOfMemory>
    ensures sent { IfOk result
        (λ r. r.sent.items ≡ map (filter_map (shown_sent seen.now)) inboxes.now) }
    ensures tx_choices { IfOk result (λ r. r.tx_choices.items
        ≡ map (λ ids. filter_map (shown_tx_choice seen.now packets.now)
        (filter_map (shown_sent seen.now) ids)) inboxes.now) }
{
    let mut all_sent = Vec::with_capacity(alloc, inboxes.len())?;
    let mut all_choices = Vec::with_capacity(alloc, inboxes.len())?;
    for inbox in inboxes {
        let OwnReplies { sent, choices } = own_replies(alloc, seen, packets, inbox.as_slice())?;
        all_sent.push(List::from_vec(sent))?;
        all_choices.push(List::from_vec(choices))?;
    }
    Ok(Replied {
        sent: all_sent,
        tx_choices: all_choices,
    })
}
