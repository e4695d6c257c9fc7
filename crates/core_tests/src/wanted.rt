//! What a step must answer, and what a history must have at a queue, a processor, an application or
//! a transmit queue, in plain numbers.
use crate::equal::{same, same_items};
use history::{Arrival, Commanded, History, LaneList, Sent, SockWrite};
use std::fmt::Debug;
use std::process::Abort;
use steer_base::{
    Answer, AppId, Busy, Choice, Chosen, DropCause, Idle, LaneDrop, List, PacketId, RxQueue, User,
};

/// An answer.
#[derive(Clone, Copy)]
pub enum Said {
    Done,
    Idle(Idle),
    /// So many actors are inside the gate.
    Inside(u32),
    /// This lane is not empty, and has this head and tail.
    Waits(u8, u32, u32),
    /// The processor is home to this receive queue.
    InUseByQueue(u8),
    /// This application stands on the processor.
    InUseByApp(u8),
    Offline,
    Expired(u32),
}

impl Said {
    pub fn answer(self) -> Answer {
        match self {
            Said::Done => Answer::Done,
            Said::Idle(why) => Answer::Idle(why),
            Said::Inside(count) => Answer::Busy(Busy::Inside(count)),
            Said::Waits(lane, head, tail) => Answer::Busy(Busy::NotEmpty { lane, head, tail }),
            Said::InUseByQueue(q) => Answer::CpuInUse(User::Queue(RxQueue(q))),
            Said::InUseByApp(a) => Answer::CpuInUse(User::App(AppId(a))),
            Said::Offline => Answer::CpuOffline,
            Said::Expired(count) => Answer::Expired(count),
        }
    }
}

/// A list that a history must have, with the number of its place.
#[derive(Clone, Copy)]
pub enum Wanted {
    /// All arrivals: packet, queue, and the queues that a filter and an entry named.
    Arrivals(&'static [(u32, u8, Option<u8>, Option<u8>)]),
    /// How many packets each poller took.
    Taken(&'static [u32]),
    /// The choices of a poller, each with its packet.
    Choices(usize, &'static [(u32, Choice)]),
    /// The backlog of a processor: the packets that it accepted, and how many it pulled, delivered,
    /// retired and dropped.
    Lane(usize, &'static [u32], [u32; 4]),
    /// The packets that a processor dropped, each with what it had accepted and pulled.
    Drops(usize, &'static [(u32, u32, u32, DropCause)]),
    /// The inbox of an application.
    Inbox(usize, &'static [u32]),
    /// The replies of an application: packet, receive queue and processor.
    Replies(usize, &'static [(u32, u8, u8)]),
    /// The choices of an application.
    TxChoices(usize, &'static [(u32, Choice)]),
    /// A transmit queue, with the counts of a backlog.
    TxLane(usize, &'static [u32], [u32; 4]),
    /// The replies on the port.
    Port(&'static [u32]),
    /// The writes of an application: entry and processor.
    Writes(usize, &'static [(u32, u8)]),
    /// The answers to all commands.
    Commands(&'static [Said]),
}

impl Wanted {
    /// The history has this.
    pub fn is_in(&self, rt: &impl Abort, left: &History) {
        match *self {
            Wanted::Arrivals(rows) => are_arrivals(rt, &left.arrivals, rows),
            Wanted::Taken(counts) => same_items(rt, left.taken.as_slice(), counts),
            Wanted::Choices(q, rows) => are_choices(rt, at(rt, &left.choices, q), rows),
            Wanted::Lane(c, ids, counts) => is_lane(rt, at(rt, &left.lanes, c), ids, counts),
            Wanted::Drops(c, rows) => are_drops(rt, &at(rt, &left.lanes, c).drops, rows),
            Wanted::Inbox(a, ids) => are_packets(rt, at(rt, &left.inboxes, a), ids),
            Wanted::Replies(a, rows) => are_replies(rt, at(rt, &left.sent, a), rows),
            Wanted::TxChoices(a, rows) => are_choices(rt, at(rt, &left.tx_choices, a), rows),
            Wanted::TxLane(t, ids, counts) => is_lane(rt, at(rt, &left.tx_lanes, t), ids, counts),
            Wanted::Port(ids) => are_packets(rt, &left.port, ids),
            Wanted::Writes(a, rows) => are_writes(rt, at(rt, &left.writes, a), rows),
            Wanted::Commands(answers) => are_answered(rt, &left.commands, answers),
        }
    }
}

/// The item of a number, which there must be.
pub fn at<'a, T>(rt: &impl Abort, items: &'a List<T>, i: usize) -> &'a T {
    assert!(rt; i < items.len(), "item {i}");
    items.get(i)
}

/// The items of a list, as they are shown, are these.
fn are<T: Copy, R: PartialEq + Debug + Copy, F: Fn(T) -> R>(
    rt: &impl Abort,
    found: &List<T>,
    rows: &[R],
    shown: F,
)
    requires { F.IsAlwaysCallable shown }
{
    same(rt, &found.len(), &rows.len(), 0);
    for (i, (item, row)) in found.as_slice().iter().zip(rows).enumerate() {
        same(rt, &shown(*item), row, i);
    }
}

fn are_packets(rt: &impl Abort, found: &List<PacketId>, ids: &[u32]) {
    are(rt, found, ids, |packet| packet.0);
}

fn are_choices(rt: &impl Abort, found: &List<Chosen>, rows: &[(u32, Choice)]) {
    are(rt, found, rows, |chosen| (chosen.id.0, chosen.choice));
}

fn are_arrivals(
    rt: &impl Abort,
    found: &List<Arrival>,
    rows: &[(u32, u8, Option<u8>, Option<u8>)],
) {
    are(rt, found, rows, |arrival| shown_arrival(arrival));
}

fn shown_arrival(arrival: Arrival) -> (u32, u8, Option<u8>, Option<u8>) {
    let (filter, entry) = (number_of(arrival.filter), number_of(arrival.entry));
    (arrival.id.0, arrival.queue.0, filter, entry)
}

fn number_of(queue: Option<RxQueue>) -> Option<u8> {
    match queue {
        Some(queue) => Some(queue.0),
        None => None,
    }
}

fn are_drops(rt: &impl Abort, found: &List<LaneDrop>, rows: &[(u32, u32, u32, DropCause)]) {
    are(
        rt,
        found,
        rows,
        |drop| (drop.id.0, drop.accepted, drop.pulled, drop.cause),
    );
}

fn are_replies(rt: &impl Abort, found: &List<Sent>, rows: &[(u32, u8, u8)]) {
    are(rt, found, rows, |sent| (sent.id.0, sent.rxq.0, sent.cpu.0));
}

fn are_writes(rt: &impl Abort, found: &List<SockWrite>, rows: &[(u32, u8)]) {
    are(rt, found, rows, |write| (write.entry, write.cpu.0));
}

fn are_answered(rt: &impl Abort, found: &List<Commanded>, answers: &[Said]) {
    same(rt, &found.len(), &answers.len(), 0);
    for (i, (commanded, said)) in found.as_slice().iter().zip(answers).enumerate() {
        same(rt, &commanded.answer, &said.answer(), i);
    }
}

fn is_lane(rt: &impl Abort, lane: &LaneList, accepted: &[u32], counts: [u32; 4]) {
    are_packets(rt, &lane.accepted, accepted);
    let [pulled, delivered, retired, dropped] = counts;
    let found = (lane.pulled, lane.delivered, lane.retired, lane.drops.len());
    same(
        rt,
        &found,
        &(pulled, delivered, retired, dropped as usize),
        0,
    );
}
