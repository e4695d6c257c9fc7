//! The lines of a packet and of its reply.
use crate::equal::same;
use crate::histories::{PLAIN, classed, lines_of, replied, segments};
use history::{Lines, PacketLine, Place, ReplyLine, ReplyLines, Via};
use std::alloc::Global;
use std::process::Abort;
use steer_base::{AppId, Cpu, PacketId, Put, RxQueue, Why};

// The one packet has this line.
fn has_packet(rt: &impl Abort, lines: &Lines, line: PacketLine) {
    assert!(rt; lines.len() == 1 && lines.queues() == 1);
    same(rt, &lines.arrived_at(0), &1, 0);
    same(rt, &lines.packet(PacketId(0)), &line, 1);
}

// The one reply has this line.
fn has_reply(rt: &impl Abort, lines: &Lines, reply: ReplyLine) {
    let wanted = Some(reply);
    same(rt, &lines.reply(PacketId(0)), &wanted, 2);
    same(rt, &lines.reply(PacketId(1)), &None, 3);
    let mut in_order = ReplyLines::of(&*lines);
    let first = in_order.line(PacketId(0));
    let second = in_order.line(PacketId(1));
    same(rt, &first, &wanted, 4);
    same(rt, &second, &None, 5);
}

// The lines of a packet that was delivered, and whose reply was sent, where the counters begin at
// `start`: both have this position.
fn has_lines(rt: &impl Abort, alloc: Global, start: u32, position: u32) {
    let h = replied(rt, alloc, start);
    let packets = segments(rt, alloc, 1);
    let lines = lines_of(rt, alloc, &h, &packets, 1);
    let line = PacketLine {
        id: PacketId(0),
        queue: RxQueue(0),
        via: Via::Reta,
        choice: Some(PLAIN),
        put: Some(Put::At(position)),
        app: AppId(0),
        inbox: Some(1),
        place: Place::Inbox(AppId(0)),
        flow_number: 0,
    };
    has_packet(rt, &lines, line);
    let reply = ReplyLine {
        id: PacketId(0),
        app: AppId(0),
        rxq: RxQueue(0),
        cpu: Cpu(2),
        choice: Some(classed(Some(0), None, start, 0, Why::Unset)),
        put: Some(position),
        port: Some(1),
        flow_number: 0,
    };
    has_reply(rt, &lines, reply);
}

#[test]
fn lines_of_a_packet_and_its_reply(rt: HostRuntime) {
    has_lines(&rt, rt.alloc(), 0, 1);
    has_lines(&rt, rt.alloc(), 4294967295, 0);
}
