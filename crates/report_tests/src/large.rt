//! The report of as many packets as a capture may have.
use crate::histories::{PLAIN, lines_of, none, segment};
use history::{Arrival, History, LaneList, Sent};
use outside_io::MemorySink;
use report::{LineBuf, render};
use std::alloc::{AllocError, Global};
use std::process::Abort;
use steer_base::{Choice, Chosen, Cpu, List, OutOfMemory, Packet, PacketId, RxQueue, Why};

// The packets that a capture has at most. Those of each way are every fourth one.
const PACKETS: u32 = 262_144;

const EACH_WAY: u32 = PACKETS / 4;

// What a list has of every fourth packet, from the one of this number.
fn every_fourth<T: Drop, F: Fn(u32) -> T>(
    alloc: Global,
    first: u8,
    make: F,
) -> Result<List<T>, OutOfMemory>
    requires { F.IsAlwaysCallable make }
{
    let mut items = Vec::with_capacity(alloc, EACH_WAY as usize)?;
    for k in 0..EACH_WAY {
        items.push(make(4 * k + first as u32))?;
    }
    Ok(List::from_vec(items))
}

fn four<T: Drop, F: Fn(u8) -> Result<T, OutOfMemory>>(
    alloc: Global,
    make: F,
) -> Result<List<T>, OutOfMemory>
    requires { F.IsAlwaysCallable make }
{
    let mut items = Vec::new(alloc);
    for way in 0..4 {
        items.push(make(way)?)?;
    }
    Ok(List::from_vec(items))
}

// The packets of one way, all of which were retired.
fn lane(alloc: Global, way: u8) -> Result<LaneList, OutOfMemory> {
    Ok(LaneList {
        accepted: every_fourth(alloc, way, |id| PacketId(id))?,
        drops: none(alloc),
        pulled: EACH_WAY,
        delivered: EACH_WAY,
        retired: EACH_WAY,
    })
}

fn arrivals(alloc: Global) -> Result<List<Arrival>, OutOfMemory> {
    let mut arrivals = Vec::with_capacity(alloc, PACKETS as usize)?;
    for id in 0..PACKETS {
        let queue = RxQueue((id % 4) as u8);
        arrivals.push(Arrival {
            id: PacketId(id),
            queue,
            filter: None,
            entry: Some(queue),
        })?;
    }
    Ok(List::from_vec(arrivals))
}

fn port(alloc: Global) -> Result<List<PacketId>, OutOfMemory> {
    let mut port = Vec::with_capacity(alloc, PACKETS as usize)?;
    for id in 0..PACKETS {
        port.push(PacketId(id))?;
    }
    Ok(List::from_vec(port))
}

fn chosen(alloc: Global, way: u8) -> Result<List<Chosen>, OutOfMemory> {
    every_fourth(
        alloc,
        way,
        |id| Chosen {
            id: PacketId(id),
            choice: Choice { lane: way, ..PLAIN },
        },
    )
}

fn sent(alloc: Global, way: u8) -> Result<List<Sent>, OutOfMemory> {
    every_fourth(
        alloc,
        way,
        |id| Sent {
            id: PacketId(id),
            rxq: RxQueue(way),
            cpu: Cpu(way),
        },
    )
}

fn tx_chosen(alloc: Global, way: u8) -> Result<List<Chosen>, OutOfMemory> {
    every_fourth(
        alloc,
        way,
        |id| Chosen {
            id: PacketId(id),
            choice: Choice {
                class: Some(id % 512),
                want: Some(way),
                head: None,
                tail: Some(0),
                lane: way,
                why: Why::Same,
            },
        },
    )
}

// Each packet went its way, by the queue, the processor, the application and the transmit queue of
// one number.
fn history(rt: &impl Abort, alloc: Global) -> History {
    let inboxes = four(alloc, |way| every_fourth(alloc, way, |id| PacketId(id)));
    History {
        total: PACKETS,
        cut: None,
        arrivals: arrivals(alloc).expect(rt, "memory"),
        taken: four(alloc, |_| Ok(EACH_WAY)).expect(rt, "memory"),
        choices: four(alloc, |way| chosen(alloc, way)).expect(rt, "memory"),
        lanes: four(alloc, |way| lane(alloc, way)).expect(rt, "memory"),
        inboxes: inboxes.expect(rt, "memory"),
        sent: four(alloc, |way| sent(alloc, way)).expect(rt, "memory"),
        tx_choices: four(alloc, |way| tx_chosen(alloc, way)).expect(rt, "memory"),
        tx_lanes: four(alloc, |way| lane(alloc, way)).expect(rt, "memory"),
        port: port(alloc).expect(rt, "memory"),
        writes: four(alloc, |_| Ok(none(alloc))).expect(rt, "memory"),
        commands: none(alloc),
        start: 0,
    }
}

// The packets, in 512 flows.
fn packets(alloc: Global) -> Result<Vec<Packet>, OutOfMemory> {
    let mut packets = Vec::with_capacity(alloc, PACKETS as usize)?;
    for id in 0..PACKETS {
        let mut packet = segment();
        packet.hash = Some(id);
        packet.flow_number = id % 512;
        packets.push(packet)?;
    }
    Ok(packets)
}

fn text(alloc: Global) -> Result<String, AllocError> {
    let mut text = String::new(alloc);
    text.push_str("steer 1\n")?;
    for id in 0..PACKETS {
        let way = id % 4;
        let place = id / 4 + 1;
        write!(
            text,
            "p {id} q {way} via reta class - want - head - tail - cpu {way} why plain \
                at {place} app {way} in {place} place inbox\n"
        )?;
    }
    for id in 0..PACKETS {
        let way = id % 4;
        let place = id / 4 + 1;
        let left = id + 1;
        write!(
            text,
            "r {id} app {way} rxq {way} cpu {way} pick {way} head - tail 0 tx {way} why \
                same at {place} port {left}\n"
        )?;
    }
    for way in 0..4 {
        write!(text, "queue {way} arrived 65536 taken 65536\n")?;
    }
    for way in 0..4 {
        write!(
            text,
            "cpu {way} accepted 65536 pulled 65536 delivered 65536 retired 65536 dropped 0\n"
        )?;
    }
    for way in 0..4 {
        write!(
            text,
            "tx {way} accepted 65536 pulled 65536 delivered 65536 retired 65536\n"
        )?;
    }
    text.push_str("end 262144 of 262144\n")?;
    Ok(text)
}

#[test]
fn the_most_packets_are_reported(rt: HostRuntime) {
    let alloc = rt.alloc();
    let h = history(&rt, alloc);
    let packets = packets(alloc).expect(&rt, "memory");
    assert!(&rt; packets.len() <= 262_144);
    let lines = lines_of(&rt, alloc, &h, &packets, 4);
    let mut out = MemorySink::make(alloc, 67_108_864, Vec::new(alloc)).expect(&rt, "memory");
    let mut buf = LineBuf::make(alloc).expect(&rt, "memory");
    let answer = render(&h, &lines, &[], &mut buf, &mut out);
    assert!(&rt; answer.is_ok());
    let wanted = text(alloc).expect(&rt, "memory");
    assert!(&rt; out.bytes() == wanted.as_bytes());
}
