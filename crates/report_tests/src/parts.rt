//! The packets of a capture, what a plan and they give, and the settings that commands change.
ghost use Rattle.std.specs.Prelude.{◌≡◌};
ghost use Rattle.steer_model.specs.State.Settings.{IsInRange, changed};
ghost use Rattle.steer_model.specs.State.Start.{initial_settings};

use crate::equal::{same, same_items};
use pcap_reader::{put_header, put_packet, read_capture};
use plan_reader::{Plan, read_plan};
use std::alloc::Global;
use std::process::Abort;
use std::test::Fail;
use steer_base::{AppId, Command, Cpu, CpuMask, OutOfMemory, PacketId, RxQueue, TxQueue};
use steer_model::{Given, InForce, packets};
use toeplitz::{Kinds, verification_key};

// A TCP frame of a published verification flow: 66.9.149.187 port 2794 to 161.142.100.80 port
// 1766.
const PLAIN: [u8; 38] = [
    0, 0, 0, 0, 0, 0, 0, 0, 0, 0, 0, 0, 0x08, 0x00, 0x45, 0, 0, 24, 0, 0, 0, 0, 64, 6, 0, 0, 66, 9,
    149, 187, 161, 142, 100, 80, 0x0a, 0xea, 0x06, 0xe6,
];

// The same from port 2795.
const NEXT_PORT: [u8; 38] = [
    0, 0, 0, 0, 0, 0, 0, 0, 0, 0, 0, 0, 0x08, 0x00, 0x45, 0, 0, 24, 0, 0, 0, 0, 64, 6, 0, 0, 66, 9,
    149, 187, 161, 142, 100, 80, 0x0a, 0xeb, 0x06, 0xe6,
];

// The first flow in a frame with a tag of a virtual network.
const TAGGED: [u8; 42] = [
    0, 0, 0, 0, 0, 0, 0, 0, 0, 0, 0, 0, 0x81, 0x00, 0, 5, 0x08, 0x00, 0x45, 0, 0, 24, 0, 0, 0, 0,
    64, 6, 0, 0, 66, 9, 149, 187, 161, 142, 100, 80, 0x0a, 0xea, 0x06, 0xe6,
];

// No packet of the internet protocol.
const OTHER: [u8; 14] = [0, 0, 0, 0, 0, 0, 0, 0, 0, 0, 0, 0, 0x08, 0x06];

const PLAN: &[u8] = br#"{"cpus":4,"queues":[{"home":3,"mask":[],"flows":0}],"sock":0,
"apps":[0,1],"tx":[{"cpus":[],"queues":[]}],"steps":[]}"#;

fn captured(rt: &HostRuntime) -> Result<Vec<u8>, OutOfMemory> {
    let mut bytes = Vec::new(rt.alloc());
    put_header(&mut bytes)?;
    put_packet(&mut bytes, 0, 0, &PLAIN)?;
    put_packet(&mut bytes, 0, 0, &NEXT_PORT)?;
    put_packet(&mut bytes, 0, 0, &TAGGED)?;
    put_packet(&mut bytes, 0, 0, &OTHER)?;
    put_packet(&mut bytes, 0, 0, &PLAIN)?;
    Ok(bytes)
}

#[test]
fn flows_are_numbered_as_they_appear(rt: HostRuntime) -> Result<(), Fail> {
    let bytes = captured(&rt)?;
    let capture = read_capture(rt.alloc(), &bytes)?;
    // By their addresses alone the first two flows have one hash, and are two flows.
    let hash = Some(0x323e_8fc2u32);
    let found = packets(rt.alloc(), &capture, &bytes, &verification_key(), Kinds(1))?;
    same(&rt, &found.len(), &5, 0);
    for (packet, wanted) in found.iter().zip([
        (hash, 38u32, 0u32),
        (hash, 38, 1),
        (hash, 42, 0),
        (None, 14, 2),
        (hash, 38, 0),
    ]) {
        same(
            &rt,
            &(packet.hash, packet.len, packet.flow_number),
            &wanted,
            0,
        );
    }
    Ok(())
}

#[test]
fn a_plan_and_packets_are_given(rt: HostRuntime) -> Result<(), Fail> {
    let bytes = captured(&rt)?;
    let capture = read_capture(rt.alloc(), &bytes)?;
    let found = packets(rt.alloc(), &capture, &bytes, &verification_key(), Kinds(2))?;
    let plan = read_plan(rt.alloc(), PLAN)?;
    let given = Given::of_plan(rt.alloc(), &plan, &found, capture.cut)?;
    has_flows(&rt, &given);
    has_counts(&rt, &given);
    // Without a mask a packet stays at its home.
    for (mask, cpu) in [(0, 3u8), (0b10, 1)] {
        let found = masked_lane(&rt, rt.alloc(), &plan, &given, CpuMask(mask));
        same(&rt, &found, &Cpu(cpu), 0);
    }
    Ok(())
}

fn has_flows(rt: &impl Abort, given: &Given) {
    let hashes = (given.flow_hash(0), given.flow_hash(2), given.flow_hash(3));
    same(rt, &hashes, &(Some(Some(0x51cc_c178)), Some(None), None), 0);
    let of_packets = (given.flow_of(PacketId(1)), given.hash_of(PacketId(4)));
    same(rt, &of_packets, &(1, Some(0x51cc_c178)), 1);
    same(rt, &given.app_of(PacketId(0)), &AppId(0), 2);
}

fn has_counts(rt: &impl Abort, given: &Given) {
    same_items(rt, given.homes(), &[Cpu(3)]);
    let counts = (given.queues(), given.cpus(), given.apps(), given.txs());
    same(rt, &counts, &(1, 4, 2, 1), 3);
    same(rt, &(given.packet_count(), given.cut()), &(5, None), 4);
}

// The processor of the first packet, which has no class, where the one queue has this mask.
fn masked_lane(rt: &impl Abort, alloc: Global, plan: &Plan, given: &Given, mask: CpuMask) -> Cpu {
    assert!(rt; plan.queues.len() == 1 && given.queues() == 1);
    let settings = after(rt, alloc, plan, Command::Mask(RxQueue(0), mask));
    settings.plain_lane(given, 0, PacketId(0))
}

// The hash of the first flow: 0 modulo 2, and at entry 120.
const HASH: u32 = 0x51cc_c178;

// Two receive queues, two transmit queues and two applications, and processors 0 to 2 online
// at first.
const SETTINGS: &[u8] = br#"{"cpus":3,"queues":[{"home":0,"mask":[0],"flows":1},
{"home":1,"mask":[0],"flows":1}],"sock":4,"apps":[0,1],
"tx":[{"cpus":[],"queues":[]},{"cpus":[],"queues":[]}],"steps":[]}"#;

// The plan's settings after one command.
fn after(rt: &impl Abort, alloc: Global, plan: &Plan, command: Command) -> InForce
    requires { IsInRange (initial_settings plan.now) command }
    ensures { result ≡ changed (initial_settings plan.now) command }
{
    let mut settings = InForce::of_plan(alloc, plan).expect(rt, "memory");
    settings.change(&command);
    settings
}

fn flow_counts(rt: &impl Abort, alloc: Global, plan: &Plan) -> (u32, u32) {
    assert!(rt; plan.queues.len() == 2);
    let flows = after(rt, alloc, plan, Command::Flows(RxQueue(1), 5));
    (flows.flow_count(0), flows.flow_count(1))
}

fn online(rt: &impl Abort, alloc: Global, plan: &Plan) -> (CpuMask, CpuMask) {
    let online = after(rt, alloc, plan, Command::Online(Cpu(3)));
    let offline = after(rt, alloc, plan, Command::Offline(Cpu(1)));
    (online.online(), offline.online())
}

fn stands(rt: &impl Abort, alloc: Global, plan: &Plan) {
    assert!(rt; plan.apps.len() == 2);
    let stand = after(rt, alloc, plan, Command::Stand(AppId(1), Cpu(2)));
    same_items(rt, stand.stands(), &[Cpu(0), Cpu(2)]);
}

fn picked_by_cpu(rt: &impl Abort, alloc: Global, plan: &Plan) -> u8 {
    assert!(rt; plan.tx.len() == 2);
    let maps = after(rt, alloc, plan, Command::XCpus(TxQueue(1), CpuMask(0b10)));
    maps.pick(RxQueue(0), Cpu(1), Some(HASH))
}

fn picked_by_queue(rt: &impl Abort, alloc: Global, plan: &Plan) -> (u8, u8) {
    assert!(rt; plan.tx.len() == 2);
    let maps = after(rt, alloc, plan, Command::XQueues(TxQueue(1), 0b10));
    let mapped = maps.pick(RxQueue(1), Cpu(1), Some(HASH));
    (mapped, maps.pick(RxQueue(0), Cpu(1), Some(HASH)))
}

fn entry_queue(rt: &impl Abort, alloc: Global, plan: &Plan) -> RxQueue {
    assert!(rt; plan.queues.len() == 2);
    after(rt, alloc, plan, Command::Reta(120, RxQueue(1))).queue(Some(HASH))
}

#[test]
fn each_command_changes_its_own_setting(rt: HostRuntime) -> Result<(), Fail> {
    let alloc = rt.alloc();
    let plan = read_plan(alloc, SETTINGS)?;
    same(&rt, &flow_counts(&rt, alloc, &plan), &(1, 8), 0);
    let sock = after(&rt, alloc, &plan, Command::Sock(9)).sock();
    same(&rt, &sock, &16, 1);
    same(
        &rt,
        &online(&rt, alloc, &plan),
        &(CpuMask(0b1111), CpuMask(0b101)),
        2,
    );
    stands(&rt, alloc, &plan);
    same(&rt, &picked_by_cpu(&rt, alloc, &plan), &1, 3);
    same(&rt, &picked_by_queue(&rt, alloc, &plan), &(1, 0), 4);
    same(&rt, &entry_queue(&rt, alloc, &plan), &RxQueue(1), 5);
    let expired = after(&rt, alloc, &plan, Command::Expire).queue(Some(HASH));
    same(&rt, &expired, &RxQueue(0), 6);
    Ok(())
}
