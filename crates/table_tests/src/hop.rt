//! Hops played by worked traces, with the choices, positions and answers that they must give.
ghost use Rattle.std.specs.Prelude.{◌<◌, ◌≤◌, length};
ghost use Rattle.steer_base.specs.declared.limits.TheConstants.{MAX_FLOW_COUNT};
ghost use Rattle.hop_model.specs.declared.shape.TheConstants.{MAX_HOP_ROOM};

use crate::equal::same;
use crate::lanes::wanted;
use crate::traces::{
    ALL, APART, AT_7, Deed, EMPTIED, EMPTIED_AT_THE_WRAP, FIRST, GATE, HANDS, IN_HAND, LAST,
    MOVING, OFFLINE, PLAIN, Packet, RESIZING, SECOND, WRAPPING,
};
use dev_flow_table::MAX_EXACT_CLASSES;
use hop_core::Hop;
use hop_model::{HopAnswer, HopEvent, HopShape, MAX_HOP_ROOM};
use std::alloc::Global;
use std::process::Abort;
use std::test::Fail;
use steer_base::{Choice, Chosen, CpuMask, Idle, OutOfMemory, PacketId, Put};

// Plays an event that may be asked, with the answer that is wanted.
fn ask(rt: &impl Abort, hop: &mut Hop, turn: (HopEvent, HopAnswer)) {
    let (e, wanted) = turn;
    assert!(rt; hop.may_ask(e), "{e:?} may be asked");
    same(rt, &(e, hop.step(e)), &(e, wanted), 0);
}

// What is asked in a deed of one event, and what is wanted.
fn turn_of(deed: &Deed) -> Option<(HopEvent, HopAnswer)> {
    let done = HopAnswer::Done;
    Some(match *deed {
        Deed::Arrive(p, id) => (
            HopEvent::Arrive {
                p,
                id: PacketId(id),
            },
            done,
        ),
        Deed::Take(p, id) => (HopEvent::Take { p }, HopAnswer::Took(PacketId(id))),
        Deed::Enter(p) => (HopEvent::Enter { p }, done),
        Deed::Closed(p) => (HopEvent::Enter { p }, HopAnswer::Closed),
        Deed::Leave(p) => (HopEvent::Leave { p }, done),
        Deed::Pull(lane, id) => (HopEvent::Pull { lane }, HopAnswer::Took(PacketId(id))),
        Deed::HandFull(lane) => (HopEvent::Pull { lane }, HopAnswer::Idle(Idle::HandFull)),
        Deed::Deliver(lane, place) => {
            (
                HopEvent::Deliver { lane, to: 0 },
                HopAnswer::Position(place),
            )
        }
        Deed::Retire(lane) => (HopEvent::Retire { lane }, done),
        Deed::Close => (HopEvent::Close, done),
        Deed::Inside(count) => (HopEvent::Close, HopAnswer::Inside(count)),
        Deed::Resize(count) => (HopEvent::Resize { p: 0, count }, done),
        Deed::Reopen => (HopEvent::Reopen, done),
        _ => return None,
    })
}

// The events of a poll that finds this packet.
fn poll(rt: &impl Abort, hop: &mut Hop, packet: &Packet) {
    let choice = packet.choice;
    let weigh = HopEvent::Weigh {
        p: 0,
        class: choice.class,
        want: choice.want,
        desired: packet.desired,
        online: packet.online,
    };
    let hash = Some(packet.hash);
    ask(rt, hop, (HopEvent::Enter { p: 0 }, HopAnswer::Done));
    ask(
        rt,
        hop,
        (
            HopEvent::Take { p: 0 },
            HopAnswer::Took(PacketId(packet.id)),
        ),
    );
    ask(rt, hop, (weigh, HopAnswer::Chose(choice)));
    ask(
        rt,
        hop,
        (HopEvent::Put { p: 0, hash }, HopAnswer::Went(packet.went)),
    );
    ask(rt, hop, (HopEvent::Leave { p: 0 }, HopAnswer::Done));
}

// Plays one deed.
fn act(rt: &impl Abort, hop: &mut Hop, deed: &Deed) {
    if let Some(turn) = turn_of(deed) {
        ask(rt, hop, turn);
    }
    match deed {
        Deed::Poll(packet) => poll(rt, hop, packet),
        Deed::MayNotResize(count) => {
            let resize = HopEvent::Resize {
                p: 0,
                count: *count,
            };
            assert!(rt; !hop.may_ask(resize));
        }
        Deed::Emptied(lanes, wanted) => same(rt, &hop.emptied(*lanes), wanted, 1),
        _ => {}
    }
}

fn play(rt: &impl Abort, hop: &mut Hop, deeds: &[Deed]) {
    for deed in deeds {
        act(rt, hop, deed);
    }
}

// A receive queue with `classes` classes, four processors and one application.
fn receive_hop(
    alloc: Global,
    classes: u32,
    limit: u32,
    room: u32,
    start: u32,
    limited: CpuMask,
) -> Result<Hop, OutOfMemory>
    requires limit { 1 ≤ limit }
    requires room { room ≤ MAX_HOP_ROOM }
    requires classes { classes ≤ MAX_FLOW_COUNT }
{
    let mut counts = Vec::with_capacity(alloc, 1)?;
    counts.push(classes)?;
    Hop::make(
        alloc,
        HopShape {
            producers: 1,
            guests: 2,
            lanes: 4,
            outs: 1,
            limit,
            room,
            counts,
            exact: false,
            start,
            limited,
        },
    )
}

// Plays a trace on a receive queue whose lanes nothing limits.
fn trace(
    rt: &impl Abort,
    alloc: Global,
    numbers: (u32, u32, u32, u32),
    deeds: &[Deed],
) -> Result<(), OutOfMemory> {
    let (classes, limit, room, start) = numbers;
    assert!(rt; classes <= 4 && limit > 0 && room <= 4);
    let mut hop = receive_hop(alloc, classes, limit, room, start, CpuMask(0))?;
    play(rt, &mut hop, deeds);
    Ok(())
}

#[test]
fn a_flow_moves_once_the_head_has_reached_its_tail(rt: HostRuntime) -> Result<(), Fail> {
    trace(&rt, rt.alloc(), (1, 1000, 4, 0), MOVING)?;
    trace(&rt, rt.alloc(), (1, 1000, 4, 4294967294), WRAPPING)?;
    Ok(())
}

#[test]
fn two_flows_of_one_class_move_together(rt: HostRuntime) -> Result<(), Fail> {
    trace(&rt, rt.alloc(), (2, 1000, 4, 0), APART)?;
    Ok(())
}

#[test]
fn a_class_leaves_an_offline_lane(rt: HostRuntime) -> Result<(), Fail> {
    trace(&rt, rt.alloc(), (1, 1000, 2, 0), OFFLINE)?;
    Ok(())
}

#[test]
fn a_resize_unsets_the_classes(rt: HostRuntime) -> Result<(), Fail> {
    trace(&rt, rt.alloc(), (4, 1000, 2, 0), RESIZING)?;
    Ok(())
}

#[test]
fn the_packet_in_a_lane_s_hand_does_not_wait(rt: HostRuntime) -> Result<(), Fail> {
    trace(&rt, rt.alloc(), (0, 1, 3, 0), IN_HAND)?;
    Ok(())
}

#[test]
fn a_lane_is_empty_where_its_head_is_its_tail(rt: HostRuntime) -> Result<(), Fail> {
    trace(&rt, rt.alloc(), (0, 1000, 1, 0), EMPTIED)?;
    trace(
        &rt,
        rt.alloc(),
        (0, 1000, 1, 4294967295),
        EMPTIED_AT_THE_WRAP,
    )?;
    Ok(())
}

#[test]
fn the_gate_closes_where_nobody_is_inside(rt: HostRuntime) -> Result<(), Fail> {
    trace(&rt, rt.alloc(), (1, 1000, 1, 0), GATE)?;
    Ok(())
}

// Where a put of 200 packets of one flow, and of one of another behind them, leaves the packet of
// this number, where none is pulled: those of the flow as in a lane by itself.
fn put_of(id: u32, limited: bool) -> Put {
    if id == 200 && limited {
        return Put::At(152);
    }
    wanted(id.saturating_add(1), limited)
}

// Plays these packets, of which the last is of the other flow.
fn flood(rt: &impl Abort, hop: &mut Hop, limited: bool) {
    for id in 0..201u32 {
        let packet = Packet {
            id,
            hash: if id < 200 { FIRST } else { SECOND },
            online: ALL,
            desired: 1,
            choice: PLAIN,
            went: put_of(id, limited),
        };
        let arrive = HopEvent::Arrive {
            p: 0,
            id: PacketId(id),
        };
        ask(rt, hop, (arrive, HopAnswer::Done));
        poll(rt, hop, &packet);
    }
}

#[test]
fn a_large_flow_is_dropped_by_the_flow_limit_alone(rt: HostRuntime) -> Result<(), Fail> {
    let mut hop = receive_hop(rt.alloc(), 0, 300, 201, 0, CpuMask(0b10))?;
    flood(&rt, &mut hop, true);
    let mut hop = receive_hop(rt.alloc(), 0, 300, 201, 0, CpuMask(0))?;
    flood(&rt, &mut hop, false);
    Ok(())
}

#[test]
fn the_largest_hop_is_made(rt: HostRuntime) -> Result<(), Fail> {
    let mut counts = Vec::with_capacity(rt.alloc(), 32)?;
    for _ in 0..32u8 {
        counts.push(MAX_EXACT_CLASSES)?;
    }
    let shape = HopShape {
        producers: 32,
        guests: 0,
        lanes: 32,
        outs: 1,
        limit: MAX_HOP_ROOM,
        room: MAX_HOP_ROOM,
        counts,
        exact: true,
        start: 0,
        limited: CpuMask(0),
    };
    let mut hop = Hop::make(rt.alloc(), shape)?;
    play(&rt, &mut hop, LAST);
    Ok(())
}

// What is read of a hop in which one packet is in the hand of lane 1 and the next one in that of
// the producer.
fn shows_its_hands(rt: &impl Abort, hop: &Hop)
    requires producer { 0 < length hop.now.arrivals }
{
    let counts = (hop.arrivals_len(0), hop.taken(0), hop.placed(0));
    same(rt, &counts, &(2, 2, 1), 0);
    same(rt, &hop.to_put(0), &None, 1);
    same(rt, &hop.to_weigh(0), &Some(PacketId(1)), 1);
}

// One producer is inside.
fn shows_its_gate(rt: &impl Abort, hop: &Hop)
    requires actor { 0 < length hop.now.visits }
{
    same(rt, &hop.is_inside(0), &true, 0);
    same(rt, &hop.inside(), &1, 0);
    same(rt, &hop.is_closed(), &false, 0);
}

// The one choice was this.
fn shows_its_choice(rt: &impl Abort, hop: &Hop, choice: Choice)
    requires producer { 0 < length hop.now.arrivals }
{
    same(rt, &hop.choices(0).len(), &1, 2);
    let id = PacketId(0);
    same(rt, &hop.last_choice(0), &Some(Chosen { id, choice }), 3);
    same(rt, &hop.class(0, Some(FIRST)), &Some(0), 4);
}

// And of its lane 1 and of its out lane.
fn shows_its_lanes(rt: &impl Abort, hop: &Hop)
    requires lane { 1 < length hop.now.bare.accepted }
    requires out { 0 < length hop.now.bare.outs }
{
    same(rt, &(hop.head(1), hop.tail(1)), &(7, 8), 5);
    let counts = (hop.pulled(1), hop.delivered(1), hop.retired(1));
    same(rt, &counts, &(1, 0, 0), 6);
    same(rt, &(hop.unretired(1), hop.accepted_len(1)), &(1, 1), 7);
    let packets = (hop.accepted_at(1, 0), hop.to_deliver(1));
    same(rt, &packets, &(Some(PacketId(0)), Some(PacketId(0))), 8);
    assert!(rt; hop.drops(1).is_empty() && hop.out(0).is_empty());
    hop.sound();
}

#[test]
fn a_hop_shows_its_hands(rt: HostRuntime) -> Result<(), Fail> {
    let mut hop = receive_hop(rt.alloc(), 2, 1000, 2, 7, CpuMask(0))?;
    play(&rt, &mut hop, HANDS);
    assert!(rt; hop.may_ask(HopEvent::Take { p: 0 }) && hop.may_ask(HopEvent::Enter { p: 0 }));
    assert!(rt; hop.may_ask(HopEvent::Deliver { lane: 1, to: 0 }));
    shows_its_gate(&rt, &hop);
    shows_its_hands(&rt, &hop);
    shows_its_choice(&rt, &hop, AT_7);
    shows_its_lanes(&rt, &hop);
    Ok(())
}
