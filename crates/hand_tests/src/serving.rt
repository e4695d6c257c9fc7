//! What an application does between its boards, and what others do there beside it.
ghost use Rattle.std.specs.Prelude.{◌<◌};
ghost use Rattle.steer_base.specs.declared.limits.TheConstants.{MAX_SOCKET_SIZE};

use crate::hands::{add_seat, lists_of};
use crate::offices::Office;
use board_api::{BoardLists, Hold, LaneId};
use history::{Arrival, Sent, SockWrite};
use run_controller::{close_empty, set_and_open};
use run_words::{HintWord, place_word};
use std::alloc::Global;
use std::process::Abort;
use std::sync::Wait;
use steer_base::{AppId, Chosen, CpuMask, PacketId, RxQueue};

/// The arrivals of two packets, each at a queue of its own.
const ARRIVALS: [Arrival; 2] = [
    Arrival {
        id: PacketId(0),
        queue: RxQueue(0),
        filter: None,
        entry: None,
    },
    Arrival {
        id: PacketId(1),
        queue: RxQueue(1),
        filter: None,
        entry: None,
    },
];

/// The first setting of each board, which a closer makes again: the set of processor 0.
const FIRST: u64 = 1;

/// What is done in an office.
#[derive(Clone, Copy)]
pub enum Act {
    /// The application takes.
    Take,
    /// It takes while another seat holds its inbox.
    TakeFromHeld,
    /// It takes while the gate of the receive board is closed.
    TakeAtClosed,
    /// It replies, before all packets have arrived.
    Reply,
    /// It replies, with the arrivals of two packets.
    ReplyLate,
    /// It replies while the gate of the transmit board is closed.
    ReplyAtClosed,
    /// The word of a packet's receive queue gets this: the queue and one more, or 0 for none.
    Queue(u32, u64),
    /// The word gets this that says whether a packet is steered.
    Mark(u32, u64),
    /// The word of the application gets a processor.
    Stand(u8),
}

/// A worked step: what is done, whether the call did something, and the packet in hand afterwards.
pub type Line = (Act, bool, Option<PacketId>);

fn take(office: &mut Office) -> bool {
    office.server.take(
        &office.receive,
        &office.shared,
        &mut office.receive_seat,
        &mut office.hint,
    )
}

fn take_from_held(rt: &impl Abort, office: &mut Office) -> bool {
    let inbox = LaneId::Out(office.server.app);
    match office.receive.try_hold(&mut office.receive_closer, inbox) {
        Hold::Ok(held) => {
            let took = office.server.take(
                &office.receive,
                &office.shared,
                &mut office.receive_seat,
                &mut office.hint,
            );
            office.receive.give_back(&mut office.receive_closer, held);
            took
        }
        Hold::Held { .. } => panic!(rt; "a held inbox"),
    }
}

fn take_at_closed(rt: &impl Abort, office: &mut Office) -> bool {
    assert!(rt; office.openings < 8);
    match close_empty(&office.receive, &mut office.receive_closer, CpuMask(0)) {
        None => {
            let took = office.server.take(
                &office.receive,
                &office.shared,
                &mut office.receive_seat,
                &mut office.hint,
            );
            set_and_open(&office.receive, &mut office.receive_closer, 0, FIRST);
            office.openings += 1;
            took
        }
        Some(_) => panic!(rt; "a busy board"),
    }
}

fn reply<R: Wait>(rt: &R, office: &mut Office, late: &[Arrival]) -> bool {
    office.server.reply(
        rt,
        &office.transmit,
        &office.shared,
        late,
        &mut office.transmit_seat,
        &mut office.hint,
    )
}

fn reply_at_closed<R: Wait + Abort>(rt: &R, office: &mut Office, late: &[Arrival]) -> bool {
    assert!(rt; office.openings < 8);
    match close_empty(&office.transmit, &mut office.transmit_closer, CpuMask(0)) {
        None => {
            let sent = office.server.reply(
                rt,
                &office.transmit,
                &office.shared,
                late,
                &mut office.transmit_seat,
                &mut office.hint,
            );
            set_and_open(&office.transmit, &mut office.transmit_closer, 0, FIRST);
            office.openings += 1;
            sent
        }
        Some(_) => panic!(rt; "a busy board"),
    }
}

fn note_queue(rt: &impl Abort, office: &mut Office, id: u32, word: u64) {
    assert!(rt; id < office.server.sent.room());
    let number = HintWord::Queue(PacketId(id)).number();
    office.shared.hints.store(&mut office.hint, number, word);
}

fn note_mark(rt: &impl Abort, office: &mut Office, id: u32, word: u64) {
    assert!(rt; id < office.server.sent.room());
    let number = HintWord::Steered(PacketId(id)).number();
    office.shared.hints.store(&mut office.hint, number, word);
}

fn stand_at(office: &mut Office, cpu: u8) {
    let number = HintWord::Stand(AppId(office.server.app)).number();
    office
        .shared
        .hints
        .store(&mut office.hint, number, place_word(cpu));
}

// Does one thing in an office.
fn perform<R: Wait + Abort>(rt: &R, office: &mut Office, act: Act) -> bool {
    match act {
        Act::Take => take(office),
        Act::TakeFromHeld => take_from_held(rt, office),
        Act::TakeAtClosed => take_at_closed(rt, office),
        Act::Reply => reply(rt, office, &[]),
        Act::ReplyLate => reply(rt, office, &ARRIVALS),
        Act::ReplyAtClosed => reply_at_closed(rt, office, &ARRIVALS),
        Act::Queue(id, word) => {
            note_queue(rt, office, id, word);
            true
        }
        Act::Mark(id, word) => {
            note_mark(rt, office, id, word);
            true
        }
        Act::Stand(cpu) => {
            stand_at(office, cpu);
            true
        }
    }
}

/// Does what a table of worked steps says, and compares.
pub fn works<R: Wait + Abort>(rt: &R, office: &mut Office, lines: &[Line]) {
    for line in lines {
        let (act, did, hand) = *line;
        assert!(rt; perform(rt, office, act) == did);
        assert!(rt; office.server.hand == hand);
    }
}

/// The application has noted these writes, replies and choices, and no others.
pub fn noted(
    rt: &impl Abort,
    office: &Office,
    writes: &[SockWrite],
    sent: &[Sent],
    choices: &[Chosen],
) {
    assert!(rt; office.server.writes.as_slice() == writes);
    assert!(rt; office.server.sent.as_slice() == sent);
    assert!(rt; office.server.choices.as_slice() == choices);
}

/// The word of an entry of the socket flow table.
pub fn socket_word(office: &mut Office, entry: u32) -> u64
    requires { entry < MAX_SOCKET_SIZE }
{
    let number = HintWord::Socket(entry).number();
    office.shared.hints.load(&mut office.hint, number)
}

/// The lists of the transmit board.
pub fn transmitted(rt: &impl Abort, alloc: Global, office: Office) -> BoardLists {
    let Office {
        transmit,
        transmit_seat,
        transmit_closer,
        ..
    } = office;
    let mut seats = Vec::new(alloc);
    add_seat(&transmit, &mut seats, transmit_seat).expect(rt, "memory");
    add_seat(&transmit, &mut seats, transmit_closer).expect(rt, "memory");
    lists_of(transmit, seats)
}

/// The packets that a lane accepted, none beyond the lanes.
pub fn accepted(lists: &BoardLists, lane: usize) -> &[PacketId] {
    match lists.lanes.as_slice().get(lane) {
        Some(list) => list.accepted.as_slice(),
        None => &[],
    }
}
