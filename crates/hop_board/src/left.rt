//! The lists that the lanes of a closed board leave, taken out of their slots.
ghost use Rattle.std.specs.Prelude.{◌≡◌, ℕ, ◌+◌, ◌*◌, ◌<◌, ◌≤◌, false, true, [], None, length};
ghost use Rattle.std.specs.Prelude.{slice_index_or};
ghost use Rattle.std.specs.Prelude.{vec_capacity};
ghost use Rattle.std.specs.Slots.{IsFull, slots_filled, slots_items, slots_len};
ghost use Rattle.backlog.specs.Puts.{put_count};
ghost use Rattle.hop_board.specs.Closed.{HasRoom};
ghost use Rattle.hop_board.specs.Left.{AllLie, AreFullFrom, AreSpare, AreTakenFrom};
ghost use Rattle.hop_board.specs.Left.{AreTakenTo, IsMiddleOf, IsOutLane};
ghost use Rattle.hop_board.specs.Left.{left_of, lists_left, middle_left, middles_left, out_left};
ghost use Rattle.hop_board.specs.Left.{outs_left};
ghost use Rattle.hop_board.specs.Tables.{all_slots};
ghost use Rattle.hop_board.specs.declared.places.TheConstants.{SLOTS_PER_LANE};

use crate::places::SLOTS_PER_LANE;
use crate::spare::Spare;
use atomic_table::Closed;
use backlog::Lane;
use board_api::BoardLists;
use history::LaneList;
use hop_rule::{BoardSizes, Slot};
use std::alloc::Global;
use steer_base::{Journal, LaneDrop, List, PacketId};

/// The lists of all lanes, taken out of their slots; no slot has a value after that.
pub fn lists_of(
    closed: &mut Closed<Option<Slot>, Global>,
    sizes: &BoardSizes,
    spare: Spare,
) -> BoardLists
    requires full { IsFull closed.old.slots }
    requires count { slots_len closed.old.slots ≡ all_slots sizes.now }
    requires lie { AllLie sizes.now (slots_items closed.old.slots) }
    requires room { HasRoom sizes.now spare }
    ensures lists { result ≡ lists_left sizes.now (slots_items closed.old.slots) }
    ensures none { (k : ℕ) → k < slots_len closed.new.slots
        → slice_index_or (slots_filled closed.new.slots) k false ≡ false }
{
    let Spare {
        accepted,
        drops,
        lanes,
        outs,
    } = spare;
    let lanes = middle_lists(closed, sizes, accepted, drops, lanes);
    let outs = out_lists(closed, sizes, outs);
    BoardLists {
        lanes: List::from_vec(lanes),
        outs: List::from_vec(outs),
    }
}

// What is left of a lane of which nobody has a packet in hand, copied into lists with room for it.
fn left(lane: &Lane, accepted: Journal<PacketId>, drops: Journal<LaneDrop>) -> LaneList
    requires accepted { accepted.items ≡ [] }
    requires accepted_room { length lane.now.accepted ≤ accepted.room }
    requires drops { drops.items ≡ [] }
    requires drops_room { length lane.now.drops ≤ drops.room }
    ensures { result ≡ left_of lane.now }
{
    let pulled = lane.pulled();
    LaneList {
        accepted: List::from_vec(accepted_packets(lane, accepted)),
        drops: List::from_vec(dropped_packets(lane, drops)),
        pulled,
        delivered: pulled,
        retired: pulled,
    }
}

fn accepted_packets(lane: &Lane, mut packets: Journal<PacketId>) -> Vec<PacketId>
    requires none { packets.items ≡ [] }
    requires room { length lane.now.accepted ≤ packets.room }
    ensures { result.items ≡ lane.now.accepted }
{
    for n in 0..lane.accepted_len() {
        packets.push(lane.accepted_at(n).unwrap());
    }
    packets.into_vec()
}

fn dropped_packets(lane: &Lane, mut packets: Journal<LaneDrop>) -> Vec<LaneDrop>
    requires none { packets.items ≡ [] }
    requires room { length lane.now.drops ≤ packets.room }
    ensures { result.items ≡ lane.now.drops }
{
    for fallen in lane.drops() {
        packets.push(*fallen);
    }
    packets.into_vec()
}

// The lists of the middle lanes.
fn middle_lists(
    closed: &mut Closed<Option<Slot>, Global>,
    sizes: &BoardSizes,
    mut accepted: Vec<Journal<PacketId>>,
    mut drops: Vec<Journal<LaneDrop>>,
    mut lists: Vec<LaneList>,
) -> Vec<LaneList>
    requires full { IsFull closed.old.slots }
    requires count { slots_len closed.old.slots ≡ all_slots sizes.now }
    requires lie { AllLie sizes.now (slots_items closed.old.slots) }
    requires accepted { AreSpare sizes.now.lanes sizes.now.room accepted.items }
    requires drops { AreSpare sizes.now.lanes sizes.now.room drops.items }
    requires none { lists.items ≡ [] }
    requires room { sizes.now.lanes ≤ vec_capacity lists }
    ensures lists { result.items ≡ middles_left sizes.now sizes.now.lanes
        (slots_items closed.old.slots) }
    ensures same { slots_items closed.new.slots ≡ slots_items closed.old.slots }
    ensures count { slots_len closed.new.slots ≡ slots_len closed.old.slots }
    ensures taken { AreTakenTo (SLOTS_PER_LANE * sizes.now.lanes) (slots_len closed.new.slots)
        (slots_filled closed.new.slots) }
{
    for lane in 0..sizes.lanes {
        let found = take_lane(closed, lane as usize);
        let (Some(packets), Some(fallen)) = (accepted.pop(), drops.pop()) else {
            unreachable!()
        };
        lists.push_reserved(middle_list(found, packets, fallen));
    }
    lists
}

fn middle_list(
    found: Option<Slot>,
    packets: Journal<PacketId>,
    fallen: Journal<LaneDrop>,
) -> LaneList
    requires lane { IsMiddleOf packets.room found }
    requires packets { packets.items ≡ [] }
    requires fallen { fallen.items ≡ [] }
    requires room { fallen.room ≡ packets.room }
    ensures { result ≡ middle_left found }
{
    let Some(Slot::Middle(lane)) = found else {
        unreachable!()
    };
    left(&lane, packets, fallen)
}

// The lists of the out lanes.
fn out_lists(
    closed: &mut Closed<Option<Slot>, Global>,
    sizes: &BoardSizes,
    mut lists: Vec<List<PacketId>>,
) -> Vec<List<PacketId>>
    requires count { slots_len closed.old.slots ≡ all_slots sizes.now }
    requires full { AreFullFrom (SLOTS_PER_LANE * sizes.now.lanes) (slots_len closed.old.slots)
        (slots_filled closed.old.slots) }
    requires lie { AllLie sizes.now (slots_items closed.old.slots) }
    requires none { lists.items ≡ [] }
    requires room { sizes.now.outs ≤ vec_capacity lists }
    ensures lists { result.items ≡ outs_left sizes.now sizes.now.outs
        (slots_items closed.old.slots) }
    ensures count { slots_len closed.new.slots ≡ slots_len closed.old.slots }
    ensures taken { AreTakenFrom (SLOTS_PER_LANE * sizes.now.lanes)
        (SLOTS_PER_LANE * sizes.now.outs)
        (slots_filled closed.old.slots) (slots_filled closed.new.slots) }
{
    for out in 0..sizes.outs {
        let found = take_lane(closed, sizes.lanes as usize + out as usize);
        lists.push_reserved(out_list(found));
    }
    lists
}

// The lane in the slot with this number, taken out of it; the empty slots behind it are taken, too.
fn take_lane(closed: &mut Closed<Option<Slot>, Global>, number: usize) -> Option<Slot>
    requires inside { SLOTS_PER_LANE * number + SLOTS_PER_LANE ≤ slots_len closed.old.slots }
    requires full { AreFullFrom (SLOTS_PER_LANE * number) (slots_len closed.old.slots)
        (slots_filled closed.old.slots) }
    ensures lane { slice_index_or (slots_items closed.old.slots) (SLOTS_PER_LANE * number) None
        ≡ result }
    ensures same { slots_items closed.new.slots ≡ slots_items closed.old.slots }
    ensures count { slots_len closed.new.slots ≡ slots_len closed.old.slots }
    ensures left { AreFullFrom (SLOTS_PER_LANE * number + SLOTS_PER_LANE)
        (slots_len closed.new.slots) (slots_filled closed.new.slots) }
    ensures taken { AreTakenFrom (SLOTS_PER_LANE * number) SLOTS_PER_LANE
        (slots_filled closed.old.slots) (slots_filled closed.new.slots) }
{
    let first = SLOTS_PER_LANE * number;
    let found = closed.take(first);
    for n in 1..SLOTS_PER_LANE {
        drop(closed.take(first + n));
    }
    found
}

fn out_list(found: Option<Slot>) -> List<PacketId>
    requires { IsOutLane found }
    ensures { result ≡ out_left found }
{
    let Some(Slot::Out(lane)) = found else {
        unreachable!()
    };
    lane.into_list()
}
