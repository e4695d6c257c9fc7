//! Making a board.
ghost use Rattle.std.specs.Prelude.{◌≡◌, ◌<◌, ◌≤◌, ◌^◌, ◌++◌, false, All, IfOk, None, OnOk, map};
ghost use Rattle.std.specs.Prelude.{replicate};
ghost use Rattle.std.specs.Vec.{vec_len};
ghost use Rattle.hop_rule.specs.declared.sizes.TheConstants.{MAX_BOARD_ROOM};
ghost use Rattle.hop_board.specs.Made.{lane_slots, lines_of, new_board_seats, new_middles};
ghost use Rattle.hop_board.specs.Made.{new_words, sizes_of, spaced};
ghost use Rattle.hop_board.specs.Named.{HasNoSteps, board_seat};

use crate::board::{Board, WordSeat};
use crate::places::{SLOTS_PER_LANE, WORDS_PER_LINE};
use crate::spare::Spare;
use atomic_table::Table;
use backlog::Lane;
use board_api::{BoardSeat, LaneWord};
use hop_model::HopShape;
use hop_rule::{BoardSizes, OutLane, Slot};
use linearization::deal;
use std::alloc::Global;
use steer_base::{List, OutOfMemory};

impl Board {
    /// Makes a board with the lanes of this shape, these settings and this many seats, numbered
    /// from 0. It allocates all memory that the board ever uses; the only error is out of memory.
    pub fn make(
        alloc: Global,
        shape: &HopShape,
        settings: &[u64],
        seats: u32,
    ) -> Result<(Board, Vec<BoardSeat>), OutOfMemory>
        requires limit { 1 ≤ shape.now.limit }
        requires room { shape.now.room ≤ MAX_BOARD_ROOM }
        requires lanes { shape.now.lanes ≤ 32 }
        requires some_seat { 1 ≤ seats }
        requires seats { seats ≤ 64 }
        ensures sizes { IfOk result (λ r. r.0.sizes ≡ sizes_of shape.now settings.now seats) }
        ensures given { IfOk result (λ r. r.1.items ≡ new_board_seats r.0.table seats) }
        ensures table { IfOk result (λ r. All (λ s. s.table ≡ r.0.table) r.1.items) }
        ensures all { IfOk result (λ r. vec_len r.1 ≡ seats) }
    {
        let sizes = copy_sizes(alloc, shape, settings, seats)?;
        let words = first_words(alloc, &sizes)?;
        let lanes = first_slots(alloc, &sizes)?;
        let slots = spaced(alloc, lanes)?;
        let spare = Spare::make(alloc, &sizes)?;
        let (table, main) = match Table::new(alloc, &words, slots, &sizes) {
            Ok(made) => made,
            Err(_) => return Err(OutOfMemory),
        };
        let given = deal(alloc, &table.shared, main, seats)?;
        let seats = at_board(alloc, given)?;
        Ok((
            Board {
                table,
                sizes,
                spare,
            },
            seats,
        ))
    }
}

// The sizes of a board of this shape.
fn copy_sizes(
    alloc: Global,
    shape: &HopShape,
    settings: &[u64],
    seats: u32,
) -> Result<BoardSizes, OutOfMemory>
    ensures sizes { IfOk result (λ sizes. sizes ≡ sizes_of shape.now settings.now seats) }
    ensures start { IfOk result (λ sizes. sizes.start < 2 ^ 32) }
{
    let start = counter_start(shape.start);
    let mut values = Vec::with_capacity(alloc, settings.len())?;
    values.extend_from_slice(settings)?;
    Ok(BoardSizes {
        lanes: shape.lanes as u32,
        outs: shape.outs as u32,
        limit: shape.limit,
        room: shape.room,
        start,
        limited: shape.limited,
        settings: List::from_vec(values),
        seats,
    })
}

// The same number, with the fact that it is below 2^32.
fn counter_start(start: u32) -> u32
    ensures same { result ≡ start }
    ensures small { result < 2 ^ 32 }
{
    start
}

// The words before any step.
fn first_words(alloc: Global, sizes: &BoardSizes) -> Result<Vec<u64>, OutOfMemory>
    ensures { IfOk result (λ words. words.items ≡ new_words sizes.now) }
{
    let lanes = sizes.lanes as usize;
    let free = LaneWord::resting(sizes.start, 0).0;
    let mut words = Vec::new(alloc);
    push_lines(&mut words, free, lanes + sizes.outs as usize)?;
    push_lines(&mut words, sizes.start as u64, lanes)?;
    push_lines(&mut words, 0, 1)?;
    words.extend_from_slice(sizes.settings.as_slice())?;
    Ok(words)
}

// So many words more of this value, each with zeros behind it to the length of a cache line.
fn push_lines(words: &mut Vec<u64>, value: u64, count: usize) -> Result<(), OutOfMemory>
    ensures { OnOk result (words.new.items ≡ words.old.items ++ lines_of value count) }
{
    for _ in 0..count {
        words.push(value)?;
        words.extend_from_slice(&[0; WORDS_PER_LINE - 1])?;
    }
    Ok(())
}

// The slots of the lanes before any step.
fn first_slots(alloc: Global, sizes: &BoardSizes) -> Result<Vec<Option<Slot>>, OutOfMemory>
    requires limit { 1 ≤ sizes.now.limit }
    requires room { sizes.now.room ≤ MAX_BOARD_ROOM }
    requires lanes { sizes.now.lanes ≤ 32 }
    ensures { IfOk result (λ slots. slots.items ≡ lane_slots sizes.now) }
{
    let mut slots = middle_slots(alloc, sizes)?;
    for _ in 0..sizes.outs {
        let out = OutLane::make(alloc, sizes.room)?;
        slots.push(Some(Slot::Out(out)))?;
    }
    Ok(slots)
}

// Those of the middle lanes.
fn middle_slots(alloc: Global, sizes: &BoardSizes) -> Result<Vec<Option<Slot>>, OutOfMemory>
    requires limit { 1 ≤ sizes.now.limit }
    requires room { sizes.now.room ≤ MAX_BOARD_ROOM }
    requires lanes { sizes.now.lanes ≤ 32 }
    ensures { IfOk result (λ slots. slots.items ≡ new_middles sizes.now) }
{
    let mut slots = Vec::with_capacity(alloc, sizes.lanes as usize + sizes.outs as usize)?;
    for lane in 0..sizes.lanes as u8 {
        let limited = sizes.limited.has(lane);
        let middle = Lane::make(alloc, sizes.limit, sizes.room, sizes.start, limited)?;
        slots.push(Some(Slot::Middle(middle)))?;
    }
    Ok(slots)
}

// These slots, each with empty ones behind it that no call uses, so that they lie apart.
fn spaced(alloc: Global, mut slots: Vec<Option<Slot>>) -> Result<Vec<Option<Slot>>, OutOfMemory>
    ensures { IfOk result (λ all. all.items ≡ spaced slots.items) }
{
    let mut all = Vec::new(alloc);
    while let Some(slot) = slots.pop() {
        push_empty(&mut all, SLOTS_PER_LANE - 1)?;
        all.push(slot)?;
    }
    all.reverse();
    Ok(all)
}

// So many empty slots more.
fn push_empty(slots: &mut Vec<Option<Slot>>, count: usize) -> Result<(), OutOfMemory>
    ensures { OnOk result (slots.new.items ≡ slots.old.items ++ replicate count None) }
{
    for _ in 0..count {
        slots.push(None)?;
    }
    Ok(())
}

// Seats that have made no step, with what they keep besides.
fn at_board(alloc: Global, mut given: Vec<WordSeat>) -> Result<Vec<BoardSeat>, OutOfMemory>
    requires { All HasNoSteps given.items }
    ensures { IfOk result (λ seats. seats.items ≡ map (λ s. board_seat s false) given.items) }
{
    let mut seats = Vec::with_capacity(alloc, given.len())?;
    while let Some(seat) = given.pop() {
        seats.push_reserved(BoardSeat {
            seat,
            pulled: [0; 32],
            openings: 0,
            visit: 0,
            has_emptied: false,
        });
    }
    seats.reverse();
    Ok(seats)
}
