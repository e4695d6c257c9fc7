//! Clause 5: the heads that choices saw rise.
ghost use Rattle.std.specs.Prelude.{ℕ, ◌≡◌, ◌+◌, ◌<◌, List, IfOk, false, length, true};
ghost use Rattle.std.specs.Prelude.{is_some, vec_len};
ghost use Rattle.std.specs.List.{list_any};
ghost use Rattle.steer_base.specs.Counters.{distance};
ghost use Rattle.steer_base.specs.declared.choice.Chosen.{Chosen as AChosen};
ghost use Rattle.hop_model.specs.Hop.{chosen_at};
ghost use Rattle.history.specs.Lists.{lane_at, list_at};
ghost use Rattle.steer_model.specs.Good.Choices.{HeadsRise, lane_of_class, lane_seen};
ghost use Rattle.rule_check.specs.Currents.{AreCurrent};
ghost use Rattle.good_check.specs.Heads.{HaveSeen, Saw};
ghost use Rattle.good_check.specs.declared.heads.TheConstants.{LANES};

use crate::case::Case;
use history::LaneList;
use rule_check::CurrentLanes;
use std::alloc::Global;
use steer_base::{Chosen, List, OutOfMemory};

/// The lanes that a number of 8 bits names.
const LANES: usize = 256;

// How far a head is past the start of the counters.
fn past(head: u32, start: u32) -> u32
    ensures { result ≡ distance head start }
{
    head.wrapping_sub(start)
}

// How many packets a lane retired in the end.
fn retired(lanes: &List<LaneList>, lane: u8) -> u32
    ensures { result ≡ (lane_at lanes.now lane).retired }
{
    match lanes.as_slice().get(usize::from(lane)) {
        Some(lane) => lane.retired,
        None => 0,
    }
}

// Whether a head that was seen at a lane is none below the last one there, and none over what the
// lane retired. Keeps its count as the last one.
fn follows(last: &mut Vec<u32>, start: u32, lanes: &List<LaneList>, head: u32, lane: u8) -> bool
    requires lanes { vec_len last.old ≡ LANES }
    ensures yes { result ≡ true → (cs : List AChosen) (k : ℕ) → Saw cs k head lane
        → HaveSeen start lanes.now cs k last.old.items
        → HaveSeen start lanes.now cs (k + 1) last.new.items }
    ensures no { result ≡ false → (cs : List AChosen) (k : ℕ) → Saw cs k head lane → k < length cs
        → HaveSeen start lanes.now cs k last.old.items → HeadsRise start lanes.now cs → ⊥ }
    ensures lanes { vec_len last.new ≡ LANES }
{
    let at = usize::from(lane);
    let count = past(head, start);
    if count < last[at] || count > retired(lanes, lane) {
        return false;
    }
    last[at] = count;
    true
}

// The same of a choice that may have seen no head.
fn is_next(
    last: &mut Vec<u32>,
    start: u32,
    lanes: &List<LaneList>,
    head: Option<u32>,
    lane: Option<u8>,
) -> bool
    requires lanes { vec_len last.old ≡ LANES }
    ensures yes { result ≡ true → (cs : List AChosen) (k : ℕ)
        → (chosen_at cs k).choice.head ≡ head → lane_seen cs k ≡ lane
        → HaveSeen start lanes.now cs k last.old.items
        → HaveSeen start lanes.now cs (k + 1) last.new.items }
    ensures no { result ≡ false → (cs : List AChosen) (k : ℕ)
        → (chosen_at cs k).choice.head ≡ head → lane_seen cs k ≡ lane → k < length cs
        → HaveSeen start lanes.now cs k last.old.items → HeadsRise start lanes.now cs → ⊥ }
    ensures lanes { vec_len last.new ≡ LANES }
{
    let Some(head) = head else {
        return true;
    };
    let Some(lane) = lane else {
        return true;
    };
    follows(last, start, lanes, head, lane)
}

// The current lane of the class of a choice, if it has one.
fn lane_of(current: &CurrentLanes, chosen: &Chosen) -> Option<u8>
    ensures { (cs : List AChosen) → AreCurrent current.now cs
        → result ≡ lane_of_class chosen.now.choice.class cs }
{
    match chosen.choice.class {
        None => None,
        Some(class) => current.of(class),
    }
}

// Whether one of some choices saw a head.
fn saw_head(choices: &List<Chosen>) -> bool
    ensures { result ≡ list_any (λ c. is_some c.choice.head) choices.now }
{
    choices
        .as_slice()
        .iter()
        .any(|chosen| chosen.choice.head.is_some())
}

// Whether the heads that the choices of a producer saw rise at each lane.
fn heads_rise(
    alloc: Global,
    start: u32,
    lanes: &List<LaneList>,
    choices: &List<Chosen>,
) -> Result<bool, OutOfMemory>
    ensures yes { IfOk result (λ r. r ≡ true → HeadsRise start lanes.now choices.now) }
    ensures no { IfOk result (λ r. HeadsRise start lanes.now choices.now → r ≡ true) }
{
    if !saw_head(choices) {
        return Ok(true);
    }
    let mut current = CurrentLanes::new(alloc);
    let mut last = Vec::new(alloc);
    last.resize(LANES, 0)?;
    for chosen in choices.as_slice() {
        let lane = lane_of(&current, chosen);
        if !is_next(&mut last, start, lanes, chosen.choice.head, lane) {
            return Ok(false);
        }
        current.note(chosen)?;
    }
    Ok(true)
}

// The same of each of some producers.
fn all_heads_rise(
    alloc: Global,
    start: u32,
    lanes: &List<LaneList>,
    lists: &List<List<Chosen>>,
) -> Result<bool, OutOfMemory>
    ensures yes { IfOk result (λ r. r ≡ true
        → (q : ℕ) → HeadsRise start lanes.now (list_at lists.now q)) }
    ensures no { IfOk result (λ r.
        ((q : ℕ) → HeadsRise start lanes.now (list_at lists.now q)) → r ≡ true) }
{
    for choices in lists.as_slice() {
        if !heads_rise(alloc, start, lanes, choices)? {
            return Ok(false);
        }
    }
    Ok(true)
}

impl Case<'_> {
    ghost use Rattle.std.specs.Prelude.{◌≡◌, IfOk, true};
    ghost use Rattle.steer_model.specs.Good.Choices.{HeadsAreRising};

    /// Clause 5: whether along the choices of each receive queue and of each application the heads
    /// seen at one lane never fall, as counts, and none is over what the lane retired.
    ///
    /// # Errors
    ///
    /// `OutOfMemory`, and nothing else.
    pub fn has_rising_heads(&self, alloc: Global) -> Result<bool, OutOfMemory>
        ensures yes { IfOk result (λ r. r ≡ true → HeadsAreRising self.now.h.now) }
        ensures no { IfOk result (λ r. HeadsAreRising self.now.h.now → r ≡ true) }
    {
        let h = self.h;
        if !all_heads_rise(alloc, h.start, &h.lanes, &h.choices)? {
            return Ok(false);
        }
        all_heads_rise(alloc, h.start, &h.tx_lanes, &h.tx_choices)
    }
}
