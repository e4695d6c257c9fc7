//! Taking lanes out of their slots and putting them back.
ghost use Rattle.std.specs.Prelude.{◌≡◌, true, ◌∷◌, MatchResult};
ghost use Rattle.hop_rule.specs.Boards.{own_state, empty};
ghost use Rattle.board_api.specs.Calls.HeldLanes.{FitsLane};
ghost use Rattle.hop_board.specs.Makings.{TookSlot, MissedSlot};
ghost use Rattle.hop_board.specs.Releases.{released_lane, rises_in, step_in, is_told};
ghost use Rattle.hop_board.specs.Steps.{MayGive};
ghost use Rattle.hop_board.specs.Tables.{slot_of};

use crate::board::{Board, WordSeat};
use crate::places::Word;
use crate::plays::{Empties, Fills, Frees, Given, Holds, Taken};
use crate::release::Release;
use board_api::LaneId;
use hop_rule::{BoardStep, Slot};
use linearization::Moves;
use std::marker::Brand;

impl Board {
    // Takes a lane and moves it out of its slot, or returns the odd word that was found.
    pub(crate) fn take(&self, seat: &mut WordSeat, lane: LaneId) -> Result<Slot, u64>
        requires table { seat.old.table ≡ self.now.table }
        requires within { FitsLane self.now.sizes lane }
        ensures { MatchResult result (λ found. TookSlot self.now.sizes lane seat.old seat.new found)
            (λ word. MissedSlot lane seat.old seat.new word) }
    {
        self.take_as::<Brand>(seat, lane)
    }

    fn take_as<J: Taken>(&self, seat: &mut WordSeat, lane: LaneId) -> Result<Slot, u64>
        requires table { seat.old.table ≡ self.now.table }
        requires within { FitsLane self.now.sizes lane }
        requires lane { J.lane ≡ lane }
        ensures { MatchResult result (λ found. TookSlot self.now.sizes lane seat.old seat.new found)
            (λ word. MissedSlot lane seat.old seat.new word) }
    {
        let slot = self.home_of(lane);
        let place = self.place(Word::Lane(lane));
        let shared = &self.table.shared;
        let word = shared.fetch_or::<Moves<Holds<J>>>(&mut seat.seat, place, 1);
        if word % 2 == 1 {
            return Err(word);
        }
        let found = shared.exchange(&mut seat.seat, slot, None);
        shared.load::<Moves<Empties>>(&mut seat.seat, place);
        Ok(found.unwrap())
    }

    // Moves a lane into its slot and releases it. It is inlined, so that the lane goes into its
    // slot without a copy on the way.
    #[inline(always)]
    pub(crate) fn give(&self, seat: &mut WordSeat, release: Release, lane: Slot)
        requires table { seat.old.table ≡ self.now.table }
        requires within { FitsLane self.now.sizes (released_lane release) }
        requires empty { own_state self.now.sizes (slot_of self.now.sizes (released_lane release))
            seat.old.steps ≡ empty }
        requires give { MayGive self.now.sizes seat.old (released_lane release)
            (rises_in release) lane
            (step_in release) (is_told self.now.sizes release lane) }
        ensures step { seat.new ≡ record seat.old {
          steps = step_in release
              ∷ BoardStep.LaneIn (slot_of self.now.sizes (released_lane release)) ∷ seat.old.steps;
        } }
        ensures told { is_told self.now.sizes release lane }
    {
        self.give_as::<Brand>(seat, release, lane);
    }

    // The lane's word becomes one more if its tail rises, otherwise one less.
    #[inline(always)]
    fn give_as<J: Given>(&self, seat: &mut WordSeat, release: Release, lane: Slot)
        requires table { seat.old.table ≡ self.now.table }
        requires within { FitsLane self.now.sizes (released_lane release) }
        requires empty { own_state self.now.sizes (slot_of self.now.sizes (released_lane release))
            seat.old.steps ≡ empty }
        requires give { MayGive self.now.sizes seat.old (released_lane release)
            (rises_in release) lane
            J.step J.says }
        ensures step { seat.new ≡ record seat.old {
          steps = J.step
              ∷ BoardStep.LaneIn (slot_of self.now.sizes (released_lane release)) ∷ seat.old.steps;
        } }
        ensures says { J.says }
    {
        let id = release.lane();
        let slot = self.home_of(id);
        let place = self.place(Word::Lane(id));
        let shared = &self.table.shared;
        shared.load::<Moves<Fills>>(&mut seat.seat, place);
        shared.exchange(&mut seat.seat, slot, Some(lane));
        if release.rises() {
            shared.fetch_add::<Moves<Frees<J>>>(&mut seat.seat, place, 1);
        } else {
            shared.fetch_sub::<Moves<Frees<J>>>(&mut seat.seat, place, 1);
        }
    }
}
