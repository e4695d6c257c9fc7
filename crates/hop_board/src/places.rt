//! The places of the words and slots of a board in its table.
ghost use Rattle.std.specs.Prelude.{◌≡◌};
ghost use Rattle.hop_rule.specs.Sizes.{FitSizes};
ghost use Rattle.hop_board.specs.Tables.{home_of, place, slot_of};

use crate::board::Board;
use board_api::LaneId;

/// The words of a cache line: a line of x86-64 has 64 bytes, a word 8.
pub const WORDS_PER_LINE: usize = 8;

/// The slots of the table for each lane, of which the first is used: a slot has 48 bytes, so those
/// of different lanes share no cache line.
pub const SLOTS_PER_LANE: usize = 4;

/// A word of a board.
#[derive(Clone, Copy)]
pub enum Word {
    /// The word of a lane.
    Lane(LaneId),
    /// The head of a middle lane.
    Head(u8),
    /// The word of the gate.
    Gate,
    /// A setting, by its number from 0.
    Setting(u32),
}

impl Board {
    // The sizes of each board are within their limits.
    pub(crate) fn fits(&self)
        ensures { FitSizes self.now.sizes }
    {
        // A read of the board, so that its invariant is known here.
        let _ = &self.sizes;
    }

    // The place of a word in the table: those of middle lanes, out lanes, heads and the gate, a
    // cache line apart since threads change them beside each other; then the settings in a row.
    pub(crate) fn place(&self, word: Word) -> usize
        ensures { result ≡ place self.now.sizes word }
    {
        let lanes = self.sizes.lanes as usize;
        let outs = self.sizes.outs as usize;
        match word {
            Word::Lane(lane) => WORDS_PER_LINE * self.slot_of(lane),
            Word::Head(lane) => WORDS_PER_LINE * (lanes + outs + lane as usize),
            Word::Gate => WORDS_PER_LINE * (lanes + outs + lanes),
            Word::Setting(i) => WORDS_PER_LINE * (lanes + outs + lanes + 1) + i as usize,
        }
    }

    // The number of a lane's slot.
    pub(crate) fn slot_of(&self, lane: LaneId) -> usize
        ensures { result ≡ slot_of self.now.sizes lane }
    {
        match lane {
            LaneId::Middle(lane) => lane as usize,
            LaneId::Out(out) => self.sizes.lanes as usize + out as usize,
        }
    }

    // The place of a lane's slot in the table.
    pub(crate) fn home_of(&self, lane: LaneId) -> usize
        ensures { result ≡ home_of self.now.sizes lane }
    {
        match lane {
            LaneId::Middle(lane) => SLOTS_PER_LANE * lane as usize,
            LaneId::Out(out) => SLOTS_PER_LANE * (self.sizes.lanes as usize + out as usize),
        }
    }
}
