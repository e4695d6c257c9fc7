//! The words of a board, with their halves and marks. Their counts are not reduced.
ghost use Rattle.std.specs.Prelude.{◌≡◌, ◌+◌, ◌*◌, ◌<◌, ◌%◌, ◌/◌, ◌^◌};
ghost use Rattle.board_api.specs.StepWords.{low_half, tail_in, openings_in, is_odd, is_marked};

/// The word of a lane: twice its tail, counted from `start`, plus 1 while a seat holds the lane.
#[derive(Clone, Copy, Debug, PartialEq, Eq)]
pub struct LaneWord(pub u64);

impl LaneWord {
    /// The word of a lane that nobody holds and that has accepted `count` packets.
    pub fn resting(start: u32, count: u32) -> LaneWord
        ensures { result.0 ≡ 2 * (start + count) }
    {
        LaneWord(2 * (start as u64 + count as u64))
    }

    /// Whether a seat holds the lane.
    pub fn is_held(self) -> bool
        ensures { result ≡ is_odd self.0 }
    {
        self.0 % 2 == 1
    }

    /// The tail of the lane, a counter number (modulo 2^32).
    pub fn tail(self) -> u32
        ensures { result ≡ tail_in self.0 }
    {
        (self.0 / 2 % (1 << 32)) as u32
    }
}

/// The word of a lane's head: the number of its packets that were retired, counted from `start`.
#[derive(Clone, Copy, Debug, PartialEq, Eq)]
pub struct HeadWord(pub u64);

impl HeadWord {
    /// The head of the lane, a counter number (modulo 2^32).
    pub fn head(self) -> u32
        ensures { result ≡ low_half self.0 }
    {
        (self.0 % (1 << 32)) as u32
    }
}

/// The word of a gate: the number of open visits, plus 2^31 while the gate is closed, plus 2^32 for
/// each time that it was opened.
#[derive(Clone, Copy, Debug, PartialEq, Eq)]
pub struct GateWord(pub u64);

impl GateWord {
    /// The word of an open gate with nobody inside that was opened `openings` times: the only one
    /// at which the gate can be closed.
    pub fn empty(openings: u32) -> GateWord
        ensures { result.0 ≡ openings * 2 ^ 32 }
    {
        GateWord(openings as u64 * (1 << 32))
    }

    /// Whether the gate is closed.
    pub fn is_closed(self) -> bool
        ensures { result ≡ is_marked self.0 }
    {
        self.0 % (1 << 32) >= 1 << 31
    }

    /// The number of open visits, if the gate is open.
    pub fn visits(self) -> u32
        ensures { result ≡ low_half self.0 }
    {
        (self.0 % (1 << 32)) as u32
    }

    /// How many times the gate was opened.
    pub fn openings(self) -> u32
        ensures { result ≡ openings_in self.0 }
    {
        (self.0 / (1 << 32)) as u32
    }
}
