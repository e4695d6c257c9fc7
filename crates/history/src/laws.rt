//! Lemmas about histories, each the contract of a function with an empty body.
ghost use Rattle.std.specs.Prelude.{ℕ, ◌≤◌, List, length};
ghost use Rattle.steer_base.specs.declared.packet.Packet.{Packet};
ghost use Rattle.history.specs.Places.{AreInOnePlace, InboxesAreDelivered, IsInReach};
ghost use Rattle.history.specs.Ranges.{HaveLinesThatFit};
ghost use Rattle.history.specs.Regular.{AreDelivered, AreSteered};
ghost use Rattle.history.specs.Shown.{IsFoundAgain};
ghost use Rattle.history.specs.declared.history.History.{History};

/// Lemma: in a regular history whose inboxes hold only what the lanes delivered, each packet has
/// one place. It is in at most one list of accepted or dropped packets, once; in at most one inbox,
/// once; and in an inbox only if it is among the delivered packets of a lane. Two parts of
/// `Regular` are enough: how packets were steered, and how they were delivered.
pub fn a_packet_has_one_place()
    ensures { (packets : List Packet) (apps : ℕ) (h : History) → AreSteered h
        → AreDelivered packets apps h → InboxesAreDelivered h → AreInOnePlace h }
{}

/// Lemma: in a history with at most 256 processors and 256 applications, `History::place` may be
/// called for every packet.
pub fn few_lanes_are_in_reach()
    ensures { (h : History) (x : ℕ) → length h.lanes ≤ 256 → length h.inboxes ≤ 256
        → IsInReach h x }
{}

/// Lemma: a regular history, each of whose arrivals is at the queue that its filter and table entry
/// lead to, is determined by the lines of its packets and replies, its sums, its writes and its
/// commands. Two such histories with the same counter start that agree on these, for the packets of
/// one capture and the same number of applications, are equal.
pub fn histories_are_found_again()
    ensures { IsFoundAgain }
{}

/// Lemma: the numbers in the lines of a regular history are within the types of the lines' fields.
pub fn lines_fit()
    ensures { HaveLinesThatFit }
{}
