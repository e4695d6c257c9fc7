//! Clause 6: each drop has the cause that its counts and the offers before it give.
ghost use Rattle.std.specs.Prelude.{◌≡◌, ◌≤◌, Some, true};
ghost use Rattle.std.specs.List.{list_all};
ghost use Rattle.steer_model.specs.Good.Drops.{DropsRise};
ghost use Rattle.good_check.specs.Drops.{NeverFall, is_within};

use crate::case::Case;
use backlog::{Offers, bucket_of, drop_cause};
use history::LaneList;
use std::alloc::Global;
use steer_base::{DropCause, LaneDrop, OutOfMemory, PacketId};

// Whether a drop counts no more than its lane has in the end.
fn is_within(lane: &LaneList, fallen: &LaneDrop) -> bool
    ensures { result ≡ is_within lane.now fallen.now }
{
    fallen.accepted as usize <= lane.accepted.len() && fallen.pulled <= lane.pulled
}

// Whether all drops of a lane do.
fn are_within(lane: &LaneList) -> bool
    ensures { result ≡ list_all (is_within lane.now) lane.now.drops }
{
    lane.drops
        .as_slice()
        .iter()
        .all(|fallen| is_within(lane, fallen))
}

// Whether neither count falls along these drops.
fn never_fall(drops: &[LaneDrop]) -> bool
    ensures yes { result ≡ true → NeverFall drops.now }
    ensures no { NeverFall drops.now → result ≡ true }
{
    for k in 1..drops.len() {
        let (last, next) = (drops[k - 1], drops[k]);
        if next.accepted < last.accepted || next.pulled < last.pulled {
            return false;
        }
    }
    true
}

// Whether the counts of a lane's drops never fall, and are within those of the lane.
fn rise(lane: &LaneList) -> bool
    ensures yes { result ≡ true → DropsRise lane.now }
    ensures no { DropsRise lane.now → result ≡ true }
{
    are_within(lane) && never_fall(lane.drops.as_slice())
}

// Whether a put was dropped, and for this cause.
fn is_cause(found: Option<DropCause>, cause: DropCause) -> bool
    ensures yes { result ≡ true → found ≡ Some cause }
    ensures no { found ≡ Some cause → result ≡ true }
{
    match found {
        None => false,
        Some(DropCause::Full) => matches!(cause, DropCause::Full),
        Some(DropCause::Flow(count)) => match cause {
            DropCause::Full => false,
            DropCause::Flow(kept) => count == kept,
        },
    }
}

impl Case<'_> {
    ghost use Rattle.std.specs.Prelude.{ℕ, ◌≡◌, ◌+◌, ◌-◌, ◌<◌, ◌≤◌, IfOk, List, Some, length};
    ghost use Rattle.std.specs.Prelude.{take, true};
    ghost use Rattle.std.specs.List.{All};
    ghost use Rattle.steer_base.specs.Drops.{bucket_of as bucket_by, drop_cause as cause_of};
    ghost use Rattle.steer_base.specs.Journals.{grown};
    ghost use Rattle.steer_base.specs.Sets.{has};
    ghost use Rattle.steer_base.specs.declared.put.LaneDrop.{LaneDrop as ADrop};
    ghost use Rattle.backlog.specs.Offers.{AllExplained, AreOffers};
    ghost use Rattle.backlog.specs.declared.limits.TheConstants.{MAX_LANE_ROOM};
    ghost use Rattle.history.specs.Lists.{lane_at};
    ghost use Rattle.steer_model.specs.Good.Drops.{DropsAreExplained, DropsRise};
    ghost use Rattle.steer_model.specs.State.Setup.{packet_hash};
    ghost use Rattle.good_check.specs.Cases.{IsPlain, input_of};
    ghost use Rattle.good_check.specs.Drops.{limited_lane, offered};

    // Notes the offers of the packets that a lane accepted from one count on, up to another.
    fn note_accepted(&self, offers: &mut Offers, accepted: &[PacketId], from: usize, to: usize)
        requires order { from ≤ to }
        requires within { to ≤ length accepted.now }
        requires room { length offers.old.items + (to - from) ≤ offers.old.room }
        ensures offers { (drops : List ADrop)
            → AreOffers (packet_hash self.now.given.now)
            (offered (take from accepted.now) drops offers.old.items)
            → AreOffers (packet_hash self.now.given.now)
            (offered (take to accepted.now) drops offers.new.items) }
        ensures count { length offers.new.items ≡ length offers.old.items + (to - from) }
        ensures room { offers.new.room ≡ offers.old.room }
    {
        for at in from..to {
            let _ = offers.note(bucket_of(self.given.hash_of(accepted[at])));
        }
    }

    // Whether a drop at a processor has the cause that its counts and these offers give. Notes its
    // offer.
    fn is_explained(&self, cpu: u8, offers: &mut Offers, fallen: &LaneDrop) -> bool
        requires room { length offers.old.items < offers.old.room }
        ensures offers { offers.new
            ≡ grown offers.old (bucket_by (packet_hash self.now.given.now fallen.now.id)) }
        ensures yes { result ≡ true
            → cause_of (has self.now.plan.now.limited cpu) self.now.plan.now.backlog
            (fallen.now.accepted - fallen.now.pulled) offers.old.items
            (packet_hash self.now.given.now fallen.now.id) ≡ Some fallen.now.cause }
        ensures no { cause_of (has self.now.plan.now.limited cpu) self.now.plan.now.backlog
            (fallen.now.accepted - fallen.now.pulled) offers.old.items
            (packet_hash self.now.given.now fallen.now.id) ≡ Some fallen.now.cause
            → result ≡ true }
    {
        let count = offers.note(bucket_of(self.given.hash_of(fallen.id)));
        let waiting = fallen.accepted.saturating_sub(fallen.pulled);
        let limited = self.plan.limited.has(cpu);
        is_cause(
            drop_cause(limited, self.plan.backlog, waiting, count),
            fallen.cause,
        )
    }

    // Whether each drop of a processor's lane has the cause that its counts and the offers before
    // it give.
    fn are_explained(&self, alloc: Global, cpu: u8, lane: &LaneList) -> Result<bool, OutOfMemory>
        requires rise { DropsRise lane.now }
        requires room { length lane.now.accepted + length lane.now.drops ≤ MAX_LANE_ROOM }
        ensures yes { IfOk result (λ r. r ≡ true → AllExplained (packet_hash self.now.given.now)
            (limited_lane self.now.plan.now.backlog (has self.now.plan.now.limited cpu) lane.now)) }
        ensures no { IfOk result (λ r. AllExplained (packet_hash self.now.given.now)
            (limited_lane self.now.plan.now.backlog (has self.now.plan.now.limited cpu) lane.now)
            → r ≡ true) }
    {
        let room = lane.accepted.len() + lane.drops.len();
        let mut offers = Offers::make(alloc, room as u32)?;
        let mut noted = 0;
        for fallen in lane.drops.as_slice() {
            let count = fallen.accepted as usize;
            self.note_accepted(&mut offers, lane.accepted.as_slice(), noted, count);
            noted = count;
            if !self.is_explained(cpu, &mut offers, fallen) {
                return Ok(false);
            }
        }
        Ok(true)
    }

    // Whether the counts of the drops of each processor never fall.
    fn drops_rise(&self) -> bool
        ensures yes { result ≡ true → All DropsRise self.now.h.now.lanes }
        ensures no { All DropsRise self.now.h.now.lanes → result ≡ true }
    {
        for lane in self.h.lanes.as_slice() {
            if !rise(lane) {
                return false;
            }
        }
        true
    }

    // Whether each drop has its cause, if their counts never fall.
    fn all_are_explained(&self, alloc: Global) -> Result<bool, OutOfMemory>
        requires plain { IsPlain self.now }
        requires lanes { length self.now.h.now.lanes ≡ self.now.plan.now.cpus }
        requires rise { All DropsRise self.now.h.now.lanes }
        ensures yes { IfOk result (λ r. r ≡ true → (c : ℕ) → c < self.now.plan.now.cpus
            → AllExplained (packet_hash self.now.given.now) (limited_lane self.now.plan.now.backlog
            (has self.now.plan.now.limited c) (lane_at self.now.h.now.lanes c))) }
        ensures no { IfOk result (λ r. ((c : ℕ) → c < self.now.plan.now.cpus
            → AllExplained (packet_hash self.now.given.now) (limited_lane self.now.plan.now.backlog
            (has self.now.plan.now.limited c) (lane_at self.now.h.now.lanes c))) → r ≡ true) }
    {
        for cpu in 0..self.plan.cpus {
            if !self.are_explained(alloc, cpu, self.h.lanes.get(cpu as usize))? {
                return Ok(false);
            }
        }
        Ok(true)
    }

    /// Clause 6: whether each drop has the cause that its counts and the offers before it give, and
    /// along the drops of a processor neither count falls or is over the final one.
    ///
    /// # Errors
    ///
    /// `OutOfMemory`, and nothing else.
    pub fn has_explained_drops(&self, alloc: Global) -> Result<bool, OutOfMemory>
        requires plain { IsPlain self.now }
        requires lanes { length self.now.h.now.lanes ≡ self.now.plan.now.cpus }
        ensures yes { IfOk result (λ r. r ≡ true
            → DropsAreExplained (input_of self.now) self.now.h.now) }
        ensures no { IfOk result (λ r. DropsAreExplained (input_of self.now) self.now.h.now
            → r ≡ true) }
    {
        if !self.drops_rise() {
            return Ok(false);
        }
        let explained = self.all_are_explained(alloc)?;
        Ok(explained)
    }
}
