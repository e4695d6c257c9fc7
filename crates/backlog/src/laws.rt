//! Lemmas on the lists of a lane: functions without code whose contracts state them.
ghost use Rattle.std.specs.Prelude.{ℕ, Bool, Option};
ghost use Rattle.steer_base.specs.Drops.{bucket_of};
ghost use Rattle.steer_base.specs.Lanes.{LaneLists};
ghost use Rattle.backlog.specs.Offers.{AllExplained, AreOffers};
ghost use Rattle.backlog.specs.Puts.{after_put, after_take, new_lane};
ghost use Rattle.backlog.specs.Rising.{AreRising};

/// Lemma: an empty lane has no offers and no drops.
pub fn a_new_lane_is_explained()
    ensures offers { (hash : ℕ → Option ℕ) (limit room start : ℕ) (limited : Bool)
        → AreOffers hash (new_lane limit room start limited) }
    ensures drops { (hash : ℕ → Option ℕ) (limit room start : ℕ) (limited : Bool)
        → AllExplained hash (new_lane limit room start limited) }
{}

/// Lemma: a put preserves two facts. The offers are the buckets of the accepted and dropped packets
/// in the order of their puts; and each drop has the cause that its two counts and the offers
/// before it give.
pub fn a_put_is_explained()
    ensures offers { (hash : ℕ → Option ℕ) (l : LaneLists) (id : ℕ) → AreOffers hash l
        → AreOffers hash (after_put l id (hash id)) }
    ensures drops { (hash : ℕ → Option ℕ) (l : LaneLists) (id : ℕ) → AreOffers hash l
        → AllExplained hash l → AllExplained hash (after_put l id (hash id)) }
{}

/// Lemma: a take preserves both facts of `a_put_is_explained`.
pub fn a_take_is_explained()
    ensures offers { (hash : ℕ → Option ℕ) (l : LaneLists) → AreOffers hash l
        → AreOffers hash (after_take l) }
    ensures drops { (hash : ℕ → Option ℕ) (l : LaneLists) → AllExplained hash l
        → AllExplained hash (after_take l) }
{}

/// Lemma: along a lane's drops neither of their two counts falls, and none is over the lane's own.
/// This holds for a new lane and after every put and take.
pub fn counts_of_drops_never_fall()
    ensures new { (limit room start : ℕ) (limited : Bool)
        → AreRising (new_lane limit room start limited) }
    ensures put { (l : LaneLists) (id : ℕ) (hash : Option ℕ) → AreRising l
        → AreRising (after_put l id hash) }
    ensures take { (l : LaneLists) → AreRising l → AreRising (after_take l) }
{}
