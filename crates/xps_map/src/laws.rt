//! A lemma on transmit steering: a function without code whose contract states it.
ghost use Rattle.std.specs.Prelude.{ℕ, ◌<◌, Bool, Option, Contains};
ghost use Rattle.steer_base.specs.Sends.{candidates, pick_of};

/// Lemma: for any maps, a pick is one of its candidates, and so one of the transmit queues.
pub fn a_pick_is_a_candidate()
    ensures among { (count : ℕ) (by_queue by_cpu : ℕ → ℕ → Bool) (rxq cpu : ℕ) (hash : Option ℕ)
        → 0 < count
        → Contains (candidates count by_queue by_cpu rxq cpu)
        (pick_of count by_queue by_cpu rxq cpu hash) }
    ensures within { (count : ℕ) (by_queue by_cpu : ℕ → ℕ → Bool) (rxq cpu : ℕ) (hash : Option ℕ)
        → 0 < count
        → pick_of count by_queue by_cpu rxq cpu hash < count }
{}
