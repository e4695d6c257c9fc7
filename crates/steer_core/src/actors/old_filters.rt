//! Filters that may be cleared: clearing them, by the heads and flow counts of the moment.
ghost use Rattle.std.specs.Prelude.{◌≡◌, ◌≤◌, length, map};
ghost use Rattle.std.specs.List.{All, filter};
ghost use Rattle.steer_base.specs.declared.limits.TheConstants.{MAX_FLOW_COUNT};
ghost use Rattle.steer_core.specs.OldFilters.{AreCountsBelow, AreHeadsBelow, FilterIsSeated};
ghost use Rattle.steer_core.specs.OldFilters.{is_old, kept_of};

use accel_filter::FilterTable;
use hop_core::Hop;
use steer_model::{Given, InForce};

/// Clears the filters that may be cleared, and returns their number.
pub fn clear_old(filters: &mut FilterTable, given: &Given, rx: &Hop, settings: &InForce) -> u32
    requires cpus { length rx.now.bare.accepted ≡ given.now.cpus }
    requires queues { length settings.now.counts ≡ length given.now.homes }
    requires few { All (λ count. count ≤ MAX_FLOW_COUNT) settings.now.counts }
    requires seated { All (FilterIsSeated rx.now settings.now) filters.old }
    ensures cleared { filters.new ≡ map (kept_of rx.now settings.now) filters.old }
    ensures count { result ≡ length (filter (is_old rx.now settings.now) filters.old) }
{
    let heads = heads_of(rx, given.cpus());
    let flows = counts_of(settings, given.queues());
    filters.expire_all(&heads, &flows)
}

// The head of each processor.
fn heads_of(rx: &Hop, cpus: u8) -> [u32; 32]
    requires few { cpus ≤ 32 }
    requires all { length rx.now.bare.accepted ≡ cpus }
    ensures { AreHeadsBelow rx.now cpus result }
{
    let mut heads = [0; 32];
    for cpu in 0..cpus {
        heads[cpu as usize] = rx.head(cpu);
    }
    heads
}

// The flow count of each receive queue.
fn counts_of(settings: &InForce, queues: u8) -> [u32; 16]
    requires few { queues ≤ 16 }
    requires all { length settings.now.counts ≡ queues }
    requires within { All (λ count. count ≤ MAX_FLOW_COUNT) settings.now.counts }
    ensures same { AreCountsBelow settings.now queues result }
    ensures within { All (λ count. count ≤ MAX_FLOW_COUNT) result }
{
    let mut counts = [0; 16];
    for queue in 0..queues {
        counts[queue as usize] = settings.flow_count(queue);
    }
    counts
}
