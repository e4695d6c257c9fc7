//! For each place, a receive queue or a processor, the set of the transmit queues that serve it.
ghost use Rattle.std.specs.Prelude.{ℕ, ◌≡◌, ◌<◌, ◌==◌, List, length, replicate};
ghost use Rattle.std.specs.Prelude.{slice_index, slice_index_or, slice_set, if◌then◌else◌};
ghost use Rattle.steer_base.specs.Sets.{has};
ghost use Rattle.steer_base.specs.declared.cpu_mask.CpuMask.{CpuMask};
ghost use Rattle.xps_map.specs.Inverses.{Inverts, Puts};
ghost use Rattle.xps_map.specs.Maps.{no_cpus};

use steer_base::{Cpu, CpuMask, TxQueue};

/// The most processors.
const MAX_CPUS: usize = 32;

/// The most receive queues that a map can have.
const MAX_RECEIVE_QUEUES: usize = 16;

/// For each processor and for each receive queue the transmit queues that serve it: bit t is
/// transmit queue t.
#[derive(Drop)]
pub(crate) struct Inverse {
    pub(crate) by_cpu: [CpuMask; MAX_CPUS],
    pub(crate) by_queue: [CpuMask; MAX_RECEIVE_QUEUES],
}

impl Inverse {
    /// The inverse of empty maps.
    pub(crate) fn empty() -> Inverse
        ensures { (count : ℕ) → Inverts (replicate count no_cpus) (replicate count 0) result }
    {
        Inverse {
            by_cpu: [CpuMask(0); MAX_CPUS],
            by_queue: [CpuMask(0); MAX_RECEIVE_QUEUES],
        }
    }

    /// Follows a transmit queue whose processors were `before` and are now `after`.
    pub(crate) fn put_cpus(&mut self, tx: TxQueue, before: CpuMask, after: CpuMask)
        requires { tx < 32 }
        ensures { (cpus : List CpuMask) (queues : List ℕ) → tx < length cpus
            → slice_index_or cpus tx no_cpus ≡ before
            → Inverts cpus queues self.old
            → Inverts (slice_set cpus tx after) queues self.new }
    {
        put(&mut self.by_cpu, tx, before, false);
        put(&mut self.by_cpu, tx, after, true);
    }

    /// Follows a transmit queue whose receive queues were `before` and are now `after`: bit q is
    /// receive queue q.
    pub(crate) fn put_queues(&mut self, tx: TxQueue, before: u16, after: u16)
        requires { tx < 32 }
        ensures { (cpus : List CpuMask) (queues : List ℕ) → tx < length queues
            → slice_index queues tx ≡ before
            → Inverts cpus queues self.old
            → Inverts cpus (slice_set queues tx after) self.new }
    {
        put(&mut self.by_queue, tx, CpuMask(u32::from(before)), false);
        put(&mut self.by_queue, tx, CpuMask(u32::from(after)), true);
    }
}

/// The set of a place. A place without one has the empty set.
pub(crate) fn set_at(sets: &[CpuMask], place: u8) -> CpuMask
    ensures { result ≡ slice_index_or sets.now place no_cpus }
{
    match sets.get(usize::from(place)) {
        Some(set) => *set,
        None => CpuMask(0),
    }
}

// Puts a transmit queue into the sets of these places, or takes it out of them.
fn put(sets: &mut [CpuMask], tx: TxQueue, places: CpuMask, stands: bool)
    requires { tx < 32 }
    ensures { Puts tx (λ place. has places place) stands sets.old sets.new }
{
    let mut rest = places;
    while !rest.is_empty() {
        let place = rest.lowest();
        put_at(sets, tx, place, stands);
        rest = rest.without(place);
    }
}

// Puts a transmit queue into the set of one place, or takes it out.
fn put_at(sets: &mut [CpuMask], tx: TxQueue, place: Cpu, stands: bool)
    requires { tx < 32 }
    ensures { Puts tx (λ other. place == other) stands sets.old sets.new }
{
    let place = usize::from(place.0);
    if place < sets.len() {
        sets[place] = renewed(sets[place], tx, stands);
    }
}

// The set with the transmit queue, or without it.
fn renewed(set: CpuMask, tx: TxQueue, stands: bool) -> CpuMask
    requires { tx < 32 }
    ensures { (other : ℕ) → has result other ≡ (if tx == other then stands else has set other) }
{
    if stands {
        set.with(Cpu(tx.0))
    } else {
        set.without(Cpu(tx.0))
    }
}
