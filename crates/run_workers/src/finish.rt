//! How a worker tells what it has finished, and sees that all is.
ghost use Rattle.std.specs.Prelude.{◌≡◌, ◌≤◌, ℕ, true};
ghost use Rattle.run_workers.specs.Tally.{CountsOn, IsCounter, Loaded, SawFinished};
ghost use Rattle.run_workers.specs.Tally.{dropped_in, finished_by, retired_in};

use crate::drain::Drain;
use crate::poller::Poller;
use crate::tally::{Counter, Tally};
use crate::worker::Worker;

impl Worker {
    // How many packets the worker has finished.
    fn finished(&self) -> u64
        ensures { result ≤ finished_by self.now }
    {
        dropped_in(&self.pollers).saturating_add(retired_in(&self.ships))
    }

    // Tells how many packets the worker has finished, unless it told that last.
    fn tell(&self, tally: &Tally, counter: &mut Counter)
        requires is { IsCounter tally.now counter.old (finished_by self.now) }
        ensures is { CountsOn tally.now counter.old counter.new (finished_by self.now) }
    {
        let count = self.finished();
        if count != counter.told {
            tally.words.store(&mut counter.seat, counter.number, count);
            counter.told = count;
        }
    }

    // The sum of all counts that were told, or less.
    fn told_by_all(&self, tally: &Tally, counter: &mut Counter) -> u64
        requires is { IsCounter tally.now counter.old (finished_by self.now) }
        ensures is { CountsOn tally.now counter.old counter.new (finished_by self.now) }
        ensures loaded { (total : ℕ)
            × Loaded counter.new.seat.steps tally.now.workers total × (result ≤ total) }
    {
        let mut total: u64 = 0;
        for word in 0..tally.workers {
            let count = tally.words.load(&mut counter.seat, word);
            total = total.saturating_add(count);
        }
        total
    }

    /// Tells how many packets the worker has finished, and looks whether all workers together have
    /// finished this many.
    pub(crate) fn sees_finished(&self, tally: &Tally, counter: &mut Counter, packets: u32) -> bool
        requires is { IsCounter tally.now counter.old (finished_by self.now) }
        ensures is { CountsOn tally.now counter.old counter.new (finished_by self.now) }
        ensures saw { result ≡ true
            → SawFinished tally.now.workers packets counter.new.seat.steps }
    {
        self.tell(tally, counter);
        self.told_by_all(tally, counter) >= packets as u64
    }
}

// How many packets of these queues were dropped.
fn dropped_in(pollers: &[Poller]) -> u64
    ensures { result ≤ dropped_in pollers.now }
{
    let mut sum: u64 = 0;
    for poller in pollers {
        let dropped = poller.choices.len().saturating_sub(poller.accepted);
        sum = sum.saturating_add(dropped as u64);
    }
    sum
}

// How many packets these lanes have retired.
fn retired_in(drains: &[Drain]) -> u64
    ensures { result ≤ retired_in drains.now }
{
    let mut sum: u64 = 0;
    for drain in drains {
        sum = sum.saturating_add(drain.retired as u64);
    }
    sum
}
