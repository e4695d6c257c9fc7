//! A pace that holds calls of threads until other threads have been called.
use run_words::Pace;
use std::sync::atomic::{AtomicBool, AtomicU64, Ordering};
use std::thread::yield_now;

/// How often a held thread looks at most before it goes on.
const MOST_LOOKS: u32 = 100_000_000;

/// The number of threads whose calls are counted.
const COUNTED: usize = 8;

/// A thread of a run.
#[derive(Clone, Copy, Debug)]
pub enum Thread {
    /// The worker of this number.
    Worker(u32),
    /// The wire.
    Wire,
    /// The controller.
    Controller,
}

/// What a held call waits for.
#[derive(Clone, Copy, Debug)]
pub enum Until {
    /// The thread has been called so often.
    Called(Thread, u64),
    /// The thread has been called so often since the hold began.
    CalledAgain(Thread, u64),
}

/// A call that is held: of this thread, of this number, counted from 1, until this.
pub type Hold = (Thread, u64, Until);

/// A pace that holds each of these calls; of several holds of one call each begins behind the one
/// before it. Each worker also gives way to other threads at each call, so that it does not end as
/// idle while another thread waits for a processor.
#[derive(Drop)]
pub struct Holding {
    holds: &'static [Hold],
    workers: u32,
    calls: [AtomicU64; COUNTED],
    ran_out: AtomicBool,
}

impl Holding {
    /// A pace for a run of so many workers.
    pub fn make(holds: &'static [Hold], workers: u32) -> Holding {
        Holding {
            holds,
            workers,
            calls: [
                AtomicU64::new(0),
                AtomicU64::new(0),
                AtomicU64::new(0),
                AtomicU64::new(0),
                AtomicU64::new(0),
                AtomicU64::new(0),
                AtomicU64::new(0),
                AtomicU64::new(0),
            ],
            ran_out: AtomicBool::new(false),
        }
    }

    /// Whether a hold ended since its thread had looked most often.
    pub fn ran_out(&self) -> bool {
        self.ran_out.load(Ordering::SeqCst)
    }

    /// How often a thread was called.
    pub fn calls(&self, thread: Thread) -> u64 {
        match self.calls.get(self.number(thread) as usize) {
            Some(count) => count.load(Ordering::SeqCst),
            None => 0,
        }
    }

    // The number that a thread has in a run.
    fn number(&self, thread: Thread) -> u32 {
        match thread {
            Thread::Worker(worker) => worker,
            Thread::Wire => self.workers,
            Thread::Controller => self.workers.saturating_add(1),
        }
    }

    fn hold(&self, until: Until) {
        let (thread, count) = match until {
            Until::Called(thread, count) => (thread, count),
            Until::CalledAgain(thread, count) => {
                (thread, self.calls(thread).saturating_add(count))
            }
        };
        for _ in 0..MOST_LOOKS {
            if self.calls(thread) >= count {
                return;
            }
            yield_now();
        }
        self.ran_out.store(true, Ordering::SeqCst);
    }
}

impl Pace for Holding {
    fn turn(&self, worker: u32, n: u64) {
        if let Some(count) = self.calls.get(worker as usize) {
            count.store(n, Ordering::SeqCst);
        }
        if worker < self.workers {
            yield_now();
        }
        for (thread, call, until) in self.holds {
            if self.number(*thread) == worker && *call == n {
                self.hold(*until);
            }
        }
    }
}
