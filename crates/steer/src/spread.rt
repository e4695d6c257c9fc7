//! The pace of the program's runs, which spreads the tries of commands over the packets.
use run_words::{Extent, Pace};
use std::sync::Wait;
use std::sync::atomic::{AtomicBool, AtomicU64, Ordering};
use std::time::Duration;

/// A worker shows each of so many turns, and then every `SHOWN`th one.
const EACH_SHOWN: u64 = 1_024;

const SHOWN: u64 = 16;

/// How long the controller sleeps between two looks, in microseconds. It does not yield: a thread
/// that yields often may be left waiting for milliseconds where a machine has other work.
const REST: u64 = 100;

/// How often it looks in a row without seeing a turn more before it waits no more in this run.
const VAIN_LOOKS: u32 = 2_000;

/// How often it looks at most for one try.
const MOST_LOOKS: u32 = 100_000;

/// A pace that holds the tries of a run's commands until packets have been steered. It holds no
/// other thread, and nothing at all in a run without commands or without packets.
///
/// What counts is how many turns a worker with a receive queue has had since the first packet
/// arrived. In `span` of them each queue can lose three quarters of its share of the packets. With
/// n commands the k-th try is due after the k-th part of k + n of the span: so the first tries come
/// in even steps, and busy ones, however many, do not go beyond the packets.
#[derive(Drop)]
pub struct Spread<'a, R> {
    rt: &'a R,
    // The extent of the run: its commands, its workers, and those of them with a queue.
    commands: AtomicU64,
    workers: AtomicU64,
    pollers: AtomicU64,
    span: AtomicU64,
    // Whether the first packet has arrived, and how many turns were shown before.
    arriving: AtomicBool,
    before: AtomicU64,
    // The turns of the worker that has had most.
    turns: AtomicU64,
    // Whether the controller has waited in vain.
    over: AtomicBool,
    // A word that never changes, on which the controller sleeps.
    bed: AtomicU64,
}

impl<'a, R: Wait> Spread<'a, R> {
    /// A pace that holds nothing until a run begins.
    pub fn make(rt: &'a R) -> Spread<'a, R> {
        Spread {
            rt,
            commands: AtomicU64::new(0),
            workers: AtomicU64::new(0),
            pollers: AtomicU64::new(0),
            span: AtomicU64::new(0),
            arriving: AtomicBool::new(false),
            before: AtomicU64::new(0),
            turns: AtomicU64::new(0),
            over: AtomicBool::new(false),
            bed: AtomicU64::new(0),
        }
    }

    // Shows the turn of a worker. If two do so at once the lesser may stand, until the next.
    fn show(&self, n: u64) {
        if (n < EACH_SHOWN || n % SHOWN == 0) && self.turns.load(Ordering::SeqCst) < n {
            self.turns.store(n, Ordering::SeqCst);
        }
    }

    // Shows that the first packet arrives.
    fn arrive(&self) {
        let turns = self.turns.load(Ordering::SeqCst);
        self.before.store(turns, Ordering::SeqCst);
        self.arriving.store(true, Ordering::SeqCst);
    }

    // The turns since the first packet arrived; none before.
    fn turns_since(&self) -> u64 {
        if !self.arriving.load(Ordering::SeqCst) {
            return 0;
        }
        let turns = self.turns.load(Ordering::SeqCst);
        turns.saturating_sub(self.before.load(Ordering::SeqCst))
    }

    // After how many turns the n-th try of commands is due, at least one.
    fn due(&self, n: u64, commands: u64) -> u64 {
        let span = self.span.load(Ordering::SeqCst);
        let parts = n.saturating_add(commands).max(1);
        (span.saturating_mul(n) / parts).max(1)
    }

    // Holds the controller until so many turns have been had since the first packet arrived. If
    // it looks in vain, the run is over or does not go on: then no try is held any more.
    fn hold(&self, due: u64) {
        let (mut seen, mut vain) = (0, 0u32);
        for _ in 0..MOST_LOOKS {
            let turns = self.turns_since();
            if turns >= due {
                return;
            }
            vain = if turns == seen {
                vain.saturating_add(1)
            } else {
                0
            };
            if vain == VAIN_LOOKS {
                break;
            }
            seen = turns;
            self.bed
                .park_timeout(self.rt, 0, Duration::from_micros(REST));
        }
        self.over.store(true, Ordering::SeqCst);
    }
}

impl<'a, R: Wait> Pace for Spread<'a, R> {
    fn begins(&self, extent: Extent) {
        if extent.packets == 0 || extent.queues == 0 {
            return;
        }
        let queues = extent.queues as u64;
        let workers = extent.workers as u64;
        let share = extent.packets as u64 / queues;
        self.span.store(share - share / 4, Ordering::SeqCst);
        self.pollers.store(workers.min(queues), Ordering::SeqCst);
        self.workers.store(workers, Ordering::SeqCst);
        self.commands
            .store(extent.commands as u64, Ordering::SeqCst);
    }

    fn turn(&self, worker: u32, n: u64) {
        let commands = self.commands.load(Ordering::SeqCst);
        if commands == 0 {
            return;
        }
        let workers = self.workers.load(Ordering::SeqCst);
        let worker = worker as u64;
        if worker < workers {
            if worker < self.pollers.load(Ordering::SeqCst) {
                self.show(n);
            }
        } else if worker == workers {
            if n == 1 {
                self.arrive();
            }
        } else if !self.over.load(Ordering::SeqCst) {
            self.hold(self.due(n, commands));
        }
    }
}
