//! The plan of a run.
ghost use Rattle.std.specs.Prelude.{◌≡◌};
ghost use Rattle.plan_reader.specs.Ranges.{commands_of};
ghost use Rattle.plan_reader.specs.Settings.{IsWithin};

use crate::settings::sizes::Sizes;
use crate::steps::seeds::{seeded_step, word_of};
use steer_base::{Command, Cpu, CpuMask, Detach, List, RxQueue, Step};

/// A receive queue.
#[derive(Clone, Copy, Debug, PartialEq, Eq)]
pub struct QueuePlan {
    /// The processor that polls the queue.
    pub home: Cpu,
    /// The processors that its packets may be steered to (`rps_cpus`).
    pub mask: CpuMask,
    /// Its flow count (`rps_flow_cnt`), at most `MAX_FLOW_COUNT`, as given: not rounded up to a
    /// power of two.
    pub flows: u32,
}

/// A transmit queue.
#[derive(Clone, Copy, Debug, PartialEq, Eq)]
pub struct TxPlan {
    /// The processors that it serves (`xps_cpus`).
    pub cpus: CpuMask,
    /// The receive queues that it serves (`xps_rxqs`): bit q is receive queue q.
    pub queues: u16,
}

/// The steps of a run.
#[derive(Debug, Drop)]
pub enum Steps {
    /// A list of at most 1,000,000 steps.
    List(List<Step>),
    /// The steps of the first `count` words of a seed, and then a `sweep`.
    Seed {
        /// The seed of the words.
        seed: u64,
        /// The number of words, at most 999,999.
        count: u32,
    },
}

/// The settings of a run and its steps, each within its range.
#[derive(Drop)]
pub struct Plan {
    /// The number of processors, from 1 to 32.
    pub cpus: u8,
    /// The receive queues, 1 to 16.
    pub queues: List<QueuePlan>,
    /// The key of the receive hash. The default key is `toeplitz`'s `VERIFICATION_KEY`.
    pub key: [u8; 40],
    /// The enabled hash kinds (`toeplitz::Kinds`), one bit for each, 0 to 63.
    pub kinds: u8,
    /// The 128 entries of the redirection table, each a receive queue of the plan.
    pub reta: List<RxQueue>,
    /// The size of the socket flow table (`rps_sock_flow_entries`), at most `MAX_SOCKET_SIZE`, as
    /// given: not rounded up to a power of two.
    pub sock: u32,
    /// The number of hardware filters of the network card, at most `MAX_PLAN_FILTERS`.
    pub filters: u32,
    /// The most packets that may wait in the backlog of a processor (`netdev_max_backlog`), from 1
    /// to `MAX_PLAN_BACKLOG`.
    pub backlog: u32,
    /// The value at which the counters of all lanes start, before their first packet; they wrap at
    /// 2^32.
    pub start: u32,
    /// The processors that have the flow limit (`flow_limit_cpu_bitmap`).
    pub limited: CpuMask,
    /// For each application, the processor that it runs on; 1 to 32 applications.
    pub apps: List<Cpu>,
    /// The transmit queues, 1 to 32.
    pub tx: List<TxPlan>,
    /// The number of threads that run the machine, from 1 to 32.
    pub workers: u32,
    /// How often a command is tried while the machine is busy, from 1 to 64.
    pub tries: u32,
    /// Which taps are detached, and when; at most 32.
    pub detach: List<Detach>,
    /// The steps.
    pub steps: Steps,
    pub(crate) commands: List<Command>,
    pub ghost commands_are: { commands ≡ commands_of steps },
    pub ghost within: { IsWithin (record {
      cpus = cpus;
      queues = queues;
      key = key;
      kinds = kinds;
      reta = reta;
      sock = sock;
      filters = filters;
      backlog = backlog;
      start = start;
      limited = limited;
      apps = apps;
      tx = tx;
      workers = workers;
      tries = tries;
      detach = detach;
      steps = steps;
    }) },
}

impl Plan {
    ghost use Rattle.std.specs.Prelude.{◌≡◌, ◌≤◌, ◌<◌, Some, true};
    ghost use Rattle.plan_reader.specs.Plans.{nth_step, sizes_of, step_count};
    ghost use Rattle.plan_reader.specs.Ranges.{commands_of, step_is_within};

    /// The numbers of processors, queues and applications of the plan.
    pub(crate) fn sizes(&self) -> Sizes
        ensures { result ≡ sizes_of self.now }
    {
        Sizes {
            cpus: self.cpus,
            queues: self.queues.len() as u8,
            apps: self.apps.len() as u8,
            tx: self.tx.len() as u8,
        }
    }

    /// The number of steps: those of the list, or those of the seed and the `sweep`.
    pub fn step_count(&self) -> u32
        ensures { result ≡ step_count self.now }
    {
        match &self.steps {
            Steps::List(list) => list.len() as u32,
            Steps::Seed { count, .. } => *count + 1,
        }
    }

    /// The step with index `i`: of the list, or of the seed with the `sweep` after its steps.
    pub fn step_at(&self, i: u32) -> Step
        requires { i < step_count self.now }
        ensures step { nth_step self.now i ≡ Some result }
        ensures within { step_is_within (sizes_of self.now) result ≡ true }
    {
        match &self.steps {
            Steps::List(list) => list.as_slice()[i as usize],
            Steps::Seed { seed, count } => {
                if i < *count {
                    seeded_step(self.sizes(), word_of(*seed, i))
                } else {
                    Step::Sweep
                }
            }
        }
    }

    /// The commands among the steps of a list, in order. A seed has none.
    pub fn commands(&self) -> &[Command]
        ensures { result.now ≡ commands_of self.now.steps }
    {
        self.commands.as_slice()
    }
}
