//! Commands that change settings, and their answers.
use crate::cpu_mask::CpuMask;
use crate::idle::Idle;
use crate::ids::{AppId, Cpu, RxQueue, TxQueue};
use std::fmt::{self, Display, Formatter, Write};

/// A change of a setting.
#[derive(Clone, Copy, Debug, PartialEq, Eq)]
pub enum Command {
    /// The packet-steering processors of a receive queue (`rps_cpus`).
    Mask(RxQueue, CpuMask),
    /// The flow count of a receive queue (`rps_flow_cnt`), as given and not rounded up.
    Flows(RxQueue, u32),
    /// The number of entries of the socket flow table (`rps_sock_flow_entries`), as given and not
    /// rounded up.
    Sock(u32),
    /// A processor goes offline.
    Offline(Cpu),
    /// A processor comes online.
    Online(Cpu),
    /// The processors of a transmit queue (`xps_cpus`).
    XCpus(TxQueue, CpuMask),
    /// The receive queues of a transmit queue (`xps_rxqs`): bit q is receive queue q.
    XQueues(TxQueue, u16),
    /// An entry of the redirection table, 0 to 127, gets another receive queue.
    Reta(u8, RxQueue),
    /// The processor that an application runs on.
    Stand(AppId, Cpu),
    /// Every filter that may be removed is removed.
    Expire,
}

/// Why a gated command cannot be carried out yet.
#[derive(Clone, Copy, Debug, PartialEq, Eq)]
pub enum Busy {
    /// The number of actors that are inside the gate.
    Inside(u32),
    /// An affected lane is not empty.
    NotEmpty {
        /// The first such lane.
        lane: u8,
        /// Its head, a counter number that wraps.
        head: u32,
        /// Its tail, a counter number that wraps.
        tail: u32,
    },
}

/// Who uses a processor that was to go offline.
#[derive(Clone, Copy, Debug, PartialEq, Eq)]
pub enum User {
    /// It is the home of this receive queue.
    Queue(RxQueue),
    /// This application runs on it.
    App(AppId),
}

/// Why a command may not be given at all.
#[derive(Clone, Copy, Debug, PartialEq, Eq)]
pub enum Refused {
    /// The processor that was to go offline is in use.
    CpuInUse(User),
    /// The processor that was to go offline, or to run an application, is offline.
    CpuOffline,
    /// The processor that was to come online is online.
    AlreadyOnline,
}

impl Display for Refused {
    fn fmt<W: Write>(&self, f: &mut Formatter<W>) -> fmt::Result {
        match self {
            Refused::CpuInUse(User::Queue(queue)) => write!(f, "home to queue {}", queue.0),
            Refused::CpuInUse(User::App(app)) => write!(f, "application {} stands on it", app.0),
            Refused::CpuOffline => f.write_str("offline"),
            Refused::AlreadyOnline => f.write_str("online"),
        }
    }
}

/// The answer to a step of the machine.
#[derive(Clone, Copy, Debug, PartialEq, Eq)]
pub enum Answer {
    /// The step was made.
    Done,
    /// The step was not enabled, and the machine did not change.
    Idle(Idle),
    /// A gated command was not done, since packets or actors are under way.
    Busy(Busy),
    /// The processor that was to go offline is in use.
    CpuInUse(User),
    /// The processor that was to go offline, or to run an application, is offline.
    CpuOffline,
    /// The number of filters that were removed.
    Expired(u32),
}
