//! The settings of the two boards, and their numbers.
ghost use Rattle.std.specs.Prelude.{◌≡◌};
ghost use Rattle.run_words.specs.Numbers.{receive_number, transmit_number};

use steer_base::{RxQueue, TxQueue};

/// A setting of the receive board.
#[derive(Clone, Copy, Debug, PartialEq, Eq)]
pub enum ReceiveSetting {
    /// The processors that the packets of a receive queue may be steered to.
    Cpus(RxQueue),
    /// The flow count of a receive queue, rounded up, with its generation.
    Flows(RxQueue),
    /// The size of the socket flow table, rounded up.
    SocketSize,
    /// The processors that are online.
    Online,
}

impl ReceiveSetting {
    /// The number of the setting where there are so many receive queues.
    pub fn number(self, queues: u8) -> u32
        ensures { result ≡ receive_number queues self }
    {
        match self {
            ReceiveSetting::Cpus(queue) => queue.0 as u32,
            ReceiveSetting::Flows(queue) => queues as u32 + queue.0 as u32,
            ReceiveSetting::SocketSize => 2 * queues as u32,
            ReceiveSetting::Online => 2 * queues as u32 + 1,
        }
    }
}

/// A setting of the transmit board.
#[derive(Clone, Copy, Debug, PartialEq, Eq)]
pub enum TransmitSetting {
    /// The processors that a transmit queue serves.
    Cpus(TxQueue),
    /// The receive queues that a transmit queue serves.
    Queues(TxQueue),
}

impl TransmitSetting {
    /// The number of the setting where there are so many transmit queues.
    pub fn number(self, count: u8) -> u32
        ensures { result ≡ transmit_number count self }
    {
        match self {
            TransmitSetting::Cpus(tx) => tx.0 as u32,
            TransmitSetting::Queues(tx) => count as u32 + tx.0 as u32,
        }
    }
}
