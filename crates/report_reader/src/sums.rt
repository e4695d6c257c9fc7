//! The lines of receive queues, processors and transmit queues, and of socket writes.
ghost use Rattle.std.specs.Prelude.{◌≡◌, codes};
ghost use Rattle.report_reader.specs.declared.shortest.TheConstants.{SHORTEST_CPU};
ghost use Rattle.report_reader.specs.declared.shortest.TheConstants.{SHORTEST_QUEUE};
ghost use Rattle.report_reader.specs.declared.shortest.TheConstants.{SHORTEST_TX};
ghost use Rattle.report_reader.specs.declared.shortest.TheConstants.{SHORTEST_WRITE};
ghost use Rattle.report_reader.specs.declared.sums.LaneSums.{LaneSums as ASums};
ghost use Rattle.report_reader.specs.Sums.{GivesWrite, ShowsSums, ShowsTaken, ShowsWrite};

use crate::fields::Fields;
use crate::sections::Section;
use crate::shortest::{SHORTEST_CPU, SHORTEST_QUEUE, SHORTEST_TX, SHORTEST_WRITE};
use history::SockWrite;
use steer_base::{AppId, Cpu};

/// How many packets of a lane were pulled, delivered and retired.
#[derive(Clone, Copy, Debug, PartialEq, Eq, Drop)]
pub struct LaneSums {
    /// The number of packets that were pulled.
    pub pulled: u32,
    /// The number of packets that were delivered.
    pub delivered: u32,
    /// The number of packets that were retired.
    pub retired: u32,
}

/// A write of the socket flow table with its application.
#[derive(Clone, Copy, Debug, PartialEq, Eq, Drop)]
pub struct AppWrite {
    /// The application.
    pub app: AppId,
    /// Its write.
    pub write: SockWrite,
}

// The bytes of w, entry and cpu, each with a space. The value behind w is the word app, and no word
// stands before the next.
const WRITE_STEPS: &[u8] = &[2, 0, 6, 4];

/// The lines of receive queues: the number of packets that were taken.
pub struct Queues;

/// The lines of processors.
pub struct Cpus;

/// The lines of transmit queues.
pub struct Txs;

/// The lines of socket writes.
pub struct Writes;

// The sums that the line of a lane shows.
fn sums(fields: &Fields<'_>) -> LaneSums
    ensures { (s : ASums) → ShowsSums s fields.now → result ≡ s }
{
    LaneSums {
        pulled: fields.word(5),
        delivered: fields.word(7),
        retired: fields.word(9),
    }
}

impl Section<u32> for Queues {
    ghost first = { codes "queue" };

    ghost least = { SHORTEST_QUEUE };

    ghost shows = { ShowsTaken };

    ghost gives = { ShowsTaken };

    fn word(&self) -> &'static [u8] {
        b"queue".as_slice()
    }

    fn shortest(&self) -> usize {
        SHORTEST_QUEUE
    }

    fn steps(&self) -> &'static [u8] {
        &[]
    }

    fn item(&self, fields: &Fields<'_>) -> u32 {
        fields.word(5)
    }
}

impl Section<LaneSums> for Cpus {
    ghost first = { codes "cpu" };

    ghost least = { SHORTEST_CPU };

    ghost shows = { ShowsSums };

    ghost gives = { ShowsSums };

    fn word(&self) -> &'static [u8] {
        b"cpu".as_slice()
    }

    fn shortest(&self) -> usize {
        SHORTEST_CPU
    }

    fn steps(&self) -> &'static [u8] {
        &[]
    }

    fn item(&self, fields: &Fields<'_>) -> LaneSums {
        sums(fields)
    }
}

impl Section<LaneSums> for Txs {
    ghost first = { codes "tx" };

    ghost least = { SHORTEST_TX };

    ghost shows = { ShowsSums };

    ghost gives = { ShowsSums };

    fn word(&self) -> &'static [u8] {
        b"tx".as_slice()
    }

    fn shortest(&self) -> usize {
        SHORTEST_TX
    }

    fn steps(&self) -> &'static [u8] {
        &[]
    }

    fn item(&self, fields: &Fields<'_>) -> LaneSums {
        sums(fields)
    }
}

impl Section<AppWrite> for Writes {
    ghost first = { codes "w" };

    ghost least = { SHORTEST_WRITE };

    ghost shows = { ShowsWrite };

    ghost gives = { GivesWrite };

    fn word(&self) -> &'static [u8] {
        b"w".as_slice()
    }

    fn shortest(&self) -> usize {
        SHORTEST_WRITE
    }

    fn steps(&self) -> &'static [u8] {
        WRITE_STEPS
    }

    fn item(&self, fields: &Fields<'_>) -> AppWrite {
        AppWrite {
            app: AppId(fields.byte(1)),
            write: SockWrite {
                entry: fields.word(2),
                cpu: Cpu(fields.byte(3)),
            },
        }
    }
}
