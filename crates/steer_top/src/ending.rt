//! How a command ends.
ghost use Rattle.std.specs.Prelude.{◌≡◌, ◌≤◌};
ghost use Rattle.outside_io.specs.declared.reading.TheConstants.{MAX_FILE};
ghost use Rattle.steer_top.specs.Files.{limit_of};
ghost use Rattle.steer_top.specs.Endings.{EndsAs, ending_of_stream, name_of_role};

use capture_stream::StreamFault;
use outside_io::MAX_FILE;
use pcap_reader::CaptureFault;
use pcapng_reader::NgFault;
use plan_reader::PlanFault;

/// The most bytes that a plan or a file of rules may have.
pub const MAX_TEXT_FILE: usize = 16_777_216;

/// What a file of a command is read as.
#[derive(Clone, Copy, Debug, PartialEq, Eq)]
pub enum Role {
    /// A plan.
    Plan,
    /// Rules by which packets are placed.
    Rules,
    /// A capture of packets.
    Capture,
    /// A report, which may have any bytes.
    Report,
}

impl Role {
    /// The most bytes that such a file may have.
    pub fn limit(self) -> usize
        ensures value { result ≡ limit_of self }
        ensures few { result ≤ MAX_FILE }
    {
        match self {
            Role::Plan | Role::Rules => MAX_TEXT_FILE,
            Role::Capture | Role::Report => MAX_FILE,
        }
    }

    /// The name of such a file in messages.
    pub fn name(self) -> &'static [u8]
        ensures { result.now ≡ name_of_role self }
    {
        match self {
            Role::Plan => b"plan",
            Role::Rules => b"rules",
            Role::Capture => b"capture",
            Role::Report => b"report",
        }
    }
}

/// Why a file is refused.
#[derive(Debug, Drop)]
pub enum Refusal {
    /// It has more bytes than a file of its role may have.
    TooLong(Role),
    /// It has no plan, by this fault.
    Plan(PlanFault),
    /// It has no rules, by this fault.
    Rules(PlanFault),
    /// It is no classic capture, by this fault, and does not begin as a pcapng file.
    Capture(CaptureFault),
    /// It begins as a pcapng file, and is no capture, by this fault.
    Pcapng(NgFault),
}

/// What a command came to. Each ending has one status and one line.
#[derive(Debug, Drop)]
pub enum Ending {
    /// All was done, written and sent on.
    Done,
    /// The words are no command.
    Usage,
    /// A file was refused.
    Refuses(Refusal),
    /// The desk failed.
    ReadFault,
    /// The sink of the text failed.
    WriteFault,
    /// Memory ran out.
    OutOfMemory,
}

impl Ending {
    /// How a command ends that could not read its capture: refused, by a fault, or out of memory.
    pub fn of_stream_fault(fault: StreamFault) -> Ending
        ensures { result ≡ ending_of_stream fault }
    {
        match fault {
            StreamFault::Unread => Ending::ReadFault,
            StreamFault::TooLong => Ending::Refuses(Refusal::TooLong(Role::Capture)),
            StreamFault::OutOfMemory => Ending::OutOfMemory,
            StreamFault::Classic(fault) => Ending::Refuses(Refusal::Capture(fault)),
            StreamFault::Ng(fault) => Ending::Refuses(Refusal::Pcapng(fault)),
        }
    }

    /// How a command ends that got no plan from its bytes: with a refusal, or out of memory.
    pub fn of_plan_fault(fault: PlanFault) -> Ending
        ensures { EndsAs fault PlanFault.OutOfMemory (Refusal.Plan fault) result }
    {
        match fault {
            PlanFault::OutOfMemory => Ending::OutOfMemory,
            fault => Ending::Refuses(Refusal::Plan(fault)),
        }
    }

    /// The same of the bytes of rules.
    pub fn of_rules_fault(fault: PlanFault) -> Ending
        ensures { EndsAs fault PlanFault.OutOfMemory (Refusal.Rules fault) result }
    {
        match fault {
            PlanFault::OutOfMemory => Ending::OutOfMemory,
            fault => Ending::Refuses(Refusal::Rules(fault)),
        }
    }
}
