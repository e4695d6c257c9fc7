//! A file of a command, taken for what it is read as. A capture is read in pieces, others whole.
ghost use Rattle.std.specs.Prelude.{◌≡◌, ◌≤◌, [], Some, IfOk, IfErr, length};
ghost use Rattle.std.specs.Io.KnownBytes.{Keeps};
ghost use Rattle.outside_io.specs.Desk.{GoesOnTelling};
ghost use Rattle.steer_top.specs.Files.{limit_of};
ghost use Rattle.steer_top.specs.Endings.{EndsAt, EndsUnread};
ghost use Rattle.steer_top.specs.Taken.{AreFramesOf, ArePacketsOf, IsPlanOf, IsRulesOf};

use crate::ending::{Ending, Refusal, Role};
use capture_stream::read_frames;
use ntuple_rules::{Rules, read_rules};
use outside_io::{Desk, ReadWhole, read_whole};
use pcap_reader::FrameSink;
use plan_reader::{Plan, read_plan};
use std::alloc::Global;
use steer_base::Packet;
use steer_model::PacketList;
use toeplitz::{Key, Kinds};

/// The packets of a capture, and the length of its cut record.
#[derive(Drop)]
pub struct CapturedPackets {
    pub packets: Vec<Packet>,
    pub cut: Option<u32>,
}

/// All bytes of a file within the limit of its role, or how the command ends without them.
fn read_file<D: Desk>(
    alloc: Global,
    role: Role,
    name: &str,
    desk: &mut D,
) -> Result<Vec<u8>, Ending>
    ensures whole { IfOk result (λ bytes. Keeps (D.held desk.old name.now) (Some bytes.items)) }
    ensures few { IfOk result (λ bytes. length bytes.items ≤ limit_of role) }
    ensures unread { IfErr result (λ ending. EndsUnread ending role name.now
        (D.held desk.old name.now) (D.faults desk.old) (D.faults desk.new) (D.asked desk.new)) }

    ensures held { D.held desk.new ≡ D.held desk.old }
    ensures told { GoesOnTelling (D.left desk.old) (D.left desk.new) }
    ensures later { D.faults desk.old ≤ D.faults desk.new }
{
    match read_whole(alloc, desk, name, role.limit()) {
        Ok(bytes) => Ok(bytes),
        Err(ReadWhole::Fault) => Err(Ending::ReadFault),
        Err(ReadWhole::TooLong) => Err(Ending::Refuses(Refusal::TooLong(role))),
        Err(ReadWhole::OutOfMemory) => Err(Ending::OutOfMemory),
    }
}

/// Hands the frames of the capture of a file to the sink, and returns the length of its cut record,
/// or how the command ends without them. The file is read in pieces and not held.
pub fn take_frames<D: Desk, F: FrameSink>(
    alloc: Global,
    name: &str,
    desk: &mut D,
    sink: &mut F,
) -> Result<Option<u32>, Ending>
    requires { F.takes sink.old [] sink.old }
    ensures taken { IfOk result (λ cut.
        AreFramesOf F.takes (D.held desk.old name.now) sink.old cut sink.new) }
    ensures ends { IfErr result (λ ending. EndsAt ending Role.Capture name.now
        (D.held desk.old name.now) (D.faults desk.old) (D.faults desk.new) (D.asked desk.new)) }

    ensures held { D.held desk.new ≡ D.held desk.old }
    ensures told { GoesOnTelling (D.left desk.old) (D.left desk.new) }
    ensures later { D.faults desk.old ≤ D.faults desk.new }
{
    match read_frames(alloc, desk, name, Role::Capture.limit(), sink) {
        Ok(cut) => Ok(cut),
        Err(fault) => Err(Ending::of_stream_fault(fault)),
    }
}

/// The packets that a plan makes of the capture of a file, or how the command ends without them.
pub fn take_packets<D: Desk>(
    alloc: Global,
    plan: &Plan,
    name: &str,
    desk: &mut D,
) -> Result<CapturedPackets, Ending>
    ensures taken { IfOk result (ArePacketsOf plan.now (D.held desk.old name.now)) }
    ensures ends { IfErr result (λ ending. EndsAt ending Role.Capture name.now
        (D.held desk.old name.now) (D.faults desk.old) (D.faults desk.new) (D.asked desk.new)) }

    ensures held { D.held desk.new ≡ D.held desk.old }
    ensures told { GoesOnTelling (D.left desk.old) (D.left desk.new) }
    ensures later { D.faults desk.old ≤ D.faults desk.new }
{
    let key = Key::make(plan.key);
    let Ok(mut packets) = PacketList::make(alloc, &key, Kinds(plan.kinds), 0) else {
        return Err(Ending::OutOfMemory);
    };
    match take_frames(alloc, name, desk, &mut packets) {
        Ok(cut) => match packets.into_packets() {
            Ok(packets) => Ok(CapturedPackets { packets, cut }),
            Err(OutOfMemory) => Err(Ending::OutOfMemory),
        },
        Err(ending) => Err(ending),
    }
}

/// The plan of a file, or how the command ends without it. Its bytes are given up.
pub fn take_plan<D: Desk>(alloc: Global, name: &str, desk: &mut D) -> Result<Plan, Ending>
    ensures taken { IfOk result (IsPlanOf (D.held desk.old name.now)) }
    ensures ends { IfErr result (λ ending. EndsAt ending Role.Plan name.now
        (D.held desk.old name.now) (D.faults desk.old) (D.faults desk.new) (D.asked desk.new)) }

    ensures held { D.held desk.new ≡ D.held desk.old }
    ensures told { GoesOnTelling (D.left desk.old) (D.left desk.new) }
    ensures later { D.faults desk.old ≤ D.faults desk.new }
{
    let bytes = match read_file(alloc, Role::Plan, name, desk) {
        Ok(bytes) => bytes,
        Err(ending) => return Err(ending),
    };
    match read_plan(alloc, &bytes) {
        Ok(plan) => Ok(plan),
        Err(fault) => Err(Ending::of_plan_fault(fault)),
    }
}

/// The rules of a file, or how the command ends without them. Its bytes are given up.
pub fn take_rules<D: Desk>(alloc: Global, name: &str, desk: &mut D) -> Result<Rules, Ending>
    ensures taken { IfOk result (IsRulesOf (D.held desk.old name.now)) }
    ensures ends { IfErr result (λ ending. EndsAt ending Role.Rules name.now
        (D.held desk.old name.now) (D.faults desk.old) (D.faults desk.new) (D.asked desk.new)) }

    ensures held { D.held desk.new ≡ D.held desk.old }
    ensures told { GoesOnTelling (D.left desk.old) (D.left desk.new) }
    ensures later { D.faults desk.old ≤ D.faults desk.new }
{
    let bytes = match read_file(alloc, Role::Rules, name, desk) {
        Ok(bytes) => bytes,
        Err(ending) => return Err(ending),
    };
    match read_rules(alloc, &bytes) {
        Ok(rules) => Ok(rules),
        Err(fault) => Err(Ending::of_rules_fault(fault)),
    }
}

/// The bytes of a file that is to be a report, or how the command ends without them. Any bytes may
/// be read so.
pub fn take_report<D: Desk>(alloc: Global, name: &str, desk: &mut D) -> Result<Vec<u8>, Ending>
    ensures whole { IfOk result (λ bytes. Keeps (D.held desk.old name.now) (Some bytes.items)) }
    ensures few { IfOk result (λ bytes. length bytes.items ≤ limit_of Role.Report) }
    ensures ends { IfErr result (λ ending. EndsAt ending Role.Report name.now
        (D.held desk.old name.now) (D.faults desk.old) (D.faults desk.new) (D.asked desk.new)) }

    ensures held { D.held desk.new ≡ D.held desk.old }
    ensures told { GoesOnTelling (D.left desk.old) (D.left desk.new) }
    ensures later { D.faults desk.old ≤ D.faults desk.new }
{
    read_file(alloc, Role::Report, name, desk)
}
