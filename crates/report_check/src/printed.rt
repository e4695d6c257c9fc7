//! The history that bytes are the report of.
ghost use Rattle.std.specs.Prelude.{◌≡◌, ◌≤◌, Err, IfOk, IfSome, None, Ok, length};
ghost use Rattle.steer_base.specs.declared.limits.TheConstants.{MAX_PACKETS};
ghost use Rattle.report.specs.Laws.{IsReportOf};
ghost use Rattle.report_check.specs.Reading.{IsCandidate, IsNoReport, IsOnlyReport};
ghost use Rattle.report_check.specs.declared.printed.ReportFault.TheVariants as fault;

use crate::reading::{is_candidate, is_written};
use report_history::{Printed, history_of};
use report_reader::{InTurn, ReadsSections, read_parts};
use std::alloc::Global;
use steer_base::{OutOfMemory, Packet};

/// Why a report was not read.
#[derive(Clone, Copy, Debug, PartialEq, Eq)]
pub enum ReportFault {
    /// The bytes are the report of no history.
    NoReport,
    /// Out of memory.
    OutOfMemory,
}

impl From<OutOfMemory> for ReportFault {
    ghost from_gives = { λ _ e. e ≡ fault.OutOfMemory };

    fn from(_: OutOfMemory) -> Self {
        ReportFault::OutOfMemory
    }
}

/// The one history, with the texts of its taps, that the bytes may be the report of, for the
/// packets of a capture, so many applications and counters that begin at `start`. `None` says that
/// there is none. Of `Some` it is left to see what is written of it (`is_written`).
pub fn candidate<W: ReadsSections>(
    work: &W,
    alloc: Global,
    bytes: &[u8],
    packets: &[Packet],
    apps: u8,
    start: u32,
) -> Result<Option<Printed>, OutOfMemory>
    requires apps { 1 ≤ apps }
    requires few { length packets.now ≤ MAX_PACKETS }
    ensures found { IfOk result (λ o. IfSome o
        (λ p. IsCandidate packets.now apps start p.history p.texts.items)) }
    ensures only { IfOk result (λ o. IfSome o
        (λ p. IsOnlyReport packets.now apps start p.history p.texts.items bytes.now)) }
    ensures none { result ≡ Ok None → IsNoReport packets.now apps start bytes.now }
{
    let parts = read_parts(work, alloc, bytes, packets.len())?;
    let printed = history_of(alloc, parts, packets, apps, start)?;
    if is_candidate(
        alloc,
        packets,
        apps,
        start,
        &printed.history,
        &printed.texts,
    )? {
        Ok(Some(printed))
    } else {
        Ok(None)
    }
}

/// The history and the texts of taps that the bytes are the report of, for the packets of a
/// capture, so many applications and counters that begin at `start`. There is at most one such
/// history. `NoReport` says that there is none.
pub fn read_report(
    alloc: Global,
    bytes: &[u8],
    packets: &[Packet],
    apps: u8,
    start: u32,
) -> Result<Printed, ReportFault>
    requires apps { 1 ≤ apps }
    requires few { length packets.now ≤ MAX_PACKETS }
    ensures found { IfOk result
        (λ p. IsReportOf packets.now apps start p.history p.texts.items bytes.now) }
    ensures only { IfOk result
        (λ p. IsOnlyReport packets.now apps start p.history p.texts.items bytes.now) }
    ensures none { result ≡ Err fault.NoReport → IsNoReport packets.now apps start bytes.now }
{
    let Some(printed) = candidate(&InTurn, alloc, bytes, packets, apps, start)? else {
        return Err(ReportFault::NoReport);
    };
    if is_written(
        alloc,
        bytes,
        packets,
        apps,
        &printed.history,
        &printed.texts,
    )? {
        Ok(printed)
    } else {
        Err(ReportFault::NoReport)
    }
}
