//! Whether bytes are the report of a history.
ghost use Rattle.std.specs.Prelude.{◌≡◌, ◌≤◌, IfOk, length, true};
ghost use Rattle.history.specs.Regular.{Regular};
ghost use Rattle.steer_base.specs.declared.limits.TheConstants.{MAX_PACKETS};
ghost use Rattle.report.specs.Laws.{IsReportOf};
ghost use Rattle.report.specs.Report.{report};
ghost use Rattle.report_check.specs.Reading.{IsCandidate};

use crate::routing::are_queued;
use crate::showing::is_shown;
use history::{History, Lines};
use history_check::is_regular;
use report::{LineBuf, texts_fit};
use std::alloc::Global;
use steer_base::{OutOfMemory, Packet};
use taps::TapText;

/// Whether a history with these texts of taps has a report: it is regular, and each arrival is at
/// the queue that its values lead to.
pub fn is_candidate(
    alloc: Global,
    packets: &[Packet],
    apps: u8,
    start: u32,
    h: &History,
    texts: &[TapText],
) -> Result<bool, OutOfMemory>
    requires apps { 1 ≤ apps }
    requires few { length packets.now ≤ MAX_PACKETS }
    ensures yes { IfOk result (λ is. is ≡ true
        → IsCandidate packets.now apps start h.now texts.now) }
    ensures no { IfOk result (λ is.
        IsCandidate packets.now apps start h.now texts.now → is ≡ true) }
{
    if h.start != start || !are_queued(packets, h) {
        return Ok(false);
    }
    h.numbers_fit();
    texts_fit(texts);
    is_regular(alloc, h, packets, apps)
}

/// Whether what is written of a history with these texts of taps is just these bytes.
pub fn is_written(
    alloc: Global,
    bytes: &[u8],
    packets: &[Packet],
    apps: u8,
    h: &History,
    texts: &[TapText],
) -> Result<bool, OutOfMemory>
    requires apps { 1 ≤ apps }
    requires few { length packets.now ≤ MAX_PACKETS }
    requires regular { Regular packets.now apps h.now }
    ensures yes { IfOk result (λ is. is ≡ true
        → report packets.now apps h.now texts.now ≡ bytes.now) }
    ensures no { IfOk result (λ is.
        report packets.now apps h.now texts.now ≡ bytes.now → is ≡ true) }
{
    let lines = Lines::make(alloc, h, packets, apps)?;
    let mut buf = LineBuf::make(alloc)?;
    Ok(is_shown(bytes, h, &lines, texts, &mut buf))
}

/// Whether bytes are the report of this history with these texts of taps: it is regular, each
/// arrival is at the queue that its values lead to, and what is written of it is just these bytes.
pub fn is_report(
    alloc: Global,
    bytes: &[u8],
    packets: &[Packet],
    apps: u8,
    start: u32,
    h: &History,
    texts: &[TapText],
) -> Result<bool, OutOfMemory>
    requires apps { 1 ≤ apps }
    requires few { length packets.now ≤ MAX_PACKETS }
    ensures yes { IfOk result (λ is. is ≡ true
        → IsReportOf packets.now apps start h.now texts.now bytes.now) }
    ensures no { IfOk result (λ is.
        IsReportOf packets.now apps start h.now texts.now bytes.now → is ≡ true) }
{
    if !is_candidate(alloc, packets, apps, start, h, texts)? {
        return Ok(false);
    }
    is_written(alloc, bytes, packets, apps, h, texts)
}
