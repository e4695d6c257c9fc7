//! Assertions on texts.
use std::process::Abort;

fn has_line(text: &[u8], line: &[u8]) -> bool {
    text.split(|byte| *byte == b'\n').any(|found| found == line)
}

// Whether each of these lines is one of the text.
fn has_lines(text: &[u8], lines: &[u8]) -> bool {
    lines
        .split(|byte| *byte == b'\n')
        .all(|line| has_line(text, line))
}

/// Asserts that the text of a case is this one.
pub fn same_text(rt: &impl Abort, got: &[u8], wanted: &[u8], case: usize) {
    assert!(rt; got == wanted, "case {case}: {got:?}, and not {wanted:?}");
}

/// Asserts that the text of a case has each of these lines.
pub fn have_lines(rt: &impl Abort, got: &[u8], lines: &[u8], case: usize) {
    assert!(rt;
        has_lines(got, lines),
        "case {case}: {got:?} lacks a line of {lines:?}"
    );
}

// How many lines of a text begin and end so.
fn lines_with(text: &[u8], front: &[u8], back: &[u8]) -> usize {
    text.split(|byte| *byte == b'\n')
        .filter(|line| line.starts_with(front) && line.ends_with(back))
        .count()
}

/// Asserts that a report has so many packets, each in an inbox or dropped, and a reply on the port
/// for each one in an inbox.
pub fn all_are_through(rt: &impl Abort, report: &[u8], packets: usize) {
    let delivered = lines_with(report, b"p ", b" place inbox");
    let dropped = lines_with(report, b"p ", b" place drop");
    let begun = lines_with(report, b"r ", b"");
    let waiting = lines_with(report, b"r ", b" port -");
    assert!(rt; lines_with(report, b"p ", b"") == packets);
    assert!(rt; delivered.saturating_add(dropped) == packets);
    assert!(rt; (begun, waiting) == (delivered, 0));
}
