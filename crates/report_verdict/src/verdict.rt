//! What is said of bytes that are to be a report.
ghost use Rattle.std.specs.Prelude.{◌≡◌, []};
ghost use Rattle.report_verdict.specs.VerdictText.{bad_text, verdict_text};

use report::LineBuf;

/// What is said of bytes that are to be a report, for a plan and the packets of a capture.
#[derive(Clone, Copy, Debug, PartialEq, Eq)]
pub enum Verdict {
    /// The plan has commands, so that the report was not looked at.
    NotChecked,
    /// The bytes are the report of no history of this plan and these packets.
    NotReport,
    /// They are the report of a history that fails this clause of a good history, from 1 to 11, and
    /// none before it. The clause is 10 if the history has a command.
    Bad(u8),
    /// They are the report of a good history.
    Good,
}

impl Verdict {
    /// Puts the line of the verdict in an empty line.
    pub fn push(self, line: &mut LineBuf)
        requires { line.old ≡ [] }
        ensures { line.new ≡ verdict_text self }
    {
        match self {
            Verdict::NotChecked => line.push(b"check not checked\n"),
            Verdict::NotReport => line.push(b"check not a report\n"),
            Verdict::Bad(clause) => push_bad(line, clause),
            Verdict::Good => line.push(b"check good\n"),
        }
    }
}

// Puts the line of a clause that fails in an empty line.
fn push_bad(line: &mut LineBuf, clause: u8)
    requires { line.old ≡ [] }
    ensures { line.new ≡ bad_text clause }
{
    line.push(b"check bad ");
    line.push_decimal(u64::from(clause));
    line.push(b"\n");
}
