//! The last line of a report.
ghost use Rattle.std.specs.Prelude.{◌≡◌, ◌≤◌, ℕ, Option, length};
ghost use Rattle.report_reader.specs.Sections.{IsLast, ShowsCut};

use crate::fields::Fields;

/// What the last line shows.
#[derive(Clone, Copy, Debug, PartialEq, Eq, Drop)]
pub struct LastLine {
    /// The number of packets in the capture.
    pub total: u32,
    /// The length of a truncated last record, if there is one.
    pub cut: Option<u32>,
}

// The length of a truncated last record that the last line shows, if there is one.
fn cut_of(fields: &Fields<'_>) -> Option<u32>
    ensures { (o : Option ℕ) → ShowsCut fields.now o → result ≡ o }
{
    if fields.at(4) == b"cut".as_slice() {
        Some(fields.word(5))
    } else {
        None
    }
}

/// What the last line shows, from a place on.
pub fn read_last(bytes: &[u8], at: usize) -> LastLine
    requires { at ≤ length bytes.now }
    ensures { (arrived total : ℕ) (cut : Option ℕ) → IsLast bytes.now at arrived total cut
        → (result.total ≡ total) × (result.cut ≡ cut) }
{
    let mut fields = Fields::make();
    fields.read(bytes, at);
    LastLine {
        total: fields.word(3),
        cut: cut_of(&fields),
    }
}
