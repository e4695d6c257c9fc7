//! Writes the lines of a tap's text.
ghost use Rattle.std.specs.Prelude.{◌≡◌, ◌++◌, OnOk};
ghost use Rattle.taps.specs.Rows.{row};

use itoa::Buffer;
use steer_base::OutOfMemory;

/// Appends a line of two words, each followed by a number.
pub(crate) fn push_row(
    text: &mut Vec<u8>,
    name: &[u8],
    subject: u32,
    measure: &[u8],
    value: u64,
) -> Result<(), OutOfMemory>
    ensures { OnOk result
        (text.new.items ≡ text.old.items ++ row name.now subject measure.now value) }
{
    let mut buffer = Buffer::new();
    text.extend_from_slice(name)?;
    text.extend_from_slice(buffer.format(subject).as_bytes())?;
    text.extend_from_slice(measure)?;
    text.extend_from_slice(buffer.format(value).as_bytes())?;
    text.extend_from_slice(b"\n")?;
    Ok(())
}
