//! The texts of taps.
ghost use Rattle.std.specs.Prelude.{◌≡◌, ◌≤◌, ◌+◌, ◌*◌, length, IfOk};
ghost use Rattle.report_reader.specs.Sections.{ReadsTexts};
ghost use Rattle.report_reader.specs.declared.shortest.TheConstants.{SHORTEST_TAP};

use crate::fields::Fields;
use crate::sections::Part;
use crate::shortest::SHORTEST_TAP;
use crate::values::number;
use std::alloc::Global;
use steer_base::OutOfMemory;
use taps::TapText;

// A copy of bytes.
fn copy_of(alloc: Global, bytes: &[u8]) -> Result<TapText, OutOfMemory>
    ensures { IfOk result (λ text. text ≡ bytes.now) }
{
    let mut copy = Vec::with_capacity(alloc, bytes.len())?;
    copy.extend_from_slice(bytes)?;
    Ok(TapText { bytes: copy })
}

/// Reads the lines of taps, each with the bytes that follow it, from a place on.
pub fn read_texts(alloc: Global, bytes: &[u8], at: usize) -> Result<Part<TapText>, OutOfMemory>
    requires { at ≤ length bytes.now }
    ensures within { IfOk result (λ part. part.next ≤ length bytes.now) }
    ensures fit { IfOk result
        (λ part. length part.items.items * SHORTEST_TAP + at ≤ part.next) }
    ensures reads { IfOk result (λ part. ReadsTexts bytes.now at part.items.items part.next) }
{
    let mut fields = Fields::make();
    let mut items = Vec::new(alloc);
    let mut next = at;
    while next < bytes.len() {
        let after = fields.read(bytes, next);
        let is_tap = fields.at(0) == b"tap".as_slice();
        if !is_tap {
            return Ok(Part { items, next });
        }
        if after - next < SHORTEST_TAP {
            return Ok(Part { items, next });
        }
        let long = number(fields.at(3));
        if long > (bytes.len() - after) as u64 {
            return Ok(Part { items, next });
        }
        next = after + long as usize;
        items.push(copy_of(alloc, &bytes[after..next])?)?;
    }
    Ok(Part { items, next })
}
