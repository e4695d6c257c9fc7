//! The values of fields. A field that has none of its kind is read as some value: what was read is
//! written again and compared.
ghost use Rattle.std.specs.Prelude.{◌≡◌, ◌<◌, ◌^◌, ℕ, Option, decimal};
ghost use Rattle.steer_base.specs.declared.choice.Why.{Why as AWhy};
ghost use Rattle.history.specs.declared.packet_line.Via.{Via as AVia};
ghost use Rattle.report.specs.Lines.{via_word, why_word};

use history::Via;
use steer_base::{Why, decimal_number};

/// The number that a field is.
pub fn number(field: &[u8]) -> u64
    ensures { (n : ℕ) → n < 2 ^ 64 → field.now ≡ decimal n → result ≡ n }
{
    match decimal_number(field, 20) {
        Some(value) => {
            if value <= u128::from(u64::MAX) {
                value as u64
            } else {
                0
            }
        }
        None => 0,
    }
}

/// What led to a queue.
pub fn via(field: &[u8]) -> Via
    ensures { (v : AVia) → field.now ≡ via_word v → result ≡ v }
{
    if field == b"filter".as_slice() {
        Via::Filter
    } else if field == b"reta".as_slice() {
        Via::Reta
    } else {
        Via::Unhashed
    }
}

/// The case of a choice.
pub fn why(field: &[u8]) -> Option<Why>
    ensures { (v : Option AWhy) → field.now ≡ why_word v → result ≡ v }
{
    if field == b"plain".as_slice() {
        Some(Why::Plain)
    } else if field == b"same".as_slice() {
        Some(Why::Same)
    } else if field == b"unset".as_slice() {
        Some(Why::Unset)
    } else if field == b"offline".as_slice() {
        Some(Why::Offline)
    } else if field == b"passed".as_slice() {
        Some(Why::Passed)
    } else if field == b"kept".as_slice() {
        Some(Why::Kept)
    } else {
        None
    }
}
