//! Reads the key of the receive hash. The default key is the one of Microsoft's verification suite.
ghost use Rattle.std.specs.Prelude.{◌≡◌, codes};
ghost use Rattle.serde_json.specs.View.{view};
ghost use Rattle.plan_reader.specs.Faults.{Gives, here};
ghost use Rattle.plan_reader.specs.Readings.{key_of, optional};
ghost use Rattle.toeplitz.specs.declared.key.TheConstants.{VERIFICATION_KEY};

use crate::faults::cause::Cause;
use crate::faults::fault::Refusal;
use crate::faults::placed::{here, placed};
use hex::FromHex;
use serde_json::Value;
use std::alloc::Global;
use toeplitz::VERIFICATION_KEY;

/// Reads a key: a text of 80 hexadecimal digits, in upper or lower case.
#[tactic(auto, unfolding(crate::specs::Readings::key_of))]
fn key_of(value: &Value) -> Result<[u8; 40], Cause>
    ensures { result ≡ key_of (view value.now) }
{
    let text = value.as_str().ok_or(Cause::WrongKind)?;
    <[u8; 40] as FromHex>::from_hex(text)
        .ok()
        .ok_or(Cause::WrongKind)
}

/// The key of the receive hash at the key `key` of a plan: 80 hexadecimal digits. If it is absent,
/// the key of Microsoft's verification suite (`toeplitz::VERIFICATION_KEY`).
#[tactic(auto, using(crate::proofs::Placed::gives_placed))]
pub fn key_or_default(alloc: Global, object: &Value) -> Result<[u8; 40], Refusal>
    ensures { Gives result
        (optional (codes "key") (λ v. here (key_of v)) VERIFICATION_KEY (view object.now)) }
{
    match object.get("key") {
        Some(value) => placed(alloc, "key", here(alloc, key_of(value))),
        None => Ok(VERIFICATION_KEY),
    }
}
