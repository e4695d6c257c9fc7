//! The application that a packet goes to.
ghost use Rattle.std.specs.Prelude.{◌<◌, ◌≡◌, ◌≤◌};
ghost use Rattle.steer_base.specs.Apps.{app_of as app_of_hash};

use crate::division::remainder;
use crate::ids::AppId;

/// The application of a packet among `apps`: its hash modulo their number, and application 0
/// without a hash.
pub fn app_of(hash: Option<u32>, apps: u8) -> AppId
    requires { 1 ≤ apps }
    ensures value { result ≡ app_of_hash hash apps }
    ensures within { result < apps }
{
    match hash {
        Some(hash) => AppId(remainder(hash, u32::from(apps)) as u8),
        None => AppId(0),
    }
}
