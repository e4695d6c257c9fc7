//! Places within what a header stands before.
ghost use Rattle.std.specs.Prelude.{◌≡◌, ◌≤◌, length, drop, IsTrue, IfSome};
ghost use Rattle.std.specs.Option.{option_map, ForSome};
ghost use Rattle.flow_dissector.specs.Ethernet.{is_ip};
ghost use Rattle.flow_dissector.specs.Places.{packet_from};

use flow_dissector::IpAt;

/// Translates a place that was found after a header of `len` bytes into one that counts from the
/// front of `bytes`, where the header begins.
#[tactic(auto, using(crate::proofs::Places::place_steps))]
pub fn behind(bytes: &[u8], len: usize, found: Option<IpAt>) -> Option<IpAt>
    requires header { len ≤ length bytes.now }
    requires within { ForSome found (λ at. at.start ≤ length (drop len bytes.now)) }
    requires kind { ForSome found (λ at. IsTrue (is_ip at.kind)) }
    ensures packet { option_map (packet_from bytes.now) result
        ≡ option_map (packet_from (drop len bytes.now)) found }
    ensures within { IfSome result (λ at. at.start ≤ length bytes.now) }
    ensures kind { IfSome result (λ at. IsTrue (is_ip at.kind)) }
{
    let at = found?;
    Some(IpAt {
        kind: at.kind,
        start: len + at.start,
    })
}
