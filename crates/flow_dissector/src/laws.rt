//! Lemmas about flows, each the contract of a function with an empty body.
ghost use Rattle.std.specs.Prelude.{◌≡◌, ℕ, List, Option, None, Some, IsTrue, ◌++◌, slice_index};
ghost use Rattle.std.specs.Prelude.{drop};
ghost use Rattle.steer_base.specs.declared.flow.Flow.TheVariants.{Two, Four};
ghost use Rattle.steer_base.specs.declared.flow.Pair.{Pair};
ghost use Rattle.steer_base.specs.declared.flow.Proto.{Proto};
ghost use Rattle.flow_dissector.specs.Carried.{carries};
ghost use Rattle.flow_dissector.specs.Frame.{flow_of, ip_flow, payload_in};
ghost use Rattle.flow_dissector.specs.Ipv4.{is_ipv4, is_ipv4_fragment, ipv4_pair};
ghost use Rattle.flow_dissector.specs.Ipv6.{is_ipv6, after_extensions, ipv6_pair};
ghost use Rattle.flow_dissector.specs.Ports.{flow_between};

/// Lemma: the flow of a packet with a complete header is between its addresses, and has ports if
/// the payload has them.
pub fn flow_is_of_the_payload()
    ensures ipv4 { (packet : List ℕ) → IsTrue (is_ipv4 packet)
        → ip_flow 0x0800 packet ≡ flow_between (ipv4_pair packet) (payload_in 0x0800 packet) }
    ensures ipv6 { (packet : List ℕ) → IsTrue (is_ipv6 packet)
        → ip_flow 0x86dd packet ≡ flow_between (ipv6_pair packet) (payload_in 0x86dd packet) }
{}

/// Lemma: the payload of an IPv4 fragment, even the first, is not known, and its flow has only the
/// addresses.
pub fn ipv4_fragment_has_no_ports()
    ensures flow { (packet : List ℕ) → IsTrue (is_ipv4 packet) → IsTrue (is_ipv4_fragment packet)
        → ip_flow 0x0800 packet ≡ Two (ipv4_pair packet) }
    ensures payload { (packet : List ℕ) → IsTrue (is_ipv4_fragment packet)
        → payload_in 0x0800 packet ≡ None }
{}

/// Lemma: the payload of an IPv6 packet whose extensions lead to a fragment header is not known,
/// and its flow has only the addresses.
pub fn ipv6_fragment_has_no_ports()
    ensures flow { (packet rest : List ℕ) → IsTrue (is_ipv6 packet)
        → after_extensions 8 (slice_index packet 6) (drop 40 packet) ≡ carries 44 rest
        → ip_flow 0x86dd packet ≡ Two (ipv6_pair packet) }
    ensures payload { (packet rest : List ℕ)
        → after_extensions 8 (slice_index packet 6) (drop 40 packet) ≡ carries 44 rest
        → payload_in 0x86dd packet ≡ None }
{}

/// Lemma: bytes after the ports, as a longer capture of the same frame has them, do not change a
/// flow that has ports.
pub fn ports_end_the_flow()
    ensures { (frame more : List ℕ) (ends : Pair) (proto : Proto) (source destination : ℕ)
        → flow_of frame ≡ Four ends proto source destination
        → flow_of (frame ++ more) ≡ Four ends proto source destination }
{}
