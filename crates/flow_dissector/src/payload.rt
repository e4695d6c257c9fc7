//! Where the payload of an IP packet begins.

/// What an IP packet carries.
#[derive(Clone, Copy, Debug, PartialEq, Eq)]
pub struct Payload {
    /// The protocol number that IANA assigns, such as 6 for TCP, 17 for UDP and 47 for GRE.
    pub proto: u8,
    /// The offset of the payload in the packet.
    pub start: usize,
}
