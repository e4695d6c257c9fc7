//! The flow that a packet belongs to.

/// The source and the destination address of an IP packet, each as one number.
#[derive(Clone, Copy, Debug, PartialEq, Eq, PartialOrd, Ord)]
pub enum Pair {
    /// Two IPv4 addresses of 32 bits.
    V4 {
        /// The source.
        src: u32,
        /// The destination.
        dst: u32,
    },
    /// Two IPv6 addresses of 128 bits.
    V6 {
        /// The source.
        src: u128,
        /// The destination.
        dst: u128,
    },
}

/// The transport protocols whose ports are part of a flow.
#[derive(Clone, Copy, Debug, PartialEq, Eq, PartialOrd, Ord)]
pub enum Proto {
    /// Protocol number 6.
    Tcp,
    /// Protocol number 17.
    Udp,
}

/// The flow of a frame. All frames without an IP packet are one flow.
#[derive(Clone, Copy, Debug, PartialEq, Eq, PartialOrd, Ord)]
pub enum Flow {
    /// No IP packet was found.
    Bare,
    /// Only the addresses: of a fragment, or of a protocol other than TCP and UDP.
    Two(Pair),
    /// The addresses, the protocol, the source port and the destination port.
    Four(Pair, Proto, u16, u16),
}
