//! A packet of the capture.
use crate::flow::Flow;
use std::snapshot::Snapshot;

/// What the steering looks at in a packet, in 16 bytes.
#[derive(Drop)]
pub struct Packet {
    /// The flow of the frame. It is there for clauses alone and takes no memory: the steering looks
    /// at the hash and at the number of the flow.
    pub flow: Snapshot<Flow>,
    /// The receive hash, if one of the flow's hash kinds is on.
    pub hash: Option<u32>,
    /// The number of bytes of the frame that the capture has.
    pub len: u32,
    /// The place of the flow among the distinct flows of the capture, in order of first appearance,
    /// from 0.
    pub flow_number: u32,
}
