//! The content of a text of rules.
use crate::rule::Rule;
use steer_base::List;

/// The most rules that a text of rules may have.
pub const MAX_RULES: u32 = 4_096;

/// The content of a text of rules.
#[derive(Debug, Drop)]
pub struct Rules {
    /// The number of receive queues, 1 to 16.
    pub queues: u8,
    /// The enabled hash kinds (`toeplitz::Kinds`), one bit for each, 0 to 63.
    pub kinds: u8,
    /// Whether the folded flow is hashed, so that both directions of a flow have the same hash.
    pub symmetric: bool,
    /// Whether the innermost packet of a tunnel is classified and hashed, not the outermost.
    pub inner: bool,
    /// The rules, at most `MAX_RULES`. The first that matches decides.
    pub rules: List<Rule>,
}
