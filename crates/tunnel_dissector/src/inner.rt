//! What is found in a frame.
use steer_base::Flow;

/// The flow of the innermost level of a frame that was entered.
#[derive(Clone, Copy, Debug, PartialEq, Eq)]
pub struct Inner {
    /// The flow of that level, or of the frame itself if no level was entered; `Flow::Bare` if the
    /// frame has no complete IP header.
    pub flow: Flow,
    /// The number of levels that were entered, 0 to 4.
    pub depth: u8,
}
