//! A command with its answer.
use steer_base::{Answer, Command};

/// A command that was given, and its answer.
#[derive(Clone, Copy, Debug, PartialEq, Eq)]
pub struct Commanded {
    /// The command.
    pub command: Command,
    /// The answer. The command was carried out if this is `Done` or `Expired`.
    pub answer: Answer,
}
