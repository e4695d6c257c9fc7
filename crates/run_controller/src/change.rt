//! The change of a setting of a board.

/// The change of a setting of a board.
#[derive(Clone, Copy, Debug, PartialEq, Eq)]
pub struct Change {
    /// The number of the setting.
    pub number: u32,
    /// The word that it gets.
    pub value: u64,
}
