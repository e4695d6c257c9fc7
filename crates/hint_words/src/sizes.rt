//! The key of a table of words.

/// The number of words and of seats, fixed when the table is made.
#[derive(Drop)]
pub struct Sizes {
    /// The number of words.
    pub words: u32,
    /// The number of seats.
    pub seats: u32,
}
