//! A step on a word.

/// One atomic step, at the word whose number is the first field. Contracts list a seat's steps by
/// it; no value of it is made.
pub enum HintStep {
    /// A load of this value.
    Load(u32, u64),
    /// A store of this value.
    Store(u32, u64),
    /// A clear of the word if it has this value, and whether it had it.
    ClearIf(u32, u64, bool),
}
