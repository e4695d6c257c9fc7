//! What is wrong with a value.

/// What is wrong with a value, without its place.
#[derive(Clone, Copy, Debug, PartialEq, Eq)]
pub enum Cause {
    /// The bytes are not a JSON text (RFC 8259).
    NotJson,
    /// A required key is absent.
    Missing,
    /// The value is of another kind than the key's, or the text of a step is not in the grammar.
    WrongKind,
    /// This number, or this length of a list, is outside its range.
    Range(u64),
    /// The object has a key that its kind of object does not have.
    UnknownKey,
    /// The list of steps has this many members, more than a plan may have.
    TooLong(u64),
}
