//! Why bytes have no plan.
use steer_base::List;

/// Why bytes have no plan.
///
/// A path has the keys and the positions down to a value, with slashes between them.
#[derive(Debug, Drop)]
pub enum PlanFault {
    /// The bytes have no JSON value.
    NotJson,
    /// A required key is not there.
    Missing { path: List<u8> },
    /// The value is of another kind, or a step text is not in the grammar.
    WrongKind { path: List<u8> },
    /// The number, or the length of the list, is outside its range.
    Range { path: List<u8>, value: u64 },
    /// The object has a key that its table does not list.
    UnknownKey { path: List<u8> },
    /// The list has more than 1,000,000 steps.
    TooLong { steps: u64 },
    /// There was not enough memory.
    OutOfMemory,
}
