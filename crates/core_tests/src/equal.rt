//! Assertions that what was got is what is wanted.
use std::fmt::Debug;
use std::process::Abort;

/// In a case of a table.
pub(crate) fn same<T: PartialEq + Debug>(rt: &impl Abort, got: &T, wanted: &T, case: usize) {
    assert!(rt; *got == *wanted, "case {case}: {got:?}, and not {wanted:?}");
}

/// Item by item.
pub(crate) fn same_items<T: PartialEq + Debug>(rt: &impl Abort, got: &[T], wanted: &[T]) {
    assert_eq!(rt; got, wanted);
}
