//! Frames, headers of files, and bytes put together of pieces.
use std::alloc::{AllocError, Global};
use std::fmt::Debug;
use std::process::Abort;

/// The header of a little-endian capture with microseconds.
pub(crate) const HEADER: [u8; 24] = [
    0xd4, 0xc3, 0xb2, 0xa1, 0x02, 0x00, 0x04, 0x00, 0x00, 0x00, 0x00, 0x00, 0x00, 0x00, 0x00, 0x00,
    0xff, 0xff, 0x00, 0x00, 0x01, 0x00, 0x00, 0x00,
];

/// A TCP segment over IPv4, from 66.9.149.187 port 2794 to 161.142.100.80 port 1766: the first
/// vector of the Toeplitz hash.
pub(crate) const SEGMENT: [u8; 54] = [
    0x02, 0, 0, 0, 0, 0x02, 0x02, 0, 0, 0, 0, 0x01, 0x08, 0x00, // two addresses, IPv4
    0x45, 0, 0, 0x28, 0, 0, 0, 0, 0x40, 6, 0, 0, // 20 bytes of header, TCP
    0x42, 0x09, 0x95, 0xbb, 0xa1, 0x8e, 0x64, 0x50, // source, destination
    0x0a, 0xea, 0x06, 0xe6, 0, 0, 0, 0, 0, 0, 0, 0, 0x50, 0, 0, 0, 0, 0, 0, 0, // ports
];

/// The pieces one after another.
pub(crate) fn joined(alloc: Global, pieces: &[&[u8]]) -> Result<Vec<u8>, AllocError> {
    let mut bytes = Vec::new(alloc);
    for piece in pieces {
        bytes.extend_from_slice(piece)?;
    }
    Ok(bytes)
}

/// Asserts that what was got in a case of a table is what is wanted there.
pub(crate) fn same<T: PartialEq + Debug>(rt: &impl Abort, got: &T, wanted: &T, case: usize) {
    assert!(rt; *got == *wanted, "case {case}: {got:?}, and not {wanted:?}");
}

/// Asserts that the items are those that are wanted.
pub(crate) fn same_items<T: PartialEq + Debug>(rt: &impl Abort, got: &[T], wanted: &[T]) {
    assert_eq!(rt; got, wanted);
}
