//! JSON values as numbers, sets, lists and objects, each within its range.

pub mod bits;
pub mod fields;
pub mod member;
pub mod number;
pub mod object;
