//! Limits of the fields of a plan that no lower crate owns.

/// The most hardware filters that a plan may ask for; a filter table can have this many.
pub const MAX_PLAN_FILTERS: u32 = 4_096;

/// The largest backlog limit that a plan may ask for, in packets.
pub const MAX_PLAN_BACKLOG: u32 = 65_536;
