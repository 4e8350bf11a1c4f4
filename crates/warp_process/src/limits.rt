//! The limits of a block.

/// No horizon is later.
pub const MOST_HORIZON: u64 = 1_000_000_000_000;
