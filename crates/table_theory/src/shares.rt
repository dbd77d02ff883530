//! How much of an object a split gives away.

/// A split gives the new end half of the share of the old end, and no more than this, 2^21 parts. So the end that all
/// others are split off from can be split 2^43 times.
pub const MOST_GIVEN: u64 = 2_097_152;
