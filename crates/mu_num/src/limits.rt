//! The limits of the numbers of a machine and of its runs, as constants. The definitions of the same
//! limits are in the file of definitions with this name.

/// The bits of a level and of the value of a discrete variable.
pub const LEVEL_BITS: u8 = 43;

/// The bits of a state.
pub const STATE_BITS: u8 = 88;

/// The bits of a slope.
pub const SLOPE_BITS: u8 = 88;

/// The bits of an absolute row sum.
pub const WEIGHT_BITS: u8 = 88;

/// The bits of a level in a second-order run, at a limit check.
pub const SECOND_LEVEL_BITS: u8 = 49;

/// The bits of an absolute row sum in a second-order run, at a limit check.
pub const SECOND_WEIGHT_BITS: u8 = 94;

/// The ticks from one limit check of a second-order run to the next.
pub const LOOK_SPAN: u64 = 65_536;

/// The greatest absolute value in the exact sums of a certificate.
pub const SUM_LIMIT: u128 = 1 << 126;
