//! How much is read.

/// The most bytes of a source.
pub const MAX_SOURCE: u32 = 1_048_576;

/// The most bytes of the input of a run.
pub const MAX_INPUT: u32 = 1_048_576;
