//! The numbers that make a sample what it is.

/// The greatest number that has a sample.
pub const MOST_SAMPLE: u32 = 200_000;

/// The sessions of a sample.
pub const SAMPLE_SESSIONS: u32 = 4;

/// The first dimension of a sample's tensor.
pub const SAMPLE_ROWS: u32 = 1000;

/// Its second dimension: the generator has no number from 66,000 on.
pub const SAMPLE_COLUMNS: u32 = 66;

/// Its latches, each for 125 rows.
pub const SAMPLE_LATCHES: u32 = 8;

/// The generator's prime: each number that it gives is below.
pub const GENERATOR_PRIME: u32 = 65_537;
