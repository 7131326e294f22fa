//! Limits, and bytes with a meaning: each has its name here, and clauses and definitions cite it.

/// The bytes of a line, without its line end.
pub const LINE_LIMIT: usize = 4096;

/// The bytes of a file, and of all scripts of a manifest together.
pub const FILE_LIMIT: u64 = 67_108_864;

/// The bytes of a file's name.
pub const FILE_NAME_LIMIT: usize = 255;

/// The bytes of a name.
pub const NAME_LIMIT: usize = 32;

/// The schemas of a world, `flat` not counted.
pub const MOST_SCHEMAS: usize = 16;

/// The kinds of a schema.
pub const MOST_KINDS: usize = 16;

/// The upper bound that is written for the flat kind. It holds for no run: a flat run may have any length.
pub const FLAT_RUN: u32 = 16;

/// The tensors of a world.
pub const MOST_TENSORS: usize = 32;

/// The modes of a tensor.
pub const MOST_ORDER: usize = 5;

/// The numbers of a `Coords`: those of a tensor's cell, or of an answer's, which has up to 8 variables.
pub const MOST_COORDINATES: usize = 8;

/// The latches of a tensor.
pub const MOST_TENSOR_LATCHES: u32 = 256;

/// The latches of all tensors, without the journal's.
pub const MOST_LATCHES: u32 = 1024;

/// The `print` lines of a manifest.
pub const MOST_PRINTS: usize = 64;

/// The sessions of a world.
pub const MOST_SESSIONS: u32 = 16;

/// The lines of a script that have a call.
pub const MOST_CALLS: u32 = 65_536;

/// The loaded lines and the accepted updates of a world, together.
pub const MOST_LINES: u32 = 700_000;

/// The updates of a batch.
pub const MOST_UPDATES: usize = 64;

/// The accesses of a statement.
pub const MOST_ACCESSES: usize = 12;

/// The literals of a statement.
pub const MOST_LITERALS: usize = 12;

/// The variables of a statement.
pub const MOST_VARIABLES: usize = 8;

/// The parentheses that are open at one time in a statement.
pub const MOST_PARENTHESES: usize = 16;

/// The byte that ends a line.
pub const LINE_FEED: u8 = b'\n';

/// The byte that a line may have at its end, which is no part of it.
pub const CARRIAGE_RETURN: u8 = b'\r';

/// The byte between written words; it also parts words that are read.
pub const SPACE: u8 = b' ';

/// The other byte that parts words that are read.
pub const TAB: u8 = b'\t';

/// The byte before a negative number.
pub const MINUS: u8 = b'-';

/// The byte of a name that is neither a letter nor a digit.
pub const UNDERSCORE: u8 = b'_';
