//! The faults of a file's lines.

use thiserror::Error;

/// Why a line of a file is refused.
#[derive(Clone, Copy, Debug, PartialEq, Eq, Error)]
pub enum FileCause {
    /// It has too few or too many words.
    #[error("the line has too few or too many words")]
    Rank,
    /// A word, or the line, has no form that may stand there.
    #[error("the line has no form that may stand there")]
    Form,
    /// A number isn't from 1 to the greatest that is allowed.
    #[error("a number of the line is out of range")]
    Range,
    /// The value isn't whole.
    #[error("the value isn't whole")]
    NotWhole,
    /// The value isn't from -2^63 to 2^64 - 1.
    #[error("the value isn't from -2^63 to 2^64 - 1")]
    TooLarge,
    /// The line, or what it adds, is past a limit.
    #[error("the line goes past a limit")]
    Limit,
    /// It stands after a line that it must stand before.
    #[error("the line stands after one that it must stand before")]
    Order,
    /// It names what isn't declared on an earlier line.
    #[error("the line names what no earlier line declares")]
    Name,
    /// It declares what an earlier line declares.
    #[error("the line declares what an earlier line declares")]
    Twice,
    /// It has a form that isn't built yet.
    #[error("the line has a form that isn't built yet")]
    NotBuilt,
}

/// A fault of a file.
#[derive(Clone, Copy, Debug, PartialEq, Eq, Error)]
#[error("line {line}: {cause}")]
pub struct FileFault {
    /// The line, counted from 1; 0 where the fault is the whole file's.
    pub line: u32,
    /// Why it is refused.
    pub cause: FileCause,
}

/// Why a text isn't read.
#[derive(Clone, Copy, Debug, PartialEq, Eq, Error)]
pub enum ReadFault {
    /// A line is refused: the first, for the first cause that applies.
    #[error("{0}")]
    At(FileFault),
    /// Out of memory.
    #[error("out of memory")]
    NoMemory,
}
