//! Calls as they are written, in good form and within the limits, before they are judged.
use crate::lists::List;
use crate::names::Name;
use crate::statements::Stmt;

/// A written number.
#[derive(Clone, Copy, Debug, PartialEq, Eq)]
pub enum WrittenNumber {
    /// A whole number from -2^63 to 2^64 - 1, modulo 2^64.
    Whole(u64),
    /// A number that isn't whole.
    Fraction,
    /// A whole number below -2^63 or above 2^64 - 1.
    Huge,
}

/// A written coordinate, counted from 1.
#[derive(Clone, Copy, Debug, PartialEq, Eq)]
pub enum WrittenCoordinate {
    /// A number that may be 0, which is out of range.
    Number(u32),
    /// A number above 4,294,967,295, which is out of range.
    Huge,
}

/// What an update does.
#[derive(Clone, Copy, Debug, PartialEq, Eq)]
pub enum UpdateKind {
    /// It sets a cell.
    Set,
    /// It adds to a cell.
    Add,
}

/// A written update.
#[derive(Debug, Drop)]
pub struct WrittenUpdate {
    /// What it does.
    pub kind: UpdateKind,
    /// The name of its tensor.
    pub name: Name,
    /// The coordinates of its cell, by mode.
    pub coordinates: List<WrittenCoordinate>,
    /// The number that is set or added.
    pub number: WrittenNumber,
}

/// A written call. There is one for a line, so its size doesn't matter.
#[derive(Debug, Drop)]
pub enum WrittenCall {
    /// The number in a cell.
    Get {
        name: Name,
        coordinates: List<WrittenCoordinate>,
    },
    /// Updates, of which a line with `set` or `add` has one.
    Batch(List<WrittenUpdate>),
    /// The answer of a statement.
    Query(Stmt),
}
