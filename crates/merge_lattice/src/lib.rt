//! What is left of an expression when only some operands have an element.
//!
//! `lattice` makes the table of one variable: a point for each set of operands. `PointTable::pick` answers it.
//! Clauses see a table as the list of its points, where a set stands at the number of its bits. Read `IsSound`
//! in `specs/Soundness.antt` first.
//! The operands of a variable are the accesses that have it, numbered from 0 from left to right. Operand n is
//! bit n of a set. An expression has at most 12 accesses, so a table has at most 4,096 sets.
//! Not here: whether an operand has an element, and what a loop does at a point.
#![tactic(auto)]

mod points;
#[cfg(test)]
mod readings;
mod tables;
#[cfg(test)]
mod tests;
#[cfg(test)]
mod texts;

pub use points::Point;
pub use tables::{PointTable, lattice};
