//! A conforming structure from an ascending list.
//!
//! `build` makes all nodes, or the one flat run, of a structure in one pass over its elements.
//! Clauses see what was built as a tree that stands in the arena. Read `IsBuilt` in `specs/Building.antt` first.
//! Kinds and coordinates count from 0. A structure has at most 4,294,967,295 elements. A tick is the write of a node.
//! Not here: insertion into a structure that is there, and the shape beyond what a schema and the bound of the spine ask for.
#![tactic(auto)]

mod flat;
mod levels;
mod linked;
#[cfg(test)]
mod reading;
mod structures;
#[cfg(test)]
mod tests;
mod woven;

pub use structures::build;
