//! Insertion into woven structures: they stay of one depth, and few nodes are written.
//!
//! `insert` puts an element into a whole structure of a woven kind: down to a childless node, and up again where nodes are split.
//! `insert_below` does the same at a link, behind or before a run of another kind.
//! Clauses see the tree that stands in the arena before and the one that stands there after. Read `IsPutIn` in `node_arena`'s
//! `specs/Insertions.antt` first, then `specs/Writes.antt`.
//! Kinds and places count from 0. A tick is the write of a node. A structure has at most 4,294,967,295 elements and 32 levels.
//! Not here: structures of other kinds above or below woven ones, and taking elements out.
#![tactic(auto)]

mod descent;
mod links;
mod splitting;
#[cfg(test)]
mod tests;
mod trees;

pub use links::insert_below;
pub use trees::insert;
