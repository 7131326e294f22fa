//! An element goes along a chain: into a run, into a new node, or on to the structure behind.
//!
//! `insert` puts an element into a structure whose root has `post` alone. Such nodes are a chain. Where the kind behind a run has another
//! discipline, the chain ends, and `insert` may answer `Step::Pass`: elements that have to go into the structure behind.
//! Clauses see the nodes as a tree. Read `CanPutIn`, `IsDone` and `IsPassed` in `crates/node_arena/specs/Passing.antt` first.
//! Kinds, places and coordinates count from 0. A tick is the write of a node, and there are at most 2.
//! Not here: structures of one run, of nodes with two links and of woven nodes, and what becomes of elements that are passed on.
#![tactic(auto)]

mod chains;
#[cfg(test)]
mod tests;

pub use chains::insert;
