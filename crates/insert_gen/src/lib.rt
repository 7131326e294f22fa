//! Insertion derived from a schema: an element goes into a structure of any kind.
//!
//! `derive_insert` gives the code of a schema's insertions. `need` tells what has to be spare for one of them, `insert` makes it, and `replace`
//! exchanges an element that is there.
//! Clauses see an `InsertCode` as its schema. Read `IsPutIn` in `node_arena`'s `specs/Insertions.antt` first, then `specs/Needs.antt`.
//! Kinds, places and coordinates count from 0. A tick is the write of a node. Neither `insert` nor `replace` takes memory.
//! Not here: nodes of one discipline (`block_list`, `chunk_tree`, `btree_nodes`), kept spines made low again (`chunk_tree::rebalance`), and structures
//! inside elements.
#![tactic(auto)]

#[cfg(test)]
mod checking;
mod depths;
mod flat;
mod inserting;
mod links;
mod needs;
mod passing;
mod replacing;
mod rows;
#[cfg(test)]
mod tests;

pub use inserting::insert;
pub use needs::{Spares, need};
pub use replacing::replace;
pub use rows::{InsertCode, InsertRow, Over, derive_insert};
