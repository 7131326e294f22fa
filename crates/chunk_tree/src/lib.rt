//! Trees of nodes with two links: an element put in, and a tree made shallow.
//!
//! `insert` puts an element into the tree that begins at a node, or passes elements on to a structure of another discipline that hangs in it.
//! `rebalance` makes a structure shallow: nodes of a single kind are linked anew, and other structures are built anew where the spine that is kept
//! isn't low; of a flat or a woven one only the kept spine changes.
//! Clauses see trees as `node_arena` has them. Read its `specs/Passing.antt` first, then `specs/Balancing.antt`.
//! A node's first link leads to what comes before its run, its second to what comes behind. An insertion writes at most two nodes. The way to
//! a place is a loop of at most `MOST_SPINE` turns.
//! Not here: how an element goes into structures of other disciplines.
#![tactic(auto)]

#[cfg(test)]
mod checking;
mod collecting;
mod gathering;
mod inserting;
mod kinds;
mod linking;
#[cfg(test)]
mod mixed_tests;
mod numbering;
mod parting;
mod rebalancing;
mod searching;
#[cfg(test)]
mod tests;
mod ways;

pub use inserting::insert;
pub use rebalancing::rebalance;
