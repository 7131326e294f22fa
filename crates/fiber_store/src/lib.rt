//! The cells of one fiber, with what a batch is about to change in them.
//!
//! `FiberStore::open` makes the store of a fiber. `prepare` keeps the updates of its cells, with the
//! room that they take; `apply` makes the first of them, and cannot fail. `get` reads a cell, and
//! `pairs` lists the nonzeros. A store is a `Keep`, so a latch may guard it.
//! Clauses see a store as a `StoreState`. Read `store_content` and `IsSound` in `specs/Stores.antt`
//! first.
//! Tensors, fibers, latches and coordinates are counted from 0; values are taken modulo 2^64.
//! Not here: latches (`fiber_latch`), and when a batch is committed (`sessions`).
#![tactic(auto)]

mod cells;
mod fibers;
mod parts;
mod stores;
#[cfg(test)]
mod tests;

pub use stores::FiberStore;
