//! Walkers derived from a schema: next and seek give the walk.
//!
//! `derive_walk` gives the code of a schema's walks. `Walker::open` begins a walk through a structure, `next` takes its first element,
//! and `seek` first drops those below a coordinate. `look_up` finds one element, and `fold` hands each one to a `Visitor`.
//! Clauses see a `WalkCode` as its schema, and a walker as a path of places with the elements left. Read `specs/Walkers.antt` first.
//! Kinds, places and coordinates count from 0. A path has at most 128 places. A tick is a call of `next` or `seek`.
//! Not here: which structures a schema allows (`node_arena`), and structures inside elements.
#![tactic(auto)]

mod codes;
mod descending;
mod folding;
mod looking_up;
mod paths;
#[cfg(test)]
mod tests;
#[cfg(test)]
mod thin;
#[cfg(test)]
mod thin_tests;
mod visitors;
mod walker;
mod walking;

pub use codes::{Act, WalkCode, derive_walk};
pub use folding::fold;
pub use looking_up::{Spot, find, look_up};
pub use visitors::Visitor;
pub use walker::Walker;
