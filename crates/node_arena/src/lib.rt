//! Nodes and runs under numbers: a call changes one, and all others stay.
//!
//! An `Arena` has the nodes and the flat runs of one mode. `Arena::make`, `put`, `insert`, `remove`, `replace`, `cut` and `set_links`
//! write one node each, `make_run`, `run_insert`, `run_remove` and `run_replace` one run. What they need is taken before, by `reserve`,
//! `reserve_runs` and `grow_run`, so none of them takes memory. `Arena::view` gives a node to be read. `kinds_of` gives a schema's kinds with
//! their links by number, and `Arena::for_kinds` an arena whose nodes have places for their longest run.
//! Clauses see a `NodeId` or a `RunId` as its number, and an arena as lists of slots by number, with `spare`, `most`, `room` and `places`.
//! Read `specs/Arenas.antt` first, then `Trees`, `Walks`, `Conforming`, `Structures`, `Insertions` and `Modes`.
//! Numbers, kinds, places and coordinates count from 0. A node has at most `most` elements, 2, 4, 8 or 16, and one link more. A tick is
//! the write of a node.
//! Not here: which nodes a schema wants (`specs/Conforming.antt` says which it allows), walks, and insertion into whole structures
//! (`specs/Insertions.antt` and `Passing` say what that is).
#![tactic(auto)]

mod arena;
mod binary_digits;
mod depths;
mod elements;
mod flat_runs;
mod flat_slabs;
mod kinds;
mod node_links;
mod node_runs;
mod node_slabs;
mod node_views;
mod numbers;
mod packing;
mod parting;
mod searching;
mod sized;
mod stores;
#[cfg(test)]
mod tests;

pub use arena::Arena;
pub use binary_digits::digits;
pub use depths::wedged;
pub use elements::{Elem, Held, MOST_PASSED, MOST_SPINE, Side, Step, Structure, Top};
pub use kinds::{NodeKind, Shape, is_woven, kind_of, kinds_of, longest_of, root_of};
pub use node_views::NodeView;
pub use numbers::{NodeId, RunId};
pub use parting::{MOST_TO_PART, copied};
pub use sized::MOST_ELEMENTS;
