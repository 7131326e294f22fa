//! Elements, the structures that they hold, and what an insertion passes on.
ghost use Rattle.std.specs.Prelude.{◌≡◌};
ghost use Rattle.node_arena.specs.declared.elements.Held.TheVariants.{Number};

use crate::numbers::{NodeId, RunId};
use arrayvec::ArrayVec;

/// The greatest spine of a structure.
pub const MOST_SPINE: u8 = 96;

/// As many elements as go on at once: the upper half of a full run with one more.
pub const MOST_PASSED: usize = 8;

/// What a structure begins with: nothing, its root, or its flat run.
#[derive(Clone, Copy, Debug, PartialEq, Eq)]
pub enum Top {
    /// The structure is empty.
    Empty,
    /// The number of the root.
    Node(NodeId),
    /// The number of the run.
    Run(RunId),
}

/// A structure of one mode: its top, how many elements it has, and a bound of its spine, at most `MOST_SPINE`.
#[derive(Clone, Copy, Debug, PartialEq, Eq)]
pub struct Structure {
    /// Where it begins.
    pub top: Top,
    /// How many elements of its own mode it has.
    pub len: u32,
    /// At least how many nodes with two links lie below one another.
    pub spine: u8,
}

/// What an element holds.
#[derive(Clone, Copy, Debug, PartialEq, Eq)]
pub enum Held {
    /// The number of a cell, in the last mode.
    Number(u64),
    /// A structure of the next mode.
    Inner(Structure),
}

/// An element: a coordinate, and what is held there. Nodes and runs keep it packed, in 16 bytes.
#[derive(Clone, Copy, Debug, PartialEq, Eq)]
pub struct Elem {
    /// The coordinate, from 0.
    pub at: u32,
    /// What is held there.
    pub held: Held,
}

impl Default for Elem {
    /// A placeholder, which fills the unused places of an `ArrayVec` of elements.
    fn default() -> Elem
        ensures value { result ≡ record { at = 0; held = Number 0 } }
    {
        Elem {
            at: 0,
            held: Held::Number(0),
        }
    }
}

/// One of the two sides of a node's run.
#[derive(Clone, Copy, Debug, PartialEq, Eq)]
pub enum Side {
    /// Before the run.
    Pre,
    /// Behind the run.
    Post,
}

/// What is left to do after an insertion into nodes of one discipline.
#[derive(Debug, Drop)]
pub enum Step {
    /// The element is put in.
    Done {
        /// How many nodes with two links there are from the root to the new node, both included; 0 if the spine stays. The spine is the greater
        /// one of what it was and this depth. None where the new node pushed others down: the spine grew by at most 1.
        deep: Option<u8>,
    },
    /// These elements have still to go into the structure at this side of this node.
    Pass {
        /// The node.
        node: NodeId,
        /// The side of its run.
        side: Side,
        /// The elements, in ascending order.
        elems: ArrayVec<Elem, MOST_PASSED>,
        /// How many nodes with two links there are from the root to the node, both included: the depth at that side adds to them.
        above: u8,
    },
}
