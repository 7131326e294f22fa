//! Where a walk has come to, in nodes and in a flat run.
ghost use Rattle.std.specs.Prelude.{◌≡◌, ◌+◌, List, IsSome, IfSome, length, nat_lt, slice_get, if◌then◌else◌};
ghost use Rattle.node_arena.specs.declared.elements.Elem.{Elem};
ghost use Rattle.node_arena.specs.Arenas.{run_at};
ghost use Rattle.iter_gen.specs.Frames.{from, RunHas};

use node_arena::{Arena, Elem, NodeId, RunId};

/// How many places a path has: a spine of at most 96, and at most 32 woven nodes below one another.
pub(crate) const MOST_PLACES: usize = 128;

/// A place of a path: the element of a node with which the walk goes on there. It has 8 bytes.
#[derive(Clone, Copy, Debug, Default, PartialEq, Eq)]
pub struct NodeSpot {
    /// The node.
    pub(crate) node: NodeId,
    /// The place of the element in the node's run.
    pub(crate) place: u8,
    /// The place behind the last element that follows with no link between.
    pub(crate) stop: u8,
}

const _: () = prove!(size_of::<NodeSpot>() == 8);

/// The element of a flat run with which the walk goes on.
#[derive(Clone, Copy, Debug, PartialEq, Eq)]
pub struct RunSpot {
    /// The run.
    pub(crate) run: RunId,
    /// The place of the element; the run's length where none is left.
    pub(crate) place: usize,
    /// The run's length.
    pub(crate) len: usize,
}

impl RunSpot {
    /// The spot of a run's first element.
    pub(crate) fn first(arena: &Arena, run: RunId) -> RunSpot
        requires there { IsSome (run_at arena.now run) }
        ensures run { result.run ≡ run }
        ensures place { result.place ≡ 0 }
        ensures len { IfSome (run_at arena.now run) (λ r. result.len ≡ length r.elems) }
    {
        RunSpot {
            run,
            place: 0,
            len: arena.run_len(run),
        }
    }

    /// The element of the spot. None where none is left.
    pub(crate) fn elem(&self, arena: &Arena) -> Option<Elem>
        requires there { IsSome (run_at arena.now self.now.run) }
        ensures value { IfSome (run_at arena.now self.now.run) (λ r. result ≡ slice_get r.elems self.now.place) }
    {
        arena.run_elem(self.run, self.place)
    }

    /// The spot of the next element.
    pub(crate) fn next(&self) -> RunSpot
        ensures value { result ≡ record self.now { place = if nat_lt self.now.place self.now.len then self.now.place + 1 else self.now.place } }
    {
        if self.place < self.len {
            RunSpot {
                place: self.place + 1,
                ..*self
            }
        } else {
            *self
        }
    }

    /// The spot of the first element, from this one on, that isn't below a coordinate. A binary search, if it isn't this one.
    pub(crate) fn behind(&self, arena: &Arena, at: u32) -> RunSpot
        requires there { ∥ ((xs : List Elem) × RunHas arena.now self.now xs) ∥₁ }
        ensures has { (xs : List Elem) → RunHas arena.now self.now xs → RunHas arena.now result (from at xs) }
    {
        match arena.run_elem(self.run, self.place) {
            Some(elem) if elem.at < at => RunSpot {
                place: arena.run_place(self.run, at),
                ..*self
            },
            _ => *self,
        }
    }
}
