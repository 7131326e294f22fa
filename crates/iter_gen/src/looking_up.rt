//! The element with a coordinate, found by descent from the top.
ghost use Rattle.std.specs.Prelude.{◌≡◌, IsSome, IsSomeAnd, IfSome};
ghost use Rattle.node_arena.specs.Rules.{AreSound};
ghost use Rattle.node_arena.specs.Structures.{Tree, IsStanding, walk_of};
ghost use Rattle.node_arena.specs.Arenas.{run_at};
ghost use Rattle.node_arena.specs.Conforming.{IsRising};
ghost use Rattle.node_arena.specs.Trees.{Trees};
ghost use Rattle.iter_gen.specs.LookingUp.{CanBeRead, elem_with, elem_at, IsFound};
ghost use Rattle.iter_gen.specs.Searching.{Searches, HasRoot, IsFoundIn, IsFoundOf};

use crate::descending::{Turn, take_turn};
use node_arena::{Arena, Elem, NodeId, NodeKind, RunId, Structure, Top};

/// Where an element is: in a node or in a flat run, with its place in the run, from 0.
#[derive(Clone, Copy, Debug, PartialEq, Eq)]
pub enum Spot {
    /// A node, and the place in its run.
    Node { node: NodeId, place: usize },
    /// A flat run, and the place in it.
    Run { run: RunId, place: usize },
}

/// The spot of the element with this coordinate, at or below a node.
fn find_below(kinds: &[NodeKind], arena: &Arena, root: NodeId, at: u32) -> Option<Spot>
    requires sound { AreSound kinds.now }
    requires searches { (t : Trees) × Searches kinds.now arena.now root 0 4294967296 t }
    ensures found { (t : Trees) → HasRoot arena.now root t → IsFoundIn kinds.now arena.now at t result }
{
    let mut here = root;
    let mut low = 0;
    let mut end = 1 << 32;
    'down: loop {
        match take_turn(kinds, arena, here, low, end, at) {
            Turn::Here(place) => return Some(Spot::Node { node: here, place }),
            Turn::Nowhere => return None,
            Turn::Down {
                node,
                low: from,
                end: to,
            } => {
                here = node;
                low = from;
                end = to;
            }
        }
    }
}

/// The spot of the element with this coordinate in a flat run.
fn find_in_run(arena: &Arena, run: RunId, at: u32) -> Option<Spot>
    requires rising { IsSomeAnd (run_at arena.now run) (λ r. IsRising r.elems) }
    ensures found { IfSome (run_at arena.now run) (λ r. IsFoundOf at run r.elems result) }
{
    let place = arena.run_place(run, at);
    match arena.run_elem(run, place) {
        None => None,
        Some(elem) => {
            if elem.at == at {
                Some(Spot::Run { run, place })
            } else {
                None
            }
        }
    }
}

/// Where the element with this coordinate is; None exactly where the structure has none. A chain is passed run by run, by each run's last
/// coordinate; in a woven structure and a tree of chunks the search looks at no more nodes than lie below one another.
pub fn find(kinds: &[NodeKind], arena: &Arena, structure: &Structure, at: u32) -> Option<Spot>
    requires sound { AreSound kinds.now }
    requires conforms { CanBeRead kinds.now arena.now structure.now }
    ensures found { (t : Tree) → IsStanding kinds.now arena.now structure.now t → IsFound kinds.now arena.now at t result }
{
    let top = structure.top;
    match top {
        Top::Empty => None,
        Top::Node(root) => find_below(kinds, arena, root, at),
        Top::Run(run) => find_in_run(arena, run, at),
    }
}

/// The element at a spot.
fn read(arena: &Arena, spot: Spot) -> Option<Elem>
    requires there { IsSome (elem_at arena.now spot) }
    ensures value { result ≡ elem_at arena.now spot }
{
    match spot {
        Spot::Node { node, place } => arena.elem(node, place),
        Spot::Run { run, place } => arena.run_elem(run, place),
    }
}

/// The element with this coordinate; None exactly where the structure has none. It takes the time of `find`.
pub fn look_up(kinds: &[NodeKind], arena: &Arena, structure: &Structure, at: u32) -> Option<Elem>
    requires sound { AreSound kinds.now }
    requires conforms { CanBeRead kinds.now arena.now structure.now }
    ensures value { (t : Tree) → IsStanding kinds.now arena.now structure.now t → result ≡ elem_with at (walk_of kinds.now t) }
{
    match find(kinds, arena, structure, at) {
        None => None,
        Some(spot) => read(arena, spot),
    }
}
