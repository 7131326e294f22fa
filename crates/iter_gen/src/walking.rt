//! The steps of a walk through nodes.
ghost use Rattle.std.specs.Prelude.{◌≡◌, ◌≢◌, ◌≤◌, ◌<◌, ◌+◌, ◌-◌, ℕ, List, Option, Some, None, IsSome, IfSome, drop, length, nat_lt, slice_get};
ghost use Rattle.std.specs.Option.{IsSomeAnd};
ghost use Rattle.node_arena.specs.declared.elements.Elem.{Elem};
ghost use Rattle.node_arena.specs.declared.kinds.NodeKind.{NodeKind};
ghost use Rattle.node_arena.specs.Arenas.{ArenaState, node_at, place_in, coordinate_at};
ghost use Rattle.node_arena.specs.Conforming.{IsRising};
ghost use Rattle.node_arena.specs.Walks.{parts};
ghost use Rattle.iter_gen.specs.Acts.{HasAllLinks};
ghost use Rattle.iter_gen.specs.Behind.{behind, first_link, past_link, BeginsWithItems};
ghost use Rattle.iter_gen.specs.Frames.{from, PathHas, PathTakes, IsToEnter, IsToGoOn, GoesDownFrom, LeavesFor, link_read, CanGoOn, CanBeLeft, RisesTo};

use crate::descending::shape_of;
use crate::paths::{MOST_PLACES, NodeSpot};
use arrayvec::ArrayVec;
use node_arena::{Arena, Elem, NodeId, NodeKind, NodeView, Shape};

/// The link before the element at a place of a node, or behind the last one, if the node's walk has one there.
fn link_before(node: &NodeView<'_>, shape: Shape, place: usize) -> Option<NodeId>
    requires links { HasAllLinks shape node.now.run node.now.links }
    requires within { place ≤ length node.now.run }
    ensures value { result ≡ link_read (first_link (behind place (parts shape node.now.run node.now.links))) }
{
    match shape {
        Shape::Flat => None,
        Shape::Post(_) => {
            if place < node.len() {
                None
            } else {
                node.link(0)
            }
        }
        Shape::Ends { pre: _, post: _ } => {
            if place == 0 {
                node.link(0)
            } else if place < node.len() {
                None
            } else {
                node.link(1)
            }
        }
        Shape::Woven => node.link(place),
    }
}

/// The place behind the last element that follows one in a node with no link between.
fn stop_behind(node: &NodeView<'_>, shape: Shape, place: usize) -> usize
    requires links { HasAllLinks shape node.now.run node.now.links }
    requires within { place < length node.now.run }
    ensures behind { place < result }
    ensures within { result ≤ length node.now.run }
    ensures straight { BeginsWithItems (result - place) (past_link (behind place (parts shape node.now.run node.now.links))) }
{
    match shape {
        Shape::Woven => {
            if node.link_count() == 0 {
                node.len()
            } else {
                place + 1
            }
        }
        _ => node.len(),
    }
}

/// Puts the spot at a place of a node on the path, if there is an element. Answers the child that is walked before.
fn go_on(
    kinds: &[NodeKind],
    path: &mut ArrayVec<NodeSpot, MOST_PLACES>,
    id: NodeId,
    node: &NodeView<'_>,
    place: usize,
) -> Option<NodeId>
    requires there { (a : ArenaState) × (node_at a id ≡ Some node.now) × CanGoOn kinds.now a path.old.items id place }
    ensures down { (a : ArenaState) → node_at a id ≡ Some node.now → GoesDownFrom kinds.now a path.old.items id place path.new.items result }
    ensures longer { place < length node.now.run → length path.new.items ≡ length path.old.items + 1 }
    ensures same { length node.now.run ≤ place → path.new.items ≡ path.old.items }
    ensures rises { (a : ArenaState) → node_at a id ≡ Some node.now → CanGoOn kinds.now a path.old.items id place → length node.now.run ≤ place → RisesTo a id result }
{
    let shape = shape_of(kinds, node.kind());
    let link = link_before(node, shape, place);
    if place < node.len() {
        let stop = stop_behind(node, shape, place);
        path.push(NodeSpot {
            node: id,
            place: place as u8,
            stop: stop as u8,
        });
    }
    link
}

/// How many elements of a node are below a coordinate.
fn place_from(node: &NodeView<'_>, at: u32) -> usize
    requires some { 1 ≤ length node.now.run }
    requires rising { IsRising node.now.run }
    ensures value { result ≡ place_in at node.now.run }
{
    let len = node.len();
    if let Some(last) = node.coordinate(len - 1) {
        if last < at {
            return len;
        }
    }
    node.place(at)
}

/// Goes down from the beginning of a node to the first element that isn't below a coordinate, and puts the spots on the path. It looks at each
/// node once.
pub(crate) fn sink(
    kinds: &[NodeKind],
    arena: &Arena,
    path: &mut ArrayVec<NodeSpot, MOST_PLACES>,
    top: NodeId,
    at: u32,
)
    requires there { ∥ ((xs : List Elem) × IsToEnter kinds.now arena.now path.old.items top at xs) ∥₁ }
    ensures left { (xs : List Elem) → IsToEnter kinds.now arena.now path.old.items top at xs → PathHas kinds.now arena.now path.new.items xs }
{
    let mut id = top;
    loop {
        let node = arena.view(id);
        let place = place_from(&node, at);
        match go_on(kinds, path, id, &node, place) {
            None => return,
            Some(child) => id = child,
        }
    }
}

/// Goes on in a node of which so many elements are passed, to the next element of the walk.
#[inline(never)]
fn pass(
    kinds: &[NodeKind],
    arena: &Arena,
    path: &mut ArrayVec<NodeSpot, MOST_PLACES>,
    id: NodeId,
    place: usize,
)
    requires there { ∥ ((xs : List Elem) × IsToGoOn kinds.now arena.now path.old.items id place 0 xs) ∥₁ }
    ensures left { (xs : List Elem) → IsToGoOn kinds.now arena.now path.old.items id place 0 xs → PathHas kinds.now arena.now path.new.items xs }
{
    let node = arena.view(id);
    if let Some(child) = go_on(kinds, path, id, &node, place) {
        sink(kinds, arena, path, child, 0);
    }
}

/// Takes the first element that a path has left. None where there is none. Within a run it looks at one node, and is short: callers take it in.
#[inline(always)]
pub(crate) fn step(
    kinds: &[NodeKind],
    arena: &Arena,
    path: &mut ArrayVec<NodeSpot, MOST_PLACES>,
) -> Option<Elem>
    requires there { ∥ ((xs : List Elem) × PathHas kinds.now arena.now path.old.items xs) ∥₁ }
    ensures next { (xs : List Elem) → PathHas kinds.now arena.now path.old.items xs → PathTakes kinds.now arena.now path.new.items result xs }
{
    match path.pop() {
        None => None,
        Some(spot) => {
            let node = arena.view(spot.node);
            let elem = node.elem(spot.place as usize);
            let place = spot.place + 1;
            if place < spot.stop {
                path.push(NodeSpot { place, ..spot });
            } else {
                pass(kinds, arena, path, spot.node, place as usize);
            }
            elem
        }
    }
}

/// The coordinate of the first element that a path has left.
fn coming(arena: &Arena, path: &ArrayVec<NodeSpot, MOST_PLACES>) -> Option<u32>
    requires there { ∥ ((s : List NodeKind) × (xs : List Elem) × PathHas s arena.now path.now.items xs) ∥₁ }
    ensures value { (s : List NodeKind) (xs : List Elem) → PathHas s arena.now path.now.items xs → result ≡ coordinate_at xs 0 }
{
    match path.last() {
        None => None,
        Some(spot) => arena.coordinate(spot.node, spot.place as usize),
    }
}

/// Leaves nodes whose elements are all below a coordinate. Answers the node in which to search, if the first element is below.
fn leave(arena: &Arena, path: &mut ArrayVec<NodeSpot, MOST_PLACES>, at: u32) -> Option<NodeId>
    requires there { CanBeLeft arena.now path.old.items }
    ensures down { LeavesFor arena.now path.old.items at path.new.items result }
{
    loop {
        match coming(arena, path) {
            Some(first) if first < at => {}
            _ => return None,
        }
        match path.pop() {
            None => return None,
            Some(spot) => match coming(arena, path) {
                Some(next) if next <= at => {}
                _ => return Some(spot.node),
            },
        }
    }
}

/// Drops the elements left that are below a coordinate.
pub(crate) fn skip(
    kinds: &[NodeKind],
    arena: &Arena,
    path: &mut ArrayVec<NodeSpot, MOST_PLACES>,
    at: u32,
)
    requires there { ∥ ((xs : List Elem) × PathHas kinds.now arena.now path.old.items xs × IsRising xs) ∥₁ }
    ensures left { (xs : List Elem) → PathHas kinds.now arena.now path.old.items xs → IsRising xs → PathHas kinds.now arena.now path.new.items (from at xs) }
{
    if let Some(node) = leave(arena, path, at) {
        sink(kinds, arena, path, node, at);
    }
}
