//! One step of a search for a coordinate: from a node to the link that leads on to it.
ghost use Rattle.std.specs.Prelude.{◌≡◌, ◌<◌, ◌≤◌, ◌-◌, Some, length};
ghost use Rattle.node_arena.specs.Arenas.{coordinate_at};
ghost use Rattle.node_arena.specs.Kinds.{shape_at};
ghost use Rattle.node_arena.specs.Rules.{AreSound};
ghost use Rattle.node_arena.specs.Trees.{Trees};
ghost use Rattle.iter_gen.specs.Searching.{link_before, link_behind, Searches, Turns};

use node_arena::{Arena, NodeId, NodeKind, NodeView, Shape, kind_of};

/// What a search does at a node.
#[derive(Clone, Copy, Debug)]
pub(crate) enum Turn {
    /// The element is in the node, at this place.
    Here(usize),
    /// The structure has no such element.
    Nowhere,
    /// The element can only be at this node or below it, among coordinates from `low` on and below `end`.
    Down { node: NodeId, low: u64, end: u64 },
}

/// The links of the nodes of a kind.
pub(crate) fn shape_of(kinds: &[NodeKind], kind: u32) -> Shape
    ensures value { result ≡ shape_at kinds.now kind }
{
    kind_of(kinds, kind).shape
}

/// The coordinate of a node's element at a place.
pub(crate) fn coordinate(node: &NodeView<'_>, place: usize) -> u32
    requires there { place < length node.now.run }
    ensures value { coordinate_at node.now.run place ≡ Some result }
{
    match node.coordinate(place) {
        Some(at) => at,
        None => unreachable!(),
    }
}

/// The node that hangs behind the run of a node, whose elements are all behind the run's.
pub(crate) fn behind(kinds: &[NodeKind], node: &NodeView<'_>) -> Option<NodeId>
    ensures value { result ≡ link_behind (shape_at kinds.now node.now.kind) (length node.now.run) node.now.links }
{
    match shape_of(kinds, node.kind()) {
        Shape::Flat => None,
        Shape::Post(_) => node.link(0),
        Shape::Ends { .. } => node.link(1),
        Shape::Woven => node.link(node.len()),
    }
}

/// The node that hangs right before the element at a place of a node.
fn before(kinds: &[NodeKind], node: &NodeView<'_>, place: usize) -> Option<NodeId>
    ensures value { result ≡ link_before (shape_at kinds.now node.now.kind) place node.now.links }
{
    match shape_of(kinds, node.kind()) {
        Shape::Flat => None,
        Shape::Post(_) => None,
        Shape::Ends { .. } => { if place == 0 { node.link(0) } else { None } }
        Shape::Woven => node.link(place),
    }
}

/// Looks at a node, whose coordinates and those below it are from `low` on and below `end`; where `end` is 2^32, they may be any from `low`
/// on. It looks at the last element of the run first, so a run whose elements are all below `at` is passed at once.
pub(crate) fn take_turn(
    kinds: &[NodeKind],
    arena: &Arena,
    here: NodeId,
    low: u64,
    end: u64,
    at: u32,
) -> Turn
    requires sound { AreSound kinds.now }
    requires searches { (t : Trees) × Searches kinds.now arena.now here low end t }
    ensures turns { (t : Trees) → Searches kinds.now arena.now here low end t → Turns kinds.now arena.now at here low end t result }
{
    let node = arena.view(here);
    let last = coordinate(&node, node.len() - 1);
    if last < at {
        match behind(kinds, &node) {
            None => Turn::Nowhere,
            Some(node) => Turn::Down {
                node,
                low: last as u64 + 1,
                end,
            },
        }
    } else {
        let place = node.place(at);
        let next = coordinate(&node, place);
        if next == at {
            return Turn::Here(place);
        }
        match before(kinds, &node, place) {
            None => Turn::Nowhere,
            Some(node) => Turn::Down {
                node,
                low,
                end: next as u64,
            },
        }
    }
}
