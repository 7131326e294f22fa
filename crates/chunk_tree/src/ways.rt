//! The way of an element at a node.
ghost use Rattle.std.specs.Prelude.{◌≡◌, IsSome, IfSome, None};
ghost use Rattle.node_arena.specs.Arenas.{node_at};
ghost use Rattle.node_arena.specs.Kinds.{kind_at, shape_at};
ghost use Rattle.chunk_tree.specs.Ways.{first_of, last_of, place_of, link_in, Takes, next_on};

use crate::kinds::{has_two_links, kind_on};
use node_arena::{Arena, NodeId, NodeKind, Side, kind_of};

/// The coordinate of a node's first element; 0 where it has none.
fn first_at(arena: &Arena, here: NodeId) -> u32
    requires there { IsSome (node_at arena.now here) }
    ensures value { IfSome (node_at arena.now here) (λ n. result ≡ first_of n.run) }
{
    arena.coordinate(here, 0).unwrap_or(0)
}

/// The coordinate of a node's last element; 0 where it has none.
fn last_at(arena: &Arena, here: NodeId) -> u32
    requires there { IsSome (node_at arena.now here) }
    ensures value { IfSome (node_at arena.now here) (λ n. result ≡ last_of n.run) }
{
    arena
        .coordinate(here, arena.len(here).saturating_sub(1))
        .unwrap_or(0)
}

/// The side to which an element with this coordinate goes; none where it goes into the run.
pub(crate) fn way_of(kinds: &[NodeKind], arena: &Arena, here: NodeId, at: u32) -> Option<Side>
    requires there { IsSome (node_at arena.now here) }
    ensures way { IfSome (node_at arena.now here) (λ n. Takes (kind_at kinds.now n.kind).hi at n result) }
{
    let full = arena.len(here) >= kind_of(kinds, arena.kind(here)).hi as usize;
    if at < first_at(arena, here) && (full || arena.link(here, 0).is_some()) {
        return Some(Side::Pre);
    }
    if at > last_at(arena, here) && (full || arena.link(here, 1).is_some()) {
        return Some(Side::Post);
    }
    None
}

/// The link of a node at a side.
pub(crate) fn link_on(arena: &Arena, here: NodeId, side: Side) -> Option<NodeId>
    requires there { IsSome (node_at arena.now here) }
    ensures value { IfSome (node_at arena.now here) (λ n. result ≡ link_in n (place_of side)) }
{
    match side {
        Side::Pre => arena.link(here, 0),
        Side::Post => arena.link(here, 1),
    }
}

/// The node with two links to which the way leads, if there is one.
pub(crate) fn next_on(
    kinds: &[NodeKind],
    arena: &Arena,
    here: NodeId,
    way: Option<Side>,
) -> Option<NodeId>
    requires there { IsSome (node_at arena.now here) }
    ensures value { IfSome (node_at arena.now here) (λ n. result ≡ next_on kinds.now n way) }
{
    match way {
        None => None,
        Some(side) => {
            if has_two_links(kinds, kind_on(kinds, arena.kind(here), side)) {
                link_on(arena, here, side)
            } else {
                None
            }
        }
    }
}
