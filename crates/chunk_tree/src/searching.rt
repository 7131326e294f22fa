//! The way down a tree to an element's place.
ghost use Rattle.std.specs.Prelude.{◌<◌};
ghost use Rattle.node_arena.specs.declared.elements.TheConstants.{MOST_SPINE};
ghost use Rattle.node_arena.specs.Rules.{AreSound};
ghost use Rattle.node_arena.specs.Trees.{Trees};
ghost use Rattle.chunk_tree.specs.Descents.{Chunks, Finds};

use crate::ways::{next_on, way_of};
use node_arena::{Arena, Elem, NodeId, NodeKind, Side};

/// The node at which the way of the element ends, where it goes there, and how many nodes with two links are above that node. It takes one turn for
/// each node on the way.
pub(crate) fn find(
    kinds: &[NodeKind],
    arena: &Arena,
    node: NodeId,
    elem: &Elem,
) -> (NodeId, Option<Side>, u8)
    requires sound { AreSound kinds.now }
    requires tree { (t : Trees) × Chunks kinds.now arena.now node t }
    ensures finds { (t : Trees) → Chunks kinds.now arena.now node t → Finds kinds.now arena.now elem.now result.0 result.1 result.2 t }
    ensures few { result.2 < MOST_SPINE }
{
    let mut here = node;
    let mut above = 0;
    'along: loop {
        let way = way_of(kinds, arena, here, elem.at);
        match next_on(kinds, arena, here, way) {
            None => return (here, way, above),
            Some(next) => {
                here = next;
                above += 1;
            }
        }
    }
}
