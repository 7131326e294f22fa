//! Nodes linked into a tree with few levels.
ghost use Rattle.std.specs.Prelude.{◌≡◌, ◌≤◌, ◌+◌, List, length};
ghost use Rattle.chunk_tree.specs.Balancing.{IsRelinked};
ghost use Rattle.chunk_tree.specs.Relinking.{Cell, IsLaid, IsLinked};

use dt_model::Steps;
use node_arena::{Arena, NodeId};
use std::sync::ledger::Ledger;

/// Links the nodes of these numbers into a tree, in their order: the middle one is the root, and so on on both sides. One tick for each node. It
/// calls itself as deep as the number of nodes has binary digits.
pub(crate) fn link_up<L: Ledger>(
    arena: &mut Arena,
    ids: &[NodeId],
    steps: &mut Steps<L>,
) -> Option<NodeId>
    requires laid { (cs : List Cell) × IsLaid arena.old ids.now cs }
    requires links { 1 ≤ arena.old.nodes.most }
    ensures linked { (cs : List Cell) → IsLaid arena.old ids.now cs → IsLinked arena.old arena.new cs result }
    ensures rest { IsRelinked arena.old arena.new }
    ensures steps { steps.new ≡ steps.old + length ids.now }
{
    if ids.is_empty() {
        return None;
    }
    let mid = ids.len() / 2;
    let pre = link_up(arena, &ids[..mid], steps);
    let post = link_up(arena, &ids[mid + 1..], steps);
    let root = ids[mid];
    arena.set_links(root, &[pre, post], steps);
    Some(root)
}
