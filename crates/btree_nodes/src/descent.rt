//! The way down to a childless node, and up again.
ghost use Rattle.std.specs.Prelude.{◌≡◌, ◌+◌, ◌*◌, ◌≤◌, ℕ};
ghost use Rattle.node_arena.specs.Trees.{Trees};
ghost use Rattle.node_arena.specs.Conforming.{height};
ghost use Rattle.btree_nodes.specs.Weaving.{IsWovenTree};
ghost use Rattle.btree_nodes.specs.Descents.{Grows};

use crate::splitting::put_at;
use dt_model::Steps;
use node_arena::{Arena, Elem, NodeId, NodeKind};
use std::sync::ledger::Ledger;

/// Puts an element into the tree whose root is this node, and whose kind has this number. Where the root is split, the element between
/// its two halves is handed out, with the upper half. It calls itself at most `levels` times.
pub(crate) fn descend<L: Ledger>(
    kinds: &[NodeKind],
    kind: u32,
    arena: &mut Arena,
    node: NodeId,
    elem: Elem,
    levels: u32,
    steps: &mut Steps<L>,
) -> Option<(Elem, NodeId)>
    requires tree { (t : Trees) × IsWovenTree kinds.now kind arena.old node levels t }
    ensures grows { (t : Trees) → IsWovenTree kinds.now kind arena.old node levels t → Grows kinds.now kind arena.old arena.new elem t result }
    ensures spare { (t : Trees) → IsWovenTree kinds.now kind arena.old node levels t → arena.old.nodes.spare ≤ arena.new.nodes.spare + height kinds.now t }
    ensures steps { (t : Trees) → IsWovenTree kinds.now kind arena.old node levels t → steps.new ≤ steps.old + 2 * height kinds.now t }
    ensures most { arena.new.nodes.most ≡ arena.old.nodes.most }
    ensures places { arena.new.nodes.places ≡ arena.old.nodes.places }
    ensures runs { arena.new.runs ≡ arena.old.runs }
{
    let place = arena.place(node, elem.at);
    match arena.link(node, place) {
        None => put_at(kinds, kind, arena, node, place, elem, None, steps),
        Some(child) => match descend(kinds, kind, arena, child, elem, levels - 1, steps) {
            None => None,
            Some((up, right)) => put_at(kinds, kind, arena, node, place, up, Some(right), steps),
        },
    }
}
