//! Insertion at a link.
ghost use Rattle.std.specs.Prelude.{◌≡◌, ◌+◌, ◌<◌, ◌≤◌, ◌^◌, ℕ, length};
ghost use Rattle.node_arena.specs.declared.kinds.Shape.TheVariants.{Woven};
ghost use Rattle.node_arena.specs.Kinds.{shape_at};
ghost use Rattle.node_arena.specs.Trees.{Trees};
ghost use Rattle.node_arena.specs.Walks.{walk};
ghost use Rattle.node_arena.specs.Rules.{AreSound, Serves};
ghost use Rattle.btree_nodes.specs.Links.{CanPutAt, HasSpareFor, PutsUnder, WritesFewAt};

use crate::descent::descend;
use dt_model::Steps;
use node_arena::{Arena, Elem, NodeId, NodeKind};
use std::sync::ledger::Ledger;

/// The greatest number of levels: a structure has fewer than 2^32 elements.
const MOST_LEVELS: u32 = 32;

/// Puts an element into what hangs at a link of the woven kind with this number, and answers where the link leads from then on: to the old
/// root, or to a new one. Where the link was empty, a first node is made. The link itself isn't written. It takes no memory. Of the spare
/// nodes it takes one for each node that is split, and one for a new root.
pub fn insert_below<L: Ledger>(
    kinds: &[NodeKind],
    kind: u32,
    root: Option<NodeId>,
    arena: &mut Arena,
    elem: Elem,
    steps: &mut Steps<L>,
) -> NodeId
    requires sound { AreSound kinds.now }
    requires woven { shape_at kinds.now kind ≡ Woven }
    requires serves { Serves kinds.now arena.old }
    requires tree { (t : Trees) × CanPutAt kinds.now kind arena.old elem root t × HasSpareFor (length (walk kinds.now t)) arena.old.nodes.spare }
    ensures puts { (t : Trees) → CanPutAt kinds.now kind arena.old elem root t → PutsUnder kinds.now kind arena.old arena.new elem t result }
    ensures steps { (t : Trees) → CanPutAt kinds.now kind arena.old elem root t → WritesFewAt kinds.now arena.old arena.new t steps.old steps.new }
    ensures spare { (t : Trees) → CanPutAt kinds.now kind arena.old elem root t → (d : ℕ) → length (walk kinds.now t) + 1 < 2 ^ d
        → arena.old.nodes.spare ≤ arena.new.nodes.spare + d }
    ensures runs { arena.new.runs ≡ arena.old.runs }
    ensures most { arena.new.nodes.most ≡ arena.old.nodes.most }
    ensures places { arena.new.nodes.places ≡ arena.old.nodes.places }
{
    match root {
        None => arena.make(kind, &[elem], &[], steps),
        Some(node) => match descend(kinds, kind, arena, node, elem, MOST_LEVELS, steps) {
            None => node,
            Some((up, right)) => arena.make(kind, &[up], &[Some(node), Some(right)], steps),
        },
    }
}
