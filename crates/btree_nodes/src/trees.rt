//! Insertion into a whole structure.
ghost use Rattle.std.specs.Prelude.{◌≡◌, ◌+◌, ◌<◌, ◌≤◌, ◌^◌, ℕ};
ghost use Rattle.node_arena.specs.declared.kinds.Shape.TheVariants.{Woven};
ghost use Rattle.node_arena.specs.Kinds.{shape_at};
ghost use Rattle.node_arena.specs.Structures.{Tree, walk_of, IsStanding, IsConforming};
ghost use Rattle.node_arena.specs.Rules.{AreSound, Serves};
ghost use Rattle.node_arena.specs.Insertions.{Lacks, IsPutIn};
ghost use Rattle.btree_nodes.specs.Weaving.{root_in, with_root};
ghost use Rattle.btree_nodes.specs.Writes.{WritesFew};

use crate::links::insert_below;
use dt_model::Steps;
use node_arena::{Arena, Elem, NodeId, NodeKind, Structure, Top};
use std::sync::ledger::Ledger;

/// The number of the root, if there is one.
pub(crate) fn root_of(top: &Top) -> Option<NodeId>
    ensures value { result ≡ root_in top.now }
{
    match top {
        Top::Node(node) => Some(*node),
        Top::Empty | Top::Run(_) => None,
    }
}

/// The structure of one element more, with this root.
fn with_root(root: NodeId, old: &Structure) -> Structure
    requires few { old.now.len < 4294967295 }
    ensures value { result ≡ with_root root old.now }
{
    Structure {
        top: Top::Node(root),
        len: old.len + 1,
        spine: old.spine,
    }
}

/// Puts an element into a structure of the woven kind with this number. It takes no memory. Of the spare nodes it takes one for each node
/// that is split, and one for a new root. At most 2h + 1 ticks, h being the old height.
pub fn insert<L: Ledger>(
    kinds: &[NodeKind],
    kind: u32,
    top: Structure,
    arena: &mut Arena,
    elem: Elem,
    steps: &mut Steps<L>,
) -> Structure
    requires sound { AreSound kinds.now }
    requires woven { shape_at kinds.now kind ≡ Woven }
    requires serves { Serves kinds.now arena.old }
    requires tree { (t : Tree) × IsStanding kinds.now arena.old top t × IsConforming kinds.now kind top t × Lacks elem.at (walk_of kinds.now t) }
    requires few { top.len < 4294967295 }
    requires spare { (d : ℕ) × (top.len + 1 < 2 ^ d) × (d ≤ arena.old.nodes.spare) }
    ensures walk { (t : Tree) → IsStanding kinds.now arena.old top t → IsPutIn kinds.now kind arena.old arena.new elem t result }
    ensures steps { (t : Tree) → IsStanding kinds.now arena.old top t → WritesFew kinds.now arena.old arena.new t top.len steps.old steps.new }
    ensures spare { (d : ℕ) → top.len + 1 < 2 ^ d → arena.old.nodes.spare ≤ arena.new.nodes.spare + d }
    ensures runs { arena.new.runs ≡ arena.old.runs }
    ensures most { arena.new.nodes.most ≡ arena.old.nodes.most }
    ensures places { arena.new.nodes.places ≡ arena.old.nodes.places }
    ensures len { result.len ≡ top.len + 1 }
    ensures spine { result.spine ≡ top.spine }
{
    let root = insert_below(kinds, kind, root_of(&top.top), arena, elem, steps);
    with_root(root, &top)
}
