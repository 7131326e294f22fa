//! An element put into a tree of nodes with two links.
ghost use Rattle.std.specs.Prelude.{◌≡◌, ◌<◌, ◌≤◌, ◌+◌, ℕ, IsSomeAnd, IfSome, length};
ghost use Rattle.node_arena.specs.declared.kinds.Shape.TheVariants.{Ends};
ghost use Rattle.node_arena.specs.declared.elements.TheConstants.{MOST_SPINE};
ghost use Rattle.node_arena.specs.Arenas.{node_at};
ghost use Rattle.node_arena.specs.Insertions.{DifferInFew};
ghost use Rattle.node_arena.specs.Kinds.{kind_at, shape_at};
ghost use Rattle.node_arena.specs.Passing.{CanPutIn, Leaves};
ghost use Rattle.node_arena.specs.Rules.{AreSound, Serves};
ghost use Rattle.node_arena.specs.Trees.{Trees};
ghost use Rattle.chunk_tree.specs.Ways.{HasTwoLinks};
ghost use Rattle.chunk_tree.specs.Writes.{HasKindsRun, Spends, Hangs, GoesInside, GoesBeside};

use crate::kinds::{has_two_links, kind_on};
use crate::parting::{cut, wedge};
use crate::searching::find;
use dt_model::Steps;
use node_arena::{Arena, Elem, NodeId, NodeKind, Side, Step, copied, is_woven, kind_of, wedged};
use std::sync::ledger::Ledger;

/// Puts the element into the node's run. If the run is full, its upper part goes into a new node behind it, or is passed on.
fn settle<L: Ledger>(
    kinds: &[NodeKind],
    arena: &mut Arena,
    here: NodeId,
    above: u8,
    elem: Elem,
    steps: &mut Steps<L>,
) -> Step
    requires there { IsSomeAnd (node_at arena.old here) (HasKindsRun kinds.now arena.old) }
    requires spare { 0 < arena.old.nodes.spare }
    requires few { above < MOST_SPINE }
    ensures settles { IfSome (node_at arena.old here) (λ n. GoesInside kinds.now elem arena.old arena.new here n above result steps.old steps.new) }
{
    let hi = kind_of(kinds, arena.kind(here)).hi as usize;
    if arena.len(here) < hi {
        arena.insert(here, arena.place(here, elem.at), elem, None, steps);
        return Step::Done { deep: Some(0) };
    }
    let post = kind_on(kinds, arena.kind(here), Side::Post);
    if is_woven(kinds, post) {
        let elems = cut(kinds, arena, here, elem, steps);
        return Step::Pass {
            node: here,
            side: Side::Post,
            elems,
            above: above + 1,
        };
    }
    let behind = arena.link(here, 1).is_some();
    wedge(kinds, arena, here, elem, steps);
    wedged(kinds, post, behind, above + 1)
}

/// Hangs a new node with two links, and the element alone, at a side of a node where nothing is. Two ticks.
fn hang<L: Ledger>(
    kinds: &[NodeKind],
    arena: &mut Arena,
    here: NodeId,
    side: Side,
    elem: Elem,
    steps: &mut Steps<L>,
) -> NodeId
    requires there { IsSomeAnd (node_at arena.old here) (HasKindsRun kinds.now arena.old) }
    requires spare { 0 < arena.old.nodes.spare }
    ensures hangs { IfSome (node_at arena.old here) (λ n. Hangs kinds.now elem arena.old arena.new here n side result) }
    ensures spends { Spends arena.old arena.new 1 }
    ensures steps { steps.new ≡ steps.old + 2 }
{
    let kind = kind_on(kinds, arena.kind(here), side);
    let leaf = arena.make(kind, &[elem], &[None, None], steps);
    let links = match side {
        Side::Pre => [Some(leaf), arena.link(here, 1)],
        Side::Post => [arena.link(here, 0), Some(leaf)],
    };
    arena.set_links(here, &links, steps);
    leaf
}

/// Puts the element beside the node's run: into a new node, or it is passed on.
fn put_beside<L: Ledger>(
    kinds: &[NodeKind],
    arena: &mut Arena,
    here: NodeId,
    above: u8,
    side: Side,
    elem: Elem,
    steps: &mut Steps<L>,
) -> Step
    requires there { IsSomeAnd (node_at arena.old here) (HasKindsRun kinds.now arena.old) }
    requires spare { 0 < arena.old.nodes.spare }
    requires few { above < MOST_SPINE }
    ensures goes { IfSome (node_at arena.old here) (λ n. GoesBeside kinds.now elem arena.old arena.new here n side above result steps.old steps.new) }
{
    if has_two_links(kinds, kind_on(kinds, arena.kind(here), side)) {
        hang(kinds, arena, here, side, elem, steps);
        return Step::Done {
            deep: Some(above + 2),
        };
    }
    Step::Pass {
        node: here,
        side,
        elems: copied(&[elem]),
        above: above + 1,
    }
}

/// Puts the element into the tree whose root is the node. At most two nodes are written, and at most one is made; the root stays the root.
/// An element below the first one of a node's run, or above the last one, goes to that side where something hangs there, and also where the run is
/// full; where nothing hangs there then, it is alone in a new node. Else it goes into the run. If that is full, it keeps the lower half and the middle
/// one, and the upper part goes behind it.
/// Where the element's way leaves the nodes with two links, the answer is what has still to go into the structure there: the element alone, and
/// nothing was written; or the upper part of a run, which was taken out. The time is that of the way, at most `MOST_SPINE` nodes.
pub fn insert<L: Ledger>(
    kinds: &[NodeKind],
    node: NodeId,
    arena: &mut Arena,
    elem: Elem,
    steps: &mut Steps<L>,
) -> Step
    requires sound { AreSound kinds.now }
    requires serves { Serves kinds.now arena.old }
    requires tree { (t : Trees) × CanPutIn kinds.now arena.old elem node t }
    requires two_links { IsSomeAnd (node_at arena.old node) (λ n. HasTwoLinks (shape_at kinds.now n.kind)) }
    requires spare { 0 < arena.old.nodes.spare }
    ensures left { (t : Trees) → CanPutIn kinds.now arena.old elem node t → Leaves kinds.now arena.old arena.new elem t result steps.old steps.new }
    ensures few { DifferInFew 2 arena.old arena.new }
    ensures spare { arena.old.nodes.spare ≤ arena.new.nodes.spare + 1 }
    ensures steps { steps.new ≤ steps.old + 2 }
    ensures runs { arena.new.runs ≡ arena.old.runs }
    ensures most { arena.new.nodes.most ≡ arena.old.nodes.most }
    ensures places { arena.new.nodes.places ≡ arena.old.nodes.places }
{
    let (here, way, above) = find(kinds, arena, node, &elem);
    match way {
        None => settle(kinds, arena, here, above, elem, steps),
        Some(side) => put_beside(kinds, arena, here, above, side, elem, steps),
    }
}
