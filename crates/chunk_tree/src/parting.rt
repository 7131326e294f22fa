//! An element put into a run, which is parted where it has no room.
ghost use Rattle.std.specs.Prelude.{◌≡◌, ◌<◌, ◌≤◌, ◌+◌, ◌/◌, IsSomeAnd, IfSome, length};
ghost use Rattle.node_arena.specs.Arenas.{node_at};
ghost use Rattle.node_arena.specs.Kinds.{kind_at, shape_at};
ghost use Rattle.chunk_tree.specs.Writes.{HasKindsRun, Spends, IsParted, links_before, Wedges, Cuts};

use crate::kinds::kind_on;
use arrayvec::ArrayVec;
use dt_model::Steps;
use node_arena::{Arena, Elem, MOST_PASSED, NodeId, NodeKind, Shape, Side, copied, kind_of};
use std::sync::ledger::Ledger;

/// The links of a new node of a kind, before an old structure.
fn links_before(kinds: &[NodeKind], kind: u32, link: Option<NodeId>) -> ArrayVec<Option<NodeId>, 2>
    ensures value { result.items ≡ links_before (shape_at kinds.now kind) link }
{
    let mut links = ArrayVec::new();
    if let Shape::Ends { pre, post } = kind_of(kinds, kind).shape {
        links.push(None);
    }
    links.push(link);
    links
}

/// How many elements a node keeps of a full run and one more: the lower half, with the middle one.
fn kept(kinds: &[NodeKind], kind: u32) -> usize
    ensures value { result ≡ (kind_at kinds.now kind).hi / 2 + 1 }
{
    kind_of(kinds, kind).hi as usize / 2 + 1
}

/// The two parts of a node's full run with an element put in.
fn parted(
    kinds: &[NodeKind],
    arena: &Arena,
    here: NodeId,
    elem: Elem,
) -> (ArrayVec<Elem, 16>, ArrayVec<Elem, MOST_PASSED>)
    requires there { IsSomeAnd (node_at arena.now here) (HasKindsRun kinds.now arena.now) }
    requires full { IfSome (node_at arena.now here) (λ n. (kind_at kinds.now n.kind).hi ≤ length n.run) }
    ensures parts { IfSome (node_at arena.now here) (λ n. IsParted kinds.now elem n result.0.items result.1.items) }
    ensures few { (length result.0.items ≤ arena.now.nodes.most) × (length result.1.items ≤ arena.now.nodes.most) }
{
    let full = arena.view(here);
    let run = full.run_with(&elem);
    let keep = kept(kinds, full.kind());
    let (lower, upper) = run.as_slice().split_at(keep);
    (copied(lower), copied(upper))
}

/// Puts the element into a run that is full: the upper part goes into a new node, between the node and what was behind it. Two ticks.
pub(crate) fn wedge<L: Ledger>(
    kinds: &[NodeKind],
    arena: &mut Arena,
    here: NodeId,
    elem: Elem,
    steps: &mut Steps<L>,
) -> NodeId
    requires there { IsSomeAnd (node_at arena.old here) (HasKindsRun kinds.now arena.old) }
    requires full { IfSome (node_at arena.old here) (λ n. (kind_at kinds.now n.kind).hi ≤ length n.run) }
    requires spare { 0 < arena.old.nodes.spare }
    ensures wedges { IfSome (node_at arena.old here) (λ n. Wedges kinds.now elem arena.old arena.new here n result) }
    ensures spends { Spends arena.old arena.new 1 }
    ensures steps { steps.new ≡ steps.old + 2 }
{
    let (lower, upper) = parted(kinds, arena, here, elem);
    let kind = arena.kind(here);
    let above = kind_on(kinds, kind, Side::Post);
    let links = links_before(kinds, above, arena.link(here, 1));
    let pre = arena.link(here, 0);
    let rest = arena.make(above, upper.as_slice(), links.as_slice(), steps);
    arena.put(here, kind, lower.as_slice(), &[pre, Some(rest)], steps);
    rest
}

/// Puts the element into a run that is full, and takes the upper part out, which is the result. One tick.
pub(crate) fn cut<L: Ledger>(
    kinds: &[NodeKind],
    arena: &mut Arena,
    here: NodeId,
    elem: Elem,
    steps: &mut Steps<L>,
) -> ArrayVec<Elem, MOST_PASSED>
    requires there { IsSomeAnd (node_at arena.old here) (HasKindsRun kinds.now arena.old) }
    requires full { IfSome (node_at arena.old here) (λ n. (kind_at kinds.now n.kind).hi ≤ length n.run) }
    ensures cuts { IfSome (node_at arena.old here) (λ n. Cuts kinds.now elem arena.old arena.new here n result.items) }
    ensures spends { Spends arena.old arena.new 0 }
    ensures steps { steps.new ≡ steps.old + 1 }
{
    let (lower, upper) = parted(kinds, arena, here, elem);
    let kind = arena.kind(here);
    let links = [arena.link(here, 0), arena.link(here, 1)];
    arena.put(here, kind, lower.as_slice(), &links, steps);
    upper
}
