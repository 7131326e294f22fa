//! The search along a chain, and what is done at its end.
ghost use Rattle.std.specs.Prelude.{◌≡◌, ◌<◌, ◌≤◌, ◌+◌, ◌-◌, None, Some, IsSome, IsSomeAnd, IfSome, IsTrue, IsFalse, length, ℕ};
ghost use Rattle.node_arena.specs.Arenas.{node_at, coordinate_at, ChangesNode};
ghost use Rattle.node_arena.specs.Conforming.{IsRising};
ghost use Rattle.node_arena.specs.Insertions.{DifferInFew};
ghost use Rattle.node_arena.specs.Kinds.{kind_at, shape_at};
ghost use Rattle.node_arena.specs.declared.kinds.Shape.TheVariants.{Post, Woven};
ghost use Rattle.block_list.specs.declared.chains.Way.TheVariants.{Into};
ghost use Rattle.node_arena.specs.Passing.{discipline, chains, CanPutIn, Leaves};
ghost use Rattle.node_arena.specs.Rules.{AreSound, Serves};
ghost use Rattle.node_arena.specs.Trees.{Trees};
ghost use Rattle.block_list.specs.Chains.{Turns, Finds, HasChainBehind, PassesAt, links_behind};

use dt_model::Steps;
use node_arena::{
    Arena, Elem, NodeId, NodeKind, NodeView, Shape, Side, Step, copied, is_woven, kind_of, wedged,
};
use std::sync::ledger::Ledger;

/// Where a coordinate goes at a node.
#[derive(Clone, Copy)]
pub(crate) enum Turn {
    /// Into the node's run.
    Into,
    /// On to the next node of the chain.
    On(NodeId),
    /// Into the structure behind, which isn't empty and is of another discipline.
    Behind,
}

/// Where the search ends.
#[derive(Clone, Copy)]
pub(crate) enum Way {
    /// The element goes into the run of this node.
    Into(NodeId),
    /// It goes into the structure behind this node, which isn't empty and is of another discipline.
    Behind(NodeId),
}

/// Whether the kind behind the run of this kind has `post` alone.
fn has_chain_behind(kinds: &[NodeKind], kind: u32) -> bool
    ensures yes { IsTrue result → HasChainBehind kinds.now (shape_at kinds.now kind) }
    ensures no { IsFalse result → HasChainBehind kinds.now (shape_at kinds.now kind) → ⊥ }
{
    match kind_of(kinds, kind).shape {
        Shape::Post(post) => matches!(kind_of(kinds, post).shape, Shape::Post(_)),
        _ => false,
    }
}

/// The coordinate of the last element of a node's run.
fn last_at(node: &NodeView<'_>) -> u32
    requires some { 0 < length node.now.run }
    ensures value { coordinate_at node.now.run (length node.now.run - 1) ≡ Some result }
{
    match node.coordinate(node.len() - 1) {
        Some(at) => at,
        None => unreachable!(),
    }
}

/// Where the coordinate goes at a node.
fn turn_at(kinds: &[NodeKind], arena: &Arena, node: NodeId, at: u32) -> Turn
    requires there { IsSomeAnd (node_at arena.now node) (λ n. (0 < length n.run) × IsRising n.run) }
    ensures turns { IfSome (node_at arena.now node) (λ n. Turns kinds.now at n result) }
{
    let node = arena.view(node);
    if last_at(&node) >= at {
        return Turn::Into;
    }
    match node.link(0) {
        None => Turn::Into,
        Some(next) => {
            if has_chain_behind(kinds, node.kind()) {
                Turn::On(next)
            } else {
                Turn::Behind
            }
        }
    }
}

/// The node at which the search along the chain ends.
fn find(kinds: &[NodeKind], arena: &Arena, node: NodeId, elem: &Elem) -> Way
    requires sound { AreSound kinds.now }
    requires stands { (t : Trees) × CanPutIn kinds.now arena.now elem.now node t }
    requires chain { IfSome (node_at arena.now node) (λ n. discipline (shape_at kinds.now n.kind) ≡ chains) }
    ensures finds { (t : Trees) → CanPutIn kinds.now arena.now elem.now node t → Finds kinds.now arena.now elem.now t result }
{
    let mut here = node;
    'along: loop {
        match turn_at(kinds, arena, here, elem.at) {
            Turn::Into => return Way::Into(here),
            Turn::On(next) => here = next,
            Turn::Behind => return Way::Behind(here),
        }
    }
}

/// A new node of the kind behind, with the link behind its run. A link before its run is absent.
fn make_behind<L: Ledger>(
    kinds: &[NodeKind],
    kind: u32,
    run: &[Elem],
    link: Option<NodeId>,
    arena: &mut Arena,
    steps: &mut Steps<L>,
) -> NodeId
    requires spare { 0 < arena.old.nodes.spare }
    requires run { length run.now ≤ arena.old.nodes.most }
    requires room { 1 ≤ arena.old.nodes.most }
    ensures is_new { node_at arena.old result ≡ None }
    ensures node { ChangesNode arena.old arena.new result (Some (record { kind = kind; run = run.now; links = links_behind (shape_at kinds.now kind) link })) }
    ensures spare { arena.new.nodes.spare + 1 ≡ arena.old.nodes.spare }
    ensures steps { steps.new ≡ steps.old + 1 }
{
    match kind_of(kinds, kind).shape {
        Shape::Post(_) => arena.make(kind, run, &[link], steps),
        Shape::Ends { .. } => arena.make(kind, run, &[None, link], steps),
        _ => arena.make(kind, run, &[], steps),
    }
}

/// The number of the kind behind the run of a kind with `post` alone.
fn post_kind(kinds: &[NodeKind], kind: u32) -> u32
    ensures value { (p : ℕ) → shape_at kinds.now kind ≡ Post p → result ≡ p }
{
    match kind_of(kinds, kind).shape {
        Shape::Post(post) => post,
        _ => 0,
    }
}

/// Puts an element into a run that is full. The node keeps the lower half, with one more where the halves differ. The upper half becomes a new
/// node behind; where the kind behind is woven, it goes on into the structure behind.
fn part<L: Ledger>(
    kinds: &[NodeKind],
    node: NodeId,
    arena: &mut Arena,
    elem: Elem,
    steps: &mut Steps<L>,
) -> Step
    requires sound { AreSound kinds.now }
    requires serves { Serves kinds.now arena.old }
    requires stands { (t : Trees) × Finds kinds.now arena.old elem t (Into node) }
    requires full { IfSome (node_at arena.old node) (λ n. (kind_at kinds.now n.kind).hi ≤ length n.run) }
    requires spare { 0 < arena.old.nodes.spare }
    ensures left { (t : Trees) → Finds kinds.now arena.old elem t (Into node) → Leaves kinds.now arena.old arena.new elem t result steps.old steps.new }
    ensures passes { PassesAt kinds.now arena.old elem.at result }
    ensures few { DifferInFew 2 arena.old arena.new }
    ensures spare { arena.old.nodes.spare ≤ arena.new.nodes.spare + 1 }
    ensures steps { steps.new ≤ steps.old + 2 }
    ensures runs { arena.new.runs ≡ arena.old.runs }
    ensures most { arena.new.nodes.most ≡ arena.old.nodes.most }
    ensures places { arena.new.nodes.places ≡ arena.old.nodes.places }
{
    let full = arena.view(node);
    let kind = full.kind();
    let post = post_kind(kinds, kind);
    let link = full.link(0);
    let run = full.run_with(&elem);
    let (lower, upper) = run.as_slice().split_at((run.len() + 1) / 2);
    if is_woven(kinds, post) {
        arena.put(node, kind, lower, &[link], steps);
        return Step::Pass {
            node,
            side: Side::Post,
            elems: copied(upper),
            above: 0,
        };
    }
    let behind = link.is_some();
    let rest = make_behind(kinds, post, upper, link, arena, steps);
    arena.put(node, kind, lower, &[Some(rest)], steps);
    wedged(kinds, post, behind, 0)
}

/// Puts an element into the run of a node of a chain, or parts the run.
fn put_run<L: Ledger>(
    kinds: &[NodeKind],
    node: NodeId,
    arena: &mut Arena,
    elem: Elem,
    steps: &mut Steps<L>,
) -> Step
    requires sound { AreSound kinds.now }
    requires serves { Serves kinds.now arena.old }
    requires stands { (t : Trees) × Finds kinds.now arena.old elem t (Into node) }
    requires spare { 0 < arena.old.nodes.spare }
    ensures left { (t : Trees) → Finds kinds.now arena.old elem t (Into node) → Leaves kinds.now arena.old arena.new elem t result steps.old steps.new }
    ensures passes { PassesAt kinds.now arena.old elem.at result }
    ensures few { DifferInFew 2 arena.old arena.new }
    ensures spare { arena.old.nodes.spare ≤ arena.new.nodes.spare + 1 }
    ensures steps { steps.new ≤ steps.old + 2 }
    ensures runs { arena.new.runs ≡ arena.old.runs }
    ensures most { arena.new.nodes.most ≡ arena.old.nodes.most }
    ensures places { arena.new.nodes.places ≡ arena.old.nodes.places }
{
    let hi = kind_of(kinds, arena.kind(node)).hi as usize;
    if arena.len(node) >= hi {
        return part(kinds, node, arena, elem, steps);
    }
    let place = arena.place(node, elem.at);
    arena.insert(node, place, elem, None, steps);
    Step::Done { deep: Some(0) }
}

/// Puts an element into the structure that begins at a node whose kind has `post` alone. `Done` is answered where it is in. `Pass` is answered
/// where elements have to go on into the structure behind a node, which is of another discipline: the element alone, where it is above the run
/// and that structure isn't empty, and then nothing was written; or the end of a run that was full, where the kind behind is woven, and then one
/// node was written. At most 2 nodes are written and 1 is made, and no memory is taken. It takes time by the number of nodes of the chain.
pub fn insert<L: Ledger>(
    kinds: &[NodeKind],
    node: NodeId,
    arena: &mut Arena,
    elem: Elem,
    steps: &mut Steps<L>,
) -> Step
    requires sound { AreSound kinds.now }
    requires serves { Serves kinds.now arena.old }
    requires stands { (t : Trees) × CanPutIn kinds.now arena.old elem node t }
    requires chain { IfSome (node_at arena.old node) (λ n. discipline (shape_at kinds.now n.kind) ≡ chains) }
    requires spare { 0 < arena.old.nodes.spare }
    ensures left { (t : Trees) → CanPutIn kinds.now arena.old elem node t → Leaves kinds.now arena.old arena.new elem t result steps.old steps.new }
    ensures passes { PassesAt kinds.now arena.old elem.at result }
    ensures few { DifferInFew 2 arena.old arena.new }
    ensures spare { arena.old.nodes.spare ≤ arena.new.nodes.spare + 1 }
    ensures steps { steps.new ≤ steps.old + 2 }
    ensures runs { arena.new.runs ≡ arena.old.runs }
    ensures most { arena.new.nodes.most ≡ arena.old.nodes.most }
    ensures places { arena.new.nodes.places ≡ arena.old.nodes.places }
{
    match find(kinds, arena, node, &elem) {
        Way::Into(here) => put_run(kinds, here, arena, elem, steps),
        Way::Behind(here) => Step::Pass {
            node: here,
            side: Side::Post,
            elems: copied(&[elem]),
            above: 0,
        },
    }
}
