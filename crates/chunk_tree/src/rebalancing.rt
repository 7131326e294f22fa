//! A structure made shallow.
ghost use Rattle.std.specs.Prelude.{◌≡◌, ◌≢◌, ◌≤◌, ◌+◌, ◌<◌, ◌↔◌, ℕ, Ok, IfOk, OnOk, OnErr, IsOk, IsTrue, length, true, false};
ghost use Rattle.node_arena.specs.declared.kinds.Shape.TheVariants.{Flat, Ends, Woven};
ghost use Rattle.node_arena.specs.Conforming.{spine_by};
ghost use Rattle.node_arena.specs.Kinds.{shape_at};
ghost use Rattle.node_arena.specs.Rules.{AreSound, Serves};
ghost use Rattle.node_arena.specs.Structures.{Tree, IsStructure};
ghost use Rattle.bulk_build.specs.Building.{IsAsBefore, CanBeNumbered};
ghost use Rattle.chunk_tree.specs.Balancing.{IsShallow, Rebalances, IsRelinked, FreesOld};
ghost use Rattle.chunk_tree.specs.Relinking.{root_at, top_at};

use crate::collecting::elements;
use crate::gathering::gather;
use crate::linking::link_up;
use crate::numbering::{free_all, numbers};
use bulk_build::build;
use dt_model::{NoMemory, Steps};
use node_arena::{Arena, MOST_SPINE, NodeId, NodeKind, Shape, Structure, Top, digits, kind_of};
use std::alloc::Global;
use std::sync::ledger::Ledger;

/// The root at a top, if it is a node.
pub(crate) fn root_at(top: Top) -> Option<NodeId>
    ensures value { result ≡ root_at top }
{
    match top {
        Top::Node(id) => Some(id),
        _ => None,
    }
}

/// The top at a root.
fn top_at(root: Option<NodeId>) -> Top
    ensures value { result ≡ top_at root }
{
    match root {
        Some(id) => Top::Node(id),
        None => Top::Empty,
    }
}

/// Whether the nodes of a kind have two links, and both lead to that kind.
fn leads_home(kinds: &[NodeKind], kind: u32) -> bool
    ensures value { IsTrue result ↔ (shape_at kinds.now kind ≡ Ends kind kind) }
{
    match kind_of(kinds, kind).shape {
        Shape::Ends { pre, post } => pre == kind && post == kind,
        _ => false,
    }
}

/// Whether a structure of a kind may have nodes with two links: not where it is flat or woven.
fn may_be_deep(kinds: &[NodeKind], kind: u32) -> bool
    ensures linked { result ≡ true → shape_at kinds.now kind ≢ Flat }
    ensures leveled { result ≡ true → shape_at kinds.now kind ≢ Woven }
    ensures level { result ≡ false → (n : ℕ) → spine_by (shape_at kinds.now kind) n ≡ 0 }
{
    match kind_of(kinds, kind).shape {
        Shape::Flat => false,
        Shape::Post(_) => true,
        Shape::Ends { .. } => true,
        Shape::Woven => false,
    }
}

/// Whether the spine that is kept is low enough.
fn is_shallow(top: &Structure) -> bool
    ensures value { IsTrue result ↔ IsShallow top.now }
    ensures few { result ≡ true → top.now.spine ≤ 32 }
{
    top.spine <= digits(top.len)
}

/// Links the nodes of a structure anew, whose nodes are all of one kind with two links.
fn relink<L: Ledger>(
    kinds: &[NodeKind],
    kind: u32,
    top: Structure,
    arena: &mut Arena,
    alloc: Global,
    steps: &mut Steps<L>,
) -> Result<Structure, NoMemory>
    requires sound { AreSound kinds.now }
    requires serves { Serves kinds.now arena.old }
    requires one_kind { shape_at kinds.now kind ≡ Ends kind kind }
    requires holds { (t : Tree) × IsStructure kinds.now kind arena.old top t }
    ensures ok { IfOk result (Rebalances kinds.now kind arena.old arena.new top) }
    ensures err { OnErr result (arena.new ≡ arena.old) }
    ensures rest { IsRelinked arena.old arena.new }
    ensures steps { steps.new ≤ steps.old + top.len }
{
    let mut ids = Vec::new(alloc);
    gather(arena, root_at(top.top), MOST_SPINE, &mut ids)?;
    let root = link_up(arena, &ids, steps);
    Ok(Structure {
        top: top_at(root),
        len: top.len,
        spine: digits(top.len),
    })
}

/// Builds a structure of nodes anew of its elements, and frees its old nodes. All memory is taken before the first node is made.
fn renew<L: Ledger>(
    kinds: &[NodeKind],
    kind: u32,
    top: &Structure,
    arena: &mut Arena,
    alloc: Global,
    steps: &mut Steps<L>,
) -> Result<Structure, NoMemory>
    requires sound { AreSound kinds.now }
    requires serves { Serves kinds.now arena.old }
    requires linked { shape_at kinds.now kind ≢ Flat }
    requires holds { (t : Tree) × IsStructure kinds.now kind arena.old top.now t }
    ensures ok { IfOk result (Rebalances kinds.now kind arena.old arena.new top.now) }
    ensures err { OnErr result (IsAsBefore arena.old arena.new) }
    ensures spent { OnOk result (arena.old.nodes.spare ≤ arena.new.nodes.spare + top.now.len) }
    ensures freed { OnOk result (FreesOld kinds.now kind arena.old arena.new top.now) }
    ensures kept { OnErr result (CanBeNumbered arena.new → arena.old.nodes.spare ≤ arena.new.nodes.spare) }
    ensures runs { arena.new.runs ≡ arena.old.runs }
    ensures most { arena.new.nodes.most ≡ arena.old.nodes.most }
    ensures steps { steps.new ≤ steps.old + top.now.len }
{
    let elems = elements(kinds, arena, top, alloc)?;
    let ids = numbers(arena, root_at(top.top), top.len, alloc)?;
    let new = build(kinds, kind, elems.as_slice(), arena, steps)?;
    free_all(arena, ids.as_slice());
    Ok(new)
}

/// Makes a structure shallow: its elements stay, and its spine is at most the binary digits of their number. Where its nodes are all of one kind with
/// two links, they are linked anew, and no node is made. Any other stays as it is if the spine that is kept is low already. Else a flat or a woven one
/// only keeps a spine of 0 from then on, and others are built anew, and their old nodes are freed: for a while there is memory for both, and for lists
/// of the elements and of the old numbers. At most a tick is counted for each element. When out of memory, all nodes and runs are as before. Nodes
/// that are freed are spare; at most one node for each element is taken.
pub fn rebalance<L: Ledger>(
    kinds: &[NodeKind],
    kind: u32,
    top: Structure,
    arena: &mut Arena,
    alloc: Global,
    steps: &mut Steps<L>,
) -> Result<Structure, NoMemory>
    requires sound { AreSound kinds.now }
    requires serves { Serves kinds.now arena.old }
    requires holds { (t : Tree) × IsStructure kinds.now kind arena.old top t }
    ensures ok { IfOk result (Rebalances kinds.now kind arena.old arena.new top) }
    ensures err { OnErr result (IsAsBefore arena.old arena.new) }
    ensures relinked { shape_at kinds.now kind ≡ Ends kind kind → IsRelinked arena.old arena.new }
    ensures relinked_err { shape_at kinds.now kind ≡ Ends kind kind → OnErr result (arena.new ≡ arena.old) }
    ensures shallow { shape_at kinds.now kind ≢ Ends kind kind → IsShallow top → (arena.new ≡ arena.old) × (result ≡ Ok top) }
    ensures flat { shape_at kinds.now kind ≡ Flat → (arena.new ≡ arena.old) × IsOk result }
    ensures woven { shape_at kinds.now kind ≡ Woven → (arena.new ≡ arena.old) × IsOk result }
    ensures spent { OnOk result (arena.old.nodes.spare ≤ arena.new.nodes.spare + top.len) }
    ensures freed { OnOk result (FreesOld kinds.now kind arena.old arena.new top) }
    ensures kept { OnErr result (CanBeNumbered arena.new → arena.old.nodes.spare ≤ arena.new.nodes.spare) }
    ensures runs { arena.new.runs ≡ arena.old.runs }
    ensures most { arena.new.nodes.most ≡ arena.old.nodes.most }
    ensures steps { steps.new ≤ steps.old + top.len }
{
    if leads_home(kinds, kind) {
        return relink(kinds, kind, top, arena, alloc, steps);
    }
    if is_shallow(&top) {
        return Ok(top);
    }
    if !may_be_deep(kinds, kind) {
        return Ok(Structure { spine: 0, ..top });
    }
    renew(kinds, kind, &top, arena, alloc, steps)
}
