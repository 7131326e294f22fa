//! Structures that no build makes, for the tests: each node has one element, so they are as deep and as long as can be.
ghost use Rattle.std.specs.Prelude.{◌≡◌, ◌<◌, ◌≤◌, ◌+◌, ◌*◌, List, Some, length};
ghost use Rattle.node_arena.specs.declared.elements.TheConstants.{MOST_SPINE};
ghost use Rattle.node_arena.specs.declared.kinds.NodeKind.{NodeKind};
ghost use Rattle.node_arena.specs.declared.kinds.Shape.TheVariants.{Post, Ends, Woven};
ghost use Rattle.bulk_build.specs.Layouts.{Weaves, top_at};
ghost use Rattle.iter_gen.specs.Trials.{IsThin, Grows, thin_size};

use dt_model::Steps;
use node_arena::{Arena, Elem, MOST_SPINE, NodeId, Structure, Top};
use std::sync::ledger::Ledger;

/// Which way a path of nodes with two links goes.
#[derive(Clone, Copy, Debug)]
pub(crate) enum Way {
    /// Before the runs.
    Before,
    /// Behind the runs.
    Behind,
    /// By turns.
    ByTurns,
}

/// How many elements hang before the first node of a path.
fn before_of(way: Way, len: usize) -> usize
    requires some { 0 < len }
    ensures within { result < len }
{
    match way {
        Way::Before => len - 1,
        Way::Behind => 0,
        Way::ByTurns => { if len % 2 == 0 { 0 } else { len - 1 } }
    }
}

/// The root of a path of nodes with two links, one of them at most not absent; none where there are no elements.
pub(crate) fn path<L: Ledger>(
    kind: u32,
    elems: &[Elem],
    way: Way,
    arena: &mut Arena,
    steps: &mut Steps<L>,
) -> Option<NodeId>
    requires spare { length elems.now ≤ arena.old.nodes.spare }
    requires wide { 1 ≤ arena.old.nodes.most }
    ensures path { (s : List NodeKind) → IsThin s kind (Ends kind kind) → Grows s kind arena.old arena.new elems.now (length elems.now) result }
    ensures spare { arena.new.nodes.spare + length elems.now ≡ arena.old.nodes.spare }
    ensures most { arena.new.nodes.most ≡ arena.old.nodes.most }
{
    if elems.is_empty() {
        return None;
    }
    let lower = before_of(way, elems.len());
    let before = path(kind, &elems[..lower], way, arena, steps);
    let after = path(kind, &elems[lower + 1..], way, arena, steps);
    Some(arena.make(kind, &elems[lower..lower + 1], &[before, after], steps))
}

/// The first node of a chain; none where there are no elements.
pub(crate) fn chain<L: Ledger>(
    kind: u32,
    elems: &[Elem],
    arena: &mut Arena,
    steps: &mut Steps<L>,
) -> Option<NodeId>
    requires spare { length elems.now ≤ arena.old.nodes.spare }
    requires wide { 1 ≤ arena.old.nodes.most }
    ensures chain { (s : List NodeKind) → IsThin s kind (Post kind) → Grows s kind arena.old arena.new elems.now 0 result }
    ensures spare { arena.new.nodes.spare + length elems.now ≡ arena.old.nodes.spare }
    ensures most { arena.new.nodes.most ≡ arena.old.nodes.most }
{
    if elems.is_empty() {
        return None;
    }
    let rest = chain(kind, &elems[1..], arena, steps);
    Some(arena.make(kind, &elems[..1], &[rest], steps))
}

/// The root of a woven structure with so many levels below it.
pub(crate) fn woven<L: Ledger>(
    kind: u32,
    levels: u32,
    elems: &[Elem],
    arena: &mut Arena,
    steps: &mut Steps<L>,
) -> NodeId
    requires size { length elems.now ≡ thin_size levels }
    requires spare { length elems.now ≤ arena.old.nodes.spare }
    requires wide { 1 ≤ arena.old.nodes.most }
    ensures woven { (s : List NodeKind) → IsThin s kind Woven → Weaves s kind levels (2 * length elems.now + 3) arena.old arena.new elems.now result }
    ensures spare { arena.new.nodes.spare + length elems.now ≡ arena.old.nodes.spare }
    ensures most { arena.new.nodes.most ≡ arena.old.nodes.most }
{
    if levels == 0 {
        return arena.make(kind, elems, &[], steps);
    }
    let half = elems.len() / 2;
    let first = woven(kind, levels - 1, &elems[..half], arena, steps);
    let second = woven(kind, levels - 1, &elems[half + 1..], arena, steps);
    arena.make(
        kind,
        &elems[half..half + 1],
        &[Some(first), Some(second)],
        steps,
    )
}

/// A node of kind 0 between a woven structure of kind 1, with so many elements and levels below its root, and a chain of kind 2.
pub(crate) fn between<L: Ledger>(
    levels: u32,
    size: usize,
    elems: &[Elem],
    arena: &mut Arena,
    steps: &mut Steps<L>,
) -> NodeId
    requires size { size ≡ thin_size levels }
    requires more { size < length elems.now }
    requires spare { length elems.now ≤ arena.old.nodes.spare }
    requires wide { 1 ≤ arena.old.nodes.most }
    ensures between { (s : List NodeKind) → IsThin s 0 (Ends 1 2) → IsThin s 1 Woven → IsThin s 2 (Post 2) → Grows s 0 arena.old arena.new elems.now 1 (Some result) }
    ensures spare { arena.new.nodes.spare + length elems.now ≡ arena.old.nodes.spare }
    ensures most { arena.new.nodes.most ≡ arena.old.nodes.most }
{
    let first = woven(1, levels, &elems[..size], arena, steps);
    let rest = chain(2, &elems[size + 1..], arena, steps);
    arena.make(0, &elems[size..size + 1], &[Some(first), rest], steps)
}

/// The structure with this root.
pub(crate) fn structure_of(root: Option<NodeId>, len: u32) -> Structure
    ensures top { result.top ≡ top_at root }
    ensures len { result.len ≡ len }
    ensures spine { result.spine ≡ MOST_SPINE }
{
    Structure {
        top: match root {
            None => Top::Empty,
            Some(id) => Top::Node(id),
        },
        len,
        spine: MOST_SPINE,
    }
}
