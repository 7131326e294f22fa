//! Structures of several kinds, rebalanced: shapes that were worked by hand, and what is left when out of memory.
ghost use Rattle.std.specs.Prelude.{◌≡◌, ◌<◌, ◌≤◌, ℕ, List, Some, IsSome, IfSome, true, false};
ghost use Rattle.node_arena.specs.Arenas.{node_at};
ghost use Rattle.node_arena.specs.Structures.{Tree, IsStructure};
ghost use Rattle.node_arena.specs.declared.elements.TheConstants.{MOST_SPINE};
ghost use Rattle.node_arena.specs.declared.kinds.NodeKind.{NodeKind};
ghost use Rattle.chunk_tree.specs.Relinking.{root_at};
ghost use Rattle.chunk_tree.specs.RowTrials.{AreForRows, IsRow, woven_kinds};
ghost use Rattle.chunk_tree.specs.Trials.{IsRooted};

use crate::checking::{CLOSE, OPEN};
use crate::rebalance;
use crate::rebalancing::root_at;
use crate::tests::{depth_of, elem};
use dt_model::{NoMemory, Steps};
use node_arena::{Arena, MOST_SPINE, NodeId, NodeKind, Shape, Structure, Top};
use std::alloc::Global;
use std::marker::Brand;
use std::sync::ledger::{Blank, Ledger};
use std::test::Fail;

// ---- structures are written

/// Writes the tree at a link in the order of the walk, where at most so many nodes lie below one another.
fn write(
    arena: &Arena,
    link: Option<NodeId>,
    levels: u32,
    out: &mut Vec<u32>,
) -> Result<(), NoMemory>
    requires there { IfSome link (λ i. IsSome (node_at arena.now i)) }
    requires rooted { IfSome link (IsRooted arena.now) }
{
    let node = match link {
        None => return Ok(()),
        Some(node) => node,
    };
    if levels == 0 {
        return Ok(());
    }
    let links = arena.link_count(node);
    out.push(OPEN)?;
    for place in 0..arena.len(node) {
        if links > 2 || links == 2 && place == 0 {
            write(arena, arena.link(node, place), levels - 1, out)?;
        }
        out.push(arena.coordinate(node, place).unwrap_or(CLOSE))?;
    }
    if links > 0 {
        write(arena, arena.link(node, links - 1), levels - 1, out)?;
    }
    out.push(CLOSE)?;
    Ok(())
}

/// The coordinates of a structure of nodes in order, with marks before and behind each node.
fn written(arena: &Arena, top: &Structure, alloc: Global) -> Result<Vec<u32>, NoMemory>
    requires there { IfSome (root_at top.now.top) (λ i. IsSome (node_at arena.now i)) }
    requires rooted { IfSome (root_at top.now.top) (IsRooted arena.now) }
{
    let mut out = Vec::new(alloc);
    write(arena, root_at(top.top), 100, &mut out)?;
    Ok(out)
}

// ---- rows of nodes

/// The kinds `H { run 1..2 pre T post T }` and `T { run 1..2 pre T post T }`.
fn pairs() -> [NodeKind; 2]
    ensures kinds { AreForRows result false }
{
    let shape = Shape::Ends { pre: 1, post: 1 };
    [
        NodeKind {
            lo: 1,
            hi: 2,
            shape,
        },
        NodeKind {
            lo: 1,
            hi: 2,
            shape,
        },
    ]
}

/// The kinds `H { run 1..2 post T }` and `T { run 1..1 pre T post T }`.
fn chain() -> [NodeKind; 2]
    ensures kinds { AreForRows result true }
{
    [
        NodeKind {
            lo: 1,
            hi: 2,
            shape: Shape::Post(1),
        },
        NodeKind {
            lo: 1,
            hi: 1,
            shape: Shape::Ends { pre: 1, post: 1 },
        },
    ]
}

/// A node of kind 0 before what is behind: it has one link, or two.
fn head<L: Ledger>(
    arena: &mut Arena,
    chained: bool,
    behind: Option<NodeId>,
    steps: &mut Steps<L>,
) -> NodeId
    requires spare { 0 < arena.old.nodes.spare }
    requires most { 2 ≤ arena.old.nodes.most }
    ensures row { (s : List NodeKind) (n : ℕ) → AreForRows s chained → IsRow s 1 arena.old behind 1 n → IsRow s 0 arena.new (Some result) 0 n }
    ensures most { arena.new.nodes.most ≡ arena.old.nodes.most }
{
    if chained {
        return arena.make(0, &[elem(0)], &[behind], steps);
    }
    arena.make(0, &[elem(0)], &[None, behind], steps)
}

/// A node of kind 0, and behind it a row of nodes of kind 1, each with one element: what insertion in ascending order makes of runs of one
/// element.
fn row<L: Ledger>(arena: &mut Arena, chained: bool, count: u8, steps: &mut Steps<L>) -> Structure
    requires some { 1 ≤ count }
    requires low { count ≤ MOST_SPINE }
    requires spare { count ≤ arena.old.nodes.spare }
    requires most { 2 ≤ arena.old.nodes.most }
    ensures holds { (s : List NodeKind) → AreForRows s chained → (t : Tree) × IsStructure s 0 arena.new result t }
    ensures most { arena.new.nodes.most ≡ arena.old.nodes.most }
{
    let mut behind = None;
    let mut from = count;
    'back: while from > 1 {
        from -= 1;
        behind = Some(arena.make(1, &[elem(u32::from(from))], &[None, behind], steps));
    }
    let root = head(arena, chained, behind, steps);
    Structure {
        top: Top::Node(root),
        len: u32::from(count),
        spine: count,
    }
}

/// What was tried: whether it was done, how many nodes were spare before it and behind it, and the structure that is there then.
#[derive(Debug, Drop)]
struct Trial {
    done: bool,
    spare_before: u32,
    spare_behind: u32,
    tree: Vec<u32>,
}

/// Rebalances a row of nodes, and writes what is there then: the new structure; or the old one when out of memory.
fn tried<L: Ledger>(
    alloc: Global,
    blank: Blank,
    kinds: &[NodeKind],
    chained: bool,
    count: u8,
) -> Result<Trial, NoMemory>
    requires name { blank.name ≡ L.name }
    requires parts { blank.parts ≡ L.parts }
    requires one { blank.parts ≡ 1 }
    requires kinds { AreForRows kinds.now chained }
    requires some { 1 ≤ count }
    requires low { count ≤ MOST_SPINE }
{
    let mut steps = Steps::<L>::open(blank);
    let mut arena = Arena::new(alloc, 2);
    arena.reserve(u32::from(count))?;
    let old = row(&mut arena, chained, count, &mut steps);
    let spare_before = arena.spare_nodes();
    match rebalance(kinds, 0, old, &mut arena, alloc, &mut steps) {
        Ok(new) => Ok(Trial {
            done: true,
            spare_before,
            spare_behind: arena.spare_nodes(),
            tree: written(&arena, &new, alloc)?,
        }),
        Err(NoMemory) => Ok(Trial {
            done: false,
            spare_before,
            spare_behind: arena.spare_nodes(),
            tree: written(&arena, &old, alloc)?,
        }),
    }
}

/// The same with a counter of its own.
fn tried_row(alloc: Global, kinds: &[NodeKind], chained: bool, count: u8) -> Result<Trial, NoMemory>
    requires kinds { AreForRows kinds.now chained }
    requires some { 1 ≤ count }
    requires low { count ≤ MOST_SPINE }
{
    tried::<Brand>(alloc, Blank::new(1), kinds, chained, count)
}

// ---- woven structures at both links

/// The kinds `H { run 1..2 pre W post W }` and `W { run 1..2 woven }`.
fn between_woven() -> [NodeKind; 2]
    ensures kinds { result ≡ woven_kinds }
{
    [
        NodeKind {
            lo: 1,
            hi: 2,
            shape: Shape::Ends { pre: 1, post: 1 },
        },
        NodeKind {
            lo: 1,
            hi: 2,
            shape: Shape::Woven,
        },
    ]
}

/// A node of kind 0 with the coordinates 1 and 2, between woven nodes with 0 and with 3. The structure has that spine, at least 1.
fn three_nodes<L: Ledger>(arena: &mut Arena, spine: u8, steps: &mut Steps<L>) -> Structure
    requires spare { 3 ≤ arena.old.nodes.spare }
    requires most { 2 ≤ arena.old.nodes.most }
    requires some { 1 ≤ spine }
    requires low { spine ≤ MOST_SPINE }
    ensures holds { (t : Tree) × IsStructure woven_kinds 0 arena.new result t }
    ensures most { arena.new.nodes.most ≡ arena.old.nodes.most }
{
    let before = arena.make(1, &[elem(0)], &[], steps);
    let behind = arena.make(1, &[elem(3)], &[], steps);
    let root = arena.make(0, &[elem(1), elem(2)], &[Some(before), Some(behind)], steps);
    Structure {
        top: Top::Node(root),
        len: 4,
        spine,
    }
}

/// Rebalances that structure, and writes it.
fn woven<L: Ledger>(alloc: Global, blank: Blank, spine: u8) -> Result<Vec<u32>, NoMemory>
    requires name { blank.name ≡ L.name }
    requires parts { blank.parts ≡ L.parts }
    requires one { blank.parts ≡ 1 }
    requires some { 1 ≤ spine }
    requires low { spine ≤ MOST_SPINE }
{
    let mut steps = Steps::<L>::open(blank);
    let mut arena = Arena::new(alloc, 2);
    arena.reserve(3)?;
    let old = three_nodes(&mut arena, spine, &mut steps);
    let new = rebalance(&between_woven(), 0, old, &mut arena, alloc, &mut steps)?;
    written(&arena, &new, alloc)
}

/// The same with a counter of its own.
fn woven_of(alloc: Global, spine: u8) -> Result<Vec<u32>, NoMemory>
    requires some { 1 ≤ spine }
    requires low { spine ≤ MOST_SPINE }
{
    woven::<Brand>(alloc, Blank::new(1), spine)
}

// ---- nothing

/// What an empty structure with this spine becomes.
fn nothing<L: Ledger>(alloc: Global, blank: Blank, spine: u8) -> Result<Structure, NoMemory>
    requires name { blank.name ≡ L.name }
    requires parts { blank.parts ≡ L.parts }
    requires one { blank.parts ≡ 1 }
    requires low { spine ≤ MOST_SPINE }
{
    let mut steps = Steps::<L>::open(blank);
    let mut arena = Arena::new(alloc, 2);
    let top = Structure {
        top: Top::Empty,
        len: 0,
        spine,
    };
    rebalance(&pairs(), 0, top, &mut arena, alloc, &mut steps)
}

/// The same with a counter of its own.
fn nothing_of(alloc: Global, spine: u8) -> Result<Structure, NoMemory>
    requires low { spine ≤ MOST_SPINE }
{
    nothing::<Brand>(alloc, Blank::new(1), spine)
}

// ---- tests

#[test]
fn a_tree_below_a_root_of_another_kind_becomes_shallow(rt: HostRuntime) -> Result<(), Fail> {
    let five = tried_row(rt.alloc(), &pairs(), false, 5)?;
    let wanted = [OPEN, OPEN, 0, 1, CLOSE, 2, 3, OPEN, 4, CLOSE, CLOSE];
    assert!(rt; five.done);
    assert!(rt; five.tree.as_slice() == wanted.as_slice());
    assert!(rt; five.spare_behind.saturating_sub(2) >= five.spare_before);
    let most = tried_row(rt.alloc(), &pairs(), false, 96)?;
    assert!(rt; most.done);
    assert!(rt; depth_of(Some(most.tree)) <= 7);
    Ok(())
}

#[test]
fn a_tree_behind_a_chain_becomes_shallow(rt: HostRuntime) -> Result<(), Fail> {
    let five = tried_row(rt.alloc(), &chain(), true, 5)?;
    let wanted = [
        OPEN, 0, 1, OPEN, OPEN, 2, CLOSE, 3, OPEN, 4, CLOSE, CLOSE, CLOSE,
    ];
    assert!(rt; five.done);
    assert!(rt; five.tree.as_slice() == wanted.as_slice());
    assert!(rt; five.spare_behind > five.spare_before);
    let most = tried_row(rt.alloc(), &chain(), true, 96)?;
    assert!(rt; most.done);
    assert!(rt; depth_of(Some(most.tree)) <= 8);
    Ok(())
}

#[test]
fn a_structure_that_is_said_to_be_deep_is_built_anew(rt: HostRuntime) -> Result<(), Fail> {
    let anew = woven_of(rt.alloc(), 40)?;
    let wanted = [OPEN, OPEN, 0, 1, CLOSE, 2, 3, CLOSE];
    assert!(rt; anew.as_slice() == wanted.as_slice());
    Ok(())
}

#[test]
fn a_shallow_structure_stays_as_it_is(rt: HostRuntime) -> Result<(), Fail> {
    let same = woven_of(rt.alloc(), 3)?;
    let wanted = [OPEN, OPEN, 0, CLOSE, 1, 2, OPEN, 3, CLOSE, CLOSE];
    assert!(rt; same.as_slice() == wanted.as_slice());
    Ok(())
}

#[test]
fn an_empty_structure_stays_empty(rt: HostRuntime) -> Result<(), Fail> {
    let empty = Structure {
        top: Top::Empty,
        len: 0,
        spine: 0,
    };
    assert!(rt; nothing_of(rt.alloc(), 0)? == empty);
    assert!(rt; nothing_of(rt.alloc(), 50)? == empty);
    Ok(())
}

/// Whether the new structure is there, or the old one with as many spare nodes.
fn is_either(tried: &Trial, old: &[u32], new: &[u32]) -> bool {
    if tried.done {
        tried.tree.as_slice() == new
    } else {
        tried.tree.as_slice() == old && tried.spare_behind == tried.spare_before
    }
}

#[test]
fn what_was_there_is_there_when_out_of_memory(rt: HostRuntime) -> Result<(), Fail> {
    if let Ok(three) = tried_row(rt.alloc(), &chain(), true, 3) {
        let deep = [OPEN, 0, OPEN, 1, OPEN, 2, CLOSE, CLOSE, CLOSE];
        let even = [OPEN, 0, 1, OPEN, 2, CLOSE, CLOSE];
        assert!(rt; is_either(&three, &deep, &even));
    }
    if let Ok(five) = tried_row(rt.alloc(), &pairs(), false, 5) {
        let deep = [
            OPEN, 0, OPEN, 1, OPEN, 2, OPEN, 3, OPEN, 4, CLOSE, CLOSE, CLOSE, CLOSE, CLOSE,
        ];
        let even = [OPEN, OPEN, 0, 1, CLOSE, 2, 3, OPEN, 4, CLOSE, CLOSE];
        assert!(rt; is_either(&five, &deep, &even));
    }
    Ok(())
}
