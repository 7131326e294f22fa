//! A tree that is written node by node, and checked, for the tests.
ghost use Rattle.std.specs.Prelude.{◌≤◌, IsSome, IfSome, IfOk};
ghost use Rattle.node_arena.specs.Arenas.{node_at};
ghost use Rattle.chunk_tree.specs.Relinking.{root_at};
ghost use Rattle.chunk_tree.specs.Trials.{IsRooted};

use crate::rebalancing::root_at;
use dt_model::NoMemory;
use node_arena::{Arena, NodeId, Structure};
use std::alloc::Global;

/// How many coordinates there are.
pub(crate) const MOST: u32 = 2000;

/// Stands before a node in a written tree.
pub(crate) const OPEN: u32 = 1_000_001;

/// Stands behind a node in a written tree.
pub(crate) const CLOSE: u32 = 1_000_002;

/// Writes the run of a node.
pub(crate) fn write_run(arena: &Arena, node: NodeId, out: &mut Vec<u32>) -> Result<(), NoMemory>
    requires there { IsSome (node_at arena.now node) }
{
    for place in 0..arena.len(node) {
        if let Some(at) = arena.coordinate(node, place) {
            out.push(at)?;
        }
    }
    Ok(())
}

/// Writes the tree at a link in the order of the walk, and answers its spine. None where a rule is broken, or there are more levels than these.
pub(crate) fn write(
    arena: &Arena,
    link: Option<NodeId>,
    hi: usize,
    levels: u32,
    out: &mut Vec<u32>,
) -> Result<Option<u32>, NoMemory>
    requires there { IfSome link (λ i. IsSome (node_at arena.now i)) }
    requires rooted { IfSome link (IsRooted arena.now) }
    ensures low { IfOk result (λ o. IfSome o (λ h. h ≤ levels)) }
{
    let node = match link {
        None => return Ok(Some(0)),
        Some(node) => node,
    };
    let len = arena.len(node);
    if levels == 0 || len == 0 || len > hi || arena.link_count(node) != 2 {
        return Ok(None);
    }
    out.push(OPEN)?;
    let before = write(arena, arena.link(node, 0), hi, levels - 1, out)?;
    write_run(arena, node, out)?;
    let behind = write(arena, arena.link(node, 1), hi, levels - 1, out)?;
    out.push(CLOSE)?;
    match (before, behind) {
        (Some(left), Some(right)) => Ok(Some(left.max(right) + 1)),
        _ => Ok(None),
    }
}

/// The coordinates of a written tree.
pub(crate) fn walk_of(alloc: Global, written: &[u32]) -> Result<Vec<u32>, NoMemory> {
    let mut walk = Vec::new(alloc);
    for at in written {
        if *at < OPEN {
            walk.push(*at)?;
        }
    }
    Ok(walk)
}

/// The coordinates that aren't free, in ascending order.
pub(crate) fn taken(alloc: Global, free: &[bool]) -> Result<Vec<u32>, NoMemory> {
    let mut taken = Vec::new(alloc);
    for at in 0..MOST {
        if let Some(false) = free.get(at as usize) {
            taken.push(at)?;
        }
    }
    Ok(taken)
}

/// The written tree, and behind it the spine that is kept, where the tree keeps the rules, its walk is what isn't free, and its spine is at most the
/// kept one; and the kept one itself where runs have one element, so that no insertion pushes anything down.
pub(crate) fn written(
    alloc: Global,
    arena: &Arena,
    top: &Structure,
    hi: u32,
    free: &[bool],
) -> Result<Option<Vec<u32>>, NoMemory>
    requires there { IfSome (root_at top.now.top) (λ i. IsSome (node_at arena.now i)) }
    requires rooted { IfSome (root_at top.now.top) (IsRooted arena.now) }
{
    let mut out = Vec::new(alloc);
    let spine = write(
        arena,
        root_at(top.top),
        hi as usize,
        u32::from(top.spine),
        &mut out,
    )?;
    let walk = walk_of(alloc, out.as_slice())?;
    if spine.is_none() || walk.len() != top.len as usize || walk != taken(alloc, free)? {
        return Ok(None);
    }
    if hi == 1 && spine != Some(u32::from(top.spine)) {
        return Ok(None);
    }
    out.push(u32::from(top.spine))?;
    Ok(Some(out))
}
