//! The nodes of a tree, in the order of its walk.
ghost use Rattle.std.specs.Prelude.{◌≡◌, ◌++◌, OnOk};
ghost use Rattle.node_arena.specs.Trees.{Trees};
ghost use Rattle.chunk_tree.specs.Relinking.{IsAt, cells, numbers_of};

use node_arena::{Arena, NodeId};
use std::alloc::AllocError;

/// Adds the numbers of the nodes of the tree at a link, in the order of its walk. It calls itself at most `levels` deep.
pub(crate) fn gather(
    arena: &Arena,
    link: Option<NodeId>,
    levels: u8,
    ids: &mut Vec<NodeId>,
) -> Result<(), AllocError>
    requires tree { (t : Trees) × IsAt arena.now link levels t }
    ensures ok { OnOk result ((t : Trees) → IsAt arena.now link levels t → ids.new.items ≡ ids.old.items ++ numbers_of (cells t)) }
{
    let id = match link {
        None => return Ok(()),
        Some(id) => id,
    };
    gather(arena, arena.link(id, 0), levels - 1, ids)?;
    ids.push(id)?;
    gather(arena, arena.link(id, 1), levels - 1, ids)
}
