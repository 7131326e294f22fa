//! The numbers of a structure's nodes, and nodes freed by their numbers.
ghost use Rattle.std.specs.Prelude.{◌≡◌, ◌<◌, ◌≤◌, ◌+◌, ◌++◌, ◌∷◌, [], ℕ, None, IfOk, OnOk, length};
ghost use Rattle.node_arena.specs.Arenas.{node_at};
ghost use Rattle.node_arena.specs.Insertions.{Misses};
ghost use Rattle.node_arena.specs.Trees.{Trees};
ghost use Rattle.chunk_tree.specs.Numbering.{present, AreNodes, HangsAt, AreNumbersOf};

use node_arena::{Arena, NodeId, NodeView};
use std::alloc::{AllocError, Global};

/// Adds the number at a link, if it isn't absent.
fn push_link(link: Option<NodeId>, ids: &mut Vec<NodeId>) -> Result<(), AllocError>
    ensures ok { OnOk result (ids.new.items ≡ ids.old.items ++ present (link ∷ [])) }
{
    if let Some(id) = link {
        ids.push(id)?;
    }
    Ok(())
}

/// Adds the numbers at a node's links.
fn push_links(node: &NodeView<'_>, ids: &mut Vec<NodeId>) -> Result<(), AllocError>
    ensures ok { OnOk result (ids.new.items ≡ ids.old.items ++ present node.now.links) }
{
    for place in 0..node.link_count() {
        push_link(node.link(place), ids)?;
    }
    Ok(())
}

/// The numbers of the nodes of the tree at a link, which has so many at most: each node comes before those at its links. The memory is taken at
/// once.
pub(crate) fn numbers(
    arena: &Arena,
    root: Option<NodeId>,
    most: u32,
    alloc: Global,
) -> Result<Vec<NodeId>, AllocError>
    requires tree { (t : Trees) × HangsAt arena.now root most t }
    ensures ok { IfOk result (λ v. (t : Trees) → HangsAt arena.now root most t → AreNumbersOf arena.now t v.items) }
{
    let mut ids = Vec::with_capacity(alloc, most as usize)?;
    push_link(root, &mut ids)?;
    let mut seen = 0;
    'levels: while seen < ids.len() {
        let node = arena.view(ids[seen]);
        push_links(&node, &mut ids)?;
        seen += 1;
    }
    Ok(ids)
}

/// Frees the nodes with these numbers. As many more can be made without memory, if there is memory for no more nodes than numbers.
pub(crate) fn free_all(arena: &mut Arena, ids: &[NodeId])
    requires nodes { AreNodes arena.old ids.now }
    ensures gone { (i : ℕ) → (Misses i ids.now → ⊥) → node_at arena.new i ≡ None }
    ensures others { (i : ℕ) → Misses i ids.now → node_at arena.new i ≡ node_at arena.old i }
    ensures spare { arena.old.nodes.places < 4294967296 → arena.new.nodes.spare ≡ arena.old.nodes.spare + length ids.now }
    ensures kept { arena.old.nodes.spare ≤ arena.new.nodes.spare }
    ensures places { arena.new.nodes.places ≡ arena.old.nodes.places }
    ensures most { arena.new.nodes.most ≡ arena.old.nodes.most }
    ensures runs { arena.new.runs ≡ arena.old.runs }
{
    for id in ids {
        arena.free(*id);
    }
}
