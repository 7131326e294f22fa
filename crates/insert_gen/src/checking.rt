//! A structure that is written node by node and checked against the rules of schemas, for the tests. It knows nothing of insertion.
ghost use Rattle.std.specs.Prelude.{◌<◌, IsSome};
ghost use Rattle.node_arena.specs.Arenas.{node_at, run_at};
ghost use Rattle.btree_nodes.specs.Trials.{IsRooted};
ghost use Rattle.insert_gen.specs.Trials.{IsReadable};

use dt_model::NoMemory;
use node_arena::{Arena, NodeId, NodeKind, RunId, Shape, Structure, Top, kind_of};

/// Stands before a node in a written structure.
pub(crate) const OPEN: u32 = 1_000_001;

/// Stands behind a node in a written structure.
pub(crate) const CLOSE: u32 = 1_000_002;

/// The most nodes that may lie below one another.
const MOST_LEVELS: u32 = 4000;

/// What is found of a structure: how many nodes lie below one another along first links, and its spine.
#[derive(Clone, Copy)]
pub(crate) struct Found {
    height: u32,
    pub(crate) spine: u32,
}

/// Writes the coordinates of a run from one place to another.
fn write_run(
    arena: &Arena,
    node: NodeId,
    from: usize,
    to: usize,
    out: &mut Vec<u32>,
) -> Result<(), NoMemory>
    requires there { IsSome (node_at arena.now node) }
{
    for place in from..to {
        if let Some(at) = arena.coordinate(node, place) {
            out.push(at)?;
        }
    }
    Ok(())
}

/// How many links a node with so many elements must have, where it has this many.
fn links_due(shape: Shape, len: usize, count: usize) -> usize
    requires few { len < 4294967296 }
{
    match shape {
        Shape::Flat => 1,
        Shape::Post(post) => 1,
        Shape::Ends { pre, post } => 2,
        Shape::Woven => { if count == 0 { 0 } else { len + 1 } }
    }
}

/// How many elements are walked before the link at a place.
fn elements_before(shape: Shape, len: usize, link: usize) -> usize {
    match shape {
        Shape::Ends { pre, post } if link == 0 => 0,
        Shape::Woven => link,
        _ => len,
    }
}

/// The kind of what hangs at a link of a node of a kind.
fn kind_below(shape: Shape, kind: u32, link: usize) -> u32 {
    match shape {
        Shape::Post(post) => post,
        Shape::Ends { pre, post } => { if link == 0 { pre } else { post } }
        _ => kind,
    }
}

/// The least number of elements of a node: the first node of a woven structure may have fewer.
fn least_of(kind: &NodeKind, is_first: bool) -> usize {
    match kind.shape {
        Shape::Woven if is_first => 1,
        _ => kind.lo as usize,
    }
}

/// The spine of a node, from the greatest one of what hangs at its links.
fn spine_of(shape: Shape, below: u32) -> u32 {
    match shape {
        Shape::Post(post) => below,
        Shape::Ends { pre, post } => below.saturating_add(1),
        _ => 0,
    }
}

/// Whether a node's kind, length and number of links are as the rules have them.
fn is_formed(arena: &Arena, node: NodeId, kinds: &[NodeKind], kind: u32, is_first: bool) -> bool
    requires there { IsSome (node_at arena.now node) }
{
    let rule = kind_of(kinds, kind);
    let len = arena.len(node);
    let count = arena.link_count(node);
    arena.kind(node) == kind
        && least_of(&rule, is_first) <= len
        && len <= rule.hi as usize
        && len < 17
        && count == links_due(rule.shape, len, count)
}

/// Writes the node and all that hangs at it in the order of the walk. None where a rule is broken, or there are more levels than these.
fn write(
    arena: &Arena,
    node: NodeId,
    kinds: &[NodeKind],
    kind: u32,
    is_first: bool,
    levels: u32,
    out: &mut Vec<u32>,
) -> Result<Option<Found>, NoMemory>
    requires there { IsSome (node_at arena.now node) }
    requires rooted { IsRooted arena.now node }
{
    let shape = kind_of(kinds, kind).shape;
    if levels == 0 || !is_formed(arena, node, kinds, kind, is_first) {
        return Ok(None);
    }
    let is_woven = shape == Shape::Woven;
    let len = arena.len(node);
    let mut done = 0;
    let mut found = Found {
        height: 0,
        spine: 0,
    };
    out.push(OPEN)?;
    for i in 0..arena.link_count(node) {
        let before = elements_before(shape, len, i);
        write_run(arena, node, done, before, out)?;
        done = before;
        if let Some(child) = arena.link(node, i) {
            let kind = kind_below(shape, kind, i);
            match write(arena, child, kinds, kind, !is_woven, levels - 1, out)? {
                None => return Ok(None),
                Some(below) => {
                    if is_woven && i > 0 && below.height != found.height {
                        return Ok(None);
                    }
                    found = Found {
                        height: below.height,
                        spine: below.spine.max(found.spine),
                    };
                }
            }
        } else if is_woven {
            return Ok(None);
        }
    }
    write_run(arena, node, done, len, out)?;
    out.push(CLOSE)?;
    Ok(Some(Found {
        height: found.height.saturating_add(1),
        spine: spine_of(shape, found.spine),
    }))
}

/// Writes the coordinates of a flat run.
fn write_flat(arena: &Arena, run: RunId, out: &mut Vec<u32>) -> Result<Option<Found>, NoMemory>
    requires there { IsSome (run_at arena.now run) }
{
    let len = arena.run_len(run);
    for place in 0..len {
        if let Some(elem) = arena.run_elem(run, place) {
            out.push(elem.at)?;
        }
    }
    if len == 0 {
        return Ok(None);
    }
    Ok(Some(Found {
        height: 0,
        spine: 0,
    }))
}

/// Writes a structure of a kind in the order of its walk. None where a rule is broken.
pub(crate) fn write_all(
    arena: &Arena,
    top: &Structure,
    kinds: &[NodeKind],
    kind: u32,
    out: &mut Vec<u32>,
) -> Result<Option<Found>, NoMemory>
    requires readable { IsReadable arena.now top.now.top }
{
    let top = top.top;
    match top {
        Top::Empty => Ok(Some(Found {
            height: 0,
            spine: 0,
        })),
        Top::Node(node) => write(arena, node, kinds, kind, true, MOST_LEVELS, out),
        Top::Run(run) => write_flat(arena, run, out),
    }
}
