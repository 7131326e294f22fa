//! A reader of structures for the tests, which knows what a schema asks for and nothing of how a structure is built.
ghost use Rattle.std.specs.Prelude.{IsSome};
ghost use Rattle.node_arena.specs.Arenas.{node_at, run_at};
ghost use Rattle.bulk_build.specs.Layouts.{HasTree};

use node_arena::{Arena, Elem, NodeId, NodeKind, RunId, Shape, kind_of};

/// What hangs at a link: how many nodes with two links lie below one another, how many woven nodes do, how many nodes there are,
/// where the list goes on behind its elements, and whether all is as the schema has it.
#[derive(Clone, Copy, Debug, PartialEq)]
pub(crate) struct Found {
    pub(crate) spine: u32,
    pub(crate) height: u32,
    pub(crate) nodes: u32,
    pub(crate) upto: usize,
    pub(crate) sound: bool,
}

/// What an absent link has.
pub(crate) fn nothing(at: usize) -> Found {
    Found {
        spine: 0,
        height: 0,
        nodes: 0,
        upto: at,
        sound: true,
    }
}

/// What is not a structure.
const BROKEN: Found = Found {
    spine: 0,
    height: 0,
    nodes: 0,
    upto: 0,
    sound: false,
};

/// What is wanted at a link: the kind, the least length of a run there, and how many elements of the node come before it.
#[derive(Clone, Copy, Debug)]
pub(crate) struct Wanted {
    kind: u32,
    least: u32,
    before: usize,
}

/// What is wanted at a root.
pub(crate) fn wanted_root(kinds: &[NodeKind]) -> Wanted {
    Wanted {
        kind: 0,
        least: least_of(kinds, 0),
        before: 0,
    }
}

/// The least length of the first run of a structure of this kind.
fn least_of(kinds: &[NodeKind], kind: u32) -> u32 {
    match kinds.get(kind as usize) {
        None => 0,
        Some(declared) => match declared.shape {
            Shape::Woven => 1,
            _ => declared.lo,
        },
    }
}

/// What is wanted at a link of a node.
fn wanted_at(
    kinds: &[NodeKind],
    kind: u32,
    declared: NodeKind,
    place: usize,
    len: usize,
) -> Wanted {
    match declared.shape {
        Shape::Flat => Wanted {
            kind,
            least: 0,
            before: len,
        },
        Shape::Post(post) => Wanted {
            kind: post,
            least: least_of(kinds, post),
            before: len,
        },
        Shape::Ends { pre, post } => {
            let other = if place == 0 { pre } else { post };
            Wanted {
                kind: other,
                least: least_of(kinds, other),
                before: if place == 0 { 0 } else { len },
            }
        }
        Shape::Woven => Wanted {
            kind,
            least: declared.lo,
            before: place,
        },
    }
}

/// Whether a node may have so many links.
fn may_have(shape: Shape, links: usize, len: usize) -> bool {
    match shape {
        Shape::Flat => false,
        Shape::Post(_) => links == 1,
        Shape::Ends { .. } => links == 2,
        Shape::Woven => links == 0 || (links > len && links - 1 == len),
    }
}

/// What has been found of a node before its links are gone through.
fn begun(
    want: Wanted,
    declared: NodeKind,
    kind: u32,
    len: usize,
    links: usize,
    at: usize,
) -> Found {
    let woven = declared.shape == Shape::Woven;
    let fits = kind == want.kind
        && u64::from(want.least) <= len as u64
        && len as u64 <= u64::from(declared.hi);
    Found {
        spine: u32::from(links == 2 && !woven),
        height: u32::from(woven),
        nodes: 1,
        upto: at,
        sound: fits && may_have(declared.shape, links, len),
    }
}

/// What has been found of a node when elements of it have been compared.
fn passed(found: Found, same: bool, from: usize, to: usize) -> Found {
    Found {
        upto: found.upto.saturating_add(to.saturating_sub(from)),
        sound: found.sound && same && from <= to,
        ..found
    }
}

/// What has been found of a node, with what hangs at one more of its links.
fn joined(found: Found, below: Found, shape: Shape, first: bool) -> Found {
    let spine = match shape {
        Shape::Ends { .. } => below.spine.saturating_add(1),
        _ => below.spine,
    };
    let woven = shape == Shape::Woven;
    let height = if woven {
        below.height.saturating_add(1)
    } else {
        0
    };
    let level = !woven || (below.nodes > 0 && (first || found.height == height));
    Found {
        spine: found.spine.max(spine),
        height,
        nodes: found.nodes.saturating_add(below.nodes),
        upto: below.upto,
        sound: found.sound && below.sound && level,
    }
}

/// Whether the element of a node at a place is the one at a place of a list.
fn is_same(arena: &Arena, id: NodeId, place: usize, elems: &[Elem], at: usize) -> bool
    requires there { IsSome (node_at arena.now id) }
{
    at < elems.len() && arena.elem(id, place) == Some(elems[at])
}

/// Whether the elements of a node from one place up to another are those of a list from a place on.
fn are_same(arena: &Arena, id: NodeId, from: usize, to: usize, elems: &[Elem], at: usize) -> bool
    requires there { IsSome (node_at arena.now id) }
{
    for place in from..to {
        if !is_same(arena, id, place, elems, at.saturating_add(place - from)) {
            return false;
        }
    }
    true
}

/// Whether a flat run is a list.
pub(crate) fn is_run(arena: &Arena, id: RunId, elems: &[Elem]) -> bool
    requires there { IsSome (run_at arena.now id) }
{
    for place in 0..elems.len() {
        if arena.run_elem(id, place) != Some(elems[place]) {
            return false;
        }
    }
    arena.run_len(id) == elems.len()
}

/// Reads what hangs at a link, where at most so many nodes lie below one another. Its elements have to be those of a list from a place on.
pub(crate) fn read(
    kinds: &[NodeKind],
    arena: &Arena,
    link: Option<NodeId>,
    want: Wanted,
    deep: u32,
    elems: &[Elem],
    at: usize,
) -> Found
    requires tree { HasTree arena.now link }
{
    let id = match link {
        None => return nothing(at),
        Some(id) => id,
    };
    if deep == 0 || want.kind as usize >= kinds.len() {
        return BROKEN;
    }
    let declared = kind_of(kinds, want.kind);
    let len = arena.len(id);
    let links = arena.link_count(id);
    let mut found = begun(want, declared, arena.kind(id), len, links, at);
    let mut given = 0;
    'links: for place in 0..links {
        let next = wanted_at(kinds, want.kind, declared, place, len);
        let same = are_same(arena, id, given, next.before, elems, found.upto);
        found = passed(found, same, given, next.before);
        given = next.before;
        let below = read(
            kinds,
            arena,
            arena.link(id, place),
            next,
            deep - 1,
            elems,
            found.upto,
        );
        found = joined(found, below, declared.shape, place == 0);
    }
    let same = are_same(arena, id, given, len, elems, found.upto);
    passed(found, same, given, len)
}
