//! An element is put into one node, which is split where it is full.
ghost use Rattle.std.specs.Prelude.{◌≡◌, ◌+◌, ◌<◌, ◌≤◌, length, Some, IsSome, IfSome, IsSomeAnd, take, drop, slice_get};
ghost use Rattle.std.specs.List.{insert};
ghost use Rattle.node_arena.specs.Arenas.{node_at, with_link};
ghost use Rattle.node_arena.specs.Kinds.{kind_at};
ghost use Rattle.btree_nodes.specs.Splits.{HasPlaceFor, Widens, SplitsAt};

use arrayvec::ArrayVec;
use dt_model::Steps;
use node_arena::{Arena, Elem, NodeId, NodeKind};
use std::sync::ledger::Ledger;

/// The greatest number of elements in a run of the kind with this number; 1 where there is no such kind.
fn longest(kinds: &[NodeKind], kind: u32) -> usize
    ensures value { result ≡ (kind_at kinds.now kind).hi }
{
    match kinds.get(kind as usize) {
        Some(kind) => kind.hi as usize,
        None => 1,
    }
}

/// The element that a node has at the place `i` once another one is put in at a place.
fn wider_elem(arena: &Arena, node: NodeId, place: usize, elem: &Elem, i: usize) -> Elem
    requires there { IsSomeAnd (node_at arena.now node) (λ n. (place ≤ length n.run) × (i ≤ length n.run)) }
    ensures value { IfSome (node_at arena.now node) (λ n. slice_get (insert n.run place elem.now) i ≡ Some result) }
{
    if i == place {
        return *elem;
    }
    let old = if i < place { i } else { i - 1 };
    match arena.elem(node, old) {
        Some(other) => other,
        None => unreachable!(),
    }
}

/// An element, 17 times.
fn repeated(elem: &Elem) -> [Elem; 17] {
    [*elem; 17]
}

/// The elements of a node, with another one at a place, and that one again behind them.
fn wider_run(arena: &Arena, node: NodeId, place: usize, elem: &Elem) -> [Elem; 17]
    requires there { IsSomeAnd (node_at arena.now node) (λ n. (place ≤ length n.run) × (length n.run < 17)) }
    ensures value { IfSome (node_at arena.now node) (λ n. take (length n.run + 1) result ≡ insert n.run place elem.now) }
{
    let mut run = repeated(elem);
    for i in 0..arena.len(node) + 1 {
        run[i] = wider_elem(arena, node, place, elem, i);
    }
    run
}

/// The links of a node, with another one behind the one at a place if one is given.
fn wider_links(
    arena: &Arena,
    node: NodeId,
    place: usize,
    right: Option<NodeId>,
) -> ArrayVec<Option<NodeId>, 18>
    requires there { IsSomeAnd (node_at arena.now node) (λ n. (length n.links < 18) × IfSome right (λ _. place < length n.links)) }
    ensures value { IfSome (node_at arena.now node) (λ n. result.items ≡ with_link n.links place right) }
{
    let mut links = ArrayVec::new();
    for i in 0..arena.link_count(node) {
        links.push(arena.link(node, i));
    }
    if right.is_some() {
        links.insert(place + 1, right);
    }
    links
}

/// The links before a place, or all of them.
fn lower_links(links: &[Option<NodeId>], place: usize) -> &[Option<NodeId>]
    ensures value { result.now ≡ take place links.now }
{
    if place < links.len() {
        &links[..place]
    } else {
        links
    }
}

/// The links from a place on.
fn upper_links(links: &[Option<NodeId>], place: usize) -> &[Option<NodeId>]
    ensures value { result.now ≡ drop place links.now }
{
    if place < links.len() {
        &links[place..]
    } else {
        &[]
    }
}

/// Gives the node the lower elements of a run that is too long for its kind, and the upper ones to a new node. The element between them is
/// handed out. Two ticks.
fn split<L: Ledger>(
    kind: u32,
    hi: usize,
    arena: &mut Arena,
    node: NodeId,
    run: &[Elem],
    links: &[Option<NodeId>],
    steps: &mut Steps<L>,
) -> (Elem, NodeId)
    requires there { IsSome (node_at arena.old node) }
    requires spare { 0 < arena.old.nodes.spare }
    requires some { 0 < hi }
    requires many { length run.now ≡ hi + 1 }
    requires links { length links.now ≤ hi + 2 }
    requires most { hi ≤ arena.old.nodes.most }
    ensures splits { SplitsAt hi kind arena.old arena.new node run.now links.now result.0 result.1 }
    ensures spare { arena.new.nodes.spare + 1 ≡ arena.old.nodes.spare }
    ensures steps { steps.new ≡ steps.old + 2 }
    ensures most { arena.new.nodes.most ≡ arena.old.nodes.most }
    ensures places { arena.new.nodes.places ≡ arena.old.nodes.places }
    ensures runs { arena.new.runs ≡ arena.old.runs }
{
    let keep = (hi + 1) / 2;
    let right = arena.make(kind, &run[keep + 1..], upper_links(links, keep + 1), steps);
    arena.put(
        node,
        kind,
        &run[..keep],
        lower_links(links, keep + 1),
        steps,
    );
    (run[keep], right)
}

/// Puts an element into the node at a place, and a link behind the link of that place if one is given. A full node is split: the middle
/// element is handed out, and what is above it goes into a new node. At most two ticks.
pub(crate) fn put_at<L: Ledger>(
    kinds: &[NodeKind],
    kind: u32,
    arena: &mut Arena,
    node: NodeId,
    place: usize,
    elem: Elem,
    right: Option<NodeId>,
    steps: &mut Steps<L>,
) -> Option<(Elem, NodeId)>
    requires there { IsSomeAnd (node_at arena.old node) (HasPlaceFor (kind_at kinds.now kind).hi kind place right) }
    requires spare { 0 < arena.old.nodes.spare }
    requires some { 0 < (kind_at kinds.now kind).hi }
    requires few { (kind_at kinds.now kind).hi ≤ 16 }
    requires most { (kind_at kinds.now kind).hi ≤ arena.old.nodes.most }
    ensures widens { IfSome (node_at arena.old node) (λ n. Widens (kind_at kinds.now kind).hi kind arena.old arena.new node place elem right n result) }
    ensures spare { arena.old.nodes.spare ≤ arena.new.nodes.spare + 1 }
    ensures steps { steps.new ≤ steps.old + 2 }
    ensures most { arena.new.nodes.most ≡ arena.old.nodes.most }
    ensures places { arena.new.nodes.places ≡ arena.old.nodes.places }
    ensures runs { arena.new.runs ≡ arena.old.runs }
{
    let hi = longest(kinds, kind);
    if arena.len(node) < hi {
        arena.insert(node, place, elem, right, steps);
        return None;
    }
    let run = wider_run(arena, node, place, &elem);
    let links = wider_links(arena, node, place, right);
    Some(split(
        kind,
        hi,
        arena,
        node,
        &run[..hi + 1],
        links.as_slice(),
        steps,
    ))
}
