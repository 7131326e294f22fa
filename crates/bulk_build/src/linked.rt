//! Structures of nodes.
ghost use Rattle.std.specs.Prelude.{◌≡◌, ◌≢◌, ◌<◌, ◌≤◌, ◌+◌, ◌-◌, ◌*◌, ◌/◌, ℕ, IfOk, OnErr, OnOk, length};
ghost use Rattle.node_arena.specs.Conforming.{IsRising, whole};
ghost use Rattle.node_arena.specs.Kinds.{kind_at, shape_at};
ghost use Rattle.node_arena.specs.Rules.{AreSound, Serves};
ghost use Rattle.bulk_build.specs.Building.{IsBuilt, IsAsBefore, Spends, CanBeNumbered};
ghost use Rattle.bulk_build.specs.Layouts.{Builds, capacity, fill_of, IsTop};

use crate::levels::parts_for;
use crate::woven::woven;
use dt_model::{NoMemory, Steps};
use node_arena::{Arena, Elem, NodeId, NodeKind, Shape, Structure, Top, digits, kind_of};
use std::sync::ledger::Ledger;

/// A new structure of nodes. All are reserved before the first one is made.
pub(crate) fn linked<L: Ledger>(
    kinds: &[NodeKind],
    root: u32,
    elems: &[Elem],
    arena: &mut Arena,
    steps: &mut Steps<L>,
) -> Result<Structure, NoMemory>
    requires declared { root < length kinds.now }
    requires sound { AreSound kinds.now }
    requires linked { shape_at kinds.now root ≢ Shape.Flat }
    requires serves { Serves kinds.now arena.old }
    requires rising { IsRising elems.now }
    requires few { length elems.now < 4294967296 }
    ensures ok { IfOk result (λ st. IsBuilt kinds.now root arena.old arena.new elems.now st) }
    ensures err { OnErr result (IsAsBefore arena.old arena.new) }
    ensures spent { OnOk result (Spends arena.old arena.new (length elems.now) 1) }
    ensures left { OnErr result (CanBeNumbered arena.new → Spends arena.old arena.new 0 1) }
    ensures runs { arena.new.runs ≡ arena.old.runs }
    ensures most { arena.new.nodes.most ≡ arena.old.nodes.most }
    ensures steps { steps.new ≤ steps.old + length elems.now }
{
    let len = elems.len() as u32;
    arena.reserve(nodes_for(kinds, root, len))?;
    let id = subtree(kinds, root, elems, arena, steps);
    Ok(structure(id, len))
}

/// The structure with this root, so many elements, and a spine of as many as their number has binary digits.
fn structure(root: Option<NodeId>, len: u32) -> Structure
    ensures value { IsTop result root len }
{
    let spine = digits(len);
    match root {
        None => Structure {
            top: Top::Empty,
            len,
            spine,
        },
        Some(id) => Structure {
            top: Top::Node(id),
            len,
            spine,
        },
    }
}

/// How many elements the nodes of a structure of this kind have each, but for one that may be short.
fn fill(kinds: &[NodeKind], kind: u32) -> u32
    requires declared { kind < length kinds.now }
    ensures value { result ≡ fill_of kinds.now kind }
{
    let NodeKind { hi, shape, .. } = kind_of(kinds, kind);
    match shape {
        Shape::Flat => 1,
        Shape::Post(post) => { if post == kind { hi } else { 1 } }
        Shape::Ends { pre, post } => { if pre == kind && post == kind { hi } else { 1 } }
        Shape::Woven => hi / 2,
    }
}

/// As many nodes as suffice for so many elements.
fn nodes_for(kinds: &[NodeKind], kind: u32, len: u32) -> u32
    requires declared { kind < length kinds.now }
    requires sound { AreSound kinds.now }
    ensures enough { len ≤ capacity kinds.now kind result }
{
    let NodeKind { hi, shape, .. } = kind_of(kinds, kind);
    match shape {
        Shape::Post(post) => {
            if post == kind {
                parts(len, hi)
            } else {
                len.min(1) + parts(len - hi.min(len), fill(kinds, post))
            }
        }
        _ => parts(len, fill(kinds, kind)),
    }
}

/// The least number of nodes with so many elements each.
fn parts(len: u32, each: u32) -> u32
    requires some { 0 < each }
    ensures fits { len ≤ result * each }
    ensures few { result ≤ len }
{
    parts_for(u64::from(len), u64::from(each)) as u32
}

/// The root of a new structure of this kind with these elements; none where there are no elements.
fn subtree<L: Ledger>(
    kinds: &[NodeKind],
    kind: u32,
    elems: &[Elem],
    arena: &mut Arena,
    steps: &mut Steps<L>,
) -> Option<NodeId>
    requires declared { kind < length kinds.now }
    requires sound { AreSound kinds.now }
    requires linked { shape_at kinds.now kind ≢ Shape.Flat }
    requires serves { Serves kinds.now arena.old }
    requires few { length elems.now < 4294967296 }
    requires spare { length elems.now ≤ capacity kinds.now kind arena.old.nodes.spare }
    ensures built { Builds kinds.now (whole kinds.now kind) arena.old arena.new elems.now result }
    ensures used { arena.old.nodes.spare * fill_of kinds.now kind < arena.new.nodes.spare * fill_of kinds.now kind + length elems.now + fill_of kinds.now kind }
    ensures steps { steps.new + arena.new.nodes.spare ≡ steps.old + arena.old.nodes.spare }
{
    if elems.is_empty() {
        return None;
    }
    let NodeKind { hi, shape, .. } = kind_of(kinds, kind);
    let hi = hi as usize;
    match shape {
        Shape::Flat => None,
        Shape::Woven => Some(woven(kinds, kind, elems, arena, steps)),
        Shape::Post(post) => {
            if post == kind {
                return chain(kinds, kind, elems, arena, steps);
            }
            let cut = hi.min(elems.len());
            let link = subtree(kinds, post, &elems[cut..], arena, steps);
            Some(arena.make(kind, &elems[..cut], &[link], steps))
        }
        Shape::Ends { pre, post } => {
            if pre == kind && post == kind {
                return paired(kinds, kind, elems, arena, steps);
            }
            let (lower, upper) = middle_of(elems.len(), hi);
            let before = subtree(kinds, pre, &elems[..lower], arena, steps);
            let after = subtree(kinds, post, &elems[upper..], arena, steps);
            Some(arena.make(kind, &elems[lower..upper], &[before, after], steps))
        }
    }
}

/// Where the run of a node with two links begins and ends, so that at most half of the elements are on each side. The run and the nodes before
/// it are full where that can be.
fn middle_of(len: usize, hi: usize) -> (usize, usize)
    requires some { 0 < len }
    requires wide { 0 < hi }
    requires few { len < 4294967296 }
    ensures some { result.0 < result.1 }
    ensures within { result.1 ≤ len }
    ensures fits { result.1 ≤ result.0 + hi }
    ensures full { result.1 < len → result.1 ≡ result.0 + hi }
    ensures whole { (nodes : ℕ) × (result.0 ≡ nodes * hi) }
    ensures half_before { 2 * result.0 ≤ len }
    ensures half_behind { 2 * (len - result.1) ≤ len }
{
    let lower = len / 2 / hi * hi;
    let run = hi.min(len - lower);
    (lower, lower + run)
}

/// The root of a new structure of nodes of one kind, both of whose links lead to that kind; none where there are no elements.
fn paired<L: Ledger>(
    kinds: &[NodeKind],
    kind: u32,
    elems: &[Elem],
    arena: &mut Arena,
    steps: &mut Steps<L>,
) -> Option<NodeId>
    requires declared { kind < length kinds.now }
    requires sound { AreSound kinds.now }
    requires paired { shape_at kinds.now kind ≡ (Shape.Ends kind kind) }
    requires serves { Serves kinds.now arena.old }
    requires few { length elems.now < 4294967296 }
    requires spare { length elems.now ≤ arena.old.nodes.spare * (kind_at kinds.now kind).hi }
    ensures built { Builds kinds.now (whole kinds.now kind) arena.old arena.new elems.now result }
    ensures used { arena.old.nodes.spare * (kind_at kinds.now kind).hi < arena.new.nodes.spare * (kind_at kinds.now kind).hi + length elems.now + (kind_at kinds.now kind).hi }
    ensures steps { steps.new + arena.new.nodes.spare ≡ steps.old + arena.old.nodes.spare }
{
    if elems.is_empty() {
        return None;
    }
    let hi = kind_of(kinds, kind).hi as usize;
    let (lower, upper) = middle_of(elems.len(), hi);
    let before = paired(kinds, kind, &elems[..lower], arena, steps);
    let after = paired(kinds, kind, &elems[upper..], arena, steps);
    Some(arena.make(kind, &elems[lower..upper], &[before, after], steps))
}

/// The first node of a new chain of nodes of one kind, all full but the last. It is made from the back, so that each link is known.
fn chain<L: Ledger>(
    kinds: &[NodeKind],
    kind: u32,
    elems: &[Elem],
    arena: &mut Arena,
    steps: &mut Steps<L>,
) -> Option<NodeId>
    requires declared { kind < length kinds.now }
    requires sound { AreSound kinds.now }
    requires chained { shape_at kinds.now kind ≡ Shape.Post kind }
    requires serves { Serves kinds.now arena.old }
    requires few { length elems.now < 4294967296 }
    requires spare { length elems.now ≤ arena.old.nodes.spare * (kind_at kinds.now kind).hi }
    ensures built { Builds kinds.now (whole kinds.now kind) arena.old arena.new elems.now result }
    ensures used { arena.old.nodes.spare * (kind_at kinds.now kind).hi < arena.new.nodes.spare * (kind_at kinds.now kind).hi + length elems.now + (kind_at kinds.now kind).hi }
    ensures steps { steps.new + arena.new.nodes.spare ≡ steps.old + arena.old.nodes.spare }
{
    let hi = kind_of(kinds, kind).hi as usize;
    let mut parts = parts_for(elems.len() as u64, hi as u64) as usize;
    let mut left = elems.len();
    let mut link = None;
    'back: while parts > 0 {
        parts -= 1;
        let start = parts * hi;
        link = Some(arena.make(kind, &elems[start..left], &[link], steps));
        left = start;
    }
    link
}
