//! Elements that go from nodes of one discipline to a structure of another.
ghost use Rattle.std.specs.Prelude.{◌≡◌, ◌≤◌, ◌<◌, ◌+◌, ◌*◌, ◌^◌, ℕ, ◌∷◌, [], None, Some, IsSomeAnd, false, length};
ghost use Rattle.node_arena.specs.declared.kinds.Shape.TheVariants.{Woven};
ghost use Rattle.node_arena.specs.Arenas.{node_at};
ghost use Rattle.node_arena.specs.Conforming.{spine};
ghost use Rattle.node_arena.specs.Insertions.{DifferInFew};
ghost use Rattle.node_arena.specs.Kinds.{shape_at};
ghost use Rattle.node_arena.specs.Passing.{CanPutIn, IsDone, Leaves};
ghost use Rattle.node_arena.specs.Rules.{AreSound, Serves};
ghost use Rattle.node_arena.specs.Trees.{Trees, absent, done, Avoids};
ghost use Rattle.node_arena.specs.Walks.{walk};
ghost use Rattle.insert_gen.specs.Below.{IsLinked, own_depth, HasLinkAt, link_in, CanTake, HasSpareForAll, IsEnough, PutsBelow, Relinks};
ghost use Rattle.insert_gen.specs.Needs.{has_woven, passed_to_woven};

use crate::depths::{deeper, own_depth};
use crate::links::{hook_at, make_first, set_link};
use btree_nodes::insert_below;
use dt_model::Steps;
use node_arena::{Arena, Elem, NodeId, NodeKind, Shape, Side, Step, is_woven, kind_of};
use std::sync::ledger::Ledger;

/// Puts the element into the nodes of one discipline that begin at a node, or answers what goes on from there.
fn step_at<L: Ledger>(
    kinds: &[NodeKind],
    node: NodeId,
    arena: &mut Arena,
    elem: Elem,
    steps: &mut Steps<L>,
) -> Step
    requires sound { AreSound kinds.now }
    requires serves { Serves kinds.now arena.old }
    requires tree { (t : Trees) × CanPutIn kinds.now arena.old elem node t }
    requires linked { IsSomeAnd (node_at arena.old node) (λ n. IsLinked (shape_at kinds.now n.kind)) }
    requires spare { 0 < arena.old.nodes.spare }
    ensures left { (t : Trees) → CanPutIn kinds.now arena.old elem node t → Leaves kinds.now arena.old arena.new elem t result steps.old steps.new }
    ensures few { DifferInFew 2 arena.old arena.new }
    ensures spare { arena.old.nodes.spare ≤ arena.new.nodes.spare + 1 }
    ensures steps { steps.new ≤ steps.old + 2 }
    ensures runs { arena.new.runs ≡ arena.old.runs }
    ensures most { arena.new.nodes.most ≡ arena.old.nodes.most }
    ensures places { arena.new.nodes.places ≡ arena.old.nodes.places }
{
    match kind_of(kinds, arena.kind(node)).shape {
        Shape::Post(_) => block_list::insert(kinds, node, arena, elem, steps),
        _ => chunk_tree::insert(kinds, node, arena, elem, steps),
    }
}

/// Puts elements one by one into the woven structure at a link, and answers where the link leads from then on.
fn put_all<L: Ledger>(
    kinds: &[NodeKind],
    kind: u32,
    link: Option<NodeId>,
    arena: &mut Arena,
    elems: &[Elem],
    steps: &mut Steps<L>,
) -> Option<NodeId>
    requires sound { AreSound kinds.now }
    requires woven { shape_at kinds.now kind ≡ Woven }
    requires serves { Serves kinds.now arena.old }
    requires tree { (t : Trees) × CanTake kinds.now kind arena.old link elems.now t
        × HasSpareForAll (length elems.now) (length elems.now + length (walk kinds.now t)) arena.old.nodes.spare }
    ensures puts { (t : Trees) → CanTake kinds.now kind arena.old link elems.now t → PutsBelow kinds.now kind arena.old arena.new elems.now t result }
    ensures spare { (t : Trees) → CanTake kinds.now kind arena.old link elems.now t → (d : ℕ) → length elems.now + length (walk kinds.now t) < 2 ^ d
        → arena.old.nodes.spare ≤ arena.new.nodes.spare + length elems.now * d }
    ensures runs { arena.new.runs ≡ arena.old.runs }
    ensures most { arena.new.nodes.most ≡ arena.old.nodes.most }
    ensures places { arena.new.nodes.places ≡ arena.old.nodes.places }
{
    match elems.split_first() {
        None => link,
        Some((first, rest)) => {
            let root = insert_below(kinds, kind, link, arena, *first, steps);
            put_all(kinds, kind, Some(root), arena, rest, steps)
        }
    }
}

/// Puts elements into the woven structure at the link of a node.
fn put_in_woven<L: Ledger>(
    kinds: &[NodeKind],
    kind: u32,
    node: NodeId,
    place: usize,
    arena: &mut Arena,
    elems: &[Elem],
    steps: &mut Steps<L>,
)
    requires sound { AreSound kinds.now }
    requires woven { shape_at kinds.now kind ≡ Woven }
    requires serves { Serves kinds.now arena.old }
    requires there { IsSomeAnd (node_at arena.old node) (HasLinkAt place) }
    requires tree { (t : Trees) × CanTake kinds.now kind arena.old (link_in (node_at arena.old node) place) elems.now t × Avoids node t
        × HasSpareForAll (length elems.now) (length elems.now + length (walk kinds.now t)) arena.old.nodes.spare }
    ensures relinks { (t : Trees) → CanTake kinds.now kind arena.old (link_in (node_at arena.old node) place) elems.now t → Avoids node t
        → Relinks kinds.now kind arena.old arena.new node place elems.now t }
    ensures spare { (t : Trees) → CanTake kinds.now kind arena.old (link_in (node_at arena.old node) place) elems.now t → (d : ℕ)
        → length elems.now + length (walk kinds.now t) < 2 ^ d → arena.old.nodes.spare ≤ arena.new.nodes.spare + length elems.now * d }
    ensures runs { arena.new.runs ≡ arena.old.runs }
    ensures most { arena.new.nodes.most ≡ arena.old.nodes.most }
    ensures places { arena.new.nodes.places ≡ arena.old.nodes.places }
{
    let link = arena.link(node, place);
    let link = put_all(kinds, kind, link, arena, elems, steps);
    set_link(arena, node, place, link, steps);
}

/// Puts an element into the empty structure at the link of a node. Two ticks.
fn put_in_empty<L: Ledger>(
    kinds: &[NodeKind],
    kind: u32,
    node: NodeId,
    place: usize,
    arena: &mut Arena,
    elem: Elem,
    steps: &mut Steps<L>,
)
    requires sound { AreSound kinds.now }
    requires linked { IsLinked (shape_at kinds.now kind) }
    requires serves { Serves kinds.now arena.old }
    requires there { IsSomeAnd (node_at arena.old node) (HasLinkAt place) }
    requires spare { 0 < arena.old.nodes.spare }
    ensures relinks { (r : Relinks kinds.now kind arena.old arena.new node place (elem ∷ []) (absent done))
        × (spine kinds.now r.below.tree ≡ own_depth (shape_at kinds.now kind)) }
    ensures few { DifferInFew 2 arena.old arena.new }
    ensures spare { arena.old.nodes.spare ≤ arena.new.nodes.spare + 1 }
    ensures steps { steps.new ≤ steps.old + 2 }
    ensures runs { arena.new.runs ≡ arena.old.runs }
    ensures most { arena.new.nodes.most ≡ arena.old.nodes.most }
    ensures places { arena.new.nodes.places ≡ arena.old.nodes.places }
{
    let first = make_first(kinds, kind, arena, elem, steps);
    set_link(arena, node, place, Some(first), steps);
}

/// Puts an element into the structure that begins at a node of a chain or of a tree of chunks, and answers how deep it went, as a `Step` tells it.
/// The structure has at most `room` elements. The root stays the root. A chain is passed by a loop; a call of itself is one structure further down,
/// of another kind. It calls itself at most `room` levels deep.
pub(crate) fn put_in_linked<L: Ledger>(
    kinds: &[NodeKind],
    node: NodeId,
    arena: &mut Arena,
    elem: &Elem,
    room: u32,
    steps: &mut Steps<L>,
) -> Option<u8>
    requires sound { AreSound kinds.now }
    requires serves { Serves kinds.now arena.old }
    requires tree { (t : Trees) × CanPutIn kinds.now arena.old elem.now node t × (length (walk kinds.now t) ≤ room) }
    requires linked { IsSomeAnd (node_at arena.old node) (λ n. IsLinked (shape_at kinds.now n.kind)) }
    requires spare { IsEnough kinds.now room arena.old.nodes.spare }
    ensures done { (t : Trees) → CanPutIn kinds.now arena.old elem.now node t → IsDone kinds.now arena.old arena.new elem.now t result }
    ensures few { has_woven kinds.now ≡ false → DifferInFew 2 arena.old arena.new }
    ensures steps { has_woven kinds.now ≡ false → steps.new ≤ steps.old + 2 }
    ensures spare { (d : ℕ) → room < 2 ^ d → arena.old.nodes.spare ≤ arena.new.nodes.spare + (1 + passed_to_woven kinds.now * d) }
    ensures runs { arena.new.runs ≡ arena.old.runs }
    ensures most { arena.new.nodes.most ≡ arena.old.nodes.most }
    ensures places { arena.new.nodes.places ≡ arena.old.nodes.places }
{
    match step_at(kinds, node, arena, *elem, steps) {
        Step::Done { deep } => deep,
        Step::Pass {
            node: passer,
            side,
            elems,
            above,
        } => {
            let hook = hook_at(kinds, arena.kind(passer), side);
            if is_woven(kinds, hook.kind) {
                put_in_woven(
                    kinds,
                    hook.kind,
                    passer,
                    hook.place,
                    arena,
                    elems.as_slice(),
                    steps,
                );
                return deeper(above, Some(0));
            }
            match arena.link(passer, hook.place) {
                Some(root) => {
                    let deep = put_in_linked(kinds, root, arena, elem, room - 1, steps);
                    deeper(above, deep)
                }
                None => {
                    put_in_empty(kinds, hook.kind, passer, hook.place, arena, *elem, steps);
                    deeper(above, Some(own_depth(kinds, hook.kind)))
                }
            }
        }
    }
}
