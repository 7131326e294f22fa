//! The links of a node, and what hangs first at one.
ghost use Rattle.std.specs.Prelude.{◌≡◌, ◌≤◌, ◌<◌, ◌+◌, ◌∷◌, [], None, Some, IsSomeAnd, IfSome, slice_set};
ghost use Rattle.node_arena.specs.declared.kinds.Shape.{Shape};
ghost use Rattle.node_arena.specs.Arenas.{node_at, ChangesNode};
ghost use Rattle.node_arena.specs.Insertions.{DifferInFew};
ghost use Rattle.node_arena.specs.Kinds.{shape_at};
ghost use Rattle.node_arena.specs.Passing.{LinkPlace, link_at};
ghost use Rattle.node_arena.specs.Rules.{AreSound, Serves};
ghost use Rattle.insert_gen.specs.Below.{IsLinked, no_links, HasLinkAt, IsFirst};

use dt_model::Steps;
use node_arena::{Arena, Elem, NodeId, NodeKind, Shape, Side, kind_of};
use std::sync::ledger::Ledger;

/// The place of a link, from 0, and the kind of what hangs there.
#[derive(Clone, Copy)]
pub(crate) struct Hook {
    /// The place.
    pub(crate) place: usize,
    /// The number of the kind.
    pub(crate) kind: u32,
}

/// The link at a side of nodes of a kind.
pub(crate) fn hook_at(kinds: &[NodeKind], kind: u32, side: Side) -> Hook
    ensures value { (link : LinkPlace) → link_at (shape_at kinds.now kind) side ≡ Some link → (result.place ≡ link.place) × (result.kind ≡ link.kind) }
{
    match kind_of(kinds, kind).shape {
        Shape::Post(post) => Hook {
            place: 0,
            kind: post,
        },
        Shape::Ends { pre, post } => match side {
            Side::Pre => Hook {
                place: 0,
                kind: pre,
            },
            Side::Post => Hook {
                place: 1,
                kind: post,
            },
        },
        _ => Hook { place: 0, kind: 0 },
    }
}

/// Sets the link at a place of a node that has one or two. At most one tick; none where the link leads there already.
pub(crate) fn set_link<L: Ledger>(
    arena: &mut Arena,
    node: NodeId,
    place: usize,
    link: Option<NodeId>,
    steps: &mut Steps<L>,
)
    requires there { IsSomeAnd (node_at arena.old node) (HasLinkAt place) }
    requires most { 1 ≤ arena.old.nodes.most }
    ensures sets { IfSome (node_at arena.old node) (λ n. ChangesNode arena.old arena.new node (Some (record n { links = slice_set n.links place link }))) }
    ensures spare { arena.new.nodes.spare ≡ arena.old.nodes.spare }
    ensures steps { steps.new ≤ steps.old + 1 }
{
    let view = arena.view(node);
    if view.link(place) == link {
        return;
    }
    let count = view.link_count();
    let mut links = [view.link(0), view.link(1)];
    links[place] = link;
    arena.set_links(node, &links[..count], steps);
}

/// A new node of a chain or of a tree of chunks, with one element and nothing at its links. One tick.
fn make_bare<L: Ledger>(
    kinds: &[NodeKind],
    kind: u32,
    arena: &mut Arena,
    elem: Elem,
    steps: &mut Steps<L>,
) -> NodeId
    requires linked { IsLinked (shape_at kinds.now kind) }
    requires spare { 0 < arena.old.nodes.spare }
    requires most { 1 ≤ arena.old.nodes.most }
    ensures is_new { node_at arena.old result ≡ None }
    ensures node { ChangesNode arena.old arena.new result
        (Some (record { kind = kind; run = elem ∷ []; links = no_links (shape_at kinds.now kind) })) }
    ensures spare { arena.new.nodes.spare + 1 ≡ arena.old.nodes.spare }
    ensures steps { steps.new ≡ steps.old + 1 }
{
    match kind_of(kinds, kind).shape {
        Shape::Ends { .. } => arena.make(kind, &[elem], &[None, None], steps),
        _ => arena.make(kind, &[elem], &[None], steps),
    }
}

/// The first node of a structure of a kind with links. One tick.
pub(crate) fn make_first<L: Ledger>(
    kinds: &[NodeKind],
    kind: u32,
    arena: &mut Arena,
    elem: Elem,
    steps: &mut Steps<L>,
) -> NodeId
    requires sound { AreSound kinds.now }
    requires serves { Serves kinds.now arena.old }
    requires linked { IsLinked (shape_at kinds.now kind) }
    requires spare { 0 < arena.old.nodes.spare }
    ensures first { IsFirst kinds.now kind arena.old arena.new elem result }
    ensures few { DifferInFew 1 arena.old arena.new }
    ensures spare { arena.new.nodes.spare + 1 ≡ arena.old.nodes.spare }
    ensures steps { steps.new ≡ steps.old + 1 }
    ensures runs { arena.new.runs ≡ arena.old.runs }
    ensures most { arena.new.nodes.most ≡ arena.old.nodes.most }
    ensures places { arena.new.nodes.places ≡ arena.old.nodes.places }
{
    make_bare(kinds, kind, arena, elem, steps)
}
