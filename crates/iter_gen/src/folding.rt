//! A whole walk, handed to a visitor.
ghost use Rattle.std.specs.Prelude.{◌≡◌, ◌<◌, IfSome, IsSomeAnd};
ghost use Rattle.node_arena.specs.declared.elements.Elem.{Elem};
ghost use Rattle.node_arena.specs.Arenas.{run_at};
ghost use Rattle.node_arena.specs.Rules.{AreSound};
ghost use Rattle.node_arena.specs.Structures.{Tree, IsStanding, walk_of};
ghost use Rattle.iter_gen.specs.Folding.{CanFoldLink, CanFoldBetween, CanFoldFront, CanFoldBelow, FoldsLink, FoldsBetween, FoldsFront, FoldsBelow};
ghost use Rattle.iter_gen.specs.Visiting.{Visits, AllowsEach, CanBeFolded};

use crate::descending::{behind, coordinate, shape_of};
use crate::visitors::Visitor;
use node_arena::{Arena, Elem, NodeId, NodeKind, NodeView, RunId, Shape, Structure, Top};

/// Hands over the elements of a node's run.
fn fold_run<V: Visitor>(node: &NodeView<'_>, visitor: &mut V) -> Result<(), V::Stop>
    requires allowed { AllowsEach (V.allows visitor.old) node.now.run }
    ensures visits { Visits V.visits node.now.run visitor.old result visitor.new }
    ensures kept { (e : Elem) → V.allows visitor.old e → V.allows visitor.new e }
{
    for place in 0..node.len() {
        match node.elem(place) {
            None => unreachable!(),
            Some(elem) => match visitor.visit(elem) {
                Ok(()) => {}
                Err(stop) => return Err(stop),
            },
        }
    }
    Ok(())
}

/// The coordinate of an element, as a bound for what hangs before it.
fn bound(elem: &Elem) -> u64
    ensures value { result ≡ elem.now.at }
    ensures small { result < 4294967296 }
{
    elem.at as u64
}

/// Hands over what hangs at a link, whose coordinates are below `end`.
#[cycle(folding)]
fn fold_link<V: Visitor>(
    kinds: &[NodeKind],
    arena: &Arena,
    link: Option<NodeId>,
    end: u64,
    visitor: &mut V,
) -> Result<(), V::Stop>
    requires sound { AreSound kinds.now }
    requires hangs { CanFoldLink (V.allows visitor.old) kinds.now arena.now link end }
    ensures visits { FoldsLink V.visits kinds.now arena.now visitor.old result visitor.new link end }
    ensures kept { (e : Elem) → V.allows visitor.old e → V.allows visitor.new e }
{
    match link {
        None => Ok(()),
        Some(node) => fold_below(kinds, arena, node, end, visitor),
    }
}

/// Hands over the elements of a woven node with children, and before each of them what hangs there.
#[cycle(folding)]
fn fold_between<V: Visitor>(
    kinds: &[NodeKind],
    arena: &Arena,
    node: &NodeView<'_>,
    end: u64,
    visitor: &mut V,
) -> Result<(), V::Stop>
    requires sound { AreSound kinds.now }
    requires hangs { CanFoldBetween (V.allows visitor.old) kinds.now arena.now end node.now }
    ensures visits { FoldsBetween V.visits kinds.now arena.now visitor.old result visitor.new node.now }
    ensures kept { (e : Elem) → V.allows visitor.old e → V.allows visitor.new e }
{
    for place in 0..node.len() {
        match node.elem(place) {
            None => unreachable!(),
            Some(elem) => {
                match fold_link(kinds, arena, node.link(place), bound(&elem), visitor) {
                    Ok(()) => {}
                    Err(stop) => return Err(stop),
                }
                match visitor.visit(elem) {
                    Ok(()) => {}
                    Err(stop) => return Err(stop),
                }
            }
        }
    }
    Ok(())
}

/// Hands over a node's elements and what hangs before them.
#[cycle(folding)]
fn fold_front<V: Visitor>(
    kinds: &[NodeKind],
    arena: &Arena,
    node: &NodeView<'_>,
    end: u64,
    visitor: &mut V,
) -> Result<(), V::Stop>
    requires sound { AreSound kinds.now }
    requires hangs { CanFoldFront (V.allows visitor.old) kinds.now arena.now end node.now }
    ensures visits { FoldsFront V.visits kinds.now arena.now visitor.old result visitor.new node.now }
    ensures kept { (e : Elem) → V.allows visitor.old e → V.allows visitor.new e }
{
    match shape_of(kinds, node.kind()) {
        Shape::Flat => fold_run(node, visitor),
        Shape::Post(_) => fold_run(node, visitor),
        Shape::Ends { .. } => {
            let first = coordinate(node, 0) as u64;
            match fold_link(kinds, arena, node.link(0), first, visitor) {
                Ok(()) => fold_run(node, visitor),
                Err(stop) => Err(stop),
            }
        }
        Shape::Woven => {
            if node.link_count() == 0 {
                fold_run(node, visitor)
            } else {
                fold_between(kinds, arena, node, end, visitor)
            }
        }
    }
}

/// Hands over the elements at and below a node, whose coordinates are below `end`; where `end` is 2^32, they may be any. What hangs behind a
/// run is gone on with, so a chain is passed by the loop, whatever its length.
#[cycle(folding)]
fn fold_below<V: Visitor>(
    kinds: &[NodeKind],
    arena: &Arena,
    root: NodeId,
    end: u64,
    visitor: &mut V,
) -> Result<(), V::Stop>
    requires sound { AreSound kinds.now }
    requires searches { CanFoldBelow (V.allows visitor.old) kinds.now arena.now root end }
    ensures visits { FoldsBelow V.visits kinds.now arena.now visitor.old result visitor.new root }
    ensures kept { (e : Elem) → V.allows visitor.old e → V.allows visitor.new e }
{
    let mut here = root;
    let mut low = 0;
    'along: loop {
        let node = arena.view(here);
        match fold_front(kinds, arena, &node, end, visitor) {
            Ok(()) => {}
            Err(stop) => return Err(stop),
        }
        match behind(kinds, &node) {
            None => return Ok(()),
            Some(next) => {
                low = coordinate(&node, node.len() - 1) as u64 + 1;
                here = next;
            }
        }
    }
}

/// Hands over the elements of a flat run.
fn fold_flat<V: Visitor>(arena: &Arena, run: RunId, visitor: &mut V) -> Result<(), V::Stop>
    requires there { IsSomeAnd (run_at arena.now run) (λ r. AllowsEach (V.allows visitor.old) r.elems) }
    ensures visits { IfSome (run_at arena.now run) (λ r. Visits V.visits r.elems visitor.old result visitor.new) }
{
    for place in 0..arena.run_len(run) {
        match arena.run_elem(run, place) {
            None => unreachable!(),
            Some(elem) => match visitor.visit(elem) {
                Ok(()) => {}
                Err(stop) => return Err(stop),
            },
        }
    }
    Ok(())
}

/// Hands over all elements of a structure, in the order of its walk; an `Err` of the visitor ends it. It looks at each node once, and takes no
/// memory.
pub fn fold<V: Visitor>(
    kinds: &[NodeKind],
    arena: &Arena,
    structure: &Structure,
    visitor: &mut V,
) -> Result<(), V::Stop>
    requires sound { AreSound kinds.now }
    requires conforms { CanBeFolded (V.allows visitor.old) kinds.now arena.now structure.now }
    ensures visits { (t : Tree) → IsStanding kinds.now arena.now structure.now t → Visits V.visits (walk_of kinds.now t) visitor.old result visitor.new }
{
    let top = structure.top;
    match top {
        Top::Empty => Ok(()),
        Top::Node(root) => fold_below(kinds, arena, root, 1 << 32, visitor),
        Top::Run(run) => fold_flat(arena, run, visitor),
    }
}
