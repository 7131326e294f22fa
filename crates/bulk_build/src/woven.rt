//! Woven structures.
ghost use Rattle.std.specs.Prelude.{◌≡◌, ◌<◌, ◌≤◌, ◌+◌, ◌*◌, ◌/◌, length};
ghost use Rattle.node_arena.specs.Conforming.{whole};
ghost use Rattle.node_arena.specs.declared.kinds.Shape.TheVariants.{Woven};
ghost use Rattle.node_arena.specs.Kinds.{kind_at, shape_at};
ghost use Rattle.node_arena.specs.Rules.{AreSound, Serves};
ghost use Rattle.bulk_build.specs.Layouts.{Builds, Weaves, FitsLevels};

use crate::levels::{Levels, child_levels, later_children, levels_for, start_of_last};
use arrayvec::ArrayVec;
use dt_model::Steps;
use node_arena::{Arena, Elem, NodeId, NodeKind, kind_of};
use std::sync::ledger::Ledger;

/// The root of a new woven structure with these elements, at least one.
pub(crate) fn woven<L: Ledger>(
    kinds: &[NodeKind],
    kind: u32,
    elems: &[Elem],
    arena: &mut Arena,
    steps: &mut Steps<L>,
) -> NodeId
    requires declared { kind < length kinds.now }
    requires sound { AreSound kinds.now }
    requires woven { shape_at kinds.now kind ≡ Woven }
    requires serves { Serves kinds.now arena.old }
    requires some { 0 < length elems.now }
    requires few { length elems.now < 4294967296 }
    requires spare { length elems.now ≤ arena.old.nodes.spare * ((kind_at kinds.now kind).hi / 2) }
    ensures built { Builds kinds.now (whole kinds.now kind) arena.old arena.new elems.now (Some result) }
    ensures used { arena.old.nodes.spare * ((kind_at kinds.now kind).hi / 2) < arena.new.nodes.spare * ((kind_at kinds.now kind).hi / 2) + length elems.now + (kind_at kinds.now kind).hi / 2 }
    ensures steps { steps.new + arena.new.nodes.spare ≡ steps.old + arena.old.nodes.spare }
{
    let width = u64::from(kind_of(kinds, kind).hi) + 1;
    let levels = levels_for(elems.len() as u64 + 1, width);
    woven_at(kinds, kind, levels, elems, arena, steps)
}

/// A new woven node with so many levels below it, and these elements.
fn woven_at<L: Ledger>(
    kinds: &[NodeKind],
    kind: u32,
    levels: Levels,
    elems: &[Elem],
    arena: &mut Arena,
    steps: &mut Steps<L>,
) -> NodeId
    requires declared { kind < length kinds.now }
    requires sound { AreSound kinds.now }
    requires woven { shape_at kinds.now kind ≡ Woven }
    requires serves { Serves kinds.now arena.old }
    requires few { length elems.now < 4294967296 }
    requires levels { FitsLevels ((kind_at kinds.now kind).hi + 1) levels.below levels.room (length elems.now + 1) }
    requires spare { length elems.now ≤ arena.old.nodes.spare * ((kind_at kinds.now kind).hi / 2) }
    ensures woven { Weaves kinds.now kind levels.below levels.room arena.old arena.new elems.now result }
    ensures used { arena.old.nodes.spare * ((kind_at kinds.now kind).hi / 2) < arena.new.nodes.spare * ((kind_at kinds.now kind).hi / 2) + length elems.now + (kind_at kinds.now kind).hi / 2 }
    ensures used_half { levels.room ≤ 2 * (length elems.now + 1) → arena.old.nodes.spare * ((kind_at kinds.now kind).hi / 2) ≤ arena.new.nodes.spare * ((kind_at kinds.now kind).hi / 2) + length elems.now }
    ensures steps { steps.new + arena.new.nodes.spare ≡ steps.old + arena.old.nodes.spare }
{
    if levels.below == 0 {
        return arena.make(kind, elems, &[], steps);
    }
    let width = u64::from(kind_of(kinds, kind).hi) + 1;
    let child = child_levels(levels, width);
    let mut before = later_children(elems.len() as u64 + 1, child.room, width);
    let mut run = ArrayVec::<Elem, 16>::new();
    let mut links = ArrayVec::<Option<NodeId>, 17>::new();
    let mut left = elems.len();
    'back: while before > 0 {
        let start = start_of_last(left, child.room, before);
        let id = woven_at(kinds, kind, child, &elems[start..left], arena, steps);
        links.insert(0, Some(id));
        run.insert(0, elems[start - 1]);
        left = start - 1;
        before -= 1;
    }
    let first = woven_at(kinds, kind, child, &elems[..left], arena, steps);
    links.insert(0, Some(first));
    arena.make(kind, run.as_slice(), links.as_slice(), steps)
}
