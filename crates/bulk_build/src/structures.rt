//! The one call.
ghost use Rattle.std.specs.Prelude.{◌≡◌, ◌≢◌, ◌<◌, ◌≤◌, ◌+◌, ℕ, IfOk, OnOk, OnErr, length};
ghost use Rattle.node_arena.specs.Conforming.{IsRising};
ghost use Rattle.node_arena.specs.Kinds.{shape_at};
ghost use Rattle.node_arena.specs.Rules.{AreSound, Serves};
ghost use Rattle.node_arena.specs.declared.kinds.Shape.TheVariants.{Flat};
ghost use Rattle.bulk_build.specs.Building.{IsBuilt, IsAsBefore, Spends, CanBeNumbered};

use crate::flat::flat;
use crate::linked::linked;
use dt_model::{NoMemory, Steps};
use node_arena::{Arena, Elem, NodeKind, Shape, Structure, kind_of};
use std::sync::ledger::Ledger;

/// A new structure of the root's kind with these elements, which takes time by their number. All memory is taken before the first node is made.
/// What is spare is used before memory is asked for. It is refused when out of memory, and where there would be more than 4,294,967,295 nodes.
/// A flat structure that is refused may take one spare run with it.
pub fn build<L: Ledger>(
    kinds: &[NodeKind],
    root: u32,
    elems: &[Elem],
    arena: &mut Arena,
    steps: &mut Steps<L>,
) -> Result<Structure, NoMemory>
    requires declared { root < length kinds.now }
    requires sound { AreSound kinds.now }
    requires serves { Serves kinds.now arena.old }
    requires rising { IsRising elems.now }
    requires few { length elems.now < 4294967296 }
    ensures ok { IfOk result (λ st. IsBuilt kinds.now root arena.old arena.new elems.now st) }
    ensures err { OnErr result (IsAsBefore arena.old arena.new) }
    ensures spent { OnOk result (Spends arena.old arena.new (length elems.now) 1) }
    ensures left { OnErr result (CanBeNumbered arena.new → Spends arena.old arena.new 0 1) }
    ensures runs { shape_at kinds.now root ≢ Flat → arena.new.runs ≡ arena.old.runs }
    ensures most { arena.new.nodes.most ≡ arena.old.nodes.most }
    ensures steps { steps.new ≤ steps.old + length elems.now }
{
    match kind_of(kinds, root).shape {
        Shape::Flat => flat(kinds, root, elems, arena),
        _ => linked(kinds, root, elems, arena, steps),
    }
}
