//! What one element holds, exchanged.
ghost use Rattle.std.specs.Prelude.{◌≡◌, ◌≤◌, ◌+◌, IsSome};
ghost use Rattle.node_arena.specs.Kinds.{kinds_of, root_of};
ghost use Rattle.node_arena.specs.Structures.{Tree, IsStanding, IsConforming, walk_of};
ghost use Rattle.insert_gen.specs.Replacing.{IsThere, IsReplacedIn, ReplacesAt};
ghost use Rattle.iter_gen.specs.LookingUp.{elem_at};
ghost use Rattle.iter_gen.specs.declared.looking_up.Spot.{Spot};

use crate::rows::InsertCode;
use dt_model::Steps;
use iter_gen::{Spot, find};
use node_arena::{Arena, Elem, Structure};
use std::sync::ledger::Ledger;

/// Replaces the element at a spot.
fn replace_at<L: Ledger>(arena: &mut Arena, spot: Spot, elem: Elem, steps: &mut Steps<L>)
    requires there { IsSome (elem_at arena.old spot) }
    ensures replaces { ReplacesAt arena.old arena.new elem spot }
    ensures spare { arena.new.nodes.spare ≡ arena.old.nodes.spare }
    ensures spare_runs { arena.new.runs.spare ≡ arena.old.runs.spare }
    ensures most { arena.new.nodes.most ≡ arena.old.nodes.most }
    ensures places { arena.new.nodes.places ≡ arena.old.nodes.places }
    ensures places_runs { arena.new.runs.places ≡ arena.old.runs.places }
    ensures steps { steps.new ≤ steps.old + 1 }
{
    match spot {
        Spot::Node { node, place } => arena.replace(node, place, elem, steps),
        Spot::Run { run, place } => arena.run_replace(run, place, elem),
    }
}

/// Exchanges the element with this coordinate, in one node or one flat run, and answers the structure, which is the same. At most one tick. It takes
/// the time of `iter_gen::find`.
pub fn replace<L: Ledger>(
    code: &InsertCode,
    top: &Structure,
    arena: &mut Arena,
    elem: Elem,
    steps: &mut Steps<L>,
) -> Structure
    requires tree { (t : Tree) × IsStanding (kinds_of code.now) arena.old top.now t
        × IsConforming (kinds_of code.now) (root_of code.now) top.now t × IsThere elem.at (walk_of (kinds_of code.now) t) }
    ensures value { result ≡ top.now }
    ensures walk { (t : Tree) → IsStanding (kinds_of code.now) arena.old top.now t
        → IsReplacedIn (kinds_of code.now) (root_of code.now) arena.old arena.new elem t result }
    ensures one { (spot : Spot) × ReplacesAt arena.old arena.new elem spot }
    ensures spare { arena.new.nodes.spare ≡ arena.old.nodes.spare }
    ensures spare_runs { arena.new.runs.spare ≡ arena.old.runs.spare }
    ensures most { arena.new.nodes.most ≡ arena.old.nodes.most }
    ensures places { arena.new.nodes.places ≡ arena.old.nodes.places }
    ensures places_runs { arena.new.runs.places ≡ arena.old.runs.places }
    ensures steps { steps.new ≤ steps.old + 1 }
{
    match find(code.kinds(), arena, top, elem.at) {
        Some(spot) => {
            replace_at(arena, spot, elem, steps);
            *top
        }
        None => unreachable!(),
    }
}
