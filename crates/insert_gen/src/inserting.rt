//! Insertion into a whole structure of any schema.
ghost use Rattle.std.specs.Prelude.{◌≡◌, ◌≢◌, ◌≤◌, ◌<◌, ◌+◌, ℕ, true, false};
ghost use Rattle.node_arena.specs.declared.kinds.Shape.TheVariants.{Flat, Woven};
ghost use Rattle.node_arena.specs.Insertions.{Lacks, IsPutIn, DifferInFew};
ghost use Rattle.node_arena.specs.Kinds.{kinds_of, root_of, shape_at};
ghost use Rattle.node_arena.specs.Rules.{AreSound, Serves};
ghost use Rattle.node_arena.specs.Structures.{Tree, IsStanding, IsConforming, walk_of};
ghost use Rattle.btree_nodes.specs.Writes.{WritesFew};
ghost use Rattle.insert_gen.specs.Below.{IsLinked};
ghost use Rattle.insert_gen.specs.Inserting.{has_ends, KeepsLow, HasRoom, KeepsRoom, HasRoomLeft};
ghost use Rattle.insert_gen.specs.Needs.{has_woven, Wants, WantsNodes};
ghost use Rattle.insert_gen.specs.declared.needs.Spares.{Spares};

use crate::depths::{own_depth, raised};
use crate::flat::{longer, put_in_run};
use crate::links::make_first;
use crate::passing::put_in_linked;
use crate::rows::InsertCode;
use dt_model::Steps;
use node_arena::{Arena, Elem, NodeKind, Shape, Structure, Top, kind_of};
use std::sync::ledger::Ledger;

/// Puts an element into a structure of a kind with links: below its root, or into a first node.
fn put_in_nodes<L: Ledger>(
    kinds: &[NodeKind],
    kind: u32,
    old: &Structure,
    arena: &mut Arena,
    elem: Elem,
    steps: &mut Steps<L>,
) -> Structure
    requires sound { AreSound kinds.now }
    requires linked { IsLinked (shape_at kinds.now kind) }
    requires serves { Serves kinds.now arena.old }
    requires tree { (t : Tree) × IsStanding kinds.now arena.old old.now t × IsConforming kinds.now kind old.now t
        × Lacks elem.at (walk_of kinds.now t) }
    requires few { old.now.len < 4294967295 }
    requires spare { (n : ℕ) × WantsNodes kinds.now kind old.now.len n × (n ≤ arena.old.nodes.spare) }
    requires low { has_ends kinds.now ≡ true → old.now.spine < 96 }
    ensures walk { (t : Tree) → IsStanding kinds.now arena.old old.now t → IsPutIn kinds.now kind arena.old arena.new elem t result }
    ensures len { result.len ≡ old.now.len + 1 }
    ensures spine { KeepsLow kinds.now arena.old arena.new old.now result }
    ensures few { has_woven kinds.now ≡ false → DifferInFew 2 arena.old arena.new }
    ensures steps { has_woven kinds.now ≡ false → steps.new ≤ steps.old + 2 }
    ensures spare { (n : ℕ) → WantsNodes kinds.now kind old.now.len n → arena.old.nodes.spare ≤ arena.new.nodes.spare + n }
    ensures runs { arena.new.runs ≡ arena.old.runs }
    ensures most { arena.new.nodes.most ≡ arena.old.nodes.most }
    ensures places { arena.new.nodes.places ≡ arena.old.nodes.places }
{
    match old.top {
        Top::Node(node) => {
            let deep = put_in_linked(kinds, node, arena, &elem, old.len, steps);
            longer(old, Top::Node(node), raised(kinds, old.spine, deep))
        }
        _ => {
            let node = make_first(kinds, kind, arena, elem, steps);
            let spine = raised(kinds, old.spine, Some(own_depth(kinds, kind)));
            longer(old, Top::Node(node), spine)
        }
    }
}

/// Puts an element into a structure of the code's schema, and answers the structure that it has become. It takes no memory: what `need` answers
/// has to be spare, and in a flat run has to be room. At most 2 ticks without woven kinds, 2h + 1 with a woven root of height h. The length is
/// below 4,294,967,295 before, and the spine below `MOST_SPINE`, 96, where a kind has two links.
pub fn insert<L: Ledger>(
    code: &InsertCode,
    top: Structure,
    arena: &mut Arena,
    elem: Elem,
    steps: &mut Steps<L>,
) -> Structure
    requires serves { Serves (kinds_of code.now) arena.old }
    requires tree { (t : Tree) × IsStanding (kinds_of code.now) arena.old top t × IsConforming (kinds_of code.now) (root_of code.now) top t
        × Lacks elem.at (walk_of (kinds_of code.now) t) }
    requires few { top.len < 4294967295 }
    requires spare { (n : Spares) × Wants (kinds_of code.now) (root_of code.now) top n × (n.nodes ≤ arena.old.nodes.spare)
        × (n.runs ≤ arena.old.runs.spare) }
    requires low { has_ends (kinds_of code.now) ≡ true → top.spine < 96 }
    requires room { HasRoom top.top (shape_at (kinds_of code.now) (root_of code.now)) arena.old }
    ensures walk { (t : Tree) → IsStanding (kinds_of code.now) arena.old top t
        → IsPutIn (kinds_of code.now) (root_of code.now) arena.old arena.new elem t result }
    ensures len { result.len ≡ top.len + 1 }
    ensures spine { KeepsLow (kinds_of code.now) arena.old arena.new top result }
    ensures few { has_woven (kinds_of code.now) ≡ false → DifferInFew 2 arena.old arena.new }
    ensures steps { has_woven (kinds_of code.now) ≡ false → steps.new ≤ steps.old + 2 }
    ensures woven { shape_at (kinds_of code.now) (root_of code.now) ≡ Woven → (t : Tree) → IsStanding (kinds_of code.now) arena.old top t
        → WritesFew (kinds_of code.now) arena.old arena.new t top.len steps.old steps.new }
    ensures spare { (n : Spares) → Wants (kinds_of code.now) (root_of code.now) top n
        → (arena.old.nodes.spare ≤ arena.new.nodes.spare + n.nodes) × (arena.old.runs.spare ≤ arena.new.runs.spare + n.runs) }
    ensures room { KeepsRoom top.top arena.old arena.new }
    ensures left { HasRoomLeft top result arena.old arena.new }
    ensures spare_room { arena.new.runs.room ≡ arena.old.runs.room }
    ensures runs { shape_at (kinds_of code.now) (root_of code.now) ≢ Flat → arena.new.runs ≡ arena.old.runs }
    ensures nodes { shape_at (kinds_of code.now) (root_of code.now) ≡ Flat → arena.new.nodes ≡ arena.old.nodes }
    ensures most { arena.new.nodes.most ≡ arena.old.nodes.most }
    ensures places { arena.new.nodes.places ≡ arena.old.nodes.places }
    ensures places_runs { arena.new.runs.places ≡ arena.old.runs.places }
{
    let kinds = code.kinds();
    let root = code.root();
    match kind_of(kinds, root).shape {
        Shape::Flat => put_in_run(kinds, root, &top, arena, elem),
        Shape::Woven => btree_nodes::insert(kinds, root, top, arena, elem, steps),
        _ => put_in_nodes(kinds, root, &top, arena, elem, steps),
    }
}
