//! Elements put into flat runs.
ghost use Rattle.std.specs.Prelude.{◌≡◌, ◌≤◌, ◌<◌, ◌+◌};
ghost use Rattle.node_arena.specs.declared.kinds.Shape.TheVariants.{Flat};
ghost use Rattle.node_arena.specs.Insertions.{Lacks, IsPutIn};
ghost use Rattle.node_arena.specs.Kinds.{shape_at};
ghost use Rattle.node_arena.specs.Structures.{Tree, IsStanding, IsConforming, walk_of};
ghost use Rattle.insert_gen.specs.Inserting.{HasRoom, KeepsRoom, HasRoomLeft};
ghost use Rattle.insert_gen.specs.Needs.{runs_for};

use node_arena::{Arena, Elem, NodeKind, Structure, Top};

/// The structure of one element more, with this top.
pub(crate) fn longer(old: &Structure, top: Top, spine: u8) -> Structure
    requires few { old.now.len < 4294967295 }
    ensures value { result ≡ record { top = top; len = old.now.len + 1; spine = spine } }
{
    Structure {
        top,
        len: old.len + 1,
        spine,
    }
}

/// Puts an element into a flat structure: into its run, or into a new one where it is empty. It takes time by the number of elements behind.
pub(crate) fn put_in_run(
    kinds: &[NodeKind],
    kind: u32,
    old: &Structure,
    arena: &mut Arena,
    elem: Elem,
) -> Structure
    requires flat { shape_at kinds.now kind ≡ Flat }
    requires tree { (t : Tree) × IsStanding kinds.now arena.old old.now t × IsConforming kinds.now kind old.now t
        × Lacks elem.at (walk_of kinds.now t) }
    requires few { old.now.len < 4294967295 }
    requires spare { runs_for (shape_at kinds.now kind) old.now.top ≤ arena.old.runs.spare }
    requires room { HasRoom old.now.top (shape_at kinds.now kind) arena.old }
    ensures walk { (t : Tree) → IsStanding kinds.now arena.old old.now t → IsPutIn kinds.now kind arena.old arena.new elem t result }
    ensures len { result.len ≡ old.now.len + 1 }
    ensures spine { result.spine ≡ old.now.spine }
    ensures spare { arena.old.runs.spare ≤ arena.new.runs.spare + runs_for (shape_at kinds.now kind) old.now.top }
    ensures room { KeepsRoom old.now.top arena.old arena.new }
    ensures left { HasRoomLeft old.now result arena.old arena.new }
    ensures spare_room { arena.new.runs.room ≡ arena.old.runs.room }
    ensures nodes { arena.new.nodes ≡ arena.old.nodes }
    ensures places { arena.new.runs.places ≡ arena.old.runs.places }
{
    let top = old.top;
    match top {
        Top::Run(run) => {
            let place = arena.run_place(run, elem.at);
            arena.run_insert(run, place, elem);
            longer(old, top, old.spine)
        }
        _ => {
            let run = arena.make_run();
            arena.run_insert(run, 0, elem);
            longer(old, Top::Run(run), old.spine)
        }
    }
}
