//! Flat runs.
ghost use Rattle.std.specs.Prelude.{◌≡◌, ◌≢◌, ◌<◌, ◌≤◌, ◌+◌, [], ℕ, Some, IfOk, OnOk, OnErr, IfSome, IsSomeAnd, length};
ghost use Rattle.node_arena.specs.Arenas.{run_at};
ghost use Rattle.node_arena.specs.Conforming.{IsRising};
ghost use Rattle.node_arena.specs.declared.kinds.Shape.TheVariants.{Flat};
ghost use Rattle.node_arena.specs.Kinds.{shape_at};
ghost use Rattle.bulk_build.specs.Building.{IsBuilt, IsAsBefore, Spends, CanBeNumbered};

use dt_model::NoMemory;
use node_arena::{Arena, Elem, NodeKind, RunId, Structure, Top};

/// A new flat structure with these elements.
pub(crate) fn flat(
    kinds: &[NodeKind],
    root: u32,
    elems: &[Elem],
    arena: &mut Arena,
) -> Result<Structure, NoMemory>
    requires flat { shape_at kinds.now root ≡ Flat }
    requires rising { IsRising elems.now }
    requires few { length elems.now < 4294967296 }
    ensures ok { IfOk result (λ st. IsBuilt kinds.now root arena.old arena.new elems.now st) }
    ensures err { OnErr result (IsAsBefore arena.old arena.new) }
    ensures spent { OnOk result (Spends arena.old arena.new (length elems.now) 1) }
    ensures left { OnErr result (CanBeNumbered arena.new → Spends arena.old arena.new 0 1) }
    ensures most { arena.new.nodes.most ≡ arena.old.nodes.most }
{
    if elems.is_empty() {
        return Ok(Structure {
            top: Top::Empty,
            len: 0,
            spine: 0,
        });
    }
    let len = elems.len() as u32;
    let id = run_with_room(arena, len)?;
    fill(arena, id, elems);
    Ok(Structure {
        top: Top::Run(id),
        len,
        spine: 0,
    })
}

/// A new empty run with room for so many elements. The room of other runs stays small.
fn run_with_room(arena: &mut Arena, len: u32) -> Result<RunId, NoMemory>
    ensures is_new { IfOk result (λ id. run_at arena.old id ≡ None) }
    ensures run { IfOk result (λ id. IsSomeAnd (run_at arena.new id) (λ r. (r.elems ≡ []) × (len ≤ r.room))) }
    ensures others { IfOk result (λ id. (other : ℕ) → other ≢ id → run_at arena.new other ≡ run_at arena.old other) }
    ensures nodes { arena.new.nodes ≡ arena.old.nodes }
    ensures err { OnErr result ((other : ℕ) → run_at arena.new other ≡ run_at arena.old other) }
    ensures spent { OnOk result ((arena.old.runs.spare ≤ arena.new.runs.spare + 1) × (arena.old.runs.room ≤ arena.new.runs.room)) }
    ensures left { OnErr result (CanBeNumbered arena.new → (arena.old.runs.spare ≤ arena.new.runs.spare + 1) × (arena.old.runs.room ≤ arena.new.runs.room)) }
{
    arena.reserve_runs(1, 0)?;
    let id = arena.make_run();
    if arena.grow_run(id, len).is_err() {
        arena.free_run(id);
        return Err(NoMemory);
    }
    Ok(id)
}

/// Puts the elements into an empty run that has room for them.
fn fill(arena: &mut Arena, id: RunId, elems: &[Elem])
    requires room { IsSomeAnd (run_at arena.old id) (λ r. (r.elems ≡ []) × (length elems.now ≤ r.room)) }
    ensures run { IsSomeAnd (run_at arena.new id) (λ r. r.elems ≡ elems.now) }
    ensures others { (other : ℕ) → other ≢ id → run_at arena.new other ≡ run_at arena.old other }
    ensures nodes { arena.new.nodes ≡ arena.old.nodes }
    ensures spare { arena.new.runs.spare ≡ arena.old.runs.spare }
    ensures room { arena.new.runs.room ≡ arena.old.runs.room }
{
    for (place, elem) in elems.iter().enumerate() {
        arena.run_insert(id, place, *elem);
    }
}
