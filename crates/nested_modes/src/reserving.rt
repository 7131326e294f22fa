//! Memory taken for numbers that will be put in on one path.
ghost use Rattle.std.specs.Prelude.{◌≡◌, ◌≤◌, ◌*◌, ℕ, OnOk};
ghost use Rattle.std.specs.List.{AllZip};
ghost use Rattle.std.specs.Option.{IsSomeAnd};
ghost use Rattle.node_arena.specs.Arenas.{run_at};
ghost use Rattle.node_arena.specs.declared.elements.Top.TheVariants as tops;
ghost use Rattle.node_arena.specs.declared.kinds.Shape.TheVariants.{Flat};
ghost use Rattle.node_arena.specs.Kinds.{kinds_of, root_of, shape_at};
ghost use Rattle.node_arena.specs.Modes.{IsNested};
ghost use Rattle.node_arena.specs.Rules.{Serves};
ghost use Rattle.node_arena.specs.Structures.{Tree, IsStructure};
ghost use Rattle.nested_modes.specs.Codes.{modes_of};
ghost use Rattle.nested_modes.specs.Readiness.{most_nodes, HasRoomFor, HasSpares, IsReadyFor};
ghost use Rattle.nested_modes.specs.Preparing.{HasItsRun, HoldsSame, Gains, IsLowFor};

use crate::putting::inner_of;
use dt_model::NoMemory;
use insert_gen::{InsertCode, need};
use iter_gen::look_up;
use node_arena::{Arena, Shape, Structure, Top, kind_of};

/// As many nodes as one insertion takes at most, whatever the length.
fn most_nodes(code: &InsertCode) -> u32
    ensures value { result ≡ most_nodes (kinds_of code.now) (root_of code.now) }
{
    let longest = Structure {
        top: Top::Empty,
        len: u32::MAX,
        spine: 0,
    };
    need(code, &longest).nodes
}

/// Takes memory for the nodes of so many insertions.
fn reserve_nodes(code: &InsertCode, arena: &mut Arena, count: u32) -> Result<(), NoMemory>
    ensures ok { OnOk result (count * most_nodes (kinds_of code.now) (root_of code.now) ≤ arena.new.nodes.spare) }
    ensures gains { OnOk result (Gains arena.old arena.new) }
    ensures holds { HoldsSame arena.old arena.new }
{
    match count.checked_mul(most_nodes(code)) {
        None => Err(NoMemory),
        Some(nodes) => arena.reserve(nodes),
    }
}

/// Takes memory for as many flat runs, with as much room, where structures of the code are flat runs.
fn reserve_flat(code: &InsertCode, arena: &mut Arena, count: u32) -> Result<(), NoMemory>
    ensures ok { OnOk result (shape_at (kinds_of code.now) (root_of code.now) ≡ Flat
        → (count ≤ arena.new.runs.spare) × (count ≤ arena.new.runs.room)) }
    ensures gains { OnOk result (Gains arena.old arena.new) }
    ensures holds { HoldsSame arena.old arena.new }
    ensures nodes { arena.new.nodes ≡ arena.old.nodes }
{
    match kind_of(code.kinds(), code.root()).shape {
        Shape::Flat => arena.reserve_runs(count, count),
        _ => Ok(()),
    }
}

/// Takes memory for so many more elements in the run that a structure is, if it is one.
fn reserve_room(arena: &mut Arena, top: Top, count: u32) -> Result<(), NoMemory>
    requires there { HasItsRun top arena.old }
    ensures ok { OnOk result ((i : ℕ) → top ≡ tops.Run i → IsSomeAnd (run_at arena.new i) (λ r. count ≤ r.room)) }
    ensures spare { (arena.new.nodes ≡ arena.old.nodes) × (arena.new.runs.spare ≡ arena.old.runs.spare) × (arena.new.runs.room ≡ arena.old.runs.room) }
    ensures gains { OnOk result (Gains arena.old arena.new) }
    ensures holds { HoldsSame arena.old arena.new }
{
    match top {
        Top::Run(run) => arena.grow_run(run, count),
        _ => Ok(()),
    }
}

/// Takes memory for so many insertions into a mode's arena, all of which may go into one structure.
fn reserve_mode(
    code: &InsertCode,
    arena: &mut Arena,
    top: &Structure,
    count: u32,
) -> Result<(), NoMemory>
    requires serves { Serves (kinds_of code.now) arena.old }
    requires there { HasItsRun top.now.top arena.old }
    ensures spares { OnOk result (HasSpares count (kinds_of code.now) (root_of code.now) arena.new) }
    ensures room { OnOk result (HasRoomFor count top.now.top (shape_at (kinds_of code.now) (root_of code.now)) arena.new) }
    ensures gains { OnOk result (Gains arena.old arena.new) }
    ensures holds { HoldsSame arena.old arena.new }
{
    reserve_nodes(code, arena, count)?;
    reserve_flat(code, arena, count)?;
    reserve_room(arena, top.top, count)?;
    Ok(())
}

/// Takes memory so that so many numbers can be put in, as far as the structures on a path matter. Nodes and runs stay as they are, and so does the
/// room that there was; only a refusal may leave fewer spare ones, which it says in `node_arena::Arena::reserve`.
pub fn reserve(
    codes: &[InsertCode],
    arenas: &mut [Arena],
    top: &Structure,
    at: &[u32],
    count: u32,
) -> Result<(), NoMemory>
    requires nested { IsNested (modes_of codes.now arenas.old) top.now }
    requires low { IsLowFor count codes.now arenas.old top.now at.now }
    ensures ready { OnOk result (IsReadyFor count codes.now arenas.new top.now at.now) }
    ensures gains { OnOk result (AllZip Gains arenas.old arenas.new) }
    ensures holds { AllZip HoldsSame arenas.old arenas.new }
{
    let Some((arena, below)) = arenas.split_first_mut() else {
        return Ok(());
    };
    let Some((code, later)) = codes.split_first() else {
        return Ok(());
    };
    let Some((lead, rest)) = at.split_first() else {
        return Ok(());
    };
    let there = look_up(code.kinds(), arena, top, *lead);
    reserve_mode(code, arena, top, count)?;
    if later.is_empty() {
        return Ok(());
    }
    let inner = inner_of(&there);
    reserve(later, below, &inner, rest, count)
}
