//! The stores of an engine that is opened: the loaded lines, cut into the fibers of their latches.
ghost use Rattle.std.specs.Prelude.{◌≡◌, ◌+◌, ◌<◌, ◌≤◌, [], length, All, IfOk, OnOk, IsTrue};
ghost use Rattle.dt_model.specs.Runs.{base_of};
ghost use Rattle.dt_model.specs.Tensors.{dims_of, first_latch, latch_count, latches_of_tensor};
ghost use Rattle.dt_model.specs.Verdicts.{all_in_range};
ghost use Rattle.dt_model.specs.Worlds.{IsValid, decls_are_valid};
ghost use Rattle.sessions.specs.Loading.{AreFibersBelow, AreRowsOf, IsCutAt, IsRunOf};

use crate::fiber_rows::row_at;
use commit_core::load_base;
use dt_model::{Cell, Decls, NoMemory, Nonzeros, World, latch_of};
use fiber_store::FiberStore;
use std::alloc::Global;

/// Puts the rows of a latch that come from a place on at the end of no others. The place behind them comes back.
fn take_run(
    decls: &Decls,
    tensor: u32,
    latch: u32,
    rows: &Nonzeros,
    from: usize,
    run: &mut Nonzeros,
) -> Result<usize, NoMemory>
    requires decls { IsTrue (decls_are_valid decls.now) }
    requires declared { tensor < length decls.now.tensors }
    requires in_range { All (λ p. IsTrue (all_in_range (dims_of decls.now tensor) p.0)) rows.now }
    requires from { from ≤ length rows.now }
    requires empty { run.old ≡ [] }
    ensures run { IfOk result (λ to. IsRunOf decls.now tensor latch rows.now from to run.new) }
{
    for place in from..rows.len() {
        let (at, number) = row_at(rows, place);
        let cell = Cell { tensor, at };
        if latch_of(decls, &cell) != latch {
            return Ok(place);
        }
        run.push((cell.at, number))?;
    }
    Ok(rows.len())
}

/// Opens the store of one fiber with the rows of its latch, and puts it behind those of the latches before. The place behind
/// the rows comes back.
fn open_fiber(
    alloc: Global,
    world: &World,
    tensor: u32,
    fiber: u32,
    rows: &Nonzeros,
    from: usize,
    stores: &mut Vec<FiberStore>,
) -> Result<usize, NoMemory>
    requires world { IsValid world.now }
    requires declared { tensor < length world.now.decls.tensors }
    requires latched { fiber < latches_of_tensor world.now.decls tensor }
    requires rows { AreRowsOf world.now.decls (base_of world.now) tensor rows.now }
    requires from { IsCutAt world.now.decls tensor (first_latch world.now.decls tensor + fiber) rows.now from }
    requires stores { AreFibersBelow world.now.decls (base_of world.now) (first_latch world.now.decls tensor + fiber) stores.old.items }
    ensures to { IfOk result (IsCutAt world.now.decls tensor (first_latch world.now.decls tensor + fiber + 1) rows.now) }
    ensures stores { OnOk result (AreFibersBelow world.now.decls (base_of world.now) (first_latch world.now.decls tensor + fiber + 1) stores.new.items) }
{
    let decls = &world.decls;
    let mut run = Nonzeros::new(alloc);
    let latch = stores.len() as u32;
    let to = take_run(decls, tensor, latch, rows, from, &mut run)?;
    let store = FiberStore::open(alloc, decls, tensor, fiber, &run)?;
    stores.push(store)?;
    Ok(to)
}

/// Opens the stores of a tensor's fibers, and puts them behind those of the tensors before.
fn open_fibers(
    alloc: Global,
    world: &World,
    tensor: u32,
    rows: &Nonzeros,
    stores: &mut Vec<FiberStore>,
) -> Result<(), NoMemory>
    requires world { IsValid world.now }
    requires declared { tensor < length world.now.decls.tensors }
    requires rows { AreRowsOf world.now.decls (base_of world.now) tensor rows.now }
    requires stores { AreFibersBelow world.now.decls (base_of world.now) (first_latch world.now.decls tensor) stores.old.items }
    ensures stores { OnOk result (AreFibersBelow world.now.decls (base_of world.now) (first_latch world.now.decls (tensor + 1)) stores.new.items) }
{
    let mut from = 0;
    let latches = world.decls.tensors.as_slice()[tensor as usize].latches;
    for fiber in 0..latches {
        from = open_fiber(alloc, world, tensor, fiber, rows, from, stores)?;
    }
    Ok(())
}

/// The stores of all fibers, in order of latches, with the world's loaded lines. Each tensor's lines are sorted unless they
/// ascend, and added up; its cells are then cut into fibers in one pass.
pub fn load_stores(alloc: Global, world: &World) -> Result<Vec<FiberStore>, NoMemory>
    requires world { IsValid world.now }
    ensures stores { IfOk result (λ stores. AreFibersBelow world.now.decls (base_of world.now) (latch_count world.now.decls) stores.items) }
{
    let lists = load_base(alloc, world)?;
    let mut stores = Vec::new(alloc);
    let all = lists.as_slice();
    for (tensor, list) in all.iter().enumerate() {
        let rows = list.nonzeros(alloc)?;
        open_fibers(alloc, world, tensor as u32, &rows, &mut stores)?;
    }
    Ok(stores)
}
