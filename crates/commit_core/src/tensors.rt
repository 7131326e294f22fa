//! The cells of all tensors: loaded lines, look-ups and updates.

ghost use Rattle.std.specs.Prelude.{◌≡◌, ℕ, ◌+◌, ◌<◌, ◌≤◌, length, slice_index_or, All, IfOk, OnOk};
ghost use Rattle.dt_model.specs.Contents.{with_cell, with_update, with_updates};
ghost use Rattle.dt_model.specs.Runs.{base_of};
ghost use Rattle.dt_model.specs.Verdicts.{update_cell};
ghost use Rattle.dt_model.specs.Worlds.{IsValid};
ghost use Rattle.commit_core.specs.Cells.{contents_of};
ghost use Rattle.commit_core.specs.CellListState.{CellListState, all_cells, all_orders, HaveRoom};
ghost use Rattle.commit_core.specs.Orders.{orders_of, IsCellOf};

use crate::cells::CellList;
use dt_model::{Coords, NoMemory, Update, World};
use std::alloc::Global;

/// The cells of each tensor, from tensor 0 on: its loaded lines, each added to its cell.
pub fn load_base(alloc: Global, world: &World) -> Result<Vec<CellList>, NoMemory>
    requires valid { IsValid world.now }
    ensures contents { IfOk result (λ tensors. contents_of (all_cells tensors.items) ≡ base_of world.now) }
    ensures orders { IfOk result (λ tensors. all_orders tensors.items ≡ orders_of world.now.decls) }
{
    let mut tensors = Vec::new(alloc);
    let decls = world.decls.tensors.as_slice();
    let base = world.base.as_slice();
    for (tensor, lines) in base.iter().enumerate() {
        let list = CellList::load(alloc, decls[tensor].dims.len(), lines)?;
        tensors.push(list)?;
    }
    Ok(tensors)
}

/// The number in a cell, 0 where nothing was written. Tensors are counted from 0. It takes time by the
/// logarithm of the tensor's cells, and no memory.
pub fn number_at(tensors: &[CellList], tensor: usize, at: &Coords) -> u64
    requires within { tensor < length tensors.now }
    ensures value { result ≡ contents_of (all_cells tensors.now) tensor at.now }
{
    tensors[tensor].number(at)
}

/// Takes room for so many more cells in every tensor. Where it runs out of memory some may have it, with
/// cells as before.
pub fn reserve_all(tensors: &mut [CellList], more: usize) -> Result<(), NoMemory>
    ensures orders { all_orders tensors.new ≡ all_orders tensors.old }
    ensures cells { all_cells tensors.new ≡ all_cells tensors.old }
    ensures room { OnOk result (HaveRoom more tensors.new) }
{
    for i in 0..tensors.len() {
        tensors[i].reserve(more)?;
    }
    Ok(())
}

/// Puts a number into a cell, for which there is room.
fn put(tensors: &mut [CellList], tensor: usize, at: &Coords, value: u64)
    requires within { tensor < length tensors.old }
    requires fits { (d : CellListState) → length at.now ≡ (slice_index_or tensors.old tensor d).order }
    requires room { (d : CellListState) → 0 < (slice_index_or tensors.old tensor d).spare }
    ensures orders { all_orders tensors.new ≡ all_orders tensors.old }
    ensures contents { contents_of (all_cells tensors.new) ≡ with_cell (contents_of (all_cells tensors.old)) tensor at.now value }
    ensures room { (n : ℕ) → HaveRoom (n + 1) tensors.old → HaveRoom n tensors.new }
{
    tensors[tensor].put(at, value);
}

/// Makes one update, for which there is room.
fn apply(tensors: &mut [CellList], update: &Update)
    requires cell { IsCellOf (all_orders tensors.old) (update_cell update.now) }
    requires room { HaveRoom 1 tensors.old }
    ensures orders { all_orders tensors.new ≡ all_orders tensors.old }
    ensures contents { contents_of (all_cells tensors.new) ≡ with_update (contents_of (all_cells tensors.old)) update.now }
    ensures room { (n : ℕ) → HaveRoom (n + 1) tensors.old → HaveRoom n tensors.new }
{
    match update {
        Update::Set { cell, value } => {
            put(tensors, cell.tensor as usize, &cell.at, *value);
        }
        Update::Add { cell, value } => {
            let tensor = cell.tensor as usize;
            let sum = number_at(tensors, tensor, &cell.at).wrapping_add(*value);
            put(tensors, tensor, &cell.at, sum);
        }
    }
}

/// Makes all updates in order, for which there is room. A new cell takes time by the number of cells
/// behind it.
pub fn apply_all(tensors: &mut [CellList], updates: &[Update])
    requires cells { All (λ u. IsCellOf (all_orders tensors.old) (update_cell u)) updates.now }
    requires room { HaveRoom (length updates.now) tensors.old }
    ensures orders { all_orders tensors.new ≡ all_orders tensors.old }
    ensures contents { contents_of (all_cells tensors.new) ≡ with_updates (contents_of (all_cells tensors.old)) updates.now }
{
    for update in updates {
        apply(tensors, update);
    }
}
