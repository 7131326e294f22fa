//! Which cells are a fiber's.
ghost use Rattle.std.specs.Prelude.{◌≡◌, ◌<◌, ◌≤◌, [], length, filter, IsTrue, OnOk};
ghost use Rattle.dt_model.specs.declared.limits.TheConstants.{MOST_ORDER};
ghost use Rattle.dt_model.specs.Tensors.{dims_of, width_of, width_in};
ghost use Rattle.dt_model.specs.Verdicts.{all_in_range, update_cell};
ghost use Rattle.dt_model.specs.Worlds.{decls_are_valid};
ghost use Rattle.fiber_store.specs.Fibers.{has_cell};

use dt_model::{Cell, Coords, Decls, NoMemory, Update, Updates};
use std::collections::VecDeque;

/// Which cells are a fiber's. It has 48 bytes.
#[derive(Drop)]
pub(crate) struct Fiber {
    /// The tensor's number.
    pub tensor: u32,
    /// The tensor's dimensions.
    pub dims: Coords,
    /// How many leading coordinates each of the tensor's fibers has.
    pub width: u32,
    /// The fiber's number among those of its tensor, counted from 0.
    pub number: u32,
}

impl Fiber {
    /// The fiber of a declared tensor with this number.
    pub(crate) fn of(decls: &Decls, tensor: u32, number: u32) -> Fiber
        requires valid { IsTrue (decls_are_valid decls.now) }
        requires declared { tensor < length decls.now.tensors }
        ensures value { result ≡ record { tensor = tensor; dims = dims_of decls.now tensor; width = width_of decls.now tensor; number = number } }
        ensures width { 0 < result.width }
        ensures modes { (0 < length result.dims) × (length result.dims ≤ MOST_ORDER) }
    {
        let declared = &decls.tensors.as_slice()[tensor as usize];
        Fiber {
            tensor,
            dims: declared.dims.copy(),
            width: width_in(declared.dims.as_slice()[0], declared.latches),
            number,
        }
    }

    /// Whether a cell is one of the fiber's.
    pub(crate) fn has(&self, cell: &Cell) -> bool
        requires width { 0 < self.now.width }
        requires modes { 0 < length self.now.dims }
        ensures value { result ≡ has_cell self.now cell.now }
    {
        let at = cell.at.as_slice();
        if cell.tensor != self.tensor {
            return false;
        }
        if !is_in_range(self.dims.as_slice(), at) {
            return false;
        }
        at[0] / self.width == self.number
    }
}

/// How many leading coordinates a fiber has: the leading dimension by the latches, rounded up.
fn width_in(dimension: u32, latches: u32) -> u32
    requires some { 0 < dimension }
    requires latched { 0 < latches }
    ensures value { result ≡ width_in dimension latches }
    ensures some { 0 < result }
{
    ((dimension as u64 + latches as u64 - 1) / latches as u64) as u32
}

/// Whether there is a coordinate for each dimension, and each is below it.
fn is_in_range(dims: &[u32], at: &[u32]) -> bool
    ensures value { result ≡ all_in_range dims.now at.now }
{
    if dims.len() != at.len() {
        return false;
    }
    for (mode, dimension) in dims.iter().enumerate() {
        if at[mode] >= *dimension {
            return false;
        }
    }
    true
}

/// The cell of an update.
pub(crate) fn cell_of(update: &Update) -> &Cell
    ensures value { result.now ≡ update_cell update.now }
{
    match update {
        Update::Set { cell, .. } | Update::Add { cell, .. } => cell,
    }
}

/// Puts copies of those updates whose cells are the fiber's into an empty queue, in their order.
pub(crate) fn keep_own(
    fiber: &Fiber,
    updates: &Updates,
    due: &mut VecDeque<Update>,
) -> Result<(), NoMemory>
    requires width { 0 < fiber.now.width }
    requires modes { 0 < length fiber.now.dims }
    requires empty { due.old.items ≡ [] }
    ensures ok { OnOk result (due.new.items ≡ filter (λ u. has_cell fiber.now (update_cell u)) updates.now) }
{
    for update in updates.as_slice() {
        if fiber.has(cell_of(update)) {
            due.push_back(update.copy())?;
        }
    }
    Ok(())
}
