//! The numbers of latches.
ghost use Rattle.std.specs.Prelude.{◌≡◌, ◌<◌, ◌≤◌, IsTrue, length, slice_index, ◌/◌};
ghost use Rattle.dt_model.specs.declared.limits.TheConstants.{MOST_LATCHES};
ghost use Rattle.dt_model.specs.Tensors.{latch_of, latch_count, total_latches, width_in};
ghost use Rattle.dt_model.specs.Verdicts.{all_in_range, cell_is_valid};
ghost use Rattle.dt_model.specs.Worlds.{decls_are_valid};

use crate::calls::Cell;
use crate::declared_tensors::{Decls, TensorDecl};

/// The latch of the fiber that a cell is in. Latches are counted from 0, by tensor in order of
/// declaration, then by fiber. It looks at each tensor before the cell's.
pub fn latch_of(decls: &Decls, cell: &Cell) -> u32
    requires valid { IsTrue (decls_are_valid decls.now) }
    requires in_range { IsTrue (cell_is_valid decls.now cell.now) }
    ensures value { result ≡ latch_of decls.now cell.now.tensor cell.now.at }
    ensures below { result < latch_count decls.now }
{
    let tensors = decls.tensors.as_slice();
    total_latches(&tensors[..cell.tensor as usize]) + fiber_in(&tensors[cell.tensor as usize], cell)
}

/// How many latches the tensors have, at most 1,024. It is also the number of the journal's latch.
pub fn latch_count(decls: &Decls) -> u32
    requires valid { IsTrue (decls_are_valid decls.now) }
    ensures value { result ≡ latch_count decls.now }
    ensures few { result ≤ MOST_LATCHES }
{
    total_latches(decls.tensors.as_slice())
}

/// How many latches these tensors have. Of those before a tensor it is the number of its first latch.
pub fn total_latches(tensors: &[TensorDecl]) -> u32
    requires few { total_latches tensors.now ≤ MOST_LATCHES }
    ensures value { result ≡ total_latches tensors.now }
{
    let mut sum = 0;
    for tensor in tensors {
        sum += tensor.latches;
    }
    sum
}

/// The fiber of a tensor that a cell is in, counted from 0.
fn fiber_in(tensor: &TensorDecl, cell: &Cell) -> u32
    requires latched { 0 < tensor.now.latches }
    requires leads { 0 < length tensor.now.dims }
    requires in_range { IsTrue (all_in_range tensor.now.dims cell.now.at) }
    ensures value { let width = width_in (slice_index tensor.now.dims 0) tensor.now.latches in
        result ≡ slice_index cell.now.at 0 / width }
    ensures below { result < tensor.now.latches }
{
    let width = width_in(tensor.dims.as_slice()[0], tensor.latches);
    cell.at.as_slice()[0] / width
}

/// How many leading coordinates a fiber has.
fn width_in(dimension: u32, latches: u32) -> u32
    requires some { 0 < dimension }
    requires latched { 0 < latches }
    ensures value { result ≡ width_in dimension latches }
    ensures some { 0 < result }
{
    ((dimension as u64 + latches as u64 - 1) / latches as u64) as u32
}
