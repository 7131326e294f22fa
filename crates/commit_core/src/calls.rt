//! Making a call over the cells of all tensors.

ghost use Rattle.std.specs.Prelude.{◌≡◌, IfOk, OnOk, OnErr};
ghost use Rattle.dt_model.specs.Calls.{IsNoGet};
ghost use Rattle.dt_model.specs.Runs.{after_call};
ghost use Rattle.commit_core.specs.Cells.{contents_of};
ghost use Rattle.commit_core.specs.CellListState.{all_cells, all_orders};
ghost use Rattle.commit_core.specs.Orders.{IsCallOf};
ghost use Rattle.commit_core.specs.Calls.{read_from};

use crate::cells::CellList;
use crate::tensors::{apply_all, number_at, reserve_all};
use dt_model::{Call, NoMemory};

/// Makes a call's updates, and answers what a get reads. A batch takes its room in every tensor before
/// its first change; where it runs out of memory all cells are as before. A get takes no memory.
pub fn make_call(tensors: &mut [CellList], call: &Call) -> Result<Option<u64>, NoMemory>
    requires call { IsCallOf (all_orders tensors.old) call.now }
    ensures orders { all_orders tensors.new ≡ all_orders tensors.old }
    ensures contents { OnOk result (contents_of (all_cells tensors.new) ≡ after_call (contents_of (all_cells tensors.old)) call.now) }
    ensures value { IfOk result (λ read. read ≡ read_from (contents_of (all_cells tensors.old)) call.now) }
    ensures get { OnErr result (IsNoGet call.now) }
    ensures err { OnErr result (all_cells tensors.new ≡ all_cells tensors.old) }
{
    match call {
        Call::Get(cell) => Ok(Some(number_at(tensors, cell.tensor as usize, &cell.at))),
        Call::Batch(updates) => {
            reserve_all(tensors, updates.len())?;
            apply_all(tensors, updates.as_slice());
            Ok(None)
        }
        Call::Query(_) => Ok(None),
    }
}
