//! What a closed run leaves in each tensor.
ghost use Rattle.std.specs.Prelude.{◌≡◌, ◌<◌, List, Some, length, slice_get, IfOk, IsTrue};
ghost use Rattle.dt_model.specs.Runs.{contents_after};
ghost use Rattle.dt_model.specs.Statements.{all_below, nonzeros};
ghost use Rattle.dt_model.specs.Tensors.{dims_of};
ghost use Rattle.dt_model.specs.Worlds.{decls_are_valid};
ghost use Rattle.dt_model.specs.declared.calls.Entry.{Entry};
ghost use Rattle.dt_model.specs.declared.replies.World.{World};
ghost use Rattle.sessions.specs.Closing.{AreStoresAfter};

use crate::fiber_rows::{Fibers, rows_of};
use dt_model::{Decls, NoMemory, Nonzeros};
use fiber_latch::Closed;
use fiber_store::FiberStore;
use std::alloc::Global;

impl Fibers for Closed<FiberStore> {
    ghost use Rattle.std.specs.Prelude.{◌≡◌, Some, slice_get};

    ghost has = { λ closed l s. slice_get closed.stores.items l ≡ Some s };

    fn store(&self, latch: u32) -> Option<&FiberStore> {
        self.store(latch)
    }
}

/// The nonzeros of a declared tensor in the stores of a closed run, ascending by coordinates. It takes time by the number of
/// the tensor's cells.
pub fn nonzeros_of(
    alloc: Global,
    closed: &Closed<FiberStore>,
    decls: &Decls,
    tensor: u32,
) -> Result<Nonzeros, NoMemory>
    requires decls { IsTrue (decls_are_valid decls.now) }
    requires declared { tensor < length decls.now.tensors }
    ensures value { IfOk result (λ pairs. (w : World) (seen : List Entry) → w.decls ≡ decls.now → AreStoresAfter w seen closed.now.stores.items
        → pairs ≡ nonzeros (contents_after w seen tensor) (all_below (dims_of decls.now tensor))) }
{
    rows_of(alloc, decls, closed, tensor)
}
