//! The nonzeros of several fibers of a tensor, one after the other.
ghost use Rattle.std.specs.Prelude.{◌≡◌, ◌<◌, ◌++◌, ℕ, List, length, slice_index_or, IfOk, OnOk, IsTrue};
ghost use Rattle.dt_model.specs.Contents.{Contents};
ghost use Rattle.dt_model.specs.Statements.{all_below, nonzeros};
ghost use Rattle.dt_model.specs.Tensors.{dims_of};
ghost use Rattle.dt_model.specs.Worlds.{decls_are_valid};
ghost use Rattle.sessions.specs.HeldTables.{AddsFiber, AddsStore, AreFibersFor};

use dt_model::{Coords, Decls, NoMemory, Nonzeros, total_latches};
use fiber_store::FiberStore;
use std::alloc::Global;

/// Has the stores of latches.
pub trait Fibers {
    ghost use Rattle.std.specs.Prelude.{ℕ, IfSome, MatchOption};
    ghost use Rattle.fiber_store.specs.Stores.{StoreState};

    /// Whether a latch has a store.
    ghost has: { Self → ℕ → StoreState → Type 0 };

    /// The store of a latch, if it has one.
    fn store(&self, latch: u32) -> Option<&FiberStore>
        ensures some { IfSome result (λ s. has self.now latch s.now) }
        ensures none { MatchOption result ((s : StoreState) → ¬ has self.now latch s) (λ s. Unit {0}) };
}

/// The row at a place.
pub fn row_at(rows: &Nonzeros, place: usize) -> (Coords, u64)
    requires within { place < length rows.now }
    ensures value { (d : List ℕ × ℕ) → result ≡ slice_index_or rows.now place d }
{
    match rows.get(place) {
        Some(row) => row,
        None => unreachable!(),
    }
}

/// Puts pairs at the end of others.
fn append(rows: &mut Nonzeros, pairs: &Nonzeros) -> Result<(), NoMemory>
    ensures ok { OnOk result (rows.new ≡ rows.old ++ pairs.now) }
{
    for index in 0..pairs.len() {
        rows.push(row_at(pairs, index))?;
    }
    Ok(())
}

/// Puts the nonzeros of a store at the end. The first fiber's are taken as they are.
pub fn add_fiber(rows: &mut Nonzeros, store: &FiberStore) -> Result<(), NoMemory>
    ensures ok { OnOk result (AddsFiber rows.old rows.new store.now) }
{
    let pairs = store.pairs()?;
    if rows.len() == 0 {
        *rows = pairs;
        return Ok(());
    }
    append(rows, &pairs)
}

/// Puts the nonzeros of a latch's store at the end, if it has one.
fn add_store<F: Fibers>(rows: &mut Nonzeros, fibers: &F, latch: u32) -> Result<(), NoMemory>
    ensures ok { OnOk result (AddsStore (F.has fibers.now latch) rows.old rows.new) }
{
    match fibers.store(latch) {
        Some(store) => add_fiber(rows, store),
        None => Ok(()),
    }
}

/// The nonzeros of a declared tensor, fiber after fiber in ascending order of latches. It takes time by the number of the
/// tensor's cells.
pub fn rows_of<F: Fibers>(
    alloc: Global,
    decls: &Decls,
    fibers: &F,
    tensor: u32,
) -> Result<Nonzeros, NoMemory>
    requires decls { IsTrue (decls_are_valid decls.now) }
    requires declared { tensor < length decls.now.tensors }
    ensures value { IfOk result (λ pairs. (m : Contents) → AreFibersFor (F.has fibers.now) decls.now m tensor
        → pairs ≡ nonzeros (m tensor) (all_below (dims_of decls.now tensor))) }
{
    let tensors = decls.tensors.as_slice();
    let first = total_latches(&tensors[..tensor as usize]);
    let end = first + tensors[tensor as usize].latches;
    let mut rows = Nonzeros::new(alloc);
    for latch in first..end {
        add_store(&mut rows, fibers, latch)?;
    }
    Ok(rows)
}
