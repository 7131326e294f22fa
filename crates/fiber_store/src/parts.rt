//! What the store of one fiber has, and what each call makes of it.
ghost use Rattle.std.specs.Prelude.{◌≡◌, ◌+◌, ◌<◌, ℕ, List, [], ◌∷◌, All, length, IsTrue, IfOk, IfSome, MatchOption, OnOk, OnErr};
ghost use Rattle.commit_core.specs.Cells.{without_zeros};
ghost use Rattle.dt_model.specs.Contents.{with_update};
ghost use Rattle.dt_model.specs.Pairs.{IsAscending};
ghost use Rattle.dt_model.specs.Statements.{all_below, nonzeros};
ghost use Rattle.dt_model.specs.Tensors.{dims_of, first_latch, latches_of_tensor};
ghost use Rattle.dt_model.specs.Worlds.{decls_are_valid};
ghost use Rattle.dt_model.specs.declared.calls.Update.{Update};
ghost use Rattle.dt_model.specs.declared.declared_tensors.Decls.{Decls};
ghost use Rattle.fiber_store.specs.Stores.{AreValid, IsInFiber, IsSound, content_of, own, store_content};

use crate::cells::{number_after, number_at, put};
use crate::fibers::{Fiber, cell_of, keep_own};
use dt_model::{Cell, Decls, NoMemory, Nonzeros, PackedPairs, Update, Updates};
use std::alloc::Global;
use std::collections::VecDeque;
use std::marker::Model;
use std::mem;

/// The cells of one fiber, and copies of the updates that it is due. A cell of order 1 or 2 takes 16
/// bytes, of order 3 or 4 24, and of order 5 32; a due update takes 56. Room grows by doubling, and
/// stays. A cell that was emptied stays in the list with the number 0.
#[derive(Drop)]
pub(crate) struct StoreParts {
    alloc: Global,
    fiber: Fiber,
    cells: PackedPairs,
    due: VecDeque<Update>,
}

impl Model for StoreParts {
    ghost use Rattle.fiber_store.specs.Fibers.{IsWhole, state_of};
    ghost use Rattle.fiber_store.specs.Stores.{StoreState};

    ghost Value = { StoreState };

    ghost view = { λ a. state_of a.fiber a.cells.pairs a.due.items };

    ghost invariant = { λ a. IsWhole a.fiber a.cells a.due.items };
}

impl StoreParts {
    /// `FiberStore::open`, of the parts.
    pub(crate) fn open(
        alloc: Global,
        decls: &Decls,
        tensor: u32,
        fiber: u32,
        pairs: &Nonzeros,
    ) -> Result<StoreParts, NoMemory>
        requires valid { IsTrue (decls_are_valid decls.now) }
        requires declared { tensor < length decls.now.tensors }
        requires latched { fiber < latches_of_tensor decls.now tensor }
        requires cells { All (λ p. IsInFiber decls.now tensor (first_latch decls.now tensor + fiber) p.0) pairs.now }
        requires ascending { IsAscending pairs.now }
        ensures sound { IfOk result (IsSound decls.now (first_latch decls.now tensor + fiber)) }
        ensures content { IfOk result (λ s. store_content s ≡ content_of tensor pairs.now) }
        ensures due { IfOk result (λ s. s.due ≡ []) }
    {
        let fiber = Fiber::of(decls, tensor, fiber);
        let cells = pairs.packed(alloc, fiber.dims.len())?;
        Ok(StoreParts {
            alloc,
            fiber,
            cells,
            due: VecDeque::new(alloc),
        })
    }

    /// `FiberStore::prepare`, of the parts.
    pub(crate) fn prepare(&mut self, updates: &Updates) -> Result<(), NoMemory>
        ensures content { store_content self.new ≡ store_content self.old }
        ensures sound { (d : Decls) (w : ℕ) → IsSound d w self.old → IsSound d w self.new }
        ensures due { OnOk result ((d : Decls) (w : ℕ) → IsSound d w self.old → AreValid d updates.now → self.new.due ≡ own d w updates.now) }
        ensures full { OnErr result (self.new.due ≡ []) }
    {
        let mut due = mem::replace(&mut self.due, VecDeque::new(self.alloc));
        due.clear();
        keep_own(&self.fiber, updates, &mut due)?;
        self.cells.reserve(due.len())?;
        self.due = due;
        Ok(())
    }

    /// `FiberStore::first_due`, of the parts.
    pub(crate) fn first_due(&self) -> Option<Update>
        ensures some { IfSome result (λ update. (rest : List Update) × (self.now.due ≡ update ∷ rest)) }
        ensures none { MatchOption result (self.now.due ≡ []) (λ update. Unit {0}) }
    {
        match self.due.front() {
            Some(update) => Some(update.copy()),
            None => None,
        }
    }

    /// `FiberStore::apply`, of the parts.
    pub(crate) fn apply(&mut self, update: &Update)
        requires first { (rest : List Update) × (self.old.due ≡ update.now ∷ rest) }
        ensures content { store_content self.new ≡ with_update (store_content self.old) update.now }
        ensures sound { (d : Decls) (w : ℕ) → IsSound d w self.old → IsSound d w self.new }
        ensures due { (rest : List Update) → self.old.due ≡ update.now ∷ rest → self.new.due ≡ rest }
    {
        let number = number_after(&self.cells, update);
        put(&mut self.cells, &cell_of(update).at, number);
        self.due.pop_front();
    }

    /// `FiberStore::get`, of the parts.
    pub(crate) fn get(&self, cell: &Cell) -> u64
        ensures value { result ≡ store_content self.now cell.now.tensor cell.now.at }
    {
        if cell.tensor == self.fiber.tensor {
            number_at(&self.cells, &cell.at)
        } else {
            0
        }
    }

    /// `FiberStore::pairs`, of the parts.
    pub(crate) fn pairs(&self) -> Result<Nonzeros, NoMemory>
        ensures cells { IfOk result (λ pairs. pairs ≡ without_zeros self.now.cells) }
        ensures value { IfOk result (λ pairs. (d : Decls) (w : ℕ) → IsSound d w self.now → pairs ≡ nonzeros (store_content self.now self.now.tensor) (all_below (dims_of d self.now.tensor))) }
    {
        Nonzeros::nonzeros_of(self.alloc, &self.cells)
    }
}
