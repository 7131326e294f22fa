//! The store of one fiber.
ghost use Rattle.std.specs.Prelude.{◌≡◌, ◌+◌, ◌<◌, ℕ, List, [], ◌∷◌, All, length, IsTrue, IfOk, IfSome, MatchOption, OnOk, OnErr};
ghost use Rattle.commit_core.specs.Cells.{without_zeros};
ghost use Rattle.dt_model.specs.Contents.{with_update};
ghost use Rattle.dt_model.specs.Pairs.{IsAscending};
ghost use Rattle.dt_model.specs.Statements.{all_below, nonzeros};
ghost use Rattle.dt_model.specs.Tensors.{dims_of, first_latch, latches_of_tensor};
ghost use Rattle.dt_model.specs.Worlds.{decls_are_valid};
ghost use Rattle.dt_model.specs.declared.calls.Update.{Update};
ghost use Rattle.dt_model.specs.declared.declared_tensors.Decls.{Decls};
ghost use Rattle.fiber_store.specs.Stores.{AreValid, IsInFiber, IsSound, content_of, own, store_content};

use crate::parts::StoreParts;
use dt_model::{Cell, Decls, Keep, NoMemory, Nonzeros, Update, Updates};
use std::alloc::Global;
use std::marker::Model;

/// The cells of one fiber, and copies of the updates that it is due. It has 8 bytes, and its parts lie in
/// an allocation of their own: a latch hands a store from session to session, and then only its place moves.
#[derive(Drop)]
pub struct FiberStore {
    parts: Box<StoreParts>,
}

impl Model for FiberStore {
    ghost use Rattle.fiber_store.specs.Stores.{StoreState};

    ghost Value = { StoreState };

    ghost view = { λ a. a.parts.value };
}

impl Keep for FiberStore {
    ghost use Rattle.fiber_store.specs.Stores.{IsSound, store_content};

    ghost content = { store_content };

    ghost sound = { IsSound };
}

impl FiberStore {
    /// The store of a fiber with these cells, whose numbers may be 0. It takes two allocations where
    /// the pairs are packed by the tensor's order: one is for the parts.
    pub fn open(
        alloc: Global,
        decls: &Decls,
        tensor: u32,
        fiber: u32,
        pairs: &Nonzeros,
    ) -> Result<FiberStore, NoMemory>
        requires valid { IsTrue (decls_are_valid decls.now) }
        requires declared { tensor < length decls.now.tensors }
        requires latched { fiber < latches_of_tensor decls.now tensor }
        requires cells { All (λ p. IsInFiber decls.now tensor (first_latch decls.now tensor + fiber) p.0) pairs.now }
        requires ascending { IsAscending pairs.now }
        ensures sound { IfOk result (IsSound decls.now (first_latch decls.now tensor + fiber)) }
        ensures content { IfOk result (λ s. store_content s ≡ content_of tensor pairs.now) }
        ensures due { IfOk result (λ s. s.due ≡ []) }
    {
        let parts = StoreParts::open(alloc, decls, tensor, fiber, pairs)?;
        Ok(FiberStore {
            parts: Box::new(alloc, parts)?,
        })
    }

    /// Keeps copies of the updates whose cells are the store's, at most 64 in a valid batch, with
    /// room for a new cell each. What was due before is dropped. It takes time by the number of
    /// updates, and of cells where their room grows.
    pub fn prepare(&mut self, updates: &Updates) -> Result<(), NoMemory>
        ensures content { store_content self.new ≡ store_content self.old }
        ensures sound { (d : Decls) (w : ℕ) → IsSound d w self.old → IsSound d w self.new }
        ensures due { OnOk result ((d : Decls) (w : ℕ) → IsSound d w self.old → AreValid d updates.now → self.new.due ≡ own d w updates.now) }
        ensures full { OnErr result (self.new.due ≡ []) }
    {
        self.parts.prepare(updates)
    }

    /// A copy of the update that is due first, if there is one.
    pub fn first_due(&self) -> Option<Update>
        ensures some { IfSome result (λ update. (rest : List Update) × (self.now.due ≡ update ∷ rest)) }
        ensures none { MatchOption result (self.now.due ≡ []) (λ update. Unit {0}) }
    {
        self.parts.first_due()
    }

    /// Makes the update that is due first. It takes no memory, and the time of two binary searches; a
    /// new cell takes time by the number of cells behind it.
    pub fn apply(&mut self, update: &Update)
        requires first { (rest : List Update) × (self.old.due ≡ update.now ∷ rest) }
        ensures content { store_content self.new ≡ with_update (store_content self.old) update.now }
        ensures sound { (d : Decls) (w : ℕ) → IsSound d w self.old → IsSound d w self.new }
        ensures due { (rest : List Update) → self.old.due ≡ update.now ∷ rest → self.new.due ≡ rest }
    {
        self.parts.apply(update);
    }

    /// The number in a cell, 0 where the store has none. It has no cell of another tensor. It takes a
    /// binary search.
    pub fn get(&self, cell: &Cell) -> u64
        ensures value { result ≡ store_content self.now cell.now.tensor cell.now.at }
    {
        self.parts.get(cell)
    }

    /// The cells whose number isn't 0, in ascending order. It takes one allocation, and time by the
    /// number of cells.
    pub fn pairs(&self) -> Result<Nonzeros, NoMemory>
        ensures cells { IfOk result (λ pairs. pairs ≡ without_zeros self.now.cells) }
        ensures value { IfOk result (λ pairs. (d : Decls) (w : ℕ) → IsSound d w self.now → pairs ≡ nonzeros (store_content self.now self.now.tensor) (all_below (dims_of d self.now.tensor))) }
    {
        self.parts.pairs()
    }
}
