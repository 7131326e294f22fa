//! Latches are given back, the last that was taken first.
ghost use Rattle.std.specs.Prelude.{◌≡◌, ℕ, List, []};
ghost use Rattle.dt_model.specs.Contents.{with_updates};
ghost use Rattle.dt_model.specs.declared.calls.Update.{Update};
ghost use Rattle.dt_model.specs.declared.declared_tensors.Decls.{Decls};
ghost use Rattle.fiber_latch.specs.Seats.{BelongsTo};
ghost use Rattle.fiber_store.specs.Stores.{IsSound, store_content};
ghost use Rattle.sessions.specs.Holding.{due_of, Holds, HoldsBehind};

use crate::engine::Chair;
use crate::hands::{Hand, Hands};
use fiber_latch::{Kept, Latches};
use fiber_store::FiberStore;

/// Gives back each latch with its store as it is.
pub fn give_all(latches: &Latches<FiberStore>, seat: &mut Chair, mut hands: Hands)
    requires table { BelongsTo seat.old latches.now }
    requires holds { (s : ℕ) × Holds store_content IsSound s seat.old hands.items }
    ensures seat { seat.new ≡ record seat.old { held = [] } }
{
    while let Some(hand) = hands.pop() {
        let Hand { latch, store } = hand;
        latches.give(seat, latch, Kept::Fiber(store));
    }
}

/// Makes the updates that a store is due.
pub fn apply_due(store: &mut FiberStore)
    ensures content { store_content store.new ≡ with_updates (store_content store.old) store.old.due }
    ensures sound { (d : Decls) (l : ℕ) → IsSound d l store.old → IsSound d l store.new }
{
    while let Some(update) = store.first_due() {
        store.apply(&update);
    }
}

/// Makes in each store what it is due, and gives its latch back.
pub fn apply_all(latches: &Latches<FiberStore>, seat: &mut Chair, mut hands: Hands)
    requires table { BelongsTo seat.old latches.now }
    requires holds { (s : ℕ) × (updates : List Update) × HoldsBehind store_content IsSound due_of s updates seat.old hands.items }
    ensures seat { seat.new ≡ record seat.old { held = [] } }
{
    while let Some(hand) = hands.pop() {
        let Hand { latch, mut store } = hand;
        apply_due(&mut store);
        latches.give(seat, latch, Kept::Fiber(store));
    }
}
