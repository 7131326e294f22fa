//! The latches of a call are taken with their stores, in ascending order.
ghost use Rattle.std.specs.Prelude.{◌≡◌, ◌==◌, ◌≤◌, ◌<◌, ℕ, [], IsTrue, IfOk, OnOk, OnErr};
ghost use Rattle.dt_model.specs.declared.declared_tensors.Decls.{Decls};
ghost use Rattle.dt_model.specs.Latches.{needs};
ghost use Rattle.dt_model.specs.Tensors.{latch_count};
ghost use Rattle.dt_model.specs.Verdicts.{call_is_valid};
ghost use Rattle.dt_model.specs.Worlds.{decls_are_valid};
ghost use Rattle.fiber_latch.specs.Seats.{BelongsTo};
ghost use Rattle.fiber_latch.specs.declared.rule.Kept.TheVariants.{Fiber};
ghost use Rattle.fiber_store.specs.Stores.{IsSound, store_content};
ghost use Rattle.sessions.specs.Calling.{GoesOn};
ghost use Rattle.sessions.specs.Entering.{IsAboveHeld};
ghost use Rattle.sessions.specs.Holding.{due_of, Holds, IsAsBefore, IsDue, IsOnlyNoted, IsReady, IsTakenInTime};
ghost use Rattle.sessions.specs.Noting.{Notes, stop_of_call, stop_of_take};

use crate::engine::Chair;
use crate::hands::{Fault, Hand, Hands};
use crate::needing::{next_latch, ranges_of};
use crate::takers::Taker;
use dt_model::{Call, Decls, NoMemory};
use fiber_latch::{Busy, Kept, Latches};
use fiber_store::FiberStore;

/// Takes a fiber's latch and its store.
pub fn fiber<T: Taker>(
    taker: &T,
    latches: &Latches<FiberStore>,
    seat: &mut Chair,
    session: u32,
    latch: u32,
) -> Result<FiberStore, Busy>
    requires table { BelongsTo seat.old latches.now }
    requires session { (seat.old.first ≤ session) × (session ≤ seat.old.last) }
    requires latch { (latch < latches.now.config.end) × IsAboveHeld latch seat.old.held }
    ensures ok { IfOk result (λ store. IsTakenInTime latch session seat.old (Fiber store) seat.new) }
    ensures err { OnErr result (IsOnlyNoted seat.old seat.new) }
    ensures notes { Notes T.waits (λ l. l == latch) (stop_of_take result) seat.old seat.new }
{
    match taker.take(latches, seat, session, latch) {
        Ok(Kept::Fiber(store)) => Ok(store),
        Ok(Kept::Journal(_)) => unreachable!(),
        Err(busy) => Err(busy),
    }
}

/// Keeps in a store what a batch is about to change there. Other calls change nothing.
fn prepare_for(store: &mut FiberStore, call: &Call) -> Result<(), NoMemory>
    ensures content { store_content store.new ≡ store_content store.old }
    ensures sound { (d : Decls) (l : ℕ) → IsSound d l store.old → IsSound d l store.new }
    ensures due { OnOk result ((d : Decls) (l : ℕ) → IsTrue (decls_are_valid d) → IsTrue (call_is_valid d call.now) → IsSound d l store.old → IsDue due_of d call.now l store.new) }
{
    match call {
        Call::Batch(updates) => store.prepare(updates),
        Call::Get(_) | Call::Query(_) => Ok(()),
    }
}

/// Takes a fiber's latch and its store, and prepares the store for the call.
fn prepared<T: Taker>(
    taker: &T,
    latches: &Latches<FiberStore>,
    seat: &mut Chair,
    session: u32,
    latch: u32,
    call: &Call,
) -> Result<FiberStore, Fault>
    requires table { BelongsTo seat.old latches.now }
    requires decls { IsTrue (decls_are_valid latches.now.config.world.decls) }
    requires call { IsTrue (call_is_valid latches.now.config.world.decls call.now) }
    requires session { (seat.old.first ≤ session) × (session ≤ seat.old.last) }
    requires latch { (latch < latches.now.config.end) × IsAboveHeld latch seat.old.held }
    ensures ok { IfOk result (λ store. IsTakenInTime latch session seat.old (Fiber store) seat.new) }
    ensures due { IfOk result (λ store. IsDue due_of latches.now.config.world.decls call.now latch store) }
    ensures err { OnErr result (IsAsBefore seat.old seat.new) }
    ensures notes { Notes T.waits (λ l. l == latch) (stop_of_call result) seat.old seat.new }
{
    let mut store = match fiber(taker, latches, seat, session, latch) {
        Ok(store) => store,
        Err(busy) => return Err(Fault::Held(busy)),
    };
    if prepare_for(&mut store, call).is_err() {
        latches.give(seat, latch, Kept::Fiber(store));
        return Err(Fault::Full);
    }
    Ok(store)
}

/// Takes each latch that a call needs, in ascending order, and prepares its store. What was taken is in hand, also where a
/// take failed.
pub fn take_all<T: Taker>(
    taker: &T,
    latches: &Latches<FiberStore>,
    decls: &Decls,
    seat: &mut Chair,
    session: u32,
    call: &Call,
    hands: &mut Hands,
) -> Result<(), Fault>
    requires table { BelongsTo seat.old latches.now }
    requires decls { (decls.now ≡ latches.now.config.world.decls) × IsTrue (decls_are_valid decls.now) × (latches.now.config.end ≡ latch_count decls.now) }
    requires call { IsTrue (call_is_valid decls.now call.now) }
    requires session { (seat.old.first ≤ session) × (session ≤ seat.old.last) }
    requires idle { seat.old.held ≡ [] }
    requires empty { hands.old.items ≡ [] }
    ensures holds { Holds store_content IsSound session seat.new hands.new.items }
    ensures goes { GoesOn seat.old seat.new }
    ensures ok { OnOk result (IsReady due_of session call.now seat.new hands.new.items) }
    ensures notes { Notes T.waits (needs decls.now call.now) (stop_of_call result) seat.old seat.new }
{
    let needed = ranges_of(decls, call);
    let ranges = needed.as_slice();
    let mut place = 0;
    let mut from = 0;
    while let Some(latch) = next_latch(ranges, &mut place, from) {
        if hands.reserve(1).is_err() {
            return Err(Fault::Full);
        }
        let store = prepared(taker, latches, seat, session, latch, call)?;
        match hands.push(Hand { latch, store }) {
            Ok(()) => from = latch + 1,
            Err(_) => unreachable!(),
        }
    }
    Ok(())
}
