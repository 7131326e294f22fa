//! What a closed table leaves: each store in its slot, and the journal.
ghost use Rattle.std.specs.Prelude.{◌≡◌, ℕ, ◌+◌, ◌<◌, ◌≤◌, List, [], Some, None, length, slice_get, slice_index_or, IsTrue, false, vec_len, vec_capacity};
ghost use Rattle.std.specs.Option.{option_copied};
ghost use Rattle.std.specs.Mem.Slots.{slots_items, slots_filled, slots_len, IsFull};
ghost use Rattle.dt_model.specs.JournalValue.{JournalValue};
ghost use Rattle.fiber_latch.specs.declared.rule.Kept.TheVariants as held;
ghost use Rattle.fiber_latch.specs.declared.rule.SlotValue.{SlotValue};
ghost use Rattle.fiber_latch.specs.Leaving.{HasValue, HasAll, AreFromSlots};

use crate::rule::{Kept, SlotValue};
use atomic_table::Closed as ClosedTable;
use dt_model::Journal;
use std::alloc::Global;

/// What is left of a table when it is closed: the stores in order of latches, and the journal.
#[derive(Drop)]
pub struct Closed<C> {
    stores: Vec<C>,
    journal: Journal,
}

impl<C> Closed<C> {
    /// The store of a fiber's latch. Latches count from 0.
    pub fn store(&self, latch: u32) -> Option<&C>
        ensures value { option_copied result ≡ slice_get self.now.stores.items latch }
    {
        self.stores.get(latch as usize)
    }

    /// The entries of the run, oldest first.
    pub fn journal(&self) -> &Journal
        ensures value { result.now ≡ self.now.journal }
    {
        &self.journal
    }
}

/// The slots of a closed table.
type Emptied<C> = ClosedTable<Option<SlotValue<C>>, Global>;

/// The value in a slot, without its pass.
fn value_in<C: Drop>(slot: Option<SlotValue<C>>) -> Kept<C>
    requires held { (z : SlotValue C) × (slot ≡ Some z) }
    ensures value { (z : SlotValue C) × (slot ≡ Some z) × (z.kept ≡ result) }
{
    let Some(filled) = slot else { unreachable!() };
    let SlotValue { kept, pass } = filled;
    drop(pass);
    kept
}

/// The store in a fiber's slot.
fn store_in<C: Drop>(slot: Option<SlotValue<C>>) -> C
    requires held { (z : SlotValue C) × (c : C) × (slot ≡ Some z) × (z.kept ≡ held.Fiber c) }
    ensures value { (z : SlotValue C) × (slot ≡ Some z) × (z.kept ≡ held.Fiber result) }
{
    let Kept::Fiber(store) = value_in(slot) else {
        unreachable!()
    };
    store
}

/// The journal in its slot.
fn journal_in<C: Drop>(slot: Option<SlotValue<C>>) -> Journal
    requires held { (z : SlotValue C) × (j : JournalValue) × (slot ≡ Some z) × (z.kept ≡ held.Journal j) }
    ensures value { (z : SlotValue C) × (slot ≡ Some z) × (z.kept ≡ held.Journal result) }
{
    let Kept::Journal(journal) = value_in(slot) else {
        unreachable!()
    };
    journal
}

/// Takes the stores out of the first slots, in ascending order.
fn take_stores<C: Drop>(slots: &mut Emptied<C>, end: u32, mut stores: Vec<C>) -> Vec<C>
    requires sized { slots_len slots.old.slots ≡ end + 1 }
    requires full { IsFull slots.old.slots }
    requires values { HasAll end (slots_items slots.old.slots) }
    requires room { (vec_len stores ≡ 0) × (end ≤ vec_capacity stores) }
    ensures same { (slots_items slots.new.slots ≡ slots_items slots.old.slots) × (slots_len slots.new.slots ≡ end + 1) }
    ensures left { ((k : ℕ) → k < end → slice_index_or (slots_filled slots.new.slots) k false ≡ false) × IsTrue (slice_index_or (slots_filled slots.new.slots) end false) }
    ensures value { AreFromSlots end (slots_items slots.old.slots) result.items }
{
    for latch in 0..end {
        let store = store_in(slots.take(latch as usize));
        let pushed = stores.push(store);
        let Ok(()) = pushed else { unreachable!() };
    }
    stores
}

/// Takes out all, and frees the table.
pub fn emptied<C: Drop>(mut slots: Emptied<C>, end: u32, stores: Vec<C>) -> Closed<C>
    requires sized { slots_len slots.slots ≡ end + 1 }
    requires full { IsFull slots.slots }
    requires values { HasAll end (slots_items slots.slots) }
    requires room { (vec_len stores ≡ 0) × (end ≤ vec_capacity stores) }
    ensures stores { AreFromSlots end (slots_items slots.slots) result.stores.items }
    ensures journal { HasValue (slots_items slots.slots) end (held.Journal result.journal) }
{
    let stores = take_stores(&mut slots, end, stores);
    let journal = journal_in(slots.take(end as usize));
    slots.free();
    Closed { stores, journal }
}
