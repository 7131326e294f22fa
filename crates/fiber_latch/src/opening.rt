//! A table is opened: the first seat takes out each empty slot, and gives each back with its value.
ghost use Rattle.std.specs.Prelude.{◌≡◌, ◌≢◌, ℕ, ◌+◌, ◌-◌, ◌<◌, ◌≤◌, List, [], ◌∷◌, ◌++◌, None, Some, IfOk, IfErr, replicate, vec_len, vec_capacity};
ghost use Rattle.dt_model.specs.declared.limits.TheConstants.{MOST_SESSIONS, MOST_CALLS};
ghost use Rattle.dt_model.specs.Tensors.{latch_count};
ghost use Rattle.fiber_latch.specs.Seats.{AreStores, IsJournal, config_for};
ghost use Rattle.fiber_latch.specs.Views.{id_of, name_of};
ghost use Rattle.fiber_latch.specs.Rule.{GoodAt};
ghost use Rattle.fiber_latch.specs.Conditions.{FitsTable, IsSized, config_of};
ghost use Rattle.fiber_latch.specs.Openings.{first_view, with_name, with_held, partly_opened, slots_below, kept_below, IsOpeningSeat};

use crate::plays::{LearnStep, OpenStep, PickedName};
use crate::raw;
use crate::raw::{SharedTable, TableSeat};
use crate::rule::{Kept, LatchRule, SlotValue, TableKey};
use crate::view::View;
use atomic_table::Table;
use dt_model::{Journal, Keep, NoMemory, World};
use std::alloc::{AllocError, Global};
use std::marker::Brand;
use std::snapshot::Snapshot;

/// A table of latches, as the first seat opens it.
pub type LatchTable<C> = Table<Option<SlotValue<C>>, View, TableKey, LatchRule<C>, Global>;

/// The words: 1 for each latch, since session 1 holds each, and the clock's 0.
fn words(alloc: Global, end: u32) -> Result<Vec<u64>, AllocError>
    requires small { end < 4294967295 }
    ensures ok { IfOk result (λ v. v.items ≡ replicate (end + 1) 1 ++ 0 ∷ []) }
{
    let mut words = Vec::new(alloc);
    for _latch in 0..end + 1 {
        words.push(1)?;
    }
    words.push(0)?;
    Ok(words)
}

/// A table with each latch held for session 1, and each slot empty.
fn vacant_table<C: Keep>(
    alloc: Global,
    world: &World,
    end: u32,
    sessions: u32,
    calls: u32,
) -> Result<(LatchTable<C>, TableSeat<C>), AllocError>
    requires counts { (end < 4294967295) × (0 < sessions) × (sessions ≤ MOST_SESSIONS) × (calls ≤ MOST_CALLS) }
    requires latches { end ≡ latch_count world.now.decls }
    ensures ok { IfOk result (λ r. IsSized r.0.shared.table_id r.0.shared.key × (config_of r.0.shared.key ≡ config_for world.now sessions calls) × (r.1.table_id ≡ r.0.shared.table_id) × (r.1.me ≡ (first_view (config_of r.0.shared.key), []))) }
{
    let words = words(alloc, end)?;
    let key = TableKey {
        world: Snapshot::of(world),
        end: end as u64,
        sessions: sessions as u64,
        calls: calls as u64,
    };
    let (table, token) = Table::vacant(alloc, words.as_slice(), end as usize + 1, &key)?;
    Ok((table, token))
}

/// The first seat learns the table that `Q` picks.
fn learn_picked<C: Keep, Q: PickedName>(top: &SharedTable<C>, token: &mut TableSeat<C>)
    requires table { FitsTable top.now.table_id top.now.key token.old.table_id }
    requires ready { token.old.me ≡ (first_view (config_of top.now.key), []) }
    ensures same { token.new.table_id ≡ token.old.table_id }
    ensures me { token.new.me ≡ (with_name Q.name (first_view (config_of top.now.key)), []) }
{
    top.load::<LearnStep<Q>>(token, 0);
}

/// The first seat learns which table it is.
fn learn<C: Keep>(top: &SharedTable<C>, token: &mut TableSeat<C>)
    requires table { FitsTable top.now.table_id top.now.key token.old.table_id }
    requires ready { token.old.me ≡ (first_view (config_of top.now.key), []) }
    ensures same { token.new.table_id ≡ token.old.table_id }
    ensures me { token.new.me ≡ (with_name (name_of top.now.table_id) (first_view (config_of top.now.key)), []) }
{
    learn_picked::<C, Brand>(top, token);
}

/// Takes each empty slot, in ascending order.
fn take_out<C: Keep>(top: &SharedTable<C>, token: &mut TableSeat<C>, end: u32)
    requires table { FitsTable top.now.table_id top.now.key token.old.table_id }
    requires end { (end ≡ top.now.key.end) × (end < 4294967295) }
    requires ready { IsOpeningSeat token.old.me.0 (config_of top.now.key) × (token.old.me ≡ (with_held token.old.me.0 (partly_opened 0 end), [])) }
    ensures same { token.new.table_id ≡ token.old.table_id }
    ensures me { token.new.me ≡ (with_held token.old.me.0 (partly_opened (end + 1) end), slots_below (end + 1)) }
{
    for latch in 0..end + 1 {
        top.load::<OpenStep>(token, latch as usize);
    }
}

/// Gives back each fiber's latch with its store, in descending order. The emptied vector comes back.
fn give_fibers<C: Keep>(
    top: &SharedTable<C>,
    token: &mut TableSeat<C>,
    end: u32,
    mut stores: Vec<C>,
) -> Vec<C>
    requires table { FitsTable top.now.table_id top.now.key token.old.table_id }
    requires end { end ≡ top.now.key.end }
    requires name { id_of token.old.me.0.table ≡ top.now.table_id }
    requires ready { IsOpeningSeat token.old.me.0 (config_of top.now.key) × (token.old.me ≡ (with_held token.old.me.0 (kept_below end), slots_below end)) }
    requires stores { AreStores C.content C.sound (config_of top.now.key) token.old.me.0.seen stores.items }
    ensures same { token.new.table_id ≡ token.old.table_id }
    ensures me { token.new.me ≡ (with_held token.old.me.0 [], []) }
    ensures room { (vec_len result ≡ 0) × (end ≤ vec_capacity result) }
{
    while let Some(store) = stores.pop() {
        raw::give(top, token, stores.len(), Kept::Fiber(store));
    }
    stores
}

/// Gives back each latch with its value, the journal's first.
fn give_back<C: Keep>(
    top: &SharedTable<C>,
    token: &mut TableSeat<C>,
    end: u32,
    journal: Journal,
    stores: Vec<C>,
) -> Vec<C>
    requires table { FitsTable top.now.table_id top.now.key token.old.table_id }
    requires end { end ≡ top.now.key.end }
    requires name { id_of token.old.me.0.table ≡ top.now.table_id }
    requires ready { IsOpeningSeat token.old.me.0 (config_of top.now.key) × (token.old.me ≡ (with_held token.old.me.0 (kept_below (end + 1)), slots_below (end + 1))) }
    requires journal { IsJournal (config_of top.now.key) token.old.me.0.seen journal }
    requires stores { AreStores C.content C.sound (config_of top.now.key) token.old.me.0.seen stores.items }
    ensures same { token.new.table_id ≡ token.old.table_id }
    ensures me { token.new.me ≡ (with_held token.old.me.0 [], []) }
    ensures room { (vec_len result ≡ 0) × (end ≤ vec_capacity result) }
{
    raw::give(top, token, end as usize, Kept::Journal(journal));
    give_fibers(top, token, end, stores)
}

/// An open table, with each value at home, its first seat, and the emptied vector.
pub fn opened<C: Keep>(
    alloc: Global,
    world: &World,
    stores: Vec<C>,
    end: u32,
    sessions: u32,
    calls: u32,
) -> Result<(LatchTable<C>, TableSeat<C>, Vec<C>), NoMemory>
    requires counts { (end < 4294967295) × (0 < sessions) × (sessions ≤ MOST_SESSIONS) × (calls ≤ MOST_CALLS) }
    requires latches { end ≡ latch_count world.now.decls }
    requires stores { AreStores C.content C.sound (config_for world.now sessions calls) [] stores.items }
    ensures sized { IfOk result (λ r. IsSized r.0.shared.table_id r.0.shared.key × (config_of r.0.shared.key ≡ config_for world.now sessions calls)) }
    ensures seat { IfOk result (λ r. (r.1.table_id ≡ r.0.shared.table_id) × (r.1.me ≡ (with_held (with_name (name_of r.0.shared.table_id) (first_view (config_of r.0.shared.key))) [], []))) }
    ensures room { IfOk result (λ r. (vec_len r.2 ≡ 0) × (end ≤ vec_capacity r.2)) }
{
    let journal = Journal::with_room(alloc, sessions * calls)?;
    let (table, mut token) = vacant_table(alloc, world, end, sessions, calls)?;
    learn(&table.shared, &mut token);
    take_out(&table.shared, &mut token, end);
    let room = give_back(&table.shared, &mut token, end, journal, stores);
    Ok((table, token, room))
}
