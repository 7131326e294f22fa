//! A seat's calls as steps on the table, each with what it makes of the seat's view.
ghost use Rattle.std.specs.Prelude.{drop, ◌≡◌, ◌≢◌, ◌⊎◌, ℕ, ◌+◌, ◌<◌, ◌≤◌, List, [], ◌∷◌, ◌++◌, None, Some, IfOk, IfErr};
ghost use mathlib.Core.Option.{none};
ghost use Rattle.atomic_table.specs.Table.{step, rest};
ghost use Rattle.fiber_latch.specs.Views.{id_of, Owns, IsLawful};
ghost use Rattle.fiber_latch.specs.Rule.{GoodAt, IsLastJoin};
ghost use Rattle.fiber_latch.specs.Steps.{TriesLatch, without_join, with_pass, lower_view, upper_view, joined_view};
ghost use Rattle.fiber_latch.specs.Conditions.{FitsTable, KnowsTable, IsSameSeat, CanTry, IsSized, the_view, CanAbsorb, TakesLatch, CanReturn, CanAddEntry, IsIdle, config_of};
ghost use Rattle.fiber_latch.specs.declared.rule.SlotValue.{SlotValue};

use crate::plays;
use crate::plays::{
    AbsorbPass, CommitStep, GiveStep, JoinSeats, LookStep, PickedEntry, ReleasePass, SplitAt,
    TakeStep,
};
use crate::rule::{Busy, Kept, LatchRule, SlotValue, TableKey};
use crate::view::View;
use atomic_table::{Badge, Shared};
use dt_model::{Entry, Keep};
use std::marker::Brand;

/// The table, as each of its seats uses it.
pub type SharedTable<C> = Shared<Option<SlotValue<C>>, View, TableKey, LatchRule<C>>;

/// A seat of sessions, or a pass that is used as one.
pub type TableSeat<C> = atomic_table::Seat<Option<SlotValue<C>>, View>;

/// Tries a latch, and answers the word that was found: 0, or the session that holds it.
pub fn take_step<C: Keep>(
    top: &SharedTable<C>,
    token: &mut TableSeat<C>,
    latch: usize,
    session: u64,
) -> u64
    requires table { FitsTable top.now.table_id top.now.key token.old.table_id }
    requires config { token.old.me.0.config ≡ config_of top.now.key }
    requires ready { CanTry token.old.me.0 session latch }
    ensures same { IsSameSeat token.old token.new }
    ensures step { TriesLatch (GoodAt C.content C.sound) (step top.now.table_id.slots latch 0 session none) token.old.me result token.new.me }
{
    top.compare_exchange::<TakeStep>(token, latch, 0, session)
}

/// Takes out what lies in the slot that was taken last.
pub fn take_value<C: Keep>(
    top: &SharedTable<C>,
    token: &mut TableSeat<C>,
    latch: usize,
) -> SlotValue<C>
    requires table { token.old.table_id ≡ top.now.table_id }
    requires lies { (y : SlotValue C) × (token.old.me.1 ≡ (latch, Some y) ∷ rest token.old.me.1) }
    ensures same { IsSameSeat token.old token.new }
    ensures was { token.old.me.1 ≡ (latch, Some result) ∷ rest token.old.me.1 }
    ensures me { token.new.me ≡ (token.old.me.0, (latch, None) ∷ rest token.old.me.1) }
{
    top.exchange(token, latch, None).unwrap()
}

/// Takes in the pass of the latch that was taken last. Any word tells what was met: that of the latch itself is read, which
/// no other thread writes while the latch is held.
pub fn absorb_pass<C: Keep>(
    top: &SharedTable<C>,
    token: &mut TableSeat<C>,
    latch: usize,
    session: u64,
    pass: Badge<View>,
)
    requires table { FitsTable top.now.table_id top.now.key token.old.table_id }
    requires latch { latch ≤ top.now.key.end }
    requires pass { (pass.table_id ≡ top.now.table_id) × (pass.views ≡ the_view pass.views ∷ []) }
    requires ready { CanAbsorb token.old.me.0 (the_view pass.views) latch session }
    ensures same { IsSameSeat token.old token.new }
    ensures me { token.new.me ≡ (without_join (with_pass token.old.me.0 (the_view pass.views)), token.old.me.1) }
    ensures told { let w = with_pass token.old.me.0 (the_view pass.views) in IsLastJoin w.config w w.last_join × IsLawful w.config w.seen }
{
    let pass = pass.into_seat();
    top.join_seat::<AbsorbPass>(token, pass);
    top.load::<LookStep>(token, latch);
}

/// Takes a latch, or answers the session that holds it.
pub fn try_take<C: Keep>(
    top: &SharedTable<C>,
    token: &mut TableSeat<C>,
    latch: u32,
    session: u32,
) -> Result<Kept<C>, Busy>
    requires table { FitsTable top.now.table_id top.now.key token.old.table_id }
    requires knows { KnowsTable top.now.table_id top.now.key token.old.me.0 }
    requires ready { CanTry token.old.me.0 session latch }
    ensures same { IsSameSeat token.old token.new }
    ensures busy { IfErr result (λ b. (b.latch ≡ latch) × (b.holder ≢ 0) × ¬ Owns token.old.me.0.role b.holder × (token.new.me ≡ (record token.old.me.0 { conflicts = token.old.me.0.conflicts ++ (latch, b.holder) ∷ [] }, token.old.me.1))) }
    ensures found { IfErr result (λ b. b.holder ≤ token.old.me.0.config.sessions) }
    ensures ok { IfOk result (λ y. TakesLatch (GoodAt C.content C.sound) latch session token.old.me y token.new.me) }
{
    let found = take_step(top, token, latch as usize, session as u64);
    if found != 0 {
        return Err(Busy {
            latch,
            holder: found as u32,
        });
    }
    let SlotValue { kept, pass } = take_value(top, token, latch as usize);
    absorb_pass(top, token, latch as usize, session as u64, pass);
    Ok(kept)
}

/// Lays a value and its pass into the empty slot that was taken last.
pub fn put_value<C: Keep>(
    top: &SharedTable<C>,
    token: &mut TableSeat<C>,
    latch: usize,
    laid: SlotValue<C>,
)
    requires table { token.old.table_id ≡ top.now.table_id }
    requires hand { token.old.me.1 ≡ (latch, None) ∷ rest token.old.me.1 }
    ensures same { IsSameSeat token.old token.new }
    ensures me { token.new.me ≡ (token.old.me.0, (latch, Some laid) ∷ rest token.old.me.1) }
{
    top.exchange(token, latch, Some(laid));
}

/// Gives back the greatest latch that the seat holds.
pub fn give<C: Keep>(top: &SharedTable<C>, token: &mut TableSeat<C>, latch: usize, kept: Kept<C>)
    requires table { FitsTable top.now.table_id top.now.key token.old.table_id }
    requires knows { KnowsTable top.now.table_id top.now.key token.old.me.0 }
    requires latch { latch ≤ top.now.key.end }
    requires ready { CanReturn (GoodAt C.content C.sound) token.old.me latch kept }
    ensures same { IsSameSeat token.old token.new }
    ensures me { token.new.me ≡ (record token.old.me.0 { held = drop 1 token.old.me.0.held }, rest token.old.me.1) }
{
    let pass = top.split_seat::<ReleasePass>(token);
    let pass = pass.into_badge();
    put_value(top, token, latch, SlotValue { kept, pass });
    top.swap::<GiveStep>(token, latch, 0);
}

/// Adds the entry that `Q` picks to the history.
fn commit_picked<C: Keep, Q: PickedEntry>(
    top: &SharedTable<C>,
    token: &mut TableSeat<C>,
    end: u32,
    entry: &Entry,
)
    requires table { FitsTable top.now.table_id top.now.key token.old.table_id }
    requires config { token.old.me.0.config ≡ config_of top.now.key }
    requires end { end ≡ top.now.key.end }
    requires entry { entry.now ≡ Q.entry }
    requires ready { CanAddEntry (config_of top.now.key) token.old.me.0 entry.now }
    ensures same { IsSameSeat token.old token.new }
    ensures me { token.new.me ≡ (record token.old.me.0 { seen = token.old.me.0.seen ++ entry.now ∷ [] }, token.old.me.1) }
{
    top.fetch_add::<CommitStep<Q>>(token, end as usize + 1, 1);
}

/// Adds an entry to the history.
pub fn commit<C: Keep>(top: &SharedTable<C>, token: &mut TableSeat<C>, end: u32, entry: &Entry)
    requires table { FitsTable top.now.table_id top.now.key token.old.table_id }
    requires config { token.old.me.0.config ≡ config_of top.now.key }
    requires end { end ≡ top.now.key.end }
    requires ready { CanAddEntry (config_of top.now.key) token.old.me.0 entry.now }
    ensures same { IsSameSeat token.old token.new }
    ensures me { token.new.me ≡ (record token.old.me.0 { seen = token.old.me.0.seen ++ entry.now ∷ [] }, token.old.me.1) }
{
    commit_picked::<C, Brand>(top, token, end, entry);
}

/// Cuts off the sessions from the one that `Q` picks on.
fn split_picked<C: Keep, Q: plays::SplitPoint>(
    top: &SharedTable<C>,
    token: &mut TableSeat<C>,
    first: u32,
    last: u32,
    at: u32,
) -> TableSeat<C>
    requires table { FitsTable top.now.table_id top.now.key token.old.table_id }
    requires picked { at ≡ Q.at }
    requires ready { IsIdle token.old.me.0 first last × (first < at) × (at ≤ last) }
    ensures same { (token.new.table_id ≡ token.old.table_id) × (result.table_id ≡ token.old.table_id) }
    ensures me { (token.new.me ≡ (lower_view at token.old.me.0, token.old.me.1)) × (result.me ≡ (upper_view at token.old.me.0, [])) }
{
    top.split_seat::<SplitAt<Q>>(token)
}

/// Cuts off the sessions from `at` on.
pub fn split<C: Keep>(
    top: &SharedTable<C>,
    token: &mut TableSeat<C>,
    first: u32,
    last: u32,
    at: u32,
) -> TableSeat<C>
    requires table { FitsTable top.now.table_id top.now.key token.old.table_id }
    requires ready { IsIdle token.old.me.0 first last × (first < at) × (at ≤ last) }
    ensures same { (token.new.table_id ≡ token.old.table_id) × (result.table_id ≡ token.old.table_id) }
    ensures me { (token.new.me ≡ (lower_view at token.old.me.0, token.old.me.1)) × (result.me ≡ (upper_view at token.old.me.0, [])) }
{
    split_picked::<C, Brand>(top, token, first, last, at)
}

/// Takes in the seat of the sessions that follow.
pub fn join_seats<C: Keep>(
    top: &SharedTable<C>,
    token: &mut TableSeat<C>,
    other: TableSeat<C>,
    end: u32,
    first: u32,
    middle: u32,
    last: u32,
)
    requires table { FitsTable top.now.table_id top.now.key token.old.table_id }
    requires other { (other.table_id ≡ top.now.table_id) × (other.me.1 ≡ []) }
    requires end { end ≡ top.now.key.end }
    requires ready { IsIdle token.old.me.0 first middle × IsIdle other.me.0 (middle + 1) last × (first ≤ middle) × (middle < last) }
    ensures same { token.new.table_id ≡ token.old.table_id }
    ensures me { token.new.me ≡ (without_join (joined_view token.old.me.0 other.me.0), token.old.me.1) }
    ensures told { let w = joined_view token.old.me.0 other.me.0 in IsLastJoin w.config w w.last_join × IsLawful w.config w.seen }
{
    top.join_seat::<JoinSeats>(token, other);
    top.load::<LookStep>(token, end as usize + 1);
}
