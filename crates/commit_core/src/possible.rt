//! Whether an event may happen.

ghost use Rattle.std.specs.Prelude.{◌≡◌, ◌+◌, ◌==◌, ◌||◌, not, true, nat_le, IsTrue, length, slice_index};
ghost use Rattle.std.specs.List.{list_all, list_any};
ghost use Rattle.dt_model.specs.Latches.{needs, is_latch_of, latch_of_cell};
ghost use Rattle.dt_model.specs.Runs.{call_of};
ghost use Rattle.dt_model.specs.Statements.{accesses};
ghost use Rattle.dt_model.specs.Tensors.{tensor_named};
ghost use Rattle.dt_model.specs.Verdicts.{call_is_valid, update_cell};
ghost use Rattle.dt_model.specs.Worlds.{IsValid, decls_are_valid};
ghost use Rattle.commit_core.specs.Events.{all_under, holds_below, can_take, can_commit, is_possible_for, session_in};
ghost use Rattle.commit_core.specs.State.{position_in};
ghost use Rattle.commit_core.specs.Calls.{updates_are_valid};

use crate::events::{Event, Position};
use crate::latches::{cell_of, commit_needs, expression_needs};
use crate::turns::call_of;
use dt_model::{Call, Decls, Expr, Update, World, latch_count, latch_of};

/// The session that holds a latch, 0 where nobody does.
pub fn holder_of(holders: &[u32], latch: u32) -> u32
    ensures value { result ≡ slice_index holders.now latch }
{
    match holders.get(latch as usize) {
        Some(session) => *session,
        None => 0,
    }
}

/// Where a session stands.
pub fn position_of(positions: &[Position], session: u32) -> Position
    ensures value { result ≡ position_in positions.now session }
{
    match positions.get(session as usize) {
        Some(position) => *position,
        None => Position {
            number: 0,
            committed: false,
        },
    }
}

/// Whether a session holds a latch, if that is below an end.
fn holds_latch(holders: &[u32], session: u32, latch: u32, end: u32) -> bool
    ensures value { result ≡ (nat_le end latch || slice_index holders.now latch == session) }
{
    end <= latch || holder_of(holders, latch) == session
}

/// Whether a session holds each latch below an end that the updates need.
fn holds_updates(decls: &Decls, holders: &[u32], session: u32, updates: &[Update], end: u32) -> bool
    requires decls { IsTrue (decls_are_valid decls.now) }
    requires cells { updates_are_valid decls.now updates.now ≡ true }
    ensures value { result ≡ list_all (λ u. nat_le end (latch_of_cell decls.now (update_cell u)) || slice_index holders.now (latch_of_cell decls.now (update_cell u)) == session) updates.now }
{
    for update in updates {
        let latch = latch_of(decls, cell_of(update));
        if !holds_latch(holders, session, latch, end) {
            return false;
        }
    }
    true
}

/// Whether a session holds each latch below an end that one of an expression's tensors has.
fn holds_tensors(decls: &Decls, holders: &[u32], session: u32, expression: &Expr, end: u32) -> bool
    requires decls { IsTrue (decls_are_valid decls.now) }
    ensures value { result ≡ all_under (λ k. not (list_any (λ a. is_latch_of decls.now k (tensor_named decls.now a.0)) (accesses expression.now)) || slice_index holders.now k == session) end }
{
    for latch in 0..end {
        if expression_needs(decls, expression, latch) && holder_of(holders, latch) != session {
            return false;
        }
    }
    true
}

/// Whether a session holds each latch below an end that the call needs. A batch is gone over once.
fn holds_own(decls: &Decls, holders: &[u32], session: u32, call: &Call, end: u32) -> bool
    requires decls { IsTrue (decls_are_valid decls.now) }
    requires call { IsTrue (call_is_valid decls.now call.now) }
    ensures value { result ≡ all_under (λ k. not (needs decls.now call.now k) || slice_index holders.now k == session) end }
{
    match call {
        Call::Get(cell) => holds_latch(holders, session, latch_of(decls, cell), end),
        Call::Batch(updates) => holds_updates(decls, holders, session, updates.as_slice(), end),
        Call::Query(stmt) => holds_tensors(decls, holders, session, &stmt.get().right, end),
    }
}

/// Whether a session holds each latch below an end that a commit of the call needs.
fn holds_below(decls: &Decls, holders: &[u32], session: u32, call: &Call, end: u32) -> bool
    requires decls { IsTrue (decls_are_valid decls.now) }
    requires call { IsTrue (call_is_valid decls.now call.now) }
    ensures value { result ≡ holds_below decls.now (slice_index holders.now) session call.now end }
{
    holds_latch(holders, session, latch_count(decls), end)
        && holds_own(decls, holders, session, call, end)
}

/// Whether a session holds no latch.
pub fn holds_none(holders: &[u32], session: u32) -> bool
    ensures value { result ≡ all_under (λ k. not (slice_index holders.now k == session)) (length holders.now) }
{
    for holder in holders {
        if *holder == session {
            return false;
        }
    }
    true
}

/// Whether a session may take a latch for its call: the least one that it needs and doesn't hold.
fn can_take(
    decls: &Decls,
    holders: &[u32],
    position: Position,
    session: u32,
    latch: u32,
    call: &Call,
) -> bool
    requires decls { IsTrue (decls_are_valid decls.now) }
    requires call { IsTrue (call_is_valid decls.now call.now) }
    ensures value { result ≡ can_take decls.now (slice_index holders.now) position session latch call.now }
{
    !position.committed
        && latch <= latch_count(decls)
        && commit_needs(decls, call, latch)
        && holder_of(holders, latch) == 0
        && holds_below(decls, holders, session, call, latch)
}

/// Whether a session may commit its call: it holds all that the commit needs.
fn can_commit(decls: &Decls, holders: &[u32], position: Position, session: u32, call: &Call) -> bool
    requires decls { IsTrue (decls_are_valid decls.now) }
    requires call { IsTrue (call_is_valid decls.now call.now) }
    ensures value { result ≡ can_commit decls.now (slice_index holders.now) position session call.now }
{
    !position.committed && holds_below(decls, holders, session, call, latch_count(decls) + 1)
}

/// The session whose event it is.
fn session_of(event: Event) -> u32
    ensures value { result ≡ session_in event }
{
    match event {
        Event::Take { session, .. } => session,
        Event::Commit { session } => session,
        Event::Give { session, .. } => session,
        Event::Quit { session } => session,
    }
}

/// Whether an event is possible.
pub fn is_possible(world: &World, holders: &[u32], positions: &[Position], event: Event) -> bool
    requires valid { IsValid world.now }
    ensures value { result ≡ is_possible_for world.now.decls (slice_index holders.now) (position_in positions.now) event
        (call_of world.now (session_in event) (position_in positions.now (session_in event)).number) }
{
    let session = session_of(event);
    let position = position_of(positions, session);
    match call_of(world, session, position.number) {
        None => false,
        Some(call) => match event {
            Event::Take { latch, .. } => {
                can_take(&world.decls, holders, position, session, latch, call)
            }
            Event::Commit { .. } => can_commit(&world.decls, holders, position, session, call),
            Event::Give { latch, .. } => position.committed && holder_of(holders, latch) == session,
            Event::Quit { .. } => !position.committed,
        },
    }
}
