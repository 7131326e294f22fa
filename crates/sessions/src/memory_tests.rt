//! Tests that hold whichever request for memory is refused: `tools/refused_memory.py tests` refuses one after the other.
ghost use Rattle.std.specs.Prelude.{◌≡◌, true};
ghost use Rattle.dt_model.specs.Verdicts.{call_is_valid, cell_is_valid};
ghost use Rattle.dt_model.specs.declared.calls.Call.TheVariants.{Batch};
ghost use Rattle.sessions.specs.RunTests.{two_vectors};
ghost use Rattle.sessions.specs.TrialSeats.{IsFree, IsTrial};

use crate::engine::{Chair, Engine};
use crate::engine_tests::{
    are, changes, closed, cut, joined, lists, trial, try_batch, try_query, turns_are, two,
};
use crate::faults::TryFault;
use crate::run_tests::{add, agrees, cell, lacking, opened, set, set_w, some_scripts};
use crate::running::run_sessions;
use dt_model::{Cell, NoMemory, Update, Updates};
use dt_outside::OpenGate;
use fiber_latch::Closed;
use fiber_store::FiberStore;
use std::process::Abort;
use std::test::Fail;

/// A batch is made. Where its first try is refused memory, the updates come back, and they are made at the same turn.
fn changes_at_last<R: Abort>(
    rt: &R,
    engine: &Engine,
    seat: &mut Chair,
    turn: (u32, u32),
    updates: Updates,
    want: &[Update],
)
    requires valid { call_is_valid two_vectors.decls (Batch updates) ≡ true }
    requires trial { IsTrial engine.now }
    requires seat { IsFree engine.now seat.old }
    ensures seat { IsFree engine.now seat.new }
{
    match try_batch(rt, engine, seat, turn, updates) {
        Ok(()) => {}
        Err(TryFault::NoMemory { back }) => {
            assert!(rt; back.as_slice() == want);
            changes(rt, engine, seat, turn, back);
        }
        Err(TryFault::Busy { busy: _, back: _ }) => panic!(rt; "no latch was held"),
    }
}

/// The query `a(i) = v(i)` is made, and answers these pairs. Where its first try is refused memory, it is made at the same
/// turn.
fn lists_at_last<R: Abort>(
    rt: &R,
    engine: &Engine,
    seat: &mut Chair,
    turn: (u32, u32),
    want: &[(u32, u64)],
)
    requires trial { IsTrial engine.now }
    requires seat { IsFree engine.now seat.old }
    ensures seat { IsFree engine.now seat.new }
{
    match try_query(rt, engine, seat, turn) {
        Ok(pairs) => are(rt, &pairs, want),
        Err(TryFault::NoMemory { back: _ }) => lists(rt, engine, seat, turn, want),
        Err(TryFault::Busy { busy: _, back: _ }) => panic!(rt; "no latch was held"),
    }
}

/// The store of this latch has this number in the cell.
fn holds<R: Abort>(rt: &R, closed: &Closed<FiberStore>, latch: u32, cell: &Cell, number: u64) {
    let Some(store) = closed.store(latch) else {
        panic!(rt; "no store")
    };
    assert_eq!(rt; store.get(cell), number);
}

/// The calls of the test below, by an engine of two sessions.
fn make_calls<R: Abort>(rt: &R, engine: Engine, mut seat: Chair, first: Updates, second: Updates)
    requires first { call_is_valid two_vectors.decls (Batch first) ≡ true }
    requires second { call_is_valid two_vectors.decls (Batch second) ≡ true }
    requires trial { IsTrial engine × (engine.config.sessions ≡ 2) }
    requires seat { IsFree engine seat }
{
    let mut other = cut(rt, &engine, &mut seat, 2);
    changes_at_last(
        rt,
        &engine,
        &mut seat,
        (1, 1),
        first,
        &[add(3, 5), set_w(0, 2)],
    );
    lists_at_last(rt, &engine, &mut other, (2, 1), &[(3, 5)]);
    changes_at_last(
        rt,
        &engine,
        &mut other,
        (2, 2),
        second,
        &[add(3, 1), set(127, 4)],
    );
    lists_at_last(rt, &engine, &mut seat, (1, 2), &[(3, 6), (127, 4)]);
    let seat = joined(rt, &engine, seat, other);
    let closed = closed(rt, engine, seat, 2);
    turns_are(rt, &closed, &[(1, 1), (2, 1), (2, 2), (1, 2)]);
    holds(rt, &closed, 1, &cell(3), 6);
    holds(rt, &closed, 63, &cell(127), 4);
}

#[test]
fn a_call_refused_memory_is_made_at_its_next_try(rt: HostRuntime) -> Result<(), Fail> {
    let alloc = rt.alloc();
    let Ok(first) = two(alloc, add(3, 5), set_w(0, 2)) else {
        return Ok(());
    };
    let Ok(second) = two(alloc, add(3, 1), set(127, 4)) else {
        return Ok(());
    };
    let Ok((engine, seat)) = trial(alloc, 2) else {
        return Ok(());
    };
    make_calls(&rt, engine, seat, first, second);
    Ok(())
}

/// Two sessions of 16 lines each. A run that is refused memory before its first call gives the seat back, and then a second
/// run has all replies. One that is refused memory later lacks the reply of one line.
#[test]
fn a_run_refused_memory_lacks_one_reply_at_most(rt: HostRuntime) -> Result<(), Fail> {
    let alloc = rt.alloc();
    let Ok(scripts) = some_scripts(alloc, 2, 16) else {
        return Ok(());
    };
    let Ok((engine, seat)) = opened(alloc, 2, 16) else {
        return Ok(());
    };
    match run_sessions(&rt, &engine, seat, &scripts, &OpenGate) {
        Ok((seat, outcomes)) => {
            let closed = engine.close(seat);
            agrees(&rt, &closed, &scripts, &outcomes);
            assert!(rt; lacking(&outcomes) <= 1);
        }
        Err(refused) => {
            let Ok((seat, outcomes)) = run_sessions(&rt, &engine, refused.back, &scripts, &OpenGate)
            else {
                panic!(rt; "out of memory twice")
            };
            let closed = engine.close(seat);
            agrees(&rt, &closed, &scripts, &outcomes);
            assert_eq!(rt; lacking(&outcomes), 0);
        }
    }
    Ok(())
}
