//! All sessions run their scripts at once, each on a thread of its own.
ghost use Rattle.std.specs.Prelude.{◌≡◌, ◌<◌, ◌≤◌, ℕ, [], ◌∷◌, ◌++◌, length, All, IfOk, IfErr, slice_index_or, vec_len, vec_capacity};
ghost use Rattle.fiber_latch.specs.Seats.{BelongsTo, SeatState};
ghost use Rattle.dt_model.specs.declared.replies.Verdict.{Verdict};
ghost use Rattle.std.specs.Prelude.{List};
ghost use Rattle.sessions.specs.declared.running.SessionRun.{SessionRun};
ghost use Rattle.sessions.specs.Outcomes.{outcomes_after};
ghost use Rattle.sessions.specs.Running.{AreRunnable, CanRun, HasRun};
ghost use Rattle.sessions.specs.SessionRuns.{AreCut, AreDone, IsReady, RunsScript};

use crate::engine::{Chair, Engine};
use crate::lines::run_script;
use crate::outcomes::{Lines, Outcome, Outcomes};
use crate::rooms::{Rooms, rooms_for};
use crate::takers::Waiting;
use dt_model::{Back, List, NoMemory, Scripts};
use dt_outside::Gate;
use std::collections::VecDeque;
use std::sync::Wait;
use std::thread::{Threads, for_each_mut};

/// A session that runs its script: a seat of its own, and the outcomes so far.
#[derive(Drop)]
pub struct SessionRun {
    /// The seat of this session alone.
    pub seat: Chair,
    /// The outcomes of its lines.
    pub lines: Lines,
}

/// Runs the script of a seat's one session.
fn run_session<R: Wait, G: Gate>(
    rt: &R,
    engine: &Engine,
    gate: &G,
    scripts: &Scripts,
    run: &mut SessionRun,
)
    requires scripts { AreRunnable engine.now.config scripts.now }
    requires ready { IsReady engine.now scripts.now run.old }
    ensures ran { RunsScript engine.now.config.world scripts.now run.old run.new }
{
    let session = run.seat.first();
    let Some(script) = scripts.get(session as usize - 1) else {
        unreachable!()
    };
    run_script(
        &Waiting { rt, gate },
        engine,
        session,
        script.as_slice(),
        &mut run.seat,
        &mut run.lines,
    );
}

/// Runs all sessions at once, each on a thread of its own where one can be made.
fn run_each<R: Threads + Wait + Sync, G: Gate + Sync>(
    rt: &R,
    engine: &Engine,
    gate: &G,
    scripts: &Scripts,
    runs: &mut [SessionRun],
)
    requires scripts { AreRunnable engine.now.config scripts.now }
    requires some { 1 ≤ length runs.old }
    requires ready { All (IsReady engine.now scripts.now) runs.old }
    ensures ran { (k : ℕ) (d : SessionRun) → k < length runs.old
        → RunsScript engine.now.config.world scripts.now (slice_index_or runs.old k d) (slice_index_or runs.new k d) }
{
    let threads = runs.len();
    let each = |_place: usize, run: &mut SessionRun|
        requires { AreRunnable engine.now.config scripts.now × IsReady engine.now scripts.now run.now }
        ensures { RunsScript engine.entry.now.config.world scripts.entry.now run.entry.now run.exit.now }
    { run_session(rt, engine, gate, scripts, run) };
    for_each_mut(rt, runs, threads, &each);
}

/// Cuts the seat into one for each session, the last session's first.
fn cut(
    engine: &Engine,
    mut seat: Chair,
    mut lines: VecDeque<Lines>,
    mut runs: Vec<SessionRun>,
) -> Vec<SessionRun>
    requires engine { BelongsTo seat engine.now }
    requires idle { seat.held ≡ [] }
    requires sessions { (seat.first ≡ 1) × (1 ≤ seat.last) × (seat.last ≡ length lines.items) }
    requires room { (runs.items ≡ []) × (seat.last ≤ vec_capacity runs) }
    ensures runs { AreCut seat lines.items result.items }
{
    let last = seat.last();
    for done in 0..last - 1 {
        let Some(room) = lines.pop_back() else {
            unreachable!()
        };
        let upper = engine.split(&mut seat, last - done);
        runs.push_reserved(SessionRun {
            seat: upper,
            lines: room,
        });
    }
    let Some(room) = lines.pop_back() else {
        unreachable!()
    };
    runs.push_reserved(SessionRun { seat, lines: room });
    runs
}

/// Joins the sessions' seats, and lists their outcomes, from the first session up.
fn joined(
    engine: &Engine,
    mut runs: Vec<SessionRun>,
    mut lists: Vec<List<Outcome>>,
) -> (Chair, Outcomes)
    requires done { (scripts : List (List Verdict)) × (old : SeatState) × AreDone engine.now scripts old runs.items }
    requires room { (lists.items ≡ []) × (vec_len runs ≤ vec_capacity lists) }
    ensures seat { (scripts : List (List Verdict)) (old : SeatState) → AreDone engine.now scripts old runs.items → HasRun scripts old result.0 }
    ensures outcomes { (scripts : List (List Verdict)) (old : SeatState) → AreDone engine.now scripts old runs.items
        → result.1 ≡ outcomes_after engine.now.config.world result.0.seen scripts }
{
    let SessionRun { mut seat, lines } = runs.take_last();
    lists.push_reserved(lines.into_list());
    while let Some(run) = runs.pop() {
        engine.join(&mut seat, run.seat);
        lists.push_reserved(run.lines.into_list());
    }
    (seat, Outcomes::of(lists))
}

/// Runs all sessions at once, each on a thread of its own where one can be made, and answers the outcome of each line. The
/// seat comes back as it was where there is no memory for the outcomes, which is found out before any call is made. A call
/// that runs out of memory has that outcome, and its session goes on. The gate is called by each call.
pub fn run_sessions<R: Threads + Wait + Sync, G: Gate + Sync>(
    rt: &R,
    engine: &Engine,
    seat: Chair,
    scripts: &Scripts,
    gate: &G,
) -> Result<(Chair, Outcomes), Back<Chair>>
    requires engine { BelongsTo seat engine.now }
    requires scripts { AreRunnable engine.now.config scripts.now }
    requires seat { CanRun scripts.now seat }
    ensures run { IfOk result (λ r. HasRun scripts.now seat r.0) }
    ensures outcomes { IfOk result (λ r. r.1 ≡ outcomes_after engine.now.config.world r.0.seen scripts.now) }
    ensures back { IfErr result (λ e. e.back ≡ seat) }
{
    let Ok(Rooms { lines, lists }) = rooms_for(engine.alloc, scripts.as_slice()) else {
        return Err(Back { back: seat });
    };
    let Ok(runs) = Vec::with_capacity(engine.alloc, scripts.len()) else {
        return Err(Back { back: seat });
    };
    let mut runs = cut(engine, seat, lines, runs);
    run_each(rt, engine, gate, scripts, runs.as_mut_slice());
    Ok(joined(engine, runs, lists))
}
