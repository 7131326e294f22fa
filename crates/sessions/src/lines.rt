//! A session runs its script, line by line, by either taker.
ghost use Rattle.std.specs.Prelude.{◌≡◌, ◌⊎◌, ◌<◌, ◌≤◌, true, [], ◌∷◌, length, IsTrue};
ghost use Rattle.fiber_latch.specs.Seats.{BelongsTo, OwnsSession};
ghost use Rattle.sessions.specs.Calling.{entry_at, CanMake, IsNext};
ghost use Rattle.sessions.specs.Outcomes.{session_outcomes};
ghost use Rattle.sessions.specs.Running.{AreRunnable, line_is_valid};
ghost use Rattle.sessions.specs.ScriptLines.{CameTo, HasRoom, IsAtLine, IsFresh, OwnsAll, RunsLine};

use crate::engine::{Chair, Engine};
use crate::hands::Fault;
use crate::outcomes::{Lines, Outcome};
use crate::takers::Taker;
use dt_model::{Call, Reply, Turn, Verdict};

/// Makes a call, or runs out of memory.
fn make_call<T: Taker>(
    taker: &T,
    engine: &Engine,
    turn: Turn,
    call: &Call,
    seat: &mut Chair,
) -> Outcome
    requires engine { BelongsTo seat.old engine.now }
    requires unstopped { (T.waits ≡ true) ⊎ OwnsAll seat.old }
    requires ready { CanMake (entry_at turn call.now) seat.old }
    ensures came { CameTo (entry_at turn call.now) seat.old result seat.new }
{
    match call {
        Call::Get(cell) => match engine.read(taker, seat, turn, cell.copy()) {
            Ok(value) => Outcome::Reply(Reply::Value(value)),
            Err(_) => unreachable!(),
        },
        Call::Batch(updates) => match engine.make(taker, seat, turn, updates) {
            Ok(()) => Outcome::Reply(Reply::Done),
            Err(Fault::Full) => Outcome::NoMemory,
            Err(Fault::Held(_)) => unreachable!(),
        },
        Call::Query(stmt) => match engine.evaluate(taker, seat, turn, stmt.get()) {
            Ok(pairs) => Outcome::Reply(Reply::Result(pairs)),
            Err(Fault::Full) => Outcome::NoMemory,
            Err(Fault::Held(_)) => unreachable!(),
        },
    }
}

/// Runs a line: makes its call, or answers its refusal.
fn run_line<T: Taker>(
    taker: &T,
    engine: &Engine,
    turn: Turn,
    verdict: &Verdict,
    seat: &mut Chair,
) -> Outcome
    requires engine { BelongsTo seat.old engine.now }
    requires unstopped { (T.waits ≡ true) ⊎ OwnsAll seat.old }
    requires next { IsNext turn seat.old }
    requires idle { seat.old.held ≡ [] }
    requires valid { IsTrue (line_is_valid engine.now.config.world.decls verdict.now) }
    ensures line { RunsLine turn verdict.now seat.old result seat.new }
{
    match verdict {
        Verdict::Accepted(call) => make_call(taker, engine, turn, call, seat),
        Verdict::Refused(refusal) => Outcome::refused(refusal),
    }
}

/// Runs the script of one of the seat's sessions, and adds the outcome of each line. The taker waits, or the seat owns all
/// sessions: else a call could be stopped.
pub fn run_script<T: Taker>(
    taker: &T,
    engine: &Engine,
    session: u32,
    script: &[Verdict],
    seat: &mut Chair,
    lines: &mut Lines,
)
    requires engine { BelongsTo seat.old engine.now }
    requires unstopped { (T.waits ≡ true) ⊎ OwnsAll seat.old }
    requires session { OwnsSession seat.old session }
    requires idle { seat.old.held ≡ [] }
    requires fresh { IsFresh session seat.old.seen }
    requires script { AreRunnable engine.now.config (script.now ∷ []) }
    requires room { HasRoom script.now lines.old }
    ensures seat { IsAtLine script.now session (length script.now) seat.old seat.new }
    ensures outcomes { lines.new.outcomes ≡ session_outcomes engine.now.config.world seat.new.seen session script.now }
{
    for (i, verdict) in script.iter().enumerate() {
        let turn = Turn {
            session,
            number: i as u32 + 1,
        };
        let outcome = run_line(taker, engine, turn, verdict, seat);
        lines.push(outcome);
    }
}
