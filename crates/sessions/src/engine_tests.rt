//! An engine's calls, made on one thread by seats in turn: what they answer, what they meet and what they leave.
ghost use Rattle.std.specs.Prelude.{◌≡◌, ◌+◌, ◌<◌, ◌≤◌, [], ◌∷◌, length, All, IfOk, IfErr, true};
ghost use Rattle.dt_model.specs.Verdicts.{call_is_valid, cell_is_valid, update_cell};
ghost use Rattle.dt_model.specs.declared.calls.Call.TheVariants.{Batch, Query};
ghost use Rattle.sessions.specs.Calling.{IsNext};
ghost use Rattle.sessions.specs.RunTests.{two_vectors};
ghost use Rattle.sessions.specs.TrialSeats.{back_of, IsFree, IsHolding, IsTrial};

use crate::engine::{Chair, Engine};
use crate::faults::TryFault;
use crate::results::nonzeros_of;
use crate::run_tests::{add, cell, named, opened, set, set_w, two_vectors};
use arrayvec::ArrayVec;
use dt_model::{Call, Expr, NoMemory, Nonzeros, Stmt, Turn, Update, Updates, Vars};
use fiber_latch::{Busy, Closed, Kept};
use fiber_store::FiberStore;
use std::alloc::{AllocError, Global};
use std::process::Abort;
use std::test::Fail;

/// An engine over the tensors v and w for up to 16 calls of each session, and the seat of all sessions.
pub(crate) fn trial(alloc: Global, sessions: u32) -> Result<(Engine, Chair), NoMemory>
    requires sessions { (1 ≤ sessions) × (sessions ≤ 16) }
    ensures trial { IfOk result (λ r. IsTrial r.0 × (r.0.config.sessions ≡ sessions)) }
    ensures seat { IfOk result (λ r. IsFree r.0 r.1) }
{
    let (engine, seat) = opened(alloc, sessions, 16)?;
    Ok((engine, seat))
}

/// A batch of one update.
fn one(alloc: Global, update: Update) -> Updates
    requires valid { cell_is_valid two_vectors.decls (update_cell update) ≡ true }
    ensures valid { call_is_valid two_vectors.decls (Batch result) ≡ true }
{
    Updates::of_one(alloc, update)
}

/// A batch of two updates.
pub(crate) fn two(alloc: Global, first: Update, second: Update) -> Result<Updates, NoMemory>
    requires first { cell_is_valid two_vectors.decls (update_cell first) ≡ true }
    requires second { cell_is_valid two_vectors.decls (update_cell second) ≡ true }
    ensures valid { IfOk result (λ updates. call_is_valid two_vectors.decls (Batch updates) ≡ true) }
{
    let mut updates = Updates::new(alloc);
    updates.push(first)?;
    updates.push(second)?;
    Ok(updates)
}

/// The statement `a(i) = v(i)`.
fn all_of_v() -> Result<Stmt, NoMemory>
    ensures valid { IfOk result (λ stmt. call_is_valid two_vectors.decls (Query stmt) ≡ true) }
{
    let mut names = ArrayVec::new();
    names.push(named(b'i')?);
    let mut left = Vars::new();
    left.push(0);
    let mut vars = Vars::new();
    vars.push(0);
    Ok(Stmt {
        name: named(b'a')?,
        vars: names,
        left,
        right: Expr::Access {
            tensor: named(b'v')?,
            vars,
        },
    })
}

/// The turn, which may come next for the seat.
fn next<R: Abort>(rt: &R, seat: &Chair, turn: (u32, u32)) -> Turn
    requires calls { seat.now.config.calls ≡ 16 }
    ensures next { IsNext result seat.now }
{
    let (session, number) = turn;
    assert!(rt; seat.first() <= session && session <= seat.last());
    assert!(rt; seat.number(session) < number && number <= 16);
    Turn { session, number }
}

/// Cuts off the sessions from `at` on.
pub(crate) fn cut<R: Abort>(rt: &R, engine: &Engine, seat: &mut Chair, at: u32) -> Chair
    requires seat { IsFree engine.now seat.old }
    ensures lower { IsFree engine.now seat.new }
    ensures upper { IsFree engine.now result }
{
    assert!(rt; seat.first() < at && at <= seat.last());
    engine.split(seat, at)
}

/// Takes in the seat of the sessions that follow.
pub(crate) fn joined<R: Abort>(rt: &R, engine: &Engine, mut seat: Chair, other: Chair) -> Chair
    requires seats { IsFree engine.now seat × IsFree engine.now other }
    ensures seat { IsFree engine.now result }
{
    assert!(rt; seat.last() < 16 && other.first() == seat.last() + 1);
    engine.join(&mut seat, other);
    seat
}

/// Closes the engine, whose seat owns all sessions.
pub(crate) fn closed<R: Abort>(
    rt: &R,
    engine: Engine,
    seat: Chair,
    sessions: u32,
) -> Closed<FiberStore>
    requires sessions { engine.config.sessions ≡ sessions }
    requires seat { IsFree engine seat }
{
    assert!(rt; seat.first() == 1 && seat.last() == sessions);
    engine.close(seat)
}

/// Tries a get of v.
fn try_get<R: Abort>(
    rt: &R,
    engine: &Engine,
    seat: &mut Chair,
    turn: (u32, u32),
    at: u32,
) -> Result<u64, Busy>
    requires at { at < 128 }
    requires trial { IsTrial engine.now }
    requires seat { IsFree engine.now seat.old }
    ensures seat { IsFree engine.now seat.new }
{
    let turn = next(rt, seat, turn);
    engine.try_get(seat, turn, cell(at))
}

/// Tries a batch. What is handed in comes back where it isn't made.
pub(crate) fn try_batch<R: Abort>(
    rt: &R,
    engine: &Engine,
    seat: &mut Chair,
    turn: (u32, u32),
    updates: Updates,
) -> Result<(), TryFault<Updates>>
    requires valid { call_is_valid two_vectors.decls (Batch updates) ≡ true }
    requires trial { IsTrial engine.now }
    requires seat { IsFree engine.now seat.old }
    ensures seat { IsFree engine.now seat.new }
    ensures back { IfErr result (λ f. back_of f ≡ updates) }
{
    let turn = next(rt, seat, turn);
    engine.try_batch(seat, turn, updates)
}

/// Tries the query `a(i) = v(i)`.
pub(crate) fn try_query<R: Abort>(
    rt: &R,
    engine: &Engine,
    seat: &mut Chair,
    turn: (u32, u32),
) -> Result<Nonzeros, TryFault<Stmt>>
    requires trial { IsTrial engine.now }
    requires seat { IsFree engine.now seat.old }
    ensures seat { IsFree engine.now seat.new }
{
    let turn = next(rt, seat, turn);
    let Ok(stmt) = all_of_v() else {
        panic!(rt; "no statement")
    };
    engine.try_query(seat, turn, stmt)
}

/// A get of v is made, and answers this number.
fn reads<R: Abort>(rt: &R, engine: &Engine, seat: &mut Chair, turn: (u32, u32), at: u32, want: u64)
    requires at { at < 128 }
    requires trial { IsTrial engine.now }
    requires seat { IsFree engine.now seat.old }
    ensures seat { IsFree engine.now seat.new }
{
    assert!(rt; try_get(rt, engine, seat, turn, at) == Ok(want));
}

/// A batch is made.
pub(crate) fn changes<R: Abort>(
    rt: &R,
    engine: &Engine,
    seat: &mut Chair,
    turn: (u32, u32),
    updates: Updates,
)
    requires valid { call_is_valid two_vectors.decls (Batch updates) ≡ true }
    requires trial { IsTrial engine.now }
    requires seat { IsFree engine.now seat.old }
    ensures seat { IsFree engine.now seat.new }
{
    assert!(rt; try_batch(rt, engine, seat, turn, updates).is_ok());
}

/// The query `a(i) = v(i)` is made, and answers these pairs.
pub(crate) fn lists<R: Abort>(
    rt: &R,
    engine: &Engine,
    seat: &mut Chair,
    turn: (u32, u32),
    want: &[(u32, u64)],
)
    requires trial { IsTrial engine.now }
    requires seat { IsFree engine.now seat.old }
    ensures seat { IsFree engine.now seat.new }
{
    let Ok(pairs) = try_query(rt, engine, seat, turn) else {
        panic!(rt; "the query wasn't made")
    };
    are(rt, &pairs, want);
}

/// The pairs are these, of a tensor of one mode.
pub(crate) fn are<R: Abort>(rt: &R, pairs: &Nonzeros, want: &[(u32, u64)]) {
    assert_eq!(rt; pairs.len(), want.len());
    for ((at, value), wanted) in pairs.iter().zip(want.iter()) {
        assert!(rt; at.len() == 1 && at.get(0) == Some(&wanted.0));
        assert_eq!(rt; value, wanted.1);
    }
}

/// The calls of the journal have these turns.
pub(crate) fn turns_are<R: Abort>(rt: &R, closed: &Closed<FiberStore>, want: &[(u32, u32)]) {
    let entries = closed.journal().as_slice();
    assert_eq!(rt; entries.len(), want.len());
    for (entry, turn) in entries.iter().zip(want.iter()) {
        assert!(rt; entry.turn.session == turn.0 && entry.turn.number == turn.1);
    }
}

/// The call at this place of the journal is a get of v.
fn is_get<R: Abort>(rt: &R, closed: &Closed<FiberStore>, place: usize, at: u32) {
    let Some(entry) = closed.journal().get(place) else {
        panic!(rt; "no entry")
    };
    let Call::Get(read) = &entry.call else {
        panic!(rt; "no get")
    };
    assert!(rt; read.tensor == 0 && read.at.len() == 1 && read.at.get(0) == Some(&at));
}

/// The call at this place of the journal is a batch of these updates.
fn is_batch<R: Abort>(rt: &R, closed: &Closed<FiberStore>, place: usize, want: &[Update]) {
    let Some(entry) = closed.journal().get(place) else {
        panic!(rt; "no entry")
    };
    let Call::Batch(updates) = &entry.call else {
        panic!(rt; "no batch")
    };
    assert!(rt; updates.as_slice() == want);
}

/// The call at this place of the journal is a query.
fn is_query<R: Abort>(rt: &R, closed: &Closed<FiberStore>, place: usize) {
    let Some(entry) = closed.journal().get(place) else {
        panic!(rt; "no entry")
    };
    assert!(rt; matches!(&entry.call, Call::Query(_)));
}

/// What is left in v and in w.
fn leaves<R: Abort>(
    rt: &R,
    alloc: Global,
    closed: &Closed<FiberStore>,
    v: &[(u32, u64)],
    w: &[(u32, u64)],
) {
    let Ok(world) = two_vectors(alloc) else {
        panic!(rt; "out of memory")
    };
    let Ok(left) = nonzeros_of(alloc, closed, &world.decls, 0) else {
        panic!(rt; "out of memory")
    };
    are(rt, &left, v);
    let Ok(left) = nonzeros_of(alloc, closed, &world.decls, 1) else {
        panic!(rt; "out of memory")
    };
    are(rt, &left, w);
}

#[test]
fn two_seats_make_their_calls_in_turn(rt: HostRuntime) -> Result<(), Fail> {
    let alloc = rt.alloc();
    let sold = two(alloc, add(3, 5), set_w(0, 2))?;
    let emptied = two(alloc, set(3, 0), add(127, u64::MAX))?;
    let last = two(alloc, set(64, 4), set_w(7, 9))?;
    let (engine, mut seat) = trial(alloc, 2)?;
    let mut other = cut(&rt, &engine, &mut seat, 2);
    changes(&rt, &engine, &mut seat, (1, 1), one(alloc, set(3, 7)));
    reads(&rt, &engine, &mut other, (2, 1), 3, 7);
    changes(&rt, &engine, &mut other, (2, 2), sold);
    changes(&rt, &engine, &mut seat, (1, 2), one(alloc, add(127, 1)));
    lists(&rt, &engine, &mut other, (2, 3), &[(3, 12), (127, 1)]);
    reads(&rt, &engine, &mut seat, (1, 5), 3, 12);
    changes(&rt, &engine, &mut other, (2, 7), emptied);
    lists(&rt, &engine, &mut seat, (1, 6), &[]);
    changes(&rt, &engine, &mut seat, (1, 16), last);
    let seat = joined(&rt, &engine, seat, other);
    let closed = closed(&rt, engine, seat, 2);
    leaves(&rt, alloc, &closed, &[(64, 4)], &[(0, 2), (7, 9)]);
    journal_of_two(&rt, &closed);
    Ok(())
}

/// The journal has the calls of `two_seats_make_their_calls_in_turn` in the order in which they were made.
fn journal_of_two<R: Abort>(rt: &R, closed: &Closed<FiberStore>) {
    let turns = [
        (1, 1),
        (2, 1),
        (2, 2),
        (1, 2),
        (2, 3),
        (1, 5),
        (2, 7),
        (1, 6),
        (1, 16),
    ];
    turns_are(rt, closed, &turns);
    is_batch(rt, closed, 0, &[set(3, 7)]);
    is_get(rt, closed, 1, 3);
    is_batch(rt, closed, 2, &[add(3, 5), set_w(0, 2)]);
    is_batch(rt, closed, 3, &[add(127, 1)]);
    is_query(rt, closed, 4);
    is_get(rt, closed, 5, 3);
    is_batch(rt, closed, 6, &[set(3, 0), add(127, u64::MAX)]);
    is_query(rt, closed, 7);
    is_batch(rt, closed, 8, &[set(64, 4), set_w(7, 9)]);
}

/// Takes a latch for a session, and what belongs to it.
fn hold<R: Abort>(
    rt: &R,
    engine: &Engine,
    seat: &mut Chair,
    session: u32,
    latch: u32,
) -> Kept<FiberStore>
    requires seat { IsFree engine.now seat.old }
    requires latch { latch ≤ engine.now.config.end }
    ensures holds { IsHolding engine.now latch result seat.new }
{
    assert!(rt; seat.first() <= session && session <= seat.last());
    let Ok(kept) = engine.latches.try_take(seat, session, latch) else {
        panic!(rt; "the latch was free")
    };
    kept
}

/// Gives the latch back.
fn release(engine: &Engine, seat: &mut Chair, latch: u32, kept: Kept<FiberStore>)
    requires holds { IsHolding engine.now latch kept seat.old }
    ensures seat { IsFree engine.now seat.new }
{
    engine.latches.give(seat, latch, kept);
}

/// A get of v finds this latch held.
fn get_stops<R: Abort>(
    rt: &R,
    engine: &Engine,
    seat: &mut Chair,
    turn: (u32, u32),
    at: u32,
    held: Busy,
)
    requires at { at < 128 }
    requires trial { IsTrial engine.now }
    requires seat { IsFree engine.now seat.old }
    ensures seat { IsFree engine.now seat.new }
{
    assert!(rt; try_get(rt, engine, seat, turn, at) == Err(held));
}

/// A batch finds this latch held, and comes back.
fn batch_stops<R: Abort>(
    rt: &R,
    engine: &Engine,
    seat: &mut Chair,
    turn: (u32, u32),
    updates: Updates,
    held: Busy,
)
    requires valid { call_is_valid two_vectors.decls (Batch updates) ≡ true }
    requires trial { IsTrial engine.now }
    requires seat { IsFree engine.now seat.old }
    ensures seat { IsFree engine.now seat.new }
{
    let Err(TryFault::Busy { busy, back: _ }) = try_batch(rt, engine, seat, turn, updates) else {
        panic!(rt; "the batch wasn't stopped")
    };
    assert_eq!(rt; busy, held);
}

/// The query `a(i) = v(i)` finds this latch held.
fn query_stops<R: Abort>(rt: &R, engine: &Engine, seat: &mut Chair, turn: (u32, u32), held: Busy)
    requires trial { IsTrial engine.now }
    requires seat { IsFree engine.now seat.old }
    ensures seat { IsFree engine.now seat.new }
{
    let Err(TryFault::Busy { busy, back: _ }) = try_query(rt, engine, seat, turn) else {
        panic!(rt; "the query wasn't stopped")
    };
    assert_eq!(rt; busy, held);
}

/// A fiber has two coordinates of v, so latch 1 is that of the coordinates 2 and 3. It is held for session 2.
#[test]
fn calls_stop_at_a_fiber_that_is_held(rt: HostRuntime) -> Result<(), Fail> {
    let alloc = rt.alloc();
    let below = two(alloc, add(1, 1), add(2, 1))?;
    let above = two(alloc, add(2, 1), add(4, 1))?;
    let beside = two(alloc, add(1, 5), add(4, 6))?;
    let (engine, mut seat) = trial(alloc, 3)?;
    let mut other = cut(&rt, &engine, &mut seat, 3);
    let kept = hold(&rt, &engine, &mut seat, 2, 1);
    let held = Busy {
        latch: 1,
        holder: 2,
    };
    get_stops(&rt, &engine, &mut other, (3, 1), 3, held);
    batch_stops(&rt, &engine, &mut other, (3, 1), below, held);
    batch_stops(&rt, &engine, &mut other, (3, 1), above, held);
    query_stops(&rt, &engine, &mut other, (3, 1), held);
    changes(&rt, &engine, &mut other, (3, 1), beside);
    release(&engine, &mut seat, 1, kept);
    lists(&rt, &engine, &mut other, (3, 2), &[(1, 5), (4, 6)]);
    let seat = joined(&rt, &engine, seat, other);
    let closed = closed(&rt, engine, seat, 3);
    turns_are(&rt, &closed, &[(3, 1), (3, 2)]);
    Ok(())
}

/// The fibers of v have 64 latches and those of w four, so latch 68 is the journal's. It is held for session 1.
#[test]
fn calls_stop_at_the_journal_and_give_their_fibers_back(rt: HostRuntime) -> Result<(), Fail> {
    let alloc = rt.alloc();
    let both = two(alloc, add(2, 1), add(4, 1))?;
    let (engine, mut seat) = trial(alloc, 3)?;
    let mut other = cut(&rt, &engine, &mut seat, 2);
    let mut third = cut(&rt, &engine, &mut other, 3);
    let kept = hold(&rt, &engine, &mut seat, 1, 68);
    let held = Busy {
        latch: 68,
        holder: 1,
    };
    get_stops(&rt, &engine, &mut other, (2, 1), 3, held);
    get_stops(&rt, &engine, &mut third, (3, 1), 3, held);
    batch_stops(&rt, &engine, &mut other, (2, 1), both, held);
    query_stops(&rt, &engine, &mut third, (3, 1), held);
    query_stops(&rt, &engine, &mut other, (2, 1), held);
    release(&engine, &mut seat, 68, kept);
    lists(&rt, &engine, &mut third, (3, 1), &[]);
    changes(&rt, &engine, &mut other, (2, 1), one(alloc, add(2, 1)));
    reads(&rt, &engine, &mut third, (3, 2), 2, 1);
    let other = joined(&rt, &engine, other, third);
    let seat = joined(&rt, &engine, seat, other);
    let closed = closed(&rt, engine, seat, 3);
    turns_are(&rt, &closed, &[(3, 1), (2, 1), (3, 2)]);
    Ok(())
}

/// A seat for each of 16 sessions, in their order.
fn seat_each<R: Abort>(
    rt: &R,
    alloc: Global,
    engine: &Engine,
    seat: Chair,
) -> Result<Vec<Chair>, AllocError>
    requires seat { IsFree engine.now seat }
    ensures seats { IfOk result (λ v. All (IsFree engine.now) v.items) }
{
    let mut seats = Vec::new(alloc);
    let mut rest = seat;
    for at in 2..17 {
        let upper = cut(rt, engine, &mut rest, at);
        seats.push(rest)?;
        rest = upper;
    }
    seats.push(rest)?;
    Ok(seats)
}

/// The call of this number of a seat's one session, say s: a batch that sets v to s at 8 s - 1 and w to s at 0, a get of what
/// it set in v, or a query, which finds what all have set.
fn make_one<R: Abort>(
    rt: &R,
    alloc: Global,
    engine: &Engine,
    seat: &mut Chair,
    number: u32,
    all: &[(u32, u64)],
)
    requires trial { IsTrial engine.now }
    requires seat { IsFree engine.now seat.old }
    ensures seat { IsFree engine.now seat.new }
{
    let session = seat.first();
    assert!(rt; 1 <= session && session <= 16);
    let at = 8 * session - 1;
    let turn = (session, number);
    match number {
        1 => {
            let set = two(
                alloc,
                set(at, u64::from(session)),
                set_w(0, u64::from(session)),
            );
            let Ok(updates) = set else {
                panic!(rt; "out of memory")
            };
            changes(rt, engine, seat, turn, updates);
        }
        2 => reads(rt, engine, seat, turn, at, u64::from(session)),
        _ => lists(rt, engine, seat, turn, all),
    }
}

/// Each seat makes its call of this number.
fn round<R: Abort>(
    rt: &R,
    alloc: Global,
    engine: &Engine,
    seats: &mut [Chair],
    number: u32,
    all: &[(u32, u64)],
)
    requires trial { IsTrial engine.now }
    requires seats { All (IsFree engine.now) seats.old }
    ensures seats { All (IsFree engine.now) seats.new }
{
    for seat in seats.iter_mut() {
        make_one(rt, alloc, engine, seat, number, all);
    }
}

/// Three rounds of calls, with the numbers 1 to 3.
fn rounds<R: Abort>(rt: &R, alloc: Global, engine: &Engine, seats: &mut [Chair], all: &[(u32, u64)])
    requires trial { IsTrial engine.now }
    requires seats { All (IsFree engine.now) seats.old }
    ensures seats { All (IsFree engine.now) seats.new }
{
    round(rt, alloc, engine, seats, 1, all);
    round(rt, alloc, engine, seats, 2, all);
    round(rt, alloc, engine, seats, 3, all);
}

/// Joins the seats, the last two first.
fn join_all<R: Abort>(rt: &R, engine: &Engine, mut seats: Vec<Chair>) -> Chair
    requires seats { All (IsFree engine.now) seats.items }
    ensures seat { IsFree engine.now result }
{
    let Some(mut upper) = seats.pop() else {
        panic!(rt; "no seat")
    };
    while let Some(seat) = seats.pop() {
        upper = joined(rt, engine, seat, upper);
    }
    upper
}

/// The journal has three rounds, each with the turns of sessions 1 to 16 in their order.
fn rounds_are<R: Abort>(rt: &R, closed: &Closed<FiberStore>) {
    let entries = closed.journal().as_slice();
    assert_eq!(rt; entries.len(), 48);
    for (place, entry) in entries.iter().enumerate() {
        assert_eq!(rt; entry.turn.session as usize, place % 16 + 1);
        assert_eq!(rt; entry.turn.number as usize, place / 16 + 1);
    }
}

#[test]
fn sixteen_seats_make_their_calls_in_turn(rt: HostRuntime) -> Result<(), Fail> {
    let alloc = rt.alloc();
    let all = [
        (7, 1),
        (15, 2),
        (23, 3),
        (31, 4),
        (39, 5),
        (47, 6),
        (55, 7),
        (63, 8),
        (71, 9),
        (79, 10),
        (87, 11),
        (95, 12),
        (103, 13),
        (111, 14),
        (119, 15),
        (127, 16),
    ];
    let (engine, seat) = trial(alloc, 16)?;
    let mut seats = seat_each(&rt, alloc, &engine, seat)?;
    rounds(&rt, alloc, &engine, seats.as_mut_slice(), &all);
    let seat = join_all(&rt, &engine, seats);
    let closed = closed(&rt, engine, seat, 16);
    rounds_are(&rt, &closed);
    leaves(&rt, alloc, &closed, &all, &[(0, 16)]);
    Ok(())
}
