//! Sessions on threads of their own and on one thread, over two tensors.
ghost use Rattle.std.specs.Prelude.{ℕ, ◌≡◌, ◌+◌, ◌<◌, ◌≤◌, [], ◌∷◌, ◌++◌, length, true, IfOk, OnOk, IsTrue};
ghost use Rattle.dt_model.specs.Verdicts.{call_is_valid, cell_is_valid, update_cell};
ghost use Rattle.dt_model.specs.Worlds.{IsValid};
ghost use Rattle.sessions.specs.RunTests.{two_vectors, AreBuilt, IsBuilt, IsOpened};

use crate::alone::run_alone;
use crate::engine::{Chair, Engine};
use crate::outcomes::{Outcome, Outcomes};
use crate::running::run_sessions;
use arrayvec::ArrayVec;
use dt_model::{
    Call, Cell, Coords, Decls, Expr, List, Name, NoMemory, Nonzeros, Pairs, Refusal, Reply, Schema,
    Scripts, Stmt, TensorDecl, Turn, Update, Updates, Vars, Verdict, Verdicts, World,
};
use dt_outside::{HoldGate, OpenGate};
use fiber_latch::Closed;
use fiber_store::FiberStore;
use std::alloc::Global;
use std::mem::size_of;
use std::process::Abort;
use std::sync::Wait;
use std::test::Fail;
use std::thread::Threads;

/// A name of one byte.
pub(crate) fn named(byte: u8) -> Result<Name, NoMemory>
    ensures value { IfOk result (λ n. n ≡ byte ∷ []) }
{
    match Name::new(&[byte]) {
        Some(name) => Ok(name),
        None => Err(NoMemory),
    }
}

/// A tensor of one mode.
fn vector(name: u8, dimension: u32, latches: u32) -> Result<TensorDecl, NoMemory>
    ensures value { IfOk result (λ t. t ≡ record { name = name ∷ []; dims = dimension ∷ []; formats = record { items = 0 ∷ [] }; latches = latches }) }
{
    let name = named(name)?;
    let mut dims = Coords::new();
    dims.push(dimension);
    let mut formats = ArrayVec::new();
    formats.push(0);
    Ok(TensorDecl {
        name,
        dims,
        formats,
        latches,
    })
}

/// The tensors v of dimension 128 with 64 latches and w of dimension 8 with 4, and nothing loaded.
pub(crate) fn two_vectors(alloc: Global) -> Result<World, NoMemory>
    ensures value { IfOk result (λ w. w ≡ two_vectors) }
    ensures valid { IfOk result (λ w. IsValid w) }
{
    let mut schemas = List::new(alloc);
    schemas.push(Schema::flat())?;
    let mut tensors = List::new(alloc);
    tensors.push(vector(b'v', 128, 64)?)?;
    tensors.push(vector(b'w', 8, 4)?)?;
    let mut base = List::new(alloc);
    base.push(Pairs::new(alloc))?;
    base.push(Pairs::new(alloc))?;
    Ok(World {
        decls: Decls { schemas, tensors },
        base,
        scripts: List::new(alloc),
    })
}

/// An engine over the two tensors, and the seat of all sessions.
pub(crate) fn opened(alloc: Global, sessions: u32, calls: u32) -> Result<(Engine, Chair), NoMemory>
    requires sessions { (1 ≤ sessions) × (sessions ≤ 16) }
    requires calls { (1 ≤ calls) × (calls ≤ 65536) }
    ensures opened { IfOk result (λ r. IsOpened sessions calls r.0 r.1) }
{
    let world = two_vectors(alloc)?;
    Engine::open(alloc, &world, sessions, calls)
}

/// The cell of v at a coordinate.
pub(crate) fn cell(at: u32) -> Cell
    requires at { at < 128 }
    ensures valid { cell_is_valid two_vectors.decls result ≡ true }
{
    let mut coords = Coords::new();
    coords.push(at);
    Cell {
        tensor: 0,
        at: coords,
    }
}

/// An add of a value at a coordinate.
pub(crate) fn add(at: u32, value: u64) -> Update
    requires at { at < 128 }
    ensures valid { cell_is_valid two_vectors.decls (update_cell result) ≡ true }
{
    Update::Add {
        cell: cell(at),
        value,
    }
}

/// A set of a value at a coordinate.
pub(crate) fn set(at: u32, value: u64) -> Update
    requires at { at < 128 }
    ensures valid { cell_is_valid two_vectors.decls (update_cell result) ≡ true }
{
    Update::Set {
        cell: cell(at),
        value,
    }
}

/// A set of a value in w.
pub(crate) fn set_w(at: u32, value: u64) -> Update
    requires at { at < 8 }
    ensures valid { cell_is_valid two_vectors.decls (update_cell result) ≡ true }
{
    let mut coords = Coords::new();
    coords.push(at);
    let cell = Cell {
        tensor: 1,
        at: coords,
    };
    Update::Set { cell, value }
}

/// A get.
fn get(at: u32) -> Call
    requires at { at < 128 }
    ensures valid { call_is_valid two_vectors.decls result ≡ true }
{
    Call::Get(cell(at))
}

/// A batch of one update.
fn one(alloc: Global, update: Update) -> Call
    requires valid { cell_is_valid two_vectors.decls (update_cell update) ≡ true }
    ensures valid { call_is_valid two_vectors.decls result ≡ true }
{
    Call::Batch(Updates::of_one(alloc, update))
}

/// A batch of two updates.
fn two(alloc: Global, first: Update, second: Update) -> Result<Call, NoMemory>
    requires first { cell_is_valid two_vectors.decls (update_cell first) ≡ true }
    requires second { cell_is_valid two_vectors.decls (update_cell second) ≡ true }
    ensures valid { IfOk result (λ call. call_is_valid two_vectors.decls call ≡ true) }
{
    let mut updates = Updates::new(alloc);
    updates.push(first)?;
    updates.push(second)?;
    Ok(Call::Batch(updates))
}

/// The query `a(i) = v(i)`.
fn query(alloc: Global) -> Result<Call, NoMemory>
    ensures valid { IfOk result (λ call. call_is_valid two_vectors.decls call ≡ true) }
{
    let mut names = ArrayVec::new();
    names.push(named(b'i')?);
    let mut left = Vars::new();
    left.push(0);
    let mut vars = Vars::new();
    vars.push(0);
    let stmt = Stmt {
        name: named(b'a')?,
        vars: names,
        left,
        right: Expr::Access {
            tensor: named(b'v')?,
            vars,
        },
    };
    Call::query(alloc, stmt)
}

/// Adds a line with a call.
fn call_line(script: &mut Verdicts, call: Call) -> Result<(), NoMemory>
    requires valid { call_is_valid two_vectors.decls call ≡ true }
    requires built { IsBuilt (length script.old) script.old }
    ensures built { OnOk result (IsBuilt (length script.old + 1) script.new) }
{
    Ok(script.push(Verdict::Accepted(call))?)
}

/// Adds a line that is refused.
fn refused_line(script: &mut Verdicts, column: u32) -> Result<(), NoMemory>
    requires built { IsBuilt (length script.old) script.old }
    ensures built { OnOk result (IsBuilt (length script.old + 1) script.new) }
{
    Ok(script.push(Verdict::Refused(Refusal::Form { column }))?)
}

/// Adds the line of this number: an add, a batch of two, a get, a query, or a refusal.
fn some_line(
    alloc: Global,
    script: &mut Verdicts,
    session: u32,
    number: u32,
) -> Result<(), NoMemory>
    requires small { (session ≤ 16) × (number ≤ 65536) }
    requires built { IsBuilt (length script.old) script.old }
    ensures built { OnOk result (IsBuilt (length script.old + 1) script.new) }
{
    let at = (number * 7 + session * 16) % 128;
    let other = (number * 5 + session) % 128;
    match number % 16 {
        3 | 9 => call_line(script, get(at)),
        5 | 11 => {
            let call = two(alloc, add(at, 3), set(other, u64::from(number)))?;
            call_line(script, call)
        }
        7 => call_line(script, query(alloc)?),
        13 => refused_line(script, number),
        _ => call_line(script, one(alloc, add(at, u64::from(session)))),
    }
}

/// Adds a script.
fn add_script(scripts: &mut Scripts, script: Verdicts) -> Result<(), NoMemory>
    ensures built { (n : ℕ) → IsBuilt n script → AreBuilt (length scripts.old) n scripts.old → OnOk result (AreBuilt (length scripts.old + 1) n scripts.new) }
{
    Ok(scripts.push(script)?)
}

/// A script of one line, a call.
fn one_line(alloc: Global, call: Call) -> Result<Verdicts, NoMemory>
    requires valid { call_is_valid two_vectors.decls call ≡ true }
    ensures built { IfOk result (λ script. IsBuilt 1 script) }
{
    let mut script = Verdicts::new(alloc);
    call_line(&mut script, call)?;
    Ok(script)
}

/// The scripts of two sessions, each of one call.
fn two_scripts(alloc: Global, first: Call, second: Call) -> Result<Scripts, NoMemory>
    requires first { call_is_valid two_vectors.decls first ≡ true }
    requires second { call_is_valid two_vectors.decls second ≡ true }
    ensures built { IfOk result (λ scripts. AreBuilt 2 1 scripts) }
{
    let mut scripts = Scripts::new(alloc);
    let script = one_line(alloc, first)?;
    add_script(&mut scripts, script)?;
    let other = one_line(alloc, second)?;
    add_script(&mut scripts, other)?;
    Ok(scripts)
}

/// A script of an add, a line that is refused, and a get of the same cell.
fn add_refusal_get(alloc: Global) -> Result<Scripts, NoMemory>
    ensures built { IfOk result (λ scripts. AreBuilt 1 3 scripts) }
{
    let mut script = Verdicts::new(alloc);
    call_line(&mut script, one(alloc, add(7, 5)))?;
    refused_line(&mut script, 4)?;
    call_line(&mut script, get(7))?;
    let mut scripts = Scripts::new(alloc);
    add_script(&mut scripts, script)?;
    Ok(scripts)
}

/// A script of so many lines.
fn some_script(alloc: Global, session: u32, count: u32) -> Result<Verdicts, NoMemory>
    requires small { (session ≤ 16) × (count ≤ 65536) }
    ensures built { IfOk result (λ script. IsBuilt count script) }
{
    let mut script = Verdicts::new(alloc);
    for done in 0..count {
        some_line(alloc, &mut script, session, done + 1)?;
    }
    Ok(script)
}

/// A script for each session, of so many lines.
pub(crate) fn some_scripts(alloc: Global, sessions: u32, count: u32) -> Result<Scripts, NoMemory>
    requires small { (sessions ≤ 16) × (count ≤ 65536) }
    ensures built { IfOk result (λ scripts. AreBuilt sessions count scripts) }
{
    let mut scripts = Scripts::new(alloc);
    for done in 0..sessions {
        let script = some_script(alloc, done + 1, count)?;
        add_script(&mut scripts, script)?;
    }
    Ok(scripts)
}

/// The place of a cell: those of w come behind those of v.
fn place_of<R: Abort>(rt: &R, cell: &Cell) -> usize
    ensures below { result < 136 }
{
    let Some(at) = cell.at.get(0) else {
        panic!(rt; "no coordinate")
    };
    let place = *at as usize + cell.tensor as usize * 128;
    assert!(rt; cell.tensor <= 1 && place < 136);
    place
}

/// Makes an update.
fn update<R: Abort>(rt: &R, cells: &mut [u64; 136], update: &Update) {
    match update {
        Update::Set { cell, value } => cells[place_of(rt, cell)] = *value,
        Update::Add { cell, value } => {
            let place = place_of(rt, cell);
            cells[place] = cells[place].wrapping_add(*value);
        }
    }
}

/// The pairs are the nonzeros of the cells of v.
fn are_nonzeros<R: Abort>(rt: &R, cells: &[u64; 136], pairs: &Nonzeros) {
    let mut next = 0usize;
    for (at, value) in pairs.iter() {
        let Some(coordinate) = at.get(0) else {
            panic!(rt; "no coordinate")
        };
        let coordinate = *coordinate as usize;
        assert!(rt; next <= coordinate && coordinate < 128);
        assert!(rt; value != 0 && cells[coordinate] == value);
        next = coordinate + 1;
    }
    let nonzero = cells[..128].iter().filter(|value| **value != 0).count();
    assert_eq!(rt; nonzero, pairs.len());
}

/// The outcome is what one thread answers over these cells, which then are those after the call.
fn follows<R: Abort>(rt: &R, cells: &mut [u64; 136], call: &Call, outcome: &Outcome) {
    match (call, outcome) {
        (Call::Get(cell), Outcome::Reply(Reply::Value(value))) => {
            assert_eq!(rt; cells[place_of(rt, cell)], *value);
        }
        (Call::Batch(updates), Outcome::Reply(Reply::Done)) => {
            for made in updates.as_slice() {
                update(rt, cells, made);
            }
        }
        (Call::Query(_), Outcome::Reply(Reply::Result(pairs))) => are_nonzeros(rt, cells, pairs),
        _ => panic!(rt; "no such outcome"),
    }
}

/// The outcome of a line fits its verdict; it is a reply where the line is accepted, unless it ran out of memory, which no
/// get does.
fn fits<R: Abort>(rt: &R, verdict: &Verdict, outcome: &Outcome) -> bool {
    match (verdict, outcome) {
        (Verdict::Accepted(_), Outcome::Reply(_)) => true,
        (Verdict::Accepted(Call::Batch(_) | Call::Query(_)), Outcome::NoMemory) => false,
        (Verdict::Refused(refusal), Outcome::Refused(told)) => {
            assert_eq!(rt; refusal, told);
            false
        }
        _ => panic!(rt; "no such outcome"),
    }
}

/// How many lines of a session ran out of memory.
fn lacking_in(told: &[Outcome]) -> usize {
    told.iter()
        .filter(|outcome| matches!(outcome, Outcome::NoMemory))
        .count()
}

/// How many lines of all sessions ran out of memory.
pub(crate) fn lacking(outcomes: &Outcomes) -> usize {
    let mut count = 0usize;
    for told in outcomes.as_slice() {
        count = count.saturating_add(lacking_in(told.as_slice()));
    }
    count
}

/// One thread that makes the calls in the journal's order answers the outcomes, and no other line has a reply.
pub(crate) fn agrees<R: Abort>(
    rt: &R,
    closed: &Closed<FiberStore>,
    scripts: &Scripts,
    outcomes: &Outcomes,
) {
    let mut cells = [0u64; 136];
    for entry in closed.journal().as_slice() {
        let turn = entry.turn;
        let Some(outcome) = outcomes.get(turn.session, turn.number) else {
            panic!(rt; "no outcome")
        };
        follows(rt, &mut cells, &entry.call, outcome);
    }
    let mut replies = 0usize;
    for (lines, told) in scripts.as_slice().iter().zip(outcomes.as_slice().iter()) {
        assert_eq!(rt; lines.len(), told.len());
        for (verdict, outcome) in lines.as_slice().iter().zip(told.as_slice().iter()) {
            if fits(rt, verdict, outcome) {
                replies = replies.saturating_add(1);
            }
        }
    }
    assert_eq!(rt; scripts.len(), outcomes.as_slice().len());
    assert_eq!(rt; closed.journal().len(), replies);
}

#[test]
fn an_outcome_is_small(rt: HostRuntime) -> Result<(), Fail> {
    assert_eq!(rt; size_of::<Outcome>(), 72);
    Ok(())
}

#[test]
fn sixteen_sessions_make_one_history(rt: HostRuntime) -> Result<(), Fail> {
    let alloc = rt.alloc();
    let (engine, seat) = opened(alloc, 16, 200)?;
    let scripts = some_scripts(alloc, 16, 200)?;
    let Ok((seat, outcomes)) = run_sessions(&rt, &engine, seat, &scripts, &OpenGate) else {
        panic!(rt; "out of memory")
    };
    let closed = engine.close(seat);
    agrees(&rt, &closed, &scripts, &outcomes);
    assert_eq!(rt; lacking(&outcomes), 0);
    Ok(())
}

#[test]
fn one_thread_runs_the_sessions_in_turn(rt: HostRuntime) -> Result<(), Fail> {
    let alloc = rt.alloc();
    let (engine, seat) = opened(alloc, 3, 40)?;
    let scripts = some_scripts(alloc, 3, 40)?;
    let Ok((seat, outcomes)) = run_alone(&engine, seat, &scripts) else {
        panic!(rt; "out of memory")
    };
    let closed = engine.close(seat);
    agrees(&rt, &closed, &scripts, &outcomes);
    assert_eq!(rt; lacking(&outcomes), 0);
    let mut session = 1;
    for entry in closed.journal().as_slice() {
        assert!(rt; session <= entry.turn.session);
        session = entry.turn.session;
    }
    assert_eq!(rt; session, 3);
    Ok(())
}

/// Whether the calls of two sessions found each other at the gate, each of which looks so many times for the other.
fn meet<R: Abort + Threads + Wait + Sync>(
    rt: &R,
    alloc: Global,
    scripts: &Scripts,
    looks: u64,
) -> Result<bool, Fail>
    requires built { AreBuilt 2 1 scripts.now }
{
    let (engine, seat) = opened(alloc, 2, 1)?;
    let first = Turn {
        session: 1,
        number: 1,
    };
    let second = Turn {
        session: 2,
        number: 1,
    };
    let waits = vec![in alloc; (first, second), (second, first)]?;
    let gate = HoldGate::new(waits, looks);
    let Ok((seat, outcomes)) = run_sessions(rt, &engine, seat, scripts, &gate) else {
        panic!(rt; "out of memory")
    };
    let closed = engine.close(seat);
    agrees(rt, &closed, scripts, &outcomes);
    assert_eq!(rt; lacking(&outcomes), 0);
    Ok(gate.all_met())
}

#[test]
fn two_sessions_hold_their_fibers_at_once(rt: HostRuntime) -> Result<(), Fail> {
    let alloc = rt.alloc();
    let adds = two_scripts(alloc, one(alloc, add(1, 5)), one(alloc, add(3, 5)))?;
    assert!(rt; meet(&rt, alloc, &adds, 100_000_000)?);
    let batch = two(alloc, set_w(0, 1), set_w(7, 2))?;
    let both = two_scripts(alloc, query(alloc)?, batch)?;
    assert!(rt; meet(&rt, alloc, &both, 100_000_000)?);
    let reads = two_scripts(alloc, get(1), one(alloc, set(3, 5)))?;
    assert!(rt; meet(&rt, alloc, &reads, 100_000_000)?);
    Ok(())
}

#[test]
fn two_sessions_never_hold_one_fiber(rt: HostRuntime) -> Result<(), Fail> {
    let alloc = rt.alloc();
    let sets = two_scripts(alloc, one(alloc, set(0, 5)), one(alloc, set(1, 6)))?;
    assert!(rt; !meet(&rt, alloc, &sets, 100_000)?);
    let reads = two_scripts(alloc, query(alloc)?, one(alloc, add(127, 1)))?;
    assert!(rt; !meet(&rt, alloc, &reads, 100_000)?);
    let gets = two_scripts(alloc, get(0), one(alloc, set(1, 6)))?;
    assert!(rt; !meet(&rt, alloc, &gets, 100_000)?);
    Ok(())
}

#[test]
fn a_refused_line_keeps_its_number(rt: HostRuntime) -> Result<(), Fail> {
    let alloc = rt.alloc();
    let (engine, seat) = opened(alloc, 1, 3)?;
    let scripts = add_refusal_get(alloc)?;
    let Ok((seat, outcomes)) = run_sessions(&rt, &engine, seat, &scripts, &OpenGate) else {
        panic!(rt; "out of memory")
    };
    assert_eq!(rt; outcomes.get(1, 1), Some(&Outcome::Reply(Reply::Done)));
    let refused = Outcome::Refused(Refusal::Form { column: 4 });
    assert_eq!(rt; outcomes.get(1, 2), Some(&refused));
    assert_eq!(rt; outcomes.get(1, 3), Some(&Outcome::Reply(Reply::Value(5))));
    assert!(rt; outcomes.get(0, 1).is_none() && outcomes.get(1, 0).is_none());
    assert!(rt; outcomes.get(1, 4).is_none() && outcomes.get(2, 1).is_none());
    let closed = engine.close(seat);
    let turns = closed.journal().as_slice();
    assert!(rt; turns.len() == 2);
    assert!(rt; turns[0].turn.number == 1 && turns[1].turn.number == 3);
    Ok(())
}
