//! Runs the scripts of a world, each session on a thread of its own, and writes the report.
ghost use Rattle.std.specs.Prelude.{◌≡◌, ◌<◌, ◌≤◌, ◌++◌, [], OnOk, IfOk, All, length};
ghost use Rattle.std.specs.List.{flat_map, enumerate_from};
ghost use Rattle.dt_model.specs.declared.limits.TheConstants.{MOST_CALLS};
ghost use Rattle.dt_model.specs.Texts.{text_of};
ghost use Rattle.dt_model.specs.Report.{history, session_rows, tensor_rows, PrintsRun};
ghost use Rattle.dt_model.specs.Worlds.{IsValid};
ghost use Rattle.dyntensor.specs.Finished.{IsFinished};
ghost use Rattle.dyntensor.specs.Gathering.{IsRunnable};
ghost use Rattle.dyntensor.specs.Leaving.{IsLeftBy};

use crate::report_rows::{write_history, write_sessions, write_tensor};
use dt_model::{NoMemory, Verdicts, World};
use dt_outside::Gate;
use fiber_latch::Closed;
use fiber_store::FiberStore;
use sessions::{Engine, nonzeros_of, run_sessions};
use std::alloc::Global;
use std::sync::Wait;
use std::thread::Threads;

/// The greater of two counts of calls.
fn greater(one: u32, other: u32) -> u32
    requires few { (one ≤ MOST_CALLS) × (other ≤ MOST_CALLS) }
    ensures few { result ≤ MOST_CALLS }
    ensures greatest { (one ≤ result) × (other ≤ result) }
{
    if one < other { other } else { one }
}

/// The most calls that a script has, or 1 where each has none.
pub fn most_calls(scripts: &[Verdicts]) -> u32
    requires calls { All (λ script. length script ≤ MOST_CALLS) scripts.now }
    ensures room { All (λ script. length script ≤ result) scripts.now }
    ensures few { (1 ≤ result) × (result ≤ MOST_CALLS) }
{
    let mut most = 1;
    for script in scripts {
        most = greater(most, script.len() as u32);
    }
    most
}

/// Opens the table of a world without scripts, and closes it at once.
fn run_no_scripts(alloc: Global, world: &World) -> Result<Closed<FiberStore>, NoMemory>
    requires valid { IsValid world.now }
    requires none { world.now.scripts ≡ [] }
    ensures finished { IfOk result (IsFinished world.now) }
{
    let (engine, seat) = Engine::open(alloc, world, 1, 1)?;
    Ok(engine.close(seat))
}

/// Makes the calls of all scripts, each session on a thread of its own, and appends the rows of their lines. Out of memory
/// outside a session's call, what is appended is no more than a beginning of the rows.
fn run_scripts<R: Threads + Wait + Sync, G: Gate + Sync>(
    rt: &R,
    alloc: Global,
    world: &World,
    gate: &G,
    text: &mut Vec<u8>,
) -> Result<Closed<FiberStore>, NoMemory>
    requires valid { IsValid world.now }
    requires some { 1 ≤ length world.now.scripts }
    ensures finished { IfOk result (IsFinished world.now) }
    ensures rows { IfOk result (λ closed. text.new.items ≡ text.old.items
        ++ text_of (flat_map (session_rows world.now closed.journal.entries) (enumerate_from 1 world.now.scripts))) }
{
    let scripts = &world.scripts;
    let sessions = scripts.len() as u32;
    let (engine, seat) = Engine::open(alloc, world, sessions, most_calls(scripts.as_slice()))?;
    let (whole, outcomes) = run_sessions(rt, &engine, seat, scripts, gate)?;
    write_sessions(outcomes.as_slice(), text)?;
    Ok(engine.close(whole))
}

/// Runs a world, and appends the rows of its sessions.
fn run_world<R: Threads + Wait + Sync, G: Gate + Sync>(
    rt: &R,
    alloc: Global,
    world: &World,
    gate: &G,
    text: &mut Vec<u8>,
) -> Result<Closed<FiberStore>, NoMemory>
    requires valid { IsValid world.now }
    ensures finished { IfOk result (IsFinished world.now) }
    ensures rows { IfOk result (λ closed. text.new.items ≡ text.old.items
        ++ text_of (flat_map (session_rows world.now closed.journal.entries) (enumerate_from 1 world.now.scripts))) }
{
    if world.scripts.len() == 0 {
        run_no_scripts(alloc, world)
    } else {
        run_scripts(rt, alloc, world, gate, text)
    }
}

/// Appends the rows of the printed tensors.
fn write_tensors(
    alloc: Global,
    world: &World,
    closed: &Closed<FiberStore>,
    printed: &[u32],
    text: &mut Vec<u8>,
) -> Result<(), NoMemory>
    requires runnable { IsRunnable world.now printed.now }
    requires finished { IsFinished world.now closed.now }
    ensures rows { OnOk result (text.new.items ≡ text.old.items ++ text_of (flat_map (tensor_rows world.now closed.now.journal.entries) printed.now)) }
{
    let tensors = world.decls.tensors.as_slice();
    for tensor in printed {
        let nonzeros = nonzeros_of(alloc, closed, &world.decls, *tensor)?;
        write_tensor(&tensors[*tensor as usize].name, &nonzeros, text)?;
    }
    Ok(())
}

/// Runs a world, and answers the report with the printed tensors, and what is left of the table.
pub fn run_report<R: Threads + Wait + Sync, G: Gate + Sync>(
    rt: &R,
    alloc: Global,
    world: &World,
    printed: &[u32],
    gate: &G,
) -> Result<(Vec<u8>, Closed<FiberStore>), NoMemory>
    requires runnable { IsRunnable world.now printed.now }
    ensures printed { IfOk result (λ r. PrintsRun world.now printed.now r.0.items) }
    ensures left { IfOk result (λ r. IsLeftBy world.now (history world.now r.0.items) r.1) }
{
    let mut text = Vec::new(alloc);
    let closed = run_world(rt, alloc, world, gate, &mut text)?;
    write_history(closed.journal().as_slice(), &mut text)?;
    write_tensors(alloc, world, &closed, printed, &mut text)?;
    Ok((text, closed))
}
