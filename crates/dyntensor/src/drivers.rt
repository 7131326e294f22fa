//! From the words to the outcome: the workload is read and run.
ghost use Rattle.std.specs.Prelude.{◌≡◌, map, string_bytes, None};
ghost use Rattle.dyntensor.specs.Commands.{manifest_named};
ghost use Rattle.dyntensor.specs.Outcome.{HasCause};
ghost use Rattle.dyntensor.specs.Readings.{IsOutcomeOf};

use crate::commands::manifest_named;
use crate::fault_lines::FaultLine;
use crate::outcomes::Outcome;
use crate::runs::run_report;
use crate::stops::Stop;
use crate::workloads::read_workload;
use dt_model::NoMemory;
use dt_outside::{Gate, Shelf};
use fiber_latch::Closed;
use fiber_store::FiberStore;
use std::alloc::Global;
use std::sync::Wait;
use std::thread::Threads;

/// The outcome of a command whose files aren't read.
pub fn stopped(alloc: Global, stop: Stop) -> Outcome
    ensures value { IsOutcomeOf stop result }
{
    match stop {
        Stop::Refused(fault) => match FaultLine::new(alloc, fault) {
            Ok(line) => Outcome::Refused(line),
            Err(NoMemory) => Outcome::OutOfMemory,
        },
        Stop::Unfetched(file) => Outcome::Unfetched(file),
        Stop::NoMemory => Outcome::OutOfMemory,
    }
}

/// Reads the workload that the words name, runs it, and says how that ends. What a run leaves of its table comes into `end`.
pub fn outcome_of<R: Threads + Wait + Sync, S: Shelf, G: Gate + Sync>(
    rt: &R,
    alloc: Global,
    words: &[String],
    shelf: &mut S,
    gate: &G,
    end: &mut Option<Closed<FiberStore>>,
) -> Outcome
    requires empty { end.old ≡ None }
    ensures files { (S.state shelf.new).files ≡ (S.state shelf.old).files }
    ensures cause { HasCause (manifest_named (map string_bytes words.now)) (S.state shelf.old) (S.state shelf.new) end.new result }
{
    let Some(manifest) = manifest_named(words) else {
        return Outcome::Usage;
    };
    match read_workload(rt, alloc, shelf, &manifest) {
        Ok((world, printed)) => match run_report(rt, alloc, &world, printed.as_slice(), gate) {
            Ok((text, closed)) => {
                *end = Some(closed);
                Outcome::Report(text)
            }
            Err(NoMemory) => Outcome::OutOfMemory,
        },
        Err(stop) => stopped(alloc, stop),
    }
}
