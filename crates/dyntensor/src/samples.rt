//! Runs the sample of a number on one thread, and writes what that leaves.
ghost use Rattle.std.specs.Prelude.{◌≡◌, ◌≤◌, ◌++◌, length, map, string_bytes, IfOk, OnOk};
ghost use Rattle.std.specs.List.{list_all};
ghost use Rattle.dt_model.specs.Texts.{text_of};
ghost use Rattle.dt_model.specs.Worlds.{IsValid};
ghost use Rattle.dyntensor.specs.Commands.{sample_numbered};
ghost use Rattle.dyntensor.specs.Finished.{IsComplete, is_settled};
ghost use Rattle.dyntensor.specs.Samples.{sample_rows, sample_text, sum_of, HasSampleCause};

use crate::commands::sample_numbered;
use crate::outcomes::Outcome as End;
use crate::report_rows::{write_counted, write_numbered};
use crate::runs::most_calls;
use dt_model::{List, NoMemory, Nonzeros, World};
use dt_text::{append, write_value};
use fiber_latch::Closed;
use fiber_store::FiberStore;
use sample_world::{MOST_SAMPLE, world_of};
use sessions::{Engine, Outcome, nonzeros_of, run_alone};
use std::alloc::Global;

/// Whether a line is refused, or its call was made: it didn't run out of memory.
fn is_settled(outcome: &Outcome) -> bool
    ensures value { result ≡ is_settled outcome.now }
{
    match outcome {
        Outcome::Refused(_) => true,
        Outcome::Reply(_) => true,
        Outcome::NoMemory => false,
    }
}

/// Whether no line of a session ran out of memory.
fn are_settled(lines: &[Outcome]) -> bool
    ensures value { result ≡ list_all is_settled lines.now }
{
    lines.iter().all(|outcome| is_settled(outcome))
}

/// Whether no line of any session ran out of memory.
fn are_all_settled(sessions: &[List<Outcome>]) -> bool
    ensures value { result ≡ list_all (list_all is_settled) sessions.now }
{
    sessions.iter().all(|lines| are_settled(lines.as_slice()))
}

/// Makes all calls of a world on one thread, and closes the table. It is out of memory also where a call is.
fn run_complete(alloc: Global, world: &World) -> Result<Closed<FiberStore>, NoMemory>
    requires valid { IsValid world.now }
    requires some { 1 ≤ length world.now.scripts }
    ensures complete { IfOk result (IsComplete world.now) }
{
    let scripts = &world.scripts;
    let sessions = scripts.len() as u32;
    let (engine, seat) = Engine::open(alloc, world, sessions, most_calls(scripts.as_slice()))?;
    let (whole, outcomes) = run_alone(&engine, seat, scripts)?;
    if are_all_settled(outcomes.as_slice()) {
        Ok(engine.close(whole))
    } else {
        Err(NoMemory)
    }
}

/// The sum of the values modulo 2^64.
fn sum_of(nonzeros: &Nonzeros) -> u64
    ensures value { result ≡ sum_of nonzeros.now }
{
    let mut sum = 0u64;
    let mut rest = nonzeros.iter();
    while let Some(pair) = rest.next() {
        sum = sum.wrapping_add(pair.1);
    }
    sum
}

/// Appends the rows of a number and of the nonzeros that its sample leaves.
fn write_sample(number: u32, nonzeros: &Nonzeros, text: &mut Vec<u8>) -> Result<(), NoMemory>
    ensures ok { OnOk result (text.new.items ≡ text.old.items ++ text_of (sample_rows number nonzeros.now)) }
{
    write_numbered("sample ", number, text)?;
    write_counted("\ncount ", nonzeros.len(), text)?;
    append(text, b"\nsum ")?;
    write_value(sum_of(nonzeros), text)?;
    append(text, b"\n")
}

/// The text of a number.
fn sample_text(alloc: Global, number: u32) -> Result<Vec<u8>, NoMemory>
    requires few { number ≤ MOST_SAMPLE }
    ensures text { IfOk result (λ text. text.items ≡ sample_text number) }
{
    let world = world_of(alloc, number)?;
    let closed = run_complete(alloc, &world)?;
    let nonzeros = nonzeros_of(alloc, &closed, &world.decls, 0)?;
    let mut text = Vec::new(alloc);
    write_sample(number, &nonzeros, &mut text)?;
    Ok(text)
}

/// Runs the sample of the number that the words have, and says how that ends.
pub fn outcome_of_sample(alloc: Global, words: &[String]) -> End
    ensures cause { HasSampleCause (sample_numbered (map string_bytes words.now)) result }
{
    let Some(number) = sample_numbered(words) else {
        return End::Usage;
    };
    match sample_text(alloc, number) {
        Ok(text) => End::Report(text),
        Err(NoMemory) => End::OutOfMemory,
    }
}
