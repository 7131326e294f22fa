//! The commands and their top calls.
//!
//! `top_run` runs the workload of a manifest, each session on a thread of its own, and writes the report;
//! `top_check` checks a file of schemas; `top_sample` runs a workload that it makes of a number; `main` hands them the
//! words, the real files and standard output.
//! A clause sees the words as bytes, the files where the shelf exposes them, what was written where the
//! sink exposes it, both counts of faults, and what is left of a run's table. Read `specs/Workload.antt`
//! first, then `specs/Outcome.antt`; for `top_check` read `specs/Checks.antt`, for `top_sample` `specs/Samples.antt`.
//! Lines, sessions and calls are counted from 1, tensors from 0. A file has at most `FILE_LIMIT`
//! bytes, as have all scripts together; loaded lines and accepted updates are at most `MOST_LINES`.
//! Not here: what the lines of a manifest or a script say (`script_read`), those of data (`tns_io`) and
//! schemas (`schema_read`), which rules schemas keep (`schema_check`),
//! how a call is made (`sessions`), the world of a sample (`sample_world`), what a real file or stream has (`dt_outside`).
#![tactic(auto)]

mod checks;
mod commands;
#[cfg(test)]
mod draft_tests;
mod drafts;
mod drivers;
mod fault_lines;
mod faults;
mod fetching;
mod gathering;
mod outcomes;
mod report_rows;
mod runs;
#[cfg(test)]
mod sample_tests;
mod samples;
#[cfg(test)]
mod schema_tests;
mod scripts;
#[cfg(test)]
mod session_tests;
mod stops;
#[cfg(test)]
mod tests;
mod top;
#[cfg(test)]
mod wide_tests;
mod workloads;

use crate::outcomes::{Outcome, write_outcome};
use crate::top::{top_check, top_run, top_sample};
use dt_model::{FILE_NAME_LIMIT, NoMemory};
use dt_outside::{FileShelf, OpenGate, StreamSink};
use std::env::{Env, FillError};
use std::process::ExitCode;

/// A word of the command line, or its end.
#[derive(Drop)]
enum Word {
    /// At most 255 bytes of UTF-8.
    Text(String),
    /// Other bytes, which are no word of a command.
    Other,
    /// Nothing: the line ends before this place.
    End,
}

/// What stands at a place of the command line.
fn word_at(rt: &HostRuntime, place: usize) -> Result<Word, NoMemory> {
    let mut buffer = [0; FILE_NAME_LIMIT];
    let len = match rt.arg(place, &mut buffer) {
        Ok(len) => len,
        Err(FillError::NotPresent) => return Ok(Word::End),
        Err(FillError::TooLong) => return Ok(Word::Other),
    };
    let Ok(text) = std::str::from_utf8(&buffer[..len]) else {
        return Ok(Word::Other);
    };
    Ok(Word::Text(String::from_str(rt.alloc(), text)?))
}

/// The words behind the program's name, which itself may be of any bytes; none where one of them is
/// no word of a command.
fn words_of(rt: &HostRuntime) -> Result<Vec<String>, NoMemory> {
    let mut words = Vec::new(rt.alloc());
    for place in 1..usize::MAX {
        match word_at(rt, place)? {
            Word::Text(word) => {
                words.push(word)?;
            }
            Word::Other => return Ok(Vec::new(rt.alloc())),
            Word::End => break,
        }
    }
    Ok(words)
}

/// Whether the first word is this command.
fn is_command(words: &[String], command: &str) -> bool {
    match words {
        [word, ..] => word.as_str() == command,
        [] => false,
    }
}

/// Runs the program, and ends with its status.
fn main(rt: HostRuntime) -> ExitCode {
    let mut shelf = FileShelf::new(rt);
    let mut sink = StreamSink::new(rt);
    let status = match words_of(&rt) {
        Ok(words) if is_command(&words, "check") => {
            top_check(rt.alloc(), &words, &mut shelf, &mut sink)
        }
        Ok(words) if is_command(&words, "sample") => top_sample(rt.alloc(), &words, &mut sink),
        Ok(words) => {
            let mut end = None;
            top_run(
                &rt,
                rt.alloc(),
                &words,
                &mut shelf,
                &mut sink,
                &OpenGate,
                &mut end,
            )
        }
        Err(NoMemory) => write_outcome(&mut sink, &Outcome::OutOfMemory),
    };
    ExitCode::from(status)
}
