//! Shelf, sink and gate: a fault comes only where a count rose.
//!
//! `Shelf::fetch` reads a file, `Sink::write_some` and `write_all` write bytes, `Gate::held` is called
//! when a call holds its fibers. At a `HoldGate` calls of a test look for one another.
//! Clauses see a shelf as a `ShelfState`: the files, if it exposes them, its count of faults and the name
//! of the last fetch that failed; a sink as what was written, if it exposes it, and its count. Read
//! `specs/Faults.antt` first.
//! Names have 1 to 255 bytes; fetches and writes are counted from 1; a count of faults ends at 2^64 - 1
//! and counts as risen there.
//! Not here: what a file or a text means (`dt_text`), and what a real file or stream has, which no
//! clause says.
#![tactic(auto)]

mod gates;
mod hold_gates;
mod memory_files;
mod memory_shelves;
mod memory_sinks;
mod real;
mod shelves;
mod sinks;
#[cfg(test)]
mod tests;

pub use gates::{Gate, OpenGate};
pub use hold_gates::{HoldGate, MOST_WAITS};
pub use memory_files::MemFile;
pub use memory_shelves::{MemShelf, SureShelf};
pub use memory_sinks::{MemSink, SureSink};
pub use real::{FileShelf, StreamSink};
pub use shelves::{FetchFault, Shelf};
pub use sinks::{Sink, SinkFailed, write_all};
