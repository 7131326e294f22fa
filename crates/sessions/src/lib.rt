//! The engine: each reply is the one at its place in the history.
//!
//! `Engine::open` gives an engine and the seat of all its sessions. `try_get`, `try_batch` and `try_query` make a call where
//! its latches are free, `get`, `batch` and `query` wait for them. `split` and `join` cut seats and put them together, and
//! `close` hands out the stores and the journal, of which `nonzeros_of` lists a tensor.
//! `run_sessions` runs a script for each session at once, and `run_alone` one after the other on one thread; both give the
//! outcome of each line.
//! Clauses see an engine as its table of latches, and a seat as a `SeatState`. Read `CanMake` and `HasMade` in
//! `specs/Calling.antt` first, then `specs/Seats.antt` of `fiber_latch`.
//! Coordinates, tensors and latches are counted from 0, sessions and numbers of calls from 1.
//! Not here: latches (`fiber_latch`), cells (`fiber_store`), how a statement is evaluated (`slow_eval`), texts (`dyntensor`).
#![tactic(auto)]

mod alone;
mod batches;
mod engine;
#[cfg(test)]
mod engine_tests;
mod entering;
mod faults;
mod fiber_rows;
mod finishing;
mod gets;
mod hands;
mod held_calls;
mod held_tables;
mod lines;
mod loading;
#[cfg(test)]
mod memory_tests;
mod needing;
mod outcomes;
mod results;
mod rooms;
#[cfg(test)]
mod run_tests;
mod running;
mod statements;
mod takers;
mod taking;
#[cfg(test)]
mod valid_tests;

pub use alone::run_alone;
pub use engine::{Chair, Engine};
pub use faults::TryFault;
pub use outcomes::{Outcome, Outcomes};
pub use results::nonzeros_of;
pub use running::run_sessions;
