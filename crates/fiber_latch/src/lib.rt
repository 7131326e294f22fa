//! Latches, slots and seats on threads: each step is the machine's.
//!
//! `Latches::open` gives a table and the seat of all its sessions. A seat's calls are `take`, `try_take`, `commit`
//! and `give`; `split` and `join` cut seats and put them together; `close` hands out the stores and the journal.
//! Clauses see a seat as a `SeatState`: read `specs/Seats.antt` first, `specs/Rule.antt` for what holds of the
//! table between any two atomic steps, and `specs/Kinds.antt` for what each kind of step does to the latch machine.
//! A `take` that finds its latch held tries again a few times, since most latches are held for less than a microsecond.
//! Then it parks, since a session may also hold a latch over a whole call. A `give` wakes only while some take may be
//! parked, since a wake is a system call. `Latches::give` says why no wake is lost: that is tested and not proved.
//! Latches count from 0, in order of tensors and fibers, and the journal's latch comes last. Sessions and the numbers
//! of calls count from 1: at most 16 sessions with at most 65,536 calls each.
//! Not here: what a store is (any type with `Keep`), and which latches a call needs (`needs` of `dt_model`).
#![tactic(auto)]

mod closing;
mod latches;
mod opening;
mod plays;
mod raw;
mod rule;
#[cfg(test)]
mod tests;
mod view;

pub use closing::Closed;
pub use dt_model::Keep;
pub use latches::{Latches, Seat};
pub use rule::{Busy, Kept};
