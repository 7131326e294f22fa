//! Takes, commits and gives as a pure machine with one legal history.
//!
//! `Core::open`, `Core::step` and `Core::run` make the events of a World's sessions happen, and
//! `Core::possible` says which may; `journal`, `holder`, `reply` and `lost` read the state.
//! `load_base` makes each tensor's cells as a `CellList`, and `make_call` makes a call over them.
//! Clauses see a core as a `CoreState`, and a `CellList` as a `CellListState`. Read `Progress`, `is_possible`
//! and `after_event` in `specs/Events.antt` first, `IsStep` in `specs/Steps.antt` for what an event is to the
//! latch machine, `IsSound` in `specs/Sound.antt` for what holds after every call, and `contents_of` in
//! `specs/Cells.antt` for what cells stand for.
//! Sessions and calls are counted from 1, tensors, latches and places in the journal from 0; the journal's
//! latch comes last. A World has at most 16 sessions, 1,024 latches and 65,536 lines a script.
//! Not here: threads and the words of latches (`fiber_latch`), and what a query answers.
#![tactic(auto)]

mod calls;
mod cells;
mod committing;
mod cores;
mod events;
mod latches;
mod opening;
mod possible;
mod tensors;
#[cfg(test)]
mod tests;
mod turns;

pub use calls::make_call;
pub use cells::CellList;
pub use cores::Core;
pub use events::{Event, Position, StepFault};
pub use tensors::load_base;
