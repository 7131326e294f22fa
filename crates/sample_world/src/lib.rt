//! The world that a sample runs: lines and calls that a generator makes of one number.
//!
//! `world_of` makes the world of a number. `contents_after-sample` in `proofs/Contents.antt` is its law: the same
//! contents are left by every order in which its calls take effect.
//! Clauses see the world as `sample_world`. Read `specs/Sample.antt` first.
//! Lines, calls and sessions are counted from 1, coordinates and tensors from 0. A number is at most `MOST_SAMPLE`.
//! Not here: how the world is run (`sessions`), what is printed of it (`dyntensor`).
#![tactic(auto)]

mod generator;
mod sizes;
#[cfg(test)]
mod tests;
mod worlds;

pub use sizes::{MOST_SAMPLE, SAMPLE_SESSIONS};
pub use worlds::world_of;
