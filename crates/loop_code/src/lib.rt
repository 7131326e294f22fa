//! Kernels lowered to loops over lattice points.
//!
//! `lower` makes the code of a plan: for each kernel its expression, which accesses of the statement that
//! expression has, the order of its loops and a table of lattice points for each loop variable.
//! Clauses see a `LoopCode` as a `CodeState`. Read `IsCode` in `specs/Codes.antt` first: whatever the accesses
//! hold, the kernels' expressions summed over their variables add up to the statement's answer.
//! Terms and accesses are counted from 0, from left to right. Variables are numbered by first appearance in the
//! statement, left side first. An expression has at most 12 accesses, so a table has at most 4,096 sets, and so at
//! most 4,095 points.
//! Not here: which kernels there are and what is repacked (`index_check`), and how a loop is run.
#![tactic(auto)]

mod codes;
mod expressions;
mod kernel_codes;
mod lowering;
mod places;
mod tables;
#[cfg(test)]
mod tests;
mod values;

pub use codes::LoopCode;
pub use kernel_codes::KernelCode;
pub use lowering::lower;
pub use values::value_at;
