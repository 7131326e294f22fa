//! Which statements are refused, which calls are valid, and the kernels of statements.
//!
//! `fault_of` answers the first reason to refuse a statement, and `check_stmt` its plan where there is
//! none. A plan has the statement's kernels: its terms grouped by their variables, each group with the
//! order of its loops and the accesses that have to be repacked for this order. `call_is_valid` answers
//! whether a call may be made, with `cell_is_valid` and `query_is_valid` as its parts, and `is_small`
//! whether a statement is within the limits. `accesses_of` lists the accesses of an expression. Only `check_stmt` takes memory.
//! Clauses see a `Plan` as a `PlanState`. Read `statement_fault` in dt_model's `specs/Refusals.antt` and
//! `call_is_valid` in its `specs/Verdicts.antt` first, then `specs/Plans.antt` and `specs/LoopOrders.antt`.
//! Terms, accesses and variables are numbered from 0 in bits and places, and from 1 in refusals. A
//! statement has at most 12 accesses, 12 literals and 8 variables.
//! Not here: how a statement is read (`index_read`), and how a kernel is evaluated.
#![tactic(auto)]

mod access_faults;
mod accesses;
mod appearance;
mod declared;
mod dims;
mod kernels;
mod limits;
mod loop_orders;
mod places;
mod plans;
mod refusals;
mod term_faults;
mod terms;
#[cfg(test)]
mod tests;
mod valid_calls;
#[cfg(test)]
mod valid_tests;
mod variables;

pub use accesses::{Access, Accesses, accesses_of};
pub use appearance::is_by_appearance;
pub use limits::is_small;
pub use plans::{Kernel, Plan};
pub use refusals::{CheckFault, check_stmt, fault_of};
pub use valid_calls::{call_is_valid, cell_is_valid, query_is_valid};
