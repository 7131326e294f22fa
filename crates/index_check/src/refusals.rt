//! The first reason to refuse a statement.
ghost use Rattle.std.specs.Prelude.{◌≡◌, ◌<◌, ◌≤◌, ℕ, true, List, [], length, map, All, Option, Some, None, IfOk};
ghost use Rattle.dt_model.specs.Statements.{accesses};
ghost use Rattle.dt_model.specs.Refusals.{statement_fault, dimension_fault};
ghost use Rattle.dt_model.specs.Verdicts.{is_small};
ghost use Rattle.index_check.specs.Parts.{all_places, AllVarsBelow, access_faults, term_faults};
ghost use Rattle.index_check.specs.Plans.{plan_of};
ghost use Rattle.index_check.specs.Refused.{IsRefusedBy};

use crate::access_faults::{misranked_in, repeated_in_access, undeclared_in};
use crate::accesses::{Access, accesses_of};
use crate::places::{dimension_fault, places_of};
use crate::plans::{Plan, plan_of};
use crate::term_faults::{accessless_in, uncovered_in_terms};
use crate::variables::repeated_fault;
use dt_model::{Decls, Name, NoMemory, Refusal, Stmt};
use std::alloc::Global;

/// Why there is no plan.
#[derive(Debug, Drop)]
pub enum CheckFault {
    /// The statement is refused.
    Refused(Refusal),
    /// Out of memory.
    NoMemory,
}

/// The first place whose variable has another dimension than at its first place.
fn misfit_in(names: &[Name], places: &[(u8, u32)]) -> Option<Refusal>
    requires known { All (λ (p : ℕ × ℕ). p.0 < length names.now) places.now }
    requires eight { length names.now ≤ 8 }
    ensures value { result ≡ dimension_fault names.now [] places.now }
{
    dimension_fault(names, places, [None; 8])
}

/// The first fault of the accesses and the left side.
fn fault_of_accesses(
    decls: &Decls,
    stmt: &Stmt,
    list: &[Access],
    places: &[(u8, u32)],
) -> Option<Refusal>
    requires left { All (λ v. v < length stmt.now.vars.items) stmt.now.left }
    requires known { AllVarsBelow (length stmt.now.vars.items) list.now }
    requires placed { All (λ (p : ℕ × ℕ). p.0 < length stmt.now.vars.items) places.now }
    requires eight { length stmt.now.vars.items ≤ 8 }
    ensures value { result ≡ access_faults decls.now stmt.now list.now places.now }
{
    match undeclared_in(decls, list) {
        Some(fault) => Some(fault),
        None => match misranked_in(decls, list) {
            Some(fault) => Some(fault),
            None => match misfit_in(stmt.vars.as_slice(), places) {
                Some(fault) => Some(fault),
                None => match repeated_fault(stmt.vars.as_slice(), stmt.left.as_slice()) {
                    Some(fault) => Some(fault),
                    None => repeated_in_access(stmt.vars.as_slice(), list),
                },
            },
        },
    }
}

/// The first fault of the terms.
fn fault_of_terms(stmt: &Stmt) -> Option<Refusal>
    requires small { is_small stmt.now ≡ true }
    ensures value { result ≡ term_faults stmt.now }
{
    match accessless_in(true, &stmt.right, 0) {
        Some(fault) => Some(fault),
        None => uncovered_in_terms(stmt, true, &stmt.right, 0),
    }
}

/// The first reason to refuse a statement, if there is one. It takes no memory, and time by the
/// statement, and by the number of declared tensors for each access.
pub fn fault_of(decls: &Decls, stmt: &Stmt) -> Option<Refusal>
    requires small { is_small stmt.now ≡ true }
    ensures value { result ≡ statement_fault decls.now stmt.now }
{
    let list = accesses_of(&stmt.right);
    let places = places_of(decls, list.as_slice());
    match fault_of_accesses(decls, stmt, list.as_slice(), places.as_slice()) {
        Some(fault) => Some(fault),
        None => fault_of_terms(stmt),
    }
}

/// The plan of a statement, or the first reason to refuse it. It takes time by the statement, and
/// by the number of declared tensors for each access.
pub fn check_stmt(alloc: Global, decls: &Decls, stmt: &Stmt) -> Result<Plan, CheckFault>
    requires small { is_small stmt.now ≡ true }
    ensures refused { IsRefusedBy (statement_fault decls.now stmt.now) result }
    ensures plan { IfOk result (λ plan. plan ≡ plan_of decls.now stmt.now) }
{
    match fault_of(decls, stmt) {
        Some(refusal) => Err(CheckFault::Refused(refusal)),
        None => match plan_of(alloc, decls, stmt) {
            Ok(plan) => Ok(plan),
            Err(NoMemory) => Err(CheckFault::NoMemory),
        },
    }
}
