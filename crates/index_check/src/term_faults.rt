//! What is wrong with the terms of a statement, one term after the other.
ghost use Rattle.std.specs.Prelude.{◌≡◌, ◌+◌, ◌<◌, ◌≤◌, Bool, ◌++◌, length, map, All, find, not};
ghost use Rattle.std.specs.List.{enumerate_from};
ghost use Rattle.std.specs.Option.{option_map};
ghost use Rattle.dt_model.specs.declared.replies.Refusal.TheVariants as because;
ghost use Rattle.dt_model.specs.Statements.{accesses, own_vars, terms_under};
ghost use Rattle.dt_model.specs.Refusals.{first_of_all, access_fault, cover_fault, nth_name, covers};
ghost use Rattle.index_check.specs.Parts.{AllVarsBelow};

use crate::access_faults::uncovered_in_access;
use crate::accesses::{Access, accesses_of};
use crate::terms::{count_terms, has_no_access};
use crate::variables::uncovered_in;
use dt_model::{Expr, Refusal, Stmt};

/// Why a term without an access is refused. Terms are counted from 0 here and from 1 in the refusal.
fn access_fault(added: bool, expr: &Expr, place: u32) -> Option<Refusal>
    requires few { place < 64 }
    ensures value { result ≡ access_fault (place, (added, expr.now)) }
{
    if has_no_access(expr) {
        Some(Refusal::Access { term: place + 1 })
    } else {
        None
    }
}

/// The first term without an access, where so many terms come before.
#[tactic(auto, using(crate::proofs::Laws::count_laws))]
pub fn accessless_in(added: bool, expr: &Expr, first: u32) -> Option<Refusal>
    requires few { first + length (terms_under added expr.now) ≤ 64 }
    ensures value { result ≡ first_of_all (map access_fault (enumerate_from first (terms_under added expr.now))) }
{
    match expr {
        Expr::Literal(_) => access_fault(added, expr, first),
        Expr::Access { tensor: _, vars: _ } => access_fault(added, expr, first),
        Expr::Times(_, _) => access_fault(added, expr, first),
        Expr::Plus(a, b) => match accessless_in(added, a.get(), first) {
            Some(fault) => Some(fault),
            None => accessless_in(added, b.get(), first + count_terms(added, a.get())),
        },
        Expr::Minus(a, b) => match accessless_in(added, a.get(), first) {
            Some(fault) => Some(fault),
            None => accessless_in(!added, b.get(), first + count_terms(added, a.get())),
        },
        Expr::Negate(a) => accessless_in(!added, a.get(), first),
    }
}

/// Why a term is refused that does not cover a variable of the left side or one of its own.
fn uncovered_by(stmt: &Stmt, term: u32, expr: &Expr, list: &[Access]) -> Option<Refusal>
    requires left { All (λ v. v < length stmt.now.vars.items) stmt.now.left }
    requires known { AllVarsBelow (length stmt.now.vars.items) list.now }
    requires accesses { list.now ≡ accesses expr.now }
    ensures value { result ≡ option_map (λ v. because.Uncovered term (nth_name stmt.now.vars.items v)) (find (λ v. not (covers expr.now v)) (stmt.now.left ++ own_vars stmt.now.left expr.now)) }
{
    match uncovered_in(stmt.vars.as_slice(), term, expr, stmt.left.as_slice()) {
        Some(fault) => Some(fault),
        None => uncovered_in_access(stmt.vars.as_slice(), term, expr, stmt.left.as_slice(), list),
    }
}

/// The same, of a term at a place.
fn cover_fault(stmt: &Stmt, added: bool, expr: &Expr, place: u32) -> Option<Refusal>
    requires few { place < 64 }
    requires accesses { length (accesses expr.now) ≤ 12 }
    requires left { All (λ v. v < length stmt.now.vars.items) stmt.now.left }
    requires known { AllVarsBelow (length stmt.now.vars.items) (accesses expr.now) }
    ensures value { result ≡ cover_fault stmt.now (place, (added, expr.now)) }
{
    let list = accesses_of(expr);
    uncovered_by(stmt, place + 1, expr, list.as_slice())
}

/// The first term that doesn't cover a variable of the left side or one of its own, where so many
/// terms come before.
#[tactic(auto, using(crate::proofs::Laws::count_laws))]
pub fn uncovered_in_terms(stmt: &Stmt, added: bool, expr: &Expr, first: u32) -> Option<Refusal>
    requires few { first + length (terms_under added expr.now) ≤ 64 }
    requires accesses { length (accesses expr.now) ≤ 12 }
    requires left { All (λ v. v < length stmt.now.vars.items) stmt.now.left }
    requires known { AllVarsBelow (length stmt.now.vars.items) (accesses expr.now) }
    ensures value { result ≡ first_of_all (map (cover_fault stmt.now) (enumerate_from first (terms_under added expr.now))) }
{
    match expr {
        Expr::Literal(_) => cover_fault(stmt, added, expr, first),
        Expr::Access { tensor: _, vars: _ } => cover_fault(stmt, added, expr, first),
        Expr::Times(_, _) => cover_fault(stmt, added, expr, first),
        Expr::Plus(a, b) => match uncovered_in_terms(stmt, added, a.get(), first) {
            Some(fault) => Some(fault),
            None => {
                uncovered_in_terms(stmt, added, b.get(), first + count_terms(added, a.get()))
            }
        },
        Expr::Minus(a, b) => match uncovered_in_terms(stmt, added, a.get(), first) {
            Some(fault) => Some(fault),
            None => {
                uncovered_in_terms(stmt, !added, b.get(), first + count_terms(added, a.get()))
            }
        },
        Expr::Negate(a) => uncovered_in_terms(stmt, !added, a.get(), first),
    }
}
