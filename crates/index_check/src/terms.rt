//! The terms of an expression, and what they cover.
ghost use Rattle.std.specs.Prelude.{◌≡◌, [], ◌∷◌, ◌++◌, ◌+◌, ◌≤◌, OnOk, not, length, ◌==◌};
ghost use Rattle.dt_model.specs.Statements.{terms_under, accesses};
ghost use Rattle.dt_model.specs.Refusals.{covers};
ghost use Rattle.index_check.specs.Parts.{has_no_access};

use dt_model::{Expr, NoMemory};
use std::alloc::Global;

/// Puts a copy of a term behind others.
fn put(
    alloc: Global,
    added: bool,
    expr: &Expr,
    list: &mut Vec<(bool, Expr)>,
) -> Result<(), NoMemory>
    ensures ok { OnOk result (list.new.items ≡ list.old.items ++ (added, expr.now) ∷ []) }
{
    let copy = expr.copy(alloc)?;
    match list.push((added, copy)) {
        Ok(()) => Ok(()),
        Err(_) => Err(NoMemory),
    }
}

/// Puts the terms of an expression behind others, from left to right.
#[tactic(auto, using(crate::proofs::Laws::term_laws))]
pub fn add_terms(
    alloc: Global,
    added: bool,
    expr: &Expr,
    list: &mut Vec<(bool, Expr)>,
) -> Result<(), NoMemory>
    ensures ok { OnOk result (list.new.items ≡ list.old.items ++ terms_under added expr.now) }
{
    match expr {
        Expr::Literal(_) => put(alloc, added, expr, list),
        Expr::Access { tensor: _, vars: _ } => put(alloc, added, expr, list),
        Expr::Times(_, _) => put(alloc, added, expr, list),
        Expr::Plus(a, b) => {
            add_terms(alloc, added, a.get(), list)?;
            add_terms(alloc, added, b.get(), list)
        }
        Expr::Minus(a, b) => {
            add_terms(alloc, added, a.get(), list)?;
            add_terms(alloc, !added, b.get(), list)
        }
        Expr::Negate(a) => add_terms(alloc, !added, a.get(), list),
    }
}

/// How many terms an expression has.
#[tactic(auto, using(crate::proofs::Laws::term_count_laws))]
pub fn count_terms(added: bool, expr: &Expr) -> u32
    requires few { length (terms_under added expr.now) ≤ 64 }
    ensures value { result ≡ length (terms_under added expr.now) }
{
    match expr {
        Expr::Literal(_) => 1,
        Expr::Access { tensor: _, vars: _ } => 1,
        Expr::Times(_, _) => 1,
        Expr::Plus(a, b) => count_terms(added, a.get()) + count_terms(added, b.get()),
        Expr::Minus(a, b) => count_terms(added, a.get()) + count_terms(!added, b.get()),
        Expr::Negate(a) => count_terms(!added, a.get()),
    }
}

/// Whether an expression covers a variable.
#[tactic(auto, using(crate::proofs::Laws::cover_laws))]
pub fn covers(expr: &Expr, var: u8) -> bool
    ensures value { result ≡ covers expr.now var }
{
    match expr {
        Expr::Literal(_) => false,
        Expr::Access { tensor: _, vars } => vars.as_slice().contains(&var),
        Expr::Plus(a, b) => covers(a.get(), var) && covers(b.get(), var),
        Expr::Minus(a, b) => covers(a.get(), var) && covers(b.get(), var),
        Expr::Times(a, b) => covers(a.get(), var) || covers(b.get(), var),
        Expr::Negate(a) => covers(a.get(), var),
    }
}

/// Whether an expression has no access.
#[tactic(auto, using(crate::proofs::Laws::none_laws))]
pub fn has_no_access(expr: &Expr) -> bool
    ensures value { result ≡ has_no_access expr.now }
{
    match expr {
        Expr::Literal(_) => true,
        Expr::Access { tensor: _, vars: _ } => false,
        Expr::Plus(a, b) => has_no_access(a.get()) && has_no_access(b.get()),
        Expr::Minus(a, b) => has_no_access(a.get()) && has_no_access(b.get()),
        Expr::Times(a, b) => has_no_access(a.get()) && has_no_access(b.get()),
        Expr::Negate(a) => has_no_access(a.get()),
    }
}
