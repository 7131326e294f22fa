//! The expression of a kernel: the right side without the terms of other kernels.
ghost use Rattle.std.specs.Prelude.{◌≡◌, ◌+◌, ◌≤◌, ◌<◌, Some, None, IfOk, if◌then◌else◌};
ghost use Rattle.merge_lattice.specs.Lattices.{bit_of};
ghost use Rattle.loop_code.specs.Terms.{count_of_terms};
ghost use Rattle.loop_code.specs.KernelExpressions.{sum_of_left, difference_of_left, negation_of_left, left_of_terms, kernel_expression};

use dt_model::{Expr, NoMemory};
use sqlite_items::Boxed;
use std::alloc::Global;

/// The expression in an allocation of its own.
fn boxed(alloc: Global, expr: Expr) -> Result<Boxed<Expr>, NoMemory>
    ensures value { IfOk result (λ b. b ≡ expr) }
{
    Ok(Boxed::new(alloc, expr)?)
}

/// A sum of what is left of its sides.
fn plus(alloc: Global, a: Option<Expr>, b: Option<Expr>) -> Result<Option<Expr>, NoMemory>
    ensures value { IfOk result (λ r. r ≡ sum_of_left a b) }
{
    match a {
        None => Ok(b),
        Some(a) => match b {
            None => Ok(Some(a)),
            Some(b) => {
                let left = boxed(alloc, a)?;
                let right = boxed(alloc, b)?;
                Ok(Some(Expr::Plus(left, right)))
            }
        },
    }
}

/// The negation of what is left.
fn negate(alloc: Global, a: Option<Expr>) -> Result<Option<Expr>, NoMemory>
    ensures value { IfOk result (λ r. r ≡ negation_of_left a) }
{
    match a {
        None => Ok(None),
        Some(a) => {
            let inner = boxed(alloc, a)?;
            Ok(Some(Expr::Negate(inner)))
        }
    }
}

/// A difference of what is left of its sides.
fn minus(alloc: Global, a: Option<Expr>, b: Option<Expr>) -> Result<Option<Expr>, NoMemory>
    ensures value { IfOk result (λ r. r ≡ difference_of_left a b) }
{
    match a {
        None => negate(alloc, b),
        Some(a) => match b {
            None => Ok(Some(a)),
            Some(b) => {
                let left = boxed(alloc, a)?;
                let right = boxed(alloc, b)?;
                Ok(Some(Expr::Minus(left, right)))
            }
        },
    }
}

/// What is left of an expression where only some terms stay, and the number of the first term after it.
#[derive(Drop)]
struct Left {
    expr: Option<Expr>,
    next: u32,
}

/// Whether a bit is set.
pub(crate) fn is_set(set: u32, place: u32) -> bool
    requires few { place < 32 }
    ensures value { result ≡ bit_of set place }
{
    (set >> place) % 2 == 1
}

/// A term with this number: it stays if it is in the set.
fn term(alloc: Global, expr: &Expr, terms: u32, first: u32) -> Result<Left, NoMemory>
    requires few { first < 32 }
    ensures expr { IfOk result (λ r. r.expr ≡ if bit_of terms first then Some expr.now else None) }
    ensures next { IfOk result (λ r. r.next ≡ first + 1) }
{
    let next = first + 1;
    if is_set(terms, first) {
        let copy = expr.copy(alloc)?;
        Ok(Left {
            expr: Some(copy),
            next,
        })
    } else {
        Ok(Left { expr: None, next })
    }
}

/// An expression without the terms that aren't in the set; its first term has the number `first`.
#[tactic(auto, using(crate::proofs::ExpressionLaws::expression_laws))]
fn left_of(alloc: Global, expr: &Expr, terms: u32, first: u32) -> Result<Left, NoMemory>
    requires few { first + count_of_terms expr.now ≤ 32 }
    ensures expr { IfOk result (λ r. r.expr ≡ left_of_terms (bit_of terms) first expr.now) }
    ensures next { IfOk result (λ r. r.next ≡ first + count_of_terms expr.now) }
{
    match expr {
        Expr::Literal(_) => term(alloc, expr, terms, first),
        Expr::Access { tensor: _, vars: _ } => term(alloc, expr, terms, first),
        Expr::Times(_, _) => term(alloc, expr, terms, first),
        Expr::Plus(a, b) => {
            let left = left_of(alloc, a.get(), terms, first)?;
            let right = left_of(alloc, b.get(), terms, left.next)?;
            let joined = plus(alloc, left.expr, right.expr)?;
            Ok(Left {
                expr: joined,
                next: right.next,
            })
        }
        Expr::Minus(a, b) => {
            let left = left_of(alloc, a.get(), terms, first)?;
            let right = left_of(alloc, b.get(), terms, left.next)?;
            let joined = minus(alloc, left.expr, right.expr)?;
            Ok(Left {
                expr: joined,
                next: right.next,
            })
        }
        Expr::Negate(a) => {
            let inner = left_of(alloc, a.get(), terms, first)?;
            let joined = negate(alloc, inner.expr)?;
            Ok(Left {
                expr: joined,
                next: inner.next,
            })
        }
    }
}

/// The expression of a kernel, whose terms are the set: the right side without all others. It is 0 where
/// there is no term.
pub(crate) fn kernel_expression(alloc: Global, right: &Expr, terms: u32) -> Result<Expr, NoMemory>
    requires few { count_of_terms right.now ≤ 32 }
    ensures value { IfOk result (λ e. e ≡ kernel_expression right.now terms) }
{
    let left = left_of(alloc, right, terms, 0)?;
    match left.expr {
        Some(expr) => Ok(expr),
        None => Ok(Expr::Literal(0)),
    }
}
