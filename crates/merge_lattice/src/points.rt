//! The point of one set of operands.
ghost use Rattle.std.specs.Prelude.{◌≡◌, ◌+◌, ◌<◌, ◌≤◌, Some, IfOk};
ghost use Rattle.dt_model.specs.declared.statements.Expr.TheVariants.{Literal};
ghost use Rattle.merge_lattice.specs.Lattices.{bit_of, operands, operands_of_access};
ghost use Rattle.merge_lattice.specs.Points.{times_points, plus_points, minus_points, negate_point, point_of_access, point_in};

use dt_model::{Expr, Name, NoMemory, Vars};
use sqlite_items::Boxed;
use std::alloc::Global;

/// What is left of an expression, and the operands that stand in it: bit n of `present` is operand n's.
#[derive(Debug, Drop)]
pub struct Point {
    /// The operands that stand in the expression.
    pub present: u16,
    /// The expression without its absent parts.
    pub expr: Expr,
}

/// The point of a part of an expression, and the number of the first operand behind the part.
#[derive(Drop)]
pub(crate) struct Found {
    pub(crate) point: Option<Point>,
    pub(crate) next: u32,
}

/// The expression in an allocation of its own.
fn boxed(alloc: Global, expr: Expr) -> Result<Boxed<Expr>, NoMemory>
    ensures value { IfOk result (λ b. b ≡ expr) }
{
    Ok(Boxed::new(alloc, expr)?)
}

/// The point of a product: none where a factor has none.
fn times_points(
    alloc: Global,
    a: Option<Point>,
    b: Option<Point>,
) -> Result<Option<Point>, NoMemory>
    ensures value { IfOk result (λ r. r ≡ times_points a b) }
{
    match a {
        None => Ok(None),
        Some(a) => match b {
            None => Ok(None),
            Some(b) => {
                let present = a.present.wrapping_add(b.present);
                let left = boxed(alloc, a.expr)?;
                let right = boxed(alloc, b.expr)?;
                Ok(Some(Point {
                    present,
                    expr: Expr::Times(left, right),
                }))
            }
        },
    }
}

/// The point of a sum: that of one side where the other has none.
fn plus_points(alloc: Global, a: Option<Point>, b: Option<Point>) -> Result<Option<Point>, NoMemory>
    ensures value { IfOk result (λ r. r ≡ plus_points a b) }
{
    match a {
        None => Ok(b),
        Some(a) => match b {
            None => Ok(Some(a)),
            Some(b) => {
                let present = a.present.wrapping_add(b.present);
                let left = boxed(alloc, a.expr)?;
                let right = boxed(alloc, b.expr)?;
                Ok(Some(Point {
                    present,
                    expr: Expr::Plus(left, right),
                }))
            }
        },
    }
}

/// The point of a negation.
fn negate_point(alloc: Global, a: Option<Point>) -> Result<Option<Point>, NoMemory>
    ensures value { IfOk result (λ r. r ≡ negate_point a) }
{
    let Some(a) = a else {
        return Ok(None);
    };
    let inner = boxed(alloc, a.expr)?;
    Ok(Some(Point {
        present: a.present,
        expr: Expr::Negate(inner),
    }))
}

/// The point of a difference: where the left side has none, the negation of the right side's.
fn minus_points(
    alloc: Global,
    a: Option<Point>,
    b: Option<Point>,
) -> Result<Option<Point>, NoMemory>
    ensures value { IfOk result (λ r. r ≡ minus_points a b) }
{
    match a {
        None => negate_point(alloc, b),
        Some(a) => match b {
            None => Ok(Some(a)),
            Some(b) => {
                let present = a.present.wrapping_add(b.present);
                let left = boxed(alloc, a.expr)?;
                let right = boxed(alloc, b.expr)?;
                Ok(Some(Point {
                    present,
                    expr: Expr::Minus(left, right),
                }))
            }
        },
    }
}

/// Whether an operand is in a set.
fn is_in_set(set: u16, operand: u32) -> bool
    requires in_range { operand < 16 }
    ensures value { result ≡ bit_of set operand }
{
    (set >> operand) % 2 == 1
}

/// The point of a literal.
fn point_of_literal(value: u64, first: u32) -> Found
    ensures point { result.point ≡ Some (record { present = 0; expr = Literal value }) }
    ensures next { result.next ≡ first }
{
    let expr = Expr::Literal(value);
    let point = Some(Point { present: 0, expr });
    Found { point, next: first }
}

/// The point of an access: none where it is an operand that isn't in the set.
fn point_of_access(tensor: &Name, vars: &Vars, var: u8, first: u32, set: u16) -> Found
    requires few { first ≤ 15 }
    ensures point { result.point ≡ point_of_access var (bit_of set) first tensor.now vars.now }
    ensures next { result.next ≡ first + operands_of_access var vars.now }
{
    let expr = Expr::Access {
        tensor: tensor.copy(),
        vars: vars.copy(),
    };
    if vars.as_slice().contains(&var) {
        let point = if is_in_set(set, first) {
            Some(Point {
                present: 1 << first,
                expr,
            })
        } else {
            None
        };
        Found {
            point,
            next: first + 1,
        }
    } else {
        Found {
            point: Some(Point { present: 0, expr }),
            next: first,
        }
    }
}

/// The point of an expression whose operands have the numbers from `first` on.
#[tactic(auto, using(crate::proofs::Laws::laws))]
pub(crate) fn point_in(
    alloc: Global,
    expr: &Expr,
    var: u8,
    first: u32,
    set: u16,
) -> Result<Found, NoMemory>
    requires few { first + operands var expr.now ≤ 15 }
    ensures point { IfOk result (λ r. r.point ≡ point_in var (bit_of set) first expr.now) }
    ensures next { IfOk result (λ r. r.next ≡ first + operands var expr.now) }
{
    match expr {
        Expr::Literal(value) => Ok(point_of_literal(*value, first)),
        Expr::Access { tensor, vars } => Ok(point_of_access(tensor, vars, var, first, set)),
        Expr::Plus(a, b) => {
            let left = point_in(alloc, a.get(), var, first, set)?;
            let right = point_in(alloc, b.get(), var, left.next, set)?;
            let next = right.next;
            let point = plus_points(alloc, left.point, right.point)?;
            Ok(Found { point, next })
        }
        Expr::Minus(a, b) => {
            let left = point_in(alloc, a.get(), var, first, set)?;
            let right = point_in(alloc, b.get(), var, left.next, set)?;
            let next = right.next;
            let point = minus_points(alloc, left.point, right.point)?;
            Ok(Found { point, next })
        }
        Expr::Times(a, b) => {
            let left = point_in(alloc, a.get(), var, first, set)?;
            let right = point_in(alloc, b.get(), var, left.next, set)?;
            let next = right.next;
            let point = times_points(alloc, left.point, right.point)?;
            Ok(Found { point, next })
        }
        Expr::Negate(a) => {
            let inner = point_in(alloc, a.get(), var, first, set)?;
            let next = inner.next;
            let point = negate_point(alloc, inner.point)?;
            Ok(Found { point, next })
        }
    }
}
