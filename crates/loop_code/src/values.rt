//! The value of an expression whose accesses have numbers.
ghost use Rattle.std.specs.Prelude.{◌≡◌, ℕ, ◌+◌, ◌≤◌, length};
ghost use Rattle.dt_model.specs.Statements.{accesses};
ghost use Rattle.loop_code.specs.Values.{value_over, numbers_in};

use dt_model::Expr;

/// The value of an expression, and the number of the first access after it.
#[derive(Drop)]
struct Valued {
    value: u64,
    next: usize,
}

/// The value modulo 2^64 where access n has the n-th number; the expression's first access has the number
/// `first`.
#[tactic(auto, using(crate::proofs::ValueLaws::value_laws))]
fn value_from(expr: &Expr, numbers: &[u64], first: usize) -> Valued
    requires few { first + length (accesses expr.now) ≤ length numbers.now }
    ensures value { (env : ℕ → ℕ) → result.value ≡ value_over (numbers_in numbers.now) env first expr.now }
    ensures next { result.next ≡ first + length (accesses expr.now) }
{
    match expr {
        Expr::Literal(value) => Valued {
            value: *value,
            next: first,
        },
        Expr::Access { tensor: _, vars: _ } => Valued {
            value: numbers[first],
            next: first + 1,
        },
        Expr::Plus(a, b) => {
            let left = value_from(a.get(), numbers, first);
            let right = value_from(b.get(), numbers, left.next);
            Valued {
                value: left.value.wrapping_add(right.value),
                next: right.next,
            }
        }
        Expr::Minus(a, b) => {
            let left = value_from(a.get(), numbers, first);
            let right = value_from(b.get(), numbers, left.next);
            Valued {
                value: left.value.wrapping_sub(right.value),
                next: right.next,
            }
        }
        Expr::Times(a, b) => {
            let left = value_from(a.get(), numbers, first);
            let right = value_from(b.get(), numbers, left.next);
            Valued {
                value: left.value.wrapping_mul(right.value),
                next: right.next,
            }
        }
        Expr::Negate(a) => {
            let inner = value_from(a.get(), numbers, first);
            Valued {
                value: 0u64.wrapping_sub(inner.value),
                next: inner.next,
            }
        }
    }
}

/// The value modulo 2^64 of an expression, where its accesses have the numbers from left to right.
pub fn value_at(expr: &Expr, numbers: &[u64]) -> u64
    requires numbered { length (accesses expr.now) ≤ length numbers.now }
    ensures value { (env : ℕ → ℕ) → result ≡ value_over (numbers_in numbers.now) env 0 expr.now }
{
    value_from(expr, numbers, 0).value
}
