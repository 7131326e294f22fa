//! Which accesses of a statement a kernel's expression has.
ghost use Rattle.std.specs.Prelude.{◌≡◌, ◌+◌, ◌≤◌, ◌++◌, [], length, if◌then◌else◌};
ghost use Rattle.std.specs.List.{range_with_len};
ghost use Rattle.dt_model.specs.Statements.{accesses};
ghost use Rattle.merge_lattice.specs.Lattices.{bit_of};
ghost use Rattle.loop_code.specs.Terms.{count_of_terms};
ghost use Rattle.loop_code.specs.KernelExpressions.{accesses_left, kernel_accesses};

use crate::expressions::is_set;
use arrayvec::ArrayVec;
use dt_model::Expr;

/// The number of the first access after an expression whose first access has the number `first`.
#[tactic(auto, using(crate::proofs::AccessLaws::access_laws))]
fn after_accesses(expr: &Expr, first: u8) -> u8
    requires few { first + length (accesses expr.now) ≤ 12 }
    ensures value { result ≡ first + length (accesses expr.now) }
{
    match expr {
        Expr::Literal(_) => first,
        Expr::Access { tensor: _, vars: _ } => first + 1,
        Expr::Plus(a, b) => {
            let middle = after_accesses(a.get(), first);
            after_accesses(b.get(), middle)
        }
        Expr::Minus(a, b) => {
            let middle = after_accesses(a.get(), first);
            after_accesses(b.get(), middle)
        }
        Expr::Times(a, b) => {
            let middle = after_accesses(a.get(), first);
            after_accesses(b.get(), middle)
        }
        Expr::Negate(a) => after_accesses(a.get(), first),
    }
}

/// Puts numbers that follow one another behind others.
fn add_numbers(from: u8, count: u8, into: &mut ArrayVec<u8, 12>)
    requires few { from + count ≤ 12 }
    requires room { length into.old.items + count ≤ 12 }
    ensures value { into.new.items ≡ into.old.items ++ range_with_len from count }
{
    if count == 0 {
        return;
    }
    into.push(from);
    add_numbers(from + 1, count - 1, into);
}

/// The numbers of the next term and of the next access.
#[derive(Clone, Copy, Drop)]
struct Next {
    term: u32,
    access: u8,
}

/// Puts the accesses of a term behind others if the term is in the set.
fn add_term(expr: &Expr, terms: u32, first: Next, into: &mut ArrayVec<u8, 12>) -> Next
    requires terms { first.term + 1 ≤ 32 }
    requires accesses { first.access + length (accesses expr.now) ≤ 12 }
    requires room { length into.old.items ≤ first.access }
    ensures value { into.new.items ≡ into.old.items ++ (if bit_of terms first.term then range_with_len first.access (length (accesses expr.now)) else []) }
    ensures term { result.term ≡ first.term + 1 }
    ensures access { result.access ≡ first.access + length (accesses expr.now) }
    ensures room { length into.new.items ≤ result.access }
{
    let access = after_accesses(expr, first.access);
    if is_set(terms, first.term) {
        add_numbers(first.access, access - first.access, into);
    }
    Next {
        term: first.term + 1,
        access,
    }
}

/// Puts the accesses of the terms in the set behind others.
#[tactic(auto, using(crate::proofs::AccessLaws::place_laws))]
fn add_places(expr: &Expr, terms: u32, first: Next, into: &mut ArrayVec<u8, 12>) -> Next
    requires terms { first.term + count_of_terms expr.now ≤ 32 }
    requires accesses { first.access + length (accesses expr.now) ≤ 12 }
    requires room { length into.old.items ≤ first.access }
    ensures value { into.new.items ≡ into.old.items ++ accesses_left (bit_of terms) first.term first.access expr.now }
    ensures term { result.term ≡ first.term + count_of_terms expr.now }
    ensures access { result.access ≡ first.access + length (accesses expr.now) }
    ensures room { length into.new.items ≤ result.access }
{
    match expr {
        Expr::Literal(_) => add_term(expr, terms, first, into),
        Expr::Access { tensor: _, vars: _ } => add_term(expr, terms, first, into),
        Expr::Times(_, _) => add_term(expr, terms, first, into),
        Expr::Plus(a, b) => {
            let middle = add_places(a.get(), terms, first, into);
            add_places(b.get(), terms, middle, into)
        }
        Expr::Minus(a, b) => {
            let middle = add_places(a.get(), terms, first, into);
            add_places(b.get(), terms, middle, into)
        }
        Expr::Negate(a) => add_places(a.get(), terms, first, into),
    }
}

/// The accesses of a kernel, whose terms are the set, by their numbers in the right side.
pub(crate) fn kernel_accesses(right: &Expr, terms: u32) -> ArrayVec<u8, 12>
    requires terms { count_of_terms right.now ≤ 32 }
    requires accesses { length (accesses right.now) ≤ 12 }
    ensures value { result.items ≡ kernel_accesses right.now terms }
{
    let mut places = ArrayVec::new();
    let first = Next { term: 0, access: 0 };
    add_places(right, terms, first, &mut places);
    places
}
