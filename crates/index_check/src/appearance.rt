//! Whether a statement's variables are listed by first appearance, each name once.
ghost use Rattle.std.specs.Prelude.{◌≡◌, ◌<◌, ◌≤◌, All, IfSome, nat_eq};
ghost use Rattle.std.specs.List.{flat_map, list_any};
ghost use Rattle.std.specs.Cmp.Lexicographic.{pointwise};
ghost use Rattle.dt_model.specs.Statements.{accesses};
ghost use Rattle.dt_model.specs.Verdicts.{is_by_appearance, names_differ, places_of};
ghost use Rattle.index_check.specs.Small.{numbered_up_to};

use dt_model::{Expr, Name, Stmt};

/// Whether a name is among some.
fn has_name(names: &[Name], name: &Name) -> bool
    ensures value { result ≡ list_any (pointwise nat_eq name.now) names.now }
{
    match names {
        [] => false,
        [first, rest @ ..] => name.bytes() == first.bytes() || has_name(rest, name),
    }
}

/// Whether no name is there twice.
fn names_differ(names: &[Name]) -> bool
    ensures value { result ≡ names_differ names.now }
{
    match names {
        [] => true,
        [first, rest @ ..] => !has_name(rest, first) && names_differ(rest),
    }
}

/// How many variables there are with these, where so many come before and each new one has the next
/// number. None where one has a later number.
fn numbered_in(count: u8, vars: &[u8]) -> Option<u8>
    requires few { count ≤ 8 }
    requires small { All (λ v. v < 8) vars.now }
    ensures value { result ≡ numbered_up_to count vars.now }
    ensures few { IfSome result (λ n. n ≤ 8) }
{
    match vars {
        [] => Some(count),
        [var, rest @ ..] => {
            if *var < count {
                numbered_in(count, rest)
            } else if *var == count {
                numbered_in(count + 1, rest)
            } else {
                None
            }
        }
    }
}

/// The same for the variables of an expression's accesses.
#[tactic(auto, using(crate::proofs::Laws::access_laws))]
fn numbered_by(count: u8, expr: &Expr) -> Option<u8>
    requires few { count ≤ 8 }
    ensures value { result ≡ numbered_up_to count (flat_map (λ a. a.1) (accesses expr.now)) }
    ensures few { IfSome result (λ n. n ≤ 8) }
{
    match expr {
        Expr::Literal(_) => Some(count),
        Expr::Access { tensor: _, vars } => numbered_in(count, vars.as_slice()),
        Expr::Plus(a, b) => match numbered_by(count, a.get()) {
            None => None,
            Some(more) => numbered_by(more, b.get()),
        },
        Expr::Minus(a, b) => match numbered_by(count, a.get()) {
            None => None,
            Some(more) => numbered_by(more, b.get()),
        },
        Expr::Times(a, b) => match numbered_by(count, a.get()) {
            None => None,
            Some(more) => numbered_by(more, b.get()),
        },
        Expr::Negate(a) => numbered_by(count, a.get()),
    }
}

/// The same for a statement's variables, as they are written.
fn numbered_of(stmt: &Stmt) -> Option<u8>
    ensures value { result ≡ numbered_up_to 0 (places_of stmt.now) }
{
    match numbered_in(0, stmt.left.as_slice()) {
        None => None,
        Some(count) => numbered_by(count, &stmt.right),
    }
}

/// Whether each variable of a statement is named once, and the names are listed by first appearance.
/// It takes no memory.
pub fn is_by_appearance(stmt: &Stmt) -> bool
    ensures value { result ≡ is_by_appearance stmt.now }
{
    if !names_differ(stmt.vars.as_slice()) {
        return false;
    }
    match numbered_of(stmt) {
        None => false,
        Some(count) => count as usize == stmt.vars.len(),
    }
}
