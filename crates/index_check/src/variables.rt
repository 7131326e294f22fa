//! Variables, their names, and lists of them.
ghost use Rattle.std.specs.Prelude.{◌≡◌, ◌<◌, ◌≤◌, List, not, length, All, find, ◌&&◌};
ghost use Rattle.std.specs.List.{flat_map};
ghost use Rattle.std.specs.Option.{option_map};
ghost use Rattle.dt_model.specs.Statements.{contains_number};
ghost use Rattle.dt_model.specs.Refusals.{covers, repeated_in, nth_name, repeated_fault, first_of_all};
ghost use Rattle.dt_model.specs.declared.replies.Refusal.TheVariants as because;
ghost use Rattle.index_check.specs.Parts.{AllVarsBelow};

use crate::terms::covers;
use dt_model::{Expr, Name, Refusal, Vars};

/// Whether a variable is among some.
pub fn contains_number(vars: &[u8], var: u8) -> bool
    ensures value { result ≡ contains_number vars.now var }
{
    vars.contains(&var)
}

/// The name of a variable.
#[tactic(auto, using(crate::proofs::NthNames::nth_name_at))]
pub fn name_at(names: &[Name], var: u8) -> Name
    requires known { var < length names.now }
    ensures value { result ≡ nth_name names.now var }
{
    names[var as usize].copy()
}

/// Why a list of variables is refused that has one twice.
pub fn repeated_fault(names: &[Name], vars: &[u8]) -> Option<Refusal>
    requires known { All (λ v. v < length names.now) vars.now }
    ensures value { result ≡ repeated_fault names.now vars.now }
{
    match vars {
        [] => None,
        [var, rest @ ..] => {
            if contains_number(rest, *var) {
                Some(Refusal::Repeated {
                    var: name_at(names, *var),
                })
            } else {
                repeated_fault(names, rest)
            }
        }
    }
}

/// Why a term is refused that doesn't cover one of these variables.
pub fn uncovered_in(names: &[Name], term: u32, expr: &Expr, vars: &[u8]) -> Option<Refusal>
    requires known { All (λ v. v < length names.now) vars.now }
    ensures value { result ≡ option_map (λ v. because.Uncovered term (nth_name names.now v)) (find (λ v. not (covers expr.now v)) vars.now) }
{
    match vars {
        [] => None,
        [var, rest @ ..] => {
            if covers(expr, *var) {
                uncovered_in(names, term, expr, rest)
            } else {
                Some(Refusal::Uncovered {
                    term,
                    var: name_at(names, *var),
                })
            }
        }
    }
}

/// Why a term is refused that doesn't cover one of these variables which isn't on the left.
pub fn uncovered_own(
    names: &[Name],
    term: u32,
    expr: &Expr,
    left: &[u8],
    vars: &[u8],
) -> Option<Refusal>
    requires known { All (λ v. v < length names.now) vars.now }
    ensures value { result ≡ option_map (λ v. because.Uncovered term (nth_name names.now v)) (find (λ v. not (contains_number left.now v) && not (covers expr.now v)) vars.now) }
{
    match vars {
        [] => None,
        [var, rest @ ..] => {
            if contains_number(left, *var) {
                uncovered_own(names, term, expr, left, rest)
            } else if covers(expr, *var) {
                uncovered_own(names, term, expr, left, rest)
            } else {
                Some(Refusal::Uncovered {
                    term,
                    var: name_at(names, *var),
                })
            }
        }
    }
}
