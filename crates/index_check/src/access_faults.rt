//! What is wrong with the accesses of a statement, one access after the other.
ghost use Rattle.std.specs.Prelude.{◌≡◌, ◌<◌, length, map, All, find, not, ◌&&◌};
ghost use Rattle.std.specs.List.{flat_map};
ghost use Rattle.std.specs.Option.{option_map};
ghost use Rattle.dt_model.specs.declared.replies.Refusal.TheVariants as because;
ghost use Rattle.dt_model.specs.Statements.{contains_number};
ghost use Rattle.dt_model.specs.Refusals.{first_of_all, undeclared_fault, rank_fault, repeated_fault, nth_name, covers};
ghost use Rattle.index_check.specs.Parts.{AllVarsBelow};

use crate::accesses::Access;
use crate::declared::{is_declared, order_named};
use crate::variables::{repeated_fault, uncovered_own};
use dt_model::{Decls, Expr, Name, Refusal};

/// The first access whose tensor isn't declared.
pub fn undeclared_in(decls: &Decls, accesses: &[Access]) -> Option<Refusal>
    ensures value { result ≡ first_of_all (map (undeclared_fault decls.now) accesses.now) }
{
    match accesses {
        [] => None,
        [access, rest @ ..] => {
            if is_declared(decls, access.tensor()) {
                undeclared_in(decls, rest)
            } else {
                Some(Refusal::Name {
                    name: access.tensor().copy(),
                })
            }
        }
    }
}

/// The first access whose count of variables isn't its tensor's order.
pub fn misranked_in(decls: &Decls, accesses: &[Access]) -> Option<Refusal>
    ensures value { result ≡ first_of_all (map (rank_fault decls.now) accesses.now) }
{
    match accesses {
        [] => None,
        [access, rest @ ..] => {
            let given = access.vars().len();
            let order = order_named(decls, access.tensor());
            if given == order {
                misranked_in(decls, rest)
            } else {
                Some(Refusal::Rank {
                    name: access.tensor().copy(),
                    given: given as u32,
                    order: order as u32,
                })
            }
        }
    }
}

/// The first access that has a variable twice.
pub fn repeated_in_access(names: &[Name], accesses: &[Access]) -> Option<Refusal>
    requires known { AllVarsBelow (length names.now) accesses.now }
    ensures value { result ≡ first_of_all (map (λ a. repeated_fault names.now a.1) accesses.now) }
{
    match accesses {
        [] => None,
        [access, rest @ ..] => match repeated_fault(names, access.vars().as_slice()) {
            Some(fault) => Some(fault),
            None => repeated_in_access(names, rest),
        },
    }
}

/// Why a term is refused that doesn't cover a variable of these accesses which isn't on the left.
pub fn uncovered_in_access(
    names: &[Name],
    term: u32,
    expr: &Expr,
    left: &[u8],
    accesses: &[Access],
) -> Option<Refusal>
    requires known { AllVarsBelow (length names.now) accesses.now }
    ensures value { result ≡ option_map (λ v. because.Uncovered term (nth_name names.now v)) (find (λ v. not (contains_number left.now v) && not (covers expr.now v)) (flat_map (λ a. a.1) accesses.now)) }
{
    match accesses {
        [] => None,
        [access, rest @ ..] => match uncovered_own(
            names,
            term,
            expr,
            left,
            access.vars().as_slice(),
        ) {
            Some(fault) => Some(fault),
            None => uncovered_in_access(names, term, expr, left, rest),
        },
    }
}
