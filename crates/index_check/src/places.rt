//! The dimension of each place of a variable, and the first that differs from an earlier one.
ghost use Rattle.std.specs.Prelude.{◌≡◌, ◌+◌, ◌*◌, ◌<◌, ◌≤◌, ℕ, List, [], ◌∷◌, ◌++◌, length, All, Option, None};
ghost use Rattle.dt_model.specs.declared.limits.TheConstants.{MOST_ACCESSES, MOST_VARIABLES};
ghost use Rattle.dt_model.specs.Refusals.{places_with_dims, dimension_fault};
ghost use Rattle.index_check.specs.declared.places.TheConstants.{MOST_PLACES};
ghost use Rattle.index_check.specs.Parts.{all_places, IsFirsts, AllVarsBelow};

use crate::accesses::Access;
use crate::declared::dim_named;
use crate::variables::name_at;
use arrayvec::ArrayVec;
use dt_model::{Decls, MOST_ACCESSES, MOST_VARIABLES, Name, Refusal};

/// The places of variables in all accesses of a statement.
pub const MOST_PLACES: usize = MOST_ACCESSES * MOST_VARIABLES;

/// Variables from left to right, each with the dimension of its place.
pub type Places = ArrayVec<(u8, u32), MOST_PLACES>;

/// Puts the variables of an access behind others, each with the dimension of its place.
fn add_places(decls: &Decls, name: &Name, place: usize, vars: &[u8], list: &mut Places)
    requires few { place + length vars.now ≤ MOST_VARIABLES }
    requires room { length list.old.items + length vars.now ≤ MOST_PLACES }
    ensures value { list.new.items ≡ list.old.items ++ places_with_dims decls.now name.now place vars.now }
{
    match vars {
        [] => {}
        [var, rest @ ..] => {
            list.push((*var, dim_named(decls, name, place)));
            add_places(decls, name, place + 1, rest, list);
        }
    }
}

/// Puts the variables of some accesses behind others, each with the dimension of its place.
fn add_all_places(decls: &Decls, accesses: &[Access], list: &mut Places)
    requires room { length list.old.items + MOST_VARIABLES * length accesses.now ≤ MOST_PLACES }
    ensures value { list.new.items ≡ list.old.items ++ all_places decls.now accesses.now }
{
    match accesses {
        [] => {}
        [access, rest @ ..] => {
            add_places(decls, access.tensor(), 0, access.vars().as_slice(), list);
            add_all_places(decls, rest, list);
        }
    }
}

/// The variables of some accesses, each with the dimension of its place. It takes no memory.
pub fn places_of(decls: &Decls, accesses: &[Access]) -> Places
    requires few { length accesses.now ≤ MOST_ACCESSES }
    ensures value { result.items ≡ all_places decls.now accesses.now }
{
    let mut list = Places::new();
    add_all_places(decls, accesses, &mut list);
    list
}

/// The first place whose variable has another dimension than at its first place.
pub fn dimension_fault(
    names: &[Name],
    places: &[(u8, u32)],
    firsts: [Option<u32>; 8],
) -> Option<Refusal>
    requires known { All (λ (p : ℕ × ℕ). p.0 < length names.now) places.now }
    requires eight { length names.now ≤ 8 }
    ensures value { (seen : List (ℕ × ℕ)) → IsFirsts seen firsts → result ≡ dimension_fault names.now seen places.now }
{
    match places {
        [] => None,
        [place, rest @ ..] => {
            let var = place.0;
            match firsts[var as usize] {
                None => {
                    let mut more = firsts;
                    more[var as usize] = Some(place.1);
                    dimension_fault(names, rest, more)
                }
                Some(first) => {
                    if first == place.1 {
                        dimension_fault(names, rest, firsts)
                    } else {
                        Some(Refusal::Dimension {
                            var: name_at(names, var),
                            first,
                            second: place.1,
                        })
                    }
                }
            }
        }
    }
}
