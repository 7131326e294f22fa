//! The dimensions of a statement's variables.
ghost use Rattle.std.specs.Prelude.{ℕ, ◌≡◌, ◌+◌, ◌≤◌, ◌++◌, ◌==◌, List, length, map, position};
ghost use Rattle.std.specs.List.{range_with_len};
ghost use Rattle.dt_model.specs.Statements.{accesses, dim_in_access, first_some, dim_of};

use crate::accesses::Access;
use crate::declared::{dim_at, dims_named};
use dt_model::{Coords, Decls};

/// The first place of a variable among some.
fn place_of(vars: &[u8], v: u8) -> Option<usize>
    ensures value { result ≡ position (λ w. w == v) vars.now }
{
    vars.iter().position(|w| *w == v)
}

/// The dimension that one access gives a variable, if it has it.
fn dim_in_access(decls: &Decls, access: &Access, v: u8) -> Option<u32>
    ensures value { result ≡ dim_in_access decls.now v access.now }
{
    match place_of(access.vars().as_slice(), v) {
        None => None,
        Some(place) => match dims_named(decls, access.tensor()) {
            None => None,
            Some(dims) => Some(dim_at(dims, place)),
        },
    }
}

/// The dimension that the first access with a variable gives it; 0 where there is none.
fn dim_of(decls: &Decls, list: &[Access], v: u8) -> u32
    ensures value { result ≡ first_some (map (dim_in_access decls.now v) list.now) }
{
    match list {
        [] => 0,
        [access, rest @ ..] => match dim_in_access(decls, access, v) {
            Some(dim) => dim,
            None => dim_of(decls, rest, v),
        },
    }
}

/// Puts the dimensions of variables that follow one another behind others.
fn add_dims(decls: &Decls, list: &[Access], from: u8, count: u8, dims: &mut Coords)
    requires few { from + count ≤ 8 }
    requires room { length dims.old + count ≤ 8 }
    ensures value { dims.new ≡ dims.old ++ map (λ v. first_some (map (dim_in_access decls.now v) list.now)) (range_with_len from count) }
{
    if count == 0 {
        return;
    }
    dims.push(dim_of(decls, list, from));
    add_dims(decls, list, from + 1, count - 1, dims);
}

/// The dimensions of the first variables.
pub fn dims_of_vars(decls: &Decls, list: &[Access], count: u8) -> Coords
    requires few { count ≤ 8 }
    ensures value { result ≡ map (λ v. first_some (map (dim_in_access decls.now v) list.now)) (range_with_len 0 count) }
{
    let mut dims = Coords::new();
    add_dims(decls, list, 0, count, &mut dims);
    dims
}
