//! What the declarations say of a name.
ghost use Rattle.std.specs.Prelude.{◌≡◌, length, unwrap_or, slice_index, not, is_none, ◌≤◌};
ghost use Rattle.std.specs.Option.{option_map, option_copied};
ghost use Rattle.dt_model.specs.Tensors.{tensor_named, dims_of};
ghost use Rattle.dt_model.specs.Refusals.{order_named};

use dt_model::{Coords, Decls, Name};

/// Whether a tensor has this name.
pub fn is_declared(decls: &Decls, name: &Name) -> bool
    ensures value { result ≡ not (is_none (tensor_named decls.now name.now)) }
{
    decls.find_tensor(name).is_some()
}

/// The dimensions of the tensor with this name, if it is declared.
pub fn dims_named<'a>(decls: &'a Decls, name: &Name) -> Option<&'a Coords>
    ensures value { option_copied result ≡ option_map (dims_of decls.now) (tensor_named decls.now name.now) }
{
    match decls.find_tensor(name) {
        None => None,
        Some(number) => match decls.tensors.get(number) {
            None => None,
            Some(tensor) => Some(&tensor.dims),
        },
    }
}

/// The order of the tensor with this name; 0 where it isn't declared.
pub fn order_named(decls: &Decls, name: &Name) -> usize
    ensures value { result ≡ order_named decls.now name.now }
    ensures few { result ≤ 8 }
{
    match dims_named(decls, name) {
        None => 0,
        Some(dims) => dims.len(),
    }
}

/// The number at a place; 0 where there is none.
pub fn dim_at(dims: &Coords, place: usize) -> u32
    ensures value { result ≡ slice_index dims.now place }
{
    if place < dims.len() {
        dims.as_slice()[place]
    } else {
        0
    }
}

/// The dimension of a place of the tensor with this name; 0 where there is none.
pub fn dim_named(decls: &Decls, name: &Name, place: usize) -> u32
    ensures value { result ≡ unwrap_or (option_map (λ t. slice_index (dims_of decls.now t) place) (tensor_named decls.now name.now)) 0 }
{
    match dims_named(decls, name) {
        None => 0,
        Some(dims) => dim_at(dims, place),
    }
}
