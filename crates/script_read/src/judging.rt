//! The verdict on a written call.
ghost use Rattle.std.specs.Prelude.{◌≡◌, ◌<◌, ◌≤◌, ◌^◌, true, length, map, IfOk, IfSome, All};
ghost use Rattle.dt_model.specs.declared.limits.TheConstants.{MOST_COORDINATES};
ghost use Rattle.dt_model.specs.declared.written.WrittenCall.TheVariants as written;
ghost use Rattle.dt_model.specs.Tensors.{tensor_named, dims_of};
ghost use Rattle.dt_model.specs.Refusals.{is_in_dimension, range_fault, cell_fault, number_fault, update_fault};
ghost use Rattle.dt_model.specs.Verdicts.{from_zero, cell_of, written_value, update_of_kind, update_of, verdict, is_small};
ghost use Rattle.script_read.specs.Judging.{CanBeJudged, IsFirstFault, coordinates_fault};

use dt_model::{
    Call, Cell, Coords, Decls, List, Name, NoMemory, Refusal, Stmt, Update, UpdateKind, Updates,
    Verdict, WrittenCall, WrittenCoordinate, WrittenNumber, WrittenUpdate,
};
use index_check::{CheckFault, check_stmt};
use std::alloc::Global;

/// The dimensions of the tensor with this number.
fn dims_of(decls: &Decls, tensor: usize) -> &[u32]
    ensures value { result.now ≡ dims_of decls.now tensor }
    ensures few { length result.now ≤ MOST_COORDINATES }
{
    match decls.tensors.get(tensor) {
        Some(tensor) => tensor.dims.as_slice(),
        None => &[],
    }
}

/// Whether a coordinate is from 1 to the dimension.
fn is_in_dimension(dim: u32, coordinate: WrittenCoordinate) -> bool
    ensures value { result ≡ is_in_dimension dim coordinate }
{
    match coordinate {
        WrittenCoordinate::Number(number) => number >= 1 && number <= dim,
        WrittenCoordinate::Huge => false,
    }
}

/// The first mode whose coordinate isn't from 1 to the dimension.
fn range_fault(name: &Name, dims: &[u32], coordinates: &[WrittenCoordinate]) -> Option<Refusal>
    requires same { length coordinates.now ≡ length dims.now }
    requires few { length dims.now ≤ MOST_COORDINATES }
    ensures value { result ≡ range_fault name.now 1 dims.now coordinates.now }
{
    for (i, dim) in dims.iter().enumerate() {
        if !is_in_dimension(*dim, coordinates[i]) {
            return Some(Refusal::Range {
                name: name.copy(),
                mode: i as u32 + 1,
                dim: *dim,
            });
        }
    }
    None
}

/// A coordinate counted from 0; 0 for one that is out of every range.
fn from_zero(coordinate: WrittenCoordinate) -> u32
    ensures value { result ≡ from_zero coordinate }
{
    match coordinate {
        WrittenCoordinate::Number(number) => number.saturating_sub(1),
        WrittenCoordinate::Huge => 0,
    }
}

/// Coordinates counted from 0.
fn coords_of(coordinates: &[WrittenCoordinate]) -> Coords
    requires few { length coordinates.now ≤ MOST_COORDINATES }
    ensures value { result ≡ map from_zero coordinates.now }
{
    let mut at = Coords::new();
    for coordinate in coordinates {
        at.push(from_zero(*coordinate));
    }
    at
}

/// The coordinates of a cell of the tensor with these dimensions, or its first fault.
fn judge_coordinates(
    name: &Name,
    dims: &[u32],
    coordinates: &[WrittenCoordinate],
) -> Result<Coords, Refusal>
    requires few { length dims.now ≤ MOST_COORDINATES }
    requires countable { length coordinates.now < 2 ^ 32 }
    ensures judged { IsFirstFault (coordinates_fault name.now dims.now coordinates.now) (map from_zero coordinates.now) result }
{
    if coordinates.len() != dims.len() {
        return Err(Refusal::Rank {
            name: name.copy(),
            given: coordinates.len() as u32,
            order: dims.len() as u32,
        });
    }
    match range_fault(name, dims, coordinates) {
        Some(refusal) => Err(refusal),
        None => Ok(coords_of(coordinates)),
    }
}

/// A cell, or its first fault.
fn judge_cell(
    decls: &Decls,
    name: &Name,
    coordinates: &[WrittenCoordinate],
) -> Result<Cell, Refusal>
    requires few { length decls.now.tensors < 2 ^ 32 }
    requires countable { length coordinates.now < 2 ^ 32 }
    ensures judged { IsFirstFault (cell_fault decls.now name.now coordinates.now) (cell_of decls.now name.now coordinates.now) result }
{
    let Some(tensor) = decls.find_tensor(name) else {
        return Err(Refusal::Name { name: name.copy() });
    };
    match judge_coordinates(name, dims_of(decls, tensor), coordinates) {
        Ok(at) => Ok(Cell {
            tensor: tensor as u32,
            at,
        }),
        Err(refusal) => Err(refusal),
    }
}

/// A number that a call can hold, or its fault.
fn judge_number(number: WrittenNumber) -> Result<u64, Refusal>
    ensures judged { IsFirstFault (number_fault number) (written_value number) result }
{
    match number {
        WrittenNumber::Whole(value) => Ok(value),
        WrittenNumber::Fraction => Err(Refusal::NotWhole),
        WrittenNumber::Huge => Err(Refusal::TooLarge),
    }
}

/// An update of this kind.
fn update_of(kind: UpdateKind, cell: Cell, value: u64) -> Update
    ensures value { result ≡ update_of_kind kind cell value }
{
    match kind {
        UpdateKind::Set => Update::Set { cell, value },
        UpdateKind::Add => Update::Add { cell, value },
    }
}

/// An update, or its first fault.
fn judge_update(decls: &Decls, update: &WrittenUpdate) -> Result<Update, Refusal>
    requires few { length decls.now.tensors < 2 ^ 32 }
    requires countable { length update.now.coordinates < 2 ^ 32 }
    ensures judged { IsFirstFault (update_fault decls.now update.now) (update_of decls.now update.now) result }
{
    match judge_cell(decls, &update.name, update.coordinates.as_slice()) {
        Err(refusal) => Err(refusal),
        Ok(cell) => match judge_number(update.number) {
            Err(refusal) => Err(refusal),
            Ok(value) => Ok(update_of(update.kind, cell, value)),
        },
    }
}

/// The verdict on a batch.
fn judge_batch(alloc: Global, decls: &Decls, updates: &[WrittenUpdate]) -> Result<Verdict, NoMemory>
    requires few { length decls.now.tensors < 2 ^ 32 }
    requires countable { All (λ u. length u.coordinates < 2 ^ 32) updates.now }
    ensures value { IfOk result (λ v. v ≡ verdict decls.now (written.Batch updates.now)) }
{
    let mut accepted = Updates::new(alloc);
    for update in updates {
        match judge_update(decls, update) {
            Ok(update) => accepted.push(update)?,
            Err(refusal) => return Ok(Verdict::Refused(refusal)),
        }
    }
    Ok(Verdict::Accepted(Call::Batch(accepted)))
}

/// The verdict on a query.
fn judge_query(alloc: Global, decls: &Decls, stmt: Stmt) -> Result<Verdict, NoMemory>
    requires small { is_small stmt ≡ true }
    ensures value { IfOk result (λ v. v ≡ verdict decls.now (written.Query stmt)) }
{
    match check_stmt(alloc, decls, &stmt) {
        Ok(_plan) => Ok(Verdict::Accepted(Call::query(alloc, stmt)?)),
        Err(CheckFault::Refused(refusal)) => Ok(Verdict::Refused(refusal)),
        Err(CheckFault::NoMemory) => Err(NoMemory),
    }
}

/// The verdict on a written call: the call that it asks for, or the first reason to refuse it.
pub fn judge(alloc: Global, decls: &Decls, call: WrittenCall) -> Result<Verdict, NoMemory>
    requires few { length decls.now.tensors < 2 ^ 32 }
    requires judged { CanBeJudged call }
    ensures value { IfOk result (λ v. v ≡ verdict decls.now call) }
{
    match call {
        WrittenCall::Get { name, coordinates } => {
            match judge_cell(decls, &name, coordinates.as_slice()) {
                Ok(cell) => Ok(Verdict::Accepted(Call::Get(cell))),
                Err(refusal) => Ok(Verdict::Refused(refusal)),
            }
        }
        WrittenCall::Batch(updates) => judge_batch(alloc, decls, updates.as_slice()),
        WrittenCall::Query(stmt) => judge_query(alloc, decls, stmt),
    }
}
