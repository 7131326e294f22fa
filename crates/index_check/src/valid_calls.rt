//! Which calls may be made.
ghost use Rattle.std.specs.Prelude.{◌≡◌};
ghost use Rattle.std.specs.List.{list_all};
ghost use Rattle.dt_model.specs.declared.calls.Call.TheVariants.{Query};
ghost use Rattle.dt_model.specs.Verdicts.{all_in_range, cell_is_valid, update_cell, call_is_valid};

use crate::limits::is_small;
use crate::refusals::fault_of;
use dt_model::{Call, Cell, Decls, MOST_UPDATES, Stmt, Update};

/// Whether there is a coordinate for each dimension, and each is below it.
fn all_in_range(dims: &[u32], at: &[u32]) -> bool
    ensures value { result ≡ all_in_range dims.now at.now }
{
    match dims {
        [] => at.is_empty(),
        [dim, dims @ ..] => match at {
            [] => false,
            [coordinate, at @ ..] => coordinate < dim && all_in_range(dims, at),
        },
    }
}

/// Whether a cell's tensor is declared and its coordinates are in range. It takes no memory.
pub fn cell_is_valid(decls: &Decls, cell: &Cell) -> bool
    ensures value { result ≡ cell_is_valid decls.now cell.now }
{
    match decls.tensors.get(cell.tensor as usize) {
        None => false,
        Some(tensor) => all_in_range(tensor.dims.as_slice(), cell.at.as_slice()),
    }
}

/// Whether the cell of an update is valid.
fn update_is_valid(decls: &Decls, update: &Update) -> bool
    ensures value { result ≡ cell_is_valid decls.now (update_cell update.now) }
{
    match update {
        Update::Set { cell, value: _ } => cell_is_valid(decls, cell),
        Update::Add { cell, value: _ } => cell_is_valid(decls, cell),
    }
}

/// Whether the cell of each update is valid.
fn updates_are_valid(decls: &Decls, updates: &[Update]) -> bool
    ensures value { result ≡ list_all (λ u. cell_is_valid decls.now (update_cell u)) updates.now }
{
    match updates {
        [] => true,
        [update, rest @ ..] => update_is_valid(decls, update) && updates_are_valid(decls, rest),
    }
}

/// Whether the query of a statement may be made: it is small and not refused. It takes no memory, and
/// time by the statement, and by the number of declared tensors for each access.
pub fn query_is_valid(decls: &Decls, stmt: &Stmt) -> bool
    ensures value { result ≡ call_is_valid decls.now (Query stmt.now) }
{
    is_small(stmt) && fault_of(decls, stmt).is_none()
}

/// Whether a call may be made: its cells are valid, a batch has 1 to 64 updates, a statement is small
/// and not refused. It takes no memory.
pub fn call_is_valid(decls: &Decls, call: &Call) -> bool
    ensures value { result ≡ call_is_valid decls.now call.now }
{
    match call {
        Call::Get(cell) => cell_is_valid(decls, cell),
        Call::Batch(updates) => {
            let updates = updates.as_slice();
            1 <= updates.len() && updates.len() <= MOST_UPDATES && updates_are_valid(decls, updates)
        }
        Call::Query(stmt) => query_is_valid(decls, stmt.get()),
    }
}
