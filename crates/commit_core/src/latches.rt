//! Which latches a call needs.

ghost use Rattle.std.specs.Prelude.{◌≡◌, ◌==◌, true, IsTrue};
ghost use Rattle.std.specs.List.{list_any};
ghost use Rattle.std.specs.Cmp.Lexicographic.{pointwise};
ghost use Rattle.dt_model.specs.Tensors.{latch_of, latch_count, tensor_named};
ghost use Rattle.dt_model.specs.Statements.{accesses};
ghost use Rattle.dt_model.specs.Latches.{needs, is_latch_of, latch_of_cell};
ghost use Rattle.dt_model.specs.Verdicts.{call_is_valid, cell_is_valid, update_cell};
ghost use Rattle.dt_model.specs.Worlds.{decls_are_valid};
ghost use Rattle.dt_model.specs.declared.calls.Update.{Update};
ghost use Rattle.commit_core.specs.Machine.{commit_needs, journal_latch};
ghost use Rattle.commit_core.specs.Calls.{updates_are_valid};

use dt_model::{Call, Cell, Decls, Expr, Name, Update, latch_count, latch_of, total_latches};

/// The cell that an update changes.
pub fn cell_of(update: &Update) -> &Cell
    ensures value { result.now ≡ update_cell update.now }
{
    match update {
        Update::Set { cell, .. } => cell,
        Update::Add { cell, .. } => cell,
    }
}

/// Whether one of the updates changes a cell of a latch.
fn updates_need(decls: &Decls, updates: &[Update], latch: u32) -> bool
    requires decls { IsTrue (decls_are_valid decls.now) }
    requires cells { updates_are_valid decls.now updates.now ≡ true }
    ensures value { result ≡ list_any (λ u. latch_of_cell decls.now (update_cell u) == latch) updates.now }
{
    for update in updates {
        if latch_of(decls, cell_of(update)) == latch {
            return true;
        }
    }
    false
}

/// Whether the tensor with this name has a latch.
fn tensor_has(decls: &Decls, name: &Name, latch: u32) -> bool
    requires decls { IsTrue (decls_are_valid decls.now) }
    ensures value { result ≡ is_latch_of decls.now latch (tensor_named decls.now name.now) }
{
    match decls.find_tensor(name) {
        None => false,
        Some(place) => {
            let tensors = decls.tensors.as_slice();
            let first = total_latches(&tensors[..place]);
            first <= latch && latch < first + tensors[place].latches
        }
    }
}

/// Whether one of an expression's tensors has a latch.
pub fn expression_needs(decls: &Decls, expression: &Expr, latch: u32) -> bool
    requires decls { IsTrue (decls_are_valid decls.now) }
    ensures value { result ≡ list_any (λ a. is_latch_of decls.now latch (tensor_named decls.now a.0)) (accesses expression.now) }
{
    match expression {
        Expr::Literal(_) => false,
        Expr::Access { tensor, .. } => tensor_has(decls, tensor, latch),
        Expr::Plus(a, b) => {
            expression_needs(decls, a.get(), latch) || expression_needs(decls, b.get(), latch)
        }
        Expr::Minus(a, b) => {
            expression_needs(decls, a.get(), latch) || expression_needs(decls, b.get(), latch)
        }
        Expr::Times(a, b) => {
            expression_needs(decls, a.get(), latch) || expression_needs(decls, b.get(), latch)
        }
        Expr::Negate(a) => expression_needs(decls, a.get(), latch),
    }
}

/// Whether a commit of the call needs a latch: one of the call's own, or the journal's.
pub fn commit_needs(decls: &Decls, call: &Call, latch: u32) -> bool
    requires decls { IsTrue (decls_are_valid decls.now) }
    requires call { IsTrue (call_is_valid decls.now call.now) }
    ensures value { result ≡ commit_needs decls.now call.now latch }
{
    latch == latch_count(decls) || call_needs(decls, call, latch)
}

/// Whether a call needs a latch for its own cells.
fn call_needs(decls: &Decls, call: &Call, latch: u32) -> bool
    requires decls { IsTrue (decls_are_valid decls.now) }
    requires call { IsTrue (call_is_valid decls.now call.now) }
    ensures value { result ≡ needs decls.now call.now latch }
{
    match call {
        Call::Get(cell) => latch_of(decls, cell) == latch,
        Call::Batch(updates) => updates_need(decls, updates.as_slice(), latch),
        Call::Query(stmt) => expression_needs(decls, &stmt.get().right, latch),
    }
}
