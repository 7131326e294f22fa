//! What a commit and a quit do to a core's lists.

ghost use Rattle.std.specs.Prelude.{◌≡◌, ◌<◌, ◌+◌, ◌++◌, ◌∷◌, [], OnOk, OnErr, ℕ, length, slice_index};
ghost use Rattle.dt_model.specs.declared.declared_tensors.Decls.{Decls};
ghost use Rattle.dt_model.specs.Runs.{after_call};
ghost use Rattle.commit_core.specs.Cells.{contents_of};
ghost use Rattle.commit_core.specs.CellListState.{all_cells, all_orders};
ghost use Rattle.commit_core.specs.Orders.{IsCallOf};
ghost use Rattle.commit_core.specs.Events.{read_from_latches, without_session};
ghost use Rattle.commit_core.specs.State.{content_in};

use crate::calls::make_call;
use crate::cells::CellList;
use dt_model::{Call, Entry, Journal, NoMemory, Turn};
use std::alloc::Global;

/// Makes a call: its entry, what it reads, and its updates. Where it runs out of memory all is as before.
pub fn commit_call(
    alloc: Global,
    turn: Turn,
    call: &Call,
    journal: &mut Journal,
    replies: &mut Vec<Option<u64>>,
    tensors: &mut [CellList],
) -> Result<(), NoMemory>
    requires call { IsCallOf (all_orders tensors.old) call.now }
    requires room { 0 < journal.old.spare }
    ensures entries { OnOk result (journal.new.entries ≡ journal.old.entries ++ (record { turn = turn; call = call.now }) ∷ []) }
    ensures spare { OnOk result (journal.new.spare + 1 ≡ journal.old.spare) }
    ensures replies { OnOk result ((d : Decls) → replies.new.items ≡ replies.old.items ++ read_from_latches d (content_in d (all_cells tensors.old)) call.now ∷ []) }
    ensures contents { OnOk result (contents_of (all_cells tensors.new) ≡ after_call (contents_of (all_cells tensors.old)) call.now) }
    ensures orders { all_orders tensors.new ≡ all_orders tensors.old }
    ensures same_journal { OnErr result (journal.new ≡ journal.old) }
    ensures same_replies { OnErr result (replies.new.items ≡ replies.old.items) }
    ensures same_cells { OnErr result (all_cells tensors.new ≡ all_cells tensors.old) }
{
    let copy = call.copy(alloc)?;
    replies.reserve(1)?;
    let read = make_call(tensors, call)?;
    match replies.push(read) {
        Ok(()) => journal.push(Entry { turn, call: copy }),
        Err(_) => unreachable!(),
    }
    Ok(())
}

/// Gives back every latch that a session holds.
pub fn release(holders: &mut Vec<u32>, session: u32)
    ensures holders { (k : ℕ) → slice_index holders.new.items k ≡ without_session (slice_index holders.old.items) session k }
    ensures len { length holders.new.items ≡ length holders.old.items }
{
    for latch in 0..holders.len() {
        if holders[latch] == session {
            holders[latch] = 0;
        }
    }
}
