//! Batches: updates that are made one after the other, with nothing between them.
ghost use Rattle.std.specs.Prelude.{◌≡◌, IfOk, IfErr, OnOk, OnErr};
ghost use Rattle.commit_core.specs.Machine.{commit_needs};
ghost use Rattle.dt_model.specs.declared.calls.Call.TheVariants.{Batch};
ghost use Rattle.dt_model.specs.declared.replies.Reply.TheVariants.{Done};
ghost use Rattle.fiber_latch.specs.Seats.{BelongsTo};
ghost use Rattle.sessions.specs.Calling.{entry_at, CanMake, HasMade, IsGivenUp, HasFault, NotesConflicts};
ghost use Rattle.sessions.specs.Noting.{Notes, stop_of_call};

use crate::engine::{Chair, Engine};
use crate::faults::{TryFault, with_back};
use crate::finishing::apply_all;
use crate::hands::Fault;
use crate::takers::{Taker, Trying, Waiting};
use dt_model::{Back, Call, Entry, NoMemory, Turn, Updates};
use dt_outside::Gate;
use std::alloc::Global;
use std::sync::Wait;

/// The entry of a turn, with a copy of the updates. One update takes no memory.
fn entry_of_updates(alloc: Global, turn: Turn, updates: &Updates) -> Result<Entry, NoMemory>
    ensures value { IfOk result (λ e. e ≡ entry_at turn (Batch updates.now)) }
{
    let call = Call::Batch(updates.copy(alloc)?);
    Ok(Entry { turn, call })
}

impl Engine {
    /// Makes the updates, where their latches and the journal's are free.
    pub fn try_batch(
        &self,
        seat: &mut Chair,
        turn: Turn,
        updates: Updates,
    ) -> Result<(), TryFault<Updates>>
        requires engine { BelongsTo seat.old self.now }
        requires ready { CanMake (entry_at turn (Batch updates)) seat.old }
        ensures ok { OnOk result (HasMade (entry_at turn (Batch updates)) Done seat.old seat.new) }
        ensures conflicts { OnOk result (seat.new.conflicts ≡ seat.old.conflicts) }
        ensures fault { IfErr result (λ f. HasFault (Batch updates) updates seat.old f seat.new) }
    {
        match self.make(&Trying, seat, turn, &updates) {
            Ok(()) => Ok(()),
            Err(fault) => Err(with_back(fault, updates)),
        }
    }

    /// Makes the updates. It waits for their latches, in ascending order, and for the journal's; the gate is called between
    /// them.
    pub fn batch<R: Wait, G: Gate>(
        &self,
        rt: &R,
        seat: &mut Chair,
        turn: Turn,
        updates: Updates,
        gate: &G,
    ) -> Result<(), Back<Updates>>
        requires engine { BelongsTo seat.old self.now }
        requires ready { CanMake (entry_at turn (Batch updates)) seat.old }
        ensures ok { OnOk result (HasMade (entry_at turn (Batch updates)) Done seat.old seat.new) }
        ensures err { OnErr result (IsGivenUp seat.old seat.new) }
        ensures conflicts { NotesConflicts (commit_needs seat.old.config.world.decls (Batch updates)) seat.old seat.new }
        ensures back { IfErr result (λ b. b.back ≡ updates) }
    {
        match self.make(&Waiting { rt, gate }, seat, turn, &updates) {
            Ok(()) => Ok(()),
            Err(_) => Err(Back { back: updates }),
        }
    }

    /// Makes updates that stay the caller's, by either taker.
    pub(crate) fn make<T: Taker>(
        &self,
        taker: &T,
        seat: &mut Chair,
        turn: Turn,
        updates: &Updates,
    ) -> Result<(), Fault>
        requires engine { BelongsTo seat.old self.now }
        requires ready { CanMake (entry_at turn (Batch updates.now)) seat.old }
        ensures ok { OnOk result (HasMade (entry_at turn (Batch updates.now)) Done seat.old seat.new) }
        ensures err { OnErr result (IsGivenUp seat.old seat.new) }
        ensures notes { Notes T.waits (commit_needs seat.old.config.world.decls (Batch updates.now)) (stop_of_call result) seat.old seat.new }
    {
        let Ok(entry) = entry_of_updates(self.alloc, turn, updates) else {
            return Err(Fault::Full);
        };
        let held = self.hold(taker, seat, &entry)?;
        let hands = self.enter_held(taker, seat, entry, held)?;
        apply_all(&self.latches, seat, hands);
        Ok(())
    }
}
