//! Queries: the nonzeros of a statement's answer.
ghost use Rattle.std.specs.Prelude.{◌≡◌, IfOk, IfErr, OnOk, OnErr};
ghost use Rattle.commit_core.specs.Machine.{commit_needs};
ghost use Rattle.dt_model.specs.declared.calls.Call.TheVariants.{Query};
ghost use Rattle.dt_model.specs.declared.replies.Reply.TheVariants as reply;
ghost use Rattle.fiber_latch.specs.Seats.{BelongsTo};
ghost use Rattle.sessions.specs.Calling.{entry_at, CanMake, HasMade, IsGivenUp, HasFault, NotesConflicts};
ghost use Rattle.sessions.specs.Noting.{Notes, stop_of_call};

use crate::engine::{Chair, Engine};
use crate::faults::{TryFault, with_back};
use crate::finishing::give_all;
use crate::hands::Fault;
use crate::held_tables::answer_of;
use crate::takers::{Taker, Trying, Waiting};
use dt_model::{Back, Call, Entry, NoMemory, Nonzeros, Stmt, Turn};
use dt_outside::Gate;
use std::alloc::Global;
use std::sync::Wait;

/// The entry of a turn, with a copy of the statement.
fn entry_of_statement(alloc: Global, turn: Turn, stmt: &Stmt) -> Result<Entry, NoMemory>
    ensures value { IfOk result (λ e. e ≡ entry_at turn (Query stmt.now)) }
{
    let call = Call::query(alloc, stmt.copy(alloc)?)?;
    Ok(Entry { turn, call })
}

impl Engine {
    /// The nonzeros of a statement's answer, where all latches of the tensors that it names and the journal's are free.
    pub fn try_query(
        &self,
        seat: &mut Chair,
        turn: Turn,
        stmt: Stmt,
    ) -> Result<Nonzeros, TryFault<Stmt>>
        requires engine { BelongsTo seat.old self.now }
        requires ready { CanMake (entry_at turn (Query stmt)) seat.old }
        ensures ok { IfOk result (λ pairs. HasMade (entry_at turn (Query stmt)) (reply.Result pairs) seat.old seat.new) }
        ensures conflicts { OnOk result (seat.new.conflicts ≡ seat.old.conflicts) }
        ensures fault { IfErr result (λ f. HasFault (Query stmt) stmt seat.old f seat.new) }
    {
        match self.evaluate(&Trying, seat, turn, &stmt) {
            Ok(pairs) => Ok(pairs),
            Err(fault) => Err(with_back(fault, stmt)),
        }
    }

    /// The nonzeros of a statement's answer. It waits for all latches of the tensors that it names, in ascending order, and
    /// for the journal's; the gate is called between them.
    pub fn query<R: Wait, G: Gate>(
        &self,
        rt: &R,
        seat: &mut Chair,
        turn: Turn,
        stmt: Stmt,
        gate: &G,
    ) -> Result<Nonzeros, Back<Stmt>>
        requires engine { BelongsTo seat.old self.now }
        requires ready { CanMake (entry_at turn (Query stmt)) seat.old }
        ensures ok { IfOk result (λ pairs. HasMade (entry_at turn (Query stmt)) (reply.Result pairs) seat.old seat.new) }
        ensures err { OnErr result (IsGivenUp seat.old seat.new) }
        ensures conflicts { NotesConflicts (commit_needs seat.old.config.world.decls (Query stmt)) seat.old seat.new }
        ensures back { IfErr result (λ b. b.back ≡ stmt) }
    {
        match self.evaluate(&Waiting { rt, gate }, seat, turn, &stmt) {
            Ok(pairs) => Ok(pairs),
            Err(_) => Err(Back { back: stmt }),
        }
    }

    /// The nonzeros of the answer of a statement that stays the caller's, by either taker.
    pub(crate) fn evaluate<T: Taker>(
        &self,
        taker: &T,
        seat: &mut Chair,
        turn: Turn,
        stmt: &Stmt,
    ) -> Result<Nonzeros, Fault>
        requires engine { BelongsTo seat.old self.now }
        requires ready { CanMake (entry_at turn (Query stmt.now)) seat.old }
        ensures ok { IfOk result (λ pairs. HasMade (entry_at turn (Query stmt.now)) (reply.Result pairs) seat.old seat.new) }
        ensures err { OnErr result (IsGivenUp seat.old seat.new) }
        ensures notes { Notes T.waits (commit_needs seat.old.config.world.decls (Query stmt.now)) (stop_of_call result) seat.old seat.new }
    {
        let Ok(entry) = entry_of_statement(self.alloc, turn, stmt) else {
            return Err(Fault::Full);
        };
        let held = self.hold(taker, seat, &entry)?;
        let Ok(pairs) = answer_of(self.alloc, &self.decls, &held, stmt) else {
            give_all(&self.latches, seat, held);
            return Err(Fault::Full);
        };
        let hands = self.enter_held(taker, seat, entry, held)?;
        give_all(&self.latches, seat, hands);
        Ok(pairs)
    }
}
