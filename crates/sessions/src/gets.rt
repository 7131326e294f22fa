//! Gets: the number in one cell.
ghost use Rattle.std.specs.Prelude.{◌≡◌, IfOk, IfErr, OnOk, OnErr};
ghost use Rattle.commit_core.specs.Machine.{commit_needs};
ghost use Rattle.dt_model.specs.declared.calls.Call.TheVariants.{Get};
ghost use Rattle.dt_model.specs.declared.replies.Reply.TheVariants.{Value};
ghost use Rattle.fiber_latch.specs.Seats.{BelongsTo};
ghost use Rattle.sessions.specs.Calling.{entry_at, CanMake, HasMade, IsGivenUp, IsStopped, NotesConflicts};
ghost use Rattle.sessions.specs.Noting.{Notes, stop_of_take};

use crate::engine::{Chair, Engine};
use crate::entering::enter;
use crate::takers::{Taker, Trying, Waiting};
use crate::taking::fiber;
use dt_model::{Call, Cell, Entry, Turn, latch_of};
use dt_outside::Gate;
use fiber_latch::{Busy, Kept};
use std::sync::Wait;

impl Engine {
    /// The number in a cell, where its latch and the journal's are free.
    pub fn try_get(&self, seat: &mut Chair, turn: Turn, cell: Cell) -> Result<u64, Busy>
        requires engine { BelongsTo seat.old self.now }
        requires ready { CanMake (entry_at turn (Get cell)) seat.old }
        ensures ok { IfOk result (λ value. HasMade (entry_at turn (Get cell)) (Value value) seat.old seat.new) }
        ensures conflicts { OnOk result (seat.new.conflicts ≡ seat.old.conflicts) }
        ensures busy { IfErr result (λ b. IsStopped (Get cell) seat.old b seat.new) }
    {
        self.read(&Trying, seat, turn, cell)
    }

    /// The number in a cell. It waits for the cell's latch and for the journal's; the gate is called between them.
    pub fn get<R: Wait, G: Gate>(
        &self,
        rt: &R,
        seat: &mut Chair,
        turn: Turn,
        cell: Cell,
        gate: &G,
    ) -> u64
        requires engine { BelongsTo seat.old self.now }
        requires ready { CanMake (entry_at turn (Get cell)) seat.old }
        ensures made { HasMade (entry_at turn (Get cell)) (Value result) seat.old seat.new }
        ensures conflicts { NotesConflicts (commit_needs seat.old.config.world.decls (Get cell)) seat.old seat.new }
    {
        match self.read(&Waiting { rt, gate }, seat, turn, cell) {
            Ok(value) => value,
            Err(_) => unreachable!(),
        }
    }

    /// The number in a cell, by either taker.
    pub(crate) fn read<T: Taker>(
        &self,
        taker: &T,
        seat: &mut Chair,
        turn: Turn,
        cell: Cell,
    ) -> Result<u64, Busy>
        requires engine { BelongsTo seat.old self.now }
        requires ready { CanMake (entry_at turn (Get cell)) seat.old }
        ensures ok { IfOk result (λ value. HasMade (entry_at turn (Get cell)) (Value value) seat.old seat.new) }
        ensures err { OnErr result (IsGivenUp seat.old seat.new) }
        ensures notes { Notes T.waits (commit_needs seat.old.config.world.decls (Get cell)) (stop_of_take result) seat.old seat.new }
    {
        let latch = latch_of(&self.decls, &cell);
        let store = fiber(taker, &self.latches, seat, turn.session, latch)?;
        let value = store.get(&cell);
        taker.held(turn);
        let entry = Entry {
            turn,
            call: Call::Get(cell),
        };
        if let Err(busy) = enter(taker, &self.latches, seat, self.end, entry) {
            self.latches.give(seat, latch, Kept::Fiber(store));
            return Err(busy);
        }
        self.latches.give(seat, latch, Kept::Fiber(store));
        Ok(value)
    }
}
