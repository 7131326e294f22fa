//! Calls of several fibers: their latches are taken, and the entry is entered while they are held.
ghost use Rattle.std.specs.Prelude.{◌≡◌, ◌==◌, ◌∷◌, [], IfOk, OnErr};
ghost use Rattle.commit_core.specs.Machine.{commit_needs};
ghost use Rattle.dt_model.specs.Latches.{needs};
ghost use Rattle.fiber_latch.specs.Seats.{BelongsTo};
ghost use Rattle.fiber_store.specs.Stores.{IsSound, store_content};
ghost use Rattle.sessions.specs.Calling.{CanMake, GoesOn, IsGivenUp};
ghost use Rattle.sessions.specs.Entering.{CanEnter, HasEntered};
ghost use Rattle.sessions.specs.Holding.{due_of, Holds, IsReady};
ghost use Rattle.sessions.specs.Noting.{Notes, stop_of_call};

use crate::engine::{Chair, Engine};
use crate::entering::enter;
use crate::finishing::give_all;
use crate::hands::{Fault, Hands};
use crate::takers::Taker;
use crate::taking::take_all;
use dt_model::Entry;

impl Engine {
    /// Takes all latches of an entry's call, and prepares their stores. Where it can't, those that it took are given back.
    pub(crate) fn hold<T: Taker>(
        &self,
        taker: &T,
        seat: &mut Chair,
        entry: &Entry,
    ) -> Result<Hands, Fault>
        requires engine { BelongsTo seat.old self.now }
        requires ready { CanMake entry.now seat.old }
        ensures goes { GoesOn seat.old seat.new }
        ensures holds { IfOk result (λ hands. Holds store_content IsSound entry.now.turn.session seat.new hands.items) }
        ensures ready { IfOk result (λ hands. IsReady due_of entry.now.turn.session entry.now.call seat.new hands.items) }
        ensures err { OnErr result (IsGivenUp seat.old seat.new) }
        ensures notes { Notes T.waits (needs seat.old.config.world.decls entry.now.call) (stop_of_call result) seat.old seat.new }
    {
        let mut hands = Vec::new(self.alloc);
        if let Err(fault) = take_all(
            taker,
            &self.latches,
            &self.decls,
            seat,
            entry.turn.session,
            &entry.call,
            &mut hands,
        ) {
            give_all(&self.latches, seat, hands);
            return Err(fault);
        }
        Ok(hands)
    }

    /// Enters an entry while the latches of its call are in hand. Where it was stopped, they are given back.
    pub(crate) fn enter_held<T: Taker>(
        &self,
        taker: &T,
        seat: &mut Chair,
        entry: Entry,
        hands: Hands,
    ) -> Result<Hands, Fault>
        requires engine { BelongsTo seat.old self.now }
        requires ready { CanEnter entry seat.old }
        requires holds { Holds store_content IsSound entry.turn.session seat.old hands.items }
        ensures ok { IfOk result (λ same. (same ≡ hands) × HasEntered entry seat.old seat.new) }
        ensures err { OnErr result (seat.new ≡ record seat.old { held = []; conflicts = seat.new.conflicts }) }
        ensures notes { Notes T.waits (λ l. l == seat.old.config.end) (stop_of_call result) seat.old seat.new }
    {
        taker.held(entry.turn);
        if let Err(busy) = enter(taker, &self.latches, seat, self.end, entry) {
            give_all(&self.latches, seat, hands);
            return Err(Fault::Held(busy));
        }
        Ok(hands)
    }
}
