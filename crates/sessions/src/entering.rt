//! The last step of a call: its entry goes into the history while its fibers are held.
ghost use Rattle.std.specs.Prelude.{◌≡◌, ◌==◌, ℕ, [], ◌∷◌, ◌++◌, drop, OnOk, OnErr, IsTrue};
ghost use Rattle.dt_model.specs.Latches.{needs};
ghost use Rattle.dt_model.specs.Tensors.{latch_count};
ghost use Rattle.dt_model.specs.Verdicts.{call_is_valid};
ghost use Rattle.fiber_latch.specs.Views.{In};
ghost use Rattle.fiber_latch.specs.Seats.{BelongsTo, IsJournal};
ghost use Rattle.sessions.specs.Calling.{IsNext};
ghost use Rattle.sessions.specs.Entering.{CanEnter, HasEntered};
ghost use Rattle.sessions.specs.Holding.{IsOnlyNoted};
ghost use Rattle.sessions.specs.Noting.{Notes, stop_of_take};

use crate::engine::Chair;
use crate::takers::Taker;
use dt_model::{Entry, Journal};
use fiber_latch::{Busy, Kept, Latches};
use fiber_store::FiberStore;

/// Commits an entry while the journal is in hand, and gives the journal back.
fn write(
    latches: &Latches<FiberStore>,
    seat: &mut Chair,
    end: u32,
    mut journal: Journal,
    entry: Entry,
)
    requires table { BelongsTo seat.old latches.now }
    requires end { (end ≡ latches.now.config.end) × (end ≡ latch_count latches.now.config.world.decls) }
    requires next { IsNext entry.turn seat.old }
    requires call { IsTrue (call_is_valid latches.now.config.world.decls entry.call) }
    requires held { (l : ℕ) → IsTrue (needs latches.now.config.world.decls entry.call l) → In (l, entry.turn.session) seat.old.held }
    requires top { seat.old.held ≡ (end, entry.turn.session) ∷ drop 1 seat.old.held }
    requires journal { IsJournal latches.now.config seat.old.seen journal }
    ensures seat { seat.new ≡ record seat.old { held = drop 1 seat.old.held; seen = seat.old.seen ++ entry ∷ [] } }
{
    latches.commit(seat, &mut journal, entry);
    latches.give(seat, end, Kept::Journal(journal));
}

/// Takes the journal's latch, commits the entry and gives the latch back. Where the take was stopped, the entry is dropped.
pub fn enter<T: Taker>(
    taker: &T,
    latches: &Latches<FiberStore>,
    seat: &mut Chair,
    end: u32,
    entry: Entry,
) -> Result<(), Busy>
    requires table { BelongsTo seat.old latches.now }
    requires end { (end ≡ latches.now.config.end) × (end ≡ latch_count latches.now.config.world.decls) }
    requires ready { CanEnter entry seat.old }
    ensures ok { OnOk result (HasEntered entry seat.old seat.new) }
    ensures err { OnErr result (IsOnlyNoted seat.old seat.new) }
    ensures notes { Notes T.waits (λ l. l == end) (stop_of_take result) seat.old seat.new }
{
    let session = entry.turn.session;
    match taker.take(latches, seat, session, end) {
        Err(busy) => Err(busy),
        Ok(Kept::Journal(journal)) => {
            write(latches, seat, end, journal, entry);
            Ok(())
        }
        Ok(Kept::Fiber(_)) => unreachable!(),
    }
}
