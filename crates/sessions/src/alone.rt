//! One thread runs the scripts of all sessions, one after the other.
ghost use Rattle.std.specs.Prelude.{◌≡◌, IfOk, IfErr};
ghost use Rattle.fiber_latch.specs.Seats.{BelongsTo};
ghost use Rattle.sessions.specs.Outcomes.{outcomes_after};
ghost use Rattle.sessions.specs.Running.{AreRunnable, CanRun, HasRun};

use crate::engine::{Chair, Engine};
use crate::lines::run_script;
use crate::outcomes::Outcomes;
use crate::rooms::{Rooms, rooms_for};
use crate::takers::Trying;
use dt_model::{Back, Scripts};

/// Runs the sessions one after the other, and answers the outcome of each line. It never waits: no latch is held by another
/// seat. The seat comes back as it was where there is no memory for the outcomes, which is found out before any call is
/// made. A call that runs out of memory has that outcome, and its session goes on.
pub fn run_alone(
    engine: &Engine,
    mut seat: Chair,
    scripts: &Scripts,
) -> Result<(Chair, Outcomes), Back<Chair>>
    requires engine { BelongsTo seat engine.now }
    requires all { seat.last ≡ engine.now.config.sessions }
    requires scripts { AreRunnable engine.now.config scripts.now }
    requires seat { CanRun scripts.now seat }
    ensures run { IfOk result (λ r. HasRun scripts.now seat r.0) }
    ensures outcomes { IfOk result (λ r. r.1 ≡ outcomes_after engine.now.config.world r.0.seen scripts.now) }
    ensures back { IfErr result (λ e. e.back ≡ seat) }
{
    let Ok(
        Rooms {
            mut lines,
            mut lists,
        },
    ) = rooms_for(engine.alloc, scripts.as_slice())
    else {
        return Err(Back { back: seat });
    };
    for (i, script) in scripts.as_slice().iter().enumerate() {
        let Some(mut room) = lines.pop_front() else {
            unreachable!()
        };
        run_script(
            &Trying,
            engine,
            i as u32 + 1,
            script.as_slice(),
            &mut seat,
            &mut room,
        );
        lists.push_reserved(room.into_list());
    }
    Ok((seat, Outcomes::of(lists)))
}
