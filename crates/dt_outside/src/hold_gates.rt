//! A gate for tests, at which a call looks a while for another one.
ghost use Rattle.std.specs.Prelude.{◌≡◌, ◌≤◌, length};
ghost use Rattle.dt_outside.specs.declared.hold_gates.TheConstants.{MOST_WAITS};

use crate::gates::Gate;
use arrayvec::ArrayVec;
use crossbeam_utils::CachePadded;
use dt_model::Turn;
use std::marker::Model;
use std::sync::atomic::{AtomicBool, Ordering};
use std::thread::yield_now;

/// The pairs of turns of a gate.
pub const MOST_WAITS: usize = 32;

/// A turn that looks for another one.
#[derive(Drop)]
struct Meeting {
    /// The turn that looks.
    looking: Turn,
    /// The turn that it looks for.
    wanted: Turn,
    /// Whether the wanted turn was held.
    is_noted: CachePadded<AtomicBool>,
    /// Whether a look found the wanted turn noted.
    is_met: CachePadded<AtomicBool>,
}

impl Meeting {
    /// Neither noted nor met.
    fn new(looking: Turn, wanted: Turn) -> Meeting
        ensures pair { (result.looking ≡ looking) × (result.wanted ≡ wanted) }
    {
        Meeting {
            looking,
            wanted,
            is_noted: CachePadded::new(AtomicBool::new(false)),
            is_met: CachePadded::new(AtomicBool::new(false)),
        }
    }

    /// Notes a turn, if it is the wanted one.
    fn note(&self, turn: Turn) {
        if turn == self.wanted {
            self.is_noted.store(true, Ordering::SeqCst);
        }
    }

    /// Looks so many times whether the wanted turn was noted, if this turn is the one that looks.
    fn look(&self, turn: Turn, turns: u64) {
        if turn == self.looking && finds(&self.is_noted, turns) {
            self.is_met.store(true, Ordering::SeqCst);
        }
    }
}

impl Default for Meeting {
    /// A placeholder, which fills the unused places of an `ArrayVec`: its turns are no calls.
    fn default() -> Meeting {
        let none = Turn {
            session: 0,
            number: 0,
        };
        Meeting::new(none, none)
    }
}

/// Whether one of so many looks finds a note. Between two looks other threads may run.
fn finds(note: &AtomicBool, turns: u64) -> bool {
    for _ in 0..turns {
        if note.load(Ordering::SeqCst) {
            return true;
        }
        yield_now();
    }
    false
}

/// A gate at which turns look for one another, a bounded number of times. Contracts see it as its
/// pairs, each a turn and the turn that it looks for, and the number of looks.
#[derive(Drop)]
pub struct HoldGate {
    meetings: ArrayVec<Meeting, MOST_WAITS>,
    turns: u64,
}

impl Model for HoldGate {
    ghost use Rattle.std.specs.Prelude.{map};
    ghost use Rattle.dt_outside.specs.States.{HoldGateState, pair_of};

    ghost Value = { HoldGateState };

    ghost view = { λ g. record { waits = map pair_of g.meetings.items; turns = g.turns } };
}

impl HoldGate {
    /// A gate at which the first turn of each pair looks up to so many times for the second.
    pub fn new(waits: Vec<(Turn, Turn)>, turns: u64) -> HoldGate
        requires few { length waits.items ≤ MOST_WAITS }
        ensures waits { result.waits ≡ waits.items }
        ensures turns { result.turns ≡ turns }
    {
        let mut meetings = ArrayVec::new();
        for (looking, wanted) in waits.as_slice() {
            meetings.push(Meeting::new(*looking, *wanted));
        }
        HoldGate { meetings, turns }
    }

    /// Whether for each pair a look of its first turn found the second one noted.
    pub fn all_met(&self) -> bool {
        let meetings = self.meetings.as_slice();
        meetings
            .iter()
            .all(|meeting| meeting.is_met.load(Ordering::SeqCst))
    }
}

impl Gate for HoldGate {
    fn held(&self, turn: Turn) {
        let meetings = self.meetings.as_slice();
        for meeting in meetings {
            meeting.note(turn);
        }
        for meeting in meetings {
            meeting.look(turn, self.turns);
        }
    }
}
