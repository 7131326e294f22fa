//! How a call takes its latches: it waits for them, or it doesn't.
ghost use Rattle.std.specs.Prelude.{◌≡◌, ◌==◌, ◌≤◌, true, false, IfOk, OnErr};
ghost use Rattle.fiber_latch.specs.Seats.{BelongsTo};
ghost use Rattle.sessions.specs.Entering.{IsAboveHeld};
ghost use Rattle.sessions.specs.Holding.{IsOnlyNoted, IsTakenInTime};
ghost use Rattle.sessions.specs.Noting.{Notes, stop_of_take};

use crate::engine::Chair;
use dt_model::Turn;
use dt_outside::Gate;
use fiber_latch::{Busy, Kept, Latches};
use fiber_store::FiberStore;
use std::sync::Wait;

/// Takes the latches of a call.
pub trait Taker {
    ghost use Rattle.std.specs.Prelude.{Bool};

    /// Whether a take waits while another session holds the latch.
    ghost waits: { Bool };

    /// Takes a latch with its value. Where another session holds it, a taker that doesn't wait is stopped.
    fn take(
        &self,
        latches: &Latches<FiberStore>,
        seat: &mut Chair,
        session: u32,
        latch: u32,
    ) -> Result<Kept<FiberStore>, Busy>
        requires table { BelongsTo seat.old latches.now }
        requires session { (seat.old.first ≤ session) × (session ≤ seat.old.last) }
        requires latch { (latch ≤ latches.now.config.end) × IsAboveHeld latch seat.old.held }
        ensures ok { IfOk result (λ kept. IsTakenInTime latch session seat.old kept seat.new) }
        ensures err { OnErr result (IsOnlyNoted seat.old seat.new) }
        ensures notes { Notes waits (λ l. l == latch) (stop_of_take result) seat.old seat.new };

    /// Is called with a call's turn when all fibers of the call are held and the journal's latch isn't yet taken.
    fn held(&self, turn: Turn);
}

/// Takes latches where they are free.
#[derive(Drop)]
pub struct Trying;

impl Taker for Trying {
    ghost waits = { false };

    fn take(
        &self,
        latches: &Latches<FiberStore>,
        seat: &mut Chair,
        session: u32,
        latch: u32,
    ) -> Result<Kept<FiberStore>, Busy> {
        latches.try_take(seat, session, latch)
    }

    fn held(&self, _turn: Turn) {}
}

/// Waits for latches, and calls a gate when all fibers of a call are held.
#[derive(Drop)]
pub struct Waiting<'a, R: Wait, G: Gate> {
    pub rt: &'a R,
    pub gate: &'a G,
}

impl<'a, R: Wait, G: Gate> Taker for Waiting<'a, R, G> {
    ghost waits = { true };

    fn take(
        &self,
        latches: &Latches<FiberStore>,
        seat: &mut Chair,
        session: u32,
        latch: u32,
    ) -> Result<Kept<FiberStore>, Busy> {
        Ok(latches.take(self.rt, seat, session, latch))
    }

    fn held(&self, turn: Turn) {
        self.gate.held(turn);
    }
}
