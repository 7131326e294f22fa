//! Gates: where a test can hold a call.
use dt_model::Turn;

/// A place that calls pass, at which a test can hold them.
pub trait Gate {
    /// Is called with a call's turn when all fibers of the call are held and the journal's latch isn't
    /// yet taken.
    fn held(&self, turn: Turn);
}

/// The gate that does nothing: the program's.
#[derive(Clone, Copy, Debug)]
pub struct OpenGate;

impl Gate for OpenGate {
    fn held(&self, _turn: Turn) {}
}
