//! Events, why a step is refused, and positions of sessions.

/// What may happen next. Sessions are counted from 1, latches from 0.
#[derive(Clone, Copy, Debug, PartialEq, Eq)]
pub enum Event {
    /// A session takes the least latch that its call needs and that it doesn't hold.
    Take { session: u32, latch: u32 },
    /// A session that holds all that its call needs, and the journal's latch, makes the call.
    Commit { session: u32 },
    /// A session that has made its call gives a latch back; after the last it goes on.
    Give { session: u32, latch: u32 },
    /// A session that hasn't made its call gives every latch back, loses the call and goes on.
    Quit { session: u32 },
}

/// Why a step wasn't made.
#[derive(Clone, Copy, Debug, PartialEq, Eq)]
pub enum StepFault {
    /// The event isn't possible now.
    NotPossible,
    /// Out of memory, at a commit or a quit.
    NoMemory,
}

/// Where a session stands.
#[derive(Clone, Copy, Debug, PartialEq, Eq)]
pub struct Position {
    /// The current call's number in the session's script, counted from 1; 0 where it has none.
    pub number: u32,
    /// Whether that call is committed.
    pub committed: bool,
}
