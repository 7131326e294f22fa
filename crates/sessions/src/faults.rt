//! Why a call that doesn't wait wasn't made.
ghost use Rattle.std.specs.Prelude.{◌≡◌};
ghost use Rattle.sessions.specs.Holding.{fault_with};

use crate::hands::Fault;
use fiber_latch::Busy;

/// Why a call wasn't made. What was handed in comes back.
#[derive(Drop)]
pub enum TryFault<T> {
    /// Another seat's session held one of its latches, or the journal's.
    Busy { busy: Busy, back: T },
    /// Out of memory.
    NoMemory { back: T },
}

/// The fault, with what was handed in.
pub(crate) fn with_back<T>(fault: Fault, back: T) -> TryFault<T>
    ensures value { result ≡ fault_with fault back }
{
    match fault {
        Fault::Held(busy) => TryFault::Busy { busy, back },
        Fault::Full => TryFault::NoMemory { back },
    }
}
