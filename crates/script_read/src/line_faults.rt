//! Why a line of a script isn't read to a call.
ghost use Rattle.std.specs.Prelude.{◌≡◌};
ghost use Rattle.script_read.specs.declared.line_faults.LineFault.TheVariants as faults;

use dt_model::{NoMemory, Refusal};

/// Why a line isn't read to a call.
#[derive(Debug, Drop)]
pub enum LineFault {
    /// Its form is refused.
    Refused(Refusal),
    /// Out of memory.
    NoMemory,
}

impl From<Refusal> for LineFault {
    ghost from_gives = { λ r e. e ≡ faults.Refused r };

    /// The form is refused.
    fn from(refusal: Refusal) -> LineFault {
        LineFault::Refused(refusal)
    }
}

impl From<NoMemory> for LineFault {
    ghost from_gives = { λ _ e. e ≡ faults.NoMemory };

    /// Out of memory.
    fn from(_error: NoMemory) -> LineFault {
        LineFault::NoMemory
    }
}
