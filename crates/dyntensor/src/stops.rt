//! Why a reading of files stops.
ghost use Rattle.std.specs.Prelude.{◌≡◌};
ghost use Rattle.dyntensor.specs.Readings.{stop_of};

use crate::faults::{Fault, fault_in};
use dt_model::NoMemory;
use script_read::FileName;
use tns_io::ReadFault;

/// Why there is no world.
#[derive(Debug, Drop)]
pub enum Stop {
    /// The workload has a fault.
    Refused(Fault),
    /// The shelf failed to give this file.
    Unfetched(FileName),
    /// Out of memory.
    NoMemory,
}

impl From<NoMemory> for Stop {
    ghost use Rattle.std.specs.Prelude.{◌≡◌};
    ghost use Rattle.dyntensor.specs.declared.stops.Stop.TheVariants as stops;

    ghost from_gives = { λ _ stop. stop ≡ stops.NoMemory };

    /// It says no more.
    fn from(_error: NoMemory) -> Stop {
        Stop::NoMemory
    }
}

/// What stops a reading of a file's text.
pub fn stop_in(file: &FileName, fault: ReadFault) -> Stop
    ensures value { result ≡ stop_of file.now fault }
{
    match fault {
        ReadFault::At(fault) => Stop::Refused(fault_in(file, fault)),
        ReadFault::NoMemory => Stop::NoMemory,
    }
}
