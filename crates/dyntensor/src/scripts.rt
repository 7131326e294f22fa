//! Reads the script of a session, and adds it to what was gathered.
ghost use Rattle.std.specs.Prelude.{◌≡◌, ◌≤◌, length, IfErr, OnOk, Ok, Some};
ghost use Rattle.dt_model.specs.declared.limits.TheConstants.{FILE_LIMIT};
ghost use Rattle.dyntensor.specs.Workload.{with_session, with_text, work_of};
ghost use Rattle.dyntensor.specs.Readings.{HoldsOf, IsQuiet, IsFaultStop, IsFileStop};
ghost use Rattle.dyntensor.specs.Gathering.{IsRunnable};

use crate::faults::too_large;
use crate::fetching::fetch;
use crate::gathering::Gathering;
use crate::stops::{Stop, stop_in};
use dt_model::FILE_LIMIT;
use dt_outside::Shelf;
use script_read::{FileName, read_script};
use std::alloc::Global;

/// Reads the text of a file's script, and adds the script.
pub fn add_text(
    alloc: Global,
    gathering: &mut Gathering,
    file: &FileName,
    text: &[u8],
) -> Result<(), Stop>
    requires runnable { IsRunnable (work_of gathering.old).world gathering.old.printed }
    requires short { length text.now ≤ FILE_LIMIT }
    ensures script { OnOk result (with_text gathering.old file.now text.now ≡ Ok gathering.new) }
    ensures stop { IfErr result (IsFaultStop (with_text gathering.old file.now text.now)) }
{
    if gathering.script_bytes() + text.len() as u64 > FILE_LIMIT {
        return Err(Stop::Refused(too_large(file)));
    }
    let most = gathering.lines_left();
    match read_script(alloc, gathering.decls(), text, most) {
        Ok(script) => Ok(gathering.add_script(text.len(), script)?),
        Err(fault) => Err(stop_in(file, fault)),
    }
}

/// Reads the script of a session.
pub fn add_session<S: Shelf>(
    alloc: Global,
    shelf: &mut S,
    gathering: &mut Gathering,
    file: &FileName,
) -> Result<(), Stop>
    requires runnable { IsRunnable (work_of gathering.old).world gathering.old.printed }
    ensures quiet { OnOk result (IsQuiet (S.state shelf.old) (S.state shelf.new)) }
    ensures script { OnOk result (HoldsOf (S.state shelf.old).files (λ files. with_session files gathering.old file.now ≡ Ok gathering.new)) }
    ensures files { (S.state shelf.new).files ≡ (S.state shelf.old).files }
    ensures stop { IfErr result (IsFileStop (S.state shelf.old) (S.state shelf.new) (Some file.now) (λ files. with_session files gathering.old file.now)) }
{
    let text = fetch(alloc, shelf, file)?;
    add_text(alloc, gathering, file, text.as_slice())
}
