//! Fetches files, and reads those of schemas.
ghost use Rattle.std.specs.Prelude.{◌≡◌, ◌≤◌, length, true, IfOk, IfErr, OnOk, Ok, Some};
ghost use Rattle.dt_model.specs.declared.limits.TheConstants.{FILE_LIMIT};
ghost use Rattle.schema_read.specs.Readings.{are_small};
ghost use Rattle.dyntensor.specs.Files.{text_in, schemas_of};
ghost use Rattle.dyntensor.specs.Readings.{HoldsOf, IsQuiet, IsFileStop};

use crate::faults::{schema_fault_in, too_large};
use crate::stops::Stop;
use dt_model::{FILE_LIMIT, Schemas};
use dt_outside::{FetchFault, Shelf};
use schema_read::{SchemaFault, read_schemas};
use script_read::FileName;
use std::alloc::Global;

/// Fetches a file, and says why it did not come.
pub fn fetch<S: Shelf>(alloc: Global, shelf: &mut S, file: &FileName) -> Result<Vec<u8>, Stop>
    ensures quiet { OnOk result (IsQuiet (S.state shelf.old) (S.state shelf.new)) }
    ensures short { IfOk result (λ text. length text.items ≤ FILE_LIMIT) }
    ensures text { IfOk result (λ text. HoldsOf (S.state shelf.old).files (λ files. text_in files file.now ≡ Ok text.items)) }
    ensures files { (S.state shelf.new).files ≡ (S.state shelf.old).files }
    ensures stop { IfErr result (IsFileStop (S.state shelf.old) (S.state shelf.new) (Some file.now) (λ files. text_in files file.now)) }
{
    let mut text = Vec::new(alloc);
    match shelf.fetch(file.text(), FILE_LIMIT, &mut text) {
        Ok(()) => Ok(text),
        Err(FetchFault::Failed) => Err(Stop::Unfetched(file.copy())),
        Err(FetchFault::TooLarge) => Err(Stop::Refused(too_large(file))),
        Err(FetchFault::NoMemory) => Err(Stop::NoMemory),
    }
}

/// Reads the schemas of a file.
pub fn fetch_schemas<S: Shelf>(
    alloc: Global,
    shelf: &mut S,
    file: &FileName,
) -> Result<Schemas, Stop>
    ensures quiet { OnOk result (IsQuiet (S.state shelf.old) (S.state shelf.new)) }
    ensures schemas { IfOk result (λ schemas. HoldsOf (S.state shelf.old).files (λ files. schemas_of files file.now ≡ Ok schemas)) }
    ensures small { IfOk result (λ schemas. are_small schemas ≡ true) }
    ensures files { (S.state shelf.new).files ≡ (S.state shelf.old).files }
    ensures stop { IfErr result (IsFileStop (S.state shelf.old) (S.state shelf.new) (Some file.now) (λ files. schemas_of files file.now)) }
{
    let text = fetch(alloc, shelf, file)?;
    match read_schemas(alloc, text.as_slice()) {
        Ok(schemas) => Ok(schemas),
        Err(SchemaFault::NoMemory) => Err(Stop::NoMemory),
        Err(fault) => Err(Stop::Refused(schema_fault_in(file, fault))),
    }
}
