//! What `check` prints of a file of schemas.
ghost use Rattle.std.specs.Prelude.{◌≡◌, ◌++◌, ◌∷◌, [], IfOk, IfSome, OnOk, map, string_bytes, is_ok};
ghost use Rattle.dt_model.specs.Texts.{text_of};
ghost use Rattle.schema_check.specs.Breaches.{checked};
ghost use Rattle.dyntensor.specs.Commands.{schemas_named};
ghost use Rattle.dyntensor.specs.Checks.{check_row, check_text, all_keep, HasCheckCause};
ghost use Rattle.dyntensor.specs.Readings.{IsOutcomeOfCheck};

use crate::commands::schemas_named;
use crate::drivers::stopped;
use crate::fault_lines::write_breach;
use crate::fetching::fetch_schemas;
use crate::outcomes::Outcome;
use dt_model::{NoMemory, Schema};
use dt_outside::Shelf;
use dt_text::append;
use schema_check::check;
use std::alloc::Global;

/// Appends the row of a schema, and says whether it keeps the rules.
fn write_row(schema: &Schema, text: &mut Vec<u8>) -> Result<bool, NoMemory>
    ensures ok { OnOk result (text.new.items ≡ text.old.items ++ text_of (check_row schema.now ∷ [])) }
    ensures value { IfOk result (λ kept. kept ≡ is_ok (checked schema.now)) }
{
    append(text, schema.name.bytes())?;
    append(text, b" ")?;
    match check(schema) {
        Ok(_checked) => {
            append(text, b"ok\n")?;
            Ok(true)
        }
        Err(breach) => {
            write_breach(&breach, text)?;
            append(text, b"\n")?;
            Ok(false)
        }
    }
}

/// Appends the rows of some schemas, and says whether all keep the rules.
fn write_rows(schemas: &[Schema], text: &mut Vec<u8>) -> Result<bool, NoMemory>
    ensures ok { OnOk result (text.new.items ≡ text.old.items ++ check_text schemas.now) }
    ensures value { IfOk result (λ kept. kept ≡ all_keep schemas.now) }
{
    match schemas {
        [] => Ok(true),
        [schema, rest @ ..] => {
            let is_kept = write_row(schema, text)?;
            let are_kept = write_rows(rest, text)?;
            Ok(is_kept && are_kept)
        }
    }
}

/// The outcome of a check of these schemas.
fn check_outcome(alloc: Global, schemas: &[Schema]) -> Outcome
    ensures value { IsOutcomeOfCheck schemas.now result }
{
    let mut text = Vec::new(alloc);
    match write_rows(schemas, &mut text) {
        Ok(true) => Outcome::Report(text),
        Ok(false) => Outcome::Breaches(text),
        Err(NoMemory) => Outcome::OutOfMemory,
    }
}

/// Reads the schemas that the words name, checks them, and says how that ends.
pub fn outcome_of_check<S: Shelf>(alloc: Global, words: &[String], shelf: &mut S) -> Outcome
    ensures files { (S.state shelf.new).files ≡ (S.state shelf.old).files }
    ensures cause { HasCheckCause (schemas_named (map string_bytes words.now)) (S.state shelf.old) (S.state shelf.new) result }
{
    let Some(file) = schemas_named(words) else {
        return Outcome::Usage;
    };
    match fetch_schemas(alloc, shelf, &file) {
        Ok(schemas) => check_outcome(alloc, schemas.as_slice()),
        Err(stop) => stopped(alloc, stop),
    }
}
