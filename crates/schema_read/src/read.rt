//! The schemas of a text, or its first fault with its line and column.

ghost use Rattle.std.specs.Prelude.{◌≡◌, ◌≤◌, ◌+◌, List, length, true, IfOk, IfErr};
ghost use Rattle.dt_model.specs.declared.limits.TheConstants.{FILE_LIMIT};
ghost use Rattle.dt_model.specs.declared.declared_tensors.Schema.{Schema};
ghost use Rattle.std.specs.List.{All};
ghost use Rattle.schema_read.specs.Grammar.{are_linked};
ghost use Rattle.schema_read.specs.Reading.{fault_at, schemas_in, AnswersReading};
ghost use Rattle.schema_read.specs.Readings.{ReadsAs, Reads, AnswersSchemas, are_small};

use crate::draft::{Draft, with_role};
use crate::lexer::{next_token, token_of};
use crate::places::{column_behind, line_behind, text_end};
use crate::scan::{Fault, Scan, is_end, step};
use dt_model::{NoMemory, Schemas};
use std::alloc::Global;
use thiserror::Error;

/// Why a text is no schema file.
#[derive(Clone, Copy, Debug, PartialEq, Eq, Error)]
pub enum SchemaFault {
    /// No schema file has the token at this place there, or the text ends before the file does.
    #[error("no schema file has what stands in line {line}, column {column}")]
    Form { line: u32, column: u32 },
    /// A limit is passed at this place, by a schema or by a kind.
    #[error("what stands in line {line}, column {column} is more than is allowed")]
    Limit { line: u32, column: u32 },
    /// Out of memory.
    #[error("out of memory")]
    NoMemory,
}

impl From<NoMemory> for SchemaFault {
    ghost use Rattle.schema_read.specs.declared.read.SchemaFault.TheVariants as because;

    ghost from_gives = { λ _ e. e ≡ because.NoMemory };

    /// The fault of a reading that runs out of memory.
    fn from(_fault: NoMemory) -> SchemaFault {
        SchemaFault::NoMemory
    }
}

/// A fault at a place of the text, which counts from 0.
fn fault_at(text: &[u8], fault: Fault, place: usize) -> SchemaFault
    requires short { length text.now ≤ FILE_LIMIT }
    requires within { place ≤ length text.now }
    ensures value { result ≡ fault_at text.now fault place }
{
    let front = &text[..place];
    let line = line_behind(front) as u32;
    let column = column_behind(front) as u32;
    match fault {
        Fault::Form => SchemaFault::Form { line, column },
        Fault::Limit => SchemaFault::Limit { line, column },
    }
}

/// The schemas that a text's tokens build, or its first fault.
fn read_tokens(alloc: Global, text: &[u8]) -> Result<Schemas, SchemaFault>
    requires short { length text.now ≤ FILE_LIMIT }
    ensures value { AnswersReading (schemas_in text.now) result }
{
    let mut scan = Scan::new();
    let mut draft = Draft::new(alloc);
    let mut at = 0;
    while let Some(span) = next_token(text, at) {
        let token = token_of(&text[span.from..span.to]);
        match step(scan, token) {
            Err(fault) => return Err(fault_at(text, fault, span.from)),
            Ok((next, role)) => {
                draft = with_role(draft, role)?;
                scan = next;
                at = span.to;
            }
        }
    }
    if is_end(scan.place) {
        Ok(draft.schemas)
    } else {
        Err(fault_at(text, Fault::Form, text_end(text)))
    }
}

/// The schemas that a text declares, in order, or its first fault. Lines and columns count from 1, and
/// a column counts bytes of its line. A fault at the end of the text is behind the last byte of its last
/// line, from which one carriage return is dropped. Where a form fault and a limit meet at one place,
/// the form fault is answered. It passes over the text twice at most, and memory is taken for each
/// schema alone.
pub fn read_schemas(alloc: Global, text: &[u8]) -> Result<Schemas, SchemaFault>
    requires short { length text.now ≤ FILE_LIMIT }
    // What is read is what the text writes; a fault is where the grammar and the limits put it.
    ensures reads { Reads text.now result }
    // What the text writes within the limits is read, unless memory runs out.
    ensures only { (schemas : List Schema) → ReadsAs text.now schemas → AnswersSchemas schemas result }
    // All this as one value, which clauses above cite.
    ensures value { AnswersReading (schemas_in text.now) result }
    // What is read is within the limits.
    ensures small { IfOk result (λ schemas. are_small schemas ≡ true) }
    // No kind that is read is flat.
    ensures linked { IfOk result (λ schemas. All (λ schema. are_linked schema.kinds.items ≡ true) schemas) }
{
    read_tokens(alloc, text)
}
