//! Schema files: the node schemas that a text declares, and the canonical text of one.
//!
//! `read_schemas` reads the schemas of a text or answers its first fault; `write_schema` appends a
//! schema's canonical text. Clauses see a text as its list of bytes and a schema as dt_model's type.
//! Read `SchemaFile` in `specs/Grammar.antt` first, then `Reads` in `specs/Readings.antt`.
//! Lines and columns count from 1, and a column counts bytes of its line. The limits are dt_model's.
//! Not here: which schemas may be used (`schema_check`), and the schema `flat`, which no text declares.
#![tactic(auto)]

mod draft;
mod lexer;
mod places;
mod read;
mod roles;
mod scan;
#[cfg(test)]
mod tests;
mod write;

pub use draft::Draft;
pub use lexer::Token;
pub use read::{SchemaFault, read_schemas};
pub use roles::{Place, Role};
pub use scan::{Counts, Scan};
pub use write::write_schema;
