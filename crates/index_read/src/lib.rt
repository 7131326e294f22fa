//! Index notation as a tree, and its canonical text.
//!
//! `read_stmt` reads a statement or answers its first fault; `write_stmt` appends its canonical text.
//! Clauses see a text as its list of bytes and a statement as dt_model's tree. Read `StmtText` in
//! `specs/Meaning.antt` first; `specs/Grammar.antt` has statements as they are written.
//! Columns count from 1 and are bytes of the text that is read. The limits are dt_model's.
//! Not here: whether a statement fits the declared tensors (`index_check`).
#![tactic(auto)]

mod lexer;
mod read;
mod roles;
mod scan;
#[cfg(test)]
mod tests;
mod trees;
mod write;

pub use lexer::Token;
pub use read::{StmtFault, read_stmt};
pub use roles::{Place, Role};
pub use scan::Scan;
pub use write::{Precedence, write_stmt};
