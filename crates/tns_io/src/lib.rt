//! Nonzeros as text.
//!
//! `read_tns` reads the pairs of a `.tns` text, or answers its first fault; `write_tns` writes pairs.
//! Clauses see pairs as the list of coordinates and values. Read `specs/Tns.antt` first: `tns_of` is
//! what a text reads as, `tns_rows` what is written.
//! Coordinates are counted from 0 in pairs and from 1 in texts, and lines from 1. A line has at most
//! `LINE_LIMIT` bytes and a text at most `FILE_LIMIT`. Values are taken modulo 2^64.
//! Not here: numerals, lines and words (`dt_text`), adding up pairs (`dt_model`), files (`script_read`).
#![tactic(auto)]

mod faults;
mod pair_lines;
mod reader;
#[cfg(test)]
mod tests;
mod writer;

pub use faults::{FileCause, FileFault, ReadFault};
pub use reader::read_tns;
pub use writer::write_tns;
