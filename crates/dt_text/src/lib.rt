//! Lines, words and numerals, read and written exactly.
//!
//! `content_lines` walks over the lines of a text that aren't skipped, with their numbers; `lines` and
//! `words` over all lines of a text and all words of a line, as spans. `read_index` and `read_value`
//! read a numeral, `write_number` and `write_value` write one.
//! Clauses see a text as its list of bytes, and cite `lines_of`, `words_of`, `number_of` and
//! `value_word` of dt_model. Read `specs/Content.antt` and `specs/Values.antt` first.
//! A span counts bytes from 0, its end excluded; lines and columns are counted from 1. An index is below
//! 2^32; a value is a whole number from -2^63 to 2^64 - 1, taken modulo 2^64.
//! `token_at` finds the tokens of a text, for every lexical grammar.
//! Not here: what a line or a token means (`script_read`, `tns_io`, `index_read`, `schema_read`).
#![tactic(auto)]

mod content;
mod lexer;
mod numerals;
mod pieces;
mod spans;
#[cfg(test)]
mod tests;
mod values;
mod walks;

pub use content::{ContentLine, ContentLines, content_lines, is_within_limit};
pub use lexer::{LexicalGrammar, digit_run, is_name_start, name_run, token_at};
pub use numerals::{IndexFault, append, read_index, read_whole, write_number, write_value};
pub use pieces::end_column;
pub use spans::Span;
pub use values::{NumFault, read_value};
pub use walks::{LineSpans, WordSpans, lines, words};
