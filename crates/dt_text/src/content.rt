//! The lines of a text that aren't skipped, each with its number.
ghost use Rattle.std.specs.Prelude.{◌≡◌, ◌+◌, ◌-◌, ◌<◌, ◌^◌, length, nat_le};
ghost use Rattle.std.specs.Iterator.{YieldsFirstBy, item_count};
ghost use Rattle.dt_text.specs.Content.{content_lines, is_skipped, is_within_limit};

use crate::pieces::is_blank_byte;
use crate::walks::{LineSpans, lines};
use dt_model::LINE_LIMIT;
use std::marker::Model;

/// The byte that begins a line which is a comment.
const COMMENT: u8 = b'#';

/// A line that isn't skipped, which contracts see as its number and its bytes.
#[derive(Clone, Copy, Debug, PartialEq, Eq)]
pub struct ContentLine<'a> {
    /// Its number among all lines of the text, counted from 1.
    pub number: u32,
    /// Its bytes, without its end.
    pub line: &'a [u8],
}

/// The lines that aren't skipped and are left, which contracts see as the list of their numbers and
/// bytes.
#[derive(Drop)]
pub struct ContentLines<'a> {
    text: &'a [u8],
    spans: LineSpans<'a>,
    number: u32,
}

impl<'a> Model for ContentLines<'a> {
    ghost use Rattle.std.specs.Prelude.{List, ℕ, ◌+◌, ◌<◌, ◌^◌, length, map};
    ghost use Rattle.std.specs.List.{All};
    ghost use Rattle.dt_text.specs.Spans.{bytes_of, IsSpanOf};
    ghost use Rattle.dt_text.specs.Content.{content_from};

    ghost Value = { List (ℕ × List ℕ) };

    ghost view = { λ c. content_from c.number (map (bytes_of c.text.now) c.spans) };

    ghost invariant = { λ c. (c.number + length c.spans < 2 ^ 32) × All (IsSpanOf c.text.now) c.spans };
}

/// The lines of a text that aren't skipped, in order. A text may have at most 2^32 - 2 bytes, so that
/// each line has a number.
pub fn content_lines(text: &[u8]) -> ContentLines<'_>
    requires few { length text.now < 2 ^ 32 - 1 }
    ensures lines { result ≡ content_lines text.now }
{
    ContentLines {
        text,
        spans: lines(text),
        number: 1,
    }
}

impl<'a> Iterator for ContentLines<'a> {
    type Item = ContentLine<'a>;

    ghost next_gives = { YieldsFirstBy (λ c. (c.number, c.line.now)) (λ lines. lines) };

    ghost remaining = { item_count (λ lines. lines) };

    fn next(&mut self) -> Option<ContentLine<'a>> {
        while let Some(span) = self.spans.next() {
            let number = self.number;
            let line = &self.text[span.from..span.to];
            self.number += 1;
            if !is_skipped(line) {
                return Some(ContentLine { number, line });
            }
        }
        None
    }
}

/// Whether a line is skipped. It takes the time of the line's leading blanks.
fn is_skipped(line: &[u8]) -> bool
    ensures value { result ≡ is_skipped line.now }
{
    for byte in line {
        if !is_blank_byte(*byte) {
            return *byte == COMMENT;
        }
    }
    true
}

/// Whether a line has at most `LINE_LIMIT` bytes.
pub fn is_within_limit(line: &[u8]) -> bool
    ensures value { result ≡ is_within_limit line.now }
{
    line.len() <= LINE_LIMIT
}
