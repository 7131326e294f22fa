//! The pair of one line.

ghost use Rattle.std.specs.Prelude.{◌≡◌, ◌+◌, ◌≤◌, ◌==◌, [], ◌∷◌, List, All, length, map, IfOk, MatchOption, if◌then◌else◌};
ghost use Rattle.dt_model.specs.Texts.{words_of};
ghost use Rattle.dt_text.specs.Spans.{bytes_of, IsSpanOf};
ghost use Rattle.tns_io.specs.Tns.{coordinate_of, number_at, pair_of, cause_or_rank};

use crate::faults::FileCause;
use dt_model::Coords;
use dt_text::{IndexFault, NumFault, WordSpans, read_index, read_value, words};

/// The pair of a line that has a dimension for each mode.
pub(crate) fn read_pair(line: &[u8], dims: &[u32]) -> Result<(Coords, u64), FileCause>
    requires few { length dims.now ≤ 8 }
    ensures value { result ≡ pair_of dims.now (words_of line.now) }
{
    let mut at = Coords::new();
    let mut spans = words(line);
    for (i, dim) in dims.iter().enumerate() {
        match next_word(line, &mut spans) {
            None => return Err(FileCause::Rank),
            Some(word) => match read_coordinate(word, *dim) {
                Ok(coordinate) => at.push(coordinate),
                Err(cause) => return Err(fault(cause, spans, dims.len() - i)),
            },
        }
    }
    match next_word(line, &mut spans) {
        None => Err(FileCause::Rank),
        Some(word) => match next_word(line, &mut spans) {
            Some(_) => Err(FileCause::Rank),
            None => Ok((at, read_number(word)?)),
        },
    }
}

/// The next word of a line.
fn next_word<'a>(line: &'a [u8], spans: &mut WordSpans<'_>) -> Option<&'a [u8]>
    requires inside { All (IsSpanOf line.now) spans.old }
    ensures inside { All (IsSpanOf line.now) spans.new }
    ensures words { MatchOption result (map (bytes_of line.now) spans.old ≡ []) (λ word. map (bytes_of line.now) spans.old ≡ word.now ∷ map (bytes_of line.now) spans.new) }
{
    match spans.next() {
        None => None,
        Some(span) => Some(&line[span.from..span.to]),
    }
}

/// A coordinate of a mode with a dimension, which the word counts from 1.
fn read_coordinate(word: &[u8], dim: u32) -> Result<u32, FileCause>
    ensures value { result ≡ coordinate_of dim word.now }
{
    match read_index(word) {
        Ok(number) => {
            if 1 <= number && number <= dim {
                Ok(number - 1)
            } else {
                Err(FileCause::Range)
            }
        }
        Err(IndexFault::Form) => Err(FileCause::Form),
        Err(IndexFault::Range) => Err(FileCause::Range),
    }
}

/// The value of a word.
fn read_number(word: &[u8]) -> Result<u64, FileCause>
    ensures value { result ≡ number_at word.now }
{
    match read_value(word) {
        Ok(value) => Ok(value),
        Err(NumFault::Form) => Err(FileCause::Form),
        Err(NumFault::NotWhole) => Err(FileCause::NotWhole),
        Err(NumFault::Range) => Err(FileCause::TooLarge),
    }
}

/// The fault of a word, unless the count of words behind it is another than wanted.
fn fault(cause: FileCause, behind: WordSpans<'_>, wanted: usize) -> FileCause
    ensures value { result ≡ cause_or_rank cause (length behind.entry) wanted }
{
    if are_as_many(behind, wanted) {
        cause
    } else {
        FileCause::Rank
    }
}

/// Whether so many words are left.
fn are_as_many(mut spans: WordSpans<'_>, count: usize) -> bool
    ensures value { result ≡ (length spans.entry == count) }
{
    for _i in 0..count {
        match spans.next() {
            Some(_) => {}
            None => return false,
        }
    }
    match spans.next() {
        Some(_) => false,
        None => true,
    }
}
