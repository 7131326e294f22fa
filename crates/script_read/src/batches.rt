//! The updates of a `batch` line.
ghost use Rattle.std.specs.Prelude.{◌≡◌, ◌∷◌, [], ◌+◌, ◌<◌, ◌≤◌, ◌^◌, ◌==◌, not, true, take, length, map, All, IfOk, IfSome, MatchOption, slice_index};
ghost use Rattle.std.specs.List.{list_all};
ghost use Rattle.script_read.specs.declared.batches.TheConstants.{SEMICOLON};
ghost use Rattle.script_read.specs.Words.{seen_word};
ghost use Rattle.script_read.specs.LineFaults.{Gives};
ghost use Rattle.script_read.specs.Batches.{parts_of, update_of_words, written_part, written_updates};

use crate::line_faults::LineFault;
use crate::updates::{missing, read_update};
use crate::verbs::Verb;
use crate::words::{Word, words_in};
use dt_model::{List, MOST_UPDATES, Refusal, UpdateKind, WrittenUpdate};
use std::alloc::Global;
use std::marker::Model;

/// The byte between two updates of a batch.
const SEMICOLON: u8 = b';';

/// A part of a line.
#[derive(Clone, Copy, Debug, PartialEq, Eq)]
struct Part<'a> {
    /// How many bytes of the line are before it.
    before: u32,
    /// Its bytes.
    bytes: &'a [u8],
}

/// The parts of a text between semicolons that are left, which contracts see as the list of them, each
/// as the number of the line's bytes before it and its bytes.
#[derive(Drop)]
struct Parts<'a> {
    /// How many bytes of the line are before those that are left.
    before: u32,
    /// The bytes that are left.
    rest: &'a [u8],
    /// Whether the last part was read.
    is_done: bool,
}

impl<'a> Model for Parts<'a> {
    ghost use Rattle.std.specs.Prelude.{List, ℕ, ◌+◌, ◌<◌, ◌^◌, [], length, if◌then◌else◌};
    ghost use Rattle.script_read.specs.Batches.{parts_of};

    ghost Value = { List (ℕ × List ℕ) };

    ghost view = { λ p. if p.is_done then [] else parts_of p.before p.rest.now };

    ghost invariant = { λ p. p.before + length p.rest.now + 1 < 2 ^ 32 };
}

impl<'a> Parts<'a> {
    /// The parts of a text, where so many bytes of the line are before it.
    fn new(text: &'a [u8], before: u32) -> Parts<'a>
        requires fits { before + length text.now + 1 < 2 ^ 32 }
        ensures parts { result ≡ parts_of before text.now }
    {
        Parts {
            before,
            rest: text,
            is_done: false,
        }
    }

    /// The first part that is left.
    fn next_part(&mut self) -> Option<Part<'a>>
        ensures steps { MatchOption result (self.old ≡ []) (λ p. self.old ≡ (p.before, p.bytes.now) ∷ self.new) }
        ensures fits { IfSome result (λ p. p.before + length p.bytes.now + 1 < 2 ^ 32) }
    {
        if self.is_done {
            return None;
        }
        let end = part_end(self.rest);
        let part = Part {
            before: self.before,
            bytes: &self.rest[..end],
        };
        if end < self.rest.len() {
            self.before += end as u32 + 1;
            self.rest = &self.rest[end + 1..];
        } else {
            self.is_done = true;
        }
        Some(part)
    }
}

/// The place of the first semicolon, or the length of the text where there is none.
fn part_end(text: &[u8]) -> usize
    ensures within { result ≤ length text.now }
    ensures before { list_all (λ b. not (b == SEMICOLON)) (take result text.now) ≡ true }
    ensures at { result < length text.now → slice_index text.now result ≡ SEMICOLON }
{
    for (i, byte) in text.iter().enumerate() {
        if *byte == SEMICOLON {
            return i;
        }
    }
    text.len()
}

/// The update that the words of a part write, where a missing word would stand at this column.
fn read_words(alloc: Global, words: &[Word<'_>], end: u32) -> Result<WrittenUpdate, LineFault>
    ensures reads { Gives (update_of_words end (map seen_word words.now)) result }
    ensures count { IfOk result (λ u. length u.coordinates ≤ length words.now) }
{
    match words {
        [] => Err(missing(end)),
        [verb, rest @ ..] => match Verb::new(verb.bytes) {
            Some(Verb::Set) => read_update(alloc, UpdateKind::Set, rest, end),
            Some(Verb::Add) => read_update(alloc, UpdateKind::Add, rest, end),
            Some(Verb::Get | Verb::Batch | Verb::Query) | None => {
                Err(LineFault::Refused(Refusal::Form {
                    column: verb.column,
                }))
            }
        },
    }
}

/// The update of a part, where so many bytes of the line are before it.
fn read_part(alloc: Global, part: &[u8], before: u32) -> Result<WrittenUpdate, LineFault>
    requires fits { before + length part.now + 1 < 2 ^ 32 }
    ensures reads { Gives (written_part (before, part.now)) result }
    ensures small { IfOk result (λ u. length u.coordinates < 2 ^ 32) }
{
    let words = words_in(alloc, part, before)?;
    let end = before + part.len() as u32 + 1;
    read_words(alloc, words.as_slice(), end)
}

/// The updates of a text, where so many bytes of the line are before it.
pub fn read_updates(
    alloc: Global,
    text: &[u8],
    before: u32,
) -> Result<List<WrittenUpdate>, LineFault>
    requires fits { before + length text.now + 1 < 2 ^ 32 }
    ensures reads { Gives (written_updates (parts_of before text.now)) result }
    ensures small { IfOk result (All (λ u. length u.coordinates < 2 ^ 32)) }
{
    let mut updates = List::new(alloc);
    let mut parts = Parts::new(text, before);
    while let Some(part) = parts.next_part() {
        if updates.len() >= MOST_UPDATES {
            return Err(LineFault::Refused(Refusal::Limit {
                column: part.before,
            }));
        }
        let update = read_part(alloc, part.bytes, part.before)?;
        if updates.push(update).is_err() {
            return Err(LineFault::NoMemory);
        }
    }
    Ok(updates)
}
