//! The calls that the lines of a script write.
ghost use Rattle.std.specs.Prelude.{◌≡◌, ◌<◌, ◌≤◌, ◌+◌, ◌^◌, map, length, drop, All, IfOk};
ghost use Rattle.dt_model.specs.declared.limits.TheConstants.{LINE_LIMIT};
ghost use Rattle.index_read.specs.Faults.{column_of};
ghost use Rattle.script_read.specs.Words.{seen_word};
ghost use Rattle.script_read.specs.LineFaults.{Gives, IsLineFault};
ghost use Rattle.script_read.specs.Judging.{CanBeJudged};
ghost use Rattle.script_read.specs.Batches.{without_blank_end, written_batch};
ghost use Rattle.script_read.specs.Calls.{written_single, written_get, written_query, call_of_words};

use crate::batches::read_updates;
use crate::line_faults::LineFault;
use crate::updates::{missing, read_coordinates, read_name, read_update};
use crate::verbs::Verb;
use crate::words::Word;
use dt_model::{List, Refusal, UpdateKind, WrittenCall};
use dt_text::end_column;
use index_read::{StmtFault, read_stmt};
use std::alloc::Global;

/// `NAME C1 .. Cr VALUE`, as a batch of one update.
fn read_single(
    alloc: Global,
    kind: UpdateKind,
    words: &[Word<'_>],
    end: u32,
) -> Result<WrittenCall, LineFault>
    requires few { length words.now < 2 ^ 32 }
    ensures reads { Gives (written_single kind end (map seen_word words.now)) result }
    ensures judged { IfOk result CanBeJudged }
{
    let update = read_update(alloc, kind, words, end)?;
    let mut updates = List::new(alloc);
    match updates.push(update) {
        Ok(()) => Ok(WrittenCall::Batch(updates)),
        Err(_) => Err(LineFault::NoMemory),
    }
}

/// `NAME C1 .. Cr`.
fn read_get(alloc: Global, words: &[Word<'_>], end: u32) -> Result<WrittenCall, LineFault>
    requires few { length words.now < 2 ^ 32 }
    ensures reads { Gives (written_get end (map seen_word words.now)) result }
    ensures judged { IfOk result CanBeJudged }
{
    match words {
        [] => Err(missing(end)),
        [name, coordinates @ ..] => {
            let name = read_name(name)?;
            let coordinates = read_coordinates(alloc, coordinates)?;
            Ok(WrittenCall::Get { name, coordinates })
        }
    }
}

/// What is behind so many bytes of a line.
fn rest_behind(line: &[u8], before: usize) -> &[u8]
    ensures value { result.now ≡ drop before line.now }
{
    match line.get(before..) {
        Some(rest) => rest,
        None => &[],
    }
}

/// Why a text is no statement, where so many bytes of the line are before it.
fn stmt_fault(fault: StmtFault, before: u32) -> LineFault
    requires within { before + column_of fault < 2 ^ 32 }
    ensures value { IsLineFault before fault result }
{
    match fault {
        StmtFault::Form { column } => LineFault::Refused(Refusal::Form {
            column: before + column,
        }),
        StmtFault::Limit { column } => LineFault::Refused(Refusal::Limit {
            column: before + column,
        }),
        StmtFault::NoMemory => LineFault::NoMemory,
    }
}

/// The query of the statement that is behind so many bytes of a line.
fn read_query(alloc: Global, line: &[u8], before: u32) -> Result<WrittenCall, LineFault>
    requires short { length line.now ≤ LINE_LIMIT }
    requires within { before ≤ LINE_LIMIT + 5 }
    ensures reads { Gives (written_query before line.now) result }
    ensures judged { IfOk result CanBeJudged }
{
    match read_stmt(alloc, rest_behind(line, before as usize)) {
        Ok(stmt) => Ok(WrittenCall::Query(stmt)),
        Err(fault) => Err(stmt_fault(fault, before)),
    }
}

/// A line without the blanks at its end.
fn without_blank_end(line: &[u8]) -> &[u8]
    ensures value { result.now ≡ without_blank_end line.now }
{
    &line[..end_column(line) - 1]
}

/// The batch of the updates that are behind so many bytes of a line.
fn read_batch(alloc: Global, line: &[u8], before: u32) -> Result<WrittenCall, LineFault>
    requires short { length line.now ≤ LINE_LIMIT }
    requires within { before ≤ LINE_LIMIT + 5 }
    ensures reads { Gives (written_batch before line.now) result }
    ensures judged { IfOk result CanBeJudged }
{
    let text = rest_behind(without_blank_end(line), before as usize);
    let updates = read_updates(alloc, text, before)?;
    Ok(WrittenCall::Batch(updates))
}

/// The call that the words of a line write, or the column of the first fault of its form. Behind the
/// verbs of a batch and of a query, which have five bytes, a line isn't read by its words.
pub fn read_call(
    alloc: Global,
    line: &[u8],
    words: &[Word<'_>],
    end: u32,
) -> Result<WrittenCall, LineFault>
    requires short { length line.now ≤ LINE_LIMIT }
    requires few { length words.now < 2 ^ 32 }
    requires within { All (λ w. w.column ≤ LINE_LIMIT + 1) words.now }
    ensures reads { Gives (call_of_words line.now end (map seen_word words.now)) result }
    ensures judged { IfOk result CanBeJudged }
{
    match words {
        [] => Err(missing(end)),
        [verb, rest @ ..] => match Verb::new(verb.bytes) {
            None => Err(LineFault::Refused(Refusal::Form {
                column: verb.column,
            })),
            Some(Verb::Set) => read_single(alloc, UpdateKind::Set, rest, end),
            Some(Verb::Add) => read_single(alloc, UpdateKind::Add, rest, end),
            Some(Verb::Get) => read_get(alloc, rest, end),
            Some(Verb::Batch) => read_batch(alloc, line, verb.column + 4),
            Some(Verb::Query) => read_query(alloc, line, verb.column + 4),
        },
    }
}
