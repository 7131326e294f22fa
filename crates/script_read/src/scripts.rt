//! The verdicts on a script's lines.
ghost use Rattle.std.specs.Prelude.{◌≡◌, ◌≤◌, ◌<◌, ◌+◌, ◌^◌, true, length, map, All, IfOk};
ghost use Rattle.dt_model.specs.declared.limits.TheConstants.{LINE_LIMIT, FILE_LIMIT};
ghost use Rattle.dt_model.specs.Worlds.{decls_are_valid, updates_in};
ghost use Rattle.tns_io.specs.Faults.{Tells};
ghost use Rattle.script_read.specs.Readings.{at_line};
ghost use Rattle.script_read.specs.Words.{columned_words, seen_word};
ghost use Rattle.script_read.specs.Scripts.{line_verdict, verdict_behind, script_of};
ghost use Rattle.script_read.specs.Sound.{IsSoundScript};

use crate::calls::read_call;
use crate::judging::judge;
use crate::line_faults::LineFault;
use crate::manifests::fault_at;
use crate::words::{Word, words_in};
use dt_model::{Call, Decls, MOST_CALLS, NoMemory, Verdict, Verdicts};
use dt_text::{content_lines, end_column, is_within_limit};
use std::alloc::Global;
use tns_io::{FileCause, ReadFault};

/// How many updates a verdict's call has.
fn updates_in(verdict: &Verdict) -> usize
    ensures value { result ≡ updates_in verdict.now }
{
    match verdict {
        Verdict::Accepted(Call::Batch(updates)) => updates.len(),
        _ => 0,
    }
}

/// The verdict on a line that has these words.
fn read_verdict(
    alloc: Global,
    decls: &Decls,
    line: &[u8],
    words: &[Word<'_>],
) -> Result<Verdict, NoMemory>
    requires few { length decls.now.tensors < 2 ^ 32 }
    requires short { length line.now ≤ LINE_LIMIT }
    requires few_words { length words.now ≤ LINE_LIMIT }
    requires words { map seen_word words.now ≡ columned_words 0 line.now }
    requires within { All (λ w. w.column ≤ LINE_LIMIT + 1) words.now }
    ensures value { IfOk result (λ v. v ≡ line_verdict decls.now line.now) }
{
    match read_call(alloc, line, words, end_column(line) as u32) {
        Ok(call) => judge(alloc, decls, call),
        Err(LineFault::Refused(refusal)) => Ok(Verdict::Refused(refusal)),
        Err(LineFault::NoMemory) => Err(NoMemory),
    }
}

/// The verdict on a line behind so many lines, where so many updates more may be accepted; or the
/// script's fault there.
fn read_line(
    alloc: Global,
    decls: &Decls,
    calls: usize,
    left: u32,
    number: u32,
    line: &[u8],
) -> Result<Verdict, ReadFault>
    requires few { length decls.now.tensors < 2 ^ 32 }
    ensures reads { Tells (at_line number (verdict_behind decls.now calls left line.now)) result }
    ensures left { IfOk result (λ v. updates_in v ≤ left) }
{
    if !(is_within_limit(line) && calls < MOST_CALLS as usize) {
        return Err(fault_at(number, FileCause::Limit));
    }
    let Ok(words) = words_in(alloc, line, 0) else {
        return Err(ReadFault::NoMemory);
    };
    let Ok(verdict) = read_verdict(alloc, decls, line, words.as_slice()) else {
        return Err(ReadFault::NoMemory);
    };
    if updates_in(&verdict) <= left as usize {
        Ok(verdict)
    } else {
        Err(fault_at(number, FileCause::Limit))
    }
}

/// The verdicts on a script's lines that aren't skipped, of which at most `most` updates may be
/// accepted; or the script's first fault.
pub fn read_script(
    alloc: Global,
    decls: &Decls,
    text: &[u8],
    most: u32,
) -> Result<Verdicts, ReadFault>
    requires few { length text.now ≤ FILE_LIMIT }
    requires decls { decls_are_valid decls.now ≡ true }
    ensures reads { Tells (script_of decls.now most text.now) result }
    ensures sound { IfOk result (IsSoundScript decls.now most) }
{
    let mut verdicts = Verdicts::new(alloc);
    let mut left = most;
    let mut lines = content_lines(text);
    while let Some(line) = lines.next() {
        let verdict = read_line(alloc, decls, verdicts.len(), left, line.number, line.line)?;
        left -= updates_in(&verdict) as u32;
        if verdicts.push(verdict).is_err() {
            return Err(ReadFault::NoMemory);
        }
    }
    Ok(verdicts)
}
