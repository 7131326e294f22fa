//! The rows of a report.
ghost use Rattle.std.specs.Prelude.{◌≡◌, ◌≤◌, ◌++◌, ◌∷◌, [], All, codes, OnOk, length, map};
ghost use Rattle.std.specs.Fmt.{decimal};
ghost use Rattle.std.specs.List.{join_with_byte};
ghost use Rattle.dt_model.specs.declared.limits.TheConstants.{MOST_CALLS, MOST_SESSIONS};
ghost use Rattle.dt_model.specs.Texts.{text_of};
ghost use Rattle.dt_model.specs.Report.{history_rows, pair_row, refusal_words, reply_rows, turn_row};
ghost use Rattle.dyntensor.specs.Rows.{numbered_rows, outcome_rows, outcomes_rows};

use dt_model::{Entry, List, Name, NoMemory, Nonzeros, Refusal, Reply};
use dt_text::{append, write_number, write_value};
use itoa::Buffer;
use sessions::Outcome;
use tns_io::write_tns;

/// Appends the row that begins a session.
fn write_session(number: u32, text: &mut Vec<u8>) -> Result<(), NoMemory>
    ensures ok { OnOk result (text.new.items ≡ text.old.items ++ text_of ((codes "session" ∷ decimal number ∷ []) ∷ [])) }
{
    write_numbered("session ", number, text)?;
    append(text, b"\n")
}

/// Appends the rest of the row of a query's reply, and the row of each nonzero.
fn write_result(pairs: &Nonzeros, text: &mut Vec<u8>) -> Result<(), NoMemory>
    ensures ok { OnOk result (text.new.items ≡ text.old.items ++ (codes " result " ++ decimal (length pairs.now) ++ 10 ∷ []) ++ text_of (map pair_row pairs.now)) }
{
    write_counted(" result ", pairs.len(), text)?;
    append(text, b"\n")?;
    write_tns(pairs, text)
}

/// Appends the rows of a call's reply.
fn write_reply(number: u32, reply: &Reply, text: &mut Vec<u8>) -> Result<(), NoMemory>
    ensures ok { OnOk result (text.new.items ≡ text.old.items ++ text_of (reply_rows number reply.now)) }
{
    write_number(number, text)?;
    match reply {
        Reply::Done => append(text, b" ok\n"),
        Reply::Value(value) => {
            append(text, b" value ")?;
            write_value(*value, text)?;
            append(text, b"\n")
        }
        Reply::Result(pairs) => write_result(pairs, text),
    }
}

/// Appends the row of a call that ran out of memory.
fn write_no_memory(number: u32, text: &mut Vec<u8>) -> Result<(), NoMemory>
    ensures ok { OnOk result (text.new.items ≡ text.old.items ++ text_of ((decimal number ∷ codes "no" ∷ codes "memory" ∷ []) ∷ [])) }
{
    write_number(number, text)?;
    append(text, b" no memory\n")
}

/// Appends a name between two texts.
fn write_name(before: &str, name: &Name, after: &str, text: &mut Vec<u8>) -> Result<(), NoMemory>
    ensures ok { OnOk result (text.new.items ≡ text.old.items ++ before.now ++ name.now ++ after.now) }
{
    append(text, before.as_bytes())?;
    append(text, name.bytes())?;
    append(text, after.as_bytes())
}

/// Appends a number behind a text.
pub fn write_numbered(before: &str, number: u32, text: &mut Vec<u8>) -> Result<(), NoMemory>
    ensures ok { OnOk result (text.new.items ≡ text.old.items ++ before.now ++ decimal number) }
{
    append(text, before.as_bytes())?;
    write_number(number, text)
}

/// Appends a count behind a text.
pub fn write_counted(before: &str, count: usize, text: &mut Vec<u8>) -> Result<(), NoMemory>
    ensures ok { OnOk result (text.new.items ≡ text.old.items ++ before.now ++ decimal count) }
{
    append(text, before.as_bytes())?;
    let mut buffer = Buffer::new();
    append(text, buffer.format(count as u64).as_bytes())
}

/// Appends two numbers.
fn write_numbers(first: u32, second: u32, text: &mut Vec<u8>) -> Result<(), NoMemory>
    ensures ok { OnOk result (text.new.items ≡ text.old.items ++ decimal first ++ 32 ∷ decimal second) }
{
    write_number(first, text)?;
    write_numbered(" ", second, text)
}

/// Appends the words of a refusal.
fn write_reason(refusal: &Refusal, text: &mut Vec<u8>) -> Result<(), NoMemory>
    ensures ok { OnOk result (text.new.items ≡ text.old.items ++ join_with_byte 32 (refusal_words refusal.now)) }
{
    match refusal {
        Refusal::Form { column } => write_numbered("form ", *column, text),
        Refusal::Limit { column } => write_numbered("limit ", *column, text),
        Refusal::Name { name } => write_name("name ", name, "", text),
        Refusal::Rank { name, given, order } => {
            write_name("rank ", name, " ", text)?;
            write_numbers(*given, *order, text)
        }
        Refusal::Range { name, mode, dim } => {
            write_name("range ", name, " ", text)?;
            write_numbers(*mode, *dim, text)
        }
        Refusal::NotWhole => append(text, b"number whole"),
        Refusal::TooLarge => append(text, b"number range"),
        Refusal::Dimension { var, first, second } => {
            write_name("dimension ", var, " ", text)?;
            write_numbers(*first, *second, text)
        }
        Refusal::Repeated { var } => write_name("repeated ", var, "", text),
        Refusal::Access { term } => write_numbered("access ", *term, text),
        Refusal::Uncovered { term, var } => {
            write_numbered("uncovered ", *term, text)?;
            write_name(" ", var, "", text)
        }
    }
}

/// Appends the row of a line that is refused.
fn write_refusal(number: u32, refusal: &Refusal, text: &mut Vec<u8>) -> Result<(), NoMemory>
    ensures ok { OnOk result (text.new.items ≡ text.old.items ++ text_of ((decimal number ∷ codes "refused" ∷ refusal_words refusal.now) ∷ [])) }
{
    write_number(number, text)?;
    append(text, b" refused ")?;
    write_reason(refusal, text)?;
    append(text, b"\n")
}

/// Appends the rows of a line's outcome.
fn write_line(number: u32, outcome: &Outcome, text: &mut Vec<u8>) -> Result<(), NoMemory>
    ensures ok { OnOk result (text.new.items ≡ text.old.items ++ text_of (outcome_rows number outcome.now)) }
{
    match outcome {
        Outcome::Refused(refusal) => write_refusal(number, refusal, text),
        Outcome::Reply(reply) => write_reply(number, reply, text),
        Outcome::NoMemory => write_no_memory(number, text),
    }
}

/// Appends the rows of a session's lines.
fn write_lines(outcomes: &[Outcome], text: &mut Vec<u8>) -> Result<(), NoMemory>
    requires few { length outcomes.now ≤ MOST_CALLS }
    ensures ok { OnOk result (text.new.items ≡ text.old.items ++ text_of (numbered_rows outcome_rows outcomes.now)) }
{
    for (i, outcome) in outcomes.iter().enumerate() {
        write_line(i as u32 + 1, outcome, text)?;
    }
    Ok(())
}

/// Appends the rows of a session: its number, and those of its lines.
fn write_outcomes(number: u32, outcomes: &[Outcome], text: &mut Vec<u8>) -> Result<(), NoMemory>
    requires few { length outcomes.now ≤ MOST_CALLS }
    ensures ok { OnOk result (text.new.items ≡ text.old.items ++ text_of (outcomes_rows number outcomes.now)) }
{
    write_session(number, text)?;
    write_lines(outcomes, text)
}

/// Appends the rows of all sessions.
pub fn write_sessions(sessions: &[List<Outcome>], text: &mut Vec<u8>) -> Result<(), NoMemory>
    requires few { (length sessions.now ≤ MOST_SESSIONS) × All (λ outcomes. length outcomes ≤ MOST_CALLS) sessions.now }
    ensures ok { OnOk result (text.new.items ≡ text.old.items ++ text_of (numbered_rows outcomes_rows sessions.now)) }
{
    for (i, outcomes) in sessions.iter().enumerate() {
        write_outcomes(i as u32 + 1, outcomes.as_slice(), text)?;
    }
    Ok(())
}

/// Appends the rows of the history.
pub fn write_history(entries: &[Entry], text: &mut Vec<u8>) -> Result<(), NoMemory>
    ensures ok { OnOk result (text.new.items ≡ text.old.items ++ text_of (history_rows entries.now)) }
{
    write_counted("history ", entries.len(), text)?;
    append(text, b"\n")?;
    write_turns(entries, text)
}

/// Appends the row of each turn.
fn write_turns(entries: &[Entry], text: &mut Vec<u8>) -> Result<(), NoMemory>
    ensures ok { OnOk result (text.new.items ≡ text.old.items ++ text_of (map turn_row entries.now)) }
{
    for entry in entries {
        write_number(entry.turn.session, text)?;
        append(text, b" ")?;
        write_number(entry.turn.number, text)?;
        append(text, b"\n")?;
    }
    Ok(())
}

/// Appends the rows of a printed tensor.
pub fn write_tensor(name: &Name, nonzeros: &Nonzeros, text: &mut Vec<u8>) -> Result<(), NoMemory>
    ensures ok { OnOk result (text.new.items ≡ text.old.items ++ text_of ((codes "tensor" ∷ name.now ∷ decimal (length nonzeros.now) ∷ []) ∷ map pair_row nonzeros.now)) }
{
    write_name("tensor ", name, "", text)?;
    write_counted(" ", nonzeros.len(), text)?;
    append(text, b"\n")?;
    write_tns(nonzeros, text)
}
