//! The line that says why a file is refused.
ghost use Rattle.std.specs.Prelude.{◌≡◌, ◌++◌, ◌∷◌, IfOk, OnOk};
ghost use Rattle.std.specs.Fmt.{decimal};
ghost use Rattle.std.specs.List.{join_with_byte};
ghost use Rattle.dyntensor.specs.FaultTexts.{refused_text, cause_words, breach_words, fault_words};

use crate::faults::{Cause, Fault};
use dt_model::NoMemory;
use dt_text::{append, write_number};
use schema_check::Breach;
use std::alloc::Global;
use std::marker::Model;
use tns_io::FileCause;

/// The line `refused FILE LINE CAUSE` of a fault. Clauses see the fault.
#[derive(Drop)]
pub struct FaultLine {
    fault: Fault,
    text: Vec<u8>,
}

impl Model for FaultLine {
    ghost use Rattle.std.specs.Prelude.{◌≡◌};
    ghost use Rattle.dyntensor.specs.declared.faults.Fault.{Fault};
    ghost use Rattle.dyntensor.specs.FaultTexts.{refused_text};

    ghost Value = { Fault };

    ghost view = { λ l. l.fault };

    ghost invariant = { λ l. l.text.items ≡ refused_text l.fault };
}

/// The words of a line's cause.
fn cause_text(cause: FileCause) -> &'static str
    ensures value { result.now ≡ join_with_byte 32 (cause_words cause) }
{
    match cause {
        FileCause::Rank => "rank",
        FileCause::Form => "form",
        FileCause::Range => "range",
        FileCause::NotWhole => "whole",
        FileCause::TooLarge => "number",
        FileCause::Limit => "limit",
        FileCause::Order => "order",
        FileCause::Name => "name",
        FileCause::Twice => "twice",
        FileCause::NotBuilt => "not built",
    }
}

/// Appends a word and a number.
fn write_placed(word: &str, number: u32, text: &mut Vec<u8>) -> Result<(), NoMemory>
    ensures ok { OnOk result (text.new.items ≡ text.old.items ++ word.now ++ 32 ∷ decimal number) }
{
    append(text, word.as_bytes())?;
    append(text, b" ")?;
    write_number(number, text)
}

/// Appends the words of a broken rule.
pub fn write_breach(breach: &Breach, text: &mut Vec<u8>) -> Result<(), NoMemory>
    ensures ok { OnOk result (text.new.items ≡ text.old.items ++ join_with_byte 32 (breach_words breach.now)) }
{
    write_placed("breach", u32::from(breach.rule), text)?;
    append(text, b" ")?;
    append(text, breach.kind.bytes())
}

/// Appends the words of a fault's cause.
fn write_cause(cause: &Cause, text: &mut Vec<u8>) -> Result<(), NoMemory>
    ensures ok { OnOk result (text.new.items ≡ text.old.items ++ join_with_byte 32 (fault_words cause.now)) }
{
    match cause {
        Cause::Line(cause) => append(text, cause_text(*cause).as_bytes()),
        Cause::FormAt { column } => write_placed("form", *column, text),
        Cause::LimitAt { column } => write_placed("limit", *column, text),
        Cause::Breach(breach) => write_breach(breach, text),
    }
}

/// The text of a fault.
fn fault_text(alloc: Global, fault: &Fault) -> Result<Vec<u8>, NoMemory>
    ensures value { IfOk result (λ text. text.items ≡ refused_text fault.now) }
{
    let mut text = Vec::new(alloc);
    append(&mut text, b"refused ")?;
    append(&mut text, fault.file.bytes())?;
    append(&mut text, b" ")?;
    write_number(fault.line, &mut text)?;
    append(&mut text, b" ")?;
    write_cause(&fault.cause, &mut text)?;
    append(&mut text, b"\n")?;
    Ok(text)
}

impl FaultLine {
    /// The line of a fault.
    pub fn new(alloc: Global, fault: Fault) -> Result<FaultLine, NoMemory>
        ensures value { IfOk result (λ line. line ≡ fault) }
    {
        let text = fault_text(alloc, &fault)?;
        Ok(FaultLine { fault, text })
    }

    /// The line's bytes.
    pub fn bytes(&self) -> &[u8]
        ensures value { result.now ≡ refused_text self.now }
    {
        self.text.as_slice()
    }
}
