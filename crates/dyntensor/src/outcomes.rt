//! How a run of the program ends, and what is written then.
ghost use Rattle.std.specs.Prelude.{◌≡◌, ◌+◌, ◌++◌, ◌≤◌, length};
ghost use Rattle.dyntensor.specs.FaultTexts.{shelf_text};
ghost use Rattle.dyntensor.specs.Outcome.{status_of, due_text, IsWritten};

use crate::fault_lines::FaultLine;
use arrayvec::ArrayVec;
use dt_outside::{Sink, write_all};
use script_read::FileName;

/// The most bytes of the line `shelf FILE`: 7 more than a file's name has.
const SHELF_LINE_LIMIT: usize = 262;

const USAGE: &[u8] = b"usage: dyntensor run MANIFEST | check SCHEMAS | sample N\n";

const NO_MEMORY: &[u8] = b"no memory\n";

/// How a run ends, with what its text needs.
#[derive(Drop)]
pub enum Outcome {
    /// The report of a run, the rows of a check in which all schemas keep the rules, or the text of a sample.
    Report(Vec<u8>),
    /// The usage line.
    Usage,
    /// The rows of a check in which a schema breaks a rule.
    Breaches(Vec<u8>),
    /// The line of a fault of what was read.
    Refused(FaultLine),
    /// The file that the shelf failed to give.
    Unfetched(FileName),
    /// The line `no memory`.
    OutOfMemory,
}

/// Appends bytes, for which there is room.
fn put(line: &mut ArrayVec<u8, SHELF_LINE_LIMIT>, bytes: &[u8])
    requires room { length line.old.items + length bytes.now ≤ 262 }
    ensures value { line.new.items ≡ line.old.items ++ bytes.now }
{
    match line.try_extend_from_slice(bytes) {
        Ok(()) => {}
        Err(_) => unreachable!(),
    }
}

/// The line `shelf FILE`, which takes no memory.
fn shelf_line(file: &FileName) -> ArrayVec<u8, SHELF_LINE_LIMIT>
    ensures value { result.items ≡ shelf_text file.now }
{
    let mut line = ArrayVec::new();
    put(&mut line, b"shelf ");
    put(&mut line, file.bytes());
    put(&mut line, b"\n");
    line
}

/// Writes a text, and answers its status, or 4 where the sink fails.
fn write_text<K: Sink>(sink: &mut K, text: &[u8], status: u8) -> u8
    ensures written { IsWritten status text.now result (K.written sink.old) (K.written sink.new) (K.faults sink.old) (K.faults sink.new) }
{
    match write_all(sink, text) {
        Ok(()) => status,
        Err(_) => 4,
    }
}

/// Writes the text due, and answers the status.
pub fn write_outcome<K: Sink>(sink: &mut K, outcome: &Outcome) -> u8
    ensures written { IsWritten (status_of outcome.now) (due_text outcome.now) result (K.written sink.old) (K.written sink.new) (K.faults sink.old) (K.faults sink.new) }
{
    match outcome {
        Outcome::Report(text) => write_text(sink, text.as_slice(), 0),
        Outcome::Usage => write_text(sink, USAGE, 1),
        Outcome::Breaches(text) => write_text(sink, text.as_slice(), 2),
        Outcome::Refused(line) => write_text(sink, line.bytes(), 2),
        Outcome::Unfetched(file) => write_text(sink, shelf_line(file).as_slice(), 3),
        Outcome::OutOfMemory => write_text(sink, NO_MEMORY, 5),
    }
}
