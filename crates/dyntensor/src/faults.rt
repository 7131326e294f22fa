//! Faults of the files that a command reads.

ghost use Rattle.std.specs.Prelude.{◌≡◌};
ghost use Rattle.dyntensor.specs.Files.{fault_in, too_large, schema_fault_in};

use schema_check::Breach;
use schema_read::SchemaFault;
use script_read::FileName;
use tns_io::{FileCause, FileFault};

/// Why a file is refused.
#[derive(Debug, Drop)]
pub enum Cause {
    /// A cause of a line, as of a manifest, a script or a file of data.
    Line(FileCause),
    /// No schema file has at this column what stands there.
    FormAt { column: u32 },
    /// A schema file passes a limit at this column.
    LimitAt { column: u32 },
    /// A schema breaks a rule.
    Breach(Breach),
}

/// The first fault of what a command reads. Line 0 is the file as a whole.
#[derive(Debug, Drop)]
pub struct Fault {
    /// The file.
    pub file: FileName,
    /// The line, counted from 1.
    pub line: u32,
    /// The cause.
    pub cause: Cause,
}

/// A fault of a line of a named file.
pub fn fault_in(file: &FileName, fault: FileFault) -> Fault
    ensures value { result ≡ fault_in file.now fault }
{
    Fault {
        file: file.copy(),
        line: fault.line,
        cause: Cause::Line(fault.cause),
    }
}

/// The fault of a file that is longer than the limit.
pub fn too_large(file: &FileName) -> Fault
    ensures value { result ≡ too_large file.now }
{
    fault_in(
        file,
        FileFault {
            line: 0,
            cause: FileCause::Limit,
        },
    )
}

/// A fault of a schema file; that of a text that is read out of memory has no place.
pub fn schema_fault_in(file: &FileName, fault: SchemaFault) -> Fault
    ensures value { result ≡ schema_fault_in file.now fault }
{
    match fault {
        SchemaFault::Form { line, column } => Fault {
            file: file.copy(),
            line,
            cause: Cause::FormAt { column },
        },
        SchemaFault::Limit { line, column } => Fault {
            file: file.copy(),
            line,
            cause: Cause::LimitAt { column },
        },
        SchemaFault::NoMemory => too_large(file),
    }
}
