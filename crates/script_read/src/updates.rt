//! The updates that words write.
ghost use Rattle.std.specs.Prelude.{◌≡◌, ◌≤◌, map, length, IfOk};
ghost use Rattle.script_read.specs.Words.{seen_word};
ghost use Rattle.dt_model.specs.declared.replies.Refusal.TheVariants.{Form};
ghost use Rattle.script_read.specs.LineFaults.{Gives};
ghost use Rattle.script_read.specs.Parts.{coordinates_and_number};
ghost use Rattle.script_read.specs.declared.line_faults.LineFault.TheVariants as faults;
ghost use Rattle.script_read.specs.Updates.{written_name, written_coordinate, written_number, written_coordinates, written_arguments, written_update};

use crate::line_faults::LineFault;
use crate::words::Word;
use dt_model::{List, Name, Refusal, UpdateKind, WrittenCoordinate, WrittenNumber, WrittenUpdate};
use dt_text::{IndexFault, NumFault, read_index, read_value};
use std::alloc::Global;

/// A name.
pub fn read_name(word: &Word<'_>) -> Result<Name, Refusal>
    ensures value { result ≡ written_name (seen_word word.now) }
{
    match Name::new(word.bytes) {
        Some(name) => Ok(name),
        None => Err(Refusal::Form {
            column: word.column,
        }),
    }
}

/// A coordinate.
fn read_coordinate(word: &Word<'_>) -> Result<WrittenCoordinate, Refusal>
    ensures value { result ≡ written_coordinate (seen_word word.now) }
{
    match read_index(word.bytes) {
        Ok(number) => Ok(WrittenCoordinate::Number(number)),
        Err(IndexFault::Range) => Ok(WrittenCoordinate::Huge),
        Err(IndexFault::Form) => Err(Refusal::Form {
            column: word.column,
        }),
    }
}

/// A number that is set or added.
fn read_number(word: &Word<'_>) -> Result<WrittenNumber, Refusal>
    ensures value { result ≡ written_number (seen_word word.now) }
{
    match read_value(word.bytes) {
        Ok(value) => Ok(WrittenNumber::Whole(value)),
        Err(NumFault::NotWhole) => Ok(WrittenNumber::Fraction),
        Err(NumFault::Range) => Ok(WrittenNumber::Huge),
        Err(NumFault::Form) => Err(Refusal::Form {
            column: word.column,
        }),
    }
}

/// `C1 .. Cr`.
pub fn read_coordinates(
    alloc: Global,
    words: &[Word<'_>],
) -> Result<List<WrittenCoordinate>, LineFault>
    ensures reads { Gives (written_coordinates (map seen_word words.now)) result }
    ensures count { IfOk result (λ cs. length cs ≤ length words.now) }
{
    let mut coordinates = List::new(alloc);
    for word in words {
        match read_coordinate(word) {
            Ok(coordinate) => {
                if coordinates.push(coordinate).is_err() {
                    return Err(LineFault::NoMemory);
                }
            }
            Err(refusal) => return Err(LineFault::Refused(refusal)),
        }
    }
    Ok(coordinates)
}

/// That a word is missing, which would stand at this column.
pub fn missing(end: u32) -> LineFault
    ensures value { result ≡ faults.Refused (Form end) }
{
    LineFault::Refused(Refusal::Form { column: end })
}

/// `C1 .. Cr`, then `VALUE`.
fn read_both(
    alloc: Global,
    coordinates: &[Word<'_>],
    value: &Word<'_>,
) -> Result<(List<WrittenCoordinate>, WrittenNumber), LineFault>
    ensures reads { Gives (coordinates_and_number (written_coordinates (map seen_word coordinates.now)) (written_number (seen_word value.now))) result }
    ensures count { IfOk result (λ p. length p.0 ≤ length coordinates.now) }
{
    let coordinates = read_coordinates(alloc, coordinates)?;
    let number = read_number(value)?;
    Ok((coordinates, number))
}

/// `C1 .. Cr VALUE`.
fn read_arguments(
    alloc: Global,
    words: &[Word<'_>],
    end: u32,
) -> Result<(List<WrittenCoordinate>, WrittenNumber), LineFault>
    ensures reads { Gives (written_arguments end (map seen_word words.now)) result }
    ensures count { IfOk result (λ p. length p.0 ≤ length words.now) }
{
    match words {
        [] => Err(missing(end)),
        [coordinates @ .., value] => read_both(alloc, coordinates, value),
    }
}

/// `NAME C1 .. Cr VALUE`.
pub fn read_update(
    alloc: Global,
    kind: UpdateKind,
    words: &[Word<'_>],
    end: u32,
) -> Result<WrittenUpdate, LineFault>
    ensures reads { Gives (written_update kind end (map seen_word words.now)) result }
    ensures count { IfOk result (λ u. length u.coordinates ≤ length words.now) }
{
    match words {
        [] => Err(missing(end)),
        [name, arguments @ ..] => {
            let name = read_name(name)?;
            let (coordinates, number) = read_arguments(alloc, arguments, end)?;
            Ok(WrittenUpdate {
                kind,
                name,
                coordinates,
                number,
            })
        }
    }
}
