//! Pairs as a text.

ghost use Rattle.std.specs.Prelude.{◌≡◌, ◌+◌, ◌++◌, ◌∷◌, [], List, ℕ, OnOk, OnErr, length, map};
ghost use Rattle.dt_model.specs.Report.{pair_row};
ghost use Rattle.dt_model.specs.Texts.{line_of, text_of, value_word};
ghost use Rattle.tns_io.specs.Written.{Extends};

use dt_model::{LINE_FEED, NoMemory, Nonzeros, SPACE};
use dt_text::{append, write_value};

/// Appends a line for each pair: its coordinates, counted from 1, and its value, in decimal and with
/// single spaces between them. When out of memory the text is as before.
pub fn write_tns(pairs: &Nonzeros, into: &mut Vec<u8>) -> Result<(), NoMemory>
    ensures ok { OnOk result (into.new.items ≡ into.old.items ++ text_of (map pair_row pairs.now)) }
    ensures err { OnErr result (into.new.items ≡ into.old.items) }
{
    let before = into.len();
    match write_pairs(pairs, into) {
        Ok(()) => Ok(()),
        Err(NoMemory) => {
            into.truncate(before);
            Err(NoMemory)
        }
    }
}

/// Appends a line for each pair. When out of memory the text begins as before.
fn write_pairs(pairs: &Nonzeros, into: &mut Vec<u8>) -> Result<(), NoMemory>
    ensures ok { OnOk result (into.new.items ≡ into.old.items ++ text_of (map pair_row pairs.now)) }
    ensures err { OnErr result (Extends into.old.items into.new.items) }
{
    let mut rest = pairs.iter();
    while let Some((at, value)) = rest.next() {
        write_pair(at.as_slice(), value, into)?;
    }
    Ok(())
}

/// Appends the line of a pair. When out of memory the text begins as before.
fn write_pair(at: &[u32], value: u64, into: &mut Vec<u8>) -> Result<(), NoMemory>
    ensures ok { OnOk result (into.new.items ≡ into.old.items ++ line_of (pair_row (at.now, value))) }
    ensures err { OnErr result (Extends into.old.items into.new.items) }
{
    for coordinate in at {
        write_piece(u64::from(*coordinate) + 1, SPACE, into)?;
    }
    write_piece(value, LINE_FEED, into)?;
    Ok(())
}

/// Appends a value and a byte. When out of memory the text begins as before.
fn write_piece(value: u64, behind: u8, into: &mut Vec<u8>) -> Result<(), NoMemory>
    ensures ok { OnOk result (into.new.items ≡ into.old.items ++ value_word value ++ behind ∷ []) }
    ensures err { OnErr result (Extends into.old.items into.new.items) }
{
    write_value(value, into)?;
    append(into, &[behind])?;
    Ok(())
}
