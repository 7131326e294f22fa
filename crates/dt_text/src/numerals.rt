//! Numerals: indices, values as they are written, and the digits that they share.
ghost use Rattle.std.specs.Prelude.{◌≡◌, ◌↔◌, ◌≤◌, ◌<◌, ◌^◌, ◌∷◌, ◌++◌, ⊤, min, OnOk, OnErr, Option, Some, None, Ok, MatchOption, MatchResult};
ghost use Rattle.std.specs.Option.{option_map};
ghost use Rattle.std.specs.Fmt.{decimal};
ghost use Rattle.dt_model.specs.declared.limits.TheConstants.{MINUS};
ghost use Rattle.dt_model.specs.Texts.{value_word, number_of};
ghost use Rattle.dt_text.specs.Values.{value_of};
ghost use Rattle.dt_text.specs.Numerals.{index_in_range, whole_of, positive_in_range, negative_in_range};

use dt_model::{MINUS, NoMemory};
use itoa::Buffer;
use thiserror::Error;

/// Why a word is no index.
#[derive(Clone, Copy, Debug, PartialEq, Eq, Error)]
pub enum IndexFault {
    /// It isn't one or more decimal digits.
    #[error("the word is no index, which has one or more decimal digits")]
    Form,
    /// Its number is above 4,294,967,295.
    #[error("the index is above 4294967295, the greatest allowed")]
    Range,
}

/// Appends a piece. Out of memory, the text is as before.
pub fn append(into: &mut Vec<u8>, piece: &[u8]) -> Result<(), NoMemory>
    ensures ok { OnOk result (into.new.items ≡ into.old.items ++ piece.now) }
    ensures err { OnErr result (into.new.items ≡ into.old.items) }
{
    into.extend_from_slice(piece)?;
    Ok(())
}

/// Appends a minus and a number's digits. Out of memory, the text is as before.
fn append_negative(into: &mut Vec<u8>, digits: &[u8]) -> Result<(), NoMemory>
    ensures ok { OnOk result (into.new.items ≡ into.old.items ++ MINUS ∷ digits.now) }
    ensures err { OnErr result (into.new.items ≡ into.old.items) }
{
    into.push(MINUS)?;
    match append(into, digits) {
        Ok(()) => Ok(()),
        Err(NoMemory) => {
            into.pop();
            Err(NoMemory)
        }
    }
}

/// Appends the text of a value modulo 2^64: below 2^63 its decimal, else the negative decimal of the
/// value less 2^64. It has no leading zeros, and at most 20 bytes. Out of memory, the text is as before.
pub fn write_value(value: u64, into: &mut Vec<u8>) -> Result<(), NoMemory>
    ensures ok { OnOk result (into.new.items ≡ into.old.items ++ value_word value) }
    ensures err { OnErr result (into.new.items ≡ into.old.items) }
    // What is written is read back as the value.
    ensures reads_back { value_of (value_word value) ≡ Ok value }
{
    let mut buffer = Buffer::new();
    if value < 1 << 63 {
        append(into, buffer.format(value).as_bytes())
    } else {
        append_negative(into, buffer.format(value.wrapping_neg()).as_bytes())
    }
}

/// Appends a number in decimal, without leading zeros. Out of memory, the text is as before.
pub fn write_number(number: u32, into: &mut Vec<u8>) -> Result<(), NoMemory>
    ensures ok { OnOk result (into.new.items ≡ into.old.items ++ decimal number) }
    ensures err { OnErr result (into.new.items ≡ into.old.items) }
{
    let mut buffer = Buffer::new();
    append(into, buffer.format(number).as_bytes())
}

/// Where the number of a word is capped: above every number that a numeral may write.
pub(crate) const CAP: u128 = 1 << 64;

/// The number of a word of one or more decimal digits, or 2^64 where it is more.
pub(crate) fn digits(word: &[u8]) -> Option<u128>
    ensures value { result ≡ option_map (λ n. min n (2 ^ 64)) (number_of word.now) }
{
    if word.is_empty() {
        return None;
    }
    let mut number: u128 = 0;
    for byte in word {
        if !byte.is_ascii_digit() {
            return None;
        }
        number = (number * 10 + u128::from(*byte - b'0')).min(CAP);
    }
    Some(number)
}

/// The number of one or more decimal digits; leading zeros are read.
pub fn read_index(word: &[u8]) -> Result<u32, IndexFault>
    ensures value { result ≡ index_in_range (number_of word.now) }
{
    match digits(word) {
        None => Err(IndexFault::Form),
        Some(number) => match u32::try_from(number) {
            Ok(index) => Ok(index),
            Err(_) => Err(IndexFault::Range),
        },
    }
}

/// The number of one or more decimal digits, without a sign; `None` for any other word and from 2^64 on.
#[tactic(auto, using(crate::proofs::NumeralsLemmas::positive_in_range_capped))]
pub fn read_whole(word: &[u8]) -> Option<u64>
    ensures value { result ≡ whole_of word.now }
{
    positive(digits(word))
}

/// The value modulo 2^64 of the negative of a number, where it isn't below -2^63.
pub(crate) fn negative(number: Option<u128>) -> Option<u64>
    ensures value { result ≡ negative_in_range number }
{
    match number {
        Some(number) if number <= 1 << 63 => Some((number as u64).wrapping_neg()),
        _ => None,
    }
}

/// The value of a number below 2^64.
pub(crate) fn positive(number: Option<u128>) -> Option<u64>
    ensures value { result ≡ positive_in_range number }
{
    match number {
        Some(number) if number < CAP => Some(number as u64),
        _ => None,
    }
}
