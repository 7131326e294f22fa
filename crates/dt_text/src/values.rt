//! Value numerals: a sign, digits with an optional point, and an optional power of ten.
ghost use Rattle.std.specs.Prelude.{◌≡◌, ℕ, Bool, true, false, ◌+◌, ◌-◌, ◌*◌, ◌==◌, ◌||◌, ◌≤◌, ◌^◌, ◌++◌, [], length, drop, take, min, IfSome};
ghost use Rattle.std.specs.Option.{option_map};
ghost use Rattle.std.specs.Char.{is_ascii_digit};
ghost use Rattle.std.specs.List.{list_all, prefix_len};
ghost use Rattle.std.specs.Str.Parse.{digits_value};
ghost use Rattle.dt_text.specs.Values.{value_of, value_with, strip_sign, is_negative, leading_digits, after_digits, fraction_digits, after_fraction, power, signed_power, power_of, power_size, scaled, in_range, is_zero};

use crate::lexer::digit_run;
use crate::numerals::{CAP, digits, negative, positive};
use dt_model::MINUS;
use thiserror::Error;

/// The byte that a positive numeral may begin with.
pub(crate) const PLUS: u8 = b'+';

/// The byte between the whole digits of a value and the others.
const POINT: u8 = b'.';

/// The byte before an exponent.
const EXPONENT: u8 = b'e';

/// The same as a capital letter.
const CAPITAL_EXPONENT: u8 = b'E';

/// The digit 0.
const ZERO: u8 = b'0';

/// Why a word is no value.
#[derive(Clone, Copy, Debug, PartialEq, Eq, Error)]
pub enum NumFault {
    /// It isn't a value numeral.
    #[error("the word is no value, which has a sign, digits, a point with digits and an exponent of one to three digits")]
    Form,
    /// It is one, and its exact value isn't whole.
    #[error("the value isn't whole")]
    NotWhole,
    /// Its exact value is whole, and below -2^63 or above 2^64 - 1.
    #[error("the value isn't from -9223372036854775808 to 18446744073709551615")]
    Range,
}

/// Ten to the power `up` less `down`.
#[derive(Clone, Copy)]
struct Power {
    up: usize,
    down: usize,
}

/// The exact value of a value numeral, modulo 2^64. It takes time linear in the length of the word, and
/// no memory.
pub fn read_value(word: &[u8]) -> Result<u64, NumFault>
    ensures value { result ≡ value_of word.now }
{
    let (whole, rest) = split_digits(strip_sign(word));
    let (fraction, tail) = split_fraction(rest);
    if whole.is_empty() {
        return Err(NumFault::Form);
    }
    value_with(is_negative(word), whole, fraction, read_power(tail))
}

/// The value of the digits before and behind the point, times a power of ten.
fn value_with(
    minus: bool,
    whole: &[u8],
    fraction: &[u8],
    power: Option<Power>,
) -> Result<u64, NumFault>
    requires whole { list_all is_ascii_digit whole.now ≡ true }
    requires fraction { list_all is_ascii_digit fraction.now ≡ true }
    requires small { IfSome power (λ p. p.down ≤ 999) }
    ensures value { result ≡ value_with minus (digits_value 10 (whole.now ++ fraction.now)) (length fraction.now) power }
{
    match power {
        None => Err(NumFault::Form),
        Some(power) => match whole_value(whole, fraction, power.up, fraction.len() + power.down) {
            None => Err(NumFault::NotWhole),
            Some(number) => in_range(minus, number),
        },
    }
}

/// Whether a word begins with a minus.
fn is_negative(word: &[u8]) -> bool
    ensures value { result ≡ is_negative word.now }
{
    match word {
        [] => false,
        [first, ..] => *first == MINUS,
    }
}

/// A word without the sign that it begins with.
fn strip_sign(word: &[u8]) -> &[u8]
    ensures value { result.now ≡ strip_sign word.now }
{
    match word {
        [] => word,
        [first, rest @ ..] => {
            if *first == PLUS || *first == MINUS {
                rest
            } else {
                word
            }
        }
    }
}

/// The digits that a word begins with, and what is behind them.
fn split_digits(word: &[u8]) -> (&[u8], &[u8])
    ensures front { result.0.now ≡ leading_digits word.now }
    ensures digits { list_all is_ascii_digit result.0.now ≡ true }
    ensures behind { result.1.now ≡ after_digits word.now }
{
    let count = digit_run(word);
    (&word[..count], &word[count..])
}

/// The digits behind the point that a word begins with, and what is behind them; without a point no
/// digits, and the word.
fn split_fraction(word: &[u8]) -> (&[u8], &[u8])
    ensures front { result.0.now ≡ fraction_digits word.now }
    ensures digits { list_all is_ascii_digit result.0.now ≡ true }
    ensures behind { result.1.now ≡ after_fraction word.now }
{
    match word {
        [] => (word, word),
        [first, rest @ ..] => {
            if *first == POINT {
                split_digits(rest)
            } else {
                (&word[..0], word)
            }
        }
    }
}

/// The power of ten that a numeral ends with: an exponent, or nothing.
fn read_power(word: &[u8]) -> Option<Power>
    ensures value { result ≡ power_of word.now }
    ensures small { IfSome result (λ p. p.down ≤ 999) }
{
    match word {
        [] => Some(Power { up: 0, down: 0 }),
        [first, rest @ ..] => {
            if *first == EXPONENT || *first == CAPITAL_EXPONENT {
                read_power_size(is_negative(rest), strip_sign(rest))
            } else {
                None
            }
        }
    }
}

/// The power of an exponent's one to three digits.
fn read_power_size(minus: bool, word: &[u8]) -> Option<Power>
    ensures value { result ≡ option_map (signed_power minus) (power_size word.now) }
    ensures small { IfSome result (λ p. p.down ≤ 999) }
{
    if word.len() > 3 {
        return None;
    }
    match digits(word) {
        None => None,
        Some(number) => Some(signed_power(minus, number as usize)),
    }
}

/// Ten to a power of this sign and size.
fn signed_power(minus: bool, size: usize) -> Power
    ensures value { result ≡ signed_power minus size }
    ensures down { result.down ≤ size }
{
    if minus {
        Power { up: 0, down: size }
    } else {
        Power { up: size, down: 0 }
    }
}

/// Whether all digits are 0.
fn are_zeros(digits: &[u8]) -> bool
    ensures value { result ≡ list_all is_zero digits.now }
{
    for byte in digits {
        if *byte != ZERO {
            return false;
        }
    }
    true
}

/// The number of the digits before and behind the point, times ten to the power up less down; 2^64
/// where it is more, `None` where it isn't whole. The digits that a power below 1 would cut off are
/// looked at, and not computed.
fn whole_value(whole: &[u8], fraction: &[u8], up: usize, down: usize) -> Option<u128>
    requires whole { list_all is_ascii_digit whole.now ≡ true }
    requires fraction { list_all is_ascii_digit fraction.now ≡ true }
    ensures value { result ≡ option_map (λ n. min n (2 ^ 64)) (scaled (digits_value 10 (whole.now ++ fraction.now)) up down) }
{
    let kept = (whole.len() + fraction.len()).saturating_sub(down.saturating_sub(up));
    let in_whole = kept.min(whole.len());
    let in_fraction = kept - in_whole;
    if !are_zeros(&whole[in_whole..]) || !are_zeros(&fraction[in_fraction..]) {
        return None;
    }
    Some(capped(
        &whole[..in_whole],
        &fraction[..in_fraction],
        up.saturating_sub(down),
    ))
}

/// The number of the digits with so many zeros behind them, or 2^64 where it is more.
fn capped(whole: &[u8], fraction: &[u8], zeros: usize) -> u128
    requires whole { list_all is_ascii_digit whole.now ≡ true }
    requires fraction { list_all is_ascii_digit fraction.now ≡ true }
    ensures value { result ≡ min (digits_value 10 (whole.now ++ fraction.now) * 10 ^ zeros) (2 ^ 64) }
{
    let mut number: u128 = 0;
    for byte in whole {
        number = (number * 10 + u128::from(*byte - ZERO)).min(CAP);
    }
    for digit in fraction {
        number = (number * 10 + u128::from(*digit - ZERO)).min(CAP);
    }
    for zero in 0..zeros {
        number = (number * 10).min(CAP);
    }
    number
}

/// The value modulo 2^64 of a number with its sign.
fn in_range(minus: bool, number: u128) -> Result<u64, NumFault>
    ensures value { result ≡ in_range minus number }
{
    let value = if minus {
        negative(Some(number))
    } else {
        positive(Some(number))
    };
    match value {
        None => Err(NumFault::Range),
        Some(value) => Ok(value),
    }
}
