//! The forms of a manifest's lines.
ghost use Rattle.std.specs.Prelude.{◌≡◌, ◌≤◌, ◌^◌, ◌-◌, ◌+◌, ◌*◌, [], ◌∷◌, ◌&&◌, map, length, codes, if◌then◌else◌, None};
ghost use Rattle.std.specs.List.{list_all};
ghost use Rattle.std.specs.Option.{option_map};
ghost use Rattle.dt_model.specs.Texts.{number_of};
ghost use Rattle.dt_model.specs.declared.limits.TheConstants.{MOST_ORDER, MOST_TENSOR_LATCHES};
ghost use Rattle.script_read.specs.Words.{word_bytes};
ghost use Rattle.script_read.specs.Readings.{every};
ghost use Rattle.script_read.specs.ManifestLines.{is_index, number_up_to, name_in, file_in, ranged, tensor_line, tensor_words, two_words, three_words, item_line};

use crate::file_names::FileName;
use crate::items::Item;
use crate::words::{Word, equals_text};
use arrayvec::ArrayVec;
use dt_model::{Coords, MOST_ORDER, MOST_TENSOR_LATCHES, Name};
use dt_text::{IndexFault, read_index};

/// A line that has a form of the table.
#[derive(Debug, Drop)]
pub enum ItemLine {
    /// Its item.
    Whole(Item),
    /// A `tensor` line with a dimension or a number of latches out of range.
    OutOfRange(Name),
}

/// Whether a word is one or more digits.
fn is_index(word: &[u8]) -> bool
    ensures value { result ≡ is_index word.now }
{
    match read_index(word) {
        Ok(_) => true,
        Err(IndexFault::Range) => true,
        Err(IndexFault::Form) => false,
    }
}

/// Whether each word is one or more digits.
fn are_indices(words: &[Word<'_>]) -> bool
    ensures value { result ≡ list_all is_index (map word_bytes words.now) }
{
    for word in words {
        if !is_index(word.bytes) {
            return false;
        }
    }
    true
}

/// Whether the dimensions and the latches are digits.
fn are_numbers(dims: &[Word<'_>], latches: &[u8]) -> bool
    ensures value { result ≡ (list_all is_index (map word_bytes dims.now) && is_index latches.now) }
{
    are_indices(dims) && is_index(latches)
}

/// The number of a word of digits, from 1 to the most.
fn number_up_to(word: &[u8], most: u32) -> Option<u32>
    ensures value { result ≡ number_up_to most word.now }
{
    match read_index(word) {
        Ok(number) if number >= 1 && number <= most => Some(number),
        _ => None,
    }
}

/// The dimensions that words write, where each is in range.
fn read_dims(words: &[Word<'_>]) -> Option<Coords>
    requires few { length words.now ≤ MOST_ORDER }
    ensures value { result ≡ every (number_up_to (2 ^ 32 - 1)) (map word_bytes words.now) }
{
    let mut dims = Coords::new();
    for word in words {
        match number_up_to(word.bytes, u32::MAX) {
            Some(dim) => dims.push(dim),
            None => return None,
        }
    }
    Some(dims)
}

/// The names that words are, where each is one.
fn read_names(words: &[Word<'_>]) -> Option<ArrayVec<Name, MOST_ORDER>>
    requires few { length words.now ≤ MOST_ORDER }
    ensures value { option_map (λ names. names.items) result ≡ every name_in (map word_bytes words.now) }
{
    let mut names = ArrayVec::new();
    for word in words {
        match Name::new(word.bytes) {
            Some(name) => names.push(name),
            None => return None,
        }
    }
    Some(names)
}

/// A tensor's line, whose dimensions and latches are numbers.
fn ranged(
    name: Name,
    dims: &[Word<'_>],
    formats: ArrayVec<Name, MOST_ORDER>,
    latches: &[u8],
) -> ItemLine
    requires few { length dims.now ≤ MOST_ORDER }
    ensures value { result ≡ ranged name formats.items (every (number_up_to (2 ^ 32 - 1)) (map word_bytes dims.now)) (number_up_to MOST_TENSOR_LATCHES latches.now) }
{
    match (read_dims(dims), number_up_to(latches, MOST_TENSOR_LATCHES)) {
        (Some(dims), Some(latches)) => ItemLine::Whole(Item::Tensor {
            name,
            dims,
            formats,
            latches,
        }),
        _ => ItemLine::OutOfRange(name),
    }
}

/// A tensor's line, by its name, dimensions, formats and latches.
fn tensor_line(
    name: &[u8],
    dims: &[Word<'_>],
    formats: &[Word<'_>],
    latches: &[u8],
) -> Option<ItemLine>
    requires few { length dims.now ≤ MOST_ORDER }
    requires few_formats { length formats.now ≤ MOST_ORDER }
    ensures value { result ≡ tensor_line name.now (map word_bytes dims.now) (map word_bytes formats.now) latches.now }
{
    let name = Name::new(name)?;
    let formats = read_names(formats)?;
    if are_numbers(dims, latches) {
        Some(ranged(name, dims, formats, latches))
    } else {
        None
    }
}

/// A tensor's line, where its fixed words are `tensor`, `as` and `latches`.
fn tensor_words(
    verb: &[u8],
    name: &[u8],
    dims: &[Word<'_>],
    as_word: &[u8],
    formats: &[Word<'_>],
    latches_word: &[u8],
    latches: &[u8],
) -> Option<ItemLine>
    requires few { length dims.now ≤ MOST_ORDER }
    requires few_formats { length formats.now ≤ MOST_ORDER }
    ensures value { result ≡ tensor_words verb.now name.now (map word_bytes dims.now) as_word.now (map word_bytes formats.now) latches_word.now latches.now }
{
    if equals_text(verb, "tensor")
        && equals_text(as_word, "as")
        && equals_text(latches_word, "latches")
    {
        tensor_line(name, dims, formats, latches)
    } else {
        None
    }
}

/// `schema FILE`, `session FILE` or `print NAME`.
fn two_words(verb: &[u8], word: &[u8]) -> Option<ItemLine>
    ensures value { result ≡ two_words verb.now word.now }
{
    if equals_text(verb, "schema") {
        let file = FileName::from_bytes(word)?;
        Some(ItemLine::Whole(Item::Schema { file }))
    } else if equals_text(verb, "session") {
        let file = FileName::from_bytes(word)?;
        Some(ItemLine::Whole(Item::Session { file }))
    } else if equals_text(verb, "print") {
        let name = Name::new(word)?;
        Some(ItemLine::Whole(Item::Print { name }))
    } else {
        None
    }
}

/// `load NAME FILE`.
fn three_words(verb: &[u8], name: &[u8], file: &[u8]) -> Option<ItemLine>
    ensures value { result ≡ three_words verb.now name.now file.now }
{
    if equals_text(verb, "load") {
        let name = Name::new(name)?;
        let file = FileName::from_bytes(file)?;
        Some(ItemLine::Whole(Item::Load { name, file }))
    } else {
        None
    }
}

/// The line of a tensor of this order.
fn read_tensor(words: &[Word<'_>], order: usize) -> Option<ItemLine>
    requires some { 1 ≤ order }
    requires few { order ≤ MOST_ORDER }
    requires count { length words.now ≡ 2 * order + 5 }
    ensures value { result ≡ item_line (map word_bytes words.now) }
{
    let dims = &words[2..2 + order];
    let formats = &words[3 + order..3 + 2 * order];
    tensor_words(
        words[0].bytes,
        words[1].bytes,
        dims,
        words[2 + order].bytes,
        formats,
        words[3 + 2 * order].bytes,
        words[4 + 2 * order].bytes,
    )
}

/// The line of a manifest that these words are, if they are one.
pub fn read_item(words: &[Word<'_>]) -> Option<ItemLine>
    ensures value { result ≡ item_line (map word_bytes words.now) }
{
    match words.len() {
        2 => two_words(words[0].bytes, words[1].bytes),
        3 => three_words(words[0].bytes, words[1].bytes, words[2].bytes),
        7 => read_tensor(words, 1),
        9 => read_tensor(words, 2),
        11 => read_tensor(words, 3),
        13 => read_tensor(words, 4),
        15 => read_tensor(words, 5),
        _ => None,
    }
}
