//! The words of a line, with their columns.
ghost use Rattle.std.specs.Prelude.{◌≡◌, ◌<◌, ◌≤◌, ◌+◌, ◌^◌, length, map, IfOk, All};
ghost use Rattle.dt_model.specs.Texts.{words_of};
ghost use Rattle.script_read.specs.Readings.{equals_text};
ghost use Rattle.script_read.specs.Words.{columned_words, seen_word, word_bytes};

use dt_model::NoMemory;
use dt_text::words;
use std::alloc::Global;

/// A word of a line.
#[derive(Clone, Copy, Debug, PartialEq, Eq)]
pub struct Word<'a> {
    /// The column of its first byte, counted from 1.
    pub column: u32,
    /// Its bytes, none of which is a blank.
    pub bytes: &'a [u8],
}

/// Whether a word is this text.
pub fn equals_text(word: &[u8], text: &str) -> bool
    ensures value { result ≡ equals_text text.now word.now }
{
    word == text.as_bytes()
}

/// The words of a text in order, with their columns in the line, of which so many bytes are before the
/// text.
pub fn words_in<'a>(alloc: Global, text: &'a [u8], before: u32) -> Result<Vec<Word<'a>>, NoMemory>
    requires short { before + length text.now + 1 < 2 ^ 32 }
    ensures columned { IfOk result (λ ws. map seen_word ws.items ≡ columned_words before text.now) }
    ensures words { IfOk result (λ ws. map word_bytes ws.items ≡ words_of text.now) }
    ensures count { IfOk result (λ ws. length ws.items ≤ length text.now) }
    ensures within { IfOk result (λ ws. All (λ w. w.column ≤ before + length text.now + 1) ws.items) }
{
    let mut found = Vec::new(alloc);
    let mut spans = words(text);
    while let Some(span) = spans.next() {
        let word = Word {
            column: before + span.from as u32 + 1,
            bytes: &text[span.from..span.to],
        };
        found.push(word)?;
    }
    Ok(found)
}
