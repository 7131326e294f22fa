//! The verbs of a script's lines.
ghost use Rattle.std.specs.Prelude.{◌≡◌};
ghost use Rattle.script_read.specs.Verbs.{verb_of};

use crate::words::equals_text;

/// The first word of a line.
#[derive(Clone, Copy, Debug, PartialEq, Eq)]
pub enum Verb {
    /// `set NAME C1 .. Cr VALUE`.
    Set,
    /// `add NAME C1 .. Cr VALUE`.
    Add,
    /// `get NAME C1 .. Cr`.
    Get,
    /// `batch U ; U ; ..`, where each U is a line `set ..` or `add ..`.
    Batch,
    /// `query STATEMENT`.
    Query,
}

impl Verb {
    /// The verb that a word is.
    pub fn new(word: &[u8]) -> Option<Verb>
        ensures value { result ≡ verb_of word.now }
    {
        if equals_text(word, "set") {
            Some(Verb::Set)
        } else if equals_text(word, "add") {
            Some(Verb::Add)
        } else if equals_text(word, "get") {
            Some(Verb::Get)
        } else if equals_text(word, "batch") {
            Some(Verb::Batch)
        } else if equals_text(word, "query") {
            Some(Verb::Query)
        } else {
            None
        }
    }
}
