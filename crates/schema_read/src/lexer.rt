//! The tokens of a schema file.

ghost use Rattle.std.specs.Prelude.{⊤, ◌≡◌, ◌<◌, ◌≤◌, [], ◌∷◌, length, drop, MatchOption};
ghost use Rattle.schema_read.specs.Tokens.{is_gap, run_after, points, comment_run, is_comment, reserved, number_in, mark_of, number_or, token_of, spans_from};

use dt_model::{CARRIAGE_RETURN, LINE_FEED, Name, SPACE, TAB};
use dt_text::{LexicalGrammar, Span, digit_run, is_name_start, name_run, read_index, token_at};

/// The digits of a number.
pub const MOST_DIGITS: usize = 9;

/// The byte that begins a comment.
pub const HASH: u8 = b'#';

/// The byte that stands twice between two bounds.
pub const POINT: u8 = b'.';

/// A token.
#[derive(Debug, Drop, PartialEq, Eq)]
pub enum Token {
    /// `schema`
    Schema,
    /// `node`
    Node,
    /// `run`
    Run,
    /// `root`
    Root,
    /// `pre`
    Pre,
    /// `post`
    Post,
    /// `woven`
    Woven,
    /// A name of at most 32 bytes that is none of these words.
    Name(Name),
    /// One to nine decimal digits, with their number.
    Number(u32),
    /// `{`
    Open,
    /// `}`
    Close,
    /// `..`
    Points,
    /// A byte that begins no token, a longer name, or more digits.
    Stray,
}

/// The lexical grammar of schema files: blanks and line ends part tokens. A comment goes on to the end
/// of its line, names and numbers go on as far as they can, and a point takes one behind it.
pub(crate) struct SchemaFiles;

/// The bytes of a comment behind its first: all before the line feed.
fn comment_run(bytes: &[u8]) -> usize
    ensures within { result ≤ length bytes.now }
    ensures value { result ≡ comment_run bytes.now }
{
    for (i, byte) in bytes.iter().enumerate() {
        if *byte == LINE_FEED {
            return i;
        }
    }
    bytes.len()
}

/// One, if a point is in front.
fn points(bytes: &[u8]) -> usize
    ensures within { result ≤ length bytes.now }
    ensures value { result ≡ points bytes.now }
{
    match bytes {
        [POINT, ..] => 1,
        _ => 0,
    }
}

impl LexicalGrammar for SchemaFiles {
    ghost gap = { is_gap };

    ghost run = { run_after };

    /// Whether a byte is a blank or ends a line.
    fn is_gap(byte: u8) -> bool {
        byte == SPACE || byte == TAB || byte == LINE_FEED || byte == CARRIAGE_RETURN
    }

    /// The bytes of a token beside its first one.
    fn run_after(first: u8, rest: &[u8]) -> usize {
        if is_name_start(first) {
            name_run(rest)
        } else if first.is_ascii_digit() {
            digit_run(rest)
        } else if first == HASH {
            comment_run(rest)
        } else if first == POINT {
            points(rest)
        } else {
            0
        }
    }
}

/// Whether some bytes are a comment.
fn is_comment(word: &[u8]) -> bool
    ensures value { result ≡ is_comment word.now }
{
    match word {
        [HASH, ..] => true,
        _ => false,
    }
}

/// The first token that begins at a place or behind it and is no comment. Places count from 0.
pub(crate) fn next_token(text: &[u8], at: usize) -> Option<Span>
    requires within { at ≤ length text.now }
    ensures forward { MatchOption result ⊤ (λ t. (at < t.to) × (t.from < t.to) × (t.to ≤ length text.now)) }
    ensures first { MatchOption result (spans_from text.now at ≡ []) (λ t. spans_from text.now at ≡ t ∷ spans_from text.now t.to) }
{
    let mut place = at;
    while let Some(span) = token_at::<SchemaFiles>(text, place) {
        if !is_comment(&text[span.from..span.to]) {
            return Some(span);
        }
        place = span.to;
    }
    None
}

/// The token of a name, which may be a reserved word.
fn reserved(name: Name) -> Token
    ensures value { result ≡ reserved name }
{
    let word = name.bytes();
    if word == b"schema".as_slice() {
        Token::Schema
    } else if word == b"node".as_slice() {
        Token::Node
    } else if word == b"run".as_slice() {
        Token::Run
    } else if word == b"root".as_slice() {
        Token::Root
    } else if word == b"pre".as_slice() {
        Token::Pre
    } else if word == b"post".as_slice() {
        Token::Post
    } else if word == b"woven".as_slice() {
        Token::Woven
    } else {
        Token::Name(name)
    }
}

/// The number of one to nine digits.
#[tactic(auto, using(crate::proofs::NumbersLemmas::number_in_none))]
fn number_in(word: &[u8]) -> Option<u32>
    ensures value { result ≡ number_in word.now }
{
    if word.len() > MOST_DIGITS {
        return None;
    }
    match read_index(word) {
        Ok(number) => Some(number),
        Err(_) => None,
    }
}

/// The token of bytes that begin neither a name nor a number.
fn mark_of(word: &[u8]) -> Token
    ensures value { result ≡ mark_of word.now }
{
    match word {
        [b'{'] => Token::Open,
        [b'}'] => Token::Close,
        [POINT, POINT] => Token::Points,
        _ => Token::Stray,
    }
}

/// The token of bytes that are no name.
fn number_or_mark(word: &[u8]) -> Token
    ensures value { result ≡ number_or (mark_of word.now) (number_in word.now) }
{
    match number_in(word) {
        Some(number) => Token::Number(number),
        None => mark_of(word),
    }
}

/// The token that some bytes are.
pub(crate) fn token_of(word: &[u8]) -> Token
    ensures value { result ≡ token_of word.now }
{
    match Name::new(word) {
        Some(name) => reserved(name),
        None => number_or_mark(word),
    }
}
