//! The tokens of a statement.

ghost use Rattle.std.specs.Prelude.{◌≡◌, ◌≤◌, length};
ghost use Rattle.std.specs.List.{list_all};
ghost use Rattle.std.specs.Char.{is_ascii_digit};
ghost use Rattle.dt_model.specs.Texts.{is_blank};
ghost use Rattle.index_read.specs.Tokens.{run_after, is_number, mark_of, token_of};

use dt_model::{Name, SPACE, TAB};
use dt_text::{LexicalGrammar, digit_run, is_name_start, name_run, read_whole};

/// A token.
#[derive(Debug, Drop, PartialEq, Eq)]
pub enum Token {
    /// A name of at most 32 bytes.
    Word(Name),
    /// One or more decimal digits, with their number where it is below 2^64.
    Number(Option<u64>),
    /// `(`
    Open,
    /// `)`
    Close,
    /// `,`
    Comma,
    /// `=`
    Equals,
    /// `+`
    Plus,
    /// `-`
    Minus,
    /// `*`
    Times,
    /// A byte that begins no token, or a longer name.
    Stray,
}

/// The lexical grammar of statements: blanks part tokens, names and numbers go on as far as they can,
/// and any other byte is alone.
pub(crate) struct Statements;

impl LexicalGrammar for Statements {
    ghost gap = { is_blank };

    ghost run = { run_after };

    /// Whether a byte is a blank.
    fn is_gap(byte: u8) -> bool {
        byte == SPACE || byte == TAB
    }

    /// The bytes of a name or a number beside its first one.
    fn run_after(first: u8, rest: &[u8]) -> usize {
        if is_name_start(first) {
            name_run(rest)
        } else if first.is_ascii_digit() {
            digit_run(rest)
        } else {
            0
        }
    }
}

/// The token of one byte that begins neither a name nor a number.
fn mark_of(word: &[u8]) -> Token
    ensures value { result ≡ mark_of word.now }
{
    match word {
        [b'('] => Token::Open,
        [b')'] => Token::Close,
        [b','] => Token::Comma,
        [b'='] => Token::Equals,
        [b'+'] => Token::Plus,
        [b'-'] => Token::Minus,
        [b'*'] => Token::Times,
        _ => Token::Stray,
    }
}

/// Whether all bytes are decimal digits.
fn are_digits(word: &[u8]) -> bool
    ensures value { result ≡ list_all is_ascii_digit word.now }
{
    word.iter().all(|byte| byte.is_ascii_digit())
}

/// Whether a word is one or more decimal digits.
fn is_number(word: &[u8]) -> bool
    ensures value { result ≡ is_number word.now }
{
    match word {
        [] => false,
        [_, ..] => are_digits(word),
    }
}

/// The token that some bytes are.
pub(crate) fn token_of(word: &[u8]) -> Token
    ensures value { result ≡ token_of word.now }
{
    match Name::new(word) {
        Some(name) => Token::Word(name),
        None => {
            if is_number(word) {
                Token::Number(read_whole(word))
            } else {
                mark_of(word)
            }
        }
    }
}
