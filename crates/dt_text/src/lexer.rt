//! Tokens by their places: where each begins and ends, in every lexical grammar.

ghost use Rattle.std.specs.Prelude.{⊤, ◌≡◌, ◌<◌, ◌≤◌, ℕ, Bool, List, [], ◌∷◌, length, drop, MatchOption};
ghost use Rattle.std.specs.List.{prefix_len};
ghost use Rattle.std.specs.Char.{is_ascii_digit};
ghost use Rattle.dt_model.specs.Names.{is_name_start, is_name_byte};
ghost use Rattle.dt_text.specs.Lexer.{token_spans_from};

use crate::spans::Span;

/// How a language parts its texts into tokens. `gap` holds of the bytes that part tokens and belong to
/// none; `run` is how many bytes belong to the token that begins with a byte, beside that byte.
pub trait LexicalGrammar {
    ghost gap: { ℕ → Bool };

    ghost run: { ℕ → List ℕ → ℕ };

    /// Whether a byte parts tokens.
    fn is_gap(byte: u8) -> bool
        ensures value { result ≡ gap byte };

    /// How many bytes of `rest` belong to the token whose first byte stands before it.
    fn run_after(first: u8, rest: &[u8]) -> usize
        ensures within { result ≤ length rest.now }
        ensures value { result ≡ run first rest.now };
}

/// How many gaps stand in front.
fn gap_run<G: LexicalGrammar>(bytes: &[u8]) -> usize
    ensures within { result ≤ length bytes.now }
    ensures value { result ≡ prefix_len G.gap bytes.now }
{
    for (i, byte) in bytes.iter().enumerate() {
        if !G::is_gap(*byte) {
            return i;
        }
    }
    bytes.len()
}

/// The first token that begins at a place or behind it. Places count from 0.
pub fn token_at<G: LexicalGrammar>(text: &[u8], at: usize) -> Option<Span>
    requires within { at ≤ length text.now }
    ensures forward { MatchOption result ⊤ (λ t. (at < t.to) × (t.from < t.to) × (t.to ≤ length text.now)) }
    ensures first { MatchOption result (token_spans_from G.gap G.run at 0 (drop at text.now) ≡ []) (λ t. token_spans_from G.gap G.run at 0 (drop at text.now) ≡ t ∷ token_spans_from G.gap G.run t.to 0 (drop t.to text.now)) }
{
    let from = at + gap_run::<G>(&text[at..]);
    match &text[from..] {
        [] => None,
        [first, rest @ ..] => {
            let to = from + 1 + G::run_after(*first, rest);
            Some(Span { from, to })
        }
    }
}

/// Whether a name may begin with a byte.
pub fn is_name_start(byte: u8) -> bool
    ensures value { result ≡ is_name_start byte }
{
    byte.is_ascii_uppercase() || byte.is_ascii_lowercase() || byte == b'_'
}

/// Whether a byte may stand in a name.
fn is_name_byte(byte: u8) -> bool
    ensures value { result ≡ is_name_byte byte }
{
    is_name_start(byte) || byte.is_ascii_digit()
}

/// How many letters, digits and underscores stand in front.
pub fn name_run(bytes: &[u8]) -> usize
    ensures within { result ≤ length bytes.now }
    ensures value { result ≡ prefix_len is_name_byte bytes.now }
{
    for (i, byte) in bytes.iter().enumerate() {
        if !is_name_byte(*byte) {
            return i;
        }
    }
    bytes.len()
}

/// How many decimal digits stand in front.
pub fn digit_run(bytes: &[u8]) -> usize
    ensures within { result ≤ length bytes.now }
    ensures value { result ≡ prefix_len is_ascii_digit bytes.now }
{
    for (i, byte) in bytes.iter().enumerate() {
        if !byte.is_ascii_digit() {
            return i;
        }
    }
    bytes.len()
}
