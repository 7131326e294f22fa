//! The orders in which coordinates are put in.
ghost use Rattle.std.specs.Prelude.{◌≡◌, ◌≤◌, ◌<◌, ◌*◌};

use crate::lists::MOST;

/// An order of the coordinates below a number.
#[derive(Clone, Copy, Debug, PartialEq, Eq)]
pub(crate) enum Sequence {
    /// From 0 on.
    Ascending,
    /// Down to 0.
    Descending,
    /// Without a pattern.
    Random,
}

/// The order of this name.
pub(crate) fn sequence_of(word: &[u8]) -> Option<Sequence> {
    match word {
        b"ascending" => Some(Sequence::Ascending),
        b"descending" => Some(Sequence::Descending),
        b"random" => Some(Sequence::Random),
        _ => None,
    }
}

/// How many turns a sequence takes to have every coordinate below a number once: so many, or the next power of two.
pub(crate) fn turns_of(sequence: Sequence, count: u32) -> u32
    requires few { count ≤ MOST }
    ensures few { result ≤ MOST }
{
    match sequence {
        Sequence::Random => span_of(count),
        _ => count,
    }
}

/// The least power of two that isn't below a number.
fn span_of(count: u32) -> u32
    requires few { count ≤ MOST }
    ensures few { result ≤ MOST }
    ensures some { 0 < result }
{
    let mut span: u32 = 1;
    for _ in 0..24 {
        if span < count && span < MOST {
            span = (2 * span).min(MOST);
        }
    }
    span
}

/// A coordinate, and how the next one is made of it: by a factor, a summand and a mask of bits.
#[derive(Clone, Copy, Debug)]
pub(crate) struct Coordinates {
    at: u32,
    factor: u32,
    summand: u32,
    mask: u32,
}

impl Coordinates {
    /// The coordinates below a number, and in a random order some others among them. The factor is 1 above a multiple of 4, and the summand
    /// odd, so that each number below the power of two comes once.
    pub(crate) fn new(sequence: Sequence, count: u32) -> Coordinates
        requires few { count ≤ MOST }
    {
        match sequence {
            Sequence::Ascending => Coordinates {
                at: u32::MAX,
                factor: 1,
                summand: 1,
                mask: u32::MAX,
            },
            Sequence::Descending => Coordinates {
                at: count,
                factor: 1,
                summand: u32::MAX,
                mask: u32::MAX,
            },
            Sequence::Random => Coordinates {
                at: 0,
                factor: 1_664_525,
                summand: 1_013_904_223,
                mask: span_of(count) - 1,
            },
        }
    }

    /// The next coordinate.
    pub(crate) fn next(&mut self) -> u32 {
        self.at = self.at.wrapping_mul(self.factor).wrapping_add(self.summand) & self.mask;
        self.at
    }
}
