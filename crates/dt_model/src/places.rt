//! Coordinates, and the variables of a statement: short lists of numbers that lie in the value itself.
ghost use Rattle.std.specs.Prelude.{◌≡◌, [], ◌∷◌, ◌++◌, ◌<◌, ◌≤◌, length, slice_get, All};
ghost use Rattle.std.specs.Option.{option_copied};
ghost use Rattle.dt_model.specs.declared.limits.TheConstants.{MOST_COORDINATES, MOST_VARIABLES};

use crate::limits::{MOST_COORDINATES, MOST_VARIABLES};
use arrayvec::ArrayVec;
use std::cmp::Ordering;
use std::fmt;
use std::marker::Model;

/// 0 to 8 coordinates or dimensions. Coordinates are counted from 0. Their order is the
/// lexicographic one: a clause sees `a.cmp(b)` as `slice_cmp nat_cmp` of the two lists. It has 36
/// bytes.
#[derive(Drop)]
pub struct Coords {
    numbers: [u32; MOST_COORDINATES],
    count: u8,
}

impl Model for Coords {
    ghost use Rattle.std.specs.Prelude.{List, ℕ, ◌≤◌, length, take};
    ghost use Rattle.dt_model.specs.declared.limits.TheConstants.{MOST_COORDINATES};

    ghost Value = { List ℕ };

    ghost view = { λ c. take c.count c.numbers };

    ghost invariant = { λ c. c.count ≤ MOST_COORDINATES };
}

impl fmt::Debug for Coords {
    fn fmt<W: fmt::Write>(&self, f: &mut fmt::Formatter<W>) -> fmt::Result {
        fmt::Debug::fmt(self.as_slice(), f)
    }
}

impl PartialEq for Coords {
    ghost use Rattle.std.specs.Prelude.{nat_eq};
    ghost use Rattle.std.specs.Cmp.Lexicographic.{pointwise};
    ghost use Rattle.std.specs.Cmp.{partial_equiv_from_equiv};
    ghost use Rattle.std.proofs.lemmas.Cmp.{nat_list_eq_equiv};

    ghost eq = { pointwise nat_eq };

    ghost laws = { partial_equiv_from_equiv nat_list_eq_equiv };

    fn eq(&self, other: &Self) -> bool {
        self.as_slice() == other.as_slice()
    }
}

impl Eq for Coords {
    ghost use Rattle.std.proofs.lemmas.Cmp.{nat_list_eq_equiv};

    ghost laws = { nat_list_eq_equiv };
}

impl PartialOrd for Coords {
    ghost use Rattle.std.specs.Prelude.{Some};
    ghost use Rattle.std.specs.Cmp.Lexicographic.{slice_cmp, texts_po};
    ghost use Rattle.std.specs.Ordering.{nat_cmp};

    ghost partial_cmp = { λ x y. Some (slice_cmp nat_cmp x y) };

    ghost laws = { texts_po };

    fn partial_cmp(&self, other: &Self) -> Option<Ordering> {
        Some(self.cmp(other))
    }
}

impl Ord for Coords {
    ghost use Rattle.std.specs.Cmp.Lexicographic.{slice_cmp, texts_ties};
    ghost use Rattle.std.specs.Ordering.{nat_cmp};
    ghost use Rattle.std.proofs.Common.{refl};
    ghost use Rattle.std.proofs.lemmas.Cmp.{nat_list_cmp_total};

    ghost cmp = { slice_cmp nat_cmp };

    ghost total = { nat_list_cmp_total };

    ghost matches_partial_cmp = { λ x y. refl };

    ghost matches_eq = { texts_ties };

    fn cmp(&self, other: &Self) -> Ordering {
        self.as_slice().cmp(&other.as_slice())
    }
}

impl Coords {
    /// No numbers. It takes no memory.
    pub fn new() -> Coords
        ensures value { result ≡ [] }
    {
        Coords {
            numbers: [0; MOST_COORDINATES],
            count: 0,
        }
    }

    /// Puts a number at the end. It takes no memory.
    pub fn push(&mut self, number: u32)
        requires room { length self.old < MOST_COORDINATES }
        ensures value { self.new ≡ self.old ++ number ∷ [] }
    {
        self.numbers[self.count as usize] = number;
        self.count += 1;
    }

    /// How many numbers there are.
    pub fn len(&self) -> usize
        ensures value { result ≡ length self.now }
        ensures few { result ≤ MOST_COORDINATES }
    {
        self.count as usize
    }

    /// The number at an index, counted from 0. None exactly where the index isn't below the length.
    pub fn get(&self, index: usize) -> Option<&u32>
        ensures value { option_copied result ≡ slice_get self.now index }
    {
        self.as_slice().get(index)
    }

    /// The numbers in order.
    pub fn as_slice(&self) -> &[u32]
        ensures value { result.now ≡ self.now }
        ensures few { length result.now ≤ MOST_COORDINATES }
    {
        &self.numbers[..self.count as usize]
    }

    /// Equal coordinates. It takes no memory.
    pub fn copy(&self) -> Coords
        ensures value { result ≡ self.now }
    {
        Coords {
            numbers: self.numbers,
            count: self.count,
        }
    }
}

/// 0 to 8 indices into a statement's list of variables, each below 8.
#[derive(Debug, Drop, PartialEq, Eq)]
pub struct Vars {
    places: ArrayVec<u8, MOST_VARIABLES>,
}

impl Model for Vars {
    ghost use Rattle.std.specs.Prelude.{List, ℕ, ◌≤◌, ◌<◌, length, All};
    ghost use Rattle.dt_model.specs.declared.limits.TheConstants.{MOST_VARIABLES};

    ghost Value = { List ℕ };

    ghost view = { λ v. v.places.items };

    ghost invariant = { λ v. (length v.places.items ≤ MOST_VARIABLES) × All (λ p. p < MOST_VARIABLES) v.places.items };

    ghost inverse = { λ xs. record { places = record { items = xs } } };
}

impl Vars {
    /// No variables. It takes no memory.
    pub fn new() -> Vars
        ensures value { result ≡ [] }
    {
        Vars {
            places: ArrayVec::new(),
        }
    }

    /// Puts a variable's index at the end. It takes no memory.
    pub fn push(&mut self, place: u8)
        requires room { length self.old < MOST_VARIABLES }
        requires small { place < MOST_VARIABLES }
        ensures value { self.new ≡ self.old ++ place ∷ [] }
    {
        self.places.push(place);
    }

    /// How many variables there are.
    pub fn len(&self) -> usize
        ensures value { result ≡ length self.now }
        ensures few { result ≤ MOST_VARIABLES }
    {
        self.places.len()
    }

    /// The variable at an index, counted from 0. None exactly where the index isn't below the
    /// length.
    pub fn get(&self, index: usize) -> Option<&u8>
        ensures value { option_copied result ≡ slice_get self.now index }
    {
        self.places.get(index)
    }

    /// The variables in order.
    pub fn as_slice(&self) -> &[u8]
        ensures value { result.now ≡ self.now }
        ensures few { length result.now ≤ MOST_VARIABLES }
        ensures small { All (λ place. place < MOST_VARIABLES) result.now }
    {
        self.places.as_slice()
    }

    /// Equal variables. It takes no memory.
    pub fn copy(&self) -> Vars
        ensures value { result ≡ self.now }
    {
        match ArrayVec::try_from(self.places.as_slice()) {
            Ok(places) => Vars { places },
            Err(_) => unreachable!(),
        }
    }
}
