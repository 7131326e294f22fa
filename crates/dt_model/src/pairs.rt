//! Lists of pairs: coordinates and a value, packed by their order.

ghost use Rattle.std.specs.Prelude.{◌≡◌, ℕ, List, [], ◌∷◌, ◌++◌, ◌≤◌, ◌<◌, ◌==◌, ◌^◌, not, length, drop, filter, All, OnOk, OnErr, IfOk, IfErr, slice_get};
ghost use Rattle.std.specs.Cmp.{nat_eq_equiv, and_equiv, on_equiv, and_per, on_per, partial_equiv_from_equiv};
ghost use Rattle.std.specs.Cmp.Lexicographic.{pointwise, lists_per, lists_equiv, nat_list_eq_equiv};
ghost use Rattle.std.specs.Iterator.{YieldsFirst, item_count};
ghost use Rattle.dt_model.specs.Pairs.{same_pair};
ghost use Rattle.dt_model.specs.Kept.{pairs_in};

use crate::lists::{Back, NoMemory};
use crate::packed_pairs::PackedPairs;
use crate::places::Coords;
use std::alloc::Global;
use std::fmt;
use std::marker::Model;

/// Pairs of one order packed, and pairs of several orders as they are.
#[derive(Drop)]
enum Kept {
    Packed(PackedPairs),
    Mixed(Vec<(Coords, u64)>),
}

/// The loaded lines of a tensor in their order: coordinates with their values, which contracts see as the list of them. While all pairs have the
/// same order, a pair of order 1 or 2 takes 16 bytes, of order 3 or 4 24, of order 5 or 6 32, and of
/// order 7 or 8 40; else each takes 48. The room grows by doubling. Indices are counted from 0.
#[derive(Drop)]
pub struct Pairs {
    alloc: Global,
    kept: Kept,
}

/// Cells and their values, ascending by coordinates and without zeros.
pub type Nonzeros = Pairs;

impl Model for Pairs {
    ghost use Rattle.std.specs.Prelude.{List, ℕ};

    ghost Value = { List (List ℕ × ℕ) };

    ghost use Rattle.dt_model.specs.Kept.{pairs_in};

    ghost view = { λ a. pairs_in a.kept };
}

impl Pairs {
    /// No pairs. It takes no memory until the first push.
    pub fn new(alloc: Global) -> Pairs
        ensures value { result ≡ [] }
    {
        Pairs {
            alloc,
            kept: Kept::Packed(PackedPairs::new(alloc, 0)),
        }
    }

    /// Puts a pair at the end. When out of memory the pair comes back, and the pairs are as before.
    pub fn push(&mut self, pair: (Coords, u64)) -> Result<(), Back<(Coords, u64)>>
        ensures ok { OnOk result (self.new ≡ self.old ++ pair ∷ []) }
        ensures err { OnErr result (self.new ≡ self.old) }
        ensures back { IfErr result (λ e. e.back ≡ pair) }
    {
        match self.put(&pair.0, pair.1) {
            Ok(()) => Ok(()),
            Err(NoMemory) => Err(Back { back: pair }),
        }
    }

    /// Puts a copy of a pair at the end.
    fn put(&mut self, at: &Coords, value: u64) -> Result<(), NoMemory>
        ensures ok { OnOk result (self.new ≡ self.old ++ (at.now, value) ∷ []) }
        ensures err { OnErr result (self.new ≡ self.old) }
    {
        let alloc = self.alloc;
        match &mut self.kept {
            Kept::Mixed(pairs) => put_mixed(pairs, at, value),
            Kept::Packed(pairs) => {
                if pairs.order() == at.len() {
                    pairs.push(at, value)
                } else {
                    self.kept = with_other_order(alloc, pairs, at, value)?;
                    Ok(())
                }
            }
        }
    }

    /// How many pairs there are.
    pub fn len(&self) -> usize
        ensures value { result ≡ length self.now }
    {
        match &self.kept {
            Kept::Packed(pairs) => pairs.len(),
            Kept::Mixed(pairs) => pairs.len(),
        }
    }

    /// The pair at an index. None exactly where the index isn't below the length.
    pub fn get(&self, index: usize) -> Option<(Coords, u64)>
        ensures value { result ≡ slice_get self.now index }
    {
        match &self.kept {
            Kept::Packed(pairs) => pairs.get(index),
            Kept::Mixed(pairs) => match pairs.get(index) {
                Some(pair) => Some((pair.0.copy(), pair.1)),
                None => None,
            },
        }
    }

    /// The pairs of a packed list whose value isn't 0, in the same order: one allocation.
    pub fn nonzeros_of(alloc: Global, pairs: &PackedPairs) -> Result<Pairs, NoMemory>
        ensures value { IfOk result (λ kept. kept ≡ filter (λ p. not (p.1 == 0)) pairs.now.pairs) }
        ensures small { IfOk result (λ kept. All (λ p. p.1 < 2 ^ 64) kept) }
    {
        Ok(Pairs {
            alloc,
            kept: Kept::Packed(pairs.nonzeros(alloc)?),
        })
    }

    /// A copy of pairs which all have this order: one allocation where they are packed by it.
    pub fn packed(&self, alloc: Global, order: usize) -> Result<PackedPairs, NoMemory>
        requires small { order ≤ 8 }
        requires same { All (λ p. length p.0 ≡ order) self.now }
        ensures order { IfOk result (λ packed. packed.order ≡ order) }
        ensures pairs { IfOk result (λ packed. packed.pairs ≡ self.now) }
    {
        match &self.kept {
            Kept::Packed(pairs) if pairs.order() == order => pairs.copy(alloc),
            _ => self.packed_anew(alloc, order),
        }
    }

    /// A copy of pairs which all have this order, pair by pair.
    fn packed_anew(&self, alloc: Global, order: usize) -> Result<PackedPairs, NoMemory>
        requires small { order ≤ 8 }
        requires same { All (λ p. length p.0 ≡ order) self.now }
        ensures order { IfOk result (λ packed. packed.order ≡ order) }
        ensures pairs { IfOk result (λ packed. packed.pairs ≡ self.now) }
    {
        let mut packed = PackedPairs::new(alloc, order);
        for index in 0..self.len() {
            match self.get(index) {
                Some((at, value)) => packed.push(&at, value)?,
                None => unreachable!(),
            }
        }
        Ok(packed)
    }

    /// The pairs in order.
    pub fn iter(&self) -> PairsIterator<'_>
        ensures value { result ≡ self.now }
    {
        PairsIterator {
            pairs: self,
            index: 0,
        }
    }
}

/// Puts a copy of a pair at the end of pairs that aren't packed.
fn put_mixed(pairs: &mut Vec<(Coords, u64)>, at: &Coords, value: u64) -> Result<(), NoMemory>
    ensures ok { OnOk result (pairs.new.items ≡ pairs.old.items ++ (at.now, value) ∷ []) }
    ensures err { OnErr result (pairs.new.items ≡ pairs.old.items) }
{
    pairs.push((at.copy(), value))?;
    Ok(())
}

/// Packed pairs with one of another order at the end: packed anew where it is the first.
fn with_other_order(
    alloc: Global,
    pairs: &PackedPairs,
    at: &Coords,
    value: u64,
) -> Result<Kept, NoMemory>
    ensures value { IfOk result (λ kept. pairs_in kept ≡ pairs.now.pairs ++ (at.now, value) ∷ []) }
{
    if pairs.len() == 0 {
        let mut packed = PackedPairs::new(alloc, at.len());
        packed.push(at, value)?;
        return Ok(Kept::Packed(packed));
    }
    let mut mixed = unpacked(alloc, pairs)?;
    put_mixed(&mut mixed, at, value)?;
    Ok(Kept::Mixed(mixed))
}

/// The packed pairs, each by itself.
fn unpacked(alloc: Global, pairs: &PackedPairs) -> Result<Vec<(Coords, u64)>, NoMemory>
    ensures value { IfOk result (λ list. list.items ≡ pairs.now.pairs) }
{
    let mut list = Vec::new(alloc);
    for index in 0..pairs.len() {
        match pairs.get(index) {
            Some((at, value)) => put_mixed(&mut list, &at, value)?,
            None => unreachable!(),
        }
    }
    Ok(list)
}

impl PartialEq for Pairs {
    ghost eq = { pointwise same_pair };

    ghost laws = { lists_per (and_per (on_per (λ p. p.0) (partial_equiv_from_equiv nat_list_eq_equiv)) (on_per (λ p. p.1) (partial_equiv_from_equiv nat_eq_equiv))) };

    fn eq(&self, other: &Self) -> bool {
        if self.len() != other.len() {
            return false;
        }
        for index in 0..self.len() {
            if self.get(index) != other.get(index) {
                return false;
            }
        }
        true
    }
}

impl Eq for Pairs {
    ghost laws = { lists_equiv (and_equiv (on_equiv (λ p. p.0) nat_list_eq_equiv) (on_equiv (λ p. p.1) nat_eq_equiv)) };
}

impl fmt::Debug for Pairs {
    fn fmt<W: fmt::Write>(&self, f: &mut fmt::Formatter<W>) -> fmt::Result {
        f.debug_list().entries(self.iter()).finish()
    }
}

/// The pairs of a list that are left, which contracts see as the list of them.
#[derive(Drop)]
pub struct PairsIterator<'a> {
    pairs: &'a Pairs,
    index: usize,
}

impl<'a> Model for PairsIterator<'a> {
    ghost use Rattle.std.specs.Prelude.{List, ℕ, drop, ◌≤◌, length};

    ghost Value = { List (List ℕ × ℕ) };

    ghost view = { λ a. drop a.index a.pairs.now };

    ghost invariant = { λ a. a.index ≤ length a.pairs.now };
}

impl Iterator for PairsIterator<'_> {
    type Item = (Coords, u64);

    ghost next_gives = { YieldsFirst (λ pairs. pairs) };

    ghost remaining = { item_count (λ pairs. pairs) };

    fn next(&mut self) -> Option<(Coords, u64)> {
        if self.index == self.pairs.len() {
            return None;
        }
        let next = self.pairs.get(self.index);
        self.index += 1;
        next
    }
}
