//! Where a coordinate is among packed elements.
ghost use Rattle.std.specs.Prelude.{◌≡◌, map};
ghost use Rattle.node_arena.specs.Arenas.{place_in};
ghost use Rattle.node_arena.specs.Conforming.{IsRising};
ghost use Rattle.node_arena.specs.Packing.{unpacked};

use crate::packing::Packed;

/// How many elements come before the first one that isn't below the coordinate: one after another.
#[tactic(auto, using(crate::proofs::SearchLemmas::place_laws))]
pub(crate) fn place_in(run: &[Packed], at: u32) -> usize
    ensures value { result ≡ place_in at (map unpacked run.now) }
{
    for i in 0..run.len() {
        if at <= run[i].at() {
            return i;
        }
    }
    run.len()
}

/// The same of elements that rise: a binary search.
#[tactic(auto, using(crate::proofs::SearchLemmas::place_laws))]
pub(crate) fn search(run: &[Packed], at: u32) -> usize
    requires rising { IsRising (map unpacked run.now) }
    ensures value { result ≡ place_in at (map unpacked run.now) }
{
    let mut low = 0;
    let mut high = run.len();
    'halving: while low < high {
        let middle = low + (high - low) / 2;
        if run[middle].at() < at {
            low = middle + 1;
        } else {
            high = middle;
        }
    }
    low
}
