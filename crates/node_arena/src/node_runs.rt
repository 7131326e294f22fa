//! The elements of one node, packed in place.
ghost use Rattle.std.specs.Prelude.{◌≡◌, ◌<◌, ◌≤◌, Some, length, map, slice_get, slice_set, take};
ghost use Rattle.std.specs.List.{insert, remove};
ghost use Rattle.node_arena.specs.Packing.{unpacked};

use crate::elements::Elem;
use crate::packing::Packed;
use arrayvec::ArrayVec;
use std::marker::Model;

/// At most `N` elements. Contracts see the list of them.
#[derive(Debug, Drop)]
pub(crate) struct Run<const N: usize> {
    elems: ArrayVec<Packed, N>,
}

impl<const N: usize> Model for Run<N> {
    ghost use Rattle.std.specs.Prelude.{List, map};
    ghost use Rattle.node_arena.specs.declared.elements.Elem.{Elem};
    ghost use Rattle.node_arena.specs.Packing.{unpacked};

    ghost Value = { List Elem };

    ghost view = { λ r. map unpacked r.elems.items };
}

impl<const N: usize> Run<N> {
    /// These elements.
    #[tactic(auto, using(crate::proofs::PackingLemmas::list_laws))]
    pub(crate) fn of(elems: &[Elem]) -> Run<N>
        requires fits { length elems.now ≤ N }
        ensures value { result ≡ elems.now }
    {
        let mut packed = ArrayVec::new();
        for elem in elems {
            packed.push(Packed::pack(elem));
        }
        Run { elems: packed }
    }

    /// The elements as they are packed.
    pub(crate) fn packed(&self) -> &[Packed]
        ensures value { map unpacked result.now ≡ self.now }
    {
        self.elems.as_slice()
    }

    /// Puts an element in at a place.
    #[tactic(auto, using(crate::proofs::PackingLemmas::list_laws))]
    pub(crate) fn insert(&mut self, place: usize, elem: Elem)
        requires in_range { place ≤ length self.old }
        requires room { length self.old < N }
        ensures value { self.new ≡ insert self.old place elem }
    {
        self.elems.insert(place, Packed::pack(&elem));
    }

    /// Takes the element at a place out.
    #[tactic(auto, using(crate::proofs::PackingLemmas::list_laws))]
    pub(crate) fn remove(&mut self, place: usize) -> Elem
        requires in_range { place < length self.old }
        ensures value { slice_get self.old place ≡ Some result }
        ensures rest { self.new ≡ remove self.old place }
    {
        self.elems.remove(place).elem()
    }

    /// Puts an element in the place of another.
    #[tactic(auto, using(crate::proofs::PackingLemmas::list_laws))]
    pub(crate) fn set(&mut self, place: usize, elem: Elem)
        requires in_range { place < length self.old }
        ensures value { self.new ≡ slice_set self.old place elem }
    {
        self.elems[place] = Packed::pack(&elem);
    }

    /// Keeps the first elements, and drops the others.
    #[tactic(auto, using(crate::proofs::PackingLemmas::list_laws))]
    pub(crate) fn truncate(&mut self, keep: usize)
        ensures value { self.new ≡ take keep self.old }
    {
        self.elems.truncate(keep);
    }
}
