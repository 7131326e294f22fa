//! A flat run: elements in one list, with room for more.
ghost use Rattle.std.specs.Prelude.{◌≡◌, ◌<◌, ◌≤◌, ◌+◌, ◌-◌, [], Some, IfOk, OnOk, OnErr, length, map, slice_get, slice_set};
ghost use Rattle.std.specs.List.{insert, remove};
ghost use Rattle.node_arena.specs.Arenas.{RunState};
ghost use Rattle.node_arena.specs.Packing.{unpacked};

use crate::elements::Elem;
use crate::packing::Packed;
use dt_model::NoMemory;
use std::alloc::Global;
use std::marker::Model;

/// Elements, and how many more can be put in without memory. An element takes 16 bytes.
#[derive(Drop)]
pub(crate) struct FlatRun {
    elems: Vec<Packed>,
    room: usize,
}

impl Model for FlatRun {
    ghost use Rattle.std.specs.Prelude.{◌+◌, ◌≤◌, map, vec_len, vec_capacity};
    ghost use Rattle.node_arena.specs.Arenas.{RunState};
    ghost use Rattle.node_arena.specs.Packing.{unpacked};

    ghost Value = { RunState };

    ghost view = { λ r. record { elems = map unpacked r.elems.items; room = r.room } };

    ghost invariant = { λ r. vec_len r.elems + r.room ≤ vec_capacity r.elems };
}

impl FlatRun {
    /// No elements, with room for so many.
    pub(crate) fn with_room(alloc: Global, room: usize) -> Result<FlatRun, NoMemory>
        ensures ok { IfOk result (λ r. r ≡ record { elems = []; room = room }) }
    {
        let elems = Vec::with_capacity(alloc, room)?;
        Ok(FlatRun { elems, room })
    }

    /// The elements as they are packed.
    pub(crate) fn packed(&self) -> &[Packed]
        ensures value { map unpacked result.now ≡ self.now.elems }
    {
        self.elems.as_slice()
    }

    /// Puts an element in at a place.
    #[tactic(auto, using(crate::proofs::PackingLemmas::list_laws))]
    pub(crate) fn insert(&mut self, place: usize, elem: Elem)
        requires room { 0 < self.old.room }
        requires in_range { place ≤ length self.old.elems }
        ensures value { self.new ≡ record { elems = insert self.old.elems place elem; room = self.old.room - 1 } }
    {
        self.room -= 1;
        match self.elems.insert(place, Packed::pack(&elem)) {
            Ok(()) => {}
            Err(_) => unreachable!(),
        }
    }

    /// Takes the element at a place out.
    #[tactic(auto, using(crate::proofs::PackingLemmas::list_laws))]
    pub(crate) fn remove(&mut self, place: usize) -> Elem
        requires in_range { place < length self.old.elems }
        ensures value { slice_get self.old.elems place ≡ Some result }
        ensures rest { self.new ≡ record { elems = remove self.old.elems place; room = self.old.room + 1 } }
    {
        let packed = self.elems.remove(place);
        self.room += 1;
        packed.elem()
    }

    /// Puts an element in the place of another.
    #[tactic(auto, using(crate::proofs::PackingLemmas::list_laws))]
    pub(crate) fn replace(&mut self, place: usize, elem: Elem)
        requires in_range { place < length self.old.elems }
        ensures value { self.new ≡ record self.old { elems = slice_set self.old.elems place elem } }
    {
        let elems = &mut self.elems;
        elems[place] = Packed::pack(&elem);
    }

    /// Takes room for at least so many more elements, and for as many as there are if that can be had.
    pub(crate) fn grow(&mut self, more: usize) -> Result<(), NoMemory>
        ensures elems { self.new.elems ≡ self.old.elems }
        ensures ok { OnOk result (more ≤ self.new.room) }
        ensures kept { self.old.room ≤ self.new.room }
        ensures err { OnErr result (self.new ≡ self.old) }
    {
        if more <= self.room {
            return Ok(());
        }
        let all = self.elems.len().max(more);
        if self.elems.reserve(all).is_ok() {
            self.room = all;
            return Ok(());
        }
        self.elems.reserve(more)?;
        self.room = more;
        Ok(())
    }
}
