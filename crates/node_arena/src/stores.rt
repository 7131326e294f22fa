//! Nodes under numbers, of the least of four sizes that serves.
ghost use Rattle.std.specs.Prelude.{◌≡◌, ◌≢◌, ◌<◌, ◌≤◌, ◌+◌, ℕ, None, Some, IsSome, IsSomeAnd, IfSome, OnOk, OnErr, [], length, map, slice_get, slice_index_or, slice_set, take};
ghost use Rattle.node_arena.specs.Arenas.{NodeState, NodesState, node_in, places_for, IsNodeChange, RefusesNodes, CanInsert, with_elem, without_elem};
ghost use Rattle.node_arena.specs.Packing.{unpacked, link_of};
ghost use Rattle.node_arena.specs.Stores.{places_of, room_of, slots_of, most_of};
ghost use Rattle.node_arena.specs.declared.numbers.TheConstants.{NO_NUMBER};

use crate::elements::Elem;
use crate::node_slabs;
use crate::node_views::NodeView;
use crate::numbers::NodeId;
use crate::sized::Sized;
use dt_model::NoMemory;
use slab::Slab;
use std::alloc::Global;
use std::marker::Model;

/// A slab of nodes of one of four sizes.
#[derive(Drop)]
pub(crate) enum Store {
    /// Nodes of at most 2 elements.
    Two(Slab<Sized<2, 3>>),
    /// Nodes of at most 4 elements.
    Four(Slab<Sized<4, 5>>),
    /// Nodes of at most 8 elements.
    Eight(Slab<Sized<8, 9>>),
    /// Nodes of at most 16 elements.
    Sixteen(Slab<Sized<16, 17>>),
}

/// The nodes of an arena, and how many more can be made without memory.
#[derive(Drop)]
pub(crate) struct Nodes {
    store: Store,
    spare: u32,
}

impl Model for Nodes {
    ghost use Rattle.std.specs.Prelude.{◌≤◌};
    ghost use Rattle.node_arena.specs.Arenas.{NodesState};

    ghost Value = { NodesState };

    ghost use Rattle.node_arena.specs.Stores.{nodes_of, room_of};

    ghost view = { λ a. nodes_of a.store a.spare };

    ghost invariant = { λ a. a.spare ≤ room_of a.store };
}

impl Nodes {
    /// No nodes, of the least size that has places for so many elements.
    pub(crate) fn new(alloc: Global, longest: u32) -> Nodes
        requires in_range { longest ≤ 16 }
        ensures slots { result.slots ≡ [] }
        ensures spare { result.spare ≡ 0 }
        ensures places { result.places ≡ 0 }
        ensures most { longest ≤ result.most }
        ensures small { result.most ≤ 16 }
        ensures size { result.most ≡ places_for longest }
    {
        Nodes {
            store: store_for(alloc, longest),
            spare: 0,
        }
    }

    /// How many more nodes can be made without memory.
    pub(crate) fn spare(&self) -> u32
        ensures value { result ≡ self.now.spare }
    {
        self.spare
    }

    /// Takes room for at least so many more nodes.
    pub(crate) fn reserve(&mut self, nodes: u32) -> Result<(), NoMemory>
        ensures ok { OnOk result (nodes ≤ self.new.spare) }
        ensures kept { OnOk result (self.old.spare ≤ self.new.spare) }
        ensures err { OnErr result (RefusesNodes self.old self.new) }
        ensures slots { self.new.slots ≡ self.old.slots }
        ensures most { self.new.most ≡ self.old.most }
    {
        if nodes <= self.spare {
            return Ok(());
        }
        grow(&mut self.store, nodes);
        let room = room_of(&self.store);
        if room < self.spare {
            self.spare = 0;
        }
        if room < nodes {
            return Err(NoMemory);
        }
        self.spare = room;
        Ok(())
    }

    /// Keeps a node under a new number.
    pub(crate) fn make(&mut self, kind: u32, run: &[Elem], links: &[Option<NodeId>]) -> NodeId
        requires spare { 0 < self.old.spare }
        requires run { length run.now ≤ self.old.most }
        requires links { length links.now ≤ self.old.most + 1 }
        ensures is_new { node_in self.old result ≡ None }
        ensures node { IsNodeChange self.old self.new result (Some (record { kind = kind; run = run.now; links = links.now })) }
        ensures spare { self.new.spare + 1 ≡ self.old.spare }
    {
        self.spare -= 1;
        let number = match &mut self.store {
            Store::Two(slab) => node_slabs::make(slab, kind, run, links),
            Store::Four(slab) => node_slabs::make(slab, kind, run, links),
            Store::Eight(slab) => node_slabs::make(slab, kind, run, links),
            Store::Sixteen(slab) => node_slabs::make(slab, kind, run, links),
        };
        NodeId::of(number as u32)
    }

    /// Puts a node in the place of another.
    pub(crate) fn put(&mut self, id: NodeId, kind: u32, run: &[Elem], links: &[Option<NodeId>])
        requires there { IsSome (node_in self.old id) }
        requires run { length run.now ≤ self.old.most }
        requires links { length links.now ≤ self.old.most + 1 }
        ensures node { IsNodeChange self.old self.new id (Some (record { kind = kind; run = run.now; links = links.now })) }
        ensures spare { self.new.spare ≡ self.old.spare }
    {
        let number = id.number() as usize;
        match &mut self.store {
            Store::Two(slab) => node_slabs::put(slab, number, kind, run, links),
            Store::Four(slab) => node_slabs::put(slab, number, kind, run, links),
            Store::Eight(slab) => node_slabs::put(slab, number, kind, run, links),
            Store::Sixteen(slab) => node_slabs::put(slab, number, kind, run, links),
        }
    }

    /// Puts an element into a node, and a link behind the link of that place if one is given.
    pub(crate) fn insert(&mut self, id: NodeId, place: usize, elem: Elem, right: Option<NodeId>)
        requires there { IsSomeAnd (node_in self.old id) (λ n. CanInsert n self.old.most place right) }
        ensures node { IfSome (node_in self.old id) (λ n. IsNodeChange self.old self.new id (Some (with_elem n place elem right))) }
        ensures spare { self.new.spare ≡ self.old.spare }
    {
        let number = id.number() as usize;
        match &mut self.store {
            Store::Two(slab) => node_slabs::insert(slab, number, place, elem, right),
            Store::Four(slab) => node_slabs::insert(slab, number, place, elem, right),
            Store::Eight(slab) => node_slabs::insert(slab, number, place, elem, right),
            Store::Sixteen(slab) => node_slabs::insert(slab, number, place, elem, right),
        }
    }

    /// Takes an element out of a node, and a link if its place is given.
    pub(crate) fn remove(&mut self, id: NodeId, place: usize, link: Option<usize>) -> Elem
        requires there { IsSomeAnd (node_in self.old id) (λ n. (place < length n.run) × IfSome link (λ j. j < length n.links)) }
        ensures elem { IfSome (node_in self.old id) (λ n. slice_get n.run place ≡ Some result) }
        ensures node { IfSome (node_in self.old id) (λ n. IsNodeChange self.old self.new id (Some (without_elem n place link))) }
        ensures spare { self.new.spare ≡ self.old.spare }
    {
        let number = id.number() as usize;
        match &mut self.store {
            Store::Two(slab) => node_slabs::remove(slab, number, place, link),
            Store::Four(slab) => node_slabs::remove(slab, number, place, link),
            Store::Eight(slab) => node_slabs::remove(slab, number, place, link),
            Store::Sixteen(slab) => node_slabs::remove(slab, number, place, link),
        }
    }

    /// Puts an element in the place of another.
    pub(crate) fn replace(&mut self, id: NodeId, place: usize, elem: Elem)
        requires there { IsSomeAnd (node_in self.old id) (λ n. place < length n.run) }
        ensures node { IfSome (node_in self.old id) (λ n. IsNodeChange self.old self.new id (Some (record n { run = slice_set n.run place elem }))) }
        ensures spare { self.new.spare ≡ self.old.spare }
    {
        let number = id.number() as usize;
        match &mut self.store {
            Store::Two(slab) => node_slabs::replace(slab, number, place, elem),
            Store::Four(slab) => node_slabs::replace(slab, number, place, elem),
            Store::Eight(slab) => node_slabs::replace(slab, number, place, elem),
            Store::Sixteen(slab) => node_slabs::replace(slab, number, place, elem),
        }
    }

    /// Keeps the first elements of a node, which has these links then.
    pub(crate) fn cut(&mut self, id: NodeId, keep: usize, links: &[Option<NodeId>])
        requires there { IsSome (node_in self.old id) }
        requires links { length links.now ≤ self.old.most + 1 }
        ensures node { IfSome (node_in self.old id) (λ n. IsNodeChange self.old self.new id (Some (record n { run = take keep n.run; links = links.now }))) }
        ensures spare { self.new.spare ≡ self.old.spare }
    {
        let number = id.number() as usize;
        match &mut self.store {
            Store::Two(slab) => node_slabs::cut(slab, number, keep, links),
            Store::Four(slab) => node_slabs::cut(slab, number, keep, links),
            Store::Eight(slab) => node_slabs::cut(slab, number, keep, links),
            Store::Sixteen(slab) => node_slabs::cut(slab, number, keep, links),
        }
    }

    /// A node has these links then.
    pub(crate) fn set_links(&mut self, id: NodeId, links: &[Option<NodeId>])
        requires there { IsSome (node_in self.old id) }
        requires links { length links.now ≤ self.old.most + 1 }
        ensures node { IfSome (node_in self.old id) (λ n. IsNodeChange self.old self.new id (Some (record n { links = links.now }))) }
        ensures spare { self.new.spare ≡ self.old.spare }
    {
        let number = id.number() as usize;
        match &mut self.store {
            Store::Two(slab) => node_slabs::set_links(slab, number, links),
            Store::Four(slab) => node_slabs::set_links(slab, number, links),
            Store::Eight(slab) => node_slabs::set_links(slab, number, links),
            Store::Sixteen(slab) => node_slabs::set_links(slab, number, links),
        }
    }

    /// Takes a node out, so that one more can be made.
    pub(crate) fn free(&mut self, id: NodeId)
        requires there { IsSome (node_in self.old id) }
        ensures node { IsNodeChange self.old self.new id None }
        ensures spare { self.old.places ≤ NO_NUMBER → self.new.spare ≡ self.old.spare + 1 }
        ensures kept { self.old.spare ≤ self.new.spare }
    {
        free_in(&mut self.store, id);
        if self.spare < room_of(&self.store) {
            self.spare += 1;
        }
    }

    /// What a node is made of.
    pub(crate) fn view(&self, id: NodeId) -> NodeView<'_>
        requires there { IsSome (node_in self.now id) }
        ensures node { node_in self.now id ≡ Some result }
    {
        let number = id.number() as usize;
        match &self.store {
            Store::Two(slab) => slab[number].view(),
            Store::Four(slab) => slab[number].view(),
            Store::Eight(slab) => slab[number].view(),
            Store::Sixteen(slab) => slab[number].view(),
        }
    }
}

/// An empty slab of the least size that has places for so many elements.
fn store_for(alloc: Global, longest: u32) -> Store
    requires in_range { longest ≤ 16 }
    ensures slots { slots_of result ≡ [] }
    ensures places { places_of result ≡ 0 }
    ensures most { longest ≤ most_of result }
    ensures small { most_of result ≤ 16 }
    ensures size { most_of result ≡ places_for longest }
{
    if longest <= 2 {
        Store::Two(Slab::new(alloc))
    } else if longest <= 4 {
        Store::Four(Slab::new(alloc))
    } else if longest <= 8 {
        Store::Eight(Slab::new(alloc))
    } else {
        Store::Sixteen(Slab::new(alloc))
    }
}

/// Takes room for so many more nodes, if it can be had.
fn grow(store: &mut Store, nodes: u32)
    ensures slots { slots_of store.new ≡ slots_of store.old }
    ensures most { most_of store.new ≡ most_of store.old }
    ensures room { places_of store.new ≤ NO_NUMBER → room_of store.old ≤ room_of store.new }
    ensures none { NO_NUMBER < places_of store.new → room_of store.new ≡ 0 }
{
    match store {
        Store::Two(slab) => node_slabs::reserve(slab, nodes),
        Store::Four(slab) => node_slabs::reserve(slab, nodes),
        Store::Eight(slab) => node_slabs::reserve(slab, nodes),
        Store::Sixteen(slab) => node_slabs::reserve(slab, nodes),
    }
}

/// Takes a node out.
fn free_in(store: &mut Store, id: NodeId)
    requires there { IsSome (slice_index_or (slots_of store.old) id None) }
    ensures changed { slice_index_or (slots_of store.new) id None ≡ None }
    ensures others { (other : ℕ) → other ≢ id → slice_index_or (slots_of store.new) other None ≡ slice_index_or (slots_of store.old) other None }
    ensures most { most_of store.new ≡ most_of store.old }
    ensures places { places_of store.new ≡ places_of store.old }
    ensures room { places_of store.old ≤ NO_NUMBER → room_of store.new ≡ room_of store.old + 1 }
    ensures none { NO_NUMBER < places_of store.old → room_of store.old ≡ 0 }
{
    let number = id.number() as usize;
    match store {
        Store::Two(slab) => node_slabs::free(slab, number),
        Store::Four(slab) => node_slabs::free(slab, number),
        Store::Eight(slab) => node_slabs::free(slab, number),
        Store::Sixteen(slab) => node_slabs::free(slab, number),
    }
}

/// How many more nodes can be made without memory.
fn room_of(store: &Store) -> u32
    ensures value { result ≡ room_of store.now }
{
    match store {
        Store::Two(slab) => node_slabs::spare(slab),
        Store::Four(slab) => node_slabs::spare(slab),
        Store::Eight(slab) => node_slabs::spare(slab),
        Store::Sixteen(slab) => node_slabs::spare(slab),
    }
}
