//! The nodes and flat runs of one mode.
ghost use Rattle.std.specs.Prelude.{◌≡◌, ◌≢◌, ◌<◌, ◌≤◌, ◌+◌, ℕ, [], None, Some, IsSome, IsSomeAnd, IfSome, OnOk, OnErr};
ghost use Rattle.std.specs.Prelude.{length, slice_get, slice_index_or, slice_set, take};
ghost use Rattle.node_arena.specs.Arenas.{NodeState, RunState, ArenaState, node_at, run_at, places_for, place_in, coordinate_at};
ghost use Rattle.node_arena.specs.Arenas.{ChangesNode, ChangesRun, RefusesNodes, RefusesRuns, CanInsert, with_elem, without_elem, with_more, with_less};
ghost use Rattle.node_arena.specs.Conforming.{IsRising};
ghost use Rattle.node_arena.specs.Kinds.{longest_of};
ghost use Rattle.node_arena.specs.Rules.{AreSound, Serves};
ghost use Rattle.node_arena.specs.declared.numbers.TheConstants.{NO_NUMBER};
ghost use Rattle.node_arena.specs.declared.sized.TheConstants.{MOST_ELEMENTS};

use crate::elements::Elem;
use crate::flat_slabs::Runs;
use crate::kinds::{NodeKind, longest_of};
use crate::node_views::NodeView;
use crate::numbers::{NodeId, RunId};
use crate::searching::search;
use crate::sized::MOST_ELEMENTS;
use crate::stores::Nodes;
use dt_model::{NoMemory, Steps};
use std::alloc::Global;
use std::marker::Model;
use std::sync::ledger::Ledger;

/// The nodes and the flat runs of one mode, each under a number. All nodes have places for the same number of elements. A node takes 72,
/// 112, 192 or 352 bytes, by that number.
#[derive(Drop)]
pub struct Arena {
    nodes: Nodes,
    runs: Runs,
}

impl Model for Arena {
    ghost use Rattle.node_arena.specs.Arenas.{ArenaState};

    ghost Value = { ArenaState };

    ghost view = { λ a. record { nodes = a.nodes; runs = a.runs } };
}

// ---- room

impl Arena {
    /// No nodes and no runs. A node will have places for `longest` elements, or some more. It takes no memory.
    pub fn new(alloc: Global, longest: u32) -> Arena
        requires in_range { longest ≤ MOST_ELEMENTS }
        ensures nodes { result.nodes.slots ≡ [] }
        ensures spare { result.nodes.spare ≡ 0 }
        ensures places { result.nodes.places ≡ 0 }
        ensures most { longest ≤ result.nodes.most }
        ensures small { result.nodes.most ≤ MOST_ELEMENTS }
        ensures runs { result.runs ≡ record { slots = []; spare = 0; room = 0; places = 0 } }
        ensures size { result.nodes.most ≡ places_for longest }
    {
        Arena {
            nodes: Nodes::new(alloc, longest),
            runs: Runs::new(alloc),
        }
    }

    /// No nodes and no runs, as `new` gives them. A node will have places for the longest run of these kinds, and for at least 2 elements.
    pub fn for_kinds(alloc: Global, kinds: &[NodeKind]) -> Arena
        requires sound { AreSound kinds.now }
        ensures nodes { result.nodes.slots ≡ [] }
        ensures spare { result.nodes.spare ≡ 0 }
        ensures places { result.nodes.places ≡ 0 }
        ensures size { result.nodes.most ≡ places_for (longest_of kinds.now) }
        ensures serves { Serves kinds.now result }
        ensures runs { result.runs ≡ record { slots = []; spare = 0; room = 0; places = 0 } }
    {
        Arena::new(alloc, longest_of(kinds))
    }

    /// How many more nodes can be made without memory.
    pub fn spare_nodes(&self) -> u32
        ensures value { result ≡ self.now.nodes.spare }
    {
        self.nodes.spare()
    }

    /// How many more flat runs can be made without memory.
    pub fn spare_runs(&self) -> usize
        ensures value { result ≡ self.now.runs.spare }
    {
        self.runs.spare()
    }

    /// Takes memory so that at least so many nodes can be made. That is refused when out of memory, and where there would be more than
    /// 4,294,967,295 nodes; then all is as before. One case is left, which no test shows: where the memory that is given is for more nodes than
    /// that, it is refused too, and no node can be made any more.
    pub fn reserve(&mut self, nodes: u32) -> Result<(), NoMemory>
        ensures ok { OnOk result (nodes ≤ self.new.nodes.spare) }
        ensures kept { OnOk result (self.old.nodes.spare ≤ self.new.nodes.spare) }
        ensures err { OnErr result (RefusesNodes self.old.nodes self.new.nodes) }
        ensures nodes { self.new.nodes.slots ≡ self.old.nodes.slots }
        ensures most { self.new.nodes.most ≡ self.old.nodes.most }
        ensures runs { self.new.runs ≡ self.old.runs }
    {
        self.nodes.reserve(nodes)
    }

    /// Takes memory so that at least so many runs can be made, each with at least that room. It is refused as in `reserve`.
    pub fn reserve_runs(&mut self, runs: u32, room: u32) -> Result<(), NoMemory>
        ensures ok { OnOk result ((runs ≤ self.new.runs.spare) × (room ≤ self.new.runs.room)) }
        ensures kept { OnOk result ((self.old.runs.spare ≤ self.new.runs.spare) × (self.old.runs.room ≤ self.new.runs.room)) }
        ensures err { OnErr result (RefusesRuns self.old.runs self.new.runs) }
        ensures runs { self.new.runs.slots ≡ self.old.runs.slots }
        ensures nodes { self.new.nodes ≡ self.old.nodes }
    {
        self.runs.reserve(runs, room)
    }
}

// ---- nodes are written: a tick each

impl Arena {
    /// Keeps a node of this kind, with these elements and links, under a new number. One tick.
    pub fn make<L: Ledger>(
        &mut self,
        kind: u32,
        run: &[Elem],
        links: &[Option<NodeId>],
        steps: &mut Steps<L>,
    ) -> NodeId
        requires spare { 0 < self.old.nodes.spare }
        requires run { length run.now ≤ self.old.nodes.most }
        requires links { length links.now ≤ self.old.nodes.most + 1 }
        ensures is_new { node_at self.old result ≡ None }
        ensures node { ChangesNode self.old self.new result (Some (record { kind = kind; run = run.now; links = links.now })) }
        ensures spare { self.new.nodes.spare + 1 ≡ self.old.nodes.spare }
        ensures steps { steps.new ≡ steps.old + 1 }
    {
        steps.tick();
        self.nodes.make(kind, run, links)
    }

    /// Puts a node of this kind, with these elements and links, in the place of another. One tick.
    pub fn put<L: Ledger>(
        &mut self,
        id: NodeId,
        kind: u32,
        run: &[Elem],
        links: &[Option<NodeId>],
        steps: &mut Steps<L>,
    )
        requires there { IsSome (node_at self.old id) }
        requires run { length run.now ≤ self.old.nodes.most }
        requires links { length links.now ≤ self.old.nodes.most + 1 }
        ensures node { ChangesNode self.old self.new id (Some (record { kind = kind; run = run.now; links = links.now })) }
        ensures spare { self.new.nodes.spare ≡ self.old.nodes.spare }
        ensures steps { steps.new ≡ steps.old + 1 }
    {
        steps.tick();
        self.nodes.put(id, kind, run, links);
    }

    /// Puts an element into a node at a place. If a link is given, it goes in behind the link of that place. One tick.
    pub fn insert<L: Ledger>(
        &mut self,
        id: NodeId,
        place: usize,
        elem: Elem,
        right: Option<NodeId>,
        steps: &mut Steps<L>,
    )
        requires there { IsSomeAnd (node_at self.old id) (λ n. CanInsert n self.old.nodes.most place right) }
        ensures node { IfSome (node_at self.old id) (λ n. ChangesNode self.old self.new id (Some (with_elem n place elem right))) }
        ensures spare { self.new.nodes.spare ≡ self.old.nodes.spare }
        ensures steps { steps.new ≡ steps.old + 1 }
    {
        steps.tick();
        self.nodes.insert(id, place, elem, right);
    }

    /// Takes the element at a place out of a node. If the place of a link is given, that link goes with it. One tick.
    pub fn remove<L: Ledger>(
        &mut self,
        id: NodeId,
        place: usize,
        link: Option<usize>,
        steps: &mut Steps<L>,
    ) -> Elem
        requires there { IsSomeAnd (node_at self.old id) (λ n. (place < length n.run) × IfSome link (λ j. j < length n.links)) }
        ensures elem { IfSome (node_at self.old id) (λ n. slice_get n.run place ≡ Some result) }
        ensures node { IfSome (node_at self.old id) (λ n. ChangesNode self.old self.new id (Some (without_elem n place link))) }
        ensures spare { self.new.nodes.spare ≡ self.old.nodes.spare }
        ensures steps { steps.new ≡ steps.old + 1 }
    {
        steps.tick();
        self.nodes.remove(id, place, link)
    }

    /// Puts an element in the place of another. One tick.
    pub fn replace<L: Ledger>(&mut self, id: NodeId, place: usize, elem: Elem, steps: &mut Steps<L>)
        requires there { IsSomeAnd (node_at self.old id) (λ n. place < length n.run) }
        ensures node { IfSome (node_at self.old id) (λ n. ChangesNode self.old self.new id (Some (record n { run = slice_set n.run place elem }))) }
        ensures spare { self.new.nodes.spare ≡ self.old.nodes.spare }
        ensures steps { steps.new ≡ steps.old + 1 }
    {
        steps.tick();
        self.nodes.replace(id, place, elem);
    }

    /// Cuts a node's run: it keeps the first elements, and has these links then. One tick.
    pub fn cut<L: Ledger>(
        &mut self,
        id: NodeId,
        keep: usize,
        links: &[Option<NodeId>],
        steps: &mut Steps<L>,
    )
        requires there { IsSome (node_at self.old id) }
        requires links { length links.now ≤ self.old.nodes.most + 1 }
        ensures node { IfSome (node_at self.old id) (λ n. ChangesNode self.old self.new id (Some (record n { run = take keep n.run; links = links.now }))) }
        ensures spare { self.new.nodes.spare ≡ self.old.nodes.spare }
        ensures steps { steps.new ≡ steps.old + 1 }
    {
        steps.tick();
        self.nodes.cut(id, keep, links);
    }

    /// Puts these links in the place of a node's links. One tick.
    pub fn set_links<L: Ledger>(
        &mut self,
        id: NodeId,
        links: &[Option<NodeId>],
        steps: &mut Steps<L>,
    )
        requires there { IsSome (node_at self.old id) }
        requires links { length links.now ≤ self.old.nodes.most + 1 }
        ensures node { IfSome (node_at self.old id) (λ n. ChangesNode self.old self.new id (Some (record n { links = links.now }))) }
        ensures spare { self.new.nodes.spare ≡ self.old.nodes.spare }
        ensures steps { steps.new ≡ steps.old + 1 }
    {
        steps.tick();
        self.nodes.set_links(id, links);
    }

    /// Takes a node out. Its number may be given out again, and one more node can be made without memory; not where there is memory for more nodes
    /// than there are numbers.
    pub fn free(&mut self, id: NodeId)
        requires there { IsSome (node_at self.old id) }
        ensures node { ChangesNode self.old self.new id None }
        ensures spare { self.old.nodes.places ≤ NO_NUMBER → self.new.nodes.spare ≡ self.old.nodes.spare + 1 }
        ensures kept { self.old.nodes.spare ≤ self.new.nodes.spare }
    {
        self.nodes.free(id);
    }
}

// ---- nodes are read

impl Arena {
    /// A node, to be read: of several readings of one node, this is the cheapest.
    pub fn view(&self, id: NodeId) -> NodeView<'_>
        requires there { IsSome (node_at self.now id) }
        ensures value { node_at self.now id ≡ Some result }
    {
        self.nodes.view(id)
    }

    /// The number of a node's kind.
    pub fn kind(&self, id: NodeId) -> u32
        requires there { IsSome (node_at self.now id) }
        ensures value { IfSome (node_at self.now id) (λ n. result ≡ n.kind) }
    {
        self.nodes.view(id).kind()
    }

    /// How many elements a node has.
    pub fn len(&self, id: NodeId) -> usize
        requires there { IsSome (node_at self.now id) }
        ensures value { IfSome (node_at self.now id) (λ n. result ≡ length n.run) }
    {
        self.nodes.view(id).len()
    }

    /// How many links a node has, absent ones too.
    pub fn link_count(&self, id: NodeId) -> usize
        requires there { IsSome (node_at self.now id) }
        ensures value { IfSome (node_at self.now id) (λ n. result ≡ length n.links) }
    {
        self.nodes.view(id).link_count()
    }

    /// The element of a node at a place. None exactly where there is no such place.
    pub fn elem(&self, id: NodeId, place: usize) -> Option<Elem>
        requires there { IsSome (node_at self.now id) }
        ensures value { IfSome (node_at self.now id) (λ n. result ≡ slice_get n.run place) }
    {
        self.nodes.view(id).elem(place)
    }

    /// The coordinate of a node's element at a place. None exactly where there is no such place.
    pub fn coordinate(&self, id: NodeId, place: usize) -> Option<u32>
        requires there { IsSome (node_at self.now id) }
        ensures value { IfSome (node_at self.now id) (λ n. result ≡ coordinate_at n.run place) }
    {
        self.nodes.view(id).coordinate(place)
    }

    /// The link of a node at a place. None where it is absent or there is no such place.
    pub fn link(&self, id: NodeId, place: usize) -> Option<NodeId>
        requires there { IsSome (node_at self.now id) }
        ensures value { IfSome (node_at self.now id) (λ n. result ≡ slice_index_or n.links place None) }
    {
        self.nodes.view(id).link(place)
    }

    /// How many elements of a node come before the first one that isn't below the coordinate.
    pub fn place(&self, id: NodeId, at: u32) -> usize
        requires there { IsSome (node_at self.now id) }
        ensures value { IfSome (node_at self.now id) (λ n. result ≡ place_in at n.run) }
    {
        self.nodes.view(id).place(at)
    }
}

// ---- flat runs

impl Arena {
    /// A new number with an empty run, which has the room of the spare ones.
    pub fn make_run(&mut self) -> RunId
        requires spare { 0 < self.old.runs.spare }
        ensures is_new { run_at self.old result ≡ None }
        ensures run { ChangesRun self.old self.new result (Some (record { elems = []; room = self.old.runs.room })) }
        ensures spare { self.new.runs.spare + 1 ≡ self.old.runs.spare }
    {
        self.runs.make()
    }

    /// Takes memory so that at least so many more elements go into a run. When out of memory all is as before.
    pub fn grow_run(&mut self, id: RunId, more: u32) -> Result<(), NoMemory>
        requires there { IsSome (run_at self.old id) }
        ensures ok { OnOk result (IfSome (run_at self.new id) (λ q. more ≤ q.room)) }
        ensures run { IfSome (run_at self.old id) (λ r. IsSomeAnd (run_at self.new id) (λ q. (q.elems ≡ r.elems) × (r.room ≤ q.room))) }
        ensures err { OnErr result (run_at self.new id ≡ run_at self.old id) }
        ensures others { (other : ℕ) → other ≢ id → run_at self.new other ≡ run_at self.old other }
        ensures spare { self.new.runs.spare ≡ self.old.runs.spare }
        ensures room { self.new.runs.room ≡ self.old.runs.room }
        ensures nodes { self.new.nodes ≡ self.old.nodes }
    {
        self.runs.grow_run(id, more)
    }

    /// Puts an element into a run at a place. It takes time by the number of elements behind.
    pub fn run_insert(&mut self, id: RunId, place: usize, elem: Elem)
        requires there { IsSomeAnd (run_at self.old id) (λ r. (place ≤ length r.elems) × (0 < r.room)) }
        ensures run { IfSome (run_at self.old id) (λ r. ChangesRun self.old self.new id (Some (with_more r place elem))) }
        ensures spare { self.new.runs.spare ≡ self.old.runs.spare }
    {
        self.runs.insert(id, place, elem);
    }

    /// Takes the element at a place out of a run. It takes time by the number of elements behind.
    pub fn run_remove(&mut self, id: RunId, place: usize) -> Elem
        requires there { IsSomeAnd (run_at self.old id) (λ r. place < length r.elems) }
        ensures elem { IfSome (run_at self.old id) (λ r. slice_get r.elems place ≡ Some result) }
        ensures run { IfSome (run_at self.old id) (λ r. ChangesRun self.old self.new id (Some (with_less r place))) }
        ensures spare { self.new.runs.spare ≡ self.old.runs.spare }
    {
        self.runs.remove(id, place)
    }

    /// Puts an element of a run in the place of another.
    pub fn run_replace(&mut self, id: RunId, place: usize, elem: Elem)
        requires there { IsSomeAnd (run_at self.old id) (λ r. place < length r.elems) }
        ensures run { IfSome (run_at self.old id) (λ r. ChangesRun self.old self.new id (Some (record r { elems = slice_set r.elems place elem }))) }
        ensures spare { self.new.runs.spare ≡ self.old.runs.spare }
    {
        self.runs.replace(id, place, elem);
    }

    /// Takes a run out. Its number may be given out again.
    pub fn free_run(&mut self, id: RunId)
        requires there { IsSome (run_at self.old id) }
        ensures run { ChangesRun self.old self.new id None }
        ensures spare { self.new.runs.spare ≡ self.old.runs.spare }
    {
        self.runs.free(id);
    }

    /// How many elements a run has.
    pub fn run_len(&self, id: RunId) -> usize
        requires there { IsSome (run_at self.now id) }
        ensures value { IfSome (run_at self.now id) (λ r. result ≡ length r.elems) }
    {
        self.runs.packed(id).len()
    }

    /// The element of a run at a place. None exactly where there is no such place.
    pub fn run_elem(&self, id: RunId, place: usize) -> Option<Elem>
        requires there { IsSome (run_at self.now id) }
        ensures value { IfSome (run_at self.now id) (λ r. result ≡ slice_get r.elems place) }
    {
        self.runs.packed(id).get(place).map(|packed| packed.elem())
    }

    /// How many elements of a run come before the first one that isn't below the coordinate: a binary search.
    pub fn run_place(&self, id: RunId, at: u32) -> usize
        requires there { IsSomeAnd (run_at self.now id) (λ r. IsRising r.elems) }
        ensures value { IfSome (run_at self.now id) (λ r. result ≡ place_in at r.elems) }
    {
        search(self.runs.packed(id), at)
    }
}
