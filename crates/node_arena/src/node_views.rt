//! Nodes, to be read.
ghost use Rattle.std.specs.Prelude.{◌≡◌, length, map, slice_get, slice_index_or};
ghost use Rattle.node_arena.specs.Arenas.{place_in, coordinate_at};
ghost use Rattle.node_arena.specs.Packing.{unpacked, link_of};

use crate::elements::Elem;
use crate::node_links::link_of;
use crate::numbers::NodeId;
use crate::packing::Packed;
use crate::searching::place_in;
use std::marker::Model;

/// A node, to be read in its arena: its number is looked up once, and each reading is then one access. Contracts see the node.
#[derive(Debug, Drop)]
pub struct NodeView<'a> {
    kind: u32,
    run: &'a [Packed],
    links: &'a [u32],
}

impl<'a> Model for NodeView<'a> {
    ghost use Rattle.std.specs.Prelude.{map};
    ghost use Rattle.node_arena.specs.Arenas.{NodeState};
    ghost use Rattle.node_arena.specs.Packing.{unpacked, link_of};

    ghost Value = { NodeState };

    ghost view = { λ n. record { kind = n.kind; run = map unpacked n.run.now; links = map link_of n.links.now } };
}

impl<'a> NodeView<'a> {
    /// A node of these parts.
    pub(crate) fn of(kind: u32, run: &'a [Packed], links: &'a [u32]) -> NodeView<'a>
        ensures value { result ≡ record { kind = kind; run = map unpacked run.now; links = map link_of links.now } }
    {
        NodeView { kind, run, links }
    }

    /// The elements as they are packed.
    pub(crate) fn packed(&self) -> &[Packed]
        ensures value { map unpacked result.now ≡ self.now.run }
    {
        self.run
    }

    /// The number of the kind.
    pub fn kind(&self) -> u32
        ensures value { result ≡ self.now.kind }
    {
        self.kind
    }

    /// How many elements there are.
    pub fn len(&self) -> usize
        ensures value { result ≡ length self.now.run }
    {
        self.run.len()
    }

    /// How many links there are, absent ones too.
    pub fn link_count(&self) -> usize
        ensures value { result ≡ length self.now.links }
    {
        self.links.len()
    }

    /// The element at a place. None exactly where there is no such place.
    pub fn elem(&self, place: usize) -> Option<Elem>
        ensures value { result ≡ slice_get self.now.run place }
    {
        self.run.get(place).map(|packed| packed.elem())
    }

    /// The coordinate of the element at a place. None exactly where there is no such place.
    pub fn coordinate(&self, place: usize) -> Option<u32>
        ensures value { result ≡ coordinate_at self.now.run place }
    {
        self.run.get(place).map(|packed| packed.at())
    }

    /// The link at a place. None where it is absent or there is no such place.
    pub fn link(&self, place: usize) -> Option<NodeId>
        ensures value { result ≡ slice_index_or self.now.links place None }
    {
        if place < self.links.len() {
            link_of(self.links[place])
        } else {
            None
        }
    }

    /// How many elements come before the first one that isn't below the coordinate.
    pub fn place(&self, at: u32) -> usize
        ensures value { result ≡ place_in at self.now.run }
    {
        place_in(self.run, at)
    }
}
