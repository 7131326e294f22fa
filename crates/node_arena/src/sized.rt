//! Nodes of one size.
ghost use Rattle.std.specs.Prelude.{◌≡◌, ◌<◌, ◌≤◌, ◌+◌, None, Some, IfSome, length, map, slice_get, slice_index_or, slice_set, take};
ghost use Rattle.std.specs.List.{insert, remove};
ghost use Rattle.node_arena.specs.Arenas.{NodeState, place_in, coordinate_at, with_link, without_link};
ghost use Rattle.node_arena.specs.Packing.{unpacked, link_of};

use crate::elements::Elem;
use crate::node_links::Links;
use crate::node_runs::Run;
use crate::node_views::NodeView;
use crate::numbers::NodeId;
use std::marker::Model;

/// The greatest number of elements in a node.
pub const MOST_ELEMENTS: u32 = 16;

/// A node of at most `E` elements and `L` links. Contracts see its kind, elements and links.
#[derive(Debug, Drop)]
pub(crate) struct Sized<const E: usize, const L: usize> {
    kind: u32,
    run: Run<E>,
    links: Links<L>,
}

const _: () = prove!(size_of::<Sized<2, 3>>() == 72);

const _: () = prove!(size_of::<Sized<4, 5>>() == 112);

const _: () = prove!(size_of::<Sized<8, 9>>() == 192);

const _: () = prove!(size_of::<Sized<16, 17>>() == 352);

impl<const E: usize, const L: usize> Model for Sized<E, L> {
    ghost use Rattle.node_arena.specs.Arenas.{NodeState};

    ghost Value = { NodeState };

    ghost view = { λ n. record { kind = n.kind; run = n.run; links = n.links } };
}

impl<const E: usize, const L: usize> Sized<E, L> {
    /// A node of this kind with these elements and links.
    pub(crate) fn of(kind: u32, run: &[Elem], links: &[Option<NodeId>]) -> Sized<E, L>
        requires run { length run.now ≤ E }
        requires links { length links.now ≤ L }
        ensures value { result ≡ record { kind = kind; run = run.now; links = links.now } }
    {
        Sized {
            kind,
            run: Run::of(run),
            links: Links::of(links),
        }
    }

    /// The node, to be read.
    pub(crate) fn view(&self) -> NodeView<'_>
        ensures value { result ≡ self.now }
    {
        NodeView::of(self.kind, self.run.packed(), self.links.packed())
    }

    /// Puts an element in at a place, and a link behind the link of that place if one is given.
    pub(crate) fn insert(&mut self, place: usize, elem: Elem, right: Option<NodeId>)
        requires in_range { place ≤ length self.old.run }
        requires room { length self.old.run < E }
        requires link { IfSome right (λ _. (place < length self.old.links) × (length self.old.links < L)) }
        ensures value { self.new ≡ record self.old { run = insert self.old.run place elem; links = with_link self.old.links place right } }
    {
        self.run.insert(place, elem);
        if right.is_some() {
            self.links.insert(place + 1, right);
        }
    }

    /// Takes the element at a place out, and the link at another place if one is given.
    pub(crate) fn remove(&mut self, place: usize, link: Option<usize>) -> Elem
        requires in_range { place < length self.old.run }
        requires link { IfSome link (λ j. j < length self.old.links) }
        ensures elem { slice_get self.old.run place ≡ Some result }
        ensures value { self.new ≡ record self.old { run = remove self.old.run place; links = without_link self.old.links link } }
    {
        if let Some(link) = link {
            self.links.remove(link);
        }
        self.run.remove(place)
    }

    /// Puts an element in the place of another.
    pub(crate) fn replace(&mut self, place: usize, elem: Elem)
        requires in_range { place < length self.old.run }
        ensures value { self.new ≡ record self.old { run = slice_set self.old.run place elem } }
    {
        self.run.set(place, elem);
    }

    /// Keeps the first elements, and has these links.
    pub(crate) fn cut(&mut self, keep: usize, links: &[Option<NodeId>])
        requires links { length links.now ≤ L }
        ensures value { self.new ≡ record self.old { run = take keep self.old.run; links = links.now } }
    {
        self.run.truncate(keep);
        self.links = Links::of(links);
    }

    /// Has these links.
    pub(crate) fn set_links(&mut self, links: &[Option<NodeId>])
        requires links { length links.now ≤ L }
        ensures value { self.new ≡ record self.old { links = links.now } }
    {
        self.links = Links::of(links);
    }
}
