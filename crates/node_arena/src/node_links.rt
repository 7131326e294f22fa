//! The links of one node, each in 4 bytes.
ghost use Rattle.std.specs.Prelude.{◌≡◌, ◌<◌, ◌≤◌, length, map};
ghost use Rattle.std.specs.List.{insert, remove};
ghost use Rattle.node_arena.specs.Packing.{link_of};

use crate::numbers::{NO_NUMBER, NodeId};
use arrayvec::ArrayVec;
use std::marker::Model;

/// At most `N` links. Contracts see the list of them, each a number or none.
#[derive(Debug, Drop)]
pub(crate) struct Links<const N: usize> {
    links: ArrayVec<u32, N>,
}

impl<const N: usize> Model for Links<N> {
    ghost use Rattle.std.specs.Prelude.{ℕ, List, Option, map};
    ghost use Rattle.node_arena.specs.Packing.{link_of};

    ghost Value = { List (Option ℕ) };

    ghost view = { λ r. map link_of r.links.items };
}

impl<const N: usize> Links<N> {
    /// These links.
    #[tactic(auto, using(crate::proofs::PackingLemmas::list_laws))]
    pub(crate) fn of(links: &[Option<NodeId>]) -> Links<N>
        requires fits { length links.now ≤ N }
        ensures value { result ≡ links.now }
    {
        let mut packed = ArrayVec::new();
        for link in links {
            packed.push(number_of(*link));
        }
        Links { links: packed }
    }

    /// The links as they are packed.
    pub(crate) fn packed(&self) -> &[u32]
        ensures value { map link_of result.now ≡ self.now }
    {
        self.links.as_slice()
    }

    /// Puts a link in at a place.
    #[tactic(auto, using(crate::proofs::PackingLemmas::list_laws))]
    pub(crate) fn insert(&mut self, place: usize, link: Option<NodeId>)
        requires in_range { place ≤ length self.old }
        requires room { length self.old < N }
        ensures value { self.new ≡ insert self.old place link }
    {
        self.links.insert(place, number_of(link));
    }

    /// Takes the link at a place out.
    #[tactic(auto, using(crate::proofs::PackingLemmas::list_laws))]
    pub(crate) fn remove(&mut self, place: usize)
        requires in_range { place < length self.old }
        ensures value { self.new ≡ remove self.old place }
    {
        self.links.remove(place);
    }
}

/// The number that stands for a link.
fn number_of(link: Option<NodeId>) -> u32
    ensures value { link_of result ≡ link }
{
    match link {
        Some(id) => id.number(),
        None => NO_NUMBER,
    }
}

/// The link that a number stands for.
pub(crate) fn link_of(number: u32) -> Option<NodeId>
    ensures value { result ≡ link_of number }
{
    if number == NO_NUMBER {
        None
    } else {
        Some(NodeId::of(number))
    }
}
