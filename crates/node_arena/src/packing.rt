//! Elements in 16 bytes.
ghost use Rattle.std.specs.Prelude.{◌≡◌, ◌<◌};
ghost use Rattle.node_arena.specs.Packing.{unpacked, inner, top_at, tag_of};

use crate::elements::{Elem, Held, Structure, Top};
use crate::numbers::{NO_NUMBER, NodeId, RunId};

/// What a packed element holds.
#[derive(Clone, Copy, Debug, PartialEq, Eq)]
pub(crate) enum Tag {
    /// A number.
    Number,
    /// A structure of nodes, or an empty one.
    Node,
    /// A flat run.
    Run,
}

/// An element in 16 bytes. The word is the number that is held, or the top of a structure with its length above.
#[derive(Clone, Copy, Debug, PartialEq, Eq)]
pub(crate) struct Packed {
    at: u32,
    tag: Tag,
    spine: u8,
    word: u64,
}

const _: () = prove!(size_of::<Packed>() == 16);

impl Default for Packed {
    /// A placeholder, which fills the unused places of an `ArrayVec` of elements.
    fn default() -> Packed {
        Packed {
            at: 0,
            tag: Tag::Number,
            spine: 0,
            word: 0,
        }
    }
}

impl Packed {
    /// The element, packed.
    pub(crate) fn pack(elem: &Elem) -> Packed
        ensures value { unpacked result ≡ elem.now }
    {
        match &elem.held {
            Held::Number(word) => Packed {
                at: elem.at,
                tag: Tag::Number,
                spine: 0,
                word: *word,
            },
            Held::Inner(inner) => Packed {
                at: elem.at,
                tag: tag_of(&inner.top),
                spine: inner.spine,
                word: u64::from(number_of(&inner.top)) + u64::from(inner.len) * 4294967296,
            },
        }
    }

    /// The element.
    pub(crate) fn elem(&self) -> Elem
        ensures value { result ≡ unpacked self.now }
    {
        let held = match self.tag {
            Tag::Number => Held::Number(self.word),
            Tag::Node => self.inner(),
            Tag::Run => self.inner(),
        };
        Elem { at: self.at, held }
    }

    /// The structure that is held.
    fn inner(&self) -> Held
        ensures value { result ≡ inner self.now.tag self.now.word self.now.spine }
    {
        Held::Inner(Structure {
            top: top_at(self.tag, (self.word % 4294967296) as u32),
            len: (self.word / 4294967296) as u32,
            spine: self.spine,
        })
    }

    /// The coordinate.
    pub(crate) fn at(&self) -> u32
        ensures value { result ≡ self.now.at }
    {
        self.at
    }
}

/// How the top of a structure is told.
fn tag_of(top: &Top) -> Tag
    ensures value { result ≡ tag_of top.now }
{
    match top {
        Top::Empty => Tag::Node,
        Top::Node(_) => Tag::Node,
        Top::Run(_) => Tag::Run,
    }
}

/// The number in the top of a structure.
fn number_of(top: &Top) -> u32
    ensures value { top_at (tag_of top.now) result ≡ top.now }
{
    match top {
        Top::Empty => NO_NUMBER,
        Top::Node(id) => id.number(),
        Top::Run(id) => id.number(),
    }
}

/// The top of a structure with this number.
fn top_at(tag: Tag, number: u32) -> Top
    ensures value { result ≡ top_at tag number }
{
    if number == NO_NUMBER {
        return Top::Empty;
    }
    match tag {
        Tag::Number => Top::Empty,
        Tag::Node => Top::Node(NodeId::of(number)),
        Tag::Run => Top::Run(RunId::of(number)),
    }
}
