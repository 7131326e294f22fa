//! The kinds of a schema, with their links by number.
ghost use Rattle.std.specs.Prelude.{◌≡◌, ◌↔◌, ◌<◌, ◌≤◌, IfSome, IsTrue, length, nat_eq, position};
ghost use Rattle.std.specs.Cmp.Lexicographic.{pointwise};
ghost use Rattle.dt_model.specs.declared.limits.TheConstants.{MOST_KINDS};
ghost use Rattle.node_arena.specs.declared.kinds.Shape.TheVariants.{Woven};
ghost use Rattle.node_arena.specs.Kinds.{number_named, shape_of, numbered, kinds_of, root_of, bare_kind, kind_at, shape_at, longest_of};

use arrayvec::ArrayVec;
use dt_model::{Kind, Links, MOST_KINDS, Name, Schema};

/// The links of a node of some kind. Each leads to a structure of the kind with that number.
#[derive(Clone, Copy, Debug, PartialEq, Eq)]
pub enum Shape {
    /// No links.
    Flat,
    /// One link, which is walked after the run.
    Post(u32),
    /// Two links: `pre` is walked before the run, `post` after it.
    Ends { pre: u32, post: u32 },
    /// No children, or one more than elements, of the node's own kind, walked between the elements.
    Woven,
}

/// A kind of node, whose run has `lo` to `hi` elements, with its links by number.
#[derive(Clone, Copy, Debug, PartialEq, Eq)]
pub struct NodeKind {
    /// The least number of elements in a run.
    pub lo: u32,
    /// The greatest number of elements in a run.
    pub hi: u32,
    /// The links of its nodes.
    pub shape: Shape,
}

impl Default for NodeKind {
    /// A placeholder: it fills the unused places of an `ArrayVec` of kinds.
    fn default() -> NodeKind
        ensures value { result ≡ bare_kind }
    {
        NodeKind {
            lo: 1,
            hi: 1,
            shape: Shape::Flat,
        }
    }
}

/// The number of the first kind with this name, if there is one.
fn position_named(kinds: &[Kind], name: &Name) -> Option<usize>
    ensures value { result ≡ position (λ k. pointwise nat_eq k.name name.now) kinds.now }
    ensures below { IfSome result (λ i. i < length kinds.now) }
{
    kinds
        .iter()
        .position(|kind| kind.name.bytes() == name.bytes())
}

/// The number of the first kind with this name; the number of kinds where there is none.
fn number_named(kinds: &[Kind], name: &Name) -> u32
    requires few { length kinds.now ≤ MOST_KINDS }
    ensures value { result ≡ number_named kinds.now name.now }
{
    match position_named(kinds, name) {
        Some(number) => number as u32,
        None => kinds.len() as u32,
    }
}

/// Links by number.
fn shape_of(kinds: &[Kind], links: &Links) -> Shape
    requires few { length kinds.now ≤ MOST_KINDS }
    ensures value { result ≡ shape_of kinds.now links.now }
{
    match links {
        Links::Flat => Shape::Flat,
        Links::Post(post) => Shape::Post(number_named(kinds, post)),
        Links::Ends { pre, post } => Shape::Ends {
            pre: number_named(kinds, pre),
            post: number_named(kinds, post),
        },
        Links::Woven => Shape::Woven,
    }
}

/// A kind with its links by number.
fn numbered(kinds: &[Kind], kind: &Kind) -> NodeKind
    requires few { length kinds.now ≤ MOST_KINDS }
    ensures value { result ≡ numbered kinds.now kind.now }
{
    NodeKind {
        lo: kind.lo,
        hi: kind.hi,
        shape: shape_of(kinds, &kind.links),
    }
}

/// The kinds of a schema, in order of declaration. Kinds are numbered from 0. It takes no memory.
pub fn kinds_of(schema: &Schema) -> ArrayVec<NodeKind, MOST_KINDS>
    ensures value { result.items ≡ kinds_of schema.now }
{
    let kinds = schema.kinds.as_slice();
    let mut all = ArrayVec::new();
    for kind in kinds {
        all.push(numbered(kinds, kind));
    }
    all
}

/// The number of the root's kind.
pub fn root_of(schema: &Schema) -> u32
    ensures value { result ≡ root_of schema.now }
{
    number_named(schema.kinds.as_slice(), &schema.root)
}

/// The greatest number of elements that a run of any of the kinds may have, as `Arena::new` wants it; 0 where there is no kind.
pub fn longest_of(kinds: &[NodeKind]) -> u32
    ensures value { result ≡ longest_of kinds.now }
{
    let mut longest = 0;
    for kind in kinds {
        longest = kind.hi.max(longest);
    }
    longest
}

/// The kind with this number; one without links where there is none.
pub fn kind_of(kinds: &[NodeKind], kind: u32) -> NodeKind
    ensures value { result ≡ kind_at kinds.now kind }
{
    match kinds.get(kind as usize) {
        Some(declared) => *declared,
        None => NodeKind::default(),
    }
}

/// Whether the kind with this number is woven.
pub fn is_woven(kinds: &[NodeKind], kind: u32) -> bool
    ensures value { IsTrue result ↔ (shape_at kinds.now kind ≡ Woven) }
{
    match kind_of(kinds, kind).shape {
        Shape::Woven => true,
        _ => false,
    }
}
