//! How deep an insertion went, and what that means for a kept spine.
ghost use Rattle.std.specs.Prelude.{◌≡◌, ◌≤◌, ◌<◌, IfSome, true, false};
ghost use Rattle.node_arena.specs.Kinds.{shape_at};
ghost use Rattle.node_arena.specs.Passing.{deeper};
ghost use Rattle.node_arena.specs.declared.elements.TheConstants.{MOST_SPINE};
ghost use Rattle.insert_gen.specs.Below.{own_depth};
ghost use Rattle.insert_gen.specs.Inserting.{has_two, has_ends, raised};

use node_arena::{NodeKind, Shape, kind_of};

/// The depth below so many nodes with two links, where it is told.
pub(crate) fn deeper(above: u8, deep: Option<u8>) -> Option<u8>
    requires few { IfSome (deeper above deep) (λ n. n ≤ 255) }
    ensures value { result ≡ deeper above deep }
{
    match deep {
        None => None,
        Some(deep) => Some(above + deep),
    }
}

/// The spine of a structure of one node of this kind.
pub(crate) fn own_depth(kinds: &[NodeKind], kind: u32) -> u8
    ensures value { result ≡ own_depth (shape_at kinds.now kind) }
{
    match kind_of(kinds, kind).shape {
        Shape::Ends { .. } => 1,
        _ => 0,
    }
}

/// Whether a node with these links has two.
fn has_two(shape: Shape) -> bool
    ensures value { result ≡ has_two shape }
{
    match shape {
        Shape::Ends { pre, post } => true,
        _ => false,
    }
}

/// Whether the nodes of one of the kinds have two links.
fn has_ends(kinds: &[NodeKind]) -> bool
    ensures value { result ≡ has_ends kinds.now }
{
    kinds.iter().any(|kind| has_two(kind.shape))
}

/// The spine to be kept after an insertion that went so deep: no other one where no kind has two links.
pub(crate) fn raised(kinds: &[NodeKind], spine: u8, deep: Option<u8>) -> u8
    requires low { has_ends kinds.now ≡ true → spine < MOST_SPINE }
    ensures none { has_ends kinds.now ≡ false → result ≡ spine }
    ensures value { has_ends kinds.now ≡ true → result ≡ raised spine deep }
{
    if !has_ends(kinds) {
        return spine;
    }
    match deep {
        None => spine + 1,
        Some(deep) => spine.max(deep),
    }
}
