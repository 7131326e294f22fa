//! Kinds by number.
ghost use Rattle.std.specs.Prelude.{◌≡◌};
ghost use Rattle.node_arena.specs.Kinds.{shape_at};
ghost use Rattle.chunk_tree.specs.Ways.{kind_on, has_two_links};

use node_arena::{NodeKind, Shape, Side, kind_of};

/// The number of the kind at a side of nodes of a kind; 0 where they haven't two links.
pub(crate) fn kind_on(kinds: &[NodeKind], kind: u32, side: Side) -> u32
    ensures value { result ≡ kind_on (shape_at kinds.now kind) side }
{
    match kind_of(kinds, kind).shape {
        Shape::Ends { pre, post } => match side {
            Side::Pre => pre,
            Side::Post => post,
        },
        _ => 0,
    }
}

/// Whether nodes of a kind have two links.
pub(crate) fn has_two_links(kinds: &[NodeKind], kind: u32) -> bool
    ensures value { result ≡ has_two_links (shape_at kinds.now kind) }
{
    match kind_of(kinds, kind).shape {
        Shape::Ends { pre, post } => true,
        _ => false,
    }
}
