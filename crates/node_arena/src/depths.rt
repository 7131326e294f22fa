//! How deep a new node goes.
ghost use Rattle.std.specs.Prelude.{◌≡◌, ◌≤◌};
ghost use Rattle.node_arena.specs.Kinds.{shape_at};
ghost use Rattle.node_arena.specs.Passing.{wedge_depth};
ghost use Rattle.node_arena.specs.declared.elements.Step.TheVariants.{Done};
ghost use Rattle.node_arena.specs.declared.elements.TheConstants.{MOST_SPINE};

use crate::elements::{MOST_SPINE, Step};
use crate::kinds::{NodeKind, Shape, kind_of};

/// The answer of an insertion that made a node of this kind, below so many nodes with two links, where something hangs behind its run or not.
pub fn wedged(kinds: &[NodeKind], kind: u32, behind: bool, above: u8) -> Step
    requires few { above ≤ MOST_SPINE }
    ensures value { result ≡ Done (wedge_depth (shape_at kinds.now kind) behind above) }
{
    match kind_of(kinds, kind).shape {
        Shape::Ends { .. } if behind => Step::Done { deep: None },
        Shape::Ends { .. } => Step::Done {
            deep: Some(above + 1),
        },
        _ => Step::Done { deep: Some(0) },
    }
}
