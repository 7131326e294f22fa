//! The spare nodes and runs that one insertion reserves.
ghost use Rattle.std.specs.Prelude.{◌≡◌, ◌≤◌, ℕ};
ghost use Rattle.node_arena.specs.Kinds.{kinds_of, root_of};
ghost use Rattle.insert_gen.specs.Needs.{weaves, has_woven, nodes_for, runs_for, WantsNodes, Wants};

use crate::rows::InsertCode;
use node_arena::{MOST_PASSED, NodeKind, Shape, Structure, Top, digits, kind_of};

/// Spare nodes, and spare flat runs.
#[derive(Clone, Copy, Debug, PartialEq, Eq)]
pub struct Spares {
    /// The nodes.
    pub nodes: u32,
    /// The flat runs.
    pub runs: u32,
}

/// Whether a node with these links is woven.
fn weaves(shape: Shape) -> bool
    ensures value { result ≡ weaves shape }
{
    match shape {
        Shape::Woven => true,
        _ => false,
    }
}

/// Whether one of the kinds is woven.
pub(crate) fn has_woven(kinds: &[NodeKind]) -> bool
    ensures value { result ≡ has_woven kinds.now }
{
    kinds.iter().any(|kind| weaves(kind.shape))
}

/// The nodes for one insertion where the root has these links, and the length so many binary digits.
fn nodes_for(kinds: &[NodeKind], shape: Shape, digits: u8) -> u32
    requires few { digits ≤ 32 }
    ensures value { result ≡ nodes_for kinds.now shape digits }
    ensures most { result ≤ 257 }
{
    match shape {
        Shape::Flat => 0,
        Shape::Woven => 1 + u32::from(digits),
        _ => {
            if has_woven(kinds) {
                1 + MOST_PASSED as u32 * u32::from(digits)
            } else {
                1
            }
        }
    }
}

/// The runs for one insertion where the root has these links.
fn runs_for(shape: Shape, top: Top) -> u32
    ensures value { result ≡ runs_for shape top }
    ensures most { result ≤ 1 }
{
    match shape {
        Shape::Flat => match top {
            Top::Empty => 1,
            _ => 0,
        },
        _ => 0,
    }
}

/// So many spare nodes and runs are enough for one insertion into the structure. The nodes depend on the schema and the length alone: at most 1, and
/// `MOST_PASSED` for each of 32 binary digits, so 257.
pub fn need(code: &InsertCode, top: &Structure) -> Spares
    ensures value { Wants (kinds_of code.now) (root_of code.now) top.now result }
    ensures rises { (len n : ℕ) → top.now.len ≤ len → WantsNodes (kinds_of code.now) (root_of code.now) len n → result.nodes ≤ n }
    ensures most { result.nodes ≤ 300 }
    ensures most_runs { result.runs ≤ 1 }
{
    let kinds = code.kinds();
    let shape = kind_of(kinds, code.root()).shape;
    Spares {
        nodes: nodes_for(kinds, shape, digits(top.len)),
        runs: runs_for(shape, top.top),
    }
}
