//! Walks and seeks through structures that no build makes, beside a plain count.
ghost use Rattle.std.specs.Prelude.{◌≡◌, ◌≤◌, true, IfSome, length};
ghost use Rattle.node_arena.specs.Conforming.{IsRising};
ghost use Rattle.node_arena.specs.declared.elements.TheConstants.{MOST_SPINE};
ghost use Rattle.iter_gen.specs.Trials.{IsThin, thin_size};
ghost use Rattle.iter_gen.specs.Walkers.{CanBeWalked};

use crate::WalkCode;
use crate::tests::{chained, code_of_one, is_right_through, items, mixed, paired};
use crate::thin::{Way, between, chain, path, structure_of, woven};
use dt_model::{Links, NoMemory, Steps};
use node_arena::{Arena, Elem, MOST_ELEMENTS, NodeKind, Shape, Structure, kind_of};
use std::alloc::Global;
use std::marker::Brand;
use std::sync::ledger::{Blank, Ledger};
use std::test::Fail;

/// A structure whose nodes have one element each.
#[derive(Clone, Copy, Debug)]
enum Thin {
    /// A path of nodes with two links.
    Path(Way),
    /// A chain.
    Chain,
    /// A woven structure with so many levels below its root.
    Woven(u32),
    /// A node between such a one and a chain.
    Between(u32),
}

/// Whether the nodes of a kind have these links, and may have one element.
fn is_thin(kinds: &[NodeKind], kind: u32, shape: Shape) -> bool
    ensures thin { result ≡ true → IsThin kinds.now kind shape }
{
    let declared = kind_of(kinds, kind);
    declared.lo == 1 && declared.hi >= 1 && declared.shape == shape
}

/// How many elements a woven structure has with so many levels below its root, at most 5.
fn size_of(levels: u32) -> u32
    requires few { levels ≤ 5 }
    ensures value { result ≡ thin_size levels }
{
    match levels {
        0 => 1,
        1 => 3,
        2 => 7,
        3 => 15,
        4 => 31,
        _ => 63,
    }
}

/// Makes a structure of these elements, if the kinds have its shape and their number fits.
fn grown<L: Ledger>(
    code: &WalkCode,
    thin: Thin,
    elems: &[Elem],
    arena: &mut Arena,
    steps: &mut Steps<L>,
) -> Option<Structure>
    requires rising { IsRising elems.now }
    requires few { length elems.now ≤ 3000 }
    requires spare { length elems.now ≤ arena.old.nodes.spare }
    requires wide { 1 ≤ arena.old.nodes.most }
    ensures walked { IfSome result (CanBeWalked code.now arena.new) }
{
    let kinds = code.kinds();
    let len = elems.len() as u32;
    if code.root() != 0 {
        return None;
    }
    match thin {
        Thin::Path(way) if len <= 96 && is_thin(kinds, 0, Shape::Ends { pre: 0, post: 0 }) => {
            let root = path(0, elems, way, arena, steps);
            Some(structure_of(root, len))
        }
        Thin::Chain if is_thin(kinds, 0, Shape::Post(0)) => {
            let root = chain(0, elems, arena, steps);
            Some(structure_of(root, len))
        }
        Thin::Woven(levels) if levels <= 5 && is_thin(kinds, 0, Shape::Woven) => {
            if len != size_of(levels) {
                return None;
            }
            let root = woven(0, levels, elems, arena, steps);
            Some(structure_of(Some(root), len))
        }
        Thin::Between(levels) if levels <= 5 && are_mixed(kinds) => {
            let size = size_of(levels) as usize;
            if elems.len() <= size {
                return None;
            }
            let root = between(levels, size, elems, arena, steps);
            Some(structure_of(Some(root), len))
        }
        _ => None,
    }
}

/// Whether kind 0 has links to kind 1 before the run and to kind 2 behind it, of which one is woven and the other a chain.
fn are_mixed(kinds: &[NodeKind]) -> bool
    ensures root { result ≡ true → IsThin kinds.now 0 (Shape.Ends 1 2) }
    ensures woven { result ≡ true → IsThin kinds.now 1 Shape.Woven }
    ensures chain { result ≡ true → IsThin kinds.now 2 (Shape.Post 2) }
{
    is_thin(kinds, 0, Shape::Ends { pre: 1, post: 2 })
        && is_thin(kinds, 1, Shape::Woven)
        && is_thin(kinds, 2, Shape::Post(2))
}

/// Whether walks and seeks through such a structure of so many elements are right.
fn is_right<L: Ledger>(
    alloc: Global,
    blank: Blank,
    code: &WalkCode,
    thin: Thin,
    count: u32,
) -> Result<bool, NoMemory>
    requires name { blank.name ≡ L.name }
    requires parts { blank.parts ≡ L.parts }
    requires one { blank.parts ≡ 1 }
    requires few { count ≤ 3000 }
{
    let mut steps = Steps::<L>::open(blank);
    let mut arena = Arena::new(alloc, MOST_ELEMENTS);
    arena.reserve(count)?;
    let elems = items(count);
    match grown(code, thin, elems.as_slice(), &mut arena, &mut steps) {
        None => Ok(false),
        Some(top) => Ok(is_right_through(code, &arena, top, count, &mut steps)),
    }
}

/// The same, with a count of ticks, and with a schema that may be refused.
fn is_right_at(
    alloc: Global,
    code: Option<WalkCode>,
    thin: Thin,
    count: u32,
) -> Result<bool, NoMemory>
    requires few { count ≤ 3000 }
{
    match code {
        None => Ok(false),
        Some(code) => is_right::<Brand>(alloc, Blank::new(1), &code, thin, count),
    }
}

#[test]
fn paths_of_96_nodes_are_walked_and_sought(rt: HostRuntime) -> Result<(), Fail> {
    for count in [1, 2, 3, 50, 95, 96] {
        let count = count.min(96);
        assert!(rt; is_right_at(rt.alloc(), paired(1), Thin::Path(Way::Before), count)?);
        assert!(rt; is_right_at(rt.alloc(), paired(1), Thin::Path(Way::Behind), count)?);
        assert!(rt; is_right_at(rt.alloc(), paired(7), Thin::Path(Way::ByTurns), count)?);
    }
    Ok(())
}

#[test]
fn long_chains_of_least_runs_are_walked_and_sought(rt: HostRuntime) -> Result<(), Fail> {
    assert!(rt; is_right_at(rt.alloc(), chained(8), Thin::Chain, 17)?);
    assert!(rt; is_right_at(rt.alloc(), chained(8), Thin::Chain, 3000)?);
    Ok(())
}

#[test]
fn woven_structures_of_six_heights_and_least_runs_are_walked_and_sought(
    rt: HostRuntime,
) -> Result<(), Fail> {
    for levels in 0..6 {
        let count = size_of(levels.min(5));
        assert!(rt;
            is_right_at(
                rt.alloc(),
                code_of_one(1, 2, Links::Woven),
                Thin::Woven(levels),
                count.min(63)
            )?
        );
    }
    Ok(())
}

#[test]
fn nodes_between_woven_structures_and_chains_are_walked_and_sought(
    rt: HostRuntime,
) -> Result<(), Fail> {
    for levels in 0..6 {
        assert!(rt; is_right_at(rt.alloc(), mixed(), Thin::Between(levels), 64)?);
        assert!(rt; is_right_at(rt.alloc(), mixed(), Thin::Between(levels), 200)?);
    }
    Ok(())
}
