//! Folds and look-ups of structures of each shape and of many sizes, against the plain list.
ghost use Rattle.std.specs.Prelude.{◌≡◌, ◌≤◌, ◌<◌, [], ◌∷◌, length};
ghost use Rattle.iter_gen.specs.LookingUp.{CanBeRead};
ghost use Rattle.node_arena.specs.Rules.{AreSound};

use crate::lists::elements;
use crate::works::arena_for;
use bulk_build::build;
use dt_model::{NoMemory, Steps};
use iter_gen::{Visitor, find, fold, look_up};
use node_arena::{Arena, Elem, Held, NodeKind, Shape, Structure};
use std::alloc::Global;
use std::marker::Brand;
use std::sync::ledger::{Blank, Ledger};
use std::test::Fail;

/// The sizes that are tried.
const SIZES: [u32; 12] = [0, 1, 2, 3, 7, 8, 9, 17, 64, 81, 200, 729];

/// Takes elements until it has so many, and sees whether their coordinates are 1, 4, 7 and so on.
#[derive(Debug, Drop)]
struct InOrder {
    taken: u32,
    most: u32,
    right: bool,
}

impl Visitor for InOrder {
    type Stop = u32;

    ghost allows = { λ s e. Unit {0} };

    ghost visits = { λ old e result new. Unit {0} };

    fn visit(&mut self, elem: Elem) -> Result<(), u32> {
        if self.taken == self.most {
            return Err(elem.at);
        }
        self.right = self.right && elem.at == self.taken.wrapping_mul(3).wrapping_add(1);
        self.taken = self.taken.wrapping_add(1);
        Ok(())
    }
}

/// How many elements a fold hands to a visitor that takes so many, and at which coordinate it stops; none where their order is wrong.
fn taken(
    kinds: &[NodeKind],
    arena: &Arena,
    structure: &Structure,
    most: u32,
) -> Option<(u32, Option<u32>)>
    requires sound { AreSound kinds.now }
    requires conforms { CanBeRead kinds.now arena.now structure.now }
{
    let mut visitor = InOrder {
        taken: 0,
        most,
        right: true,
    };
    let stop = fold(kinds, arena, structure, &mut visitor).err();
    if visitor.right {
        Some((visitor.taken, stop))
    } else {
        None
    }
}

/// Whether a fold of a structure of so many elements hands over all of them, or half of them to a visitor that stops there.
fn is_folded(kinds: &[NodeKind], arena: &Arena, structure: &Structure, count: u32) -> bool
    requires sound { AreSound kinds.now }
    requires conforms { CanBeRead kinds.now arena.now structure.now }
    requires few { count ≤ 4096 }
{
    let half = count / 2;
    let stop = if count == 0 { None } else { Some(3 * half + 1) };
    taken(kinds, arena, structure, u32::MAX) == Some((count, None))
        && taken(kinds, arena, structure, half) == Some((half, stop))
}

/// Whether a look-up finds the element of a list at a coordinate, and nothing where there is none.
fn is_looked_up(
    kinds: &[NodeKind],
    arena: &Arena,
    structure: &Structure,
    count: u32,
    at: u32,
) -> bool
    requires sound { AreSound kinds.now }
    requires conforms { CanBeRead kinds.now arena.now structure.now }
{
    let wanted = if at % 3 == 1 && at / 3 < count {
        Some(Elem {
            at,
            held: Held::Number(7 * (at / 3) as u64),
        })
    } else {
        None
    };
    look_up(kinds, arena, structure, at) == wanted
        && find(kinds, arena, structure, at).is_some() == wanted.is_some()
}

/// Whether all coordinates up to those behind the last one are looked up rightly.
fn are_looked_up(kinds: &[NodeKind], arena: &Arena, structure: &Structure, count: u32) -> bool
    requires sound { AreSound kinds.now }
    requires conforms { CanBeRead kinds.now arena.now structure.now }
    requires few { count ≤ 4096 }
{
    for at in 0..3 * count + 3 {
        if !is_looked_up(kinds, arena, structure, count, at) {
            return false;
        }
    }
    is_looked_up(kinds, arena, structure, count, u32::MAX)
}

/// Whether a structure of so many elements is folded and looked up rightly.
fn is_right<L: Ledger>(
    alloc: Global,
    blank: Blank,
    kinds: &[NodeKind],
    count: u32,
) -> Result<bool, NoMemory>
    requires name { blank.name ≡ L.name }
    requires parts { blank.parts ≡ L.parts }
    requires one { blank.parts ≡ 1 }
    requires some { 0 < length kinds.now }
    requires sound { AreSound kinds.now }
    requires few { count ≤ 4096 }
{
    let mut steps = Steps::<L>::open(blank);
    let mut arena = arena_for(alloc, kinds);
    let elems = elements(alloc, count)?;
    let structure = build(kinds, 0, &elems, &mut arena, &mut steps)?;
    Ok(
        is_folded(kinds, &arena, &structure, count)
            && are_looked_up(kinds, &arena, &structure, count),
    )
}

/// The first size at which something is wrong.
fn wrong_at(alloc: Global, kinds: &[NodeKind]) -> Result<Option<u32>, NoMemory>
    requires some { 0 < length kinds.now }
    requires sound { AreSound kinds.now }
{
    for size in SIZES {
        let count = size.min(4096);
        if !is_right::<Brand>(alloc, Blank::new(1), kinds, count)? {
            return Ok(Some(count));
        }
    }
    Ok(None)
}

/// A schema of one kind.
fn one_kind(lo: u32, hi: u32, shape: Shape) -> [NodeKind; 1]
    ensures value { result ≡ record { lo = lo; hi = hi; shape = shape } ∷ [] }
{
    [NodeKind { lo, hi, shape }]
}

/// Two links, the first of them to a woven structure and the second to a chain.
fn mixed_kinds() -> [NodeKind; 3]
    ensures sound { AreSound result }
{
    [
        NodeKind {
            lo: 1,
            hi: 4,
            shape: Shape::Ends { pre: 1, post: 2 },
        },
        NodeKind {
            lo: 1,
            hi: 3,
            shape: Shape::Woven,
        },
        NodeKind {
            lo: 1,
            hi: 4,
            shape: Shape::Post(2),
        },
    ]
}

#[test]
fn a_structure_of_each_shape_has_what_the_list_has(rt: HostRuntime) -> Result<(), Fail> {
    assert_eq!(rt; wrong_at(rt.alloc(), &one_kind(1, 1, Shape::Flat))?, None);
    assert_eq!(rt;
        wrong_at(rt.alloc(), &one_kind(1, 8, Shape::Post(0)))?,
        None
    );
    assert_eq!(rt;
        wrong_at(rt.alloc(), &one_kind(1, 1, Shape::Ends { pre: 0, post: 0 }))?,
        None
    );
    assert_eq!(rt; wrong_at(rt.alloc(), &one_kind(4, 8, Shape::Woven))?, None);
    Ok(())
}

#[test]
fn a_structure_of_mixed_kinds_has_what_the_list_has(rt: HostRuntime) -> Result<(), Fail> {
    assert_eq!(rt; wrong_at(rt.alloc(), &mixed_kinds())?, None);
    Ok(())
}
