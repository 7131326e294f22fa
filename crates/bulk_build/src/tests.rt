//! Structures of each discipline, of many sizes, read again by a reader that knows the rules.
ghost use Rattle.std.specs.Prelude.{◌≡◌, ◌<◌, ◌≤◌, ◌+◌, ◌*◌, ◌/◌, length};
ghost use Rattle.node_arena.specs.Conforming.{IsRising};
ghost use Rattle.node_arena.specs.Rules.{AreSound};
ghost use Rattle.bulk_build.specs.Layouts.{HasTop};

use crate::build;
use crate::reading::{Found, is_run, nothing, read, wanted_root};
use arrayvec::ArrayVec;
use dt_model::{NoMemory, Steps};
use node_arena::{Arena, Elem, Held, MOST_ELEMENTS, NodeKind, Shape, Structure, Top};
use std::alloc::Global;
use std::marker::Brand;
use std::sync::ledger::{Blank, Ledger};
use std::test::Fail;

/// The first elements of a list whose coordinates are 1, 4, 7 and so on.
#[tactic(auto, using(crate::proofs::ReadingLemmas::numbered_snoc, crate::proofs::ReadingLemmas::rising_of))]
fn list(len: u32) -> ArrayVec<Elem, 3000>
    requires few { len ≤ 3000 }
    ensures rising { IsRising result.items }
    ensures len { length result.items ≡ len }
{
    let mut elems = ArrayVec::new();
    for n in 0..len {
        elems.push(Elem {
            at: 3 * n + 1,
            held: Held::Number(7 * u64::from(n)),
        });
    }
    elems
}

/// What a structure of kind 0 with these elements is found to be.
fn found_at(kinds: &[NodeKind], arena: &Arena, top: Top, elems: &[Elem]) -> Found
    requires there { HasTop arena.now top }
{
    match top {
        Top::Empty => nothing(0),
        Top::Node(id) => read(kinds, arena, Some(id), wanted_root(kinds), 4096, elems, 0),
        Top::Run(id) => found_run(is_run(arena, id, elems), elems.len()),
    }
}

/// How many nodes a structure of kind 0 has, if it is one that the kinds allow, with these elements, and with as low a spine as it says.
fn nodes_of(kinds: &[NodeKind], arena: &Arena, structure: &Structure, elems: &[Elem]) -> Option<u32>
    requires there { HasTop arena.now structure.now.top }
{
    let found = found_at(kinds, arena, structure.top, elems);
    let same = found.upto == elems.len() && structure.len as usize == elems.len();
    let low = found.spine <= u32::from(structure.spine);
    if found.sound && same && low {
        Some(found.nodes)
    } else {
        None
    }
}

/// What a flat run is found to be.
fn found_run(same: bool, len: usize) -> Found {
    Found {
        sound: same,
        ..nothing(len)
    }
}

/// How many binary digits a number has.
fn digits_of(mut n: u32) -> u8 {
    let mut digits: u8 = 0;
    while n > 0 {
        n /= 2;
        digits = digits.saturating_add(1);
    }
    digits
}

/// Builds a structure of so many elements behind another one, and reads both. Answers how many nodes it has, if all is well.
fn built<L: Ledger>(
    alloc: Global,
    blank: Blank,
    kinds: &[NodeKind],
    len: u32,
) -> Result<Option<u32>, NoMemory>
    requires name { blank.name ≡ L.name }
    requires parts { blank.parts ≡ L.parts }
    requires one { blank.parts ≡ 1 }
    requires sound { AreSound kinds.now }
    requires some { 0 < length kinds.now }
    requires few { len ≤ 3000 }
{
    let mut steps = Steps::<L>::open(blank);
    let mut arena = Arena::new(alloc, MOST_ELEMENTS);
    let few = list(21);
    let elems = list(len);
    let old = build(kinds, 0, few.as_slice(), &mut arena, &mut steps)?;
    let new = build(kinds, 0, elems.as_slice(), &mut arena, &mut steps)?;
    let kept = nodes_of(kinds, &arena, &old, few.as_slice()).is_some();
    let nodes = nodes_of(kinds, &arena, &new, elems.as_slice());
    let low = new.spine <= digits_of(len);
    Ok(if kept && low { nodes } else { None })
}

/// The same with a counter of its own.
fn built_anew(alloc: Global, kinds: &[NodeKind], len: u32) -> Result<Option<u32>, NoMemory>
    requires sound { AreSound kinds.now }
    requires some { 0 < length kinds.now }
    requires few { len ≤ 3000 }
{
    built::<Brand>(alloc, Blank::new(1), kinds, len)
}

/// The first size at which something is wrong, and how many nodes the last one has.
fn wrong_at(alloc: Global, kinds: &[NodeKind]) -> Result<(Option<u32>, u32), NoMemory>
    requires sound { AreSound kinds.now }
    requires some { 0 < length kinds.now }
{
    for len in 0..201 {
        if built_anew(alloc, kinds, len)?.is_none() {
            return Ok((Some(len), 0));
        }
    }
    if built_anew(alloc, kinds, 300)?.is_none() {
        return Ok((Some(300), 0));
    }
    match built_anew(alloc, kinds, 3000)? {
        None => Ok((Some(3000), 0)),
        Some(nodes) => Ok((None, nodes)),
    }
}

/// A kind.
fn kind(lo: u32, hi: u32, shape: Shape) -> NodeKind
    ensures value { result ≡ record { lo = lo; hi = hi; shape = shape } }
{
    NodeKind { lo, hi, shape }
}

/// Flat.
fn flat_kind() -> [NodeKind; 1]
    ensures sound { AreSound result }
{
    [kind(1, 1, Shape::Flat)]
}

/// A chain.
fn chained_kind(hi: u32) -> [NodeKind; 1]
    requires some { 1 ≤ hi }
    requires few { hi ≤ 16 }
    ensures sound { AreSound result }
{
    [kind(1, hi, Shape::Post(0))]
}

/// Two links.
fn paired_kind(hi: u32) -> [NodeKind; 1]
    requires some { 1 ≤ hi }
    requires few { hi ≤ 16 }
    ensures sound { AreSound result }
{
    [kind(1, hi, Shape::Ends { pre: 0, post: 0 })]
}

/// Woven.
fn woven_kind(lo: u32, hi: u32) -> [NodeKind; 1]
    requires some { 1 ≤ lo }
    requires wide { 2 ≤ hi }
    requires half { 2 * lo ≤ hi }
    requires few { hi ≤ 16 }
    ensures sound { AreSound result }
{
    [kind(lo, hi, Shape::Woven)]
}

/// One node before a woven structure.
fn headed_kinds() -> [NodeKind; 2]
    ensures sound { AreSound result }
{
    [kind(1, 2, Shape::Post(1)), kind(1, 2, Shape::Woven)]
}

/// A node between a woven structure and a chain.
fn mixed_kinds() -> [NodeKind; 3]
    ensures sound { AreSound result }
{
    [
        kind(1, 4, Shape::Ends { pre: 1, post: 2 }),
        kind(1, 3, Shape::Woven),
        kind(1, 4, Shape::Post(2)),
    ]
}

#[test]
fn a_flat_run_is_read_as_it_was_given(rt: HostRuntime) -> Result<(), Fail> {
    assert_eq!(rt; wrong_at(rt.alloc(), &flat_kind())?, (None, 0));
    Ok(())
}

#[test]
fn a_chain_has_full_nodes(rt: HostRuntime) -> Result<(), Fail> {
    assert_eq!(rt; wrong_at(rt.alloc(), &chained_kind(8))?, (None, 375));
    assert_eq!(rt; wrong_at(rt.alloc(), &chained_kind(7))?, (None, 429));
    Ok(())
}

#[test]
fn two_links_part_the_elements_evenly(rt: HostRuntime) -> Result<(), Fail> {
    assert_eq!(rt; wrong_at(rt.alloc(), &paired_kind(1))?, (None, 3000));
    assert_eq!(rt; wrong_at(rt.alloc(), &paired_kind(7))?, (None, 429));
    Ok(())
}

#[test]
fn a_woven_structure_has_one_depth(rt: HostRuntime) -> Result<(), Fail> {
    assert_eq!(rt; wrong_at(rt.alloc(), &woven_kind(4, 8))?, (None, 378));
    let (wrong, nodes) = wrong_at(rt.alloc(), &woven_kind(2, 16))?;
    assert!(rt; wrong.is_none() && 188 <= nodes && nodes <= 375);
    let (wrong, nodes) = wrong_at(rt.alloc(), &woven_kind(1, 2))?;
    assert!(rt; wrong.is_none() && 1500 <= nodes && nodes <= 3000);
    let (wrong, nodes) = wrong_at(rt.alloc(), &woven_kind(4, 9))?;
    assert!(rt; wrong.is_none() && 334 <= nodes && nodes <= 750);
    Ok(())
}

#[test]
fn kinds_that_lead_to_others_build_as_those_do(rt: HostRuntime) -> Result<(), Fail> {
    assert_eq!(rt; wrong_at(rt.alloc(), &headed_kinds())?, (None, 1506));
    assert_eq!(rt; wrong_at(rt.alloc(), &mixed_kinds())?, (None, 878));
    Ok(())
}

/// What is seen after a build: whether it was refused, whether the structure of before is there, and where the next one begins.
#[derive(Clone, Copy, Debug)]
struct Aftermath {
    refused: bool,
    kept: bool,
    next: Top,
}

/// Looks for a structure, and builds another one with the same elements.
fn seen<L: Ledger>(
    kinds: &[NodeKind],
    refused: bool,
    old: &Structure,
    elems: &[Elem],
    arena: &mut Arena,
    steps: &mut Steps<L>,
) -> Result<Aftermath, NoMemory>
    requires there { HasTop arena.old old.now.top }
    requires sound { AreSound kinds.now }
    requires some { 0 < length kinds.now }
    requires wide { MOST_ELEMENTS ≤ arena.old.nodes.most }
    requires rising { IsRising elems.now }
    requires few { length elems.now ≤ 3000 }
{
    let kept = nodes_of(kinds, arena, old, elems).is_some();
    let next = build(kinds, 0, elems, arena, steps)?.top;
    Ok(Aftermath {
        refused,
        kept,
        next,
    })
}

/// Builds a structure of 21 elements, one of so many elements, and one of 21 again.
fn left<L: Ledger>(
    alloc: Global,
    blank: Blank,
    kinds: &[NodeKind],
    count: u32,
) -> Result<Aftermath, NoMemory>
    requires name { blank.name ≡ L.name }
    requires parts { blank.parts ≡ L.parts }
    requires one { blank.parts ≡ 1 }
    requires sound { AreSound kinds.now }
    requires some { 0 < length kinds.now }
    requires few { count ≤ 3000 }
{
    let mut steps = Steps::<L>::open(blank);
    let mut arena = Arena::new(alloc, MOST_ELEMENTS);
    let few = list(21);
    let elems = list(count);
    let old = build(kinds, 0, few.as_slice(), &mut arena, &mut steps)?;
    match build(kinds, 0, elems.as_slice(), &mut arena, &mut steps) {
        Ok(_) => seen(kinds, false, &old, few.as_slice(), &mut arena, &mut steps),
        Err(_) => seen(kinds, true, &old, few.as_slice(), &mut arena, &mut steps),
    }
}

/// The same with a counter of its own.
fn left_by(alloc: Global, kinds: &[NodeKind], count: u32) -> Result<Aftermath, NoMemory>
    requires sound { AreSound kinds.now }
    requires some { 0 < length kinds.now }
    requires few { count ≤ 3000 }
{
    left::<Brand>(alloc, Blank::new(1), kinds, count)
}

/// Whether what was there is there after a build of 100 elements, and nothing else where it was refused: the next structure then begins where
/// it does without that build. Where memory is refused elsewhere, nothing is seen.
fn is_left(alloc: Global, kinds: &[NodeKind]) -> bool
    requires sound { AreSound kinds.now }
    requires some { 0 < length kinds.now }
{
    let after = match left_by(alloc, kinds, 100) {
        Ok(left) => left,
        Err(_) => return true,
    };
    let alone = match left_by(alloc, kinds, 0) {
        Ok(left) => left,
        Err(_) => return true,
    };
    after.kept && alone.kept && (!after.refused || after.next == alone.next)
}

#[test]
fn a_build_that_is_refused_leaves_what_was_there_alone(rt: HostRuntime) -> Result<(), Fail> {
    assert!(rt; is_left(rt.alloc(), &flat_kind()));
    assert!(rt; is_left(rt.alloc(), &chained_kind(8)));
    assert!(rt; is_left(rt.alloc(), &paired_kind(1)));
    assert!(rt; is_left(rt.alloc(), &woven_kind(4, 8)));
    assert!(rt; is_left(rt.alloc(), &mixed_kinds()));
    Ok(())
}
