//! Nodes of each size, flat runs, and the kinds of worked schemas.
ghost use Rattle.std.specs.Prelude.{◌≡◌, ◌<◌, ◌≤◌, ◌+◌, IsSome};
ghost use Rattle.node_arena.specs.Arenas.{node_at};

use crate::numbers::{NodeId, RunId};
use crate::packing::Packed;
use crate::{Arena, Elem, Held, NodeKind, Shape, Structure, Top, kinds_of, longest_of, root_of};
use arrayvec::ArrayVec;
use dt_model::{Kind, Links, Name, NoMemory, Schema, Steps};
use std::alloc::Global;
use std::marker::Brand;
use std::sync::ledger::{Blank, Ledger};
use std::test::Fail;

/// The element with this number at this coordinate.
fn elem(at: u32, number: u64) -> Elem {
    Elem {
        at,
        held: Held::Number(number),
    }
}

/// What is read of a node: its kind, how many elements and links it has, whether the element at place 1 is the one made, the coordinate at
/// place 0, and the places of 19, 20 and 31.
#[derive(Debug, PartialEq, Drop)]
struct Reading {
    kind: u32,
    counts: (usize, usize),
    has_elem: bool,
    coordinate: Option<u32>,
    links: (bool, bool, bool),
    places: (usize, usize, usize),
}

/// Makes a node with places for so many elements, and reads it.
fn made<L: Ledger>(alloc: Global, blank: Blank, longest: u32) -> Result<Reading, NoMemory>
    requires name { blank.name ≡ L.name }
    requires parts { blank.parts ≡ L.parts }
    requires one { blank.parts ≡ 1 }
    requires room { 2 ≤ longest }
    requires in_range { longest ≤ 16 }
{
    let mut steps = Steps::<L>::open(blank);
    let mut arena = Arena::new(alloc, longest);
    arena.reserve(2)?;
    let child = arena.make(3, &[], &[], &mut steps);
    let id = arena.make(
        7,
        &[elem(20, 2), elem(30, 3)],
        &[None, Some(child)],
        &mut steps,
    );
    Ok(Reading {
        kind: arena.kind(id),
        counts: (arena.len(id), arena.link_count(id)),
        has_elem: arena.elem(id, 1) == Some(elem(30, 3)),
        coordinate: arena.coordinate(id, 0),
        links: (
            arena.link(id, 0) == None,
            arena.link(id, 1) == Some(child),
            arena.link(id, 2) == None,
        ),
        places: (
            arena.place(id, 19),
            arena.place(id, 20),
            arena.place(id, 31),
        ),
    })
}

/// Whether a node with places for so many elements is read as it was made.
fn is_read_as_made(alloc: Global, longest: u32) -> Result<bool, NoMemory>
    requires room { 2 ≤ longest }
    requires in_range { longest ≤ 16 }
{
    let reading = made::<Brand>(alloc, Blank::new(1), longest)?;
    let wanted = Reading {
        kind: 7,
        counts: (2, 2),
        has_elem: true,
        coordinate: Some(20),
        links: (true, true, true),
        places: (0, 0, 2),
    };
    Ok(reading == wanted)
}

#[test]
fn a_node_of_each_size_is_read_as_it_was_made(rt: HostRuntime) -> Result<(), Fail> {
    assert!(rt; is_read_as_made(rt.alloc(), 2)?);
    assert!(rt; is_read_as_made(rt.alloc(), 3)?);
    assert!(rt; is_read_as_made(rt.alloc(), 5)?);
    assert!(rt; is_read_as_made(rt.alloc(), 16)?);
    Ok(())
}

/// Changes a node in each way, and answers its coordinates then, and what was taken out.
fn changed<L: Ledger>(
    alloc: Global,
    blank: Blank,
) -> Result<(Option<u32>, Option<u32>, usize, bool), NoMemory>
    requires name { blank.name ≡ L.name }
    requires parts { blank.parts ≡ L.parts }
    requires one { blank.parts ≡ 1 }
{
    let mut steps = Steps::<L>::open(blank);
    let mut arena = Arena::new(alloc, 4);
    arena.reserve(1)?;
    let id = arena.make(
        0,
        &[elem(20, 2), elem(30, 3)],
        &[None, None, None],
        &mut steps,
    );
    arena.insert(id, 1, elem(25, 9), None, &mut steps);
    let taken = arena.remove(id, 0, Some(2), &mut steps);
    arena.replace(id, 1, elem(40, 4), &mut steps);
    Ok((
        arena.coordinate(id, 0),
        arena.coordinate(id, 1),
        arena.link_count(id),
        taken == elem(20, 2),
    ))
}

/// Whether a node is changed as it is meant.
fn is_changed(alloc: Global) -> Result<bool, NoMemory> {
    let (first, second, links, taken) = changed::<Brand>(alloc, Blank::new(1))?;
    Ok(first == Some(25) && second == Some(40) && links == 2 && taken)
}

#[test]
fn elements_go_in_and_out_of_a_node(rt: HostRuntime) -> Result<(), Fail> {
    assert!(rt; is_changed(rt.alloc())?);
    Ok(())
}

/// What is read of a node behind a write: its kind, how many elements and links it has, and its coordinate at place 1.
type Row = (u32, usize, usize, Option<u32>);

/// Writes a node whole, cuts it and gives it other links, and answers what is read of it after each.
fn written<L: Ledger>(alloc: Global, blank: Blank) -> Result<(Row, Row, Row, bool), NoMemory>
    requires name { blank.name ≡ L.name }
    requires parts { blank.parts ≡ L.parts }
    requires one { blank.parts ≡ 1 }
{
    let mut steps = Steps::<L>::open(blank);
    let mut arena = Arena::new(alloc, 4);
    arena.reserve(1)?;
    let id = arena.make(0, &[elem(5, 5)], &[], &mut steps);
    let run = [elem(10, 1), elem(20, 2), elem(30, 3)];
    arena.put(id, 6, &run, &[None, Some(id), None], &mut steps);
    let put = row(&arena, id);
    arena.cut(id, 2, &[Some(id)], &mut steps);
    let cut = row(&arena, id);
    arena.set_links(id, &[None, Some(id)], &mut steps);
    let linked = row(&arena, id);
    let is_link = arena.link(id, 0) == None && arena.link(id, 1) == Some(id);
    Ok((put, cut, linked, is_link))
}

/// What is read of a node.
fn row(arena: &Arena, id: NodeId) -> Row
    requires there { IsSome (node_at arena.now id) }
{
    (
        arena.kind(id),
        arena.len(id),
        arena.link_count(id),
        arena.coordinate(id, 1),
    )
}

/// Whether a node is written as it is meant.
fn is_written(alloc: Global) -> Result<bool, NoMemory> {
    let (put, cut, linked, is_link) = written::<Brand>(alloc, Blank::new(1))?;
    let rows = put == (6, 3, 3, Some(20)) && cut == (6, 2, 1, Some(20));
    Ok(rows && linked == (6, 2, 2, Some(20)) && is_link)
}

#[test]
fn a_node_is_put_and_cut_and_linked(rt: HostRuntime) -> Result<(), Fail> {
    assert!(rt; is_written(rt.alloc())?);
    Ok(())
}

/// Takes one of two nodes out, and answers what is read of the other one, and of one made then.
fn left<L: Ledger>(alloc: Global, blank: Blank) -> Result<(Row, Row), NoMemory>
    requires name { blank.name ≡ L.name }
    requires parts { blank.parts ≡ L.parts }
    requires one { blank.parts ≡ 1 }
{
    let mut steps = Steps::<L>::open(blank);
    let mut arena = Arena::new(alloc, 2);
    arena.reserve(3)?;
    let kept = arena.make(1, &[elem(10, 1), elem(20, 2)], &[], &mut steps);
    let gone = arena.make(2, &[elem(30, 3)], &[Some(kept)], &mut steps);
    arena.free(gone);
    let row_kept = row(&arena, kept);
    let next = arena.make(3, &[], &[None, Some(kept)], &mut steps);
    Ok((row_kept, row(&arena, next)))
}

/// Whether a node is left when another one is taken out.
fn is_left(alloc: Global) -> Result<bool, NoMemory> {
    let (kept, next) = left::<Brand>(alloc, Blank::new(1))?;
    Ok(kept == (1, 2, 0, Some(20)) && next == (3, 0, 2, None))
}

#[test]
fn a_node_is_left_when_another_is_taken_out(rt: HostRuntime) -> Result<(), Fail> {
    assert!(rt; is_left(rt.alloc())?);
    Ok(())
}

#[test]
fn a_run_is_left_when_another_is_taken_out(rt: HostRuntime) -> Result<(), Fail> {
    let mut arena = Arena::new(rt.alloc(), 1);
    arena.reserve_runs(2, 1)?;
    let kept = arena.make_run();
    arena.run_insert(kept, 0, elem(10, 1));
    let gone = arena.make_run();
    arena.free_run(gone);
    assert_eq!(rt; arena.run_len(kept), 1);
    assert_eq!(rt; arena.run_elem(kept, 0), Some(elem(10, 1)));
    assert_eq!(rt; arena.run_place(kept, 11), 1);
    Ok(())
}

#[test]
fn a_run_grows_and_shrinks(rt: HostRuntime) -> Result<(), Fail> {
    let mut arena = Arena::new(rt.alloc(), 1);
    arena.reserve_runs(1, 2)?;
    let id = arena.make_run();
    arena.run_insert(id, 0, elem(20, 2));
    arena.run_insert(id, 0, elem(10, 1));
    arena.run_replace(id, 1, elem(30, 3));
    assert_eq!(rt; arena.run_len(id), 2);
    assert_eq!(rt; arena.run_elem(id, 1), Some(elem(30, 3)));
    assert_eq!(rt; arena.run_remove(id, 0), elem(10, 1));
    assert_eq!(rt; arena.run_elem(id, 0), Some(elem(30, 3)));
    arena.grow_run(id, 100)?;
    assert_eq!(rt; arena.run_len(id), 1);
    Ok(())
}

#[test]
fn each_held_value_is_packed_and_unpacked(rt: HostRuntime) {
    let last = 4_294_967_294;
    let table = [
        Held::Number(18_446_744_073_709_551_615),
        Held::Number(4_294_967_295),
        inner(Top::Empty, 0, 0),
        inner(Top::Node(NodeId::of(0)), 1, 96),
        inner(Top::Node(NodeId::of(last)), 4_294_967_295, 1),
        inner(Top::Run(RunId::of(last)), 7, 0),
    ];
    for held in table {
        let elem = Elem {
            at: 4_294_967_295,
            held,
        };
        assert_eq!(rt; Packed::pack(&elem).elem(), elem);
    }
}

/// A structure that is held.
fn inner(top: Top, len: u32, spine: u8) -> Held {
    Held::Inner(Structure { top, len, spine })
}

/// The name of one letter.
fn name(letter: u8) -> Name {
    match Name::new(&[letter]) {
        Some(name) => name,
        None => Name::default(),
    }
}

/// A kind of this letter, whose runs have 1 to 8 elements.
fn kind(letter: u8, links: Links) -> Kind {
    Kind {
        name: name(letter),
        lo: 1,
        hi: 8,
        links,
    }
}

/// A kind by number, whose runs have 1 to 8 elements.
fn numbered(shape: Shape) -> NodeKind {
    NodeKind {
        lo: 1,
        hi: 8,
        shape,
    }
}

#[test]
fn links_have_the_numbers_of_the_kinds_that_they_name(rt: HostRuntime) {
    let mut kinds = ArrayVec::new();
    kinds.push(kind(b'A', Links::Post(name(b'B'))));
    kinds.push(kind(b'B', Links::Woven));
    let (pre, post) = (name(b'A'), name(b'C'));
    kinds.push(kind(b'C', Links::Ends { pre, post }));
    let schema = Schema {
        name: name(b's'),
        kinds,
        root: name(b'C'),
    };
    assert_eq!(rt; root_of(&schema), 2);
    let all = kinds_of(&schema);
    assert_eq!(rt; all.as_slice().get(0), Some(&numbered(Shape::Post(1))));
    assert_eq!(rt; all.as_slice().get(1), Some(&numbered(Shape::Woven)));
    assert_eq!(rt;
        all.as_slice().get(2),
        Some(&numbered(Shape::Ends { pre: 0, post: 2 }))
    );
}

/// A kind by number, whose runs have 1 to so many elements.
fn up_to(hi: u32) -> NodeKind {
    let shape = Shape::Flat;
    NodeKind { lo: 1, hi, shape }
}

#[test]
fn the_longest_run_is_that_of_the_kind_with_the_greatest_bound(rt: HostRuntime) {
    assert_eq!(rt; longest_of(&[]), 0);
    assert_eq!(rt; longest_of(&[up_to(3)]), 3);
    assert_eq!(rt; longest_of(&[up_to(3), up_to(16), up_to(8)]), 16);
    assert_eq!(rt; longest_of(&[up_to(8), up_to(2)]), 8);
}

#[test]
fn more_runs_than_numbers_are_refused(rt: HostRuntime) -> Result<(), Fail> {
    let mut arena = Arena::new(rt.alloc(), 1);
    arena.reserve_runs(1, 1)?;
    let id = arena.make_run();
    assert!(rt; arena.reserve_runs(4_294_967_295, 0).is_err());
    assert_eq!(rt; arena.run_len(id), 0);
    arena.reserve_runs(2, 1)?;
    let next = arena.make_run();
    assert_eq!(rt; arena.run_len(next), 0);
    Ok(())
}

/// Asks for more nodes than there are numbers, and answers whether that is refused, and what is read of the nodes made before and behind.
fn refused<L: Ledger>(alloc: Global, blank: Blank) -> Result<(bool, Row, Row), NoMemory>
    requires name { blank.name ≡ L.name }
    requires parts { blank.parts ≡ L.parts }
    requires one { blank.parts ≡ 1 }
{
    let mut steps = Steps::<L>::open(blank);
    let mut arena = Arena::new(alloc, 2);
    arena.reserve(1)?;
    let first = arena.make(1, &[elem(10, 1), elem(20, 2)], &[], &mut steps);
    let is_refused = arena.reserve(4_294_967_295).is_err();
    arena.reserve(1)?;
    let second = arena.make(2, &[], &[Some(first)], &mut steps);
    Ok((is_refused, row(&arena, first), row(&arena, second)))
}

/// Whether a request for more nodes than there are numbers is refused, and leaves the nodes.
fn is_refused(alloc: Global) -> Result<bool, NoMemory> {
    let (is_refused, first, second) = refused::<Brand>(alloc, Blank::new(1))?;
    Ok(is_refused && first == (1, 2, 0, Some(20)) && second == (2, 0, 1, None))
}

#[test]
fn more_nodes_than_numbers_are_refused(rt: HostRuntime) -> Result<(), Fail> {
    assert!(rt; is_refused(rt.alloc())?);
    Ok(())
}
