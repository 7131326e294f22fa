//! Exact shapes of small chains, what is passed on, and many elements in three orders.
ghost use Rattle.std.specs.Prelude.{◌≡◌, ◌<◌, ◌≤◌, ◌+◌, ℕ, Some, IsSome, IfSome, IfOk, length, slice_index_or};
ghost use Rattle.node_arena.specs.Arenas.{node_at};
ghost use Rattle.node_arena.specs.Kinds.{kind_at, shape_at};
ghost use Rattle.node_arena.specs.Passing.{discipline, chains};
ghost use Rattle.node_arena.specs.Rules.{AreSound, Serves};
ghost use Rattle.node_arena.specs.Trees.{Trees};
ghost use Rattle.block_list.specs.Filling.{Holds, HoldsAfter, HasNoEnds, IsLow, LeadsInto, IsReadable};

use crate::insert;
use dt_model::{NoMemory, Steps};
use node_arena::{Arena, Elem, Held, NodeId, NodeKind, Shape, Side, Step};
use std::alloc::Global;
use std::marker::Brand;
use std::sync::ledger::{Blank, Ledger};
use std::test::Fail;

/// A coordinate as it is found: how many nodes come before its node along the last links, the kind of its node, and the coordinate.
type Row = (u32, u32, u32);

/// An element at this coordinate.
fn elem(at: u32) -> Elem
    ensures at { result.at ≡ at }
{
    Elem {
        at,
        held: Held::Number(7),
    }
}

// ---- kinds

/// The kind of a chain whose runs have at most so many elements.
fn list(hi: u32) -> [NodeKind; 1]
    requires some { 1 ≤ hi }
    requires few { hi ≤ 16 }
    ensures sound { AreSound result }
    ensures chain { discipline (shape_at result 0) ≡ chains }
    ensures no_ends { (k : ℕ) → HasNoEnds (shape_at result k) }
    ensures longest { (k : ℕ) → (kind_at result k).hi ≤ (kind_at result 0).hi }
{
    [NodeKind {
        lo: 1,
        hi,
        shape: Shape::Post(0),
    }]
}

/// A kind with a woven kind behind its run.
fn woven_behind(hi: u32) -> [NodeKind; 2]
    requires some { 2 ≤ hi }
    requires few { hi ≤ 16 }
    ensures sound { AreSound result }
    ensures chain { discipline (shape_at result 0) ≡ chains }
    ensures no_ends { (k : ℕ) → HasNoEnds (shape_at result k) }
    ensures longest { (k : ℕ) → (kind_at result k).hi ≤ (kind_at result 0).hi }
{
    [
        NodeKind {
            lo: 1,
            hi,
            shape: Shape::Post(1),
        },
        NodeKind {
            lo: 1,
            hi: 2,
            shape: Shape::Woven,
        },
    ]
}

/// A kind with a kind with two links behind its run, where both have runs of one or two elements.
fn chunks_behind() -> [NodeKind; 2]
    ensures sound { AreSound result }
    ensures longest { (k : ℕ) → (kind_at result k).hi ≤ (kind_at result 0).hi }
    ensures chain { discipline (shape_at result 0) ≡ chains }
{
    [
        NodeKind {
            lo: 1,
            hi: 2,
            shape: Shape::Post(1),
        },
        NodeKind {
            lo: 1,
            hi: 2,
            shape: Shape::Ends { pre: 1, post: 1 },
        },
    ]
}

// ---- elements go in

/// A node with one element, which begins a chain.
fn start<L: Ledger>(
    kinds: &[NodeKind],
    arena: &mut Arena,
    at: u32,
    marks: &mut [bool],
    steps: &mut Steps<L>,
) -> NodeId
    requires sound { AreSound kinds.now }
    requires serves { Serves kinds.now arena.old }
    requires chain { discipline (shape_at kinds.now 0) ≡ chains }
    requires spare { 0 < arena.old.nodes.spare }
    requires in_range { at < length marks.old }
    ensures holds { (t : Trees) × Holds kinds.now arena.new result 0 marks.new t }
    ensures spare { arena.new.nodes.spare + 1 ≡ arena.old.nodes.spare }
    ensures most { arena.new.nodes.most ≡ arena.old.nodes.most }
    ensures marks { length marks.new ≡ length marks.old }
{
    marks[at as usize] = true;
    arena.make(0, &[elem(at)], &[None], steps)
}

/// Puts a coordinate in that isn't marked yet, and marks it. `count` elements have gone in before.
fn put_one<L: Ledger>(
    kinds: &[NodeKind],
    node: NodeId,
    arena: &mut Arena,
    at: u32,
    count: usize,
    marks: &mut [bool],
    steps: &mut Steps<L>,
) -> Step
    requires sound { AreSound kinds.now }
    requires serves { Serves kinds.now arena.old }
    requires holds { (t : Trees) × Holds kinds.now arena.old node count marks.old t }
    requires low { IsLow kinds.now (count + 1) }
    requires spare { 0 < arena.old.nodes.spare }
    requires in_range { at < length marks.old }
    ensures holds { HoldsAfter kinds.now arena.new node (count + 1) marks.new result }
    ensures spare { arena.old.nodes.spare ≤ arena.new.nodes.spare + 1 }
    ensures most { arena.new.nodes.most ≡ arena.old.nodes.most }
    ensures marks { length marks.new ≡ length marks.old }
{
    if marks[at as usize] {
        return Step::Done { deep: Some(0) };
    }
    let step = insert(kinds, node, arena, elem(at), steps);
    marks[at as usize] = true;
    step
}

/// Puts the coordinates in, one after another, until something is passed on, and answers what the last one left. After each 50th the chain is read and
/// checked. None where that found something else than what went in.
fn fill<L: Ledger>(
    alloc: Global,
    kinds: &[NodeKind],
    node: NodeId,
    arena: &mut Arena,
    order: &[u32],
    marks: &mut [bool],
    steps: &mut Steps<L>,
) -> Result<Option<Step>, NoMemory>
    requires sound { AreSound kinds.now }
    requires serves { Serves kinds.now arena.old }
    requires some { 0 < length kinds.now }
    requires holds { (t : Trees) × Holds kinds.now arena.old node 0 marks.old t }
    requires low { IsLow kinds.now (length order.now) }
    requires spare { length order.now ≤ arena.old.nodes.spare }
    ensures readable { IfOk result (λ found. IfSome found (λ step. IsReadable arena.new node step)) }
{
    for count in 0..order.len() {
        let at = order[count];
        if at as usize >= marks.len() {
            return Ok(None);
        }
        let step = put_one(kinds, node, arena, at, count, marks, steps);
        if count + 1 == order.len() || !matches!(step, Step::Done { .. }) {
            return Ok(Some(step));
        }
        if count % 50 == 49 && !is_whole(alloc, kinds, arena, node, marks)? {
            return Ok(None);
        }
    }
    Ok(Some(Step::Done { deep: Some(0) }))
}

/// Whether the marked coordinates are there, in runs that fit.
fn is_whole(
    alloc: Global,
    kinds: &[NodeKind],
    arena: &Arena,
    node: NodeId,
    marks: &[bool],
) -> Result<bool, NoMemory>
    requires some { 0 < length kinds.now }
    requires leads { (t : Trees) × LeadsInto arena.now (Some node) t }
{
    let rows = read_chain(alloc, arena, node)?;
    Ok(has_marked(&rows, marks) && runs_fit(&rows, kinds[0].hi))
}

// ---- what is there

/// Reads the run of a node.
fn read_run(arena: &Arena, node: NodeId, number: u32, rows: &mut Vec<Row>) -> Result<(), NoMemory>
    requires there { IsSome (node_at arena.now node) }
{
    let kind = arena.kind(node);
    for place in 0..arena.len(node) {
        if let Some(at) = arena.coordinate(node, place) {
            rows.push((number, kind, at))?;
        }
    }
    Ok(())
}

/// The last link of a node, if it has any.
fn last_link(arena: &Arena, node: NodeId) -> Option<NodeId>
    requires leads { (t : Trees) × LeadsInto arena.now (Some node) t }
    ensures leads { (t : Trees) × LeadsInto arena.now result t }
{
    match arena.link_count(node) {
        0 => None,
        count => arena.link(node, count - 1),
    }
}

/// Reads the runs of the nodes from one on, along the last links: at most 4,000 nodes.
fn read_chain(alloc: Global, arena: &Arena, node: NodeId) -> Result<Vec<Row>, NoMemory>
    requires leads { (t : Trees) × LeadsInto arena.now (Some node) t }
{
    let mut rows = Vec::new(alloc);
    let mut here = Some(node);
    for number in 0..4000 {
        match here {
            None => return Ok(rows),
            Some(id) => {
                read_run(arena, id, number, &mut rows)?;
                here = last_link(arena, id);
            }
        }
    }
    Ok(rows)
}

/// Whether the rows are the marked coordinates, in ascending order.
fn has_marked(rows: &[Row], marks: &[bool]) -> bool {
    let mut next = 0;
    for at in 0..marks.len() {
        if marks[at] {
            match rows.get(next) {
                Some(row) if row.2 as usize == at => next = next + 1,
                _ => return false,
            }
        }
    }
    next == rows.len()
}

/// Whether no node is empty, and none has more than `hi` elements.
fn runs_fit(rows: &[Row], hi: u32) -> bool {
    let hi = hi as usize;
    for i in 1..rows.len() {
        if rows[i].0.wrapping_sub(rows[i - 1].0) > 1 {
            return false;
        }
        if hi <= i && rows[i].0 == rows[i - hi].0 {
            return false;
        }
    }
    true
}

/// What came of a filling: how many elements were passed on, and the first two of them; whether the check found what went in; and what is there.
/// Where none was passed on, the depth that the last insertion told stands in the place of the first two.
type Outcome = (usize, Option<u32>, Option<u32>, bool, Vec<Row>);

/// Makes a chain of the first coordinate, puts the others in, and reads the chain; where elements are passed on, the run of the node that passes them.
fn run_all<L: Ledger>(
    alloc: Global,
    blank: Blank,
    kinds: &[NodeKind],
    first: u32,
    order: &[u32],
    marks: &mut [bool],
) -> Result<Outcome, NoMemory>
    requires name { blank.name ≡ L.name }
    requires parts { blank.parts ≡ L.parts }
    requires one { blank.parts ≡ 1 }
    requires sound { AreSound kinds.now }
    requires chain { discipline (shape_at kinds.now 0) ≡ chains }
    requires same { (k : ℕ) → (kind_at kinds.now k).hi ≤ (kind_at kinds.now 0).hi }
    requires some { 0 < length kinds.now }
    requires low { IsLow kinds.now (length order.now) }
    requires few { length order.now < 4000 }
    requires in_range { first < length marks.old }
{
    let mut steps = Steps::<L>::open(blank);
    let mut arena = Arena::new(alloc, kinds[0].hi);
    arena.reserve(order.len() as u32 + 1)?;
    let node = start(kinds, &mut arena, first, marks, &mut steps);
    match fill(alloc, kinds, node, &mut arena, order, marks, &mut steps)? {
        None => Ok((0, None, None, false, Vec::new(alloc))),
        Some(step) => outcome(alloc, &arena, node, step),
    }
}

/// What is there after a step: the chain, or the run of the node that passes elements on, with what it passes.
fn outcome(alloc: Global, arena: &Arena, begin: NodeId, step: Step) -> Result<Outcome, NoMemory>
    requires readable { IsReadable arena.now begin step }
{
    match step {
        Step::Done { deep } => Ok((
            0,
            depth_of(deep),
            None,
            true,
            read_chain(alloc, arena, begin)?,
        )),
        Step::Pass {
            node,
            side,
            elems,
            above,
        } => {
            let mut rows = Vec::new(alloc);
            read_run(arena, node, 0, &mut rows)?;
            let (first, second) = (at_place(elems.as_slice(), 0), at_place(elems.as_slice(), 1));
            let is_behind = side == Side::Post && above == 0;
            Ok((elems.len(), first, second, is_behind, rows))
        }
    }
}

/// A depth, where it was told.
fn depth_of(depth: Option<u8>) -> Option<u32> {
    match depth {
        None => None,
        Some(depth) => Some(u32::from(depth)),
    }
}

/// The coordinate of an element, if it is there.
fn at_place(elems: &[Elem], place: usize) -> Option<u32> {
    elems.get(place).map(|elem| elem.at)
}

// ---- exact shapes

/// The shape of a chain of runs of at most so many elements, whose coordinates went in in this order.
fn shape_of(alloc: Global, hi: u32, first: u32, order: &[u32]) -> Result<Outcome, NoMemory>
    requires some { 1 ≤ hi }
    requires few { hi ≤ 16 }
    requires in_range { first < 8 }
    requires short { length order.now ≤ 8 }
{
    let mut marks = [false; 8];
    run_all::<Brand>(alloc, Blank::new(1), &list(hi), first, order, &mut marks)
}

/// Whether these rows are there.
fn has_rows(found: &Outcome, rows: &[Row]) -> bool {
    found.4.as_slice() == rows
}

/// Whether the shape is the wanted one, nothing was passed on, and the last insertion told this depth.
fn has_shape(found: &Outcome, depth: Option<u32>, rows: &[Row]) -> bool {
    found.0 == 0 && found.1 == depth && found.3 && has_rows(found, rows)
}

/// The same, where the spine stayed as it was.
fn is_shape(found: &Outcome, rows: &[Row]) -> bool {
    has_shape(found, Some(0), rows)
}

#[test]
fn a_full_run_gives_its_upper_half_to_a_new_node(rt: HostRuntime) -> Result<(), Fail> {
    let two = shape_of(rt.alloc(), 2, 2, &[3, 4, 1])?;
    assert!(rt; is_shape(&two, &[(0, 0, 1), (0, 0, 2), (1, 0, 3), (2, 0, 4)]));
    let again = shape_of(rt.alloc(), 2, 1, &[2, 3, 0])?;
    assert!(rt; is_shape(&again, &[(0, 0, 0), (0, 0, 1), (1, 0, 2), (2, 0, 3)]));
    let one = shape_of(rt.alloc(), 1, 3, &[1, 2])?;
    assert!(rt; is_shape(&one, &[(0, 0, 1), (1, 0, 2), (2, 0, 3)]));
    let three = shape_of(rt.alloc(), 3, 1, &[2, 3, 4, 5])?;
    assert!(rt;
        is_shape(
            &three,
            &[(0, 0, 1), (0, 0, 2), (1, 0, 3), (1, 0, 4), (1, 0, 5)]
        )
    );
    Ok(())
}

/// What comes of a filling where the kind behind is woven.
fn woven_outcome(alloc: Global, hi: u32, first: u32, order: &[u32]) -> Result<Outcome, NoMemory>
    requires some { 2 ≤ hi }
    requires few { hi ≤ 16 }
    requires in_range { first < 8 }
    requires short { length order.now ≤ 8 }
{
    let mut marks = [false; 8];
    run_all::<Brand>(
        alloc,
        Blank::new(1),
        &woven_behind(hi),
        first,
        order,
        &mut marks,
    )
}

#[test]
fn a_full_run_before_a_woven_kind_passes_its_upper_half(rt: HostRuntime) -> Result<(), Fail> {
    let above = woven_outcome(rt.alloc(), 2, 1, &[2, 3])?;
    assert_eq!(rt;
        (above.0, above.1, above.2, above.3),
        (1, Some(3), None, true)
    );
    assert!(rt; has_rows(&above, &[(0, 0, 1), (0, 0, 2)]));
    let below = woven_outcome(rt.alloc(), 2, 1, &[2, 0])?;
    assert_eq!(rt;
        (below.0, below.1, below.2, below.3),
        (1, Some(2), None, true)
    );
    assert!(rt; has_rows(&below, &[(0, 0, 0), (0, 0, 1)]));
    let four = woven_outcome(rt.alloc(), 4, 1, &[2, 3, 4, 0])?;
    assert_eq!(rt;
        (four.0, four.1, four.2, four.3),
        (2, Some(3), Some(4), true)
    );
    assert!(rt; has_rows(&four, &[(0, 0, 0), (0, 0, 1), (0, 0, 2)]));
    Ok(())
}

/// What comes of a filling where the kind behind has two links.
fn chunks_outcome(alloc: Global, first: u32, order: &[u32]) -> Result<Outcome, NoMemory>
    requires in_range { first < 8 }
    requires short { length order.now ≤ 8 }
{
    let mut marks = [false; 8];
    run_all::<Brand>(
        alloc,
        Blank::new(1),
        &chunks_behind(),
        first,
        order,
        &mut marks,
    )
}

#[test]
fn a_new_node_with_two_links_has_the_old_one_behind(rt: HostRuntime) -> Result<(), Fail> {
    let one = chunks_outcome(rt.alloc(), 1, &[2, 3])?;
    assert!(rt; has_shape(&one, Some(1), &[(0, 0, 1), (0, 0, 2), (1, 1, 3)]));
    let two = chunks_outcome(rt.alloc(), 1, &[2, 3, 0])?;
    assert!(rt; has_shape(&two, None, &[(0, 0, 0), (0, 0, 1), (1, 1, 2), (2, 1, 3)]));
    let above = chunks_outcome(rt.alloc(), 1, &[2, 3, 4])?;
    assert_eq!(rt;
        (above.0, above.1, above.2, above.3),
        (1, Some(4), None, true)
    );
    assert!(rt; has_rows(&above, &[(0, 0, 1), (0, 0, 2)]));
    Ok(())
}

// ---- many elements

/// The numbers from 2 to 1,999 times a step, modulo 2,003: each once, as 2,003 is prime.
fn multiples(alloc: Global, step: u32) -> Result<Vec<u32>, NoMemory>
    requires low { step < 2003 }
    ensures few { IfOk result (λ order. length order.items < 4000) }
{
    let mut order = Vec::new(alloc);
    for i in 2..2000 {
        order.push(i * step % 2003)?;
    }
    Ok(order)
}

/// Whether the multiples of a step go into a chain of runs of at most so many elements, and are there after each 50th and at the end.
fn are_in(alloc: Global, hi: u32, step: u32) -> Result<bool, NoMemory>
    requires some { 1 ≤ hi }
    requires few { hi ≤ 16 }
    requires low { step < 2003 }
{
    let order = multiples(alloc, step)?;
    let mut marks = [false; 2003];
    let found = run_all::<Brand>(alloc, Blank::new(1), &list(hi), step, &order, &mut marks)?;
    Ok(found.3 && found.4.len() == 1999 && has_marked(&found.4, &marks) && runs_fit(&found.4, hi))
}

/// The same for ascending, descending and scattered coordinates.
fn all_in(alloc: Global, hi: u32) -> Result<bool, NoMemory>
    requires some { 1 ≤ hi }
    requires few { hi ≤ 16 }
{
    Ok(are_in(alloc, hi, 1)? && are_in(alloc, hi, 2002)? && are_in(alloc, hi, 1237)?)
}

#[test]
fn many_elements_are_in_order_whatever_order_they_come_in(rt: HostRuntime) -> Result<(), Fail> {
    assert!(rt; all_in(rt.alloc(), 2)?);
    assert!(rt; all_in(rt.alloc(), 8)?);
    Ok(())
}
