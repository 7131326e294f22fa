//! Shapes that were worked by hand, and trees of 2,000 elements that a checker walks.
ghost use Rattle.std.specs.Prelude.{◌≡◌, ◌≢◌, ◌+◌, ◌-◌, ◌<◌, ◌≤◌, ◌∷◌, [], IsSome, IfSome, IfOk, OnOk, None, Some, length, slice_index_or, true, false};
ghost use Rattle.node_arena.specs.Arenas.{node_at};
ghost use Rattle.node_arena.specs.declared.kinds.Shape.TheVariants as shapes;
ghost use Rattle.chunk_tree.specs.Relinking.{root_at};
ghost use Rattle.chunk_tree.specs.Trials.{IsChunks, IsGrown, IsRooted, mixed_kinds, spine_after};

use crate::checking::{CLOSE, MOST, OPEN, write_run, written};
use crate::rebalancing::root_at;
use crate::{insert, rebalance};
use dt_model::{NoMemory, Steps};
use node_arena::{
    Arena, Elem, Held, MOST_SPINE, NodeId, NodeKind, Shape, Side, Step, Structure, Top,
};
use std::alloc::Global;
use std::marker::Brand;
use std::sync::ledger::{Blank, Ledger};
use std::test::Fail;

/// The one kind `T { run 1..hi pre T post T }`.
fn chunks(hi: u32) -> [NodeKind; 1]
    ensures kind { result ≡ record { lo = 1; hi = hi; shape = shapes.Ends 0 0 } ∷ [] }
{
    [NodeKind {
        lo: 1,
        hi,
        shape: Shape::Ends { pre: 0, post: 0 },
    }]
}

/// An element at this coordinate.
pub(crate) fn elem(at: u32) -> Elem
    ensures at { result.at ≡ at }
{
    Elem {
        at,
        held: Held::Number(1),
    }
}

/// A structure of one node with one element, whose coordinate isn't free then.
fn first<L: Ledger>(
    kinds: &[NodeKind],
    arena: &mut Arena,
    top: Structure,
    free: &mut [bool],
    more: u32,
    at: u32,
    steps: &mut Steps<L>,
) -> Structure
    requires kind { IsChunks kinds.now }
    requires grown { IsGrown kinds.now arena.old top free.old more }
    requires nothing { root_at top.top ≡ None }
    requires more { 0 < more }
    requires within { at < length free.old }
    ensures grown { IsGrown kinds.now arena.new result free.new (more - 1) }
{
    free[at as usize] = false;
    let root = arena.make(0, &[elem(at)], &[None, None], steps);
    Structure {
        top: Top::Node(root),
        len: 1,
        spine: 1,
    }
}

/// The spine that is kept after an insertion: the depth that it told, where that is greater, and one more where it told none.
fn spine_after(spine: u8, step: &Step) -> u8
    requires low { spine ≤ 95 }
    ensures value { result ≡ spine_after spine step.now }
{
    match step {
        Step::Done { deep: Some(depth) } => spine.max(*depth),
        _ => spine + 1,
    }
}

/// The structure with one element more, whose coordinate isn't free then.
fn next<L: Ledger>(
    kinds: &[NodeKind],
    arena: &mut Arena,
    top: Structure,
    root: NodeId,
    free: &mut [bool],
    more: u32,
    at: u32,
    steps: &mut Steps<L>,
) -> Structure
    requires kind { IsChunks kinds.now }
    requires grown { IsGrown kinds.now arena.old top free.old more }
    requires root { root_at top.top ≡ Some root }
    requires low { top.spine ≤ 95 }
    requires more { 0 < more }
    requires free { slice_index_or free.old at false ≡ true }
    requires within { at < length free.old }
    ensures grown { IsGrown kinds.now arena.new result free.new (more - 1) }
{
    free[at as usize] = false;
    let step = insert(kinds, root, arena, elem(at), steps);
    Structure {
        top: Top::Node(root),
        len: top.len + 1,
        spine: spine_after(top.spine, &step),
    }
}

/// Puts a coordinate in if it is free.
fn put<L: Ledger>(
    kinds: &[NodeKind],
    arena: &mut Arena,
    top: Structure,
    free: &mut [bool],
    more: u32,
    at: u32,
    steps: &mut Steps<L>,
) -> Structure
    requires kind { IsChunks kinds.now }
    requires grown { IsGrown kinds.now arena.old top free.old more }
    requires low { top.spine ≤ 95 }
    requires more { 0 < more }
    ensures grown { IsGrown kinds.now arena.new result free.new (more - 1) }
{
    let place = at as usize;
    if place >= free.len() || !free[place] {
        return top;
    }
    match root_at(top.top) {
        None => first(kinds, arena, top, free, more, at, steps),
        Some(root) => next(kinds, arena, top, root, free, more, at, steps),
    }
}

/// The structure, rebalanced if another element could make its spine too great.
fn lowered<L: Ledger>(
    kinds: &[NodeKind],
    arena: &mut Arena,
    top: Structure,
    free: &[bool],
    more: u32,
    alloc: Global,
    steps: &mut Steps<L>,
) -> Result<Structure, NoMemory>
    requires kind { IsChunks kinds.now }
    requires grown { IsGrown kinds.now arena.old top free.now more }
    ensures grown { IfOk result (λ st. IsGrown kinds.now arena.new st free.now more) }
    ensures low { IfOk result (λ st. st.spine ≤ 95) }
{
    if top.spine < MOST_SPINE {
        return Ok(top);
    }
    rebalance(kinds, 0, top, arena, alloc, steps)
}

/// The structure, rebalanced where that is asked for.
fn ended<L: Ledger>(
    kinds: &[NodeKind],
    arena: &mut Arena,
    top: Structure,
    free: &[bool],
    shallow: bool,
    alloc: Global,
    steps: &mut Steps<L>,
) -> Result<Structure, NoMemory>
    requires kind { IsChunks kinds.now }
    requires grown { IsGrown kinds.now arena.old top free.now 0 }
    ensures grown { IfOk result (λ st. IsGrown kinds.now arena.new st free.now 0) }
{
    if !shallow {
        return Ok(top);
    }
    rebalance(kinds, 0, top, arena, alloc, steps)
}

/// Puts the coordinates in, in this order, and answers the structure and the tree that is written then. None where that, or one after each so
/// many insertions, breaks a rule, or has another walk, or a spine of more than 96; or where other nodes are spare after a rebalance at the end.
fn grown<L: Ledger>(
    alloc: Global,
    blank: Blank,
    hi: u32,
    order: &[u32],
    each: usize,
    shallow: bool,
) -> Result<Option<Vec<u32>>, NoMemory>
    requires name { blank.name ≡ L.name }
    requires parts { blank.parts ≡ L.parts }
    requires one { blank.parts ≡ 1 }
    requires some { 0 < hi }
    requires in_range { hi ≤ 16 }
    requires few { length order.now ≤ MOST }
    requires each { 0 < each }
{
    let kinds = chunks(hi);
    let mut steps = Steps::<L>::open(blank);
    let mut arena = Arena::new(alloc, hi);
    arena.reserve(MOST)?;
    let mut free = vec![in alloc; true; MOST as usize]?;
    let mut top = Structure {
        top: Top::Empty,
        len: 0,
        spine: 0,
    };
    let mut is_kept = true;
    for (i, at) in order.iter().enumerate() {
        let more = MOST - i as u32;
        top = lowered(
            &kinds,
            &mut arena,
            top,
            free.as_slice(),
            more,
            alloc,
            &mut steps,
        )?;
        top = put(
            &kinds,
            &mut arena,
            top,
            free.as_mut_slice(),
            more,
            *at,
            &mut steps,
        );
        if i % each == 0 {
            is_kept = is_kept && written(alloc, &arena, &top, hi, free.as_slice())?.is_some();
        }
    }
    if !is_kept {
        return Ok(None);
    }
    let spare = arena.spare_nodes();
    top = ended(
        &kinds,
        &mut arena,
        top,
        free.as_slice(),
        shallow,
        alloc,
        &mut steps,
    )?;
    if arena.spare_nodes() != spare {
        return Ok(None);
    }
    written(alloc, &arena, &top, hi, free.as_slice())
}

/// The same where no counter is given.
fn tree(
    alloc: Global,
    hi: u32,
    order: &[u32],
    each: usize,
    shallow: bool,
) -> Result<Option<Vec<u32>>, NoMemory>
    requires some { 0 < hi }
    requires in_range { hi ≤ 16 }
    requires few { length order.now ≤ MOST }
    requires each { 0 < each }
{
    grown::<Brand>(alloc, Blank::new(1), hi, order, each, shallow)
}

/// The kinds `K { run 1..2 pre C post W }`, `C { run 1..8 post C }` and `W { run 2..4 woven }`.
fn mixed() -> [NodeKind; 3]
    ensures kinds { result ≡ mixed_kinds }
{
    [
        NodeKind {
            lo: 1,
            hi: 2,
            shape: Shape::Ends { pre: 1, post: 2 },
        },
        NodeKind {
            lo: 1,
            hi: 8,
            shape: Shape::Post(1),
        },
        NodeKind {
            lo: 2,
            hi: 4,
            shape: Shape::Woven,
        },
    ]
}

/// What is passed on where a coordinate goes into a node of kind K with the coordinates 5 and 9: 1 before the run or 2 behind it, how many nodes with
/// two links are above, the coordinates that go there, and those that stay. Nothing where the answer is `Done`.
fn passed<L: Ledger>(alloc: Global, blank: Blank, at: u32) -> Result<Vec<u32>, NoMemory>
    requires name { blank.name ≡ L.name }
    requires parts { blank.parts ≡ L.parts }
    requires one { blank.parts ≡ 1 }
    requires isnt_5 { at ≢ 5 }
    requires isnt_9 { at ≢ 9 }
{
    let kinds = mixed();
    let mut steps = Steps::<L>::open(blank);
    let mut arena = Arena::new(alloc, 8);
    arena.reserve(2)?;
    let root = arena.make(0, &[elem(5), elem(9)], &[None, None], &mut steps);
    let mut out = Vec::new(alloc);
    match insert(&kinds, root, &mut arena, elem(at), &mut steps) {
        Step::Done { .. } => {}
        Step::Pass {
            node,
            side,
            elems,
            above,
        } => {
            out.push(if side == Side::Pre { 1 } else { 2 })?;
            out.push(u32::from(above))?;
            for elem in elems.as_slice() {
                out.push(elem.at)?;
            }
            out.push(CLOSE)?;
            write_run(&arena, node, &mut out)?;
        }
    }
    Ok(out)
}

/// Whether this tree was written.
fn is_written(tree: Option<Vec<u32>>, wanted: &[u32]) -> bool {
    match tree {
        Some(written) => written.as_slice() == wanted,
        None => false,
    }
}

/// How many nodes lie below one another in a written tree; 0 where none was written.
pub(crate) fn depth_of(tree: Option<Vec<u32>>) -> u32 {
    let written = match tree {
        Some(written) => written,
        None => return 0,
    };
    let mut open: u32 = 0;
    let mut most = 0;
    for at in written.as_slice() {
        if *at == OPEN {
            open = open.saturating_add(1);
            most = open.max(most);
        } else if *at == CLOSE {
            open = open.saturating_sub(1);
        }
    }
    most
}

#[test]
fn a_full_run_keeps_its_lower_part(rt: HostRuntime) -> Result<(), Fail> {
    let two = tree(rt.alloc(), 2, &[2, 4], 1, false)?;
    assert!(rt; is_written(two, &[OPEN, 2, 4, CLOSE, 1]));
    let three = tree(rt.alloc(), 2, &[2, 4, 3], 1, false)?;
    assert!(rt; is_written(three, &[OPEN, 2, 3, OPEN, 4, CLOSE, CLOSE, 2]));
    let four = tree(rt.alloc(), 2, &[2, 4, 3, 1], 1, false)?;
    let wanted = [OPEN, OPEN, 1, CLOSE, 2, 3, OPEN, 4, CLOSE, CLOSE, 2];
    assert!(rt; is_written(four, &wanted));
    Ok(())
}

#[test]
fn an_element_beside_a_run_with_room_goes_into_it(rt: HostRuntime) -> Result<(), Fail> {
    let below = tree(rt.alloc(), 3, &[5, 3, 1], 1, false)?;
    assert!(rt; is_written(below, &[OPEN, 1, 3, 5, CLOSE, 1]));
    let beside = tree(rt.alloc(), 3, &[5, 3, 4, 7, 6, 8], 1, false)?;
    let wanted = [OPEN, 3, 4, 5, OPEN, 6, 7, 8, CLOSE, CLOSE, 2];
    assert!(rt; is_written(beside, &wanted));
    Ok(())
}

#[test]
fn a_row_of_nodes_becomes_shallow(rt: HostRuntime) -> Result<(), Fail> {
    let empty = tree(rt.alloc(), 1, &[], 1, true)?;
    assert!(rt; is_written(empty, &[0]));
    let row = tree(rt.alloc(), 1, &[1, 2, 3], 1, false)?;
    let deep = [OPEN, 1, OPEN, 2, OPEN, 3, CLOSE, CLOSE, CLOSE, 3];
    assert!(rt; is_written(row, &deep));
    let three = tree(rt.alloc(), 1, &[1, 2, 3], 1, true)?;
    let even = [OPEN, OPEN, 1, CLOSE, 2, OPEN, 3, CLOSE, CLOSE, 2];
    assert!(rt; is_written(three, &even));
    let balanced = tree(rt.alloc(), 1, &[2, 1, 3], 1, true)?;
    assert!(rt; is_written(balanced, &even));
    Ok(())
}

#[test]
fn the_kept_spine_is_raised_by_the_depths_that_are_told(rt: HostRuntime) -> Result<(), Fail> {
    let even = tree(rt.alloc(), 1, &[4, 2, 6, 1, 3, 5, 7], 1, false)?;
    let wanted = [
        OPEN, OPEN, OPEN, 1, CLOSE, 2, OPEN, 3, CLOSE, CLOSE, 4, OPEN, OPEN, 5, CLOSE, 6, OPEN, 7,
        CLOSE, CLOSE, CLOSE, 3,
    ];
    assert!(rt; is_written(even, &wanted));
    let pushed = tree(rt.alloc(), 2, &[20, 40, 30, 10, 25], 1, false)?;
    let wanted = [
        OPEN, OPEN, 10, CLOSE, 20, 25, OPEN, 30, OPEN, 40, CLOSE, CLOSE, CLOSE, 3,
    ];
    assert!(rt; is_written(pushed, &wanted));
    Ok(())
}

/// A row of 96 nodes, which has the greatest spine, rebalanced or not.
fn row_of_96(alloc: Global, shallow: bool) -> Result<Option<Vec<u32>>, NoMemory> {
    let mut order = Vec::new(alloc);
    for at in 0..96 {
        order.push(at)?;
    }
    tree(alloc, 1, order.as_slice(), 50, shallow)
}

#[test]
fn a_spine_of_96_becomes_one_of_7(rt: HostRuntime) -> Result<(), Fail> {
    let deep = row_of_96(rt.alloc(), false)?;
    assert!(rt; depth_of(deep) == 96);
    let shallow = row_of_96(rt.alloc(), true)?;
    assert!(rt; depth_of(shallow) == 7);
    Ok(())
}

/// What is passed on, where no counter is given.
fn passed_on(alloc: Global, at: u32) -> Result<Vec<u32>, NoMemory>
    requires isnt_5 { at ≢ 5 }
    requires isnt_9 { at ≢ 9 }
{
    passed::<Brand>(alloc, Blank::new(1), at)
}

#[test]
fn elements_are_passed_on_to_links_of_other_disciplines(rt: HostRuntime) -> Result<(), Fail> {
    let before = passed_on(rt.alloc(), 3)?;
    assert!(rt; before.as_slice() == [1, 1, 3, CLOSE, 5, 9].as_slice());
    let behind = passed_on(rt.alloc(), 11)?;
    assert!(rt; behind.as_slice() == [2, 1, 11, CLOSE, 5, 9].as_slice());
    let between = passed_on(rt.alloc(), 7)?;
    assert!(rt; between.as_slice() == [2, 1, 9, CLOSE, 5, 7].as_slice());
    Ok(())
}

/// The coordinates by steps of this width, modulo their number.
fn by_steps(alloc: Global, width: u32) -> Result<Vec<u32>, NoMemory>
    requires in_range { width < MOST }
    ensures few { IfOk result (λ v. length v.items ≤ MOST) }
{
    let mut order = Vec::new(alloc);
    for i in 0..MOST {
        order.push(i * width % MOST)?;
    }
    Ok(order)
}

/// Whether trees of 2,000 elements keep the rules, put in ascending, descending and scattered.
fn keeps_rules(alloc: Global, hi: u32) -> Result<bool, NoMemory>
    requires some { 0 < hi }
    requires in_range { hi ≤ 16 }
{
    let up = by_steps(alloc, 1)?;
    let down = by_steps(alloc, MOST - 1)?;
    let scattered = by_steps(alloc, 769)?;
    Ok(
        tree(alloc, hi, up.as_slice(), 50, false)?.is_some()
            && tree(alloc, hi, down.as_slice(), 50, false)?.is_some()
            && tree(alloc, hi, scattered.as_slice(), 50, false)?.is_some(),
    )
}

#[test]
fn trees_of_2000_elements_keep_the_rules_of_runs_1_to_1(rt: HostRuntime) -> Result<(), Fail> {
    assert!(rt; keeps_rules(rt.alloc(), 1)?);
    Ok(())
}

#[test]
fn trees_of_2000_elements_keep_the_rules_of_runs_1_to_2(rt: HostRuntime) -> Result<(), Fail> {
    assert!(rt; keeps_rules(rt.alloc(), 2)?);
    Ok(())
}
