//! Shapes that were worked by hand, and trees of 2,000 elements that a checker walks.
ghost use Rattle.std.specs.Prelude.{◌≡◌, ◌+◌, ◌*◌, ◌-◌, ◌<◌, ◌≤◌, ◌∷◌, [], IsSome, IfSome, IfOk, length};
ghost use Rattle.node_arena.specs.Arenas.{node_at};
ghost use Rattle.node_arena.specs.declared.kinds.Shape.TheVariants.{Woven};
ghost use Rattle.node_arena.specs.Kinds.{shape_at};
ghost use Rattle.node_arena.specs.Rules.{AreSound};
ghost use Rattle.btree_nodes.specs.Weaving.{root_in};
ghost use Rattle.btree_nodes.specs.Trials.{IsGrown, IsRooted};

use crate::links::insert_below;
use crate::trees::{insert, root_of};
use dt_model::{NoMemory, Steps};
use node_arena::{Arena, Elem, Held, NodeId, NodeKind, Shape, Structure, Top};
use std::alloc::Global;
use std::marker::Brand;
use std::sync::ledger::{Blank, Ledger};
use std::test::Fail;

/// How many coordinates there are.
const MOST: u32 = 2000;

/// Stands before the first child of a node in a written tree.
const OPEN: u32 = 1_000_001;

/// Stands behind the last child of a node in a written tree.
const CLOSE: u32 = 1_000_002;

/// The one kind `run lo..hi woven`.
fn woven(lo: u32, hi: u32) -> [NodeKind; 1]
    ensures kind { result ≡ record { lo = lo; hi = hi; shape = Woven } ∷ [] }
{
    [NodeKind {
        lo,
        hi,
        shape: Shape::Woven,
    }]
}

/// An element at this coordinate.
fn elem(at: u32) -> Elem
    ensures at { result.at ≡ at }
{
    Elem {
        at,
        held: Held::Number(1),
    }
}

/// Puts a coordinate in if it is free, and marks it as not free.
fn put<L: Ledger>(
    kinds: &[NodeKind],
    arena: &mut Arena,
    top: Structure,
    free: &mut [bool],
    more: u32,
    at: u32,
    steps: &mut Steps<L>,
) -> Structure
    requires sound { AreSound kinds.now }
    requires woven { shape_at kinds.now 0 ≡ Woven }
    requires grown { IsGrown kinds.now arena.old top free.old more }
    requires more { 0 < more }
    ensures grown { IsGrown kinds.now arena.new result free.new (more - 1) }
{
    let place = at as usize;
    if place >= free.len() || !free[place] {
        return top;
    }
    free[place] = false;
    insert(kinds, 0, top, arena, elem(at), steps)
}

/// Writes the node and all below it in the order of the walk, and answers the height. None where a rule is broken, or there are more levels
/// than these.
fn write(
    arena: &Arena,
    node: NodeId,
    kind: &NodeKind,
    least: usize,
    levels: u32,
    out: &mut Vec<u32>,
) -> Result<Option<u32>, NoMemory>
    requires there { IsSome (node_at arena.now node) }
    requires rooted { IsRooted arena.now node }
    ensures low { IfOk result (λ o. IfSome o (λ h. h ≤ levels)) }
{
    let len = arena.len(node);
    let links = arena.link_count(node);
    let is_fan = links == 0 || links - 1 == len;
    if levels == 0 || len < least || len > kind.hi as usize || !is_fan {
        return Ok(None);
    }
    out.push(OPEN)?;
    let mut height = 0;
    for i in 0..len + 1 {
        if let Some(child) = arena.link(node, i) {
            let below = write(arena, child, kind, kind.lo as usize, levels - 1, out)?;
            if below.is_none() || i > 0 && below != Some(height) {
                return Ok(None);
            }
            height = below.unwrap_or(0);
        } else if links != 0 {
            return Ok(None);
        }
        if let Some(at) = arena.coordinate(node, i) {
            out.push(at)?;
        }
    }
    out.push(CLOSE)?;
    Ok(Some(height + 1))
}

/// The coordinates of a written tree.
fn walk_of(alloc: Global, written: &[u32]) -> Result<Vec<u32>, NoMemory> {
    let mut walk = Vec::new(alloc);
    for at in written {
        if *at < OPEN {
            walk.push(*at)?;
        }
    }
    Ok(walk)
}

/// The coordinates that aren't free, in ascending order.
fn taken(alloc: Global, free: &[bool]) -> Result<Vec<u32>, NoMemory> {
    let mut taken = Vec::new(alloc);
    for at in 0..MOST {
        if let Some(false) = free.get(at as usize) {
            taken.push(at)?;
        }
    }
    Ok(taken)
}

/// The written tree, where it keeps the rules and its walk is what isn't free.
fn written(
    alloc: Global,
    arena: &Arena,
    top: &Structure,
    kind: &NodeKind,
    free: &[bool],
) -> Result<Option<Vec<u32>>, NoMemory>
    requires there { IfSome (root_in top.now.top) (λ i. IsSome (node_at arena.now i)) }
    requires rooted { IfSome (root_in top.now.top) (IsRooted arena.now) }
{
    let mut out = Vec::new(alloc);
    let height = match root_of(&top.top) {
        Some(node) => write(arena, node, kind, 1, 32, &mut out)?,
        None => Some(0),
    };
    if height.is_none() || walk_of(alloc, out.as_slice())? != taken(alloc, free)? {
        return Ok(None);
    }
    Ok(Some(out))
}

/// Whether the tree keeps the rules and its walk is what isn't free.
fn keeps(
    alloc: Global,
    arena: &Arena,
    top: &Structure,
    kind: &NodeKind,
    free: &[bool],
) -> Result<bool, NoMemory>
    requires there { IfSome (root_in top.now.top) (λ i. IsSome (node_at arena.now i)) }
    requires rooted { IfSome (root_in top.now.top) (IsRooted arena.now) }
{
    Ok(written(alloc, arena, top, kind, free)?.is_some())
}

/// Puts the coordinates in, in this order, and answers the tree that is written then. None where it, or one of those after each so many
/// insertions, breaks a rule or has another walk.
fn grown<L: Ledger>(
    alloc: Global,
    blank: Blank,
    lo: u32,
    hi: u32,
    order: &[u32],
    each: usize,
) -> Result<Option<Vec<u32>>, NoMemory>
    requires name { blank.name ≡ L.name }
    requires parts { blank.parts ≡ L.parts }
    requires one { blank.parts ≡ 1 }
    requires some { 0 < lo }
    requires half { 2 * lo ≤ hi }
    requires in_range { hi ≤ 16 }
    requires few { length order.now ≤ MOST }
    requires each { 0 < each }
{
    let kinds = woven(lo, hi);
    let mut steps = Steps::<L>::open(blank);
    let mut arena = Arena::new(alloc, hi);
    arena.reserve(12 * MOST)?;
    let mut free = vec![in alloc; true; MOST as usize]?;
    let mut top = Structure {
        top: Top::Empty,
        len: 0,
        spine: 0,
    };
    let mut is_kept = true;
    for (i, at) in order.iter().enumerate() {
        let more = MOST - i as u32;
        top = put(
            &kinds,
            &mut arena,
            top,
            free.as_mut_slice(),
            more,
            *at,
            &mut steps,
        );
        if i % each == 0 {
            is_kept = is_kept && keeps(alloc, &arena, &top, &kinds[0], free.as_slice())?;
        }
    }
    if !is_kept {
        return Ok(None);
    }
    written(alloc, &arena, &top, &kinds[0], free.as_slice())
}

/// The same where no counter is given.
fn tree(
    alloc: Global,
    lo: u32,
    hi: u32,
    order: &[u32],
    each: usize,
) -> Result<Option<Vec<u32>>, NoMemory>
    requires some { 0 < lo }
    requires half { 2 * lo ≤ hi }
    requires in_range { hi ≤ 16 }
    requires few { length order.now ≤ MOST }
    requires each { 0 < each }
{
    grown::<Brand>(alloc, Blank::new(1), lo, hi, order, each)
}

/// Whether this tree was written.
fn is_written(tree: Option<Vec<u32>>, wanted: &[u32]) -> bool {
    match tree {
        Some(written) => written.as_slice() == wanted,
        None => false,
    }
}

#[test]
fn a_full_node_sends_its_middle_element_up(rt: HostRuntime) -> Result<(), Fail> {
    let root = tree(rt.alloc(), 1, 2, &[1, 2], 1)?;
    assert!(rt; is_written(root, &[OPEN, 1, 2, CLOSE]));
    let three = tree(rt.alloc(), 1, 2, &[1, 2, 3], 1)?;
    let wanted = [OPEN, OPEN, 1, CLOSE, 2, OPEN, 3, CLOSE, CLOSE];
    assert!(rt; is_written(three, &wanted));
    Ok(())
}

/// The tree below a link that was empty, after three insertions there, the last of which splits the root. None where another one moves it.
fn hung<L: Ledger>(alloc: Global, blank: Blank) -> Result<Option<Vec<u32>>, NoMemory>
    requires name { blank.name ≡ L.name }
    requires parts { blank.parts ≡ L.parts }
    requires one { blank.parts ≡ 1 }
{
    let kinds = woven(1, 2);
    let mut steps = Steps::<L>::open(blank);
    let mut arena = Arena::new(alloc, 2);
    arena.reserve(12)?;
    let first = insert_below(&kinds, 0, None, &mut arena, elem(3), &mut steps);
    let second = insert_below(&kinds, 0, Some(first), &mut arena, elem(1), &mut steps);
    let third = insert_below(&kinds, 0, Some(second), &mut arena, elem(2), &mut steps);
    let mut out = Vec::new(alloc);
    let height = write(&arena, third, &kinds[0], 1, 32, &mut out)?;
    if height.is_none() || second != first || third == first {
        return Ok(None);
    }
    Ok(Some(out))
}

#[test]
fn a_link_leads_to_a_new_root_once_the_old_one_is_split(rt: HostRuntime) -> Result<(), Fail> {
    let three = hung::<Brand>(rt.alloc(), Blank::new(1))?;
    let wanted = [OPEN, OPEN, 1, CLOSE, 2, OPEN, 3, CLOSE, CLOSE];
    assert!(rt; is_written(three, &wanted));
    Ok(())
}

#[test]
fn a_child_that_is_split_widens_its_parent(rt: HostRuntime) -> Result<(), Fail> {
    let five = tree(rt.alloc(), 1, 2, &[1, 2, 3, 4, 5], 1)?;
    let wanted = [
        OPEN, OPEN, 1, CLOSE, 2, OPEN, 3, CLOSE, 4, OPEN, 5, CLOSE, CLOSE,
    ];
    assert!(rt; is_written(five, &wanted));
    Ok(())
}

/// The coordinates by steps of this width, modulo their number.
fn by_steps(alloc: Global, width: u32) -> Result<Vec<u32>, NoMemory>
    requires in_range { width < MOST }
    ensures few { IfOk result (λ v. length v.items ≤ MOST) }
{
    let mut order = Vec::new(alloc);
    for i in 0..MOST {
        order.push(i * width % MOST)?;
    }
    Ok(order)
}

/// Whether trees of 2,000 elements keep the rules, put in ascending, descending and scattered.
fn keeps_rules(alloc: Global, lo: u32, hi: u32) -> Result<bool, NoMemory>
    requires some { 0 < lo }
    requires half { 2 * lo ≤ hi }
    requires in_range { hi ≤ 16 }
{
    let up = by_steps(alloc, 1)?;
    let down = by_steps(alloc, MOST - 1)?;
    let scattered = by_steps(alloc, 769)?;
    Ok(
        tree(alloc, lo, hi, up.as_slice(), 50)?.is_some()
            && tree(alloc, lo, hi, down.as_slice(), 50)?.is_some()
            && tree(alloc, lo, hi, scattered.as_slice(), 50)?.is_some(),
    )
}

#[test]
fn trees_of_2000_elements_keep_the_rules_of_runs_1_to_2(rt: HostRuntime) -> Result<(), Fail> {
    assert!(rt; keeps_rules(rt.alloc(), 1, 2)?);
    Ok(())
}

#[test]
fn trees_of_2000_elements_keep_the_rules_of_runs_2_to_8(rt: HostRuntime) -> Result<(), Fail> {
    assert!(rt; keeps_rules(rt.alloc(), 2, 8)?);
    Ok(())
}

#[test]
fn trees_of_2000_elements_keep_the_rules_of_runs_2_to_16(rt: HostRuntime) -> Result<(), Fail> {
    assert!(rt; keeps_rules(rt.alloc(), 2, 16)?);
    Ok(())
}
