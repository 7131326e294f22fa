//! Shapes that were worked by hand, and 2,000 insertions in three orders into structures of each form, checked after each one.
ghost use Rattle.std.specs.Prelude.{◌≡◌, ◌<◌, ◌≤◌, IfOk, OnOk, length};
ghost use Rattle.node_arena.specs.declared.elements.TheConstants.{MOST_SPINE};
ghost use Rattle.node_arena.specs.Kinds.{kinds_of, root_of, shape_at};
ghost use Rattle.node_arena.specs.Rules.{Serves};
ghost use Rattle.insert_gen.specs.Inserting.{HasRoom};
ghost use Rattle.insert_gen.specs.Needs.{Wants};
ghost use Rattle.insert_gen.specs.Trials.{IsGrown, IsReadable};
ghost use Rattle.insert_gen.specs.declared.needs.Spares.{Spares};

use crate::checking::{CLOSE, OPEN, write_all};
use crate::{InsertCode, InsertRow, Over, derive_insert, insert, need, replace};
use arrayvec::ArrayVec;
use chunk_tree::rebalance;
use dt_model::{Kind, Links, Name, NoMemory, Schema, Steps};
use iter_gen::look_up;
use node_arena::{Arena, Elem, Held, MOST_SPINE, NodeKind, Shape, Structure, Top, longest_of};
use schema_check::{check, flat};
use std::alloc::Global;
use std::marker::Brand;
use std::sync::ledger::{Blank, Ledger};
use std::test::Fail;

/// How many coordinates there are.
const MOST: u32 = 2000;

// ---- schemas

/// The name of this letter.
fn name(letter: u8) -> Name {
    match Name::new(&[letter]) {
        Some(name) => name,
        None => Name::default(),
    }
}

/// A kind.
fn kind(letter: u8, lo: u32, hi: u32, links: Links) -> Kind {
    Kind {
        name: name(letter),
        lo,
        hi,
        links,
    }
}

/// The code of a schema with these kinds, whose root is the first.
fn code_of(kinds: ArrayVec<Kind, 16>) -> Option<InsertCode> {
    let root = match kinds.first() {
        Some(first) => first.name.copy(),
        None => return None,
    };
    let schema = Schema {
        name: name(b's'),
        kinds,
        root,
    };
    match check(&schema) {
        Ok(checked) => Some(derive_insert(&checked)),
        Err(_) => None,
    }
}

/// The code of a schema with one kind.
fn code_of_one(lo: u32, hi: u32, links: Links) -> Option<InsertCode> {
    let mut kinds = ArrayVec::new();
    kinds.push(kind(b'A', lo, hi, links));
    code_of(kinds)
}

/// A chain.
fn chained(hi: u32) -> Option<InsertCode> {
    code_of_one(1, hi, Links::Post(name(b'A')))
}

/// Two links.
fn paired(hi: u32) -> Option<InsertCode> {
    let links = Links::Ends {
        pre: name(b'A'),
        post: name(b'A'),
    };
    code_of_one(1, hi, links)
}

/// One node before a woven structure.
fn headed() -> Option<InsertCode> {
    let mut kinds = ArrayVec::new();
    kinds.push(kind(b'H', 1, 2, Links::Post(name(b'W'))));
    kinds.push(kind(b'W', 1, 2, Links::Woven));
    code_of(kinds)
}

/// Nodes with a chain before the run and a woven structure behind.
fn mixed() -> Option<InsertCode> {
    let mut kinds = ArrayVec::new();
    let links = Links::Ends {
        pre: name(b'C'),
        post: name(b'W'),
    };
    kinds.push(kind(b'M', 1, 3, links));
    kinds.push(kind(b'C', 1, 4, Links::Post(name(b'C'))));
    kinds.push(kind(b'W', 1, 3, Links::Woven));
    code_of(kinds)
}

/// A tree of chunks whose root has longer runs.
fn crowned() -> Option<InsertCode> {
    let mut kinds = ArrayVec::new();
    let links = Links::Ends {
        pre: name(b'T'),
        post: name(b'T'),
    };
    kinds.push(kind(b'H', 1, 2, links));
    let links = Links::Ends {
        pre: name(b'T'),
        post: name(b'T'),
    };
    kinds.push(kind(b'T', 1, 1, links));
    code_of(kinds)
}

// ---- elements go in

/// An element at this coordinate.
fn elem(at: u32) -> Elem
    ensures at { result.at ≡ at }
{
    Elem {
        at,
        held: Held::Number(1),
    }
}

/// Makes room for one more element in the structure's run, if it is one.
fn with_room(
    code: &InsertCode,
    top: &Structure,
    free: &[bool],
    arena: &mut Arena,
) -> Result<(), NoMemory>
    requires grown { IsGrown (kinds_of code.now) (root_of code.now) arena.old top.now free.now }
    requires some { 1 ≤ arena.old.runs.room }
    ensures grown { IsGrown (kinds_of code.now) (root_of code.now) arena.new top.now free.now }
    ensures room { OnOk result (HasRoom top.now.top (shape_at (kinds_of code.now) (root_of code.now)) arena.new) }
    ensures nodes { arena.new.nodes ≡ arena.old.nodes }
    ensures spare { arena.new.runs.spare ≡ arena.old.runs.spare }
{
    let top = top.top;
    match top {
        Top::Run(run) => arena.grow_run(run, 1),
        _ => Ok(()),
    }
}

/// Takes what one insertion wants.
fn prepare(
    code: &InsertCode,
    top: &Structure,
    free: &[bool],
    arena: &mut Arena,
) -> Result<(), NoMemory>
    requires grown { IsGrown (kinds_of code.now) (root_of code.now) arena.old top.now free.now }
    ensures grown { IsGrown (kinds_of code.now) (root_of code.now) arena.new top.now free.now }
    ensures spare { OnOk result ((n : Spares) × Wants (kinds_of code.now) (root_of code.now) top.now n × (n.nodes ≤ arena.new.nodes.spare)
        × (n.runs ≤ arena.new.runs.spare)) }
    ensures room { OnOk result (HasRoom top.now.top (shape_at (kinds_of code.now) (root_of code.now)) arena.new) }
{
    let spares = need(code, top);
    arena.reserve(spares.nodes)?;
    arena.reserve_runs(spares.runs, 1)?;
    with_room(code, top, free, arena)
}

/// The structure, made shallow if one more element could make its spine too great.
fn lowered<L: Ledger>(
    code: &InsertCode,
    top: Structure,
    free: &[bool],
    arena: &mut Arena,
    alloc: Global,
    steps: &mut Steps<L>,
) -> Result<Structure, NoMemory>
    requires grown { IsGrown (kinds_of code.now) (root_of code.now) arena.old top free.now }
    ensures grown { IfOk result (λ st. IsGrown (kinds_of code.now) (root_of code.now) arena.new st free.now) }
    ensures low { IfOk result (λ st. st.spine < MOST_SPINE) }
    ensures len { IfOk result (λ st. st.len ≡ top.len) }
{
    if top.spine < MOST_SPINE {
        return Ok(top);
    }
    rebalance(code.kinds(), code.root(), top, arena, alloc, steps)
}

/// Puts a coordinate in if it is free. Tells where that takes more spare nodes or runs than `need` says.
fn put<L: Ledger>(
    code: &InsertCode,
    top: Structure,
    free: &mut [bool],
    arena: &mut Arena,
    at: u32,
    is_few: &mut bool,
    alloc: Global,
    steps: &mut Steps<L>,
) -> Result<Structure, NoMemory>
    requires grown { IsGrown (kinds_of code.now) (root_of code.now) arena.old top free.old }
    ensures grown { IfOk result (λ st. IsGrown (kinds_of code.now) (root_of code.now) arena.new st free.new) }
{
    let place = at as usize;
    if place >= free.len() || !free[place] || top.len >= MOST {
        return Ok(top);
    }
    let top = lowered(code, top, free, arena, alloc, steps)?;
    prepare(code, &top, free, arena)?;
    let wanted = need(code, &top);
    let nodes = arena.spare_nodes();
    let runs = arena.spare_runs();
    free[place] = false;
    let new = insert(code, top, arena, elem(at), steps);
    let nodes_taken = nodes.saturating_sub(arena.spare_nodes());
    let runs_taken = runs.saturating_sub(arena.spare_runs());
    *is_few = *is_few && nodes_taken <= wanted.nodes && runs_taken <= wanted.runs as usize;
    Ok(new)
}

// ---- what is there

/// Whether the coordinates of a written structure rise, aren't free, and are so many.
fn is_walk_of(written: &[u32], free: &[bool], count: u32) -> bool {
    let mut left = count;
    let mut least = 0;
    for at in written {
        if *at < OPEN {
            if left == 0 || *at < least || free.get(*at as usize) != Some(&false) {
                return false;
            }
            left -= 1;
            least = *at + 1;
        }
    }
    left == 0
}

/// Whether nodes of one of the kinds have two links. Without these no spine is kept.
fn has_two_links(kinds: &[NodeKind]) -> bool {
    kinds
        .iter()
        .any(|kind| matches!(kind.shape, Shape::Ends { .. }))
}

/// The written structure, where it keeps the rules, its walk is the so many coordinates that aren't free, its length is the one that is kept, and its
/// spine is at most the one that is kept, which is 0 where no kind has two links.
fn written(
    alloc: Global,
    code: &InsertCode,
    arena: &Arena,
    top: &Structure,
    free: &[bool],
    count: u32,
) -> Result<Option<Vec<u32>>, NoMemory>
    requires readable { IsReadable arena.now top.now.top }
{
    let mut out = Vec::new(alloc);
    let spine = match write_all(arena, top, code.kinds(), code.root(), &mut out)? {
        Some(found) => found.spine,
        None => return Ok(None),
    };
    let is_low = top.spine == 0 || has_two_links(code.kinds());
    let is_as_kept = spine <= u32::from(top.spine) && is_low && count == top.len;
    if !is_as_kept || !is_walk_of(out.as_slice(), free, count) {
        return Ok(None);
    }
    Ok(Some(out))
}

/// Whether the element with a coordinate is another one once it is replaced.
fn is_replaced<L: Ledger>(
    code: &InsertCode,
    top: &Structure,
    free: &[bool],
    arena: &mut Arena,
    at: u32,
    steps: &mut Steps<L>,
) -> bool
    requires grown { IsGrown (kinds_of code.now) (root_of code.now) arena.old top.now free.now }
{
    let other = Elem {
        at,
        held: Held::Number(7),
    };
    let kinds = code.kinds();
    match look_up(kinds, arena, top, at) {
        None => false,
        Some(old) => {
            let answer = replace(code, top, arena, other, steps);
            let new = look_up(kinds, arena, top, at);
            old != other && new == Some(other) && answer == *top
        }
    }
}

/// An empty arena whose nodes have places for the runs of the code's kinds. It takes no memory.
fn arena_for(alloc: Global, code: &InsertCode) -> Arena
    ensures serves { Serves (kinds_of code.now) result }
{
    Arena::new(alloc, longest_of(code.kinds()))
}

/// Puts the coordinates in, in this order, and answers the structure that is written then. None where after one of the insertions it breaks a rule or has
/// another walk, or more is taken than `need` says.
fn filled<L: Ledger>(
    alloc: Global,
    blank: Blank,
    code: &InsertCode,
    order: &[u32],
) -> Result<Option<Vec<u32>>, NoMemory>
    requires name { blank.name ≡ L.name }
    requires parts { blank.parts ≡ L.parts }
    requires one { blank.parts ≡ 1 }
    requires few { length order.now ≤ MOST }
{
    let mut steps = Steps::<L>::open(blank);
    let mut arena = arena_for(alloc, code);
    let mut free = vec![in alloc; true; MOST as usize]?;
    let mut top = Structure {
        top: Top::Empty,
        len: 0,
        spine: 0,
    };
    let mut last = None;
    let mut is_few = true;
    for i in 0..order.len() {
        top = put(
            code,
            top,
            free.as_mut_slice(),
            &mut arena,
            order[i],
            &mut is_few,
            alloc,
            &mut steps,
        )?;
        let count = i as u32 + 1;
        last = written(alloc, code, &arena, &top, free.as_slice(), count)?;
        if last.is_none() || !is_few {
            return Ok(None);
        }
    }
    Ok(last)
}

/// The same where no counter is given.
fn shape_of(
    alloc: Global,
    code: &Option<InsertCode>,
    order: &[u32],
) -> Result<Option<Vec<u32>>, NoMemory>
    requires few { length order.now ≤ MOST }
{
    match code {
        None => Ok(None),
        Some(code) => filled::<Brand>(alloc, Blank::new(1), code, order),
    }
}

/// Whether these coordinates, put in in this order, give this shape.
fn has_shape(
    alloc: Global,
    code: &Option<InsertCode>,
    order: &[u32],
    wanted: &[u32],
) -> Result<bool, NoMemory>
    requires few { length order.now ≤ MOST }
{
    match shape_of(alloc, code, order)? {
        Some(written) => Ok(written.as_slice() == wanted),
        None => Ok(false),
    }
}

#[test]
fn a_woven_root_is_split_at_its_middle(rt: HostRuntime) -> Result<(), Fail> {
    let code = code_of_one(1, 2, Links::Woven);
    let three = [OPEN, OPEN, 1, CLOSE, 2, OPEN, 3, CLOSE, CLOSE];
    assert!(rt; has_shape(rt.alloc(), &code, &[1, 2, 3], &three)?);
    let five = [
        OPEN, OPEN, 1, CLOSE, 2, OPEN, 3, CLOSE, 4, OPEN, 5, CLOSE, CLOSE,
    ];
    assert!(rt; has_shape(rt.alloc(), &code, &[1, 2, 3, 4, 5], &five)?);
    Ok(())
}

#[test]
fn full_nodes_with_two_links_hang_new_ones(rt: HostRuntime) -> Result<(), Fail> {
    let three = [OPEN, OPEN, 1, CLOSE, 2, OPEN, 3, CLOSE, CLOSE];
    assert!(rt; has_shape(rt.alloc(), &paired(1), &[2, 1, 3], &three)?);
    let four = [OPEN, OPEN, 1, CLOSE, 2, 3, OPEN, 4, CLOSE, CLOSE];
    assert!(rt; has_shape(rt.alloc(), &paired(2), &[2, 4, 3, 1], &four)?);
    Ok(())
}

#[test]
fn what_a_run_pushes_out_goes_into_the_woven_structure_behind(rt: HostRuntime) -> Result<(), Fail> {
    let code = headed();
    let three = [OPEN, 1, 2, OPEN, 3, CLOSE, CLOSE];
    assert!(rt; has_shape(rt.alloc(), &code, &[1, 2, 3], &three)?);
    let four = [OPEN, 0, 1, OPEN, 2, 3, CLOSE, CLOSE];
    assert!(rt; has_shape(rt.alloc(), &code, &[1, 2, 3, 0], &four)?);
    let five = [
        OPEN, 0, 1, OPEN, OPEN, 2, CLOSE, 3, OPEN, 4, CLOSE, CLOSE, CLOSE,
    ];
    assert!(rt; has_shape(rt.alloc(), &code, &[1, 2, 3, 0, 4], &five)?);
    Ok(())
}

#[test]
fn a_chain_has_the_new_node_before_the_old_one(rt: HostRuntime) -> Result<(), Fail> {
    let chain = [OPEN, 0, 1, OPEN, 2, OPEN, 3, CLOSE, CLOSE, CLOSE];
    assert!(rt; has_shape(rt.alloc(), &chained(2), &[1, 2, 3, 0], &chain)?);
    Ok(())
}

/// Whether the first of two elements is another one once it is replaced.
fn replaces<L: Ledger>(alloc: Global, blank: Blank, code: &InsertCode) -> Result<bool, NoMemory>
    requires name { blank.name ≡ L.name }
    requires parts { blank.parts ≡ L.parts }
    requires one { blank.parts ≡ 1 }
{
    let mut steps = Steps::<L>::open(blank);
    let mut arena = arena_for(alloc, code);
    let mut free = [true; 2];
    let empty = Structure {
        top: Top::Empty,
        len: 0,
        spine: 0,
    };
    let mut is_few = true;
    let one = put(
        code,
        empty,
        &mut free,
        &mut arena,
        1,
        &mut is_few,
        alloc,
        &mut steps,
    )?;
    let two = put(
        code,
        one,
        &mut free,
        &mut arena,
        0,
        &mut is_few,
        alloc,
        &mut steps,
    )?;
    Ok(is_few && is_replaced(code, &two, &free, &mut arena, 0, &mut steps))
}

/// The same where no counter is given.
fn replaces_in(alloc: Global, code: &Option<InsertCode>) -> Result<bool, NoMemory> {
    match code {
        None => Ok(false),
        Some(code) => replaces::<Brand>(alloc, Blank::new(1), code),
    }
}

#[test]
fn a_replaced_element_is_found_in_a_node_and_in_a_flat_run(rt: HostRuntime) -> Result<(), Fail> {
    assert!(rt; replaces_in(rt.alloc(), &chained(2))?);
    assert!(rt; replaces_in(rt.alloc(), &code_of_one(1, 2, Links::Woven))?);
    assert!(rt; replaces_in(rt.alloc(), &Some(derive_insert(&flat())))?);
    Ok(())
}

// ---- many

/// The coordinates by steps of this width, modulo their number.
fn by_steps(alloc: Global, width: u32) -> Result<Vec<u32>, NoMemory>
    requires in_range { width < MOST }
    ensures few { IfOk result (λ v. length v.items ≤ MOST) }
{
    let mut order = Vec::new(alloc);
    for i in 0..MOST {
        order.push(i * width % MOST)?;
    }
    Ok(order)
}

/// The coordinates in a random order: each is exchanged with one before it or itself, which a linear congruential generator chooses.
fn shuffled(alloc: Global) -> Result<Vec<u32>, NoMemory>
    ensures few { IfOk result (λ v. length v.items ≤ MOST) }
{
    let mut order = by_steps(alloc, 1)?;
    let mut state: u64 = 1;
    for i in 0..order.len() {
        state = state
            .wrapping_mul(6_364_136_223_846_793_005)
            .wrapping_add(1_442_695_040_888_963_407);
        let other = (state >> 33) as usize % (i + 1);
        order.as_mut_slice().swap(i, other);
    }
    Ok(order)
}

/// Whether all coordinates are put in, in ascending, descending and random order, and each structure on the way is right.
fn is_right(alloc: Global, code: &Option<InsertCode>) -> Result<bool, NoMemory> {
    let up = by_steps(alloc, 1)?;
    let down = by_steps(alloc, MOST - 1)?;
    let scattered = shuffled(alloc)?;
    Ok(
        shape_of(alloc, code, up.as_slice())?.is_some()
            && shape_of(alloc, code, down.as_slice())?.is_some()
            && shape_of(alloc, code, scattered.as_slice())?.is_some(),
    )
}

#[test]
fn woven_runs_of_4_to_8_are_right_after_each_insertion(rt: HostRuntime) -> Result<(), Fail> {
    assert!(rt; is_right(rt.alloc(), &code_of_one(4, 8, Links::Woven))?);
    Ok(())
}

#[test]
fn woven_runs_of_2_to_16_are_right_after_each_insertion(rt: HostRuntime) -> Result<(), Fail> {
    assert!(rt; is_right(rt.alloc(), &code_of_one(2, 16, Links::Woven))?);
    Ok(())
}

#[test]
fn chains_of_runs_to_8_are_right_after_each_insertion(rt: HostRuntime) -> Result<(), Fail> {
    assert!(rt; is_right(rt.alloc(), &chained(8))?);
    Ok(())
}

#[test]
fn chains_of_runs_to_2_are_right_after_each_insertion(rt: HostRuntime) -> Result<(), Fail> {
    assert!(rt; is_right(rt.alloc(), &chained(2))?);
    Ok(())
}

#[test]
fn binary_trees_are_right_after_each_insertion(rt: HostRuntime) -> Result<(), Fail> {
    assert!(rt; is_right(rt.alloc(), &paired(1))?);
    Ok(())
}

#[test]
fn trees_of_two_kinds_are_right_after_each_insertion(rt: HostRuntime) -> Result<(), Fail> {
    assert!(rt; is_right(rt.alloc(), &crowned())?);
    Ok(())
}

#[test]
fn nodes_before_woven_structures_are_right_after_each_insertion(
    rt: HostRuntime,
) -> Result<(), Fail> {
    assert!(rt; is_right(rt.alloc(), &headed())?);
    Ok(())
}

#[test]
fn nodes_between_chains_and_woven_structures_are_right_after_each_insertion(
    rt: HostRuntime,
) -> Result<(), Fail> {
    assert!(rt; is_right(rt.alloc(), &mixed())?);
    Ok(())
}

#[test]
fn flat_runs_are_right_after_each_insertion(rt: HostRuntime) -> Result<(), Fail> {
    assert!(rt; is_right(rt.alloc(), &Some(derive_insert(&flat())))?);
    Ok(())
}

// ---- rows and needs

/// What one insertion into a structure of this length, which begins with nothing, wants: nodes, and runs.
fn need_of(code: &Option<InsertCode>, len: u32) -> Option<(u32, u32)> {
    let empty = Structure {
        top: Top::Empty,
        len,
        spine: 0,
    };
    match code {
        None => None,
        Some(code) => {
            let spares = need(code, &empty);
            Some((spares.nodes, spares.runs))
        }
    }
}

#[test]
fn needs_grow_with_the_digits_of_the_length_where_a_kind_is_woven(
    rt: HostRuntime,
) -> Result<(), Fail> {
    let woven = code_of_one(1, 2, Links::Woven);
    assert!(rt; need_of(&woven, 0) == Some((1, 0)));
    assert!(rt; need_of(&woven, 3) == Some((3, 0)));
    assert!(rt; need_of(&woven, 4_294_967_295) == Some((33, 0)));
    assert!(rt; need_of(&chained(2), 3) == Some((1, 0)));
    assert!(rt; need_of(&headed(), 0) == Some((1, 0)));
    assert!(rt; need_of(&headed(), 3) == Some((17, 0)));
    assert!(rt; need_of(&headed(), 4_294_967_295) == Some((257, 0)));
    assert!(rt; need_of(&Some(derive_insert(&flat())), 0) == Some((0, 1)));
    Ok(())
}

#[test]
fn rows_tell_where_the_end_of_a_run_goes(rt: HostRuntime) -> Result<(), Fail> {
    match mixed() {
        None => assert!(rt; false),
        Some(code) => {
            let rows = [
                InsertRow {
                    hi: 3,
                    keep: 2,
                    over: Over::OneByOne(2),
                },
                InsertRow {
                    hi: 4,
                    keep: 3,
                    over: Over::Wedge(1),
                },
                InsertRow {
                    hi: 3,
                    keep: 2,
                    over: Over::Raise,
                },
            ];
            assert!(rt; code.kinds().len() == 3);
            for number in 0..3 {
                assert!(rt; Some(code.row(number)) == rows.get(number as usize));
            }
        }
    }
    Ok(())
}
