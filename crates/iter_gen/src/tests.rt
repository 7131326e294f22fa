//! Walks and seeks through structures of each shape, beside a plain count.
ghost use Rattle.std.specs.Prelude.{◌≡◌, ◌<◌, ◌≤◌, ◌+◌, IfOk, length};
ghost use Rattle.node_arena.specs.Conforming.{IsRising};
ghost use Rattle.node_arena.specs.declared.sized.TheConstants.{MOST_ELEMENTS};
ghost use Rattle.iter_gen.specs.Trials.{odd, odds_from};
ghost use Rattle.iter_gen.specs.Walkers.{CanBeWalked};

use crate::{Act, WalkCode, Walker, derive_walk};
use arrayvec::ArrayVec;
use bulk_build::build;
use dt_model::{Kind, Links, Name, NoMemory, Schema, Steps};
use node_arena::{Arena, Elem, Held, MOST_ELEMENTS, Structure, Top};
use schema_check::check;
use std::alloc::Global;
use std::marker::Brand;
use std::sync::ledger::{Blank, Ledger};
use std::test::Fail;

// ---- schemas

/// The name of this letter.
fn name(letter: u8) -> Name {
    match Name::new(&[letter]) {
        Some(name) => name,
        None => Name::default(),
    }
}

/// A kind.
fn kind(letter: u8, lo: u32, hi: u32, links: Links) -> Kind {
    Kind {
        name: name(letter),
        lo,
        hi,
        links,
    }
}

/// The code of a schema with these kinds, whose root is the first.
fn code_of(kinds: ArrayVec<Kind, 16>) -> Option<WalkCode> {
    let root = match kinds.first() {
        Some(first) => first.name.copy(),
        None => return None,
    };
    let schema = Schema {
        name: name(b's'),
        kinds,
        root,
    };
    match check(&schema) {
        Ok(checked) => Some(derive_walk(&checked)),
        Err(_) => None,
    }
}

/// The code of a schema with one kind.
pub(crate) fn code_of_one(lo: u32, hi: u32, links: Links) -> Option<WalkCode> {
    let mut kinds = ArrayVec::new();
    kinds.push(kind(b'A', lo, hi, links));
    code_of(kinds)
}

/// A chain.
pub(crate) fn chained(hi: u32) -> Option<WalkCode> {
    code_of_one(1, hi, Links::Post(name(b'A')))
}

/// Two links.
pub(crate) fn paired(hi: u32) -> Option<WalkCode> {
    let links = Links::Ends {
        pre: name(b'A'),
        post: name(b'A'),
    };
    code_of_one(1, hi, links)
}

/// One node before a woven structure.
fn headed() -> Option<WalkCode> {
    let mut kinds = ArrayVec::new();
    kinds.push(kind(b'H', 1, 2, Links::Post(name(b'W'))));
    kinds.push(kind(b'W', 1, 2, Links::Woven));
    code_of(kinds)
}

/// A node between a woven structure and a chain.
pub(crate) fn mixed() -> Option<WalkCode> {
    let mut kinds = ArrayVec::new();
    let links = Links::Ends {
        pre: name(b'W'),
        post: name(b'C'),
    };
    kinds.push(kind(b'M', 1, 4, links));
    kinds.push(kind(b'W', 1, 3, Links::Woven));
    kinds.push(kind(b'C', 1, 4, Links::Post(name(b'C'))));
    code_of(kinds)
}

// ---- elements

/// The element with this number, at an odd coordinate.
fn item(n: u32) -> Elem
    requires few { n ≤ 4096 }
    ensures value { result ≡ odd n }
{
    Elem {
        at: 2 * n + 1,
        held: Held::Number(u64::from(n)),
    }
}

/// So many elements: their coordinates are 1, 3, 5 and so on.
#[tactic(auto, using(crate::proofs::TrialsLemmas::odds_snoc, crate::proofs::TrialsLemmas::rising_of))]
pub(crate) fn items(count: u32) -> ArrayVec<Elem, 3000>
    requires few { count ≤ 3000 }
    ensures rising { IsRising result.items }
    ensures len { length result.items ≡ count }
{
    let mut elems = ArrayVec::new();
    for n in 0..count {
        elems.push(Elem {
            at: 2 * n + 1,
            held: Held::Number(u64::from(n)),
        });
    }
    elems
}

// ---- trials

/// A structure of these elements.
fn built<L: Ledger>(
    code: &WalkCode,
    elems: &[Elem],
    arena: &mut Arena,
    steps: &mut Steps<L>,
) -> Result<Structure, NoMemory>
    requires wide { MOST_ELEMENTS ≤ arena.old.nodes.most }
    requires rising { IsRising elems.now }
    requires few { length elems.now < 4294967296 }
    ensures ok { IfOk result (CanBeWalked code.now arena.new) }
{
    build(code.kinds(), code.root(), elems, arena, steps)
}

/// Whether the walker gives so many elements, and then none.
fn is_walked<L: Ledger>(walker: &mut Walker<'_>, count: u32, steps: &mut Steps<L>) -> bool
    requires few { count ≤ 3000 }
    ensures code { walker.new.code ≡ walker.old.code }
{
    'elements: for n in 0..count {
        if walker.next(steps) != Some(item(n)) {
            return false;
        }
    }
    walker.next(steps).is_none() && walker.seek(0, steps).is_none()
}

/// Whether 50 seeks, near and far by a random number, give the elements that a plain count gives.
fn is_sought<L: Ledger>(
    walker: &mut Walker<'_>,
    count: u32,
    seed: u32,
    steps: &mut Steps<L>,
) -> bool
    requires few { count ≤ 3000 }
    ensures code { walker.new.code ≡ walker.old.code }
{
    let mut random = seed;
    let mut passed: u32 = 0;
    'seeks: for _ in 0..50 {
        random = random.wrapping_mul(1664525).wrapping_add(1013904223);
        let span = if random % 3 == 0 { 2 * count + 3 } else { 9 };
        let near = passed.saturating_mul(2).saturating_sub(4);
        let at = near.saturating_add(random / 65536 % span);
        let n = if at / 2 < passed { passed } else { at / 2 };
        let wanted = if n < count { Some(item(n)) } else { None };
        if walker.seek(at, steps) != wanted {
            return false;
        }
        passed = if n < count { n + 1 } else { count };
    }
    true
}

/// Whether a walker that is opened again and again gives the right walks and seeks.
pub(crate) fn is_right_through<'a, L: Ledger>(
    code: &'a WalkCode,
    arena: &'a Arena,
    top: Structure,
    count: u32,
    steps: &mut Steps<L>,
) -> bool
    requires conforms { CanBeWalked code.now arena.now top }
    requires few { count ≤ 3000 }
{
    let mut walker = Walker::open(code, arena, top);
    if !is_walked(&mut walker, count, steps) {
        return false;
    }
    'turns: for seed in 0..20 {
        walker.reopen(arena, top);
        if !is_sought(&mut walker, count, seed, steps) {
            return false;
        }
    }
    walker.reopen(arena, top);
    is_walked(&mut walker, count, steps) && (count == 0) == (top.top == Top::Empty)
}

/// Whether walks and seeks through a structure of so many elements are right.
fn is_right<L: Ledger>(
    alloc: Global,
    blank: Blank,
    code: &WalkCode,
    count: u32,
) -> Result<bool, NoMemory>
    requires name { blank.name ≡ L.name }
    requires parts { blank.parts ≡ L.parts }
    requires one { blank.parts ≡ 1 }
    requires few { count ≤ 3000 }
{
    let mut steps = Steps::<L>::open(blank);
    let mut arena = Arena::new(alloc, MOST_ELEMENTS);
    let elems = items(count);
    let top = built(code, elems.as_slice(), &mut arena, &mut steps)?;
    Ok(is_right_through(code, &arena, top, count, &mut steps))
}

/// The same, with a count of ticks.
fn is_right_at(alloc: Global, code: &WalkCode, count: u32) -> Result<bool, NoMemory>
    requires few { count ≤ 3000 }
{
    is_right::<Brand>(alloc, Blank::new(1), code, count)
}

/// Whether that holds for each of some sizes.
fn is_right_at_each_size(alloc: Global, code: Option<WalkCode>) -> Result<bool, NoMemory> {
    let code = match code {
        Some(code) => code,
        None => return Ok(false),
    };
    for count in 0..41 {
        if !is_right_at(alloc, &code, count)? {
            return Ok(false);
        }
    }
    Ok(is_right_at(alloc, &code, 300)? && is_right_at(alloc, &code, 3000)?)
}

#[test]
fn a_flat_run_is_walked_and_sought(rt: HostRuntime) -> Result<(), Fail> {
    assert!(rt; is_right_at_each_size(rt.alloc(), code_of_one(1, 16, Links::Flat))?);
    Ok(())
}

#[test]
fn chains_are_walked_and_sought(rt: HostRuntime) -> Result<(), Fail> {
    assert!(rt; is_right_at_each_size(rt.alloc(), chained(8))?);
    assert!(rt; is_right_at_each_size(rt.alloc(), chained(1))?);
    Ok(())
}

#[test]
fn nodes_with_two_links_are_walked_and_sought(rt: HostRuntime) -> Result<(), Fail> {
    assert!(rt; is_right_at_each_size(rt.alloc(), paired(1))?);
    assert!(rt; is_right_at_each_size(rt.alloc(), paired(3))?);
    Ok(())
}

#[test]
fn woven_structures_are_walked_and_sought(rt: HostRuntime) -> Result<(), Fail> {
    assert!(rt; is_right_at_each_size(rt.alloc(), code_of_one(4, 8, Links::Woven))?);
    assert!(rt; is_right_at_each_size(rt.alloc(), code_of_one(1, 2, Links::Woven))?);
    Ok(())
}

#[test]
fn mixed_kinds_are_walked_and_sought(rt: HostRuntime) -> Result<(), Fail> {
    assert!(rt; is_right_at_each_size(rt.alloc(), headed())?);
    assert!(rt; is_right_at_each_size(rt.alloc(), mixed())?);
    Ok(())
}

/// The coordinate of an element, if there is one.
fn coordinate(elem: Option<Elem>) -> Option<u32> {
    match elem {
        None => None,
        Some(elem) => Some(elem.at),
    }
}

/// The coordinates that a walker gives: the next one, those of the seeks of 8, 9 and 40, and the next one.
fn answers_of<L: Ledger>(
    code: &WalkCode,
    arena: &Arena,
    top: Structure,
    steps: &mut Steps<L>,
) -> [Option<u32>; 5]
    requires conforms { CanBeWalked code.now arena.now top }
{
    let mut walker = Walker::open(code, arena, top);
    let first = coordinate(walker.next(steps));
    let second = coordinate(walker.seek(8, steps));
    let third = coordinate(walker.seek(9, steps));
    let fourth = coordinate(walker.seek(40, steps));
    let fifth = coordinate(walker.next(steps));
    [first, second, third, fourth, fifth]
}

/// Those of a chain over 1, 3, .., 39.
fn worked<L: Ledger>(alloc: Global, blank: Blank) -> Result<[Option<u32>; 5], NoMemory>
    requires name { blank.name ≡ L.name }
    requires parts { blank.parts ≡ L.parts }
    requires one { blank.parts ≡ 1 }
{
    let code = match chained(8) {
        Some(code) => code,
        None => return Ok([None; 5]),
    };
    let mut steps = Steps::<L>::open(blank);
    let mut arena = Arena::new(alloc, MOST_ELEMENTS);
    let elems = items(20);
    let top = built(&code, elems.as_slice(), &mut arena, &mut steps)?;
    Ok(answers_of(&code, &arena, top, &mut steps))
}

/// These coordinates.
fn worked_answers(alloc: Global) -> Result<[Option<u32>; 5], NoMemory> {
    worked::<Brand>(alloc, Blank::new(1))
}

#[test]
fn a_chain_gives_the_worked_answers(rt: HostRuntime) -> Result<(), Fail> {
    let answers = worked_answers(rt.alloc())?;
    assert_eq!(rt; answers, [Some(1), Some(9), Some(11), None, None]);
    Ok(())
}

#[test]
fn acts_are_in_the_order_of_the_walk(rt: HostRuntime) -> Result<(), Fail> {
    match mixed() {
        None => assert!(rt; false),
        Some(code) => {
            assert!(rt; code.acts(0) == [Act::Pre(1), Act::Run, Act::Post(2)].as_slice());
            assert!(rt; code.acts(1) == [Act::Weave].as_slice());
            assert!(rt; code.acts(2) == [Act::Run, Act::Post(2)].as_slice());
            assert!(rt; code.acts(3) == [Act::Run].as_slice());
        }
    }
    Ok(())
}
