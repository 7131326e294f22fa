//! What is done with a list or a structure.
ghost use Rattle.std.specs.Prelude.{◌≡◌, ◌≤◌, ◌<◌, Ok, IfOk, length};
ghost use Rattle.node_arena.specs.declared.elements.Elem.{Elem};
ghost use Rattle.node_arena.specs.Conforming.{IsRising};
ghost use Rattle.node_arena.specs.Kinds.{kinds_of};
ghost use Rattle.node_arena.specs.Rules.{AreSound, Serves};
ghost use Rattle.iter_gen.specs.LookingUp.{CanBeRead};
ghost use Rattle.iter_gen.specs.Walkers.{CanBeWalked};

use crate::lists::{MOST, Pair, elements, pairs};
use bulk_build::build;
use dt_model::{NoMemory, Steps};
use iter_gen::{Visitor, WalkCode, Walker, fold, look_up};
use node_arena::{Arena, Elem, Held, NodeKind, Structure, longest_of};
use std::alloc::Global;
use std::sync::ledger::{Blank, Ledger};

/// What a run does.
#[derive(Clone, Copy, Debug, PartialEq, Eq)]
pub(crate) enum What {
    /// Nothing.
    Nothing,
    /// The elements are made.
    List,
    /// A plain list is added up.
    Array,
    /// Coordinates are looked up in a plain list.
    ArrayLookUp,
    /// A structure is built.
    Build,
    /// A structure is added up by a walker.
    Walk,
    /// A structure is added up by a fold.
    Fold,
    /// Rising coordinates are sought in a structure.
    Seek,
    /// A structure is opened again for each coordinate that is sought.
    Jump,
    /// Coordinates are looked up in a structure.
    LookUp,
}

/// The work of this name.
pub(crate) fn what_of(word: &[u8]) -> Option<What> {
    match word {
        b"nothing" => Some(What::Nothing),
        b"list" => Some(What::List),
        b"array" => Some(What::Array),
        b"array_look_up" => Some(What::ArrayLookUp),
        b"build" => Some(What::Build),
        b"walk" => Some(What::Walk),
        b"fold" => Some(What::Fold),
        b"seek" => Some(What::Seek),
        b"jump" => Some(What::Jump),
        b"look_up" => Some(What::LookUp),
        _ => None,
    }
}

/// How many coordinates are looked up in a turn.
const LOOK_UPS: u32 = 100_000;

/// The number behind another one, in a row without a pattern.
fn next_state(state: u64) -> u64 {
    state
        .wrapping_mul(6_364_136_223_846_793_005)
        .wrapping_add(1_442_695_040_888_963_407)
}

/// A coordinate among those of a list with so many elements, or behind them.
fn coordinate_of(state: u64, count: u32) -> u32
    requires few { count ≤ MOST }
{
    (state >> 33) as u32 % (3 * count + 3)
}

/// The number that an element holds, and its coordinate.
fn weight(elem: &Elem) -> u64 {
    match elem.held {
        Held::Number(number) => number.wrapping_add(u64::from(elem.at)),
        Held::Inner(_) => 0,
    }
}

/// Adds up what it is handed.
#[derive(Debug, Drop)]
struct Sum {
    total: u64,
}

impl Visitor for Sum {
    type Stop = ();

    ghost allows = { λ s e. Unit {0} };

    ghost visits = { λ old e result new. result ≡ Ok tt };

    fn visit(&mut self, elem: Elem) -> Result<(), ()> {
        self.total = self.total.wrapping_add(weight(&elem));
        Ok(())
    }
}

/// The sum of a plain list, so many times.
fn add_list(list: &[Pair], turns: u32) -> u64 {
    let mut sum = 0;
    for _ in 0..turns {
        sum = add_once(list, sum);
    }
    sum
}

/// The sum of a plain list.
fn add_once(list: &[Pair], from: u64) -> u64 {
    let mut sum = from;
    for pair in list {
        sum = sum
            .wrapping_add(pair.value)
            .wrapping_add(u64::from(pair.at));
    }
    sum
}

/// The sum of the numbers at coordinates without a pattern, in a plain list.
fn look_up_list(list: &[Pair], count: u32, turns: u32) -> u64
    requires few { count ≤ MOST }
{
    let mut sum: u64 = 0;
    let mut state = 1;
    for _ in 0..u64::from(turns) * u64::from(LOOK_UPS) {
        state = next_state(state);
        let at = coordinate_of(state, count);
        let place = list.partition_point(|pair| pair.at < at);
        if let Some(pair) = list.get(place) {
            if pair.at == at {
                sum = sum.wrapping_add(pair.value);
            }
        }
    }
    sum
}

/// What an element adds to a sum; nothing where there is none.
fn weight_of(elem: Option<Elem>) -> u64 {
    match elem {
        Some(elem) => weight(&elem),
        None => 0,
    }
}

/// The sum of what a walker has left, at most so many elements.
fn walk_once<L: Ledger>(walker: &mut Walker<'_>, count: u32, steps: &mut Steps<L>) -> u64 {
    let mut sum: u64 = 0;
    for _ in 0..count {
        sum = sum.wrapping_add(weight_of(walker.next(steps)));
    }
    sum
}

/// The sum of the elements that rising seeks take.
fn seek_once<L: Ledger>(walker: &mut Walker<'_>, count: u32, steps: &mut Steps<L>) -> u64
    requires few { count ≤ MOST }
{
    let stride = (3 * count as u64 + 3) / LOOK_UPS as u64;
    let mut sum: u64 = 0;
    for n in 0..LOOK_UPS {
        let at = (n as u64).wrapping_mul(stride) % (3 * count as u64 + 3);
        sum = sum.wrapping_add(weight_of(walker.seek(at as u32, steps)));
    }
    sum
}

/// The sum of a structure by walkers.
fn walk_all<L: Ledger>(
    code: &WalkCode,
    arena: &Arena,
    structure: &Structure,
    count: u32,
    turns: u32,
    steps: &mut Steps<L>,
) -> u64
    requires conforms { CanBeWalked code.now arena.now structure.now }
{
    let mut sum: u64 = 0;
    for _ in 0..turns {
        let mut walker = Walker::open(code, arena, *structure);
        sum = sum.wrapping_add(walk_once(&mut walker, count, steps));
    }
    sum
}

/// The sum of what rising seeks take.
fn seek_all<L: Ledger>(
    code: &WalkCode,
    arena: &Arena,
    structure: &Structure,
    count: u32,
    turns: u32,
    steps: &mut Steps<L>,
) -> u64
    requires few { count ≤ MOST }
    requires conforms { CanBeWalked code.now arena.now structure.now }
{
    let mut sum: u64 = 0;
    for _ in 0..turns {
        let mut walker = Walker::open(code, arena, *structure);
        sum = sum.wrapping_add(seek_once(&mut walker, count, steps));
    }
    sum
}

/// The sum of what seeks without a pattern take, each behind an opening.
fn jump_all<L: Ledger>(
    code: &WalkCode,
    arena: &Arena,
    structure: &Structure,
    count: u32,
    turns: u32,
    steps: &mut Steps<L>,
) -> u64
    requires few { count ≤ MOST }
    requires conforms { CanBeWalked code.now arena.now structure.now }
{
    let mut walker = Walker::open(code, arena, *structure);
    let mut sum: u64 = 0;
    let mut state = 1;
    for _ in 0..u64::from(turns) * u64::from(LOOK_UPS) {
        state = next_state(state);
        walker.reopen(arena, *structure);
        sum = sum.wrapping_add(weight_of(walker.seek(coordinate_of(state, count), steps)));
    }
    sum
}

/// The sum of a structure by folds.
fn fold_all(code: &WalkCode, arena: &Arena, structure: &Structure, turns: u32) -> u64
    requires conforms { CanBeRead (kinds_of code.now) arena.now structure.now }
{
    let mut sum = Sum { total: 0 };
    for _ in 0..turns {
        if fold(code.kinds(), arena, structure, &mut sum).is_err() {
            return 0;
        }
    }
    sum.total
}

/// The sum of the numbers at coordinates without a pattern, in a structure.
fn look_up_all(code: &WalkCode, arena: &Arena, structure: &Structure, count: u32, turns: u32) -> u64
    requires few { count ≤ MOST }
    requires conforms { CanBeRead (kinds_of code.now) arena.now structure.now }
{
    let mut sum: u64 = 0;
    let mut state = 1;
    for _ in 0..u64::from(turns) * u64::from(LOOK_UPS) {
        state = next_state(state);
        let at = coordinate_of(state, count);
        if let Some(elem) = look_up(code.kinds(), arena, structure, at) {
            if let Held::Number(number) = elem.held {
                sum = sum.wrapping_add(number);
            }
        }
    }
    sum
}

/// An arena whose nodes have places for the runs of these kinds.
pub(crate) fn arena_for(alloc: Global, kinds: &[NodeKind]) -> Arena
    requires sound { AreSound kinds.now }
    ensures serves { Serves kinds.now result }
{
    Arena::new(alloc, longest_of(kinds))
}

/// A structure of these elements.
fn built<L: Ledger>(
    code: &WalkCode,
    elems: &[Elem],
    arena: &mut Arena,
    steps: &mut Steps<L>,
) -> Result<Structure, NoMemory>
    requires serves { Serves (kinds_of code.now) arena.old }
    requires rising { IsRising elems.now }
    requires few { length elems.now < 4294967296 }
    ensures walked { IfOk result (CanBeWalked code.now arena.new) }
    ensures read { IfOk result (CanBeRead (kinds_of code.now) arena.new) }
{
    build(code.kinds(), code.root(), elems, arena, steps)
}

/// Builds a structure, and works on it.
fn work_on_structure<L: Ledger>(
    alloc: Global,
    blank: Blank,
    code: &WalkCode,
    count: u32,
    what: What,
    turns: u32,
) -> Result<u64, NoMemory>
    requires name { blank.name ≡ L.name }
    requires parts { blank.parts ≡ L.parts }
    requires one { blank.parts ≡ 1 }
    requires few { count ≤ MOST }
{
    let mut steps = Steps::<L>::open(blank);
    let mut arena = arena_for(alloc, code.kinds());
    let elems = elements(alloc, count)?;
    let structure = built(code, &elems, &mut arena, &mut steps)?;
    Ok(match what {
        What::Walk => walk_all(code, &arena, &structure, count, turns, &mut steps),
        What::Fold => fold_all(code, &arena, &structure, turns),
        What::Seek => seek_all(code, &arena, &structure, count, turns, &mut steps),
        What::Jump => jump_all(code, &arena, &structure, count, turns, &mut steps),
        What::LookUp => look_up_all(code, &arena, &structure, count, turns),
        _ => u64::from(structure.len),
    })
}

/// Does the work, and answers a sum.
pub(crate) fn do_work<L: Ledger>(
    alloc: Global,
    blank: Blank,
    code: &WalkCode,
    count: u32,
    what: What,
    turns: u32,
) -> Result<u64, NoMemory>
    requires name { blank.name ≡ L.name }
    requires parts { blank.parts ≡ L.parts }
    requires one { blank.parts ≡ 1 }
{
    let count = count.min(MOST);
    match what {
        What::Nothing => Ok(0),
        What::List => Ok(elements(alloc, count)?.len() as u64),
        What::Array => Ok(add_list(&pairs(alloc, count)?, turns)),
        What::ArrayLookUp => Ok(look_up_list(&pairs(alloc, count)?, count, turns)),
        _ => work_on_structure::<L>(alloc, blank, code, count, what, turns),
    }
}
