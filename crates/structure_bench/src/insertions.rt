//! Elements put one by one into a structure, and into an ordered map.
ghost use Rattle.std.specs.Prelude.{◌≡◌, ◌≤◌, ◌<◌, ◌+◌, ◌-◌, Ok, IfOk, OnOk, length};
ghost use Rattle.node_arena.specs.Insertions.{Lacks};
ghost use Rattle.node_arena.specs.Kinds.{kinds_of, root_of, shape_at};
ghost use Rattle.node_arena.specs.declared.elements.TheConstants.{MOST_SPINE};
ghost use Rattle.node_arena.specs.Rules.{AreSound, Serves};
ghost use Rattle.node_arena.specs.Structures.{Tree, IsStanding, IsConforming, walk_of};
ghost use Rattle.iter_gen.specs.LookingUp.{CanBeRead};
ghost use Rattle.insert_gen.specs.Inserting.{HasRoom};
ghost use Rattle.insert_gen.specs.Needs.{Wants};
ghost use Rattle.insert_gen.specs.declared.needs.Spares.{Spares};
ghost use Rattle.structure_bench.specs.Growing.{IsGrown, IsSame, TakesIn};

use crate::lists::MOST;
use crate::sequences::{Coordinates, Sequence, turns_of};
use crate::shapes::{self, insert_code_of};
use crate::works::arena_for;
use chunk_tree::rebalance;
use dt_model::{NoMemory, Steps};
use insert_gen::{InsertCode, insert, need};
use iter_gen::{Visitor, fold};
use node_arena::{Arena, Elem, Held, MOST_SPINE, Structure, Top};
use std::alloc::Global;
use std::collections::BTreeMap;
use std::sync::ledger::{Blank, Ledger};

/// What elements are put into.
#[derive(Clone, Copy, Debug)]
pub(crate) enum Target {
    /// Nothing: the turns are taken, and no more.
    Nothing,
    /// An ordered map.
    Map,
    /// A structure of this shape.
    Structure(shapes::Shape),
}

/// Numbers in the order of their coordinates, added up so that their order tells.
#[derive(Debug, Drop)]
struct Digest {
    total: u64,
}

/// A sum with one number more.
fn with_number(total: u64, number: u64) -> u64 {
    total.wrapping_mul(31).wrapping_add(number)
}

impl Visitor for Digest {
    type Stop = ();

    ghost allows = { λ s e. Unit {0} };

    ghost visits = { λ old e result new. result ≡ Ok tt };

    fn visit(&mut self, elem: Elem) -> Result<(), ()> {
        if let Held::Number(number) = elem.held {
            self.total = with_number(self.total, number);
        }
        Ok(())
    }
}

/// The sum of a structure.
fn structure_sum(code: &InsertCode, arena: &Arena, top: &Structure) -> u64
    requires read { CanBeRead (kinds_of code.now) arena.now top.now }
{
    let mut sum = Digest { total: 0 };
    match fold(code.kinds(), arena, top, &mut sum) {
        Ok(()) => sum.total,
        Err(()) => 0,
    }
}

/// The sum of a map.
fn map_sum(map: &BTreeMap<u32, u64>) -> u64 {
    let mut total = 0;
    for number in map.values() {
        total = with_number(total, *number);
    }
    total
}

/// The structure itself, or linked anew where the spine that is kept allows no further insertion.
fn shallow<L: Ledger>(
    code: &InsertCode,
    top: Structure,
    arena: &mut Arena,
    alloc: Global,
    steps: &mut Steps<L>,
) -> Result<Structure, NoMemory>
    requires serves { Serves (kinds_of code.now) arena.old }
    requires holds { (t : Tree) × IsStanding (kinds_of code.now) arena.old top t × IsConforming (kinds_of code.now) (root_of code.now) top t }
    ensures same { IfOk result (λ new. (t : Tree) → IsStanding (kinds_of code.now) arena.old top t
        → IsSame (kinds_of code.now) (root_of code.now) arena.new t new) }
    ensures len { IfOk result (λ new. new.len ≡ top.len) }
    ensures low { IfOk result (λ new. new.spine < MOST_SPINE) }
    ensures most { arena.new.nodes.most ≡ arena.old.nodes.most }
{
    if top.spine < MOST_SPINE {
        return Ok(top);
    }
    rebalance(code.kinds(), code.root(), top, arena, alloc, steps)
}

/// Takes memory for what an insertion may need.
fn make_room(code: &InsertCode, top: &Structure, arena: &mut Arena) -> Result<(), NoMemory>
    requires stands { (t : Tree) × IsStanding (kinds_of code.now) arena.old top.now t }
    ensures stands { (t : Tree) → IsStanding (kinds_of code.now) arena.old top.now t → IsStanding (kinds_of code.now) arena.new top.now t }
    ensures spare { OnOk result ((n : Spares) × Wants (kinds_of code.now) (root_of code.now) top.now n × (n.nodes ≤ arena.new.nodes.spare)
        × (n.runs ≤ arena.new.runs.spare)) }
    ensures room { OnOk result (HasRoom top.now.top (shape_at (kinds_of code.now) (root_of code.now)) arena.new) }
    ensures most { arena.new.nodes.most ≡ arena.old.nodes.most }
{
    let spares = need(code, top);
    arena.reserve(spares.nodes)?;
    match top.top {
        Top::Empty => arena.reserve_runs(spares.runs, 1),
        Top::Node(_) => Ok(()),
        Top::Run(run) => arena.grow_run(run, 1),
    }
}

/// Puts an element into a structure, once there is memory for what that may need.
fn put_new<L: Ledger>(
    code: &InsertCode,
    arena: &mut Arena,
    top: Structure,
    elem: Elem,
    alloc: Global,
    steps: &mut Steps<L>,
) -> Result<Structure, NoMemory>
    requires serves { Serves (kinds_of code.now) arena.old }
    requires tree { (t : Tree) × IsStanding (kinds_of code.now) arena.old top t × IsConforming (kinds_of code.now) (root_of code.now) top t
        × Lacks elem.at (walk_of (kinds_of code.now) t) }
    requires few { top.len < 4294967295 }
    ensures takes { IfOk result (λ new. (t : Tree) → IsStanding (kinds_of code.now) arena.old top t
        → TakesIn (kinds_of code.now) (root_of code.now) arena.new elem t new) }
    ensures len { IfOk result (λ new. new.len ≡ top.len + 1) }
    ensures most { arena.new.nodes.most ≡ arena.old.nodes.most }
{
    let top = shallow(code, top, arena, alloc, steps)?;
    make_room(code, &top, arena)?;
    Ok(insert(code, top, arena, elem, steps))
}

/// Puts an element at a coordinate into a structure if it is free, and marks it as not free.
fn put<L: Ledger>(
    code: &InsertCode,
    arena: &mut Arena,
    top: Structure,
    free: &mut [bool],
    at: u32,
    turn: u32,
    alloc: Global,
    steps: &mut Steps<L>,
) -> Result<Structure, NoMemory>
    requires grown { IsGrown (kinds_of code.now) (root_of code.now) arena.old top free.old turn }
    requires few { turn < MOST }
    ensures grown { IfOk result (λ new. IsGrown (kinds_of code.now) (root_of code.now) arena.new new free.new (turn + 1)) }
{
    let place = at as usize;
    if place >= free.len() || !free[place] {
        return Ok(top);
    }
    free[place] = false;
    let elem = Elem {
        at,
        held: Held::Number(u64::from(turn)),
    };
    put_new(code, arena, top, elem, alloc, steps)
}

/// Puts the coordinates of a sequence into a structure, each with the number of its turn, and adds them up.
fn insert_all<L: Ledger>(
    alloc: Global,
    blank: Blank,
    code: &InsertCode,
    sequence: Sequence,
    count: u32,
) -> Result<u64, NoMemory>
    requires name { blank.name ≡ L.name }
    requires parts { blank.parts ≡ L.parts }
    requires one { blank.parts ≡ 1 }
    requires few { count ≤ MOST }
{
    let mut steps = Steps::<L>::open(blank);
    let mut arena = arena_for(alloc, code.kinds());
    let mut free = vec![in alloc; true; count as usize]?;
    let mut coordinates = Coordinates::new(sequence, count);
    let mut top = Structure {
        top: Top::Empty,
        len: 0,
        spine: 0,
    };
    for turn in 0..turns_of(sequence, count) {
        let at = coordinates.next();
        top = put(
            code,
            &mut arena,
            top,
            free.as_mut_slice(),
            at,
            turn,
            alloc,
            &mut steps,
        )?;
    }
    Ok(structure_sum(code, &arena, &top))
}

/// The same for an ordered map.
fn insert_into_map(alloc: Global, sequence: Sequence, count: u32) -> Result<u64, NoMemory>
    requires few { count ≤ MOST }
{
    let mut free = vec![in alloc; true; count as usize]?;
    let mut coordinates = Coordinates::new(sequence, count);
    let mut map = BTreeMap::new(alloc);
    for turn in 0..turns_of(sequence, count) {
        let at = coordinates.next();
        if let Some(true) = free.get(at as usize) {
            free[at as usize] = false;
            map.insert(at, u64::from(turn))?;
        }
    }
    Ok(map_sum(&map))
}

/// The same for nothing: how many coordinates there are.
fn insert_nowhere(alloc: Global, sequence: Sequence, count: u32) -> Result<u64, NoMemory>
    requires few { count ≤ MOST }
{
    let mut free = vec![in alloc; true; count as usize]?;
    let mut coordinates = Coordinates::new(sequence, count);
    let mut found: u64 = 0;
    for _ in 0..turns_of(sequence, count) {
        let at = coordinates.next();
        if let Some(true) = free.get(at as usize) {
            free[at as usize] = false;
            found = found.wrapping_add(1);
        }
    }
    Ok(found)
}

/// Puts the coordinates below a number, at most 16,777,216, into a target in an order, and answers a sum.
pub(crate) fn do_insertions<L: Ledger>(
    alloc: Global,
    blank: Blank,
    target: Target,
    sequence: Sequence,
    count: u32,
) -> Result<u64, NoMemory>
    requires name { blank.name ≡ L.name }
    requires parts { blank.parts ≡ L.parts }
    requires one { blank.parts ≡ 1 }
{
    let count = count.min(MOST);
    match target {
        Target::Nothing => insert_nowhere(alloc, sequence, count),
        Target::Map => insert_into_map(alloc, sequence, count),
        Target::Structure(shape) => match insert_code_of(shape) {
            Some(code) => insert_all::<L>(alloc, blank, &code, sequence, count),
            None => Ok(0),
        },
    }
}
