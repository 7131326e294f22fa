//! All entries of nested structures, in order.
ghost use Rattle.std.specs.Prelude.{◌≡◌, ◌≤◌, ◌+◌, ◌++◌, ◌∷◌, [], ◌==◌, not, filter, length, IfOk, OnOk};
ghost use Rattle.dt_model.specs.declared.limits.TheConstants.{MOST_COORDINATES};
ghost use Rattle.dt_model.specs.Pairs.{IsAscending};
ghost use Rattle.iter_gen.specs.LookingUp.{CanBeRead};
ghost use Rattle.node_arena.specs.Modes.{IsHeldFor, IsNested, entries_held, entries_in};
ghost use Rattle.node_arena.specs.Rules.{AreSound};
ghost use Rattle.node_arena.specs.Structures.{Tree, IsStanding, walk_of};
ghost use Rattle.nested_modes.specs.Codes.{modes_of};
ghost use Rattle.nested_modes.specs.Listing.{listed};

use dt_model::{Coords, NoMemory, Nonzeros};
use iter_gen::{Visitor, WalkCode, fold};
use node_arena::{Arena, Elem, Held, NodeKind, Structure};
use std::alloc::Global;

/// The elements of one structure of a mode after another.
#[derive(Drop)]
pub(crate) struct Elements {
    elems: Vec<Elem>,
}

impl Visitor for Elements {
    type Stop = NoMemory;

    ghost allows = { λ s e. Unit {0} };

    ghost visits = { λ old e result new. OnOk result (new.elems.items ≡ old.elems.items ++ (e ∷ [])) };

    fn visit(&mut self, elem: Elem) -> Result<(), NoMemory> {
        keep(&mut self.elems, elem)
    }
}

/// Puts an item behind the others.
fn keep<T: Copy>(list: &mut Vec<T>, item: T) -> Result<(), NoMemory>
    ensures ok { OnOk result (list.new.items ≡ list.old.items ++ (item ∷ [])) }
{
    list.push(item)?;
    Ok(())
}

/// Lists the elements of a structure, in the place of those that were there.
fn gather(
    list: &mut Elements,
    kinds: &[NodeKind],
    arena: &Arena,
    top: &Structure,
) -> Result<(), NoMemory>
    requires sound { AreSound kinds.now }
    requires conforms { CanBeRead kinds.now arena.now top.now }
    ensures ok { OnOk result ((t : Tree) → IsStanding kinds.now arena.now top.now t → list.new.elems.items ≡ walk_of kinds.now t) }
{
    list.elems.clear();
    fold(kinds, arena, top, list)?;
    Ok(())
}

/// Puts a number and its coordinates behind the others, unless it is 0.
fn list_number(at: &Coords, number: u64, out: &mut Nonzeros) -> Result<(), NoMemory>
    ensures ok { OnOk result (out.new ≡ out.old ++ listed at.now (([], number) ∷ [])) }
{
    if number == 0 {
        return Ok(());
    }
    match out.push((at.copy(), number)) {
        Ok(()) => Ok(()),
        Err(_back) => Err(NoMemory),
    }
}

/// The coordinates with one more.
fn behind(at: &Coords, next: u32) -> Coords
    requires room { length at.now + 1 ≤ MOST_COORDINATES }
    ensures value { result ≡ at.now ++ next ∷ [] }
{
    let mut here = at.copy();
    here.push(next);
    here
}

/// Lists what an element at some coordinates holds.
#[cycle(listing)]
fn list_held(
    later: &[WalkCode],
    below: &[Arena],
    held: &Held,
    at: &Coords,
    lists: &mut [Elements],
    out: &mut Nonzeros,
) -> Result<(), NoMemory>
    requires held { IsHeldFor (modes_of later.now below.now) (λ st. IsNested (modes_of later.now below.now) st) held.now }
    requires lists { length lists.old ≡ length later.now }
    requires order { length at.now + length later.now ≤ MOST_COORDINATES }
    ensures ok { OnOk result (out.new ≡ out.old ++ listed at.now (entries_held (λ st. entries_in (modes_of later.now below.now) st) held.now)) }
{
    match held {
        Held::Number(number) => list_number(at, *number, out),
        Held::Inner(inner) => list_below(later, below, inner, at, lists, out),
    }
}

/// Lists the entries of a structure below some coordinates.
#[cycle(listing)]
fn list_below(
    walks: &[WalkCode],
    arenas: &[Arena],
    top: &Structure,
    at: &Coords,
    lists: &mut [Elements],
    out: &mut Nonzeros,
) -> Result<(), NoMemory>
    requires nested { IsNested (modes_of walks.now arenas.now) top.now }
    requires lists { length lists.old ≡ length walks.now }
    requires order { length at.now + length walks.now ≤ MOST_COORDINATES }
    ensures ok { OnOk result (out.new ≡ out.old ++ listed at.now (entries_in (modes_of walks.now arenas.now) top.now)) }
{
    let Some((walk, later)) = walks.split_first() else {
        return Ok(());
    };
    let Some((arena, below)) = arenas.split_first() else {
        return Ok(());
    };
    let Some((list, others)) = lists.split_first_mut() else {
        return Ok(());
    };
    gather(list, walk.kinds(), arena, top)?;
    for index in 0..list.elems.len() {
        let elem = list.elems[index];
        list_held(later, below, &elem.held, &behind(at, elem.at), others, out)?;
    }
    Ok(())
}

/// A list for the elements of each of so many modes. They take no memory yet.
fn lists_for(alloc: Global, modes: usize) -> Result<Vec<Elements>, NoMemory>
    ensures len { IfOk result (λ lists. length lists.items ≡ modes) }
{
    let mut lists = Vec::with_capacity(alloc, modes)?;
    for _ in 0..modes {
        lists.push(Elements {
            elems: Vec::new(alloc),
        })?;
    }
    Ok(lists)
}

/// The coordinates of all numbers that aren't 0, with these numbers, in ascending order. It looks at each node of each mode once, and takes no
/// memory for each structure: a list for each mode grows to the longest structure there.
pub fn list(
    alloc: Global,
    walks: &[WalkCode],
    arenas: &[Arena],
    top: &Structure,
) -> Result<Nonzeros, NoMemory>
    requires nested { IsNested (modes_of walks.now arenas.now) top.now }
    requires few { length walks.now ≤ MOST_COORDINATES }
    ensures value { IfOk result (λ pairs. pairs ≡ filter (λ e. not (e.1 == 0)) (entries_in (modes_of walks.now arenas.now) top.now)) }
    ensures ascending { IfOk result IsAscending }
{
    let mut lists = lists_for(alloc, walks.len())?;
    let mut out = Nonzeros::new(alloc);
    list_below(walks, arenas, top, &Coords::new(), &mut lists, &mut out)?;
    Ok(out)
}
