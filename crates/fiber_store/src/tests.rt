//! Stores of the fibers of a vector and a matrix.
ghost use Rattle.std.specs.Prelude.{◌≡◌, true, [], ◌∷◌, ◌++◌, IfOk, OnOk};
ghost use Rattle.dt_model.specs.declared.calls.Update.TheVariants.{Set, Add};
ghost use Rattle.dt_model.specs.Contents.{with_updates};
ghost use Rattle.commit_core.specs.Calls.{updates_are_valid};
ghost use Rattle.fiber_store.specs.Stores.{IsSound, own, store_content};
ghost use Rattle.fiber_store.specs.TwoTensors.{two_tensors};

use crate::fibers::{Fiber, cell_of};
use crate::stores::FiberStore;
use arrayvec::ArrayVec;
use dt_model::{
    Cell, Coords, Decls, List, Name, NoMemory, Pairs, Schema, TensorDecl, Update, Updates, latch_of,
};
use std::alloc::Global;
use std::mem::size_of;
use std::process::Abort;
use std::test::Fail;

/// One coordinate.
fn at1(a: u32) -> Coords
    ensures value { result ≡ a ∷ [] }
{
    let mut coords = Coords::new();
    coords.push(a);
    coords
}

/// Two coordinates.
fn at2(a: u32, b: u32) -> Coords
    ensures value { result ≡ a ∷ b ∷ [] }
{
    let mut coords = at1(a);
    coords.push(b);
    coords
}

/// A name of one byte.
fn named(byte: u8) -> Result<Name, NoMemory>
    ensures value { IfOk result (λ n. n ≡ byte ∷ []) }
{
    match Name::new(&[byte]) {
        Some(name) => Ok(name),
        None => Err(NoMemory),
    }
}

/// The vector v.
fn vector() -> Result<TensorDecl, NoMemory>
    ensures value { IfOk result (λ t. t ≡ record { name = 118 ∷ []; dims = 5 ∷ []; formats = record { items = 0 ∷ [] }; latches = 2 }) }
{
    let name = named(b'v')?;
    let mut formats = ArrayVec::new();
    formats.push(0);
    Ok(TensorDecl {
        name,
        dims: at1(5),
        formats,
        latches: 2,
    })
}

/// The matrix m.
fn matrix() -> Result<TensorDecl, NoMemory>
    ensures value { IfOk result (λ t. t ≡ record { name = 109 ∷ []; dims = 3 ∷ 2 ∷ []; formats = record { items = 0 ∷ 0 ∷ [] }; latches = 2 }) }
{
    let name = named(b'm')?;
    let mut formats = ArrayVec::new();
    formats.push(0);
    formats.push(0);
    Ok(TensorDecl {
        name,
        dims: at2(3, 2),
        formats,
        latches: 2,
    })
}

/// The declarations of v and m.
fn declared(alloc: Global) -> Result<Decls, NoMemory>
    ensures value { IfOk result (λ d. d ≡ two_tensors) }
{
    let mut schemas = List::new(alloc);
    schemas.push(Schema::flat())?;
    let mut tensors = List::new(alloc);
    tensors.push(vector()?)?;
    tensors.push(matrix()?)?;
    Ok(Decls { schemas, tensors })
}

/// A cell of v.
fn v(a: u32) -> Cell
    ensures value { result ≡ record { tensor = 0; at = a ∷ [] } }
{
    Cell {
        tensor: 0,
        at: at1(a),
    }
}

/// A cell of m.
fn m(a: u32, b: u32) -> Cell
    ensures value { result ≡ record { tensor = 1; at = a ∷ b ∷ [] } }
{
    Cell {
        tensor: 1,
        at: at2(a, b),
    }
}

/// A set of a cell.
fn set(cell: Cell, value: u64) -> Update
    ensures value { result ≡ Set cell value }
{
    Update::Set { cell, value }
}

/// An add to a cell.
fn add(cell: Cell, value: u64) -> Update
    ensures value { result ≡ Add cell value }
{
    Update::Add { cell, value }
}

/// Two updates.
fn two(alloc: Global, first: Update, second: Update) -> Result<Updates, NoMemory>
    ensures value { IfOk result (λ us. us ≡ first ∷ second ∷ []) }
{
    let mut updates = Updates::of_one(alloc, first);
    updates.push(second)?;
    Ok(updates)
}

/// Two updates and three more.
fn and_three(
    updates: Updates,
    first: Update,
    second: Update,
    third: Update,
) -> Result<Updates, NoMemory>
    ensures value { IfOk result (λ us. us ≡ updates ++ first ∷ second ∷ third ∷ []) }
{
    let mut updates = updates;
    updates.push(first)?;
    updates.push(second)?;
    updates.push(third)?;
    Ok(updates)
}

/// Prepares a store for updates, and makes those that it is due.
fn make(
    decls: &Decls,
    latch: u32,
    store: &mut FiberStore,
    updates: &Updates,
) -> Result<(), NoMemory>
    requires decls { decls.now ≡ two_tensors }
    requires valid { updates_are_valid two_tensors updates.now ≡ true }
    requires sound { IsSound two_tensors latch store.old }
    ensures content { OnOk result (store_content store.new ≡ with_updates (store_content store.old) (own two_tensors latch updates.now)) }
{
    store.prepare(updates)?;
    for update in updates.as_slice() {
        if latch_of(decls, cell_of(update)) == latch {
            store.apply(update);
        }
    }
    Ok(())
}

/// The store of the second fiber of v, without cells.
fn second_of_v(alloc: Global, decls: &Decls) -> Result<FiberStore, NoMemory>
    requires decls { decls.now ≡ two_tensors }
    ensures sound { IfOk result (IsSound two_tensors 1) }
{
    FiberStore::open(alloc, decls, 0, 1, &Pairs::new(alloc))
}

/// The store of the first fiber of m, with two cells.
fn first_of_m(alloc: Global, decls: &Decls) -> Result<FiberStore, NoMemory>
    requires decls { decls.now ≡ two_tensors }
    ensures sound { IfOk result (IsSound two_tensors 2) }
{
    let mut pairs = Pairs::new(alloc);
    pairs.push((at2(0, 1), 4))?;
    pairs.push((at2(1, 0), 5))?;
    FiberStore::open(alloc, decls, 1, 0, &pairs)
}

/// Compares a store's nonzeros with those that are wanted, each as its coordinates and its number.
fn check_pairs(
    rt: &impl Abort,
    alloc: Global,
    store: &FiberStore,
    wanted: &[u64],
) -> Result<(), Fail> {
    let mut numbers = Vec::new(alloc);
    for (at, value) in store.pairs()?.iter() {
        for coordinate in at.as_slice() {
            numbers.push(u64::from(*coordinate))?;
        }
        numbers.push(value)?;
    }
    assert_eq!(rt; numbers.as_slice(), wanted);
    Ok(())
}

#[test]
fn an_update_is_kept_and_made(rt: HostRuntime) -> Result<(), Fail> {
    let decls = declared(rt.alloc())?;
    let updates = Updates::of_one(rt.alloc(), set(v(4), 7));
    let mut store = FiberStore::open(rt.alloc(), &decls, 0, 1, &Pairs::new(rt.alloc()))?;
    store.prepare(&updates)?;
    store.apply(&set(v(4), 7));
    assert!(rt; store.get(&v(4)) == 7 && store.get(&v(3)) == 0);
    check_pairs(&rt, rt.alloc(), &store, &[4, 7])
}

#[test]
fn updates_of_other_fibers_are_passed_over(rt: HostRuntime) -> Result<(), Fail> {
    let alloc = rt.alloc();
    let decls = declared(alloc)?;
    let mut store = second_of_v(alloc, &decls)?;
    let updates = and_three(
        two(alloc, set(v(4), 7), set(v(2), 1))?,
        set(m(2, 1), 6),
        add(v(4), 5),
        set(v(3), 9),
    )?;
    make(&decls, 1, &mut store, &updates)?;
    assert!(rt; store.get(&v(4)) == 12 && store.get(&v(3)) == 9);
    assert!(rt; store.get(&v(2)) == 0 && store.get(&m(2, 1)) == 0);
    check_pairs(&rt, alloc, &store, &[3, 9, 4, 12])
}

#[test]
fn first_update_of_the_fiber_is_due_first(rt: HostRuntime) -> Result<(), Fail> {
    let alloc = rt.alloc();
    let decls = declared(alloc)?;
    let mut store = second_of_v(alloc, &decls)?;
    assert!(rt; store.first_due().is_none());
    let updates = and_three(
        two(alloc, set(v(2), 1), set(v(4), 7))?,
        add(v(3), 5),
        set(m(2, 1), 6),
        set(v(4), 9),
    )?;
    store.prepare(&updates)?;
    assert!(rt; store.first_due() == Some(set(v(4), 7)));
    Ok(())
}

#[test]
fn sums_wrap_and_zeros_drop_out(rt: HostRuntime) -> Result<(), Fail> {
    let alloc = rt.alloc();
    let decls = declared(alloc)?;
    let mut store = second_of_v(alloc, &decls)?;
    let updates = and_three(
        two(alloc, set(v(3), 18_446_744_073_709_551_615), add(v(3), 2))?,
        set(v(4), 8),
        add(v(4), 0),
        set(v(4), 0),
    )?;
    make(&decls, 1, &mut store, &updates)?;
    assert!(rt; store.get(&v(3)) == 1 && store.get(&v(4)) == 0);
    check_pairs(&rt, alloc, &store, &[3, 1])
}

#[test]
fn loaded_cells_are_changed(rt: HostRuntime) -> Result<(), Fail> {
    let alloc = rt.alloc();
    let decls = declared(alloc)?;
    let mut store = first_of_m(alloc, &decls)?;
    check_pairs(&rt, alloc, &store, &[0, 1, 4, 1, 0, 5])?;
    let updates = and_three(
        two(alloc, add(m(0, 1), 1), set(m(2, 0), 3))?,
        set(m(1, 1), 8),
        set(m(0, 0), 2),
        set(v(0), 6),
    )?;
    make(&decls, 2, &mut store, &updates)?;
    assert!(rt; store.get(&m(0, 1)) == 5 && store.get(&m(1, 0)) == 5);
    assert!(rt; store.get(&m(2, 0)) == 0 && store.get(&v(0)) == 0);
    check_pairs(&rt, alloc, &store, &[0, 0, 2, 0, 1, 5, 1, 0, 5, 1, 1, 8])
}

#[test]
fn a_later_batch_drops_what_was_due(rt: HostRuntime) -> Result<(), Fail> {
    let alloc = rt.alloc();
    let decls = declared(alloc)?;
    let mut store = second_of_v(alloc, &decls)?;
    store.prepare(&two(alloc, set(v(3), 1), set(v(4), 1))?)?;
    make(
        &decls,
        1,
        &mut store,
        &two(alloc, add(v(4), 2), set(v(0), 3))?,
    )?;
    check_pairs(&rt, alloc, &store, &[4, 2])
}

#[test]
fn sizes_are_as_said(rt: HostRuntime) {
    assert_eq!(rt; size_of::<Fiber>(), 48);
    assert_eq!(rt; size_of::<FiberStore>(), 8);
}
