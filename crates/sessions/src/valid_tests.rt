//! Which calls an engine takes as valid.
use crate::engine::Engine;
use crate::run_tests::{named, opened};
use arrayvec::ArrayVec;
use dt_model::{Call, Cell, Coords, Expr, NoMemory, Stmt, Update, Updates, Vars};
use std::alloc::Global;
use std::test::Fail;

/// A cell of a tensor of one mode.
fn cell(tensor: u32, at: u32) -> Cell {
    let mut coords = Coords::new();
    coords.push(at);
    Cell { tensor, at: coords }
}

/// A get of v with two coordinates.
fn get_of_two() -> Call {
    let mut coords = Coords::new();
    coords.push(0);
    coords.push(0);
    Call::Get(Cell {
        tensor: 0,
        at: coords,
    })
}

/// A batch that sets one cell and adds to another.
fn batch(alloc: Global, first: Cell, second: Cell) -> Result<Call, NoMemory> {
    let mut updates = Updates::new(alloc);
    updates.push(Update::Set {
        cell: first,
        value: 7,
    })?;
    updates.push(Update::Add {
        cell: second,
        value: 8,
    })?;
    Ok(Call::Batch(updates))
}

/// The query `a(i) = t(i)`, where t is a tensor's name.
fn query(alloc: Global, tensor: u8) -> Result<Call, NoMemory> {
    let mut names = ArrayVec::new();
    names.push(named(b'i')?);
    let mut left = Vars::new();
    left.push(0);
    let mut vars = Vars::new();
    vars.push(0);
    let stmt = Stmt {
        name: named(b'a')?,
        vars: names,
        left,
        right: Expr::Access {
            tensor: named(tensor)?,
            vars,
        },
    };
    Call::query(alloc, stmt)
}

/// What an engine over v of dimension 128 and w of dimension 8 answers, and takes the call.
fn is_valid(engine: &Engine, call: Call) -> bool {
    engine.valid(&call)
}

#[test]
fn cells_in_range_are_valid(rt: HostRuntime) -> Result<(), Fail> {
    let (engine, _seat) = opened(rt.alloc(), 1, 1)?;
    assert!(rt; is_valid(&engine, Call::Get(cell(0, 127))));
    assert!(rt; is_valid(&engine, Call::Get(cell(1, 7))));
    assert!(rt; !is_valid(&engine, Call::Get(cell(0, 128))));
    assert!(rt; !is_valid(&engine, Call::Get(cell(1, 8))));
    assert!(rt; !is_valid(&engine, Call::Get(cell(2, 0))));
    assert!(rt; !is_valid(&engine, get_of_two()));
    Ok(())
}

#[test]
fn each_cell_of_a_valid_batch_is_in_range(rt: HostRuntime) -> Result<(), Fail> {
    let alloc = rt.alloc();
    let (engine, _seat) = opened(alloc, 1, 1)?;
    assert!(rt; is_valid(&engine, batch(alloc, cell(0, 0), cell(1, 7))?));
    assert!(rt; !is_valid(&engine, batch(alloc, cell(0, 128), cell(1, 7))?));
    assert!(rt; !is_valid(&engine, batch(alloc, cell(0, 0), cell(1, 8))?));
    assert!(rt; !is_valid(&engine, Call::Batch(Updates::new(alloc))));
    Ok(())
}

#[test]
fn a_valid_query_names_declared_tensors(rt: HostRuntime) -> Result<(), Fail> {
    let alloc = rt.alloc();
    let (engine, _seat) = opened(alloc, 1, 1)?;
    assert!(rt; is_valid(&engine, query(alloc, b'v')?));
    assert!(rt; is_valid(&engine, query(alloc, b'w')?));
    assert!(rt; !is_valid(&engine, query(alloc, b'u')?));
    Ok(())
}
