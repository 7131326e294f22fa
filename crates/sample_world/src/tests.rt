//! Facts that no clause says, each shown by a table.
use crate::worlds::world_of;
use dt_model::{Call, Coords, Pairs, TensorDecl, Update, Verdict, Verdicts};
use std::alloc::Global;
use std::test::Fail;

/// The cells of 1 to 8, and the lines and adds of the number 4: rows and columns count from 0.
const FOUR: [(u32, u32, u64); 8] = [
    (74, 0, 1),
    (624, 5, 2),
    (652, 28, 3),
    (790, 51, 4),
    (641, 17, 1),
    (409, 12, 2),
    (231, 13, 3),
    (344, 9, 4),
];

/// The coordinates of a cell.
fn place(row: u32, column: u32) -> Coords {
    let mut place = Coords::new();
    place.push(row);
    place.push(column);
    place
}

/// Whether these tensors are S alone, of 1,000 by 66, with 8 latches.
fn are_s_alone(tensors: &[TensorDecl]) -> bool {
    match tensors {
        [tensor] => tensor.name.bytes() == b"S".as_slice()
            && tensor.dims == place(1000, 66)
            && tensor.latches == 8,
        _ => false,
    }
}

/// These rows as loaded lines.
fn lines_of(alloc: Global, rows: &[(u32, u32, u64)]) -> Result<Pairs, Fail> {
    let mut lines = Pairs::new(alloc);
    for (row, column, value) in rows {
        lines.push((place(*row, *column), *value))?;
    }
    Ok(lines)
}

/// The adds of a script, as lines. Other calls are left out.
fn adds_of(alloc: Global, script: &Verdicts) -> Result<Pairs, Fail> {
    let mut lines = Pairs::new(alloc);
    for verdict in script.as_slice() {
        if let Verdict::Accepted(Call::Batch(updates)) = verdict {
            if let [Update::Add { cell, value }] = updates.as_slice() {
                lines.push((cell.at.copy(), *value))?;
            }
        }
    }
    Ok(lines)
}

#[test]
fn the_number_4_has_4_lines_and_a_call_in_each_session(rt: HostRuntime) -> Result<(), Fail> {
    let alloc = rt.alloc();
    let world = world_of(alloc, 4)?;
    assert!(rt; are_s_alone(world.decls.tensors.as_slice()));
    assert_eq!(rt; world.base.len(), 1);
    for lines in world.base.as_slice() {
        assert!(rt; *lines == lines_of(alloc, &FOUR[..4])?);
    }
    assert_eq!(rt; world.scripts.len(), 4);
    for (i, script) in world.scripts.as_slice().iter().enumerate() {
        assert_eq!(rt; script.len(), 1);
        if i < 4 {
            assert!(rt; adds_of(alloc, script)? == lines_of(alloc, &FOUR[4 + i..5 + i])?);
        }
    }
    Ok(())
}

#[test]
fn a_quarter_as_many_calls_is_rounded_down(rt: HostRuntime) -> Result<(), Fail> {
    let rows = [(0, 0), (1, 0), (3, 0), (4, 1), (7, 1), (8, 2), (1003, 250)];
    for (number, calls) in rows {
        let world = world_of(rt.alloc(), number)?;
        for lines in world.base.as_slice() {
            assert_eq!(rt; lines.len(), number as usize);
        }
        for script in world.scripts.as_slice() {
            assert_eq!(rt; script.len(), calls);
        }
    }
    Ok(())
}
