//! Insertions into structures of each shape, against the ordered map.
use crate::insertions::{Target, do_insertions};
use crate::sequences::Sequence;
use crate::shapes::Shape;
use dt_model::NoMemory;
use std::alloc::Global;
use std::marker::Brand;
use std::sync::ledger::Blank;
use std::test::Fail;

/// The sum of insertions where no counter is given.
fn inserted(
    alloc: Global,
    target: Target,
    sequence: Sequence,
    count: u32,
) -> Result<u64, NoMemory> {
    do_insertions::<Brand>(alloc, Blank::new(1), target, sequence, count)
}

/// Whether a structure of each shape has what the map has.
fn is_as_the_map(alloc: Global, sequence: Sequence, count: u32) -> Result<bool, NoMemory> {
    let wanted = inserted(alloc, Target::Map, sequence, count)?;
    let mut is_same = true;
    for shape in [
        Shape::Flat,
        Shape::List,
        Shape::Bst,
        Shape::Tree,
        Shape::Mixed,
    ] {
        let sum = inserted(alloc, Target::Structure(shape), sequence, count)?;
        is_same = is_same && sum == wanted;
    }
    Ok(is_same)
}

#[test]
fn five_in_descending_order_have_the_sum_that_was_worked_by_hand(
    rt: HostRuntime,
) -> Result<(), Fail> {
    let wanted = (((4 * 31 + 3) * 31 + 2) * 31 + 1) * 31;
    let tree = Target::Structure(Shape::Tree);
    assert_eq!(rt;
        inserted(rt.alloc(), Target::Map, Sequence::Descending, 5)?,
        wanted
    );
    assert_eq!(rt;
        inserted(rt.alloc(), tree, Sequence::Descending, 5)?,
        wanted
    );
    Ok(())
}

#[test]
fn structures_of_each_shape_have_what_the_map_has(rt: HostRuntime) -> Result<(), Fail> {
    assert!(rt; is_as_the_map(rt.alloc(), Sequence::Ascending, 300)?);
    assert!(rt; is_as_the_map(rt.alloc(), Sequence::Descending, 300)?);
    assert!(rt; is_as_the_map(rt.alloc(), Sequence::Random, 300)?);
    Ok(())
}

#[test]
fn a_random_sequence_has_each_coordinate_once(rt: HostRuntime) -> Result<(), Fail> {
    assert_eq!(rt;
        inserted(rt.alloc(), Target::Nothing, Sequence::Random, 300)?,
        300
    );
    assert_eq!(rt;
        inserted(rt.alloc(), Target::Nothing, Sequence::Random, 256)?,
        256
    );
    assert_eq!(rt;
        inserted(rt.alloc(), Target::Nothing, Sequence::Random, 1)?,
        1
    );
    Ok(())
}
