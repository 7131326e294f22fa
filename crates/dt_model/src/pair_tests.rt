//! Facts about pairs that no clause says, each shown by a table.

ghost use Rattle.std.specs.Prelude.{◌≡◌, [], ◌∷◌};

use crate::packed_pairs::PackedPairs;
use crate::packed_rows::Row;
use crate::pairs::Pairs;
use crate::places::Coords;
use std::test::Fail;

/// The numbers, at most 8 of them.
fn coords(numbers: &[u32]) -> Coords {
    let mut coords = Coords::new();
    for number in numbers {
        if coords.len() < 8 {
            coords.push(*number);
        }
    }
    coords
}

/// Two coordinates.
fn coords_of_two(first: u32, second: u32) -> Coords
    ensures value { result ≡ first ∷ second ∷ [] }
{
    let mut coords = Coords::new();
    coords.push(first);
    coords.push(second);
    coords
}

/// Puts pairs at the end.
fn push_all(pairs: &mut Pairs, rows: &[(&[u32], u64)]) -> bool {
    for (at, value) in rows {
        if pairs.push((coords(at), *value)).is_err() {
            return false;
        }
    }
    true
}

/// Whether a list has these pairs, by its length, by index and by walking over it.
fn has(pairs: &Pairs, rows: &[(&[u32], u64)]) -> bool {
    if pairs.len() != rows.len() {
        return false;
    }
    for (index, (at, value)) in rows.iter().enumerate() {
        if pairs.get(index) != Some((coords(at), *value)) {
            return false;
        }
    }
    let mut index = 0;
    for (at, value) in pairs.iter() {
        if index >= rows.len() || at != coords(rows[index].0) || value != rows[index].1 {
            return false;
        }
        index += 1;
    }
    index == rows.len() && pairs.get(rows.len()).is_none()
}

#[test]
fn a_pair_is_as_small_as_its_order_allows(rt: HostRuntime) {
    assert_eq!(rt; size_of::<Row<2>>(), 16);
    assert_eq!(rt; size_of::<Row<4>>(), 24);
    assert_eq!(rt; size_of::<Row<6>>(), 32);
    assert_eq!(rt; size_of::<Row<8>>(), 40);
}

#[test]
fn pairs_of_any_orders_are_kept(rt: HostRuntime) {
    let lists: [&[(&[u32], u64)]; 6] = [
        &[(&[], 7)],
        &[(&[4_294_967_295], 18_446_744_073_709_551_615), (&[0], 0)],
        &[(&[1, 2, 3], 4), (&[1, 2, 3], 5)],
        &[(&[1, 2, 3, 4, 5], 6), (&[5, 4, 3, 2, 1], 0)],
        &[
            (&[1, 2, 3, 4, 5, 6, 7, 8], 9),
            (&[8, 7, 6, 5, 4, 3, 2, 1], 0),
        ],
        &[(&[1, 2], 3), (&[4], 5), (&[], 6), (&[7, 8, 9], 10)],
    ];
    for list in lists {
        let mut pairs = Pairs::new(rt.alloc());
        assert!(rt; has(&pairs, &[]));
        assert!(rt; push_all(&mut pairs, list));
        assert!(rt; has(&pairs, list));
    }
}

#[test]
fn equal_coordinates_are_added_up(rt: HostRuntime) -> Result<(), Fail> {
    let mut packed = PackedPairs::new(rt.alloc(), 2);
    packed.push(&coords_of_two(2, 0), 4)?;
    packed.push(&coords_of_two(1, 9), 18_446_744_073_709_551_615)?;
    packed.push(&coords_of_two(2, 0), 1)?;
    packed.push(&coords_of_two(1, 9), 1)?;
    packed.push(&coords_of_two(0, 7), 3)?;
    packed.coalesce();
    assert_eq!(rt; packed.len(), 2);
    assert!(rt; packed.get(0) == Some((coords(&[0, 7]), 3)));
    assert!(rt; packed.get(1) == Some((coords(&[2, 0]), 5)));
    Ok(())
}

#[test]
fn nonzeros_leave_out_zeros(rt: HostRuntime) -> Result<(), Fail> {
    let mut packed = PackedPairs::new(rt.alloc(), 2);
    packed.push(&coords_of_two(1, 5), 3)?;
    packed.push(&coords_of_two(2, 0), 0)?;
    packed.push(&coords_of_two(4, 1), 6)?;
    let nonzeros = Pairs::nonzeros_of(rt.alloc(), &packed)?;
    assert!(rt; has(&nonzeros, &[(&[1, 5], 3), (&[4, 1], 6)]));
    Ok(())
}

#[test]
fn packed_pairs_are_found_and_put_in_order(rt: HostRuntime) -> Result<(), Fail> {
    let mut packed = PackedPairs::new(rt.alloc(), 2);
    packed.reserve(3)?;
    packed.insert(0, &coords_of_two(4, 0), 2);
    packed.insert(0, &coords_of_two(1, 5), 3);
    packed.set(1, &coords_of_two(4, 0), 9);
    let rows = [
        (1, 5, Ok(0)),
        (4, 0, Ok(1)),
        (0, 9, Err(0)),
        (4, 1, Err(2)),
        (1, 6, Err(1)),
    ];
    for (first, second, index) in rows {
        assert_eq!(rt; packed.search(&coords_of_two(first, second)), index);
    }
    let copy = packed.copy(rt.alloc())?;
    assert!(rt; copy.get(0) == Some((coords(&[1, 5]), 3)));
    assert!(rt; copy.get(1) == Some((coords(&[4, 0]), 9)));
    Ok(())
}

#[test]
fn a_packed_copy_has_the_pairs(rt: HostRuntime) -> Result<(), Fail> {
    let mut pairs = Pairs::new(rt.alloc());
    pairs.push((coords_of_two(1, 5), 3))?;
    let packed = pairs.packed(rt.alloc(), 2)?;
    assert_eq!(rt; packed.order(), 2);
    assert!(rt; packed.get(0) == Some((coords(&[1, 5]), 3)));
    Ok(())
}
