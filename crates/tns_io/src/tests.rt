//! What no clause says: the texts of whole files, with expected values by hand.

ghost use Rattle.std.specs.Prelude.{◌≡◌, [], ◌∷◌};

use crate::{FileCause, FileFault, ReadFault, read_tns, write_tns};
use dt_model::{Coords, Nonzeros, Pairs};
use std::test::Fail;

/// The dimensions 4 and 3.
fn four_by_three() -> Coords {
    let mut dims = Coords::new();
    dims.push(4);
    dims.push(3);
    dims
}

/// The pairs of order 2 as they stand in a list, or the fault.
fn read(rt: &HostRuntime, text: &[u8], most: u32) -> Result<Pairs, ReadFault> {
    if text.len() > 67_108_864 {
        return Err(ReadFault::NoMemory);
    }
    read_tns(rt.alloc(), text, &four_by_three(), most)
}

/// Whether the pair at an index has these coordinates and this value.
fn is_at(pairs: &Pairs, index: usize, at: &[u32], value: u64) -> bool {
    match pairs.get(index) {
        Some((coords, number)) => coords.as_slice() == at && number == value,
        None => false,
    }
}

#[test]
fn pairs_come_in_the_order_of_their_lines(rt: HostRuntime) {
    let text = b"# counts\n\n 1 2 3.0e1\r\n4\t3 -1\n \t# two of one cell\n1 2 0\n01 02 +2.50e1";
    match read(&rt, text, 4) {
        Err(_) => assert!(rt; false),
        Ok(pairs) => {
            assert_eq!(rt; pairs.len(), 4);
            assert!(rt; is_at(&pairs, 0, &[0, 1], 30));
            assert!(rt; is_at(&pairs, 1, &[3, 2], 18_446_744_073_709_551_615));
            assert!(rt; is_at(&pairs, 2, &[0, 1], 0));
            assert!(rt; is_at(&pairs, 3, &[0, 1], 25));
        }
    }
}

#[test]
fn each_cause_and_which_of_two_comes_first(rt: HostRuntime) {
    for (text, line, cause) in [
        // one fault
        (&b"1 1"[..], 1, FileCause::Rank),
        (b"1 1 1\n\n1 1 1 1", 3, FileCause::Rank),
        (b"x 1 1", 1, FileCause::Form),
        (b"1 -1 1", 1, FileCause::Form),
        (b"0 1 1", 1, FileCause::Range),
        (b"4 1 1\n5 1 1", 2, FileCause::Range),
        (b"4294967296 1 1", 1, FileCause::Range),
        (b"1 1 2.5", 1, FileCause::NotWhole),
        (b"1 1 1e-1", 1, FileCause::NotWhole),
        (b"1 1 18446744073709551616", 1, FileCause::TooLarge),
        (b"1 1 .5", 1, FileCause::Form),
        (
            b"1 1 1\n1 1 1\n# a comment counts no pair\n1 1 1",
            4,
            FileCause::Limit,
        ),
        // two faults on one line
        (b"1 1 1\n1 1 1\nx", 3, FileCause::Limit),
        (b"x 9 1.5 1", 1, FileCause::Rank),
        (b"x 9 1", 1, FileCause::Form),
        (b"9 x 1", 1, FileCause::Range),
        (b"1 9 x", 1, FileCause::Range),
        (b"1 x 1.5", 1, FileCause::Form),
        (b"1 0 1e99", 1, FileCause::Range),
        // two faulty lines
        (b"1 1 1.5\nx", 1, FileCause::NotWhole),
    ] {
        let told = match read(&rt, text, 2) {
            Err(fault) => Some(fault),
            Ok(_) => None,
        };
        assert!(rt; told == Some(ReadFault::At(FileFault { line, cause })));
    }
}

/// The fault of a text whose one line has so many bytes: a pair with blanks before its value.
fn fault_of_long_line(rt: &HostRuntime, len: usize) -> Result<Option<ReadFault>, Fail> {
    let mut text = Vec::new(rt.alloc());
    text.extend_from_slice(b"1 1")?;
    for _i in 4..len {
        text.push(b' ')?;
    }
    text.extend_from_slice(b"7\r\n")?;
    match read(rt, &text, 1) {
        Ok(_) => Ok(None),
        Err(fault) => Ok(Some(fault)),
    }
}

#[test]
fn a_line_has_at_most_4096_bytes(rt: HostRuntime) -> Result<(), Fail> {
    let limit = FileFault {
        line: 1,
        cause: FileCause::Limit,
    };
    assert!(rt; fault_of_long_line(&rt, 4096)?.is_none());
    assert!(rt; fault_of_long_line(&rt, 4097)? == Some(ReadFault::At(limit)));
    Ok(())
}

/// One dimension.
fn one(dimension: u32) -> Coords
    ensures value { result ≡ dimension ∷ [] }
{
    let mut dims = Coords::new();
    dims.push(dimension);
    dims
}

#[test]
fn the_greatest_dimension_is_read(rt: HostRuntime) {
    for (text, at) in [
        (&b"4294967295 1"[..], Some(4_294_967_294)),
        (b"1 1", Some(0)),
        (b"4294967296 1", None),
        (b"99999999999999999999999 1", None),
    ] {
        let read = read_tns(rt.alloc(), text, &one(4_294_967_295), 1);
        match at {
            Some(at) => {
                assert!(rt; read.is_ok());
                if let Ok(pairs) = read {
                    assert!(rt; is_at(&pairs, 0, &[at], 1));
                }
            }
            None => {
                assert!(rt; read.is_err());
            }
        }
    }
}

#[test]
fn nonzeros_are_written_from_one(rt: HostRuntime) -> Result<(), Fail> {
    let mut pairs = Nonzeros::new(rt.alloc());
    for (first, second, value) in [
        (0, 1, 30),
        (3, 2, 18_446_744_073_709_551_615_u64),
        (4_294_967_294, 0, 0),
    ] {
        let mut at = Coords::new();
        at.push(first);
        at.push(second);
        pairs.push((at, value))?;
    }
    let mut text = Vec::new(rt.alloc());
    text.extend_from_slice(b"cells\n")?;
    write_tns(&pairs, &mut text)?;
    assert_eq!(rt;
        text.as_slice(),
        &b"cells\n1 2 30\n4 3 -1\n4294967295 1 0\n"[..]
    );
    Ok(())
}

#[test]
fn what_is_read_is_written(rt: HostRuntime) -> Result<(), Fail> {
    let dims = four_by_three();
    let mut text = Vec::new(rt.alloc());
    if let Ok(pairs) = read_tns(rt.alloc(), b"1 2 3.0e1\n", &dims, 1) {
        write_tns(&pairs, &mut text)?;
    }
    assert_eq!(rt; text.as_slice(), &b"1 2 30\n"[..]);
    Ok(())
}
