//! Runs whose scripts are read at once.

use crate::tests::{run_words, words_of};
use dt_model::LINE_LIMIT;
use dt_outside::{MemShelf, SureSink};
use std::alloc::Global;
use std::sync::Wait;
use std::test::Fail;
use std::thread::Threads;

/// The status and the text of a run over these files. Others are missing, and the listed fetches fail.
fn run_failing<R: Threads + Wait + Sync>(
    rt: &R,
    alloc: Global,
    files: &[(&str, &[u8])],
    fails: &[u64],
) -> Result<(u8, Vec<u8>), Fail> {
    let mut shelf = MemShelf::new(alloc, fails.to_vec(alloc)?);
    for (name, bytes) in files {
        shelf.add(name, bytes)?;
    }
    let mut sink = SureSink::new(alloc, 4096)?;
    let words = words_of(alloc, &["run", "m"])?;
    let status = run_words(rt, alloc, &words, &mut shelf, &mut sink);
    Ok((status, sink.bytes().to_vec(alloc)?))
}

/// The status and the text of a run over these files. Others are missing.
fn run_over<R: Threads + Wait + Sync>(
    rt: &R,
    alloc: Global,
    files: &[(&str, &[u8])],
) -> Result<(u8, Vec<u8>), Fail> {
    run_failing(rt, alloc, files, &[])
}

/// A script of so many lines with a call, behind which there may be one that is longer than a line may be.
fn script(alloc: Global, lines: u32, is_faulty: bool) -> Result<Vec<u8>, Fail> {
    let mut text = Vec::new(alloc);
    for _ in 0..lines {
        text.extend_from_slice(b"get v 1\n")?;
    }
    if is_faulty {
        for _ in 0..LINE_LIMIT + 1 {
            text.extend_from_slice(b"x")?;
        }
    }
    Ok(text)
}

/// A vector, and two sessions.
const TWO: &[u8] = b"tensor v 4 as flat latches 1\nsession s\nsession t\n";

#[test]
fn the_first_fault_comes_before_later_ones(rt: HostRuntime) -> Result<(), Fail> {
    let alloc = rt.alloc();
    let rows: [(u32, bool, u32, &[u8]); 3] = [
        (2, true, 0, b"refused s 3 limit\n"),
        (0, true, 2, b"refused s 1 limit\n"),
        (1, false, 2, b"refused t 3 limit\n"),
    ];
    for (lines, is_faulty, later, line) in rows {
        let s = script(alloc, lines, is_faulty)?;
        let t = script(alloc, later, true)?;
        let files = [("m", TWO), ("s", s.as_slice()), ("t", t.as_slice())];
        let (status, text) = run_over(&rt, alloc, &files)?;
        assert_eq!(rt; text.as_slice(), line);
        assert_eq!(rt; status, 2);
    }
    Ok(())
}

#[test]
fn a_fault_comes_before_a_later_fetch_that_fails(rt: HostRuntime) -> Result<(), Fail> {
    let alloc = rt.alloc();
    let rows: [(bool, &[u8], u8); 2] = [
        (true, b"refused s 3 limit\n", 2),
        (false, b"shelf t\n", 3),
    ];
    for (is_faulty, line, wanted) in rows {
        let s = script(alloc, 2, is_faulty)?;
        let (status, text) = run_over(&rt, alloc, &[("m", TWO), ("s", s.as_slice())])?;
        assert_eq!(rt; text.as_slice(), line);
        assert_eq!(rt; status, wanted);
    }
    Ok(())
}

#[test]
fn a_fault_comes_before_a_failed_fetch_of_a_file_named_twice(rt: HostRuntime) -> Result<(), Fail> {
    let alloc = rt.alloc();
    let manifest = b"tensor v 4 as flat latches 1\nsession s\nsession t\nsession s\n".as_slice();
    let rows: [(bool, &[u8], u8); 2] = [
        (true, b"refused t 2 limit\n", 2),
        (false, b"shelf s\n", 3),
    ];
    for (is_faulty, line, wanted) in rows {
        let s = script(alloc, 1, false)?;
        let t = script(alloc, 1, is_faulty)?;
        let files = [("m", manifest), ("s", s.as_slice()), ("t", t.as_slice())];
        let (status, text) = run_failing(&rt, alloc, &files, &[4])?;
        assert_eq!(rt; text.as_slice(), line);
        assert_eq!(rt; status, wanted);
    }
    Ok(())
}

#[test]
fn a_script_past_the_updates_that_are_left_is_refused(rt: HostRuntime) -> Result<(), Fail> {
    let alloc = rt.alloc();
    let mut lines = Vec::new(alloc);
    for _ in 0..699_998 {
        lines.extend_from_slice(b"1 1\n")?;
    }
    let manifest =
        b"tensor v 4 as flat latches 1\nload v a\nsession s\nsession t\nsession u\n".as_slice();
    let files: [(&str, &[u8]); 5] = [
        ("m", manifest),
        ("a", lines.as_slice()),
        ("s", b"set v 1 1\n"),
        ("t", b"get v 1\n\nset v 1 2\nset v 1 3\n"),
        ("u", b"get v 1\n"),
    ];
    let (status, text) = run_over(&rt, alloc, &files)?;
    assert_eq!(rt; text.as_slice(), b"refused t 4 limit\n".as_slice());
    assert_eq!(rt; status, 2);
    Ok(())
}

#[test]
fn scripts_that_are_read_at_once_keep_their_places(rt: HostRuntime) -> Result<(), Fail> {
    let alloc = rt.alloc();
    let files: [(&str, &[u8]); 5] = [
        (
            "m",
            b"tensor v 4 as flat latches 1\nsession a\nsession b\nprint v\nsession b\nsession c\nsession d\n",
        ),
        ("a", b"put\n"),
        ("b", b""),
        ("c", b"get w 1\nset v 2 7\nadd v 2 1\n"),
        ("d", b"get v 5\n"),
    ];
    let report =
        b"session 1\n1 refused form 1\nsession 2\nsession 3\nsession 4\n1 refused name w\n2 ok\n3 ok\nsession 5\n1 refused range v 1 4\nhistory 2\n4 2\n4 3\ntensor v 1\n2 8\n".as_slice();
    let (status, text) = run_over(&rt, alloc, &files)?;
    assert_eq!(rt; text.as_slice(), report);
    assert_eq!(rt; status, 0);
    Ok(())
}
