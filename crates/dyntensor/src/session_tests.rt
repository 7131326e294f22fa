//! Runs of several sessions at once.
ghost use Rattle.std.specs.Prelude.{◌≤◌, length};

use crate::tests::{run, run_past};
use dt_model::{Cell, Coords, Turn};
use dt_outside::{HoldGate, OpenGate};
use fiber_latch::Closed;
use fiber_store::FiberStore;
use std::alloc::Global;
use std::sync::Wait;
use std::test::Fail;
use std::thread::Threads;

/// Two sessions over a vector of two fibers.
const TWO_FIBERS: &[u8] = b"tensor v 4 as flat latches 2\nsession s\nsession t\n";

/// A vector of one fiber, which is printed.
const ONE_FIBER: &[u8] = b"tensor v 5 as flat latches 1\n";

/// The status and the text of a run of two scripts over a manifest.
fn run_two<R: Threads + Wait + Sync>(
    rt: &R,
    alloc: Global,
    manifest: &[u8],
    s: &[u8],
    t: &[u8],
) -> Result<(u8, Vec<u8>), Fail> {
    run(rt, alloc, &[("m", manifest), ("s", s), ("t", t)])
}

#[test]
fn what_is_forced_is_printed_exactly(rt: HostRuntime) -> Result<(), Fail> {
    let rows: [(&[u8], &[u8], &[u8]); 5] = [
        (b"", b"", b"session 1\nsession 2\nhistory 0\n"),
        (
            b"set v 1 5\nget v 1\n",
            b"",
            b"session 1\n1 ok\n2 value 5\nsession 2\nhistory 2\n1 1\n1 2\n",
        ),
        (
            b"get v 5\n",
            b"get v 4\nset v 4 -2\nquery a = v(i)\nadd v 3 1 1\n",
            b"session 1\n1 refused range v 1 4\nsession 2\n1 value 0\n2 ok\n3 result 1\n-2\n4 refused rank v 2 1\nhistory 3\n2 1\n2 2\n2 3\n",
        ),
        (
            b"put\n",
            b"set w 1 1\nset v 1 0.5\n",
            b"session 1\n1 refused form 1\nsession 2\n1 refused name w\n2 refused number whole\nhistory 0\n",
        ),
        // a line that is refused counts
        (
            b"get w\nget v 1\n",
            b"get w\n",
            b"session 1\n1 refused name w\n2 value 0\nsession 2\n1 refused name w\nhistory 1\n1 2\n",
        ),
    ];
    for (s, t, report) in rows {
        let (status, text) = run_two(&rt, rt.alloc(), TWO_FIBERS, s, t)?;
        assert_eq!(rt; text.as_slice(), report);
        assert_eq!(rt; status, 0);
    }
    Ok(())
}

#[test]
fn a_batch_changes_the_cells_of_several_fibers(rt: HostRuntime) -> Result<(), Fail> {
    let manifest =
        b"tensor v 4 as flat latches 2\ntensor u 3 as flat latches 1\nsession s\nprint v\nprint u\n".as_slice();
    let script = b"batch set v 1 5 ; add v 4 2 ; set u 2 9 ; add v 1 1\n".as_slice();
    let report =
        b"session 1\n1 ok\nhistory 1\n1 1\ntensor v 2\n1 6\n4 2\ntensor u 1\n2 9\n".as_slice();
    let (status, text) = run(&rt, rt.alloc(), &[("m", manifest), ("s", script)])?;
    assert_eq!(rt; text.as_slice(), report);
    assert_eq!(rt; status, 0);
    Ok(())
}

/// A gate at which the first turn of each pair looks so many times for the second.
fn hold_gate(alloc: Global, waits: &[(Turn, Turn)], turns: u64) -> Result<HoldGate, Fail>
    requires few { length waits.now ≤ 32 }
{
    Ok(HoldGate::new(waits.to_vec(alloc)?, turns))
}

/// The turn of a session's call.
fn turn(session: u32, number: u32) -> Turn {
    Turn { session, number }
}

#[test]
fn two_calls_meet_each_time(rt: HostRuntime) -> Result<(), Fail> {
    let alloc = rt.alloc();
    let files: [(&str, &[u8]); 3] = [
        ("m", TWO_FIBERS),
        ("s", b"set v 1 5\n"),
        ("t", b"set v 3 6\n"),
    ];
    let (one, two) = (turn(1, 1), turn(2, 1));
    let first = b"session 1\n1 ok\nsession 2\n1 ok\nhistory 2\n1 1\n2 1\n".as_slice();
    let second = b"session 1\n1 ok\nsession 2\n1 ok\nhistory 2\n2 1\n1 1\n".as_slice();
    for _ in 0..200 {
        let gate = hold_gate(alloc, &[(one, two), (two, one)], 10_000_000)?;
        let (status, text, _end) = run_past(&rt, alloc, &files, &gate)?;
        assert!(rt; gate.all_met());
        assert!(rt; text.as_slice() == first || text.as_slice() == second);
        assert_eq!(rt; status, 0);
    }
    Ok(())
}

// Both calls need the one fiber, and the gate is told while it is held. So the call that comes first finds
// nothing of the other, however often it looks.
#[test]
fn calls_on_one_fiber_do_not_meet(rt: HostRuntime) -> Result<(), Fail> {
    let alloc = rt.alloc();
    let files: [(&str, &[u8]); 3] = [
        ("m", TWO_FIBERS),
        ("s", b"set v 1 5\n"),
        ("t", b"set v 2 6\n"),
    ];
    let (one, two) = (turn(1, 1), turn(2, 1));
    for _ in 0..10 {
        let gate = hold_gate(alloc, &[(one, two), (two, one)], 20_000)?;
        let (status, _text, _end) = run_past(&rt, alloc, &files, &gate)?;
        assert!(rt; !gate.all_met());
        assert_eq!(rt; status, 0);
    }
    Ok(())
}

#[test]
fn a_query_and_a_batch_over_several_fibers_meet(rt: HostRuntime) -> Result<(), Fail> {
    let alloc = rt.alloc();
    let files: [(&str, &[u8]); 3] = [
        (
            "m",
            b"tensor v 4 as flat latches 2\ntensor A 2 2 as flat flat latches 2\ntensor x 2 as flat latches 1\nsession s\nsession t\nprint v\n",
        ),
        ("s", b"query y(i) = A(i,j) * x(j)\n"),
        ("t", b"batch set v 1 5 ; set v 4 6\n"),
    ];
    let (one, two) = (turn(1, 1), turn(2, 1));
    let first =
        b"session 1\n1 result 0\nsession 2\n1 ok\nhistory 2\n1 1\n2 1\ntensor v 2\n1 5\n4 6\n".as_slice();
    let second =
        b"session 1\n1 result 0\nsession 2\n1 ok\nhistory 2\n2 1\n1 1\ntensor v 2\n1 5\n4 6\n".as_slice();
    let gate = hold_gate(alloc, &[(one, two), (two, one)], 10_000_000)?;
    let (status, text, _end) = run_past(&rt, alloc, &files, &gate)?;
    assert!(rt; gate.all_met());
    assert!(rt; text.as_slice() == first || text.as_slice() == second);
    assert_eq!(rt; status, 0);
    Ok(())
}

#[test]
fn a_call_waits_for_two_of_another_session(rt: HostRuntime) -> Result<(), Fail> {
    let alloc = rt.alloc();
    let files: [(&str, &[u8]); 3] = [
        ("m", TWO_FIBERS),
        ("s", b"set v 1 5\n"),
        ("t", b"get v 3\nget v 4\n"),
    ];
    let head = b"session 1\n1 ok\nsession 2\n1 value 0\n2 value 0\nhistory 3\n2 1\n".as_slice();
    let gate = hold_gate(alloc, &[(turn(1, 1), turn(2, 2))], 10_000_000)?;
    let (status, text, _end) = run_past(&rt, alloc, &files, &gate)?;
    assert!(rt; gate.all_met());
    assert!(rt; text.as_slice().starts_with(head));
    assert_eq!(rt; status, 0);
    Ok(())
}

/// The number that what is left has in a cell of tensor 0, where coordinates are counted from 0.
fn number_in(end: &Option<Closed<FiberStore>>, latch: u32, at: u32) -> Option<u64> {
    let Some(closed) = end else {
        return None;
    };
    let store = closed.store(latch)?;
    let mut coords = Coords::new();
    coords.push(at);
    Some(store.get(&Cell {
        tensor: 0,
        at: coords,
    }))
}

#[test]
fn what_is_left_is_handed_out(rt: HostRuntime) -> Result<(), Fail> {
    let alloc = rt.alloc();
    let files: [(&str, &[u8]); 3] = [
        ("m", TWO_FIBERS),
        ("s", b"set v 1 5\nget v 4\n"),
        ("t", b"set v 3 6\nadd v 3 1\n"),
    ];
    let (status, _text, end) = run_past(&rt, alloc, &files, &OpenGate)?;
    assert_eq!(rt; status, 0);
    assert_eq!(rt; number_in(&end, 0, 0), Some(5));
    assert_eq!(rt; number_in(&end, 1, 2), Some(7));
    assert_eq!(rt; number_in(&end, 1, 3), Some(0));
    assert_eq!(rt; number_in(&end, 2, 0), None);
    let length = match &end {
        Some(closed) => closed.journal().len(),
        None => 0,
    };
    assert_eq!(rt; length, 4);
    let refused: [(&str, &[u8]); 2] = [("m", ONE_FIBER), ("s", b"")];
    let (status, _text, end) = run_past(&rt, alloc, &refused, &OpenGate)?;
    assert_eq!(rt; (status, end.is_some()), (0, true));
    let refused: [(&str, &[u8]); 1] = [("m", b"print v\n")];
    let (status, _text, end) = run_past(&rt, alloc, &refused, &OpenGate)?;
    assert_eq!(rt; (status, end.is_some()), (2, false));
    Ok(())
}

/// A manifest with so many sessions of one script, and the tensor printed.
fn many_sessions(alloc: Global, count: u32) -> Result<Vec<u8>, Fail> {
    let mut text = ONE_FIBER.to_vec(alloc)?;
    for _ in 0..count {
        text.extend_from_slice(b"session s\n")?;
    }
    text.extend_from_slice(b"print v\n")?;
    Ok(text)
}

#[test]
fn sixteen_sessions_run_and_a_17th_is_past_the_limit(rt: HostRuntime) -> Result<(), Fail> {
    let alloc = rt.alloc();
    let script = b"add v 1 1\nget v 2\nadd v 5 3\n".as_slice();
    let manifest = many_sessions(alloc, 16)?;
    let (status, text) = run(&rt, alloc, &[("m", manifest.as_slice()), ("s", script)])?;
    let head = b"session 1\n1 ok\n2 value 0\n3 ok\nsession 2\n1 ok\n2 value 0\n3 ok\n".as_slice();
    let end = b"\ntensor v 2\n1 16\n5 48\n".as_slice();
    assert!(rt; text.as_slice().starts_with(head));
    assert!(rt; text.as_slice().ends_with(end));
    assert_eq!(rt; status, 0);
    let manifest = many_sessions(alloc, 17)?;
    let (status, text) = run(&rt, alloc, &[("m", manifest.as_slice()), ("s", script)])?;
    assert_eq!(rt; text.as_slice(), b"refused m 18 limit\n".as_slice());
    assert_eq!(rt; status, 2);
    Ok(())
}
