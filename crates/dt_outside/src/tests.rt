//! What no clause says: that memory is found, and what real files and streams do.
use crate::{
    FetchFault, FileShelf, Gate, HoldGate, MemShelf, MemSink, Shelf, Sink, SinkFailed, StreamSink,
    SureShelf, SureSink, write_all,
};
use dt_model::Turn;
use std::cell::RefCell;
use std::fmt::Display;
use std::fs;
use std::io::{self, ErrorKind, Print};
use std::test::Fail;
use std::thread::join;

/// A standard output in memory, which takes at most 4 bytes a write.
#[derive(Drop)]
struct Tape<'a> {
    written: &'a RefCell<Vec<u8>>,
}

impl Print for Tape<'_> {
    fn print<D: Display + Drop>(&self, _value: D) -> io::Result<()> {
        Err(ErrorKind::Unsupported.into())
    }

    fn println<D: Display + Drop>(&self, _value: D) -> io::Result<()> {
        Err(ErrorKind::Unsupported.into())
    }

    fn write_all(&self, _bytes: &[u8]) -> io::Result<()> {
        Err(ErrorKind::Unsupported.into())
    }

    fn write_some(&self, bytes: &[u8]) -> io::Result<usize> {
        let taken = bytes.len().min(4);
        match self.written.try_borrow_mut() {
            Ok(mut written) => match written.extend_from_slice(&bytes[..taken]) {
                Ok(()) => Ok(taken),
                Err(_) => Err(ErrorKind::OutOfMemory.into()),
            },
            Err(_) => Err(ErrorKind::Other.into()),
        }
    }
}

#[test]
fn a_file_is_copied_to_a_sink(rt: HostRuntime) -> Result<(), Fail> {
    let mut shelf = MemShelf::new(rt.alloc(), Vec::new(rt.alloc()));
    assert!(rt; shelf.add("script", b"get v 1\n").is_ok());
    let mut sink = MemSink::new(rt.alloc(), 3, Vec::new(rt.alloc()));
    assert!(rt; sink.room(100).is_ok());
    let mut text = Vec::new(rt.alloc());
    assert_eq!(rt; shelf.fetch("script", 100, &mut text), Ok(()));
    assert_eq!(rt; write_all(&mut sink, &text), Ok(()));
    assert_eq!(rt; sink.bytes(), b"get v 1\n".as_slice());
    Ok(())
}

#[test]
fn listed_fetches_and_unknown_names_fail(rt: HostRuntime) -> Result<(), Fail> {
    let mut shelf = MemShelf::new(rt.alloc(), [2].to_vec(rt.alloc())?);
    assert!(rt; shelf.add("m", b"old").is_ok());
    assert!(rt; shelf.add("m", b"new").is_ok());
    let mut text = Vec::new(rt.alloc());
    assert_eq!(rt; shelf.fetch("m", 3, &mut text), Ok(()));
    assert_eq!(rt; text.as_slice(), b"new".as_slice());
    text.clear();
    assert_eq!(rt; shelf.fetch("m", 3, &mut text), Err(FetchFault::Failed));
    text.clear();
    assert_eq!(rt; shelf.fetch("s", 3, &mut text), Err(FetchFault::Failed));
    text.clear();
    assert_eq!(rt; shelf.fetch("m", 2, &mut text), Err(FetchFault::TooLarge));
    Ok(())
}

#[test]
fn a_sure_shelf_has_every_name(rt: HostRuntime) -> Result<(), Fail> {
    let mut shelf = SureShelf::new(rt.alloc());
    assert!(rt; shelf.add("s", b"get v 1").is_ok());
    let mut text = Vec::new(rt.alloc());
    assert_eq!(rt; shelf.fetch("s", 7, &mut text), Ok(()));
    assert_eq!(rt; text.as_slice(), b"get v 1".as_slice());
    text.clear();
    assert_eq!(rt; shelf.fetch("t", 0, &mut text), Ok(()));
    assert_eq!(rt; text.len(), 0);
    Ok(())
}

#[test]
fn a_small_sink_writes_in_pieces_up_to_its_fault(rt: HostRuntime) -> Result<(), Fail> {
    let mut sink = MemSink::new(rt.alloc(), 4, [3].to_vec(rt.alloc())?);
    assert!(rt; sink.room(20).is_ok());
    assert_eq!(rt; write_all(&mut sink, b"ten bytes."), Err(SinkFailed));
    assert_eq!(rt; sink.bytes(), b"ten byte".as_slice());
    assert_eq!(rt; write_all(&mut sink, b"s."), Ok(()));
    assert_eq!(rt; sink.bytes(), b"ten bytes.".as_slice());
    Ok(())
}

#[test]
fn a_full_sink_fails(rt: HostRuntime) {
    let mut sink = MemSink::new(rt.alloc(), 4, Vec::new(rt.alloc()));
    assert_eq!(rt; sink.write_some(b"x"), Err(SinkFailed));
    assert!(rt; sink.room(1).is_ok());
    assert_eq!(rt; sink.write_some(b"xy"), Ok(1));
    assert_eq!(rt; sink.write_some(b"y"), Err(SinkFailed));
    assert_eq!(rt; sink.bytes(), b"x".as_slice());
}

#[test]
fn a_sure_sink_keeps_the_first_bytes(rt: HostRuntime) -> Result<(), Fail> {
    let Ok(mut sink) = SureSink::new(rt.alloc(), 5) else {
        return Err(Fail::from("no memory"));
    };
    assert_eq!(rt; write_all(&mut sink, b"abc"), Ok(()));
    assert_eq!(rt; write_all(&mut sink, b"defg"), Ok(()));
    assert_eq!(rt; sink.bytes(), b"abcde".as_slice());
    Ok(())
}

#[test]
fn a_real_file_is_fetched_up_to_the_limit(rt: HostRuntime) -> Result<(), Fail> {
    let name = "dt_outside_real_file";
    fs::write(&rt, name, b"real bytes")?;
    let mut shelf = FileShelf::new(rt);
    let mut text = Vec::new(rt.alloc());
    assert_eq!(rt; shelf.fetch(name, 10, &mut text), Ok(()));
    assert_eq!(rt; text.as_slice(), b"real bytes".as_slice());
    text.clear();
    assert_eq!(rt; shelf.fetch(name, 9, &mut text), Err(FetchFault::TooLarge));
    text.clear();
    assert_eq!(rt; shelf.fetch(".", 9, &mut text), Err(FetchFault::Failed));
    fs::remove_file(&rt, name)?;
    text.clear();
    assert_eq!(rt; shelf.fetch(name, 9, &mut text), Err(FetchFault::Failed));
    Ok(())
}

#[test]
fn a_stream_has_what_was_written(rt: HostRuntime) {
    let written = RefCell::new(Vec::new(rt.alloc()));
    let mut sink = StreamSink::new(Tape { written: &written });
    assert_eq!(rt; write_all(&mut sink, b"1 value 7\n"), Ok(()));
    assert_eq!(rt; sink.write_some(b"2 ok\n"), Ok(4));
    let read_back = written.into_inner();
    assert_eq!(rt; read_back.as_slice(), b"1 value 7\n2 ok".as_slice());
}

#[test]
fn the_standard_output_takes_bytes(rt: HostRuntime) {
    let mut sink = StreamSink::new(rt);
    assert_eq!(rt; write_all(&mut sink, b"a line of a test\n"), Ok(()));
}

/// The first call of a session.
fn first_of(session: u32) -> Turn {
    Turn { session, number: 1 }
}

/// How often a turn looks that is sure to meet another one.
const MANY: u64 = 10_000_000;

#[test]
fn two_calls_that_look_for_each_other_meet(rt: HostRuntime) -> Result<(), Fail> {
    let (one, two) = (first_of(1), first_of(2));
    for _ in 0..20 {
        let gate = HoldGate::new([(one, two), (two, one)].to_vec(rt.alloc())?, MANY);
        assert!(rt; !gate.all_met());
        join(&rt, || gate.held(one), || gate.held(two));
        assert!(rt; gate.all_met());
    }
    Ok(())
}

#[test]
fn a_call_alone_looks_in_vain(rt: HostRuntime) -> Result<(), Fail> {
    let (one, two) = (first_of(1), first_of(2));
    let gate = HoldGate::new([(one, two), (two, one)].to_vec(rt.alloc())?, 3);
    gate.held(one);
    assert!(rt; !gate.all_met());
    // the other one comes too late for the first
    gate.held(two);
    assert!(rt; !gate.all_met());
    // a call that tries again looks again
    gate.held(one);
    assert!(rt; gate.all_met());
    Ok(())
}

#[test]
fn a_look_at_a_turn_that_is_noted_finds_it_at_once(rt: HostRuntime) -> Result<(), Fail> {
    let (one, two, three) = (first_of(1), first_of(2), first_of(3));
    let gate = HoldGate::new([(two, one), (three, one)].to_vec(rt.alloc())?, u64::MAX);
    gate.held(one);
    gate.held(two);
    assert!(rt; !gate.all_met());
    gate.held(three);
    assert!(rt; gate.all_met());
    // no look is made, and none is needed
    let never = HoldGate::new([(two, one)].to_vec(rt.alloc())?, 0);
    never.held(one);
    never.held(two);
    assert!(rt; !never.all_met());
    assert!(rt; HoldGate::new(Vec::new(rt.alloc()), 0).all_met());
    Ok(())
}
