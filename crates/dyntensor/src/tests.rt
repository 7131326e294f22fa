//! Runs with their exact texts.
use crate::top::top_run;
use dt_outside::{Gate, MemShelf, MemSink, OpenGate, Shelf, Sink, SureShelf, SureSink};
use fiber_latch::Closed;
use fiber_store::FiberStore;
use std::alloc::{AllocError, Global};
use std::sync::Wait;
use std::test::Fail;
use std::thread::Threads;

const MANIFEST: &[u8] = b"tensor v 5 as flat latches 1\nsession s\n";

const SCRIPT: &[u8] = b"set v 2 7\nget v 2\n";

const REPORT: &[u8] = b"session 1\n1 ok\n2 value 7\nhistory 2\n1 1\n1 2\n";

const USAGE: &[u8] = b"usage: dyntensor run MANIFEST | check SCHEMAS | sample N\n";

/// The words of a command line.
pub fn words_of(alloc: Global, words: &[&str]) -> Result<Vec<String>, AllocError> {
    let mut all = Vec::new(alloc);
    for word in words {
        all.push(String::from_str(alloc, word)?)?;
    }
    Ok(all)
}

/// The status of a run on these words.
pub fn run_words<R: Threads + Wait + Sync, S: Shelf, K: Sink>(
    rt: &R,
    alloc: Global,
    words: &[String],
    shelf: &mut S,
    sink: &mut K,
) -> u8 {
    let mut end = None;
    top_run(rt, alloc, words, shelf, sink, &OpenGate, &mut end)
}

/// The status, the text and what is left of the table, of a run over these files past a gate.
pub fn run_past<R: Threads + Wait + Sync, G: Gate + Sync>(
    rt: &R,
    alloc: Global,
    files: &[(&str, &[u8])],
    gate: &G,
) -> Result<(u8, Vec<u8>, Option<Closed<FiberStore>>), Fail> {
    let mut shelf = SureShelf::new(alloc);
    for (name, bytes) in files {
        shelf.add(name, bytes)?;
    }
    let mut sink = SureSink::new(alloc, 4096)?;
    let words = words_of(alloc, &["run", "m"])?;
    let mut end = None;
    let status = top_run(rt, alloc, &words, &mut shelf, &mut sink, gate, &mut end);
    Ok((status, sink.bytes().to_vec(alloc)?, end))
}

/// The status and the text of a run over these files.
pub fn run<R: Threads + Wait + Sync>(
    rt: &R,
    alloc: Global,
    files: &[(&str, &[u8])],
) -> Result<(u8, Vec<u8>), Fail> {
    let (status, text, _end) = run_past(rt, alloc, files, &OpenGate)?;
    Ok((status, text))
}

#[test]
fn a_report_is_written(rt: HostRuntime) -> Result<(), Fail> {
    let alloc = rt.alloc();
    let words = words_of(alloc, &["run", "m"])?;
    let mut shelf = SureShelf::new(alloc);
    shelf.add("m", b"tensor v 5 as flat latches 1\nload v t\nprint v\n")?;
    shelf.add("t", b"2 7\n")?;
    let mut sink = SureSink::new(alloc, 100)?;
    let mut end = None;
    let status = top_run(
        &rt, alloc, &words, &mut shelf, &mut sink, &OpenGate, &mut end,
    );
    assert_eq!(rt; sink.bytes(), b"history 0\ntensor v 1\n2 7\n".as_slice());
    assert_eq!(rt; status, 0);
    Ok(())
}

#[test]
fn scripts_print_their_reports(rt: HostRuntime) -> Result<(), Fail> {
    let rows: [(&[u8], &[u8]); 15] = [
        (SCRIPT, REPORT),
        (
            b"query a = (((((((((((((((((\n",
            b"session 1\n1 refused limit 27\nhistory 0\n",
        ),
        (b"", b"session 1\nhistory 0\n"),
        (
            b"set v 1 18446744073709551615\nadd v 1 2\nget v 1\n",
            b"session 1\n1 ok\n2 ok\n3 value 1\nhistory 3\n1 1\n1 2\n1 3\n",
        ),
        (
            b"set v 1 18446744073709551615\nget v 1\nset v 1 -9223372036854775808\nget v 1\n",
            b"session 1\n1 ok\n2 value -1\n3 ok\n4 value -9223372036854775808\nhistory 4\n1 1\n1 2\n1 3\n1 4\n",
        ),
        (
            b"get v 0\nget v 6\nset v 9 2.5\n",
            b"session 1\n1 refused range v 1 5\n2 refused range v 1 5\n3 refused range v 1 5\nhistory 0\n",
        ),
        (
            b"get v 0\nget v 6\n",
            b"session 1\n1 refused range v 1 5\n2 refused range v 1 5\nhistory 0\n",
        ),
        (
            b"get v 5\nset v 5 1\nset v 4 2\nget v 5\n",
            b"session 1\n1 value 0\n2 ok\n3 ok\n4 value 1\nhistory 4\n1 1\n1 2\n1 3\n1 4\n",
        ),
        (b"get v -1\n", b"session 1\n1 refused form 7\nhistory 0\n"),
        (b"set w 1 1\n", b"session 1\n1 refused name w\nhistory 0\n"),
        (b"get v\n", b"session 1\n1 refused rank v 0 1\nhistory 0\n"),
        (
            b"set v 1 2.5\nset v 1 18446744073709551616\nset v 1 1e3\n",
            b"session 1\n1 refused number whole\n2 refused number range\n3 ok\nhistory 1\n1 3\n",
        ),
        (
            b"batch add v 4 1;set v 1 5 ; add v 1 -7;add v 4 1\nget v 1\nget v 4\n",
            b"session 1\n1 ok\n2 value -2\n3 value 2\nhistory 3\n1 1\n1 2\n1 3\n",
        ),
        (
            b"batch set v 1 1;set v 6 1\nbatch set v 2 2;\nbatch set v 3 3\nget v 1\nget v 3\n",
            b"session 1\n1 refused range v 1 5\n2 refused form 17\n3 ok\n4 value 0\n5 value 3\nhistory 3\n1 3\n1 4\n1 5\n",
        ),
        (
            b"# two calls\r\n\r\n\tset  v 02\t+7 \r\n \n#\nget v 2",
            b"session 1\n1 ok\n2 value 7\nhistory 2\n1 1\n1 2\n",
        ),
    ];
    for (script, report) in rows {
        let (status, text) = run(&rt, rt.alloc(), &[("m", MANIFEST), ("s", script)])?;
        assert_eq!(rt; text.as_slice(), report);
        assert_eq!(rt; status, 0);
    }
    Ok(())
}

#[test]
fn data_is_loaded_and_printed(rt: HostRuntime) -> Result<(), Fail> {
    let manifest = b"tensor B 2 2 as flat flat latches 2\nload B b.tns\nprint B\n".as_slice();
    let rows: [(&[u8], u8, &[u8]); 9] = [
        (
            b"1 1 3.000\n2 2 2.50e1\n2 2 -5\n",
            0,
            b"history 0\ntensor B 2\n1 1 3\n2 2 20\n",
        ),
        (
            b"# two cells\r\n\r\n1 1 4\r\n2 2 6",
            0,
            b"history 0\ntensor B 2\n1 1 4\n2 2 6\n",
        ),
        (
            b"2 2 1\n1 2 2\n2 1 5\n1 2 -2\n2 1 0\n",
            0,
            b"history 0\ntensor B 2\n2 1 5\n2 2 1\n",
        ),
        (b"", 0, b"history 0\ntensor B 0\n"),
        (b"1 1 2.5\n", 2, b"refused b.tns 1 whole\n"),
        (b"1 1\n", 2, b"refused b.tns 1 rank\n"),
        (b"3 1 4\n", 2, b"refused b.tns 1 range\n"),
        (b"# x\n1 1 1\n1 x 1e30\n", 2, b"refused b.tns 3 form\n"),
        (
            b"1 1 18446744073709551616\n",
            2,
            b"refused b.tns 1 number\n",
        ),
    ];
    for (data, wanted, text) in rows {
        let (status, written) = run(&rt, rt.alloc(), &[("m", manifest), ("b.tns", data)])?;
        assert_eq!(rt; written.as_slice(), text);
        assert_eq!(rt; status, wanted);
    }
    Ok(())
}

/// The report of a script over `v` and some small matrices and vectors.
fn run_over_matrices<R: Threads + Wait + Sync>(
    rt: &R,
    alloc: Global,
    script: &[u8],
) -> Result<(u8, Vec<u8>), Fail> {
    let manifest =
        b"tensor v 5 as flat latches 1\ntensor A 2 2 as flat flat latches 1\ntensor B 2 2 as flat flat latches 1\ntensor C 2 2 as flat flat latches 2\ntensor b 2 as flat latches 1\ntensor x 2 as flat latches 2\ntensor z 2 as flat latches 1\nload A A.tns\nload B B.tns\nload C C.tns\nload x x.tns\nload z z.tns\nsession s\n".as_slice();
    let files = [
        ("m", manifest),
        ("A.tns", b"1 1 1\n1 2 1\n"),
        ("B.tns", b"1 1 1\n1 2 2\n2 2 3\n"),
        ("C.tns", b"1 1 4\n2 1 5\n2 2 6\n"),
        ("x.tns", b"1 2\n2 3\n"),
        ("z.tns", b"1 10\n2 20\n"),
        ("s", script),
    ];
    run(rt, alloc, &files)
}

#[test]
fn queries_print_their_answers(rt: HostRuntime) -> Result<(), Fail> {
    let rows: [(&[u8], &[u8]); 12] = [
        (
            b"add v 3 7\nadd v 3 -7\nquery a(i) = v(i)\n",
            b"session 1\n1 ok\n2 ok\n3 result 0\nhistory 3\n1 1\n1 2\n1 3\n",
        ),
        (
            b"query A(i,j) = B(i,k)*C(k,j)\n",
            b"session 1\n1 result 4\n1 1 14\n1 2 12\n2 1 15\n2 2 18\nhistory 1\n1 1\n",
        ),
        (
            b"query y(i) = A(i,j)*x(j) + z(i)\n",
            b"session 1\n1 result 2\n1 15\n2 20\nhistory 1\n1 1\n",
        ),
        (
            b"query A(i,j) = B(i,j) + C(j,i)\n",
            b"session 1\n1 result 3\n1 1 5\n1 2 7\n2 2 9\nhistory 1\n1 1\n",
        ),
        (
            b"query a(i,j) = b(i) + C(i,j)\n",
            b"session 1\n1 refused uncovered 1 j\nhistory 0\n",
        ),
        (
            b"query a = 3\n",
            b"session 1\n1 refused access 1\nhistory 0\n",
        ),
        (
            b"query A(i,j) = B(i,k\n",
            b"session 1\n1 refused form 21\nhistory 0\n",
        ),
        (
            b"query a(i) = C(i,i)\n",
            b"session 1\n1 refused repeated i\nhistory 0\n",
        ),
        // a number alone, one that wraps, and one of a term that cancels another
        (
            b"query a = x(i)*x(i)\nquery a = -x(i)*z(i)\nquery a = x(i) - x(j)\n",
            b"session 1\n1 result 1\n13\n2 result 1\n-80\n3 result 0\nhistory 3\n1 1\n1 2\n1 3\n",
        ),
        // the updates before a query and none behind it
        (
            b"query q(i) = v(i)*2\nset v 5 9223372036854775807\nquery q(i) = v(i)*2\nset v 1 1\n",
            b"session 1\n1 result 0\n2 ok\n3 result 1\n5 -2\n4 ok\nhistory 4\n1 1\n1 2\n1 3\n1 4\n",
        ),
        (
            b"query a(j,i) = B(i,j)*(z(i) - z(i)*(x(j) - 2*x(j)))\n",
            b"session 1\n1 result 3\n1 1 30\n2 1 80\n2 2 240\nhistory 1\n1 1\n",
        ),
        (
            b"query a(i,j) = w(i,j)\nquery a = 1*v(i)*18446744073709551616\nget v 1\n",
            b"session 1\n1 refused name w\n2 refused limit 18\n3 value 0\nhistory 1\n1 3\n",
        ),
    ];
    for (script, report) in rows {
        let (status, text) = run_over_matrices(&rt, rt.alloc(), script)?;
        assert_eq!(rt; text.as_slice(), report);
        assert_eq!(rt; status, 0);
    }
    Ok(())
}

#[test]
fn a_query_of_unequal_dimensions_is_refused(rt: HostRuntime) -> Result<(), Fail> {
    let manifest =
        b"tensor B 2 3 as flat flat latches 1\ntensor v 5 as flat latches 1\nsession s\n".as_slice();
    let script = b"query a(i) = B(i,j)*v(j)\nquery a = v(i,j)\n".as_slice();
    let (status, text) = run(&rt, rt.alloc(), &[("m", manifest), ("s", script)])?;
    let report =
        b"session 1\n1 refused dimension j 3 5\n2 refused rank v 2 1\nhistory 0\n".as_slice();
    assert_eq!(rt; text.as_slice(), report);
    assert_eq!(rt; status, 0);
    Ok(())
}

/// The files that the manifests of the next tests name.
const FILES: [(&str, &[u8]); 4] = [
    ("a", b"2 1 1 1 2 -1\n1 2 1 1 1 2\n"),
    ("b", b"5 9\n1 8\n"),
    ("s", SCRIPT),
    ("q", b"get v 1\n"),
];

/// The status and the text of a run over a manifest and those files.
fn run_manifest<R: Threads + Wait + Sync>(
    rt: &R,
    alloc: Global,
    manifest: &[u8],
) -> Result<(u8, Vec<u8>), Fail> {
    let [a, b, s, q] = FILES;
    run(rt, alloc, &[("m", manifest), a, b, s, q])
}

#[test]
fn several_tensors_are_loaded_changed_and_printed(rt: HostRuntime) -> Result<(), Fail> {
    let rows: [(&[u8], &[u8]); 4] = [
        (b"", b"history 0\n"),
        (
            b"tensor t1 300 as flat latches 256\ntensor t2 300 as flat latches 256\ntensor t3 300 as flat latches 256\ntensor t4 300 as flat latches 256\n",
            b"history 0\n",
        ),
        (
            b"tensor v 5 as flat latches 1\ntensor A 2 2 1 1 2 as flat flat flat flat flat latches 3\nload A a\nload v b\nload A a\nsession s\nprint A\nprint v\n",
            b"session 1\n1 ok\n2 value 7\nhistory 2\n1 1\n1 2\ntensor A 2\n1 2 1 1 1 4\n2 1 1 1 2 -2\ntensor v 3\n1 8\n2 7\n5 9\n",
        ),
        (
            b"tensor v 5 as flat latches 1\nprint v\nload v b\nprint v\n",
            b"history 0\ntensor v 2\n1 8\n5 9\ntensor v 2\n1 8\n5 9\n",
        ),
    ];
    for (manifest, text) in rows {
        let (status, written) = run_manifest(&rt, rt.alloc(), manifest)?;
        assert_eq!(rt; written.as_slice(), text);
        assert_eq!(rt; status, 0);
    }
    Ok(())
}

#[test]
fn the_first_fault_names_its_file_and_line(rt: HostRuntime) -> Result<(), Fail> {
    let rows: [(&[u8], &[u8]); 13] = [
        (
            b"print v\ntensor v 5 as flat latches 1\n",
            b"refused m 1 name\n",
        ),
        (
            b"tensor t1 300 as flat latches 256\ntensor t2 300 as flat latches 256\ntensor t3 300 as flat latches 256\ntensor t4 300 as flat latches 256\ntensor t5 300 as flat latches 1\n",
            b"refused m 5 limit\n",
        ),
        (
            b"tensor v 5 as flat latches 1\nsession s\nload v b\nsession s\n",
            b"refused m 3 order\n",
        ),
        (b"schema q\n", b"refused q 1 form 1\n"),
        (b"tensor v 5 as flat\n", b"refused m 1 form\n"),
        (
            b"session s\ntensor v 5 as flat latches 1\n",
            b"refused m 2 order\n",
        ),
        (
            b"tensor v 5 as flat latches 1\n\ntensor v 0 as flat latches 1\n",
            b"refused m 3 twice\n",
        ),
        (b"tensor v 0 as flat latches 1\n", b"refused m 1 range\n"),
        (b"tensor v 5 as flat latches 257\n", b"refused m 1 range\n"),
        (
            b"tensor v 5 as tree latches 1\nload v b\n",
            b"refused m 1 name\n",
        ),
        (
            b"tensor v 5 as flat latches 1\nload v b\ntensor u 5 as tree latches 1\nload v a\n",
            b"refused m 3 name\n",
        ),
        (
            b"tensor v 5 as flat latches 1\nload v b\nload v a\nsession q\n",
            b"refused a 1 rank\n",
        ),
        (
            b"tensor v 5 as flat latches 1\nload v a\nput\n",
            b"refused m 3 form\n",
        ),
    ];
    for (manifest, text) in rows {
        let (status, written) = run_manifest(&rt, rt.alloc(), manifest)?;
        assert_eq!(rt; written.as_slice(), text);
        assert_eq!(rt; status, 2);
    }
    Ok(())
}

#[test]
fn other_words_print_the_usage(rt: HostRuntime) -> Result<(), Fail> {
    let rows: [&[&str]; 4] = [&[], &["run"], &["check", "m"], &["run", ""]];
    for words in rows {
        let mut shelf = SureShelf::new(rt.alloc());
        let mut sink = SureSink::new(rt.alloc(), 100)?;
        let words = words_of(rt.alloc(), words)?;
        let status = run_words(&rt, rt.alloc(), &words, &mut shelf, &mut sink);
        assert_eq!(rt; sink.bytes(), USAGE);
        assert_eq!(rt; status, 1);
    }
    Ok(())
}

#[test]
fn a_failed_fetch_names_its_file(rt: HostRuntime) -> Result<(), Fail> {
    let rows: [(u64, u8, &[u8]); 3] = [(1, 3, b"shelf m\n"), (2, 3, b"shelf s\n"), (3, 0, REPORT)];
    for (fails, wanted, line) in rows {
        let mut shelf = MemShelf::new(rt.alloc(), [fails].to_vec(rt.alloc())?);
        shelf.add("m", MANIFEST)?;
        shelf.add("s", SCRIPT)?;
        let mut sink = SureSink::new(rt.alloc(), 100)?;
        let words = words_of(rt.alloc(), &["run", "m"])?;
        let status = run_words(&rt, rt.alloc(), &words, &mut shelf, &mut sink);
        assert_eq!(rt; sink.bytes(), line);
        assert_eq!(rt; status, wanted);
    }
    Ok(())
}

#[test]
fn a_missing_script_is_a_failed_fetch(rt: HostRuntime) -> Result<(), Fail> {
    let mut shelf = MemShelf::new(rt.alloc(), Vec::new(rt.alloc()));
    shelf.add("m", MANIFEST)?;
    let mut sink = SureSink::new(rt.alloc(), 100)?;
    let words = words_of(rt.alloc(), &["run", "m"])?;
    let status = run_words(&rt, rt.alloc(), &words, &mut shelf, &mut sink);
    assert_eq!(rt; sink.bytes(), b"shelf s\n".as_slice());
    assert_eq!(rt; status, 3);
    Ok(())
}

#[test]
fn a_failed_write_leaves_a_beginning(rt: HostRuntime) -> Result<(), Fail> {
    let rows: [(u64, u8, usize); 6] = [
        (1, 4, 0),
        (2, 4, 10),
        (3, 4, 20),
        (4, 4, 30),
        (5, 4, 40),
        (6, 0, 43),
    ];
    for (fails, wanted, len) in rows {
        let mut shelf = SureShelf::new(rt.alloc());
        shelf.add("m", MANIFEST)?;
        shelf.add("s", SCRIPT)?;
        let mut sink = MemSink::new(rt.alloc(), 10, [fails].to_vec(rt.alloc())?);
        sink.room(43)?;
        let words = words_of(rt.alloc(), &["run", "m"])?;
        let mut end = None;
        let status = top_run(
            &rt,
            rt.alloc(),
            &words,
            &mut shelf,
            &mut sink,
            &OpenGate,
            &mut end,
        );
        assert_eq!(rt; status, wanted);
        assert!(rt; end.is_some());
        assert_eq!(rt; sink.bytes().len(), len);
        assert!(rt; REPORT.starts_with(sink.bytes()));
    }
    Ok(())
}
