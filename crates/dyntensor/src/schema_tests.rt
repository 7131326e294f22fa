//! Checks of schemas, and runs over them, with their exact texts.
use crate::tests::{run, words_of};
use crate::top::top_check;
use dt_outside::{MemShelf, MemSink, SureShelf, SureSink};
use std::alloc::Global;
use std::sync::Wait;
use std::test::Fail;
use std::thread::Threads;

/// A post kind that is too small for half a run, and a schema that keeps the rules.
const BIG_AND_TREE: &[u8] =
    b"schema big { node A { run 1..16 post B } node B { run 1..4 post B } root A }\nschema tree { node B { run 4..8 woven } root B }\n";

/// Schemas of a B-tree, of blocks and of a search tree.
const TREE_LIST_BST: &[u8] =
    b"schema tree { node B { run 4..8 woven } root B }\nschema list { node C { run 1..8 post C } root C }\nschema bst { node E { run 1..1 pre E post E } root E }\n";

/// Sixteen schemas, from a to p.
const SIXTEEN: &[u8] =
    b"schema a { node A { run 1..2 woven } root A } schema b { node A { run 1..2 woven } root A }\nschema c { node A { run 1..2 woven } root A } schema d { node A { run 1..2 woven } root A }\nschema e { node A { run 1..2 woven } root A } schema f { node A { run 1..2 woven } root A }\nschema g { node A { run 1..2 woven } root A } schema h { node A { run 1..2 woven } root A }\nschema i { node A { run 1..2 woven } root A } schema j { node A { run 1..2 woven } root A }\nschema k { node A { run 1..2 woven } root A } schema l { node A { run 1..2 woven } root A }\nschema m { node A { run 1..2 woven } root A } schema n { node A { run 1..2 woven } root A }\nschema o { node A { run 1..2 woven } root A } schema p { node A { run 1..2 woven } root A }\n";

/// The status and the text of a check of the file `q`.
fn check_text(alloc: Global, text: &[u8]) -> Result<(u8, Vec<u8>), Fail> {
    let mut shelf = SureShelf::new(alloc);
    shelf.add("q", text)?;
    let mut sink = SureSink::new(alloc, 4096)?;
    let words = words_of(alloc, &["check", "q"])?;
    let status = top_check(alloc, &words, &mut shelf, &mut sink);
    Ok((status, sink.bytes().to_vec(alloc)?))
}

#[test]
fn a_check_has_a_row_for_each_schema(rt: HostRuntime) -> Result<(), Fail> {
    let rows: [(&[u8], u8, &[u8]); 8] = [
        (BIG_AND_TREE, 2, b"big breach 6 A\ntree ok\n"),
        (TREE_LIST_BST, 0, b"tree ok\nlist ok\nbst ok\n"),
        (b"", 0, b""),
        (b"# no schema\n", 0, b""),
        // the name `flat`, and a name that is there twice
        (
            b"schema flat { node A { run 1..2 woven } root A } schema flat { node A { run 1..1 woven } root A }",
            2,
            b"flat ok\nflat breach 3 A\n",
        ),
        (b"schema a { node", 2, b"refused q 1 form 16\n"),
        (
            b"schema a {\n  node A { run 1..2 woven }\n  rot A\n}\n",
            2,
            b"refused q 3 form 3\n",
        ),
        (b"flat", 2, b"refused q 1 form 1\n"),
    ];
    for (text, wanted, written) in rows {
        let (status, bytes) = check_text(rt.alloc(), text)?;
        assert_eq!(rt; bytes.as_slice(), written);
        assert_eq!(rt; status, wanted);
    }
    Ok(())
}

#[test]
fn a_seventeenth_schema_is_past_the_limit(rt: HostRuntime) -> Result<(), Fail> {
    let alloc = rt.alloc();
    let mut text = SIXTEEN.to_vec(alloc)?;
    text.extend_from_slice(b"  schema big")?;
    let (status, bytes) = check_text(alloc, text.as_slice())?;
    assert_eq!(rt; bytes.as_slice(), b"refused q 9 limit 3\n".as_slice());
    assert_eq!(rt; status, 2);
    Ok(())
}

#[test]
fn other_words_of_a_check_print_the_usage(rt: HostRuntime) -> Result<(), Fail> {
    let rows: [&[&str]; 4] = [&[], &["check"], &["run", "q"], &["check", "q", "q"]];
    for words in rows {
        let mut shelf = SureShelf::new(rt.alloc());
        let mut sink = SureSink::new(rt.alloc(), 100)?;
        let words = words_of(rt.alloc(), words)?;
        let status = top_check(rt.alloc(), &words, &mut shelf, &mut sink);
        let usage = b"usage: dyntensor run MANIFEST | check SCHEMAS | sample N\n".as_slice();
        assert_eq!(rt; sink.bytes(), usage);
        assert_eq!(rt; status, 1);
    }
    Ok(())
}

#[test]
fn a_check_without_its_file_names_it(rt: HostRuntime) -> Result<(), Fail> {
    let mut shelf = MemShelf::new(rt.alloc(), Vec::new(rt.alloc()));
    let mut sink = SureSink::new(rt.alloc(), 100)?;
    let words = words_of(rt.alloc(), &["check", "q"])?;
    let status = top_check(rt.alloc(), &words, &mut shelf, &mut sink);
    assert_eq!(rt; sink.bytes(), b"shelf q\n".as_slice());
    assert_eq!(rt; status, 3);
    Ok(())
}

#[test]
fn a_check_that_cannot_write_leaves_a_beginning(rt: HostRuntime) -> Result<(), Fail> {
    let mut shelf = SureShelf::new(rt.alloc());
    shelf.add("q", BIG_AND_TREE)?;
    let mut sink = MemSink::new(rt.alloc(), 10, [2].to_vec(rt.alloc())?);
    sink.room(24)?;
    let words = words_of(rt.alloc(), &["check", "q"])?;
    let status = top_check(rt.alloc(), &words, &mut shelf, &mut sink);
    assert_eq!(rt; sink.bytes(), b"big breach".as_slice());
    assert_eq!(rt; status, 4);
    Ok(())
}

/// The status and the text of a run over a manifest and files of schemas.
fn run_over_schemas<R: Threads + Wait + Sync>(
    rt: &R,
    alloc: Global,
    manifest: &[u8],
) -> Result<(u8, Vec<u8>), Fail> {
    let files: [(&str, &[u8]); 8] = [
        ("m", manifest),
        ("big", BIG_AND_TREE),
        ("three", TREE_LIST_BST),
        ("sixteen", SIXTEEN),
        ("flat", b"schema flat { node A { run 1..1 woven } root A }"),
        ("tree", b"schema tree { node A { run 1..1 woven } root A }"),
        ("cut", b"schema a { node"),
        ("s", b"get v 1\n"),
    ];
    run(rt, alloc, &files)
}

#[test]
fn faults_of_schema_lines_and_which_of_two_comes_first(rt: HostRuntime) -> Result<(), Fail> {
    let rows: [(&[u8], &[u8]); 13] = [
        // a broken rule
        (
            b"schema big\ntensor v 5 as big latches 1\n",
            b"refused m 1 breach 6 A\n",
        ),
        (b"# trees\n\nschema tree\n", b"refused m 3 breach 3 A\n"),
        // a name that was read before, and before a broken rule
        (b"schema flat\n", b"refused m 1 twice\n"),
        (b"schema three\nschema three\n", b"refused m 2 twice\n"),
        (b"schema three\nschema tree\n", b"refused m 2 twice\n"),
        // one schema too many in all, after a name that was read, and before a broken rule
        (b"schema sixteen\nschema three\n", b"refused m 2 limit\n"),
        (b"schema sixteen\nschema tree\n", b"refused m 2 limit\n"),
        (b"schema sixteen\nschema sixteen\n", b"refused m 2 twice\n"),
        // a fault of the file itself
        (b"schema three\nschema cut\n", b"refused cut 1 form 16\n"),
        // a schema that isn't there, and before one that isn't built
        (
            b"schema three\ntensor v 5 5 as tree bush latches 1\n",
            b"refused m 2 name\n",
        ),
        (
            b"tensor v 5 as tree latches 1\nschema three\n",
            b"refused m 1 name\n",
        ),
        (
            b"schema three\ntensor v 5 as tree latches 1\n",
            b"refused m 2 not built\n",
        ),
        (
            b"schema three\ntensor v 5 5 as flat bst latches 1\nschema cut\n",
            b"refused m 2 not built\n",
        ),
    ];
    for (manifest, text) in rows {
        let (status, written) = run_over_schemas(&rt, rt.alloc(), manifest)?;
        assert_eq!(rt; written.as_slice(), text);
        assert_eq!(rt; status, 2);
    }
    Ok(())
}

#[test]
fn a_run_may_read_schemas(rt: HostRuntime) -> Result<(), Fail> {
    let manifest =
        b"schema three\ntensor v 5 as flat latches 1\nschema sixteen\nsession s\n".as_slice();
    let (status, written) = run_over_schemas(&rt, rt.alloc(), manifest)?;
    assert_eq!(rt; written.as_slice(), b"refused m 3 limit\n".as_slice());
    assert_eq!(rt; status, 2);
    let manifest = b"schema three\ntensor v 5 as flat latches 1\nsession s\nprint v\n".as_slice();
    let (status, written) = run_over_schemas(&rt, rt.alloc(), manifest)?;
    let report = b"session 1\n1 value 0\nhistory 1\n1 1\ntensor v 0\n".as_slice();
    assert_eq!(rt; written.as_slice(), report);
    assert_eq!(rt; status, 0);
    Ok(())
}
