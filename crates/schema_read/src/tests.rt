//! Schemas, and faults with lines and columns that were found by hand.

ghost use Rattle.std.specs.Prelude.{◌≡◌, true, IfOk};
ghost use Rattle.std.specs.List.{All};
ghost use Rattle.schema_read.specs.Grammar.{are_linked};

use crate::{SchemaFault, read_schemas, write_schema};
use dt_model::{FILE_LIMIT, Schemas};
use std::alloc::Global;
use std::test::Fail;

/// A kind of 22 bytes.
const NODE: &[u8] = b"node B{run 1..1 woven}";

/// A schema of 38 bytes.
const SCHEMA: &[u8] = b"schema a{node B{run 1..1 woven}root B}";

/// The schemas of a text that fits a file.
fn read(alloc: Global, text: &[u8]) -> Result<Schemas, SchemaFault>
    ensures linked { IfOk result (λ schemas. All (λ schema. are_linked schema.kinds.items ≡ true) schemas) }
{
    if text.len() as u64 > FILE_LIMIT {
        return Err(SchemaFault::NoMemory);
    }
    read_schemas(alloc, text)
}

/// A text with a piece several times in its middle.
fn repeated(
    alloc: Global,
    front: &[u8],
    times: usize,
    piece: &[u8],
    behind: &[u8],
) -> Result<Vec<u8>, Fail> {
    let mut text = Vec::new(alloc);
    text.extend_from_slice(front)?;
    for _ in 0..times {
        text.extend_from_slice(piece)?;
    }
    text.extend_from_slice(behind)?;
    Ok(text)
}

/// The canonical texts of the schemas of a text.
fn canonical(alloc: Global, text: &[u8]) -> Result<Vec<u8>, Fail> {
    let schemas = read(alloc, text)?;
    let mut into = Vec::new(alloc);
    for schema in schemas.as_slice() {
        write_schema(schema, &mut into)?;
    }
    Ok(into)
}

/// A form fault.
fn form(line: u32, column: u32) -> SchemaFault {
    SchemaFault::Form { line, column }
}

/// A limit fault.
fn limit(line: u32, column: u32) -> SchemaFault {
    SchemaFault::Limit { line, column }
}

/// A file that ends too early: the fault is behind the last byte, where a carriage return at the end of the
/// text isn't counted.
#[test]
fn faults_at_the_end_are_behind_the_last_line(rt: HostRuntime) -> Result<(), Fail> {
    let rows: [(&[u8], u32, u32); 12] = [
        (b"schema", 1, 7),
        (b"schema ", 1, 8),
        (b"schema\n", 2, 1),
        (b"schema\r", 1, 7),
        (b"schema\r\r", 1, 8),
        (b"schema\r\n", 2, 1),
        (b"schema # a", 1, 11),
        (b"schema # a\r", 1, 11),
        (b"schema #\r}\n", 2, 1),
        (b"schema #\n\n", 3, 1),
        (b"schema a{node B{run 1..1 woven}root B", 1, 38),
        (b"schema a{node B{run 1..1 woven}", 1, 32),
    ];
    for (text, line, column) in rows {
        match read(rt.alloc(), text) {
            Ok(_) => return Err(Fail::new("read")),
            Err(fault) => assert_eq!(rt; fault, form(line, column)),
        }
    }
    Ok(())
}

/// Form faults: each place where the grammar stops, digits, names and reserved words.
#[test]
fn form_faults_are_at_the_first_token_that_fits_nowhere(rt: HostRuntime) -> Result<(), Fail> {
    let rows: [(&[u8], u32, u32); 26] = [
        (b"x", 1, 1),
        (b"\t\r\n  .", 2, 3),
        (b"# a comment\n # another\n\xc3", 3, 1),
        (b"schema schema", 1, 8),
        (b"schema abcdefghijklmnopqrstuvwxyzabcdefg {", 1, 8),
        (b"schema abcdefghijklmnopqrstuvwxyzabcdef }", 1, 41),
        (b"schema 1a", 1, 8),
        (b"schema a node", 1, 10),
        (b"schema a { root", 1, 12),
        (b"schema a { }", 1, 12),
        (b"schema a{node B{run 1..1 woven}}", 1, 32),
        (b"schema a { node node", 1, 17),
        (b"schema a { node B run", 1, 19),
        (b"schema a { node B { root", 1, 21),
        (b"schema a { node B { run B", 1, 25),
        (b"schema a { node B { run 1234567890..1", 1, 25),
        (b"schema a { node B { run 1.2", 1, 26),
        (b"schema a { node B { run 1...2", 1, 28),
        (b"schema a { node B { run 1. .2", 1, 26),
        (b"schema a { node B { run 1..2 }", 1, 30),
        (b"schema a { node B { run 1..2\nflat }", 2, 1),
        (b"schema a { node B { run 1..2 post run", 1, 35),
        (b"schema a { node B { run 1..2 pre B woven", 1, 36),
        (b"schema a { node B { run 1..2 post B pre B", 1, 37),
        (b"schema a{node B{run 1..1 woven}root B root", 1, 39),
        (b"schema a{node B{run 1..1 woven}root B}}", 1, 39),
    ];
    for (text, line, column) in rows {
        match read(rt.alloc(), text) {
            Ok(_) => return Err(Fail::new("read")),
            Err(fault) => assert_eq!(rt; fault, form(line, column)),
        }
    }
    Ok(())
}

/// A 17th schema and a 17th kind; and, at the same place, a word that no file has there: that is a form
/// fault.
#[test]
fn limits_are_at_the_first_excess(rt: HostRuntime) -> Result<(), Fail> {
    let inside = b"schema a{".as_slice();
    let rows: [(&[u8], usize, &[u8], &[u8], SchemaFault); 11] = [
        (b"", 16, SCHEMA, b"schema", limit(1, 609)),
        (b"", 16, SCHEMA, b"\n schema schema", limit(2, 2)),
        (b"", 17, SCHEMA, b"}", limit(1, 609)),
        (b"", 16, SCHEMA, b"root", form(1, 609)),
        (b"", 15, SCHEMA, b"schema schema", form(1, 578)),
        (inside, 17, NODE, b"", limit(1, 362)),
        (inside, 16, NODE, b"\nnode node", limit(2, 1)),
        (inside, 16, NODE, b"woven", form(1, 362)),
        (inside, 16, NODE, b"root node", form(1, 367)),
        (inside, 16, NODE, b"}", form(1, 362)),
        (inside, 16, NODE, b"root B}node", form(1, 369)),
    ];
    for (front, times, piece, behind, wanted) in rows {
        let text = repeated(rt.alloc(), front, times, piece, behind)?;
        match read(rt.alloc(), text.as_slice()) {
            Ok(_) => return Err(Fail::new("read")),
            Err(fault) => assert_eq!(rt; fault, wanted),
        }
    }
    Ok(())
}

/// As many schemas and kinds as are allowed.
#[test]
fn limits_may_be_reached(rt: HostRuntime) -> Result<(), Fail> {
    let text = repeated(rt.alloc(), b"", 16, SCHEMA, b"")?;
    assert_eq!(rt; read(rt.alloc(), text.as_slice())?.len(), 16);
    let text = repeated(rt.alloc(), b"schema a{", 16, NODE, b"root B}")?;
    let schemas = read(rt.alloc(), text.as_slice())?;
    match schemas.as_slice() {
        [schema] => assert_eq!(rt; schema.kinds.len(), 16),
        _ => return Err(Fail::new("not one schema")),
    }
    Ok(())
}

/// Each text has these canonical texts, which are read and written as themselves.
#[test]
fn canonical_text_reads_back(rt: HostRuntime) -> Result<(), Fail> {
    let rows: [(&[u8], &[u8]); 9] = [
        (b"", b""),
        (b" \t\r\n#", b""),
        (b"# schema\r", b""),
        (
            b"schema tree { node B { run 4..8 woven } root B }",
            b"schema tree {\n  node B { run 4..8 woven }\n  root B\n}\n",
        ),
        (
            b"schema list { node C { run 1..8 post C } root C }",
            b"schema list {\n  node C { run 1..8 post C }\n  root C\n}\n",
        ),
        (
            b"schema bst { node E { run 1..1 pre E post E } root E }",
            b"schema bst {\n  node E { run 1..1 pre E post E }\n  root E\n}\n",
        ),
        (
            b"schema list{node C{run 01..000000008post C}root C}#",
            b"schema list {\n  node C { run 1..8 post C }\n  root C\n}\n",
        ),
        (
            b"schema#}\na{node\rB#\n{run 0..999999999\npost B}node abcdefghijklmnopqrstuvwxyzabcdef{run 3..2 woven}root B}schema Root{node Node{run 1..1 pre Pre post flat}root _}",
            b"schema a {\n  node B { run 0..999999999 post B }\n  node abcdefghijklmnopqrstuvwxyzabcdef { run 3..2 woven }\n  root B\n}\nschema Root {\n  node Node { run 1..1 pre Pre post flat }\n  root _\n}\n",
        ),
        (
            b"schema flat { node flat { run 1..16 woven } root flat }",
            b"schema flat {\n  node flat { run 1..16 woven }\n  root flat\n}\n",
        ),
    ];
    for (text, wanted) in rows {
        for text in [text, wanted] {
            let written = canonical(rt.alloc(), text)?;
            assert_eq!(rt; written.as_slice(), wanted);
        }
    }
    Ok(())
}

/// The caller of this crate's README.
#[test]
fn a_text_is_made_canonical(rt: HostRuntime) -> Result<(), Fail> {
    let schemas = read_schemas(rt.alloc(), b"schema s{node A{run 1..4post A}root A}")?;
    let mut text = Vec::new(rt.alloc());
    for schema in schemas.as_slice() {
        write_schema(schema, &mut text)?;
    }
    assert_eq!(rt;
        text.as_slice(),
        b"schema s {\n  node A { run 1..4 post A }\n  root A\n}\n".as_slice()
    );
    Ok(())
}
