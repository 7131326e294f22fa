//! What no clause says: whole manifests and scripts, with expected items, verdicts and faults by hand.
ghost use Rattle.std.specs.Prelude.{◌≡◌, [], ◌∷◌, true, IfOk};
ghost use Rattle.dt_model.specs.Worlds.{decls_are_valid};

use crate::{Item, Manifest, read_manifest, read_script};
use arrayvec::ArrayVec;
use dt_model::{
    Call, Coords, Decls, List, Name, NoMemory, Refusal, Schema, Schemas, TensorDecl, Update,
    Verdict, Verdicts,
};
use dt_text::{append, write_number};
use index_read::write_stmt;
use std::alloc::Global;
use std::test::Fail;
use tns_io::{FileCause, ReadFault};

/// The most bytes of a text.
const FILE_LIMIT: usize = 67_108_864;

/// The items of a manifest, or its fault.
fn items_of(rt: &HostRuntime, text: &[u8]) -> Result<Manifest, ReadFault> {
    if text.len() > FILE_LIMIT {
        return Err(ReadFault::NoMemory);
    }
    read_manifest(rt.alloc(), text)
}

/// The fault of a manifest, if it has one.
fn manifest_fault(rt: &HostRuntime, text: &[u8]) -> Option<(u32, FileCause)> {
    match items_of(rt, text) {
        Err(ReadFault::At(fault)) => Some((fault.line, fault.cause)),
        _ => None,
    }
}

/// A text, and behind it a line so many times.
fn with_lines(alloc: Global, text: &[u8], line: &[u8], count: u32) -> Result<Vec<u8>, NoMemory> {
    let mut all = Vec::new(alloc);
    append(&mut all, text)?;
    for _ in 0..count {
        append(&mut all, line)?;
    }
    Ok(all)
}

/// Tensors `t1`, `t2` and so on, with one latch each.
fn tensor_lines(alloc: Global, count: u32) -> Result<Vec<u8>, NoMemory> {
    let mut all = Vec::new(alloc);
    for i in 0..count {
        append(&mut all, b"tensor t")?;
        write_number(i, &mut all)?;
        append(&mut all, b" 7 as flat latches 1\n")?;
    }
    Ok(all)
}

/// Whether an item is the tensor with these numbers, whose formats are all `flat`.
fn is_tensor(item: &Item, name: &[u8], dims: &[u32], latches: u32) -> bool {
    match item {
        Item::Tensor {
            name: given,
            dims: numbers,
            formats,
            latches: count,
        } => {
            given.bytes() == name
                && numbers.as_slice() == dims
                && *count == latches
                && formats.len() == dims.len()
                && formats
                    .iter()
                    .all(|format| format.bytes() == b"flat".as_slice())
        }
        _ => false,
    }
}

#[test]
fn items_come_with_the_numbers_of_their_lines(rt: HostRuntime) {
    let text =
        b"# a small graph\r\n\n tensor\tv 5 as flat latches 1\r\ntensor T 1 2 3 4 4294967295 as flat flat flat flat flat latches 256\n\t# files\nload v v.tns\nschema q\nprint T\nsession s\nprint v";
    match items_of(&rt, text) {
        Err(_) => assert!(rt; false),
        Ok(items) => {
            assert_eq!(rt; items.len(), 7);
            for (place, line) in [(0, 3), (1, 4), (2, 6), (3, 7), (4, 8), (5, 9), (6, 10)] {
                let same = match items.get(place) {
                    Some((number, _)) => *number == line,
                    None => false,
                };
                assert!(rt; same);
            }
            let first = match items.get(0) {
                Some((_, item)) => is_tensor(item, b"v", &[5], 1),
                None => false,
            };
            let second = match items.get(1) {
                Some((_, item)) => is_tensor(item, b"T", &[1, 2, 3, 4, 4_294_967_295], 256),
                None => false,
            };
            let load = match items.get(2) {
                Some((_, Item::Load { name, file })) => {
                    name.bytes() == b"v".as_slice() && file.text() == "v.tns"
                }
                _ => false,
            };
            let schema = match items.get(3) {
                Some((_, Item::Schema { file })) => file.bytes() == b"q".as_slice(),
                _ => false,
            };
            let session = match items.get(5) {
                Some((_, Item::Session { file })) => file.bytes() == b"s".as_slice(),
                _ => false,
            };
            let print = match items.get(6) {
                Some((_, Item::Print { name })) => name.bytes() == b"v".as_slice(),
                _ => false,
            };
            assert!(rt; first && second && load && schema && session && print);
        }
    }
}

#[test]
fn each_cause_of_a_manifest_and_which_of_two_comes_first(rt: HostRuntime) {
    for (text, line, cause) in [
        // no row of the table
        (&b"tensors v 5 as flat latches 1"[..], 1, FileCause::Form),
        (b"tensor v 5 as flat latches", 1, FileCause::Form),
        (b"tensor v 5 as flat flat latches 1", 1, FileCause::Form),
        (b"tensor v as latches 1", 1, FileCause::Form),
        (
            b"tensor v 1 1 1 1 1 1 as flat flat flat flat flat flat latches 1",
            1,
            FileCause::Form,
        ),
        (b"tensor v -5 as flat latches 1", 1, FileCause::Form),
        (b"tensor 5v 5 as flat latches 1", 1, FileCause::Form),
        (b"tensor v 5 as 5flat latches 1", 1, FileCause::Form),
        (b"tensor v 5 as flat latches x", 1, FileCause::Form),
        (b"print\nprint v", 1, FileCause::Form),
        (b"load v", 1, FileCause::Form),
        (b"session \xff", 1, FileCause::Form),
        (b"schema q r", 1, FileCause::Form),
        (b"schema", 1, FileCause::Form),
        // form before order, name, twice and range
        (b"session s\nsession s t", 2, FileCause::Form),
        (b"session s\nload w", 2, FileCause::Form),
        (b"session s\nschema", 2, FileCause::Form),
        (b"print w w", 1, FileCause::Form),
        (
            b"tensor v 5 as flat latches 1\ntensor v 5 as flat latch 1",
            2,
            FileCause::Form,
        ),
        (b"tensor v 0 as flat latches x", 1, FileCause::Form),
        // order, and before name, twice and range
        (b"session s\nschema q", 2, FileCause::Order),
        (
            b"session s\ntensor v 5 as flat latches 1",
            2,
            FileCause::Order,
        ),
        (b"session s\nload w f", 2, FileCause::Order),
        (
            b"tensor v 5 as flat latches 1\nsession s\ntensor v 5 as flat latches 1",
            3,
            FileCause::Order,
        ),
        (
            b"session s\ntensor v 0 as flat latches 1",
            2,
            FileCause::Order,
        ),
        // name
        (
            b"tensor v 5 as flat latches 1\nload w f",
            2,
            FileCause::Name,
        ),
        (b"print v\ntensor v 5 as flat latches 1", 1, FileCause::Name),
        // twice, and before range
        (
            b"tensor v 5 as flat latches 1\n\ntensor v 6 as flat latches 1",
            3,
            FileCause::Twice,
        ),
        (
            b"tensor v 5 as flat latches 1\ntensor v 0 as flat latches 1",
            2,
            FileCause::Twice,
        ),
        // range
        (b"tensor v 0 as flat latches 1", 1, FileCause::Range),
        (
            b"tensor v 5 4294967296 as flat flat latches 1",
            1,
            FileCause::Range,
        ),
        (b"tensor v 5 as flat latches 0", 1, FileCause::Range),
        (b"tensor v 5 as flat latches 257", 1, FileCause::Range),
        (
            b"tensor v 99999999999999999999999 as flat latches 1",
            1,
            FileCause::Range,
        ),
    ] {
        assert!(rt; manifest_fault(&rt, text) == Some((line, cause)));
    }
}

#[test]
fn limits_of_a_manifest(rt: HostRuntime) {
    let alloc = rt.alloc();
    let four =
        b"tensor a 300 as flat latches 256\ntensor b 300 as flat latches 256\ntensor c 300 as flat latches 256\ntensor d 300 as flat latches 256\n";
    for (head, line, count, fault) in [
        // 1,024 latches in all, and one more
        (&four[..], &b""[..], 0, None),
        (
            four,
            b"tensor e 300 as flat latches 1\n",
            1,
            Some((5, FileCause::Limit)),
        ),
        // range before limit
        (
            four,
            b"tensor e 0 as flat latches 1\n",
            1,
            Some((5, FileCause::Range)),
        ),
        // 64 print lines, and one more
        (four, b"print a\n", 64, None),
        (four, b"print a\n", 65, Some((69, FileCause::Limit))),
        // 16 sessions, and one more; order before limit
        (four, b"session s\n", 16, None),
        (four, b"session s\n", 17, Some((21, FileCause::Limit))),
        (
            b"session s\n",
            b"schema q\n",
            1,
            Some((2, FileCause::Order)),
        ),
        // 4,096 bytes of a line, and one more, which comes before form
        (b"x", b"x", 4095, Some((1, FileCause::Form))),
        (b"x", b"x", 4096, Some((1, FileCause::Limit))),
        (b"#", b"x", 9999, None),
    ] {
        match with_lines(alloc, head, line, count) {
            Ok(text) => assert!(rt; manifest_fault(&rt, &text) == fault),
            Err(NoMemory) => assert!(rt; false),
        }
    }
    for (count, fault) in [(32, None), (33, Some((33, FileCause::Limit)))] {
        match tensor_lines(alloc, count) {
            Ok(text) => assert!(rt; manifest_fault(&rt, &text) == fault),
            Err(NoMemory) => assert!(rt; false),
        }
    }
}

/// The name of one letter.
fn named(letter: u8) -> Result<Name, NoMemory>
    ensures value { IfOk result (λ name. name ≡ letter ∷ []) }
{
    match Name::new(&[letter]) {
        Some(name) => Ok(name),
        None => Err(NoMemory),
    }
}

/// A list of two items.
fn two<T: Drop>(alloc: Global, first: T, second: T) -> Result<List<T>, NoMemory>
    ensures value { IfOk result (λ list. list ≡ first ∷ second ∷ []) }
{
    let mut list = List::new(alloc);
    list.push(first)?;
    list.push(second)?;
    Ok(list)
}

/// The tensor `v` of dimension 5.
fn vector() -> Result<TensorDecl, NoMemory>
    ensures value { IfOk result (λ t. t ≡ record { name = 118 ∷ []; dims = 5 ∷ []; formats = record { items = 0 ∷ [] }; latches = 1 }) }
{
    let mut dims = Coords::new();
    dims.push(5);
    let mut formats = ArrayVec::new();
    formats.push(0);
    Ok(TensorDecl {
        name: named(b'v')?,
        dims,
        formats,
        latches: 1,
    })
}

/// The tensor `B` of 2 by 3.
fn matrix() -> Result<TensorDecl, NoMemory>
    ensures value { IfOk result (λ t. t ≡ record { name = 66 ∷ []; dims = 2 ∷ 3 ∷ []; formats = record { items = 0 ∷ 0 ∷ [] }; latches = 1 }) }
{
    let mut dims = Coords::new();
    dims.push(2);
    dims.push(3);
    let mut formats = ArrayVec::new();
    formats.push(0);
    formats.push(0);
    Ok(TensorDecl {
        name: named(b'B')?,
        dims,
        formats,
        latches: 1,
    })
}

/// The declarations of `v` and `B`.
fn declared(alloc: Global) -> Result<Decls, NoMemory>
    ensures valid { IfOk result (λ d. decls_are_valid d ≡ true) }
{
    let mut schemas = Schemas::new(alloc);
    schemas.push(Schema::flat())?;
    Ok(Decls {
        schemas,
        tensors: two(alloc, vector()?, matrix()?)?,
    })
}

/// The verdicts on the lines of a script over `v` and `B`, or its fault.
fn verdicts_of(rt: &HostRuntime, text: &[u8], most: u32) -> Result<Verdicts, ReadFault> {
    if text.len() > FILE_LIMIT {
        return Err(ReadFault::NoMemory);
    }
    match declared(rt.alloc()) {
        Ok(decls) => read_script(rt.alloc(), &decls, text, most),
        Err(NoMemory) => Err(ReadFault::NoMemory),
    }
}

/// What a refusal is about, without the tensor's name.
#[derive(Clone, Copy, PartialEq, Eq)]
enum Wanted {
    Accepted,
    Form(u32),
    Limit(u32),
    Name,
    Rank(u32, u32),
    Range(u32, u32),
    NotWhole,
    TooLarge,
    Dimension(u32, u32),
    Repeated,
    Access(u32),
    Uncovered(u32),
    Other,
}

/// What a verdict is about.
fn about(verdict: &Verdict) -> Wanted {
    match verdict {
        Verdict::Accepted(_) => Wanted::Accepted,
        Verdict::Refused(Refusal::Form { column }) => Wanted::Form(*column),
        Verdict::Refused(Refusal::Name { .. }) => Wanted::Name,
        Verdict::Refused(Refusal::Rank { given, order, .. }) => Wanted::Rank(*given, *order),
        Verdict::Refused(Refusal::Range { mode, dim, .. }) => Wanted::Range(*mode, *dim),
        Verdict::Refused(Refusal::NotWhole) => Wanted::NotWhole,
        Verdict::Refused(Refusal::TooLarge) => Wanted::TooLarge,
        Verdict::Refused(Refusal::Limit { column }) => Wanted::Limit(*column),
        Verdict::Refused(Refusal::Dimension { first, second, .. }) => {
            Wanted::Dimension(*first, *second)
        }
        Verdict::Refused(Refusal::Repeated { .. }) => Wanted::Repeated,
        Verdict::Refused(Refusal::Access { term }) => Wanted::Access(*term),
        Verdict::Refused(Refusal::Uncovered { term, .. }) => Wanted::Uncovered(*term),
    }
}

/// What the verdict on a script of one line is about.
fn about_line(rt: &HostRuntime, line: &[u8]) -> Wanted {
    match verdicts_of(rt, line, 700_000) {
        Ok(verdicts) => match verdicts.get(0) {
            Some(verdict) => about(verdict),
            None => Wanted::Other,
        },
        Err(_) => Wanted::Other,
    }
}

#[test]
fn each_refusal_of_a_line_and_which_of_two_comes_first(rt: HostRuntime) {
    for (line, wanted) in [
        // accepted
        (&b"get v 5"[..], Wanted::Accepted),
        (b" add\tv 00005 -7 \r\n", Wanted::Accepted),
        (b"set v 1 1e3", Wanted::Accepted),
        (b"set B 2 3 -9223372036854775808", Wanted::Accepted),
        // no form: an unknown verb, a name, a coordinate, a value; a missing word stands at the end
        (b"  sub v 1 1", Wanted::Form(3)),
        (b"batch;set v 1 1", Wanted::Form(1)),
        (b"query(i)", Wanted::Form(1)),
        (b"get", Wanted::Form(4)),
        (b"set  ", Wanted::Form(4)),
        (b"set v ", Wanted::Form(6)),
        (b"get 5v 1", Wanted::Form(5)),
        (b"get v -1", Wanted::Form(7)),
        (b"set v x y", Wanted::Form(7)),
        (b"set v 1 x", Wanted::Form(9)),
        (b"add v 1 .5", Wanted::Form(9)),
        (b"add v 1 1e1000", Wanted::Form(9)),
        // form before name
        (b"set w 1 x", Wanted::Form(9)),
        // name, and before rank
        (b"set w 1 1", Wanted::Name),
        (b"get w", Wanted::Name),
        // rank, and before range and number
        (b"get v", Wanted::Rank(0, 1)),
        (b"set v 1", Wanted::Rank(0, 1)),
        (b"get B 1", Wanted::Rank(1, 2)),
        (b"set v 9 9 2.5", Wanted::Rank(2, 1)),
        // range: the first mode, and before number
        (b"get v 0", Wanted::Range(1, 5)),
        (b"get v 6", Wanted::Range(1, 5)),
        (b"get v 4294967296", Wanted::Range(1, 5)),
        (b"get B 3 4", Wanted::Range(1, 2)),
        (b"get B 2 4", Wanted::Range(2, 3)),
        (b"set v 9 2.5", Wanted::Range(1, 5)),
        // number
        (b"set v 1 2.5", Wanted::NotWhole),
        (b"set v 1 18446744073709551616", Wanted::TooLarge),
        (b"add v 1 -9223372036854775809", Wanted::TooLarge),
    ] {
        assert!(rt; about_line(&rt, line) == wanted);
    }
}

#[test]
fn each_refusal_of_a_batch_and_which_of_two_comes_first(rt: HostRuntime) {
    for (line, wanted) in [
        // accepted
        (&b"batch set v 1 1"[..], Wanted::Accepted),
        (
            b"\tbatch set v 1 1;add B 2 3 -5 ;\tset v 00005 1e3 \r\n",
            Wanted::Accepted,
        ),
        // a missing update stands at the semicolon that ends it, or at the line's end
        (b"batch", Wanted::Form(6)),
        (b"  batch\t ", Wanted::Form(8)),
        (b"batch;", Wanted::Form(1)),
        (b"batch ;set v 1 1", Wanted::Form(7)),
        (b"batch set v 1 1;", Wanted::Form(17)),
        (b"batch set v 1 1;  ", Wanted::Form(17)),
        (b"batch set v 1 1;;set v 2 2", Wanted::Form(17)),
        (b"batch set v 1 1 ; ; set v 2 2", Wanted::Form(19)),
        // and so do a missing name and a missing value
        (b"batch set", Wanted::Form(10)),
        (b"batch set ; add v 1 1", Wanted::Form(11)),
        (b"batch set v;add v 1 1", Wanted::Form(12)),
        (b"batch add v 1 1;set v ", Wanted::Form(22)),
        // no update; a name, a coordinate, a value
        (b"batch get v 1", Wanted::Form(7)),
        (b"batch set v 1 1;query a = v(i)", Wanted::Form(17)),
        (b"batch set v 1 1; batch set v 1 1", Wanted::Form(18)),
        (b"batch set v 1 1;set v 1;1", Wanted::Form(25)),
        (b"batch set v 1 1;set 5v 1 1", Wanted::Form(21)),
        (b"batch set v 1 1;set v x 1", Wanted::Form(23)),
        (b"batch set v 1 x;set 5v 1 1", Wanted::Form(15)),
        // form of a later update before the name of an earlier one
        (b"batch set w 1 1;set v 1 x", Wanted::Form(25)),
        // then the updates in order, each with its first reason
        (b"batch set v 1 1;set w 9 9 9", Wanted::Name),
        (b"batch set v 1 1;set v 1", Wanted::Rank(0, 1)),
        (b"batch set v 9 1;set w 1 1", Wanted::Range(1, 5)),
        (b"batch set v 1 1;add B 2 4 2.5", Wanted::Range(2, 3)),
        (b"batch set v 1 2.5;set v 9 1", Wanted::NotWhole),
        (
            b"batch set v 1 1;add B 2 3 99999999999999999999",
            Wanted::TooLarge,
        ),
    ] {
        assert!(rt; about_line(&rt, line) == wanted);
    }
}

#[test]
fn a_batch_has_at_most_64_updates(rt: HostRuntime) -> Result<(), Fail> {
    for (head, count, tail, wanted) in [
        (&b"batch set v 1 1"[..], 63, &b""[..], Wanted::Accepted),
        (b"batch set v 1 1", 64, b"", Wanted::Limit(646)),
        // whatever follows
        (b"batch set v 1 1", 63, b";", Wanted::Limit(646)),
        (b"batch set v 1 1", 63, b";x", Wanted::Limit(646)),
        // a form fault before the limit, also in one column
        (b"batch set v 1 x", 64, b"", Wanted::Form(15)),
        (b"batch set v 1 1", 62, b";set;x", Wanted::Form(640)),
        (b"batch set v 1 1", 62, b";;x", Wanted::Form(637)),
        // the limit before a name
        (b"batch set w 1 1", 64, b"", Wanted::Limit(646)),
    ] {
        let mut line = with_lines(rt.alloc(), head, b";set v 1 1", count)?;
        append(&mut line, tail)?;
        assert!(rt; about_line(&rt, &line) == wanted);
    }
    Ok(())
}

#[test]
fn each_refusal_of_a_query_and_which_of_two_comes_first(rt: HostRuntime) {
    for (line, wanted) in [
        // accepted; the name on the left may be that of a tensor
        (&b"query a = v(i)"[..], Wanted::Accepted),
        (b" query\tv(i)=B(i,j)*2 - -(B(i,k))\r\n", Wanted::Form(24)),
        (b" query\tv(i)=B(i,j)*2 - (-B(i,k))\r\n", Wanted::Accepted),
        // no form: columns are of the line; a missing statement would stand at its end
        (b"query", Wanted::Form(6)),
        (b"  query  ", Wanted::Form(8)),
        (b"query 5a = v(i)", Wanted::Form(7)),
        (b"query a = v(i", Wanted::Form(14)),
        (b"  query a = v(i) ; # ", Wanted::Form(18)),
        (b"query a = 2b(i)", Wanted::Form(12)),
        // limits
        (
            b"query a = v(i)*v(i)*v(i)*v(i)*v(i)*v(i)*v(i)*v(i)*v(i)*v(i)*v(i)*v(i)*v(i)",
            Wanted::Limit(71),
        ),
        (
            b"query a = 1*2*3*4*5*6*7*8*9*1*2*3*4*v(i)",
            Wanted::Limit(35),
        ),
        (b"query a(i,j,k,l,m,n,o,p,q) = v(i)", Wanted::Limit(25)),
        (b"query a = (((((((((((((((((v(i", Wanted::Limit(27)),
        (b"query a = 18446744073709551616", Wanted::Limit(11)),
        // form before limit, also in one column
        (b"query a = ) + 18446744073709551616", Wanted::Form(11)),
        (b"query 18446744073709551616", Wanted::Form(7)),
        // form and limit before name
        (b"query a = w(i", Wanted::Form(14)),
        (b"query a = w(i) * 18446744073709551616", Wanted::Limit(18)),
        // name, and before rank
        (b"query a = w(i)", Wanted::Name),
        (b"query a = v(i,j) * w(i)", Wanted::Name),
        // rank, and before dimension
        (b"query a = v(i,j)", Wanted::Rank(2, 1)),
        (b"query a = B(i,j)*B(j,i)*v(i,j)", Wanted::Rank(2, 1)),
        // dimension, and before repeated
        (b"query a = v(i)*B(i,j)", Wanted::Dimension(5, 2)),
        (b"query a = B(i,i)", Wanted::Dimension(2, 3)),
        (b"query a(i,i) = v(i)*B(i,j)", Wanted::Dimension(5, 2)),
        // repeated, and before access
        (b"query a(i,i) = v(i)", Wanted::Repeated),
        (b"query a(i,i) = 2 + v(i)", Wanted::Repeated),
        // access, and before uncovered
        (b"query a = 2", Wanted::Access(1)),
        (b"query a = v(i) - 2", Wanted::Access(2)),
        (b"query a(i) = v(j) + 2", Wanted::Access(2)),
        // uncovered
        (b"query a(i) = v(j)", Wanted::Uncovered(1)),
        (b"query a(i) = v(i) - v(j)", Wanted::Uncovered(2)),
        (b"query a = v(i) * (B(j,k) + 2)", Wanted::Uncovered(1)),
    ] {
        assert!(rt; about_line(&rt, line) == wanted);
    }
}

/// The canonical text of the statement that a script of one line asks for.
fn asked(rt: &HostRuntime, line: &[u8]) -> Result<Vec<u8>, Fail> {
    let verdicts = verdicts_of(rt, line, 0)?;
    let mut text = Vec::new(rt.alloc());
    if let Some(Verdict::Accepted(Call::Query(stmt))) = verdicts.get(0) {
        write_stmt(rt.alloc(), stmt.get(), &mut text)?;
    }
    Ok(text)
}

#[test]
fn a_query_has_the_statement_of_its_line(rt: HostRuntime) -> Result<(), Fail> {
    for (line, text) in [
        (&b"query a=v(i)"[..], &b"a = v(i)"[..]),
        (
            b"query query(query)=(B(query,v)*(v(k)-(2*v(k))))",
            b"query(query) = B(query,v) * (v(k) - 2 * v(k))",
        ),
        (b"\tquery y(j) = - B( i , j )", b"y(j) = -B(i,j)"),
    ] {
        let found = asked(&rt, line)?;
        assert_eq!(rt; found.as_slice(), text);
    }
    Ok(())
}

#[test]
fn calls_have_the_cells_and_values_of_their_lines(rt: HostRuntime) {
    let text = b"# both\nset B 2 3 2.50e1\n\nadd v 5 -1\nget B 1 2";
    match verdicts_of(&rt, text, 2) {
        Err(_) => assert!(rt; false),
        Ok(verdicts) => {
            assert_eq!(rt; verdicts.len(), 3);
            let set = match verdicts.get(0) {
                Some(Verdict::Accepted(Call::Batch(updates))) => match updates.as_slice() {
                    [Update::Set { cell, value }] => {
                        cell.tensor == 1 && cell.at.as_slice() == [1, 2].as_slice() && *value == 25
                    }
                    _ => false,
                },
                _ => false,
            };
            let add = match verdicts.get(1) {
                Some(Verdict::Accepted(Call::Batch(updates))) => match updates.as_slice() {
                    [Update::Add { cell, value }] => {
                        cell.tensor == 0
                            && cell.at.as_slice() == [4].as_slice()
                            && *value == u64::MAX
                    }
                    _ => false,
                },
                _ => false,
            };
            let get = match verdicts.get(2) {
                Some(Verdict::Accepted(Call::Get(cell))) => {
                    cell.tensor == 1 && cell.at.as_slice() == [0, 1].as_slice()
                }
                _ => false,
            };
            assert!(rt; set && add && get);
        }
    }
}

#[test]
fn a_batch_has_the_updates_of_its_line_in_order(rt: HostRuntime) -> Result<(), Fail> {
    let text = b"batch set v 1 1; add B 2 1 3 ;set v 1 -1";
    let verdicts = verdicts_of(&rt, text, 3)?;
    let same = match verdicts.get(0) {
        Some(Verdict::Accepted(Call::Batch(updates))) => match updates.as_slice() {
            [
                Update::Set {
                    cell: first,
                    value: one,
                },
                Update::Add {
                    cell: second,
                    value: three,
                },
                Update::Set {
                    cell: third,
                    value: less,
                },
            ] => {
                (first.tensor, second.tensor, third.tensor) == (0, 1, 0)
                    && first.at.as_slice() == [0].as_slice()
                    && second.at.as_slice() == [1, 0].as_slice()
                    && third.at.as_slice() == [0].as_slice()
                    && (*one, *three, *less) == (1, 3, u64::MAX)
            }
            _ => false,
        },
        _ => false,
    };
    assert!(rt; same);
    Ok(())
}

/// The fault of a script, if it has one.
fn script_fault(rt: &HostRuntime, text: &[u8], most: u32) -> Option<(u32, FileCause)> {
    match verdicts_of(rt, text, most) {
        Err(ReadFault::At(fault)) => Some((fault.line, fault.cause)),
        _ => None,
    }
}

#[test]
fn faults_of_a_script(rt: HostRuntime) {
    for (text, most, fault) in [
        // accepted updates alone are counted
        (
            &b"set v 1 1\nget v 1\nset v 2 1"[..],
            1,
            Some((3, FileCause::Limit)),
        ),
        (b"set v 9 1\nsub v 1\nset v 1 1\nget v 1", 1, None),
        (b"set v 1 1", 0, Some((1, FileCause::Limit))),
        (b"get v 1\nsub v 1", 0, None),
        // each update of a batch is, if the batch is accepted
        (b"batch set v 1 1;set v 2 1", 2, None),
        (
            b"get v 1\nbatch set v 1 1;set v 2 1",
            1,
            Some((2, FileCause::Limit)),
        ),
        (b"batch set v 1 1;set v 9 1\nset v 1 1", 1, None),
        // a fault before a later one
        (b"set v 1 1\nbatch", 0, Some((1, FileCause::Limit))),
    ] {
        assert!(rt; script_fault(&rt, text, most) == fault);
    }
    let alloc = rt.alloc();
    for (head, line, count, fault) in [
        // 4,096 bytes of a line, and one more, which comes before form
        (&b"batch"[..], &b" "[..], 4091, None),
        (b"batch", b" ", 4092, Some((1, FileCause::Limit))),
        (b"query a=v(i)", b" ", 4084, None),
        (b"query a=v(i)", b" ", 4085, Some((1, FileCause::Limit))),
        // 65,536 lines, and one more
        (b"#\n", b"x\n", 65_536, None),
        (b"#\n", b"x\n", 65_537, Some((65_538, FileCause::Limit))),
    ] {
        match with_lines(alloc, head, line, count) {
            Ok(text) => assert!(rt; script_fault(&rt, &text, 9) == fault),
            Err(NoMemory) => assert!(rt; false),
        }
    }
}

#[test]
fn a_manifest_and_a_script_are_read(rt: HostRuntime) -> Result<(), Fail> {
    let decls = declared(rt.alloc())?;
    let manifest = b"tensor v 5 as flat latches 1\nsession s\nprint v";
    let items = read_manifest(rt.alloc(), manifest)?;
    let verdicts = read_script(rt.alloc(), &decls, b"set v 2 7\nget v 2", 700_000)?;
    assert_eq!(rt; (items.len(), verdicts.len()), (3, 2));
    Ok(())
}
