//! A run over tensors that are far too wide to go through.
use crate::tests::run_words;
use dt_model::NoMemory;
use dt_outside::{SureShelf, SureSink};
use dt_text::{append, write_number};
use std::alloc::Global;
use std::test::Fail;

/// 300 lines of data, the first ones far from the last: the values are 1 to 300, each at a coordinate
/// that stands once on a line, or twice.
fn wide_lines(alloc: Global, is_matrix: bool) -> Result<Vec<u8>, NoMemory> {
    let mut text = Vec::new(alloc);
    for k in 0..300 {
        let coordinate = 4_294_967_295 - k * 14_000_000;
        write_number(coordinate, &mut text)?;
        append(&mut text, b" ")?;
        if is_matrix {
            write_number(coordinate, &mut text)?;
            append(&mut text, b" ")?;
        }
        write_number(k + 1, &mut text)?;
        append(&mut text, b"\n")?;
    }
    Ok(text)
}

// The first answer is the sum of the squares of 1 to 300, which is 300 * 301 * 601 / 6. The second is
// that of their fifth powers, which is 300^2 * 301^2 * (2 * 300^2 + 2 * 300 - 1) / 12. A query that went
// through the dimensions, or through all choices of a row for each factor, would not end in time: there
// are 300^5 of these.
#[test]
fn a_query_goes_through_rows_that_agree(rt: HostRuntime) -> Result<(), Fail> {
    let alloc = rt.alloc();
    let mut shelf = SureShelf::new(alloc);
    shelf.add(
        "m",
        b"tensor v 4294967295 as flat latches 256\ntensor B 4294967295 4294967295 as flat flat latches 1\nload v v.tns\nload B B.tns\nsession s\n",
    )?;
    shelf.add("v.tns", wide_lines(alloc, false)?.as_slice())?;
    shelf.add("B.tns", wide_lines(alloc, true)?.as_slice())?;
    shelf.add(
        "s",
        b"query a = B(i,j) * v(j)\nquery b = v(i) * B(i,j) * B(j,k) * B(k,l) * B(l,m)\nquery c(i,j) = B(i,j) - B(j,i)\nget v 4294967295\n",
    )?;
    let mut sink = SureSink::new(alloc, 200)?;
    let words = [
        String::from_str(alloc, "run")?,
        String::from_str(alloc, "m")?,
    ];
    let status = run_words(&rt, alloc, &words, &mut shelf, &mut sink);
    let report =
        b"session 1\n1 result 1\n9045050\n2 result 1\n122718374992500\n3 result 0\n4 value 1\nhistory 4\n1 1\n1 2\n1 3\n1 4\n".as_slice();
    assert_eq!(rt; sink.bytes(), report);
    assert_eq!(rt; status, 0);
    Ok(())
}
