//! Samples with their exact texts.
use crate::tests::words_of;
use crate::top::top_sample;
use dt_outside::{MemSink, SureSink};
use std::alloc::Global;
use std::test::Fail;

const USAGE: &[u8] = b"usage: dyntensor run MANIFEST | check SCHEMAS | sample N\n";

/// The status and the text of a sample on these words.
fn sampled(alloc: Global, words: &[&str]) -> Result<(u8, Vec<u8>), Fail> {
    let mut sink = SureSink::new(alloc, 100)?;
    let words = words_of(alloc, words)?;
    let status = top_sample(alloc, &words, &mut sink);
    Ok((status, sink.bytes().to_vec(alloc)?))
}

#[test]
fn a_sample_has_its_count_and_sum(rt: HostRuntime) -> Result<(), Fail> {
    let rows: [(&str, &[u8]); 7] = [
        ("1", b"sample 1\ncount 1\nsum 1\n"),
        ("2", b"sample 2\ncount 2\nsum 3\n"),
        ("3", b"sample 3\ncount 3\nsum 6\n"),
        ("4", b"sample 4\ncount 8\nsum 20\n"),
        ("04", b"sample 4\ncount 8\nsum 20\n"),
        ("9", b"sample 9\ncount 17\nsum 65\n"),
        ("1000", b"sample 1000\ncount 2000\nsum 503000\n"),
    ];
    for (number, wanted) in rows {
        let (status, bytes) = sampled(rt.alloc(), &["sample", number])?;
        assert_eq!(rt; bytes.as_slice(), wanted);
        assert_eq!(rt; status, 0);
    }
    Ok(())
}

#[test]
fn the_greatest_sample_has_a_nonzero_in_each_cell(rt: HostRuntime) -> Result<(), Fail> {
    let (status, bytes) = sampled(rt.alloc(), &["sample", "200000"])?;
    let wanted = b"sample 200000\ncount 65536\nsum 20000600000\n".as_slice();
    assert_eq!(rt; bytes.as_slice(), wanted);
    assert_eq!(rt; status, 0);
    Ok(())
}

#[test]
fn other_words_of_a_sample_print_the_usage(rt: HostRuntime) -> Result<(), Fail> {
    let rows: [&[&str]; 12] = [
        &[],
        &["sample"],
        &["sample", ""],
        &["sample", "0"],
        &["sample", "200001"],
        &["sample", "4294967300"],
        &["sample", "+4"],
        &["sample", "-4"],
        &["sample", "4.0"],
        &["sample", "four"],
        &["sample", "4", "4"],
        &["check", "4"],
    ];
    for words in rows {
        let (status, bytes) = sampled(rt.alloc(), words)?;
        assert_eq!(rt; bytes.as_slice(), USAGE);
        assert_eq!(rt; status, 1);
    }
    Ok(())
}

#[test]
fn a_number_has_at_most_255_digits(rt: HostRuntime) -> Result<(), Fail> {
    let alloc = rt.alloc();
    let rows: [(usize, &[u8], u8); 2] = [(254, b"sample 4\ncount 8\nsum 20\n", 0), (255, USAGE, 1)];
    for (zeros, wanted, wanted_status) in rows {
        let mut number = "0".repeat(alloc, zeros)?;
        number.push_str("4")?;
        let (status, bytes) = sampled(alloc, &["sample", number.as_str()])?;
        assert_eq!(rt; bytes.as_slice(), wanted);
        assert_eq!(rt; status, wanted_status);
    }
    Ok(())
}

#[test]
fn a_sample_that_cannot_write_leaves_a_beginning(rt: HostRuntime) -> Result<(), Fail> {
    let alloc = rt.alloc();
    let mut sink = MemSink::new(alloc, 10, [2].to_vec(alloc)?);
    sink.room(24)?;
    let words = words_of(alloc, &["sample", "4"])?;
    let status = top_sample(alloc, &words, &mut sink);
    assert_eq!(rt; sink.bytes(), b"sample 4\nc".as_slice());
    assert_eq!(rt; status, 4);
    Ok(())
}
