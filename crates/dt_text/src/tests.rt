//! Texts whose lines, words and numbers were worked out by hand.
use crate::{
    IndexFault, NumFault, append, content_lines, end_column, is_within_limit, lines, read_index,
    read_value, read_whole, words, write_number, write_value,
};
use std::test::Fail;

#[test]
fn lines_end_at_feeds(rt: HostRuntime) -> Result<(), Fail> {
    let text = b"a\tb\r\n\n# c\r\r\nlast";
    let spans: Vec<(usize, usize)> = lines(text).map(|s| (s.from, s.to)).collect(rt.alloc())?;
    let wanted = [(0, 3), (5, 5), (6, 10), (12, 16)];
    assert_eq!(rt; spans.as_slice(), wanted.as_slice());
    Ok(())
}

#[test]
fn words_stand_between_blanks(rt: HostRuntime) -> Result<(), Fail> {
    let line = b" set\t v 2  7 ";
    let spans: Vec<(usize, usize)> = words(line).map(|s| (s.from, s.to)).collect(rt.alloc())?;
    let wanted = [(1, 4), (6, 7), (8, 9), (11, 12)];
    assert_eq!(rt; spans.as_slice(), wanted.as_slice());
    Ok(())
}

#[test]
fn blank_lines_and_comments_are_skipped_and_counted(rt: HostRuntime) -> Result<(), Fail> {
    let text = b"a b\n\n # c\r\n\t\n  x#\r\n#\nlast";
    let contents: Vec<(u32, &[u8])> = content_lines(text)
        .map(|c| (c.number, c.line))
        .collect(rt.alloc())?;
    let wanted: [(u32, &[u8]); 3] = [(1, b"a b"), (5, b"  x#"), (7, b"last")];
    assert_eq!(rt; contents.as_slice(), wanted.as_slice());
    Ok(())
}

#[test]
fn numerals_are_added_up_word_by_word(rt: HostRuntime) {
    let text = b"# counts\n2.50e1\n\n-5 1000e-3\n";
    let mut sum: u64 = 0;
    for content in content_lines(text) {
        for span in words(content.line) {
            let word = content.line.get(span.from..span.to).unwrap_or(b"");
            sum = sum.wrapping_add(read_value(word).unwrap_or(0));
        }
    }
    assert_eq!(rt; sum, 21);
}

#[test]
fn a_line_may_have_4096_bytes(rt: HostRuntime) {
    let mut text = [b'x'; 4098];
    text[4096] = b'\r';
    text[4097] = b'\n';
    let mut contents = content_lines(&text);
    assert!(rt; contents.next().is_some_and(|c| is_within_limit(c.line)));
    assert!(rt; !is_within_limit(&text[..4097]));
}

#[test]
fn the_end_column_is_behind_the_last_byte_that_is_no_blank(rt: HostRuntime) {
    let rows: [(&[u8], usize); 5] = [
        (b"", 1),
        (b" \t", 1),
        (b"a", 2),
        (b" set v\t ", 7),
        (b"\xff", 2),
    ];
    for (line, column) in rows {
        assert_eq!(rt; end_column(line), column);
    }
}

#[test]
fn value_numerals_have_their_exact_value(rt: HostRuntime) {
    let rows: [(&[u8], u64); 25] = [
        (b"3.", 3),
        (b"3.000", 3),
        (b"2.50e1", 25),
        (b"1000e-3", 1),
        (b"-0", 0),
        (b"0e-999", 0),
        (b"+5", 5),
        (b"007", 7),
        (b"1e0", 1),
        (b"1E3", 1000),
        (b"1e+02", 100),
        (b"12.5e001", 125),
        (b"1.e2", 100),
        (b"120e-1", 12),
        (b"0.00e999", 0),
        (b"+0.0E-0", 0),
        (b"-1", 18_446_744_073_709_551_615),
        (b"-1.5E+1", 18_446_744_073_709_551_601),
        (b"18446744073709551615", 18_446_744_073_709_551_615),
        (b"1844674407370955161.5e1", 18_446_744_073_709_551_615),
        (b"18446744073709551615000e-3", 18_446_744_073_709_551_615),
        (b"9223372036854775808", 9_223_372_036_854_775_808),
        (b"-9223372036854775808", 9_223_372_036_854_775_808),
        (b"-922337203685477580.8e1", 9_223_372_036_854_775_808),
        (b"1e19", 10_000_000_000_000_000_000),
    ];
    for (word, value) in rows {
        assert_eq!(rt; read_value(word), Ok(value));
    }
}

#[test]
fn other_words_are_no_value_numerals(rt: HostRuntime) {
    let words: [&[u8]; 25] = [
        b"", b"+", b"-", b".", b".5", b"+.5", b"nan", b"inf", b"1e", b"1e+", b"1E-", b"1e1000",
        b"1e0001", b"1.2.3", b"--1", b"+-1", b"1e1.0", b"1e1e1", b"e5", b"1 ", b" 1", b"0x1",
        b"1_000", b"1,0", b"-e1",
    ];
    for word in words {
        assert_eq!(rt; read_value(word), Err(NumFault::Form));
    }
}

#[test]
fn numerals_that_are_not_whole_or_out_of_range_are_refused(rt: HostRuntime) {
    let rows: [(&[u8], NumFault); 15] = [
        (b"2.5", NumFault::NotWhole),
        (b"1e-1", NumFault::NotWhole),
        (b"-0.1", NumFault::NotWhole),
        (b"0.5e0", NumFault::NotWhole),
        (b"25e-2", NumFault::NotWhole),
        (b"1e-999", NumFault::NotWhole),
        (b"100000000000000000000000001e-1", NumFault::NotWhole),
        (b"18446744073709551616.5", NumFault::NotWhole),
        (b"18446744073709551616", NumFault::Range),
        (b"1844674407370955161.6e1", NumFault::Range),
        (b"-9223372036854775809", NumFault::Range),
        (b"1e20", NumFault::Range),
        (b"-1e19", NumFault::Range),
        (b"1e999", NumFault::Range),
        (b"184467440737095516160e-1", NumFault::Range),
    ];
    for (word, fault) in rows {
        assert_eq!(rt; read_value(word), Err(fault));
    }
}

#[test]
fn a_numeral_may_have_4096_bytes(rt: HostRuntime) {
    let mut word = [b'0'; 4096];
    word[4095] = b'7';
    assert_eq!(rt; read_value(&word), Ok(7));
    word[0] = b'1';
    assert_eq!(rt; read_value(&word), Err(NumFault::Range));
    word[1] = b'.';
    assert_eq!(rt; read_value(&word), Err(NumFault::NotWhole));
    word[4095] = b'0';
    assert_eq!(rt; read_value(&word), Ok(1));
    word[4095] = b'.';
    assert_eq!(rt; read_value(&word), Err(NumFault::Form));
}

#[test]
fn indices_are_digits_below_two_to_the_32(rt: HostRuntime) {
    assert_eq!(rt; read_index(b"0"), Ok(0));
    assert_eq!(rt; read_index(b"0007"), Ok(7));
    assert_eq!(rt; read_index(b"4294967295"), Ok(4_294_967_295));
    assert_eq!(rt; read_index(b"4294967296"), Err(IndexFault::Range));
    assert_eq!(rt;
        read_index(b"99999999999999999999999999"),
        Err(IndexFault::Range)
    );
    assert_eq!(rt; read_index(b""), Err(IndexFault::Form));
    assert_eq!(rt; read_index(b"-1"), Err(IndexFault::Form));
}

#[test]
fn a_whole_number_is_digits_below_two_to_the_64(rt: HostRuntime) {
    assert_eq!(rt;
        read_whole(b"18446744073709551615"),
        Some(18_446_744_073_709_551_615)
    );
    assert_eq!(rt; read_whole(b"18446744073709551616"), None);
    assert_eq!(rt; read_whole(b"0012"), Some(12));
    assert_eq!(rt; read_whole(b""), None);
    assert_eq!(rt; read_whole(b"-1"), None);
    assert_eq!(rt; read_whole(b"+12"), None);
    assert_eq!(rt; read_whole(b"1.0"), None);
}

#[test]
fn values_are_written_with_their_sign(rt: HostRuntime) -> Result<(), Fail> {
    let mut text = Vec::new(rt.alloc());
    for value in [
        0,
        9_223_372_036_854_775_807,
        9_223_372_036_854_775_808,
        u64::MAX,
    ] {
        assert!(rt; write_value(value, &mut text).is_ok());
        text.push(b' ')?;
    }
    let wanted = b"0 9223372036854775807 -9223372036854775808 -1 ";
    assert_eq!(rt; text.as_slice(), wanted.as_slice());
    Ok(())
}

#[test]
fn numbers_are_written_in_decimal(rt: HostRuntime) -> Result<(), Fail> {
    let mut text = Vec::new(rt.alloc());
    for number in [0, 7, 4_294_967_295] {
        assert!(rt; write_number(number, &mut text).is_ok());
        assert!(rt; append(&mut text, b",").is_ok());
    }
    assert_eq!(rt; text.as_slice(), b"0,7,4294967295,".as_slice());
    Ok(())
}
