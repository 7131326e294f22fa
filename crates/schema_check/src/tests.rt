//! What no clause says: which worked schemas are checked, and for which rule and kind the others are refused.

use crate::{Breach, Formats, check, flat};
use arrayvec::ArrayVec;
use dt_model::{Kind, Links, MOST_KINDS, Name, Schema};

/// The name of one letter.
fn name(letter: u8) -> Name {
    match Name::new(&[letter]) {
        Some(name) => name,
        None => Name::default(),
    }
}

/// The number of two digits.
fn number(tens: u8, ones: u8) -> u32 {
    10 * u32::from(tens.wrapping_sub(b'0')) + u32::from(ones.wrapping_sub(b'0'))
}

/// The links to two letters; `-` is none, and `*` is woven.
fn links(pre: u8, post: u8) -> Links {
    match (pre, post) {
        (b'-', b'-') => Links::Flat,
        (b'-', b'*') => Links::Woven,
        (b'-', _) => Links::Post(name(post)),
        _ => Links::Ends {
            pre: name(pre),
            post: name(post),
        },
    }
}

/// The schema `s` of this root, with at most 16 kinds of eight bytes each: a letter, two bounds of two digits, the letters
/// before and behind the run, and a blank.
fn schema(text: &[u8], root: u8) -> Schema {
    let mut kinds: ArrayVec<Kind, MOST_KINDS> = ArrayVec::new();
    for row in text.chunks_exact(8) {
        if let [letter, a, b, c, d, pre, post, _blank] = row
            && !kinds.is_full()
        {
            kinds.push(Kind {
                name: name(*letter),
                lo: number(*a, *b),
                hi: number(*c, *d),
                links: links(*pre, *post),
            });
        }
    }
    Schema {
        name: name(b's'),
        kinds,
        root: name(root),
    }
}

/// Whether the schema is checked and answered as it is.
fn is_checked(schema: &Schema) -> bool {
    match check(schema) {
        Ok(checked) => checked.schema() == schema,
        Err(_) => false,
    }
}

/// Whether the schema is refused for this rule and kind.
fn is_refused(schema: &Schema, rule: u8, kind: u8) -> bool {
    match check(schema) {
        Ok(_) => false,
        Err(breach) => {
            breach
                == Breach {
                    rule,
                    kind: name(kind),
                }
        }
    }
}

#[test]
fn schemas_at_the_bounds_of_each_rule_are_checked(rt: HostRuntime) {
    let rows: [(&[u8], u8); 16] = [
        // the schemas tree, list and bst
        (b"B0408-* ", b'B'),
        (b"C0108-C ", b'C'),
        (b"E0101EE ", b'E'),
        // rule 1: 1 and 16; rule 2: 1; rule 3: 2, and half of it
        (b"A0116-A ", b'A'),
        (b"A0101-A ", b'A'),
        (b"A0102-* ", b'A'),
        (b"A0816-* ", b'A'),
        (b"A0205-* ", b'A'),
        // rule 4: the root and the links may be declared in any order
        (b"A0102-* B0102-A ", b'B'),
        // rule 5: woven, or followed by itself
        (b"A0104-B B0104-B ", b'A'),
        (b"A0104BA B0104AB ", b'A'),
        // rule 6: half of 17, of 16 and of 2 elements; a woven kind has room for any
        (b"A0116-B B0108-B ", b'A'),
        (b"A0115-B B0108-B ", b'A'),
        (b"A0101-B B0101-B ", b'A'),
        (b"A0116-W W0102-* ", b'A'),
        // rule 7: by way of kinds that are declared before
        (b"A0102-* B0102AB C0102BC D0102CD ", b'D'),
    ];
    for (text, root) in rows {
        assert!(rt; is_checked(&schema(text, root)));
    }
}

#[test]
fn each_rule_of_bounds_is_told_before_later_ones(rt: HostRuntime) {
    let rows: [(&[u8], u8, u8, u8); 10] = [
        // rule 1 alone, and before rules 2 and 3
        (b"A0002-* ", b'A', 1, b'A'),
        (b"A0117-A ", b'A', 1, b'A'),
        (b"A0201-A ", b'A', 1, b'A'),
        (b"A0101-* B0004-* C0004-* ", b'A', 1, b'B'),
        // rule 2 alone, and before rule 4
        (b"A0204-A ", b'A', 2, b'A'),
        (b"A0204AA ", b'A', 2, b'A'),
        (b"A0204-X ", b'A', 2, b'A'),
        // rule 3 alone, and before rule 4
        (b"A0101-* ", b'A', 3, b'A'),
        (b"A0305-* ", b'A', 3, b'A'),
        (b"A0203-* ", b'X', 3, b'A'),
    ];
    for (text, root, rule, kind) in rows {
        assert!(rt; is_refused(&schema(text, root), rule, kind));
    }
}

#[test]
fn repeats_are_told_before_links_and_links_before_the_root(rt: HostRuntime) {
    let rows: [(&[u8], u8, u8, u8); 9] = [
        (b"A0102-* A0102-* ", b'A', 4, b'A'),
        (b"A0102-* B0102-* B0102-* A0102-* ", b'A', 4, b'B'),
        (b"A0102-X ", b'A', 4, b'A'),
        (b"A0102XA ", b'A', 4, b'A'),
        (b"A0102-* ", b'R', 4, b'R'),
        (b"", b'R', 4, b'R'),
        (b"A0102-X B0102-* B0102-* ", b'R', 4, b'B'),
        (b"A0102-* B0102-X ", b'R', 4, b'B'),
        // before rules 5 and 7
        (b"A0102-B B0102-C C0102-X ", b'A', 4, b'C'),
    ];
    for (text, root, rule, kind) in rows {
        assert!(rt; is_refused(&schema(text, root), rule, kind));
    }
}

#[test]
fn each_rule_of_links_is_told_before_later_ones(rt: HostRuntime) {
    let rows: [(&[u8], u8, u8, u8); 11] = [
        // rule 5: a flat kind before the run or behind it, and one that doesn't go on alike
        (b"A0102FA F0102-- ", b'A', 5, b'A'),
        (b"A0102-F F0102-- ", b'A', 5, b'A'),
        (b"C0102-* A0102-B B0102-C ", b'A', 5, b'A'),
        // rule 5 before rule 6
        (b"A0116-B B0104-C C0102-* ", b'A', 5, b'A'),
        // rule 6 alone, and before rule 7
        (b"A0116-B B0104-B ", b'A', 6, b'A'),
        (b"A0116-B B0107-B ", b'A', 6, b'A'),
        (b"A0115AB B0107AB ", b'A', 6, b'A'),
        (b"A0116-B B0104-B C0102-* ", b'A', 6, b'A'),
        // rule 7: a kind before the root, one behind it, and kinds that reach each other
        (b"A0102-* B0102-* ", b'B', 7, b'A'),
        (b"A0102-* B0102-A ", b'A', 7, b'B'),
        (b"A0102-* B0102CB C0102BC ", b'A', 7, b'B'),
    ];
    for (text, root, rule, kind) in rows {
        assert!(rt; is_refused(&schema(text, root), rule, kind));
    }
}

#[test]
fn formats_have_their_schemas_under_numbers(rt: HostRuntime) -> Result<(), dt_model::NoMemory> {
    let mut formats = Formats::new(rt.alloc());
    formats.push(flat())?;
    match check(&schema(b"B0408-* ", b'B')) {
        Ok(tree) => formats.push(tree)?,
        Err(_) => assert!(rt; false),
    }
    assert_eq!(rt; formats.len(), 2);
    for (number, given) in [(0, &b"flat"[..]), (1, b"s")] {
        let is_there = match formats.get(number) {
            Some(checked) => checked.schema().name.bytes() == given,
            None => false,
        };
        assert!(rt; is_there);
    }
    assert!(rt; formats.get(2).is_none());
    Ok(())
}
