//! Points that were worked by hand, and those of many expressions beside readings of their texts.
use crate::readings::{operands_in, products_of, standing_in, value_of_expr, value_of_text};
use crate::texts::{I, J, K, expr_of, write_expr};
use crate::{Point, PointTable, lattice};
use dt_model::NoMemory;
use std::alloc::Global;

/// The point of a set, or none where the table has no such set.
fn picked(table: &PointTable, set: u16) -> Option<&Point> {
    if usize::from(set) < table.sets() {
        table.pick(set)
    } else {
        None
    }
}

// ---- points worked by hand

/// Whether a point has this text and these operands. No point has the empty text and none.
fn is_point(alloc: Global, point: Option<&Point>, row: &(&[u8], u16)) -> Result<bool, NoMemory> {
    let mut text = Vec::new(alloc);
    let mut present = 0;
    if let Some(point) = point {
        write_expr(&point.expr, &mut text)?;
        present = point.present;
    }
    Ok(text.as_slice() == row.0 && present == row.1)
}

/// Whether the points of a text's expression are these, from the empty set on.
fn has_points(
    alloc: Global,
    text: &[u8],
    var: u8,
    rows: &[(&[u8], u16)],
) -> Result<bool, NoMemory> {
    let expr = expr_of(alloc, text)?;
    let table = lattice(alloc, &expr, var)?;
    let mut same = table.sets() == rows.len();
    let mut set: u16 = 0;
    for row in rows {
        same &= is_point(alloc, picked(&table, set), row)?;
        set = set.wrapping_add(1);
    }
    Ok(same)
}

#[test]
fn a_product_is_absent_without_its_first_factor(rt: HostRuntime) -> Result<(), NoMemory> {
    let expr = expr_of(rt.alloc(), b"b3c+*")?;
    let table = lattice(rt.alloc(), &expr, 0)?;
    assert!(rt; table.sets() == 4);
    assert!(rt; table.pick(1).is_some());
    assert!(rt; table.pick(2).is_none());
    Ok(())
}

#[test]
fn points_of_sums_and_products(rt: HostRuntime) -> Result<(), NoMemory> {
    let alloc = rt.alloc();
    let none: (&[u8], u16) = (b"", 0);
    // b(i) * (3 + c(i))
    assert!(rt;
        has_points(
            alloc,
            b"b3c+*",
            I,
            &[none, (b"b3*", 1), none, (b"b3c+*", 3)]
        )?
    );
    // b(i) + c(i)
    assert!(rt; has_points(alloc, b"bc+", I, &[none, (b"b", 1), (b"c", 2), (b"bc+", 3)])?);
    // b(i) * c(i)
    assert!(rt; has_points(alloc, b"bc*", I, &[none, none, none, (b"bc*", 3)])?);
    // b(i) * c(i) + d(i): b without c stands nowhere
    assert!(rt;
        has_points(
            alloc,
            b"bc*d+",
            I,
            &[
                none,
                none,
                none,
                (b"bc*", 3),
                (b"d", 4),
                (b"d", 4),
                (b"d", 4),
                (b"bc*d+", 7)
            ]
        )?
    );
    // 0 * b(i) is absent without b, and stands with it
    assert!(rt; has_points(alloc, b"0b*", I, &[none, (b"0b*", 1)])?);
    // b(i) + c(i) * x(j), over i, over j, and over a variable that no access has
    assert!(rt;
        has_points(
            alloc,
            b"bcx*+",
            I,
            &[none, (b"b", 1), (b"cx*", 2), (b"bcx*+", 3)]
        )?
    );
    assert!(rt; has_points(alloc, b"bcx*+", J, &[(b"b", 0), (b"bcx*+", 1)])?);
    assert!(rt; has_points(alloc, b"bcx*+", K, &[(b"bcx*+", 0)])?);
    // A(i,j) * x(j)
    assert!(rt; has_points(alloc, b"Ax*", I, &[none, (b"Ax*", 1)])?);
    assert!(rt; has_points(alloc, b"Ax*", J, &[none, none, none, (b"Ax*", 3)])?);
    Ok(())
}

#[test]
fn points_of_differences_and_negations(rt: HostRuntime) -> Result<(), NoMemory> {
    let alloc = rt.alloc();
    let none: (&[u8], u16) = (b"", 0);
    // b(i) - c(i)
    assert!(rt;
        has_points(
            alloc,
            b"bc-",
            I,
            &[none, (b"b", 1), (b"c~", 2), (b"bc-", 3)]
        )?
    );
    // -b(i)
    assert!(rt; has_points(alloc, b"b~", I, &[none, (b"b~", 1)])?);
    // -(b(i) - c(i))
    assert!(rt;
        has_points(
            alloc,
            b"bc-~",
            I,
            &[none, (b"b~", 1), (b"c~~", 2), (b"bc-~", 3)]
        )?
    );
    // 2 - b(i)
    assert!(rt; has_points(alloc, b"2b-", I, &[(b"2", 0), (b"2b-", 1)])?);
    // b(i) - 2
    assert!(rt; has_points(alloc, b"b2-", I, &[(b"2~", 0), (b"b2-", 1)])?);
    // (b(i) - c(i)) * (d(i) - 1)
    assert!(rt;
        has_points(
            alloc,
            b"bc-d1-*",
            I,
            &[
                none,
                (b"b1~*", 1),
                (b"c~1~*", 2),
                (b"bc-1~*", 3),
                none,
                (b"bd1-*", 5),
                (b"c~d1-*", 6),
                (b"bc-d1-*", 7)
            ]
        )?
    );
    Ok(())
}

// ---- all points beside readings of the text

/// Whether a point, or 0 where there is none, has the value of the text's expression for each of some seeds.
fn has_values(
    point: Option<&Point>,
    text: &[u8],
    var: u8,
    set: u16,
    seeds: u64,
    numbers: &mut Vec<u64>,
) -> Result<bool, NoMemory> {
    let mut same = true;
    for seed in 0..seeds {
        let mut value = 0;
        let mut left = 0;
        if let Some(point) = point {
            left = point.present;
            value = value_of_expr(&point.expr, var, seed, &mut left);
        }
        same &= left == 0 && value == value_of_text(text, var, set, seed, numbers)?;
    }
    Ok(same)
}

/// The operands of a point, if there is one.
fn operands_of(point: Option<&Point>) -> Option<u16> {
    match point {
        None => None,
        Some(point) => Some(point.present),
    }
}

/// Whether each set of a text's operands has the point that readings of the text ask for, for each of some seeds.
fn agrees(alloc: Global, text: &[u8], var: u8, seeds: u64) -> Result<bool, NoMemory> {
    let expr = expr_of(alloc, text)?;
    let table = lattice(alloc, &expr, var)?;
    let products = products_of(alloc, text, var)?;
    let sets = 1u16.wrapping_shl(operands_in(text, var));
    let mut numbers = Vec::new(alloc);
    let mut same = table.sets() == usize::from(sets);
    for set in 0..sets {
        let point = picked(&table, set);
        same &= operands_of(point) == standing_in(products.as_slice(), set);
        same &= has_values(point, text, var, set, seeds, &mut numbers)?;
    }
    Ok(same)
}

/// Whether the points of a text agree with its readings over each variable.
fn agrees_over_each(alloc: Global, text: &[u8], seeds: u64) -> Result<bool, NoMemory> {
    let over_i = agrees(alloc, text, I, seeds)?;
    let over_j = agrees(alloc, text, J, seeds)?;
    let over_k = agrees(alloc, text, K, seeds)?;
    Ok(over_i && over_j && over_k)
}

#[test]
fn points_of_short_expressions_are_their_readings(rt: HostRuntime) -> Result<(), NoMemory> {
    let texts: [&[u8]; 37] = [
        b"b", b"7", b"s", b"x", b"b~", b"b~~", b"bc+", b"bc-", b"bc*", b"bb*", b"bx*", b"sb*",
        b"b2-", b"2b-", b"0b*", b"b3c+*", b"bc*d+", b"bcd+*", b"bc+d*", b"bc+de+*", b"bc*de*+",
        b"bc*d-", b"bcd*-", b"bc-d*", b"bc-~d*", b"bcd+~*", b"Ax*", b"AB+", b"AT-", b"ATx*+",
        b"Dx*b+", b"A1+B*", b"xy+b*", b"sx*b+", b"bc+d+e+", b"bc*d*e*", b"bcde***",
    ];
    for text in texts {
        assert!(rt; agrees_over_each(rt.alloc(), text, 50)?);
    }
    Ok(())
}

#[test]
fn points_of_mixed_expressions_are_their_readings(rt: HostRuntime) -> Result<(), NoMemory> {
    let texts: [&[u8]; 20] = [
        b"cB+d*",
        b"xDA--",
        b"bd-A*~",
        b"cA~*2*",
        b"cd~*x~*",
        b"yTs-+d*",
        b"xc-ds-*~",
        b"y~TT-T-*",
        b"33b~+A~-+",
        b"c~~ydc-**",
        b"ded~-~s+*",
        b"s2*x-by++",
        b"e1~T**bD*-",
        b"31cT-+*Tx*+",
        b"sB00++sT*++",
        b"Ae*cb2y-*-~+",
        b"dx*e*xes*~**",
        b"BTe*-yDd+*2-*",
        b"dBs+bx*~*ec-*~x-*",
        b"AD~+sB*+s1-*~2~B**",
    ];
    for text in texts {
        assert!(rt; agrees_over_each(rt.alloc(), text, 50)?);
    }
    Ok(())
}

#[test]
fn points_of_twelve_accesses_are_their_readings(rt: HostRuntime) -> Result<(), NoMemory> {
    let texts: [&[u8]; 9] = [
        b"bc+d+e+f+g+h+l+m+n+o+p+",
        b"bc-d-e-f-g-h-l-m-n-o-p-",
        b"bcdefghlmnop***********",
        b"bc*de*+fg*+hl*+mn*+op*+",
        b"bc+de+*fg+*hl+*mn+*op+*",
        b"pA*1T3*eBg*+~mA+B+cgm**-*~-**",
        b"1Bo*yB*~**hn*Dby*+~+bm1d+-~-*-",
        b"Bf+ny-+ll+T-3*gg**~*1m*y*f-+",
        b"D1d*-hlDg**c-**~py+f2+xT++*+",
    ];
    for text in texts {
        assert!(rt; agrees_over_each(rt.alloc(), text, 50)?);
    }
    Ok(())
}
