//! What a text says of presence and values, read from the text alone, and an expression's value, for tests.
//!
//! An expression is the sum of products of accesses and literals. It is present where all operands of one of them
//! are, and the operands that stand in what is left are those of all such products.
use crate::texts::{first_of, name_of, vars_of};
use dt_model::{Expr, NoMemory};
use std::alloc::Global;

/// Whether a letter's access has a variable.
pub fn has(letter: u8, var: u8) -> bool {
    letter.is_ascii_alphabetic() && vars_of(letter).as_slice().contains(&var)
}

/// The last of some lists, or an empty one.
fn last_of(alloc: Global, lists: &mut Vec<Vec<u16>>) -> Vec<u16> {
    match lists.pop() {
        Some(list) => list,
        None => Vec::new(alloc),
    }
}

/// Puts the products of one factor with each of the others behind a list.
fn put_products(one: u16, others: &[u16], list: &mut Vec<u16>) -> Result<(), NoMemory> {
    for other in others {
        list.push(one | *other)?;
    }
    Ok(())
}

/// Each product of two factors.
fn products(alloc: Global, left: &[u16], right: &[u16]) -> Result<Vec<u16>, NoMemory> {
    let mut list = Vec::new(alloc);
    for one in left {
        put_products(*one, right, &mut list)?;
    }
    Ok(list)
}

/// Puts the sets of one list behind another.
fn put_all(sets: &[u16], list: &mut Vec<u16>) -> Result<(), NoMemory> {
    for set in sets {
        list.push(*set)?;
    }
    Ok(())
}

/// The list of one set.
fn list_of(alloc: Global, set: u16) -> Result<Vec<u16>, NoMemory> {
    let mut list = Vec::new(alloc);
    list.push(set)?;
    Ok(list)
}

/// What a byte of a text makes of the lists before it, where its access is this operand, if it is one.
fn list_under(
    alloc: Global,
    byte: u8,
    operand: Option<u32>,
    lists: &mut Vec<Vec<u16>>,
) -> Result<Vec<u16>, NoMemory> {
    match byte {
        b'+' | b'-' => {
            let right = last_of(alloc, lists);
            let mut left = last_of(alloc, lists);
            put_all(right.as_slice(), &mut left)?;
            Ok(left)
        }
        b'*' => {
            let right = last_of(alloc, lists);
            let left = last_of(alloc, lists);
            products(alloc, left.as_slice(), right.as_slice())
        }
        b'~' => Ok(last_of(alloc, lists)),
        _ => match operand {
            None => list_of(alloc, 0),
            Some(operand) => list_of(alloc, 1u16.wrapping_shl(operand)),
        },
    }
}

/// The operands of each product that a text's expression is the sum of, as sets of bits.
pub fn products_of(alloc: Global, text: &[u8], var: u8) -> Result<Vec<u16>, NoMemory> {
    let mut lists = Vec::new(alloc);
    let mut next: u32 = 0;
    for byte in text {
        let mut operand = None;
        if has(*byte, var) {
            operand = Some(next);
            next = next.saturating_add(1);
        }
        let list = list_under(alloc, *byte, operand, &mut lists)?;
        lists.push(list)?;
    }
    Ok(last_of(alloc, &mut lists))
}

/// How many operands of a variable a text has.
pub fn operands_in(text: &[u8], var: u8) -> u32 {
    let mut count: u32 = 0;
    for byte in text {
        if has(*byte, var) {
            count = count.saturating_add(1);
        }
    }
    count
}

/// The operands of the products that lie in a set, if there is one.
pub fn standing_in(products: &[u16], set: u16) -> Option<u16> {
    let mut standing = None;
    for product in products {
        if *product & !set == 0 {
            standing = match standing {
                None => Some(*product),
                Some(others) => Some(others | *product),
            };
        }
    }
    standing
}

// ---- values at numbers of a small generator

/// A number that looks like chance, the same for the same seed and key: the generator splitmix64.
pub fn number_at(seed: u64, key: u64) -> u64 {
    let step = key.wrapping_mul(0x9E37_79B9_7F4A_7C15);
    let first = seed.wrapping_add(step);
    let second = (first ^ (first >> 30)).wrapping_mul(0xBF58_476D_1CE4_E5B9);
    let third = (second ^ (second >> 27)).wrapping_mul(0x94D0_49BB_1331_11EB);
    third ^ (third >> 31)
}

/// The key of a tensor's name and variables.
fn key_of(name: u8, vars: &[u8]) -> u64 {
    let mut key: u64 = 1000 + u64::from(name);
    for var in vars {
        key = key.wrapping_mul(1000).wrapping_add(u64::from(*var));
    }
    key
}

/// The number of a letter's access that isn't an operand.
fn other_at(seed: u64, letter: u8) -> u64 {
    let vars = vars_of(letter);
    number_at(seed, key_of(name_of(letter), vars.as_slice()))
}

/// The number of an operand by its place, name and variables.
fn operand_number(seed: u64, operand: u32, name: u8, vars: &[u8]) -> u64 {
    let key = key_of(name, vars).wrapping_mul(16);
    number_at(seed, key.wrapping_add(u64::from(operand)))
}

/// The number of a letter's access that is an operand: 0 outside of the set.
fn operand_at(seed: u64, operand: u32, set: u16, letter: u8) -> u64 {
    if set.wrapping_shr(operand) % 2 == 1 {
        operand_number(seed, operand, name_of(letter), vars_of(letter).as_slice())
    } else {
        0
    }
}

/// The last of some numbers, or 0.
fn last_number(numbers: &mut Vec<u64>) -> u64 {
    match numbers.pop() {
        Some(number) => number,
        None => 0,
    }
}

/// What a byte of a text that is no access makes of the numbers before it.
fn number_under(byte: u8, numbers: &mut Vec<u64>) -> u64 {
    match byte {
        b'~' => 0u64.wrapping_sub(last_number(numbers)),
        b'0'..=b'9' => u64::from(byte - b'0'),
        _ => {
            let right = last_number(numbers);
            let left = last_number(numbers);
            match byte {
                b'+' => left.wrapping_add(right),
                b'-' => left.wrapping_sub(right),
                _ => left.wrapping_mul(right),
            }
        }
    }
}

/// The value of a text's expression where operands outside of the set are 0 and all else has the generator's numbers.
/// The list is for the numbers in between.
pub fn value_of_text(
    text: &[u8],
    var: u8,
    set: u16,
    seed: u64,
    numbers: &mut Vec<u64>,
) -> Result<u64, NoMemory> {
    let mut next: u32 = 0;
    for byte in text {
        let number = if has(*byte, var) {
            let operand = next;
            next = next.saturating_add(1);
            operand_at(seed, operand, set, *byte)
        } else if byte.is_ascii_alphabetic() {
            other_at(seed, *byte)
        } else {
            number_under(*byte, numbers)
        };
        numbers.push(number)?;
    }
    Ok(last_number(numbers))
}

/// The number of the lowest operand of a set under this name and these variables. The operand then leaves the set.
fn take_operand(seed: u64, set: &mut u16, name: u8, vars: &[u8]) -> u64 {
    let operand = set.trailing_zeros();
    *set &= set.wrapping_sub(1);
    operand_number(seed, operand, name, vars)
}

/// The value of a point's expression at the generator's numbers, where its operands are those of the set from the
/// lowest on. They leave the set.
pub fn value_of_expr(expr: &Expr, var: u8, seed: u64, set: &mut u16) -> u64 {
    match expr {
        Expr::Literal(value) => *value,
        Expr::Access { tensor, vars } => {
            let name = first_of(tensor.bytes());
            if vars.as_slice().contains(&var) {
                take_operand(seed, set, name, vars.as_slice())
            } else {
                number_at(seed, key_of(name, vars.as_slice()))
            }
        }
        Expr::Plus(a, b) => {
            let left = value_of_expr(a.get(), var, seed, set);
            left.wrapping_add(value_of_expr(b.get(), var, seed, set))
        }
        Expr::Minus(a, b) => {
            let left = value_of_expr(a.get(), var, seed, set);
            left.wrapping_sub(value_of_expr(b.get(), var, seed, set))
        }
        Expr::Times(a, b) => {
            let left = value_of_expr(a.get(), var, seed, set);
            left.wrapping_mul(value_of_expr(b.get(), var, seed, set))
        }
        Expr::Negate(a) => 0u64.wrapping_sub(value_of_expr(a.get(), var, seed, set)),
    }
}
