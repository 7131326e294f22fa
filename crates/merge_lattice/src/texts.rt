//! Expressions as texts in postfix, for tests: `b3c+*` is b(i) * (3 + c(i)), and `~` negates.
ghost use Rattle.std.specs.Prelude.{◌≡◌, ◌+◌, ◌≤◌, IfOk, IfSome, length};
ghost use Rattle.dt_model.specs.declared.limits.TheConstants.{MOST_ACCESSES};
ghost use Rattle.dt_model.specs.Statements.{accesses};

use dt_model::{Expr, MOST_ACCESSES, Name, NoMemory, Vars};
use sqlite_items::Boxed;
use std::alloc::Global;

/// The variable i.
pub const I: u8 = 0;

/// The variable j.
pub const J: u8 = 1;

/// A variable that no access has.
pub const K: u8 = 2;

/// The variables of a letter: x, y and z stand for vectors of j, s for a number without coordinates, D for D(i,i),
/// A and B for matrices of i and j, T for A(j,i), and each other letter for a vector of i.
pub fn vars_of(letter: u8) -> Vars {
    let mut vars = Vars::new();
    match letter {
        b's' => {}
        b'x' | b'y' | b'z' => vars.push(J),
        b'A' | b'B' => {
            vars.push(I);
            vars.push(J);
        }
        b'T' => {
            vars.push(J);
            vars.push(I);
        }
        b'D' => {
            vars.push(I);
            vars.push(I);
        }
        _ => vars.push(I),
    }
    vars
}

/// The name of the tensor that a letter stands for.
pub fn name_of(letter: u8) -> u8 {
    if letter == b'T' { b'A' } else { letter }
}

/// The access that a letter stands for.
fn access_of(letter: u8) -> Expr {
    let name = match Name::new(&[name_of(letter)]) {
        Some(name) => name,
        None => Name::default(),
    };
    Expr::Access {
        tensor: name,
        vars: vars_of(letter),
    }
}

/// Two parts under an operator.
fn under(alloc: Global, operator: u8, left: Expr, right: Expr) -> Result<Expr, NoMemory> {
    let left = Boxed::new(alloc, left)?;
    let right = Boxed::new(alloc, right)?;
    match operator {
        b'+' => Ok(Expr::Plus(left, right)),
        b'-' => Ok(Expr::Minus(left, right)),
        _ => Ok(Expr::Times(left, right)),
    }
}

/// The last of some parts, or 0.
fn last_of(parts: &mut Vec<Expr>) -> Expr {
    match parts.pop() {
        Some(part) => part,
        None => Expr::Literal(0),
    }
}

/// What a byte of a text makes of the parts before it.
fn part_of(alloc: Global, byte: u8, parts: &mut Vec<Expr>) -> Result<Expr, NoMemory> {
    match byte {
        b'+' | b'-' | b'*' => {
            let right = last_of(parts);
            let left = last_of(parts);
            under(alloc, byte, left, right)
        }
        b'~' => {
            let inner = Boxed::new(alloc, last_of(parts))?;
            Ok(Expr::Negate(inner))
        }
        b'0'..=b'9' => Ok(Expr::Literal(u64::from(byte - b'0'))),
        _ => Ok(access_of(byte)),
    }
}

/// How many accesses may follow those of an expression, where it begins with room for this many: none if it has more.
#[tactic(auto, using(crate::proofs::Laws::access_laws))]
fn room_after(expr: &Expr, room: usize) -> Option<usize>
    ensures value { IfSome result (λ left. length (accesses expr.now) + left ≡ room) }
{
    match expr {
        Expr::Literal(_) => Some(room),
        Expr::Access { .. } => room.checked_sub(1),
        Expr::Plus(a, b) | Expr::Minus(a, b) | Expr::Times(a, b) => {
            let left = room_after(a.get(), room)?;
            let rest = room_after(b.get(), left)?;
            Some(rest)
        }
        Expr::Negate(a) => room_after(a.get(), room),
    }
}

/// An expression with at most 12 accesses, or 0.
fn limited(expr: Expr) -> Expr
    ensures few { length (accesses result) ≤ MOST_ACCESSES }
{
    match room_after(&expr, MOST_ACCESSES) {
        None => Expr::Literal(0),
        Some(_) => expr,
    }
}

/// The expression that a text writes.
pub fn expr_of(alloc: Global, text: &[u8]) -> Result<Expr, NoMemory>
    ensures few { IfOk result (λ e. length (accesses e) ≤ MOST_ACCESSES) }
{
    let mut parts = Vec::new(alloc);
    for byte in text {
        let part = part_of(alloc, *byte, &mut parts)?;
        parts.push(part)?;
    }
    Ok(limited(last_of(&mut parts)))
}

/// Writes an expression behind a text. A literal is written by its last digit, and an access by its tensor's letter.
pub fn write_expr(expr: &Expr, text: &mut Vec<u8>) -> Result<(), NoMemory> {
    match expr {
        Expr::Literal(value) => text.push(b'0' + (*value % 10) as u8)?,
        Expr::Access { tensor, vars: _ } => text.push(first_of(tensor.bytes()))?,
        Expr::Plus(a, b) => {
            write_expr(a.get(), text)?;
            write_expr(b.get(), text)?;
            text.push(b'+')?;
        }
        Expr::Minus(a, b) => {
            write_expr(a.get(), text)?;
            write_expr(b.get(), text)?;
            text.push(b'-')?;
        }
        Expr::Times(a, b) => {
            write_expr(a.get(), text)?;
            write_expr(b.get(), text)?;
            text.push(b'*')?;
        }
        Expr::Negate(a) => {
            write_expr(a.get(), text)?;
            text.push(b'~')?;
        }
    }
    Ok(())
}

/// The first byte of a name.
pub fn first_of(name: &[u8]) -> u8 {
    match name.first() {
        Some(byte) => *byte,
        None => 0,
    }
}
