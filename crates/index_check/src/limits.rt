//! Whether a statement is within the limits.
ghost use Rattle.std.specs.Prelude.{◌≡◌, ◌&&◌, length, nat_le};
ghost use Rattle.dt_model.specs.declared.limits.TheConstants.{MOST_ACCESSES, MOST_LITERALS};
ghost use Rattle.dt_model.specs.Statements.{accesses, literals};
ghost use Rattle.dt_model.specs.Verdicts.{is_small};
ghost use Rattle.index_check.specs.Small.{room_less, room_after};

use crate::appearance::is_by_appearance;
use dt_model::{Expr, MOST_ACCESSES, MOST_LITERALS, MOST_VARIABLES, Stmt};

/// How many accesses and literals there may still be.
#[derive(Clone, Copy, Debug)]
pub struct Room {
    /// The accesses.
    pub accesses: u8,
    /// The literals.
    pub literals: u8,
}

/// The room without one literal. None where there is no room for it.
fn room_after_literal(room: Room) -> Option<Room>
    ensures value { result ≡ room_less room 0 1 }
{
    if room.literals == 0 {
        return None;
    }
    Some(Room {
        accesses: room.accesses,
        literals: room.literals - 1,
    })
}

/// The room without one access. None where there is no room for it.
fn room_after_access(room: Room) -> Option<Room>
    ensures value { result ≡ room_less room 1 0 }
{
    if room.accesses == 0 {
        return None;
    }
    Some(Room {
        accesses: room.accesses - 1,
        literals: room.literals,
    })
}

/// The room that an expression leaves. None where it needs more than there is.
fn room_after(room: Room, expr: &Expr) -> Option<Room>
    ensures value { result ≡ room_after room expr.now }
{
    match expr {
        Expr::Literal(_) => room_after_literal(room),
        Expr::Access { tensor: _, vars: _ } => room_after_access(room),
        Expr::Plus(a, b) => match room_after(room, a.get()) {
            None => None,
            Some(left) => room_after(left, b.get()),
        },
        Expr::Minus(a, b) => match room_after(room, a.get()) {
            None => None,
            Some(left) => room_after(left, b.get()),
        },
        Expr::Times(a, b) => match room_after(room, a.get()) {
            None => None,
            Some(left) => room_after(left, b.get()),
        },
        Expr::Negate(a) => room_after(room, a.get()),
    }
}

/// Whether an expression is within the limits on accesses and literals.
fn has_few_leaves(expr: &Expr) -> bool
    ensures value { result ≡ nat_le (length (accesses expr.now)) MOST_ACCESSES && nat_le (length (literals expr.now)) MOST_LITERALS }
{
    let room = Room {
        accesses: MOST_ACCESSES as u8,
        literals: MOST_LITERALS as u8,
    };
    room_after(room, expr).is_some()
}

/// Whether a statement is within the limits on accesses, literals and variables, and its variables are
/// listed by first appearance, each name once. It takes no memory.
pub fn is_small(stmt: &Stmt) -> bool
    ensures value { result ≡ is_small stmt.now }
{
    has_few_leaves(&stmt.right) && stmt.vars.len() <= MOST_VARIABLES && is_by_appearance(stmt)
}
