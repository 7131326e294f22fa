//! Facts that no clause says, each shown by a table or a run.
ghost use Rattle.std.specs.Prelude.{◌≡◌, [], ◌∷◌, IfOk};
ghost use Rattle.dt_model.specs.declared.declared_tensors.TensorDecl.{TensorDecl};
ghost use Rattle.dt_model.specs.Flat.{flat_schema};

use crate::calls::{Call, Cell, Entry, Journal, Turn, Update};
use crate::declared_tensors::{Decls, Schema, TensorDecl};
use crate::latches::{latch_count, latch_of};
use crate::lists::List;
use crate::names::Name;
use crate::places::{Coords, Vars};
use crate::replies::Verdict;
use crate::statements::{Expr, Stmt};
use crate::steps::Steps;
use crate::updates::Updates;
use arrayvec::ArrayVec;
use sqlite_items::Boxed;
use std::alloc::Global;
use std::marker::Brand;
use std::sync::ledger::{Blank, Ledger};
use std::test::Fail;

fn coords(numbers: &[u32]) -> Coords {
    let mut coords = Coords::new();
    for number in numbers {
        if coords.len() < 8 {
            coords.push(*number);
        }
    }
    coords
}

#[test]
fn names_begin_with_a_letter(rt: HostRuntime) {
    let rows = [
        ("v", true),
        ("_", true),
        ("A1_b", true),
        ("abcdefghijklmnopqrstuvwxyzABCDEF", true),
        ("abcdefghijklmnopqrstuvwxyzABCDEFG", false),
        ("", false),
        ("1a", false),
        ("a-b", false),
        ("a b", false),
        ("é", false),
    ];
    for (text, want) in rows {
        assert_eq!(rt; Name::new(text.as_bytes()).is_some(), want, "{text}");
    }
}

#[test]
fn coordinates_are_in_lexicographic_order(rt: HostRuntime) {
    assert!(rt; coords(&[]) < coords(&[0]));
    assert!(rt; coords(&[1]) < coords(&[1, 0]));
    assert!(rt; coords(&[1, 9]) < coords(&[2]));
    assert!(rt; coords(&[1, 2, 3]) < coords(&[1, 3, 0]));
    assert!(rt; coords(&[4_294_967_295]) > coords(&[4_294_967_294, 1]));
    assert!(rt; coords(&[1, 2]) == coords(&[1, 2]));
}

fn vector(alloc: Global, name: Name, latches: u32) -> Result<Decls, Fail>
    ensures value { let tensor : TensorDecl = record { name = name; dims = 6186 ∷ []; formats = record { items = 0 ∷ [] }; latches = latches } in
        IfOk result (λ d. d ≡ record { schemas = flat_schema ∷ []; tensors = tensor ∷ [] }) }
{
    let mut dims = Coords::new();
    dims.push(6186);
    let mut formats = ArrayVec::new();
    formats.push(0);
    let mut schemas = List::new(alloc);
    schemas.push(Schema::flat())?;
    let mut tensors = List::new(alloc);
    tensors.push(TensorDecl {
        name,
        dims,
        formats,
        latches,
    })?;
    Ok(Decls { schemas, tensors })
}

#[test]
fn last_coordinate_is_in_fiber_63(rt: HostRuntime) -> Result<(), Fail> {
    let Some(name) = Name::new(b"T") else {
        return Err(Fail::from("not a name"));
    };
    let decls = vector(rt.alloc(), name, 64)?;
    let mut at = Coords::new();
    at.push(6185);
    assert_eq!(rt; latch_of(&decls, &Cell { tensor: 0, at }), 63);
    assert_eq!(rt; latch_count(&decls), 64);
    Ok(())
}

#[test]
fn a_tensor_is_found_by_its_name(rt: HostRuntime) -> Result<(), Fail> {
    let (Some(name), Some(other)) = (Name::new(b"T"), Name::new(b"U")) else {
        return Err(Fail::from("not a name"));
    };
    let decls = vector(rt.alloc(), name.copy(), 64)?;
    assert_eq!(rt; decls.find_tensor(&name), Some(0));
    assert_eq!(rt; decls.find_tensor(&other), None);
    assert!(rt; decls.copy(rt.alloc())? == decls);
    Ok(())
}

fn bytes_at_three<L: Ledger>(steps: &Steps<L>) -> usize
    requires three { steps.now ≡ 3 }
{
    size_of_val(steps)
}

fn bytes_after_three_ticks<L: Ledger>(blank: Blank) -> usize
    requires name { blank.name ≡ L.name }
    requires parts { blank.parts ≡ L.parts }
    requires one { blank.parts ≡ 1 }
{
    let mut steps = Steps::<L>::open(blank);
    steps.tick();
    steps.tick();
    steps.tick();
    bytes_at_three(&steps)
}

#[test]
fn steps_hold_no_byte(rt: HostRuntime) {
    assert_eq!(rt; bytes_after_three_ticks::<Brand>(Blank::new(1)), 0);
}

#[test]
fn lists_and_journals_keep_what_is_pushed(rt: HostRuntime) -> Result<(), Fail> {
    let mut values = List::new(rt.alloc());
    for value in [7, 0, 18_446_744_073_709_551_615_u64] {
        values.push(value)?;
    }
    assert_eq!(rt; values.len(), 3);
    assert_eq!(rt; values.get(2), Some(&18_446_744_073_709_551_615));
    assert_eq!(rt; values.get(3), None);
    let mut journal = Journal::with_room(rt.alloc(), 2)?;
    let turn = Turn {
        session: 1,
        number: 2,
    };
    let cell = Cell {
        tensor: 0,
        at: coords(&[4]),
    };
    journal.push(Entry {
        turn,
        call: Call::Get(cell),
    });
    assert_eq!(rt; journal.len(), 1);
    assert_eq!(rt; journal.get(0).map(|entry| entry.turn), Some(turn));
    assert!(rt; journal.get(1).is_none());
    Ok(())
}

#[test]
fn a_set_is_entered(rt: HostRuntime) -> Result<(), Fail> {
    let mut at = Coords::new();
    at.push(4);
    let set = Update::Set {
        cell: Cell { tensor: 0, at },
        value: 7,
    };
    let call = Call::Batch(Updates::of_one(rt.alloc(), set));
    let mut journal = Journal::with_room(rt.alloc(), 1)?;
    journal.push(Entry {
        turn: Turn {
            session: 1,
            number: 1,
        },
        call,
    });
    assert_eq!(rt; journal.len(), 1);
    Ok(())
}

#[test]
fn what_there_is_many_of_is_small(rt: HostRuntime) {
    assert_eq!(rt; size_of::<Coords>(), 36);
    assert_eq!(rt; size_of::<Cell>(), 40);
    assert_eq!(rt; size_of::<Update>(), 56);
    assert_eq!(rt; size_of::<Updates>(), 64);
    assert_eq!(rt; size_of::<Call>(), 72);
    assert_eq!(rt; size_of::<Entry>(), 80);
    assert_eq!(rt; size_of::<Verdict>(), 80);
}

#[test]
fn updates_keep_what_is_pushed(rt: HostRuntime) -> Result<(), Fail> {
    let mut updates = Updates::new(rt.alloc());
    assert_eq!(rt; updates.len(), 0);
    for value in [3, 0, 18_446_744_073_709_551_615_u64] {
        let at = coords(&[1]);
        updates.push(Update::Set {
            cell: Cell { tensor: 2, at },
            value,
        })?;
    }
    let copied = updates.copy(rt.alloc())?;
    let rows = [
        (0, Some(3)),
        (1, Some(0)),
        (2, Some(18_446_744_073_709_551_615)),
        (3, None),
    ];
    for (index, want) in rows {
        assert_eq!(rt;
            copied.get(index).map(|update| match update {
                Update::Set { value, .. } => *value,
                Update::Add { .. } => 1,
            }),
            want
        );
    }
    Ok(())
}

fn product(alloc: Global, x: Name, y: Name, i: Name) -> Result<Stmt, Fail> {
    let mut vars = ArrayVec::new();
    vars.push(i);
    let mut left = Vars::new();
    left.push(0);
    let mut at = Vars::new();
    at.push(0);
    let minus = Expr::Negate(Boxed::new(alloc, Expr::Literal(3))?);
    let access = Expr::Access {
        tensor: x,
        vars: at,
    };
    Ok(Stmt {
        name: y,
        vars,
        left,
        right: Expr::Plus(Boxed::new(alloc, access)?, Boxed::new(alloc, minus)?),
    })
}

fn is_access_of_x(expr: &Expr) -> bool {
    match expr {
        Expr::Access { tensor, vars } => tensor.bytes() == b"x".as_slice()
            && vars.as_slice() == [0].as_slice(),
        _ => false,
    }
}

fn is_minus_three(expr: &Expr) -> bool {
    match expr {
        Expr::Negate(inner) => matches!(inner.get(), Expr::Literal(3)),
        _ => false,
    }
}

fn is_right_side(expr: &Expr) -> bool {
    match expr {
        Expr::Plus(access, minus) => is_access_of_x(access.get()) && is_minus_three(minus.get()),
        _ => false,
    }
}

fn is_product(call: &Call) -> bool {
    match call {
        Call::Query(stmt) => {
            let stmt = stmt.get();
            stmt.name.bytes() == b"y".as_slice()
                && stmt.vars.len() == 1
                && stmt.vars.iter().all(|name| name.bytes() == b"i".as_slice())
                && stmt.left.as_slice() == [0].as_slice()
                && is_right_side(&stmt.right)
        }
        _ => false,
    }
}

#[test]
fn copies_are_equal(rt: HostRuntime) -> Result<(), Fail> {
    let alloc = rt.alloc();
    let (Some(x), Some(y), Some(i)) = (Name::new(b"x"), Name::new(b"y"), Name::new(b"i")) else {
        return Err(Fail::from("not a name"));
    };
    let mut updates = Updates::new(alloc);
    updates.push(Update::Add {
        cell: Cell {
            tensor: 1,
            at: coords(&[2, 3]),
        },
        value: 5,
    })?;
    let entry = Entry {
        turn: Turn {
            session: 1,
            number: 1,
        },
        call: Call::query(alloc, product(alloc, x, y, i)?)?,
    };
    let copied = entry.copy(alloc)?;
    assert_eq!(rt; copied.turn, entry.turn);
    assert!(rt; is_product(&copied.call));
    assert_eq!(rt; updates.copy(alloc)?.as_slice(), updates.as_slice());
    Ok(())
}
