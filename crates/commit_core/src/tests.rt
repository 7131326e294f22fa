//! Runs of the core over small worlds, with what each must come to.

ghost use Rattle.std.specs.Prelude.{◌≡◌, [], ◌∷◌, ◌++◌, IfOk};
ghost use Rattle.dt_model.specs.declared.calls.Call.TheVariants.{Get, Batch, Query};
ghost use Rattle.dt_model.specs.declared.calls.Update.TheVariants.{Set, Add};
ghost use Rattle.dt_model.specs.declared.replies.Verdict.TheVariants.{Accepted};
ghost use Rattle.dt_model.specs.declared.statements.Expr.TheVariants.{Access};
ghost use Rattle.dt_model.specs.Flat.{flat_schema};
ghost use Rattle.dt_model.specs.Worlds.{IsValid};

use crate::cores::Core;
use crate::events::Event::{Commit, Give, Quit, Take};
use crate::events::{Event, StepFault};
use arrayvec::ArrayVec;
use dt_model::{
    Call, Cell, Coords, Decls, Expr, List, Name, NoMemory, Pairs, Schema, Stmt, TensorDecl, Turn,
    Update, Updates, Vars, Verdict, World,
};
use std::alloc::Global;
use std::process::Abort;
use std::test::Fail;

/// A list with one item more.
fn with_last<T: Drop>(items: List<T>, item: T) -> Result<List<T>, NoMemory>
    ensures value { IfOk result (λ l. l ≡ items ++ item ∷ []) }
{
    let mut items = items;
    items.push(item)?;
    Ok(items)
}

/// A list of one item.
fn one<T: Drop>(alloc: Global, item: T) -> Result<List<T>, NoMemory>
    ensures value { IfOk result (λ l. l ≡ item ∷ []) }
{
    with_last(List::new(alloc), item)
}

/// A list of two items.
fn two<T: Drop>(alloc: Global, first: T, second: T) -> Result<List<T>, NoMemory>
    ensures value { IfOk result (λ l. l ≡ first ∷ second ∷ []) }
{
    with_last(one(alloc, first)?, second)
}

/// A name of one byte.
fn named(byte: u8) -> Result<Name, NoMemory>
    ensures value { IfOk result (λ n. n ≡ byte ∷ []) }
{
    match Name::new(&[byte]) {
        Some(name) => Ok(name),
        None => Err(NoMemory),
    }
}

/// One coordinate.
fn at(coordinate: u32) -> Coords
    ensures value { result ≡ coordinate ∷ [] }
{
    let mut coords = Coords::new();
    coords.push(coordinate);
    coords
}

/// The cell of a vector.
fn cell(tensor: u32, coordinate: u32) -> Cell
    ensures value { result ≡ record { tensor = tensor; at = coordinate ∷ [] } }
{
    Cell {
        tensor,
        at: at(coordinate),
    }
}

/// A tensor of order 1.
fn vector(name: u8, dimension: u32, latches: u32) -> Result<TensorDecl, NoMemory>
    ensures value { IfOk result (λ t. t ≡ record { name = name ∷ []; dims = dimension ∷ []; formats = record { items = 0 ∷ [] }; latches = latches }) }
{
    let name = named(name)?;
    let mut formats = ArrayVec::new();
    formats.push(0);
    Ok(TensorDecl {
        name,
        dims: at(dimension),
        formats,
        latches,
    })
}

/// An accepted get.
fn get(tensor: u32, coordinate: u32) -> Verdict
    ensures value { result ≡ Accepted (Get (record { tensor = tensor; at = coordinate ∷ [] })) }
{
    Verdict::Accepted(Call::Get(cell(tensor, coordinate)))
}

/// A set of a cell.
fn set(tensor: u32, coordinate: u32, value: u64) -> Update
    ensures value { result ≡ Set (record { tensor = tensor; at = coordinate ∷ [] }) value }
{
    Update::Set {
        cell: cell(tensor, coordinate),
        value,
    }
}

/// An add to a cell.
fn add(tensor: u32, coordinate: u32, value: u64) -> Update
    ensures value { result ≡ Add (record { tensor = tensor; at = coordinate ∷ [] }) value }
{
    Update::Add {
        cell: cell(tensor, coordinate),
        value,
    }
}

/// The statement `x(i) = b(i)`.
fn copy_of_b() -> Result<Stmt, NoMemory>
    ensures value { IfOk result (λ s. s ≡ record { name = 120 ∷ []; vars = record { items = (105 ∷ []) ∷ [] }; left = 0 ∷ []; right = Access (98 ∷ []) (0 ∷ []) }) }
{
    let name = named(b'x')?;
    let variable = named(b'i')?;
    let tensor = named(b'b')?;
    let mut vars = ArrayVec::new();
    vars.push(variable);
    let mut left = Vars::new();
    left.push(0);
    let mut right = Vars::new();
    right.push(0);
    Ok(Stmt {
        name,
        vars,
        left,
        right: Expr::Access {
            tensor,
            vars: right,
        },
    })
}

/// Of v, which has dimension 4 and 2 latches, session 1 sets the first cell and session 2 gets it.
fn small_world(alloc: Global) -> Result<World, NoMemory>
    ensures valid { IfOk result (λ w. IsValid w) }
{
    let schemas = one(alloc, Schema::flat())?;
    let tensors = one(alloc, vector(b'v', 4, 2)?)?;
    let base = one(alloc, Pairs::new(alloc))?;
    let setting = one(
        alloc,
        Verdict::Accepted(Call::Batch(Updates::of_one(alloc, set(0, 0, 5)))),
    )?;
    let getting = one(alloc, get(0, 0))?;
    let scripts = two(alloc, setting, getting)?;
    let decls = Decls { schemas, tensors };
    Ok(World {
        decls,
        base,
        scripts,
    })
}

/// The lines of a: its first cell twice.
fn lines_of_a(alloc: Global) -> Result<Pairs, NoMemory>
    ensures value { IfOk result (λ ps. ps ≡ (0 ∷ [], 2) ∷ (0 ∷ [], 3) ∷ []) }
{
    let mut lines = Pairs::new(alloc);
    lines.push((at(0), 2))?;
    lines.push((at(0), 3))?;
    Ok(lines)
}

/// The line of b.
fn lines_of_b(alloc: Global) -> Result<Pairs, NoMemory>
    ensures value { IfOk result (λ ps. ps ≡ (2 ∷ [], 1) ∷ []) }
{
    let mut lines = Pairs::new(alloc);
    lines.push((at(2), 1))?;
    Ok(lines)
}

/// The updates of the batch.
fn three_updates(alloc: Global) -> Result<Updates, NoMemory>
    ensures value { IfOk result (λ us. us ≡ Set (record { tensor = 0; at = 0 ∷ [] }) 5
        ∷ Add (record { tensor = 1; at = 2 ∷ [] }) 7 ∷ Set (record { tensor = 0; at = 3 ∷ [] }) 9 ∷ []) }
{
    let mut updates = Updates::of_one(alloc, set(0, 0, 5));
    updates.push(add(1, 2, 7))?;
    updates.push(set(0, 3, 9))?;
    Ok(updates)
}

/// Tensor a has dimension 4 and latches 0 and 1, tensor b dimension 3 and latch 2; the journal's is 3.
fn two_tensors(alloc: Global) -> Result<Decls, NoMemory>
    ensures value { IfOk result (λ d. d ≡ record {
      schemas = flat_schema ∷ [];
      tensors = record { name = 97 ∷ []; dims = 4 ∷ []; formats = record { items = 0 ∷ [] }; latches = 2 }
          ∷ record { name = 98 ∷ []; dims = 3 ∷ []; formats = record { items = 0 ∷ [] }; latches = 1 } ∷ [];
    }) }
{
    let schemas = one(alloc, Schema::flat())?;
    let tensors = two(alloc, vector(b'a', 4, 2)?, vector(b'b', 3, 1)?)?;
    Ok(Decls { schemas, tensors })
}

/// A batch over both tensors, and then a get of a cell of b.
fn batch_and_get(alloc: Global) -> Result<List<Verdict>, NoMemory>
    ensures value { IfOk result (λ s. s
        ≡ Accepted (Batch (Set (record { tensor = 0; at = 0 ∷ [] }) 5
        ∷ Add (record { tensor = 1; at = 2 ∷ [] }) 7 ∷ Set (record { tensor = 0; at = 3 ∷ [] }) 9 ∷ []))
        ∷ Accepted (Get (record { tensor = 1; at = 2 ∷ [] })) ∷ []) }
{
    let batch = Verdict::Accepted(Call::Batch(three_updates(alloc)?));
    two(alloc, batch, get(1, 2))
}

/// A query of b, and then a get of a cell of a.
fn query_and_get(alloc: Global) -> Result<List<Verdict>, NoMemory>
    ensures value { IfOk result (λ s. s
        ≡ Accepted (Query (record { name = 120 ∷ []; vars = record { items = (105 ∷ []) ∷ [] }; left = 0 ∷ []; right = Access (98 ∷ []) (0 ∷ []) }))
        ∷ Accepted (Get (record { tensor = 0; at = 3 ∷ [] })) ∷ []) }
{
    let query = Verdict::Accepted(Call::query(alloc, copy_of_b()?)?);
    two(alloc, query, get(0, 3))
}

/// Both tensors, with lines, and a session for each of the two scripts.
fn large_world(alloc: Global) -> Result<World, NoMemory>
    ensures valid { IfOk result (λ w. IsValid w) }
{
    let decls = two_tensors(alloc)?;
    let base = two(alloc, lines_of_a(alloc)?, lines_of_b(alloc)?)?;
    let scripts = two(alloc, batch_and_get(alloc)?, query_and_get(alloc)?)?;
    Ok(World {
        decls,
        base,
        scripts,
    })
}

/// `take!(1, 0)` is the event that session 1 takes latch 0.
macro_rules! take {
    ($session:literal, $latch:literal) => {
        Take {
            session: $session,
            latch: $latch,
        }
    };
}

/// `give!(1, 0)` is the event that session 1 gives latch 0 back.
macro_rules! give {
    ($session:literal, $latch:literal) => {
        Give {
            session: $session,
            latch: $latch,
        }
    };
}

const SMALL: [Event; 9] = [
    // Both need latch 0 and the journal's, which is 2: session 2 has it first, and session 1 can't.
    take!(2, 0),
    take!(1, 0),
    // With both, session 2 commits its get, which reads 0.
    take!(2, 2),
    Commit { session: 2 },
    // Once given back, latch 0 is session 1's, while session 2 still holds the journal's.
    give!(2, 0),
    take!(1, 0),
    // After the last give session 1 can take the journal's and commit.
    give!(2, 2),
    take!(1, 2),
    Commit { session: 1 },
];

const SMALL_QUIT: [Event; 2] = [
    // Before its commit session 1 can quit, and latch 0 is free again.
    take!(1, 0),
    Quit { session: 1 },
];

const WHOLE: [Event; 27] = [
    // The batch needs 0, 1, 2 and 3, in that order.
    take!(1, 0),
    take!(1, 1),
    take!(1, 2),
    // Not possible: the query needs 2 and 3, and session 1 holds 2.
    take!(2, 2),
    take!(1, 3),
    Commit { session: 1 },
    // Not possible: the batch is committed.
    Quit { session: 1 },
    // Gives come in any order.
    give!(1, 3),
    give!(1, 1),
    // Not possible: session 2 lacks 2, which comes before 3.
    take!(2, 3),
    give!(1, 0),
    // Not possible: session 1 still holds 2.
    take!(2, 2),
    // The last give: session 1 goes on to its get, which needs 2 and 3.
    give!(1, 2),
    take!(2, 2),
    // Not possible: session 2 holds 2.
    take!(1, 2),
    // The query commits second. It reads no number, since the core evaluates gets alone.
    take!(2, 3),
    Commit { session: 2 },
    give!(2, 2),
    take!(1, 2),
    // The last give: session 2 goes on to its get, which needs 1 and 3.
    give!(2, 3),
    // The get of b's last cell reads the loaded 1 and the batch's 7.
    take!(1, 3),
    Commit { session: 1 },
    // After these gives session 1 has no call left.
    give!(1, 2),
    give!(1, 3),
    // The get of a's last cell reads the batch's 9. Session 2 keeps 1 and 3.
    take!(2, 1),
    take!(2, 3),
    Commit { session: 2 },
];

const QUITS: [Event; 10] = [
    // Not possible: the batch takes 0 first.
    take!(1, 1),
    take!(1, 0),
    // Not possible: 1 comes before 2, the batch lacks three latches, and nothing is committed.
    take!(1, 2),
    Commit { session: 1 },
    give!(1, 0),
    // Session 1 loses the batch and goes on to its get, which reads the loaded 1.
    Quit { session: 1 },
    take!(1, 2),
    take!(1, 3),
    Commit { session: 1 },
    // Not possible: the get is committed.
    Quit { session: 1 },
];

const STRANGERS: [Event; 6] = [
    // Sessions are 1 and 2, latches 0 to 3.
    take!(0, 0),
    take!(3, 0),
    take!(1, 9),
    // At the opening nothing is held.
    give!(1, 0),
    Commit { session: 2 },
    Quit { session: 3 },
];

/// A turn.
fn turn(session: u32, number: u32) -> Turn {
    Turn { session, number }
}

/// A list of events, and what it must come to: the turns of the journal with what each get read,
/// the holders of the first latches, and the turns that are lost.
#[derive(Drop)]
struct Row<'a> {
    events: &'a [Event],
    made: &'a [(Turn, Option<u64>)],
    holders: &'a [(u32, u32)],
    lost: &'a [Turn],
}

/// Runs the events, and compares what they must come to.
fn check_row(rt: &impl Abort, alloc: Global, world: &World, row: &Row<'_>) -> Result<(), Fail>
    requires { IsValid world.now }
{
    let core = Core::run(alloc, world, row.events)?;
    assert_eq!(rt; core.journal().len(), row.made.len());
    for (place, (made, reply)) in row.made.iter().enumerate() {
        let entry = core.journal().get(place).ok_or("an entry")?;
        assert_eq!(rt; entry.turn, *made);
        assert_eq!(rt; core.reply(u32::try_from(place)?), *reply);
        assert_eq!(rt; core.lost(*made), false);
    }
    assert_eq!(rt; core.reply(u32::try_from(row.made.len())?), None);
    for (latch, holder) in row.holders {
        assert_eq!(rt; core.holder(*latch), *holder);
    }
    for gone in row.lost {
        assert_eq!(rt; core.lost(*gone), true);
    }
    Ok(())
}

#[test]
fn the_get_that_commits_first_reads_0(rt: HostRuntime) -> Result<(), Fail> {
    let world = small_world(rt.alloc())?;
    let row = Row {
        events: &SMALL,
        made: &[(turn(2, 1), Some(0)), (turn(1, 1), None)],
        holders: &[(0, 1), (1, 0), (2, 1)],
        lost: &[],
    };
    check_row(&rt, rt.alloc(), &world, &row)?;
    let quits = Row {
        events: &SMALL_QUIT,
        made: &[],
        holders: &[(0, 0), (1, 0), (2, 0)],
        lost: &[turn(1, 1)],
    };
    check_row(&rt, rt.alloc(), &world, &quits)
}

#[test]
fn a_step_that_is_not_possible_says_so(rt: HostRuntime) -> Result<(), Fail> {
    let world = small_world(rt.alloc())?;
    let mut core = Core::open(rt.alloc(), &world)?;
    assert_eq!(rt; core.step(take!(2, 0)), Ok(()));
    assert_eq!(rt; core.possible(take!(1, 0)), false);
    assert_eq!(rt; core.step(take!(1, 0)), Err(StepFault::NotPossible));
    assert_eq!(rt; core.holder(0), 2);
    Ok(())
}

#[test]
fn batches_and_queries_take_their_latches_in_order(rt: HostRuntime) -> Result<(), Fail> {
    let world = large_world(rt.alloc())?;
    let whole = Row {
        events: &WHOLE,
        made: &[
            (turn(1, 1), None),
            (turn(2, 1), None),
            (turn(1, 2), Some(8)),
            (turn(2, 2), Some(9)),
        ],
        holders: &[(0, 0), (1, 2), (2, 0), (3, 2), (4, 0)],
        lost: &[],
    };
    check_row(&rt, rt.alloc(), &world, &whole)?;
    let quits = Row {
        events: &QUITS,
        made: &[(turn(1, 2), Some(1))],
        holders: &[(0, 0), (1, 0), (2, 1), (3, 1)],
        lost: &[turn(1, 1)],
    };
    check_row(&rt, rt.alloc(), &world, &quits)?;
    let strangers = Row {
        events: &STRANGERS,
        made: &[],
        holders: &[(0, 0), (1, 0), (2, 0), (3, 0)],
        lost: &[],
    };
    check_row(&rt, rt.alloc(), &world, &strangers)
}
