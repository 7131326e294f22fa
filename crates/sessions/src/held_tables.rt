//! The answer of a statement over the stores that a seat holds.
ghost use Rattle.std.specs.Prelude.{◌≡◌, ◌<◌, true, length, IfOk, OnOk, IsTrue};
ghost use Rattle.dt_model.specs.declared.calls.Call.TheVariants.{Query};
ghost use Rattle.dt_model.specs.Contents.{Contents};
ghost use Rattle.dt_model.specs.Latches.{needs};
ghost use Rattle.dt_model.specs.Statements.{accesses, answer};
ghost use Rattle.dt_model.specs.Verdicts.{call_is_valid};
ghost use Rattle.dt_model.specs.Worlds.{decls_are_valid};
ghost use Rattle.slow_eval.specs.Given.{has_entry};
ghost use Rattle.sessions.specs.HeldTables.{AreFibersOf, AreHeldTables, HoldsEach};
ghost use Rattle.sessions.specs.QueryTables.{HasTable, HaveTables, KeepsTables};

use crate::fiber_rows::{Fibers, rows_of};
use crate::hands::Hands;
use dt_model::{Decls, Expr, Name, NoMemory, Nonzeros, Stmt};
use fiber_store::FiberStore;
use slow_eval::{Tables, evaluate};
use std::alloc::Global;

impl Fibers for Hands {
    ghost use Rattle.sessions.specs.HeldTables.{IsStoreAt};

    ghost has = { λ hands l s. IsStoreAt hands.items l s };

    fn store(&self, latch: u32) -> Option<&FiberStore> {
        for hand in self {
            if hand.latch == latch {
                return Some(&hand.store);
            }
        }
        None
    }
}

/// Adds the table of a declared tensor, unless it is there.
fn add_held_table(
    alloc: Global,
    decls: &Decls,
    hands: &Hands,
    tensor: u32,
    tables: &mut Tables,
) -> Result<(), NoMemory>
    requires decls { IsTrue (decls_are_valid decls.now) }
    requires declared { tensor < length decls.now.tensors }
    requires tables { AreHeldTables decls.now hands.now.items tables.old.entries }
    ensures tables { OnOk result (AreHeldTables decls.now hands.now.items tables.new.entries) }
    ensures has { OnOk result (has_entry tables.new.entries tensor ≡ true) }
    ensures kept { OnOk result (KeepsTables tables.old.entries tables.new.entries) }
{
    if tables.has(tensor) {
        return Ok(());
    }
    let pairs = rows_of(alloc, decls, hands, tensor)?;
    Ok(tables.add(tensor, pairs)?)
}

/// Adds the table of the tensor with this name, if there is one.
fn add_held_named(
    alloc: Global,
    decls: &Decls,
    hands: &Hands,
    name: &Name,
    tables: &mut Tables,
) -> Result<(), NoMemory>
    requires decls { IsTrue (decls_are_valid decls.now) }
    requires tables { AreHeldTables decls.now hands.now.items tables.old.entries }
    ensures tables { OnOk result (AreHeldTables decls.now hands.now.items tables.new.entries) }
    ensures has { OnOk result (HasTable decls.now tables.new.entries name.now) }
    ensures kept { OnOk result (KeepsTables tables.old.entries tables.new.entries) }
{
    match decls.find_tensor(name) {
        Some(tensor) => add_held_table(alloc, decls, hands, tensor as u32, tables),
        None => Ok(()),
    }
}

/// Adds the tables of the tensors that an expression names, each once.
fn add_held_tables(
    alloc: Global,
    decls: &Decls,
    hands: &Hands,
    expr: &Expr,
    tables: &mut Tables,
) -> Result<(), NoMemory>
    requires decls { IsTrue (decls_are_valid decls.now) }
    requires tables { AreHeldTables decls.now hands.now.items tables.old.entries }
    ensures tables { OnOk result (AreHeldTables decls.now hands.now.items tables.new.entries) }
    ensures has { OnOk result (HaveTables decls.now tables.new.entries (accesses expr.now)) }
    ensures kept { OnOk result (KeepsTables tables.old.entries tables.new.entries) }
{
    match expr {
        Expr::Literal(_) => Ok(()),
        Expr::Access { tensor, .. } => add_held_named(alloc, decls, hands, tensor, tables),
        Expr::Plus(a, b) => {
            add_held_tables(alloc, decls, hands, a.get(), tables)?;
            add_held_tables(alloc, decls, hands, b.get(), tables)
        }
        Expr::Minus(a, b) => {
            add_held_tables(alloc, decls, hands, a.get(), tables)?;
            add_held_tables(alloc, decls, hands, b.get(), tables)
        }
        Expr::Times(a, b) => {
            add_held_tables(alloc, decls, hands, a.get(), tables)?;
            add_held_tables(alloc, decls, hands, b.get(), tables)
        }
        Expr::Negate(a) => add_held_tables(alloc, decls, hands, a.get(), tables),
    }
}

/// The answer of a valid statement over the stores that are held. It takes one pass over the cells of each tensor that the
/// statement names, and the time of the evaluation.
pub fn answer_of(
    alloc: Global,
    decls: &Decls,
    hands: &Hands,
    stmt: &Stmt,
) -> Result<Nonzeros, NoMemory>
    requires decls { IsTrue (decls_are_valid decls.now) }
    requires call { IsTrue (call_is_valid decls.now (Query stmt.now)) }
    ensures value { IfOk result (λ pairs. (m : Contents) → AreFibersOf decls.now m hands.now.items
        → HoldsEach (needs decls.now (Query stmt.now)) hands.now.items → pairs ≡ answer decls.now m stmt.now) }
{
    let mut tables = Tables::new(alloc);
    add_held_tables(alloc, decls, hands, &stmt.right, &mut tables)?;
    evaluate(alloc, stmt, decls, &tables)
}
